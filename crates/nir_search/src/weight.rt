//! How much a shader weighs.

ghost use Rattle.std.specs.Prelude.{◌≡◌, ◌≤◌, ◌-◌, ◌*◌, [], ◌∷◌, sum_by};
ghost use Rattle.nir_ir.specs.Nodes.{nodes_of};
ghost use Rattle.rule_term.specs.Table.{op_weight};
ghost use Rattle.nir_search.specs.Weight.{instr_weight, total, weight_of};

use nir_ir::{Instr, Node, Shader};
use rule_term::Table;

/// How much no opcode weighs more than.
const MAX_WEIGHT: u64 = 60;

/// The weights of the opcodes of a shader together, by the weights of a table; at most 60 for each of its numbers.
/// Linear in the size of the shader.
pub fn weight_of(table: &Table, shader: &Shader) -> u64
    ensures value { result ≡ weight_of (op_weight table.now) shader.now }
    ensures few { result ≤ 60 * shader.now.next_value }
{
    // The proof learns that no weight is above the most.
    table.weights_are_few();
    let most = MAX_WEIGHT * u64::from(shader.next_value);
    most - without_list(table, shader.body.as_slice(), most)
}

// A sum is kept as what is left of the most that it can be, so that it needs no bound of its own.

/// What is left after one instruction.
fn without_instr(table: &Table, instr: &Instr, left: u64) -> u64
    ensures { result ≡ left - instr_weight (op_weight table.now) instr.now }
{
    match instr {
        Instr::Alu { op, .. } => left.saturating_sub(u64::from(table.weight(*op))),
        Instr::Const { .. }
        | Instr::Undef { .. }
        | Instr::Input { .. }
        | Instr::Output { .. }
        | Instr::LoadBuf { .. }
        | Instr::StoreBuf { .. } => left,
    }
}

/// What is left after the instructions of a block.
fn without_instrs(table: &Table, instrs: &[Instr], left: u64) -> u64
    ensures { result ≡ left - sum_by (instr_weight (op_weight table.now)) instrs.now }
{
    let mut left = left;
    for instr in instrs {
        left = without_instr(table, instr, left);
    }
    left
}

/// What is left after a list of nodes.
#[cycle(weighing)]
#[tactic(auto, using(crate::proofs::WeightLemmas::total_steps))]
fn without_list(table: &Table, list: &[Node], left: u64) -> u64
    ensures { result ≡ left - total (op_weight table.now) (nodes_of list.now) }
{
    let mut left = left;
    for node in list {
        left = without_node(table, node, left);
    }
    left
}

/// What is left after a node.
#[cycle(weighing)]
#[tactic(auto, using(crate::proofs::WeightLemmas::total_steps))]
fn without_node(table: &Table, node: &Node, left: u64) -> u64
    ensures { result ≡ left - total (op_weight table.now) (nodes_of (node.now ∷ [])) }
{
    match node {
        Node::Block(block) => without_instrs(table, block.instrs.as_slice(), left),
        Node::If { yes, no, .. } => {
            let left = without_list(table, yes.as_slice(), left);
            without_list(table, no.as_slice(), left)
        }
        Node::Loop { body, .. } => without_list(table, body.as_slice(), left),
    }
}
