//! The first round but for the order of nodes: the rules that look at single items, in one pass over the tree.

ghost use Rattle.std.specs.Prelude.{◌≡◌, [], ◌∷◌, cond, map, Some, None};
ghost use Rattle.std.specs.Option.{option_to_list};
ghost use Rattle.nir_ir.specs.Items.{BlockHead, IfHead, InstrItem, JumpItem, LoopHead, PhiItem};
ghost use Rattle.nir_ir.specs.Nodes.{nodes_of};
ghost use Rattle.nir_validate.specs.KindTable.{kinds_in};
ghost use Rattle.nir_validate.specs.Passing.{next_item, passed_block, passed_head, passed_if, passed_in, passed_instr, passed_instrs, passed_jump, passed_phi, passed_phis};

use crate::fault::{Fault, kept};
use crate::rules::{
    instr_is_declared, instr_kinds_fit, instr_names_components, is_condition, sources_have_kind,
};
use nir_ir::{Block, Instr, Jump, Kind, Node, Phi, Shader, ValueId};

/// The number of the next item, and the first fault of those before it.
#[derive(Clone, Copy, Debug)]
pub struct Pass {
    pub at: u64,
    pub found: Option<Fault>,
}

impl Pass {
    /// Past one item, with what is found by then.
    fn next(self, found: Option<Fault>) -> Pass
        ensures { result ≡ next_item self found }
    {
        Pass {
            at: self.at.saturating_add(1),
            found,
        }
    }
}

/// Past the head of a block or a loop.
pub(crate) fn pass_head(pass: Pass) -> Pass
    ensures { result ≡ passed_head pass }
{
    pass.next(pass.found)
}

fn pass_phis(kinds: &[Option<Kind>], phis: &[Phi], pass: Pass) -> Pass
    ensures { result ≡ passed_phis (kinds_in kinds.now) pass phis.now }
{
    let mut pass = pass;
    for phi in phis {
        pass = pass_phi(kinds, phi, pass);
    }
    pass
}

fn pass_phi(kinds: &[Option<Kind>], phi: &Phi, pass: Pass) -> Pass
    ensures { result ≡ passed_phi (kinds_in kinds.now) pass phi.now }
{
    let fits = sources_have_kind(kinds, phi.sources.as_slice(), phi.kind);
    pass.next(kept(pass.found, fits, 1, pass.at))
}

fn pass_instrs(kinds: &[Option<Kind>], shader: &Shader, instrs: &[Instr], pass: Pass) -> Pass
    ensures { result ≡ passed_instrs (kinds_in kinds.now) shader.now pass instrs.now }
{
    let mut pass = pass;
    for instr in instrs {
        pass = pass_instr(kinds, shader, instr, pass);
    }
    pass
}

fn pass_instr(kinds: &[Option<Kind>], shader: &Shader, instr: &Instr, pass: Pass) -> Pass
    ensures { result ≡ passed_instr (kinds_in kinds.now) shader.now pass instr.now }
{
    let found = kept(pass.found, instr_kinds_fit(kinds, instr), 1, pass.at);
    let found = kept(found, instr_is_declared(kinds, shader, instr), 2, pass.at);
    pass.next(kept(found, instr_names_components(kinds, instr), 8, pass.at))
}

fn pass_jump(jump: Option<Jump>, in_loop: bool, pass: Pass) -> Pass
    ensures { result ≡ passed_jump in_loop pass jump }
{
    match jump {
        None => pass,
        Some(_) => pass.next(kept(pass.found, in_loop, 4, pass.at)),
    }
}

fn pass_if(kinds: &[Option<Kind>], cond: ValueId, pass: Pass) -> Pass
    ensures { result ≡ passed_if (kinds_in kinds.now) pass cond }
{
    pass.next(kept(pass.found, is_condition(kinds, cond), 9, pass.at))
}

fn pass_block(
    kinds: &[Option<Kind>],
    shader: &Shader,
    block: &Block,
    in_loop: bool,
    pass: Pass,
) -> Pass
    ensures { result ≡ passed_block (kinds_in kinds.now) shader.now in_loop pass block.now }
{
    let pass = pass_head(pass);
    let pass = pass_phis(kinds, block.phis.as_slice(), pass);
    let pass = pass_instrs(kinds, shader, block.instrs.as_slice(), pass);
    pass_jump(block.jump, in_loop, pass)
}

/// Past the items of a list of nodes.
#[cycle(pass)]
#[tactic(auto, using(crate::proofs::PassLemmas::passing_steps))]
pub(crate) fn pass_list(
    kinds: &[Option<Kind>],
    shader: &Shader,
    list: &[Node],
    in_loop: bool,
    pass: Pass,
) -> Pass
    ensures { result ≡ passed_in (kinds_in kinds.now) shader.now in_loop pass (nodes_of list.now) }
{
    let mut pass = pass;
    for node in list {
        pass = pass_node(kinds, shader, node, in_loop, pass);
    }
    pass
}

/// Past the items of a node.
#[cycle(pass)]
#[tactic(auto, using(crate::proofs::PassLemmas::passing_steps))]
fn pass_node(
    kinds: &[Option<Kind>],
    shader: &Shader,
    node: &Node,
    in_loop: bool,
    pass: Pass,
) -> Pass
    ensures { result ≡ passed_in (kinds_in kinds.now) shader.now in_loop pass (nodes_of (node.now ∷ [])) }
{
    match node {
        Node::Block(block) => pass_block(kinds, shader, block, in_loop, pass),
        Node::If { cond, yes, no, .. } => {
            let pass = pass_if(kinds, *cond, pass);
            let pass = pass_list(kinds, shader, yes.as_slice(), in_loop, pass);
            pass_list(kinds, shader, no.as_slice(), in_loop, pass)
        }
        Node::Loop { body, .. } => pass_list(kinds, shader, body.as_slice(), true, pass_head(pass)),
    }
}
