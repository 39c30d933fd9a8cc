//! The lines of a list of nodes, each behind the spaces of the lists and blocks around it.

ghost use Rattle.std.specs.Prelude.{◌≡◌, [], ◌∷◌, ◌++◌, OnOk, IfOk, codes};
ghost use Rattle.std.specs.List.{flat_map};
ghost use Rattle.std.specs.Option.{option_to_list};
ghost use Rattle.nir_ir.specs.Nodes.{nodes_of};
ghost use Rattle.nir_print.specs.Text.{line, deeper, block_name, value_text, phi_text, instr_text, jump_text, block_text, if_text, loop_text, nodes_text};

use crate::line::{push_instr, push_jump, push_phi};
use crate::naming::Naming;
use crate::word::{push_block_name, push_value};
use nir_host::OutOfMemory;
use nir_ir::{Block, BlockId, Instr, Jump, Node, Phi, ValueId};
use std::alloc::Global;
use text_bytes::push;

/// The spaces of what stands one list or block further in.
pub(crate) fn deeper(alloc: Global, indent: &[u8]) -> Result<Vec<u8>, OutOfMemory>
    ensures { IfOk result (λ spaces. spaces.items ≡ deeper indent.now) }
{
    let mut spaces = Vec::from_slice(alloc, indent)?;
    push(&mut spaces, b"  ")?;
    Ok(spaces)
}

/// Adds a line of fixed words.
pub(crate) fn push_line(out: &mut Vec<u8>, indent: &[u8], words: &[u8]) -> Result<(), OutOfMemory>
    ensures { OnOk result (out.new.items ≡ out.old.items ++ line indent.now words.now) }
{
    push(out, indent)?;
    push(out, words)?;
    push(out, b"\n")
}

fn push_block_head(
    out: &mut Vec<u8>,
    naming: &Naming,
    indent: &[u8],
    block: BlockId,
) -> Result<(), OutOfMemory>
    ensures { OnOk result (out.new.items ≡ out.old.items ++ line indent.now (codes "block " ++ block_name naming.now block ++ codes " {")) }
{
    push(out, indent)?;
    push(out, b"block ")?;
    push_block_name(out, naming, block)?;
    push(out, b" {\n")
}

fn push_if_head(
    out: &mut Vec<u8>,
    naming: &Naming,
    indent: &[u8],
    cond: ValueId,
) -> Result<(), OutOfMemory>
    ensures { OnOk result (out.new.items ≡ out.old.items ++ line indent.now (codes "if " ++ value_text naming.now cond ++ codes " {")) }
{
    push(out, indent)?;
    push(out, b"if ")?;
    push_value(out, naming, cond)?;
    push(out, b" {\n")
}

fn push_phis(
    alloc: Global,
    out: &mut Vec<u8>,
    naming: &Naming,
    indent: &[u8],
    phis: &[Phi],
) -> Result<(), OutOfMemory>
    ensures { OnOk result (out.new.items ≡ out.old.items ++ flat_map (λ phi. line indent.now (phi_text naming.now phi)) phis.now) }
{
    for phi in phis {
        push(out, indent)?;
        push_phi(alloc, out, naming, phi)?;
        push(out, b"\n")?;
    }
    Ok(())
}

fn push_instrs(
    out: &mut Vec<u8>,
    naming: &Naming,
    indent: &[u8],
    instrs: &[Instr],
) -> Result<(), OutOfMemory>
    ensures { OnOk result (out.new.items ≡ out.old.items ++ flat_map (λ instr. line indent.now (instr_text naming.now instr)) instrs.now) }
{
    for instr in instrs {
        push(out, indent)?;
        push_instr(out, naming, instr)?;
        push(out, b"\n")?;
    }
    Ok(())
}

fn push_jump_line(out: &mut Vec<u8>, indent: &[u8], jump: Option<Jump>) -> Result<(), OutOfMemory>
    ensures { OnOk result (out.new.items ≡ out.old.items ++ flat_map (λ jump. line indent.now (jump_text jump)) (option_to_list jump)) }
{
    match jump {
        Some(jump) => {
            push(out, indent)?;
            push_jump(out, jump)?;
            push(out, b"\n")
        }
        None => Ok(()),
    }
}

fn push_block(
    alloc: Global,
    out: &mut Vec<u8>,
    naming: &Naming,
    indent: &[u8],
    block: &Block,
) -> Result<(), OutOfMemory>
    ensures { OnOk result (out.new.items ≡ out.old.items ++ block_text naming.now indent.now block.now) }
{
    let spaces = deeper(alloc, indent)?;
    let inner = spaces.as_slice();
    push_block_head(out, naming, indent, block.id)?;
    push_phis(alloc, out, naming, inner, block.phis.as_slice())?;
    push_instrs(out, naming, inner, block.instrs.as_slice())?;
    push_jump_line(out, inner, block.jump)?;
    push_line(out, indent, b"}")
}

/// Adds the lines of a list of nodes.
#[cycle(nodes)]
pub(crate) fn push_nodes(
    alloc: Global,
    out: &mut Vec<u8>,
    naming: &Naming,
    indent: &[u8],
    list: &[Node],
) -> Result<(), OutOfMemory>
    ensures { OnOk result (out.new.items ≡ out.old.items ++ nodes_text naming.now indent.now (nodes_of list.now)) }
{
    for node in list {
        push_node(alloc, out, naming, indent, node)?;
    }
    Ok(())
}

#[cycle(nodes)]
fn push_node(
    alloc: Global,
    out: &mut Vec<u8>,
    naming: &Naming,
    indent: &[u8],
    node: &Node,
) -> Result<(), OutOfMemory>
    ensures { OnOk result (out.new.items ≡ out.old.items ++ nodes_text naming.now indent.now (nodes_of (node.now ∷ []))) }
{
    match node {
        Node::Block(block) => push_block(alloc, out, naming, indent, block),
        Node::If { cond, yes, no, .. } => {
            let spaces = deeper(alloc, indent)?;
            let inner = spaces.as_slice();
            push_if_head(out, naming, indent, *cond)?;
            push_nodes(alloc, out, naming, inner, yes.as_slice())?;
            push_line(out, indent, b"} else {")?;
            push_nodes(alloc, out, naming, inner, no.as_slice())?;
            push_line(out, indent, b"}")
        }
        Node::Loop { body, .. } => {
            let spaces = deeper(alloc, indent)?;
            let inner = spaces.as_slice();
            push_line(out, indent, b"loop {")?;
            push_nodes(alloc, out, naming, inner, body.as_slice())?;
            push_line(out, indent, b"}")
        }
    }
}
