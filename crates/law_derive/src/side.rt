//! The sides of laws as terms at a size.

ghost use Rattle.std.specs.Prelude.{◌≡◌, [], ◌∷◌, ◌++◌, IfOk, OnOk, map};
ghost use Rattle.op_eval.specs.Calls.{size_at};
ghost use Rattle.law_derive.specs.LawTable.{sized, unsized_in};
ghost use Rattle.law_derive.specs.Views.{node_at, side_says, sources_at};

use crate::law::LawNode;
use crate::letters::number_of;
use crate::node::{Kind, Node};
use nir_host::{OutOfMemory, Seq};
use nir_ops::{OpInput, Width, info};
use rule_term::reduced;
use std::alloc::Global;

/// The node of a part of a side, at its size. A number is a word of the size.
fn node_at(part: LawNode, size: Width) -> Node
    ensures { result ≡ node_at part size }
{
    let kind = match part {
        LawNode::App { op } => Kind::App { op },
        LawNode::Letter { letter } => Kind::Var {
            var: number_of(letter),
        },
        LawNode::Lit { value, .. } => Kind::Lit {
            word: reduced(i128::from(value), size),
        },
    };
    Node { kind, width: size }
}

/// The sizes of the sources of a part, before those behind it.
#[tactic(auto, unfolding(op_eval::specs::Calls::source_widths))]
fn sources_before(
    alloc: Global,
    part: LawNode,
    width: Width,
    size: Width,
    behind: &[Width],
) -> Result<Seq<Width>, OutOfMemory>
    ensures { IfOk result (λ sizes. sizes ≡ sources_at width part size ++ behind.now) }
{
    let LawNode::App { op } = part else {
        return Seq::from_slice(alloc, behind);
    };
    let row = info(op);
    let mut sizes = Seq::new(alloc);
    push_sources(
        &mut sizes,
        row.inputs.as_slice(),
        free_size(width, row.out.size, size),
    )?;
    sizes.extend_from_slice(behind)?;
    Ok(sizes)
}

/// The unsized bit size of an opcode whose result has this size, where the law has that one.
fn free_size(width: Width, out: Option<Width>, size: Width) -> Width
    ensures { result ≡ unsized_in width out size }
{
    match out {
        None => size,
        Some(_) => width,
    }
}

/// The sizes of sources, where the unsized ones have this one.
fn push_sources(sizes: &mut Seq<Width>, inputs: &[OpInput], free: Width) -> Result<(), OutOfMemory>
    ensures { OnOk result (sizes.new ≡ sizes.old ++ map (λ input. size_at input.kind.size free) inputs.now) }
{
    for input in inputs {
        sizes.push(input.kind.size.unwrap_or(free))?;
    }
    Ok(())
}

/// The nodes of a side of a law of this size, where the terms that stand one after another have those sizes.
pub fn side_at(
    alloc: Global,
    side: &[LawNode],
    width: Width,
    value: Width,
) -> Result<Seq<Node>, OutOfMemory>
    ensures { IfOk result (λ nodes. nodes ≡ sized width (side_says side.now) (value ∷ [])) }
{
    let mut nodes = Seq::new(alloc);
    let mut sizes = Seq::new(alloc);
    sizes.push(value)?;
    let mut left = side;
    'parts: while let Some((part, others)) = left.split_first() {
        let [size, behind @ ..] = sizes.as_slice() else {
            return Ok(nodes);
        };
        nodes.push(node_at(*part, *size))?;
        sizes = sources_before(alloc, *part, width, *size, behind)?;
        left = others;
    }
    Ok(nodes)
}
