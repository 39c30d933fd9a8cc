//! Sides of laws with terms for their letters.

ghost use Rattle.std.specs.Prelude.{◌≡◌, ◌++◌, OnOk};
ghost use Rattle.law_derive.specs.Derivations.{are_filled, is_filled};
ghost use Rattle.law_derive.specs.Matching.{filled, filled_part};
ghost use Rattle.law_derive.specs.Views.{filling_says};

use crate::matching::{Filled, found};
use crate::node::{Kind, Node};
use nir_host::{OutOfMemory, Seq};

/// Whether each letter of a side stands for something.
pub fn are_filled(filling: &[Filled<'_>], side: &[Node]) -> bool
    ensures { result ≡ are_filled (filling_says filling.now) side.now }
{
    let mut left = side;
    'parts: while let Some((part, others)) = left.split_first() {
        if !is_filled(filling, part.kind) {
            return false;
        }
        left = others;
    }
    true
}

fn is_filled(filling: &[Filled<'_>], kind: Kind) -> bool
    ensures { result ≡ is_filled (filling_says filling.now) kind }
{
    match kind {
        Kind::Var { var } => found(filling, var).is_some(),
        Kind::App { .. } | Kind::Lit { .. } => true,
    }
}

/// Adds a side with the terms for its letters.
pub fn push_filled(
    out: &mut Seq<Node>,
    side: &[Node],
    filling: &[Filled<'_>],
) -> Result<(), OutOfMemory>
    ensures { OnOk result (out.new ≡ out.old ++ filled (filling_says filling.now) side.now) }
{
    for part in side {
        push_part(out, *part, filling)?;
    }
    Ok(())
}

fn push_part(out: &mut Seq<Node>, part: Node, filling: &[Filled<'_>]) -> Result<(), OutOfMemory>
    ensures { OnOk result (out.new ≡ out.old ++ filled_part (filling_says filling.now) part.kind part) }
{
    let Kind::Var { var } = part.kind else {
        return out.push(part);
    };
    match found(filling, var) {
        Some(term) => out.extend_from_slice(term),
        None => Ok(()),
    }
}
