//! Matching a side of a law with a term, and filling a side with terms.

ghost use Rattle.std.specs.Prelude.{◌≡◌, IfOk, List, Option};
ghost use Rattle.std.specs.Option.{option_map};
ghost use Rattle.law_derive.specs.declared.node.Node.{Node as Part};
ghost use Rattle.law_derive.specs.Matching.{Filling as Known, found, match_first, match_side, taken};
ghost use Rattle.law_derive.specs.Views.{answer_of, filling_says, goes_on};

use crate::node::{Kind, Node};
use crate::parts::extent;
use crate::same::{same_node, same_nodes, same_width};
use nir_host::OutOfMemory;

/// A letter, and the term for which it stands.
#[derive(Clone, Copy)]
pub struct Filled<'a> {
    pub letter: u32,
    pub term: &'a [Node],
}

/// What letters stand for, the last first. There are few of them.
pub type Filling<'a> = Vec<Filled<'a>>;

/// What a letter stands for.
pub fn found<'a>(filling: &[Filled<'a>], letter: u32) -> Option<&'a [Node]>
    ensures { option_map (λ term. term.now) result ≡ found letter (filling_says filling.now) }
{
    for one in filling {
        if one.letter == letter {
            return Some(one.term);
        }
    }
    None
}

/// A letter takes a term, or has it already; false where it has another one.
fn take<'a>(filling: &mut Filling<'a>, letter: u32, term: &'a [Node]) -> Result<bool, OutOfMemory>
    ensures { IfOk result (λ is. taken letter term.now (filling_says filling.old.items) (found letter (filling_says filling.old.items)) ≡ answer_of is (filling_says filling.new.items)) }
{
    if let Some(own) = found(filling.as_slice(), letter) {
        return Ok(same_nodes(own, term));
    }
    match filling.insert(0, Filled { letter, term }) {
        Ok(()) => Ok(true),
        Err(_failed) => Err(OutOfMemory),
    }
}

/// The first part of a side at the first of the nodes: those behind what it matched, None where it does not match.
fn match_part<'a>(
    part: Node,
    nodes: &'a [Node],
    filling: &mut Filling<'a>,
) -> Result<Option<&'a [Node]>, OutOfMemory>
    ensures { IfOk result (λ behind. (others : List Part → Known → Option Known) → match_first part nodes.now (filling_says filling.old.items) others
        ≡ goes_on (option_map (λ list. list.now) behind) others (filling_says filling.new.items)) }
{
    let Some((node, behind)) = nodes.split_first() else {
        return Ok(None);
    };
    let Kind::Var { var } = part.kind else {
        if !same_node(part, *node) {
            return Ok(None);
        }
        return Ok(Some(behind));
    };
    if !same_width(part.width, node.width) {
        return Ok(None);
    }
    let size = extent(1, nodes);
    if !take(filling, var, &nodes[..size])? {
        return Ok(None);
    }
    Ok(Some(&nodes[size..]))
}

/// Whether a side matches the terms that begin here. Its letters are filled.
pub fn match_side<'a>(
    side: &[Node],
    nodes: &'a [Node],
    filling: &mut Filling<'a>,
) -> Result<bool, OutOfMemory>
    ensures { IfOk result (λ is. match_side side.now nodes.now (filling_says filling.old.items) ≡ answer_of is (filling_says filling.new.items)) }
{
    let mut left = side;
    let mut rest = nodes;
    'parts: while let Some((part, others)) = left.split_first() {
        let Some(behind) = match_part(*part, rest, filling)? else {
            return Ok(false);
        };
        rest = behind;
        left = others;
    }
    Ok(true)
}
