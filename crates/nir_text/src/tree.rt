//! Blocks, ifs and loops, and their lists.

ghost use Rattle.std.specs.Prelude.{◌≡◌, ◌<◌, [], ◌∷◌, length, Err};
ghost use Rattle.nir_ir.specs.Nodes.{nodes_of};
ghost use Rattle.nir_text.specs.Reading.{Gives};
ghost use Rattle.nir_text.specs.Table.{naming};
ghost use Rattle.nir_text.specs.Tree.{block_at, if_at, loop_at, node_at, nodes_at, list_at};
ghost use Rattle.nir_text.specs.View.{point};

use crate::fault::TextFault;
use crate::instr::instrs_at;
use crate::phi::{jump_at, phis_at};
use crate::point::Point;
use crate::reading::{mark_at, value_used_at, word_at};
use crate::table::NameTable;
use nir_ir::{Block, IfId, List, LoopId, Node};
use std::alloc::Global;

/// A block behind the word `block`.
#[tactic(auto, unfolding(crate::specs::Tree::block_at))]
fn block_at<'a>(
    alloc: Global,
    names: &NameTable<'_>,
    p: &Point<'a>,
) -> Result<(Block, Point<'a>), TextFault>
    ensures { Gives (λ x. (x.0, point x.1)) result (block_at (naming names.now) (point p.now)) }
{
    let (id, at) = p.block_defined(names)?;
    let begun = mark_at(&at, b'{')?;
    let (phis, at) = phis_at(alloc, names, &begun)?;
    let (instrs, at) = instrs_at(alloc, names, &at)?;
    let (jump, at) = jump_at(&at)?;
    let close = mark_at(&at, b'}')?;
    Ok((
        Block {
            id,
            phis,
            instrs,
            jump,
        },
        close,
    ))
}

/// The fault where no list may begin.
#[tactic(auto, unfolding(crate::specs::Tree::list_at))]
fn no_list(names: &NameTable<'_>, p: &Point<'_>) -> TextFault
    ensures { list_at (naming names.now) 0 (point p.now) ≡ Err result }
{
    let _ = names;
    let sign = p.here();
    if sign.is_mark(b'{') {
        return TextFault::TooDeep(sign.place);
    }
    TextFault::Expected(sign.place)
}

/// A list that may hold so many lists inside one another, itself among them.
#[cycle(lists)]
pub fn list_at<'a>(
    alloc: Global,
    names: &NameTable<'_>,
    depth: usize,
    p: &Point<'a>,
) -> Result<(List, Point<'a>), TextFault>
    ensures { Gives (λ x. (nodes_of x.0, point x.1)) result (list_at (naming names.now) depth (point p.now)) }
{
    if depth == 0 {
        return Err(no_list(names, p));
    }
    let begun = mark_at(p, b'{')?;
    nodes_at(alloc, names, depth - 1, &begun)
}

/// The nodes of a list, up to the closing brace. Lists inside them may be so deep.
#[cycle(lists)]
fn nodes_at<'a>(
    alloc: Global,
    names: &NameTable<'_>,
    depth: usize,
    p: &Point<'a>,
) -> Result<(List, Point<'a>), TextFault>
    ensures { Gives (λ x. (nodes_of x.0, point x.1)) result (nodes_at (list_at (naming names.now) depth) (naming names.now) (length (point p.now).rest) (point p.now)) }
{
    let mut list = List::new(alloc);
    let mut at = *p;
    let fuel = p.len();
    'nodes: for _turn in 0..fuel {
        if at.here().is_mark(b'}') {
            return Ok((list, at.next()));
        }
        let (node, after) = node_at(alloc, names, depth, &at)?;
        list.push(node)?;
        at = after;
    }
    Err(TextFault::Expected(at.here().place))
}

/// A block, an if or a loop.
#[cycle(lists)]
#[tactic(auto, using(crate::proofs::Starts::starts), unfolding(crate::specs::Tree::node_at))]
fn node_at<'a>(
    alloc: Global,
    names: &NameTable<'_>,
    depth: usize,
    p: &Point<'a>,
) -> Result<(Node, Point<'a>), TextFault>
    ensures { Gives (λ x. (nodes_of (x.0 ∷ []), point x.1)) result (node_at (list_at (naming names.now) depth) (naming names.now) (point p.now)) }
{
    let sign = p.here();
    if sign.is_word(b"block") {
        let (block, at) = block_at(alloc, names, &p.next())?;
        return Ok((Node::Block(block), at));
    }
    if sign.is_word(b"if") {
        return if_at(alloc, names, depth, p);
    }
    if sign.is_word(b"loop") {
        return loop_at(alloc, names, depth, p);
    }
    Err(TextFault::Expected(sign.place))
}

/// An if, from its word on.
#[cycle(lists)]
#[tactic(auto, unfolding(crate::specs::Tree::if_at))]
fn if_at<'a>(
    alloc: Global,
    names: &NameTable<'_>,
    depth: usize,
    p: &Point<'a>,
) -> Result<(Node, Point<'a>), TextFault>
    requires there { 0 < length (point p.now).rest }
    ensures { Gives (λ x. (nodes_of (x.0 ∷ []), point x.1)) result (if_at (list_at (naming names.now) depth) (naming names.now) (point p.now)) }
{
    let id = IfId(p.counts().ifs);
    let (cond, at) = value_used_at(names, &p.with_if())?;
    let (yes, at) = list_at(alloc, names, depth, &at)?;
    let at = word_at(&at, b"else")?;
    let (no, at) = list_at(alloc, names, depth, &at)?;
    Ok((Node::If { id, cond, yes, no }, at))
}

/// A loop, from its word on.
#[cycle(lists)]
#[tactic(auto, unfolding(crate::specs::Tree::loop_at))]
fn loop_at<'a>(
    alloc: Global,
    names: &NameTable<'_>,
    depth: usize,
    p: &Point<'a>,
) -> Result<(Node, Point<'a>), TextFault>
    requires there { 0 < length (point p.now).rest }
    ensures { Gives (λ x. (nodes_of (x.0 ∷ []), point x.1)) result (loop_at (list_at (naming names.now) depth) (point p.now)) }
{
    let id = LoopId(p.counts().loops);
    let (body, at) = list_at(alloc, names, depth, &p.with_loop())?;
    Ok((Node::Loop { id, body }, at))
}
