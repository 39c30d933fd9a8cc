//! The first round's rule on the order of nodes: in each list blocks and other nodes take turns.

ghost use Rattle.std.specs.Prelude.{◌≡◌, [], ◌∷◌, Some, length};
ghost use Rattle.std.specs.Option.{option_to_list};
ghost use Rattle.nir_ir.specs.Items.{block_items};
ghost use Rattle.nir_ir.specs.Nodes.{nodes_of};
ghost use Rattle.nir_validate.specs.Least.{sooner};
ghost use Rattle.nir_validate.specs.Placing.{begins_with_block, closed, counted_by, fresh, out_of_turn, past_block, placed_first, placed_in, turned_to};

use crate::fault::{Fault, sooner};
use crate::first::{Pass, pass_head};
use nir_ir::{Block, Node};

/// Where in a list a pass is: what has to come next, the item of the node before or of the list's
/// owner, and the first node that came out of turn.
#[derive(Clone, Copy, Debug)]
pub struct Row {
    pub wants_block: bool,
    pub last: u64,
    pub misplaced: Option<u64>,
}

/// A list before its first node, which has to be a block.
fn fresh(owner: u64) -> Row
    ensures { result ≡ fresh owner }
{
    Row {
        wants_block: true,
        last: owner,
        misplaced: None,
    }
}

/// A node that comes out of turn.
fn out_of_turn(wants_block: bool, is_block: bool, at: u64) -> Option<u64>
    ensures { result ≡ out_of_turn wants_block is_block at }
{
    match (wants_block, is_block) {
        (true, true) => None,
        (true, false) => Some(at),
        (false, true) => Some(at),
        (false, false) => None,
    }
}

/// Behind a node.
fn turned_to(row: Row, is_block: bool, at: u64) -> Row
    ensures { result ≡ turned_to row is_block at }
{
    Row {
        wants_block: !is_block,
        last: at,
        misplaced: row.misplaced.or(out_of_turn(row.wants_block, is_block, at)),
    }
}

/// At the end of a list, which is to be behind a block.
fn closed(row: Row, pass: Pass) -> Pass
    ensures { result ≡ closed row pass }
{
    if let Some(item) = row.misplaced {
        return found_at(item, pass);
    }
    if row.wants_block {
        return found_at(row.last, pass);
    }
    pass
}

/// A pass that found a node out of order.
fn found_at(item: u64, pass: Pass) -> Pass
    ensures { result ≡ record pass { found = sooner pass.found (Some (record { rule = 3; item = item })) } }
{
    Pass {
        at: pass.at,
        found: sooner(pass.found, Fault { rule: 3, item }),
    }
}

/// Past the items of a block.
fn past_block(block: &Block, pass: Pass) -> Pass
    ensures { result ≡ past_block block.now pass }
{
    let at = pass.at.saturating_add(1);
    let at = at.saturating_add(block.phis.len() as u64);
    let at = at.saturating_add(block.instrs.len() as u64);
    let at = match block.jump {
        Some(_) => at.saturating_add(1),
        None => at,
    };
    Pass {
        at,
        found: pass.found,
    }
}

#[tactic(auto, using(crate::proofs::PlaceLemmas::begin_steps))]
fn is_block(node: &Node) -> bool
    ensures { result ≡ begins_with_block (nodes_of (node.now ∷ [])) }
{
    match node {
        Node::Block(_) => true,
        Node::If { .. } => false,
        Node::Loop { .. } => false,
    }
}

/// Past a list of nodes, with the item of its owner.
#[cycle(place)]
#[tactic(auto, using(crate::proofs::PlaceLemmas::placing_steps))]
pub(crate) fn place_list(list: &[Node], owner: u64, pass: Pass) -> Pass
    ensures { result ≡ placed_in owner pass (nodes_of list.now) }
{
    let mut row = fresh(owner);
    let mut pass = pass;
    for node in list {
        row = turned_to(row, is_block(node), pass.at);
        pass = place_node(node, pass);
    }
    closed(row, pass)
}

/// Past a node.
#[cycle(place)]
#[tactic(auto, using(crate::proofs::PlaceLemmas::placing_steps))]
fn place_node(node: &Node, pass: Pass) -> Pass
    ensures { result ≡ placed_first pass (nodes_of (node.now ∷ [])) }
{
    match node {
        Node::Block(block) => past_block(block, pass),
        Node::If { yes, no, .. } => {
            let inside = place_list(yes.as_slice(), pass.at, pass_head(pass));
            place_list(no.as_slice(), pass.at, inside)
        }
        Node::Loop { body, .. } => place_list(body.as_slice(), pass.at, pass_head(pass)),
    }
}
