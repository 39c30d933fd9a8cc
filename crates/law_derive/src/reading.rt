//! The size at which a law is read at a term, with what its letters stand for there.

ghost use Rattle.std.specs.Prelude.{◌≡◌, [], ◌∷◌, IfOk, Some, map};
ghost use Rattle.std.specs.List.{find, list_any};
ghost use Rattle.std.specs.Option.{option_map};
ghost use Rattle.op_eval.specs.Calls.{same_width};
ghost use Rattle.rule_read.specs.Says.{binding_says};
ghost use Rattle.law_derive.specs.Derivations.{among, from_at, from_side, is_truth, law_sizes, matches_at, size_of_binding, size_of_expr, size_read, to_at};
ghost use Rattle.law_derive.specs.LawTable.{left_at, right_at, root_size};
ghost use Rattle.law_derive.specs.Matching.{match_side};
ghost use Rattle.law_derive.specs.Readings.{filled_at, may_match, read_of, reading_says};
ghost use Rattle.law_derive.specs.Settings.{IsKnown, setting_says};
ghost use Rattle.law_derive.specs.Views.{filling_says, law_says, side_says};

use crate::binding::expr_at;
use crate::law::{Law, LawNode};
use crate::matching::{Filling, match_side};
use crate::node::Node;
use crate::same::same_width;
use crate::setting::Setting;
use crate::side::side_at;
use nir_host::{OutOfMemory, Seq};
use nir_ops::{Width, info};
use rule_read::Binding;
use std::alloc::Global;

/// A size of a law, and what its letters stand for.
#[derive(Drop)]
pub(crate) struct Reading<'a> {
    pub(crate) width: Width,
    pub(crate) filling: Filling<'a>,
}

const SIZES: [Width; 5] = [Width::W1, Width::W8, Width::W16, Width::W32, Width::W64];

/// The size at which the law is read at the term, and what its letters stand for; None where it is read at none.
pub(crate) fn read_law<'a>(
    alloc: Global,
    setting: &Setting<'_>,
    law: &Law,
    rev: bool,
    bindings: &[Binding],
    term: &'a [Node],
) -> Result<Option<Reading<'a>>, OutOfMemory>
    requires { IsKnown setting.now }
    ensures { IfOk result (λ read. reading_says read ≡ read_of (law_says law.now) rev term.now
        (size_read (setting_says setting.now) (law_says law.now) rev (map binding_says bindings.now) term.now)) }
{
    if !is_truth(from_side(law, rev)) {
        return first_reading(alloc, law, rev, law_sizes(law), term);
    }
    let size = size_of_binding(alloc, setting, bindings)?;
    match among(law_sizes(law), size) {
        Some(width) => read_at(alloc, law, rev, width, term),
        None => Ok(None),
    }
}

/// The first of the sizes at which the law matches the term.
fn first_reading<'a>(
    alloc: Global,
    law: &Law,
    rev: bool,
    sizes: &[Width],
    term: &'a [Node],
) -> Result<Option<Reading<'a>>, OutOfMemory>
    ensures { IfOk result (λ read. reading_says read ≡ read_of (law_says law.now) rev term.now (find (matches_at (law_says law.now) rev term.now) sizes.now)) }
{
    for width in sizes {
        let read = read_at(alloc, law, rev, *width, term)?;
        if read.is_some() {
            return Ok(read);
        }
    }
    Ok(None)
}

/// What the letters of the law stand for at the size; None where it does not match the term there.
#[tactic(auto, using(crate::specs::ReadingsLaws::none_matches))]
fn read_at<'a>(
    alloc: Global,
    law: &Law,
    rev: bool,
    width: Width,
    term: &'a [Node],
) -> Result<Option<Reading<'a>>, OutOfMemory>
    ensures { IfOk result (λ read. reading_says read ≡ filled_at width (match_side (from_at (law_says law.now) rev width) term.now [])) }
{
    if !may_match(from_side(law, rev), root_size(law.left, width), term) {
        return Ok(None);
    }
    let side = from_at(alloc, law, rev, width)?;
    let mut filling = Filling::new(alloc);
    if !match_side(side.as_slice(), term, &mut filling)? {
        return Ok(None);
    }
    Ok(Some(Reading { width, filling }))
}

/// Whether a side whose value has this size can match the term: the term has the size too.
fn may_match(side: &[LawNode], size: Width, term: &[Node]) -> bool
    ensures { result ≡ may_match size (side_says side.now) term.now }
{
    let Some((_part, _others)) = side.split_first() else {
        return true;
    };
    match term.split_first() {
        Some((node, _behind)) => same_width(size, node.width),
        None => false,
    }
}

/// The sizes of the law.
fn law_sizes(law: &Law) -> &'static [Width]
    ensures { result.now ≡ law_sizes (law_says law.now) }
{
    if law.bit {
        return &SIZES;
    }
    &SIZES[1..]
}

/// The side from which the law is read.
fn from_side(law: &Law, rev: bool) -> &'static [LawNode]
    ensures { side_says result.now ≡ from_side (law_says law.now) rev }
{
    if rev {
        return law.right;
    }
    law.left
}

/// The nodes of the side from which the law is read.
pub(crate) fn from_at(
    alloc: Global,
    law: &Law,
    rev: bool,
    width: Width,
) -> Result<Seq<Node>, OutOfMemory>
    ensures { IfOk result (λ nodes. nodes ≡ from_at (law_says law.now) rev width) }
{
    if rev {
        return right_at(alloc, law, width);
    }
    left_at(alloc, law, width)
}

/// The nodes of the other side.
pub(crate) fn to_at(
    alloc: Global,
    law: &Law,
    rev: bool,
    width: Width,
) -> Result<Seq<Node>, OutOfMemory>
    ensures { IfOk result (λ nodes. nodes ≡ to_at (law_says law.now) rev width) }
{
    if rev {
        return left_at(alloc, law, width);
    }
    right_at(alloc, law, width)
}

fn left_at(alloc: Global, law: &Law, width: Width) -> Result<Seq<Node>, OutOfMemory>
    ensures { IfOk result (λ nodes. nodes ≡ left_at (law_says law.now) width) }
{
    side_at(alloc, law.left, width, root_size(law.left, width))
}

fn right_at(alloc: Global, law: &Law, width: Width) -> Result<Seq<Node>, OutOfMemory>
    ensures { IfOk result (λ nodes. nodes ≡ right_at (law_says law.now) width) }
{
    side_at(alloc, law.right, width, root_size(law.left, width))
}

/// The size of the value of a law with this left side.
#[tactic(auto, unfolding(op_eval::specs::Calls::result_width))]
fn root_size(side: &[LawNode], width: Width) -> Width
    ensures { result ≡ root_size width (side_says side.now) }
{
    let Some(first) = side.first() else {
        return width;
    };
    match first {
        LawNode::App { op } => info(*op).out.size.unwrap_or(width),
        LawNode::Letter { .. } | LawNode::Lit { .. } => width,
    }
}

/// Whether a side is a truth value, which fixes no size.
fn is_truth(side: &[LawNode]) -> bool
    ensures { result ≡ is_truth (side_says side.now) }
{
    let [part] = side else {
        return false;
    };
    match part {
        LawNode::Lit { boolean, .. } => *boolean,
        LawNode::App { .. } | LawNode::Letter { .. } => false,
    }
}

/// The size of the expression of the only binding.
fn size_of_binding(
    alloc: Global,
    setting: &Setting<'_>,
    bindings: &[Binding],
) -> Result<Option<Width>, OutOfMemory>
    requires { IsKnown setting.now }
    ensures { IfOk result (λ size. size ≡ size_of_binding (setting_says setting.now) (map binding_says bindings.now)) }
{
    let [binding] = bindings else {
        return Ok(None);
    };
    match expr_at(alloc, setting, None, &binding.with)? {
        Some(nodes) => Ok(size_of_nodes(nodes.as_slice())),
        None => Ok(None),
    }
}

/// The size of the first of the terms.
#[tactic(auto, using(crate::specs::ReadingsLaws::size_of_first))]
pub(crate) fn size_of_nodes(nodes: &[Node]) -> Option<Width>
    ensures { result ≡ size_of_expr (Some nodes.now) }
{
    match nodes.first() {
        Some(node) => Some(node.width),
        None => None,
    }
}

/// The size, where it is one of these.
fn among(sizes: &[Width], size: Option<Width>) -> Option<Width>
    ensures { result ≡ among sizes.now size }
{
    let Some(width) = size else {
        return None;
    };
    if !is_among(sizes, width) {
        return None;
    }
    Some(width)
}

fn is_among(sizes: &[Width], width: Width) -> bool
    ensures { result ≡ list_any (same_width width) sizes.now }
{
    for size in sizes {
        if same_width(width, *size) {
            return true;
        }
    }
    false
}
