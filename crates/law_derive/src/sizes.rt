//! The sizes of the nodes of an expression, where those of its variables are known: which one its
//! root has, whether that fixes all others, and the least at a root.

ghost use Rattle.std.specs.Prelude.{◌≡◌, ◌&&◌, ◌||◌, not, [], ◌∷◌, ◌++◌, OnOk, map};
ghost use Rattle.std.specs.List.{find};
ghost use Rattle.nir_ops.specs.declared.width.Width.{Width as Size};
ghost use Rattle.op_eval.specs.Calls.{same_width, size_at};
ghost use Rattle.rule_term.specs.ReplaceLeast.{can, every_width, knows, least, set_has, set_of};
ghost use Rattle.rule_term.specs.Terms.{terms_of};
ghost use Rattle.law_derive.specs.Derivations.{is_size};
ghost use Rattle.law_derive.specs.ExprSizes.{few_from, first_is_unsized, is_free, is_settled, no_other, root_may, root_of, settled, sole_from};

use nir_host::{OutOfMemory, Seq};
use nir_ops::{Op, OpInput, Width, info};
use rule_term::{
    Known, Term, WidthSet, demanded, has_size, same_width, size_at, sizes_of_term, unsized_for,
    usable,
};

/// The least size of the set.
fn least_of(set: WidthSet) -> Option<Width>
    ensures { result ≡ find (set_has set) every_width }
{
    if set.has(Width::W1) {
        return Some(Width::W1);
    }
    if set.has(Width::W8) {
        return Some(Width::W8);
    }
    if set.has(Width::W16) {
        return Some(Width::W16);
    }
    if set.has(Width::W32) {
        return Some(Width::W32);
    }
    if set.has(Width::W64) {
        return Some(Width::W64);
    }
    None
}

/// Whether the set lacks the first size, or it is the second.
fn lacks_or_is(set: WidthSet, other: Width, width: Width) -> bool
    ensures { result ≡ (not (set_has set other) || same_width other width) }
{
    if !set.has(other) {
        return true;
    }
    same_width(other, width)
}

/// Whether the set has no other size.
fn has_no_other(set: WidthSet, width: Width) -> bool
    ensures { result ≡ no_other (set_has set) width }
{
    if !lacks_or_is(set, Width::W1, width) {
        return false;
    }
    if !lacks_or_is(set, Width::W8, width) {
        return false;
    }
    if !lacks_or_is(set, Width::W16, width) {
        return false;
    }
    if !lacks_or_is(set, Width::W32, width) {
        return false;
    }
    lacks_or_is(set, Width::W64, width)
}

/// Whether the set has at most one size.
fn has_at_most_one(set: WidthSet) -> bool
    ensures { result ≡ few_from (set_has set) (find (set_has set) every_width) }
{
    match least_of(set) {
        Some(width) => has_no_other(set, width),
        None => true,
    }
}

/// The only size of the set.
fn only_size(set: WidthSet) -> Option<Width>
    ensures { result ≡ sole_from (set_has set) (find (set_has set) every_width) }
{
    let width = least_of(set)?;
    if has_no_other(set, width) {
        return Some(width);
    }
    None
}

/// Whether the first of the sources is unsized.
fn is_first_unsized(inputs: &[OpInput]) -> bool
    ensures { result ≡ first_is_unsized inputs.now }
{
    match inputs.first() {
        Some(input) => input.kind.size.is_none(),
        None => false,
    }
}

/// Whether the result of the opcode has a size of its own, and its sources have another.
#[tactic(auto, unfolding(crate::specs::ExprSizes::is_free))]
fn is_free(op: Op) -> bool
    ensures { result ≡ is_free op }
{
    let row = info(op);
    if row.out.size.is_none() {
        return false;
    }
    is_first_unsized(row.inputs.as_slice())
}

/// Whether the result of the opcode tells the sizes of its sources, or they can have one alone.
fn is_settled(op: Op, args: &[Term], known: &Known) -> bool
    ensures { result ≡ is_settled (knows known.now) op (terms_of args.now) }
{
    if !is_free(op) {
        return true;
    }
    has_at_most_one(usable(op, args, known))
}

/// Whether the sizes of all nodes of the term are told by that of its root. It visits each node once
/// for each opcode above it.
#[cycle(settled)]
#[tactic(auto, using(crate::proofs::TermLists::settled_steps))]
pub(crate) fn is_term_settled(term: &Term, known: &Known) -> bool
    ensures { result ≡ settled (knows known.now) (terms_of (term.now ∷ [])) }
{
    match term {
        Term::Var { .. } => true,
        Term::Lit { .. } => true,
        Term::App { op, args, .. } => {
            if !is_settled(*op, args.as_slice(), known) {
                return false;
            }
            are_terms_settled(args.as_slice(), known)
        }
    }
}

/// Whether the sizes of all nodes of the terms are told by those of their roots.
#[cycle(settled)]
#[tactic(auto, using(crate::proofs::TermLists::settled_steps))]
fn are_terms_settled(terms: &[Term], known: &Known) -> bool
    ensures { result ≡ settled (knows known.now) (terms_of terms.now) }
{
    for term in terms {
        if !is_term_settled(term, known) {
            return false;
        }
    }
    true
}

/// Whether the set has the size, which is the one that is asked for.
fn has_asked(size: Option<Width>, set: WidthSet, width: Width) -> bool
    ensures { result ≡ (is_size size width && set_has set width) }
{
    if !has_size(size, width) {
        return false;
    }
    set.has(width)
}

/// The sizes of the set that are the one that is asked for.
fn asked(size: Option<Width>, set: WidthSet) -> WidthSet
    ensures { result ≡ set_of (λ width. is_size size width && set_has set width) }
{
    WidthSet {
        w1: has_asked(size, set, Width::W1),
        w8: has_asked(size, set, Width::W8),
        w16: has_asked(size, set, Width::W16),
        w32: has_asked(size, set, Width::W32),
        w64: has_asked(size, set, Width::W64),
    }
}

/// The size of the root of the term, where each of its nodes can have exactly one.
#[tactic(auto, unfolding(crate::specs::ExprSizes::root_of))]
pub(crate) fn root_size(term: &Term, known: &Known, size: Option<Width>) -> Option<Width>
    ensures { result ≡ root_of (knows known.now) size (terms_of (term.now ∷ [])) }
{
    if !is_term_settled(term, known) {
        return None;
    }
    only_size(asked(size, sizes_of_term(term, known)))
}

/// Adds the least sizes of the term with this root.
#[cycle(fill)]
pub(crate) fn fill_term(
    term: &Term,
    width: Width,
    known: &Known,
    widths: &mut Seq<Width>,
) -> Result<(), OutOfMemory>
    ensures { OnOk result (widths.new ≡ widths.old ++ least (knows known.now) (terms_of (term.now ∷ [])) (width ∷ [])) }
{
    widths.push(width)?;
    match term {
        Term::Var { .. } => Ok(()),
        Term::Lit { .. } => Ok(()),
        Term::App { op, args, .. } => {
            let row = info(*op);
            let set = usable(*op, args.as_slice(), known);
            let free = unsized_for(*op, set, width).unwrap_or(Width::W1);
            fill_terms(args.as_slice(), row.inputs.as_slice(), free, known, widths)?;
            Ok(())
        }
    }
}

/// Adds the least sizes of the sources of an opcode whose unsized size is this.
#[cycle(fill)]
fn fill_terms(
    terms: &[Term],
    inputs: &[OpInput],
    free: Width,
    known: &Known,
    widths: &mut Seq<Width>,
) -> Result<(), OutOfMemory>
    ensures { OnOk result (widths.new ≡ widths.old ++ least (knows known.now) (terms_of terms.now) (map (λ input. size_at input.kind.size free) inputs.now)) }
{
    for (at, term) in terms.iter().enumerate() {
        let width = size_at(demanded(inputs, at), free);
        fill_term(term, width, known, widths)?;
    }
    Ok(())
}
