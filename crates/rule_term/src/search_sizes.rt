//! Whether the nodes of a search side may have the sizes that they have, and which its variables have.

ghost use Rattle.std.specs.Prelude.{◌≡◌, ◌≤◌, [], ◌∷◌, length, map, nat_eq};
ghost use Rattle.std.specs.Cmp.Lexicographic.{pointwise};
ghost use Rattle.op_eval.specs.Calls.{same_width, size_at, sizes_fit, unsized_of};
ghost use Rattle.rule_term.specs.ReplaceLeast.{noted, noted_one};
ghost use Rattle.rule_term.specs.Terms.{terms_of};
ghost use Rattle.rule_term.specs.Typings.{has_size, literal_fits, obeys, occurrences, roots, size_of};

use crate::nodes::nodes_in;
use crate::term::Term;
use crate::width_set::{Known, demanded};
use nir_ops::{Op, OpInput, Width, allowed, info};

/// Whether two sizes are one.
pub fn same_width(a: Width, b: Width) -> bool
    ensures { result ≡ same_width a b }
{
    a.bits() == b.bits()
}

/// Whether a node at which perhaps a size is written may have this one.
pub fn has_size(size: Option<Width>, width: Width) -> bool
    ensures { result ≡ has_size size width }
{
    match size {
        Some(size) => same_width(size, width),
        None => true,
    }
}

/// Whether the number fits the size.
pub(crate) fn literal_fits(value: i128, boolean: bool, width: Width) -> bool
    ensures { result ≡ literal_fits value boolean width }
{
    if boolean {
        return width.bits() == 1;
    }
    match width {
        Width::W1 => -1 <= value && value < 2,
        Width::W8 => -0x80 <= value && value < 0x100,
        Width::W16 => -0x8000 <= value && value < 0x1_0000,
        Width::W32 => -0x8000_0000 <= value && value < 0x1_0000_0000,
        Width::W64 => -0x8000_0000_0000_0000 <= value && value < 0x1_0000_0000_0000_0000,
    }
}

/// The size of a source or result where the unsized ones have this size.
pub fn size_at(size: Option<Width>, width: Width) -> Width
    ensures { result ≡ size_at size width }
{
    match size {
        Some(size) => size,
        None => width,
    }
}

/// Whether each node of the term may have its size. The first of the sizes is that of the term itself.
#[cycle(obeys)]
#[tactic(auto, using(crate::proofs::NodesLemmas::size_steps, crate::proofs::ReplaceSteps::obeys_steps))]
pub(crate) fn obeys_term(term: &Term, widths: &[Width]) -> bool
    requires enough { size_of (terms_of (term.now ∷ [])) ≤ length widths.now }
    ensures { result ≡ obeys (terms_of (term.now ∷ [])) widths.now }
{
    let width = widths[0];
    match term {
        Term::Var { size, .. } => has_size(*size, width),
        Term::Lit { value, boolean } => literal_fits(*value, *boolean, width),
        Term::App { op, size, args, .. } => {
            if !has_size(*size, width) {
                return false;
            }
            if !sizes_fit(*op, width, args.as_slice(), &widths[1..]) {
                return false;
            }
            obeys_terms(args.as_slice(), &widths[1..])
        }
    }
}

/// Whether each node of the terms may have its size.
#[cycle(obeys)]
#[tactic(auto, using(crate::proofs::NodesLemmas::size_steps, crate::proofs::ReplaceSteps::obeys_steps))]
fn obeys_terms(terms: &[Term], widths: &[Width]) -> bool
    requires enough { size_of (terms_of terms.now) ≤ length widths.now }
    ensures { result ≡ obeys (terms_of terms.now) widths.now }
{
    let mut nodes = 0;
    for term in terms {
        if !obeys_term(term, &widths[nodes..]) {
            return false;
        }
        nodes += nodes_in(term);
    }
    true
}

/// Whether a result of this size and the sources fit the opcode.
#[tactic(auto, unfolding(op_eval::specs::Calls::sizes_fit, op_eval::specs::Calls::unsized_width, op_eval::specs::Calls::result_width, op_eval::specs::Calls::source_widths))]
fn sizes_fit(op: Op, dst: Width, args: &[Term], widths: &[Width]) -> bool
    requires enough { size_of (terms_of args.now) ≤ length widths.now }
    ensures { result ≡ sizes_fit op dst (roots (terms_of args.now) widths.now) }
{
    let row = info(op);
    let free = free_width(row.out.size, dst, args, widths);
    if !allowed(op, free) {
        return false;
    }
    if !same_width(size_at(row.out.size, free), dst) {
        return false;
    }
    sources_fit(row.inputs.as_slice(), free, args, widths)
}

/// The unsized size of an opcode with this result and these sources.
fn free_width(out: Option<Width>, dst: Width, args: &[Term], widths: &[Width]) -> Width
    requires enough { size_of (terms_of args.now) ≤ length widths.now }
    ensures { result ≡ unsized_of out dst (roots (terms_of args.now) widths.now) }
{
    if out.is_none() {
        return dst;
    }
    if args.is_empty() {
        return dst;
    }
    widths[0]
}

/// Whether the sources have the sizes of these inputs where the unsized size is this.
#[tactic(auto, using(crate::proofs::NodesLemmas::size_steps))]
fn sources_fit(inputs: &[OpInput], free: Width, args: &[Term], widths: &[Width]) -> bool
    requires enough { size_of (terms_of args.now) ≤ length widths.now }
    ensures { result ≡ pointwise same_width (map (λ input. size_at input.kind.size free) inputs.now) (roots (terms_of args.now) widths.now) }
{
    if inputs.len() != args.len() {
        return false;
    }
    let mut nodes = 0;
    for (at, term) in args.iter().enumerate() {
        if !same_width(size_at(demanded(inputs, at), free), widths[nodes]) {
            return false;
        }
        nodes += nodes_in(term);
    }
    true
}

/// Notes the size of a variable; None where there is no place for it or it was noted with another size.
fn note(known: Known, var: u32, width: Width) -> Option<Known>
    ensures { result ≡ noted_one var width known }
{
    let mut known = known;
    match known.get(var as usize) {
        None => None,
        Some(None) => {
            known[var as usize] = Some(width);
            Some(known)
        }
        Some(Some(old)) => {
            if same_width(*old, width) {
                return Some(known);
            }
            None
        }
    }
}

/// Notes the sizes of the variables of the term, whose nodes have these sizes; None where there is no place for a variable, or
/// where one has two sizes.
#[cycle(note)]
#[tactic(auto, using(crate::proofs::NodesLemmas::size_steps, crate::proofs::ReplaceSteps::note_steps))]
pub fn note_term(term: &Term, widths: &[Width], known: Known) -> Option<Known>
    requires enough { size_of (terms_of (term.now ∷ [])) ≤ length widths.now }
    ensures { result ≡ noted (occurrences (terms_of (term.now ∷ [])) widths.now) known }
{
    match term {
        Term::Var { var, .. } => note(known, *var, widths[0]),
        Term::Lit { .. } => Some(known),
        Term::App { args, .. } => note_terms(args.as_slice(), &widths[1..], known),
    }
}

/// Notes the sizes of the variables of the terms; None where one has two.
#[cycle(note)]
#[tactic(auto, using(crate::proofs::NodesLemmas::size_steps, crate::proofs::ReplaceSteps::note_steps))]
fn note_terms(terms: &[Term], widths: &[Width], known: Known) -> Option<Known>
    requires enough { size_of (terms_of terms.now) ≤ length widths.now }
    ensures { result ≡ noted (occurrences (terms_of terms.now) widths.now) known }
{
    let mut known = known;
    let mut nodes = 0;
    for term in terms {
        match note_term(term, &widths[nodes..], known) {
            Some(next) => known = next,
            None => return None,
        }
        nodes += nodes_in(term);
    }
    Some(known)
}
