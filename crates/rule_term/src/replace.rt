//! The sizes of a rule's replacement where the nodes of its search side have certain sizes.

ghost use Rattle.std.specs.Prelude.{◌≡◌, ◌<◌, ◌≤◌, ◌+◌, [], ◌∷◌, ◌++◌, length, map, Some, None, if◌then◌else◌};
ghost use Rattle.std.specs.Option.{option_map};
ghost use Rattle.op_eval.specs.Calls.{size_at};
ghost use Rattle.rule_term.specs.Replaced.{replace_for};
ghost use Rattle.rule_term.specs.ReplaceLeast.{can, knows, least};
ghost use Rattle.rule_term.specs.Terms.{terms_of};
ghost use Rattle.rule_term.specs.Typings.{size_of};

use crate::rule::Rule;
use crate::search_sizes::{note_term, obeys_term, size_at};
use crate::term::Term;
use crate::width_set::{Known, demanded, sizes_of_term, unsized_for, usable};
use arrayvec::ArrayVec;
use nir_ops::{OpInput, Width, info};

/// The sizes of the replacement in the first of the rule's typings whose search part has these sizes, of
/// which there is one for each node of the search side; None exactly where there is no such typing. It
/// takes no memory, and visits each node a few times for each opcode above it. A side of 16 opcodes has at most 49 nodes.
pub fn replace_widths(rule: &Rule, search: &[Width]) -> Option<ArrayVec<Width, 49>>
    requires { length search.now ≡ size_of rule.now.search }
    ensures { option_map (λ widths. widths.items) result ≡ replace_for rule.now search.now }
{
    if !obeys_term(&rule.search, search) {
        return None;
    }
    let Some(known) = note_term(&rule.search, search, [None; 16]) else {
        return None;
    };
    filled(&rule.replace, search[0], &known)
}

/// The least sizes of a term with this root, None where there are none.
fn filled(term: &Term, width: Width, known: &Known) -> Option<ArrayVec<Width, 49>>
    requires { size_of (terms_of (term.now ∷ [])) ≤ 49 }
    ensures { option_map (λ widths. widths.items) result ≡ (if can (knows known.now) (terms_of (term.now ∷ [])) (width ∷ []) then Some (least (knows known.now) (terms_of (term.now ∷ [])) (width ∷ [])) else None) }
{
    if !sizes_of_term(term, known).has(width) {
        return None;
    }
    let mut widths = ArrayVec::new();
    fill_term(term, width, known, &mut widths);
    Some(widths)
}

/// Adds the least sizes of a term with this root.
#[cycle(fill)]
fn fill_term(term: &Term, width: Width, known: &Known, widths: &mut ArrayVec<Width, 49>)
    requires room { length widths.old.items + size_of (terms_of (term.now ∷ [])) ≤ 49 }
    ensures { widths.new.items ≡ widths.old.items ++ least (knows known.now) (terms_of (term.now ∷ [])) (width ∷ []) }
{
    widths.push(width);
    match term {
        Term::Var { .. } => {}
        Term::Lit { .. } => {}
        Term::App { op, args, .. } => {
            let row = info(*op);
            let set = usable(*op, args.as_slice(), known);
            let free = unsized_for(*op, set, width).unwrap_or(Width::W1);
            fill_terms(args.as_slice(), row.inputs.as_slice(), free, known, widths);
        }
    }
}

/// Adds the least sizes of the sources of an opcode whose unsized size is this.
#[cycle(fill)]
fn fill_terms(
    terms: &[Term],
    inputs: &[OpInput],
    free: Width,
    known: &Known,
    widths: &mut ArrayVec<Width, 49>,
)
    requires room { length widths.old.items + size_of (terms_of terms.now) ≤ 49 }
    ensures { widths.new.items ≡ widths.old.items ++ least (knows known.now) (terms_of terms.now) (map (λ input. size_at input.kind.size free) inputs.now) }
{
    for (at, term) in terms.iter().enumerate() {
        let width = size_at(demanded(inputs, at), free);
        fill_term(term, width, known, widths);
    }
}
