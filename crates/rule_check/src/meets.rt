//! The conditions on the variables of a rule, tested along its search side.

ghost use Rattle.std.specs.Prelude.{◌≡◌, ◌≤◌, ◌<◌, ◌+◌, ◌^◌, true, [], ◌∷◌, length};
ghost use Rattle.std.specs.List.{list_all, slice_index_or};
ghost use Rattle.std.proofs.Common.{drop};
ghost use Rattle.nir_ops.specs.Width.{width_bits};
ghost use Rattle.rule_term.specs.Terms.{terms_of};
ghost use Rattle.rule_term.specs.Typings.{size_of, occurrences, is_typing};
ghost use Rattle.rule_term.specs.Holds.{meets_cond, is_word, is_met, are_words, are_met};

use nir_ops::Width;
use rule_term::{Cond, Rule, Term, Typing, cond_holds};

/// What a walk over terms has seen: whether each variable meets its condition, and the place of the node behind the terms.
#[derive(Clone, Copy, Debug)]
struct Seen {
    met: bool,
    next: usize,
}

/// Whether the values meet all conditions of the rule at the typing.
pub(crate) fn meets(rule: &Rule, typing: &Typing, values: &[u64]) -> bool
    requires typing { is_typing rule.now typing.now.widths ≡ true }
    requires words { are_words rule.now typing.now.widths values.now ≡ true }
    ensures { result ≡ are_met rule.now typing.now.widths values.now }
{
    met_in_term(&rule.search, typing.widths.as_slice(), 0, values).met
}

/// Whether a word of the size meets a condition, where there is one.
fn meets_cond(cond: Option<Cond>, width: Width, value: u64) -> bool
    requires { value < 2 ^ width_bits width }
    ensures { result ≡ meets_cond cond width value }
{
    match cond {
        Some(cond) => cond_holds(cond, width, value),
        None => true,
    }
}

/// The value of a variable, 0 where it has none.
fn value_of(values: &[u64], var: u32) -> u64
    ensures { result ≡ slice_index_or values.now var 0 }
{
    let place = var as usize;
    if place < values.len() {
        values[place]
    } else {
        0
    }
}

/// Walks over terms whose first node has the size at a place.
#[cycle(met)]
#[tactic(auto, using(bit_circuit::proofs::Walks::walk_steps))]
fn met_in_list(list: &[Term], widths: &[Width], at: usize, values: &[u64]) -> Seen
    requires room { at + size_of (terms_of list.now) ≤ length widths.now }
    requires words { list_all (is_word values.now) (occurrences (terms_of list.now) (drop at widths.now)) ≡ true }
    ensures met { result.met ≡ list_all (is_met values.now) (occurrences (terms_of list.now) (drop at widths.now)) }
    ensures next { result.next ≡ at + size_of (terms_of list.now) }
{
    let mut met = true;
    let mut next = at;
    for term in list {
        let seen = met_in_term(term, widths, next, values);
        met = met & seen.met;
        next = seen.next;
    }
    Seen { met, next }
}

/// Walks over a term.
#[cycle(met)]
#[tactic(auto, using(bit_circuit::proofs::Walks::walk_steps))]
fn met_in_term(term: &Term, widths: &[Width], at: usize, values: &[u64]) -> Seen
    requires room { at + size_of (terms_of (term.now ∷ [])) ≤ length widths.now }
    requires words { list_all (is_word values.now) (occurrences (terms_of (term.now ∷ [])) (drop at widths.now)) ≡ true }
    ensures met { result.met ≡ list_all (is_met values.now) (occurrences (terms_of (term.now ∷ [])) (drop at widths.now)) }
    ensures next { result.next ≡ at + size_of (terms_of (term.now ∷ [])) }
{
    match term {
        Term::Var { var, cond, .. } => Seen {
            met: meets_cond(*cond, widths[at], value_of(values, *var)),
            next: at + 1,
        },
        Term::Lit { .. } => Seen {
            met: true,
            next: at + 1,
        },
        Term::App { args, .. } => met_in_list(args.as_slice(), widths, at + 1, values),
    }
}
