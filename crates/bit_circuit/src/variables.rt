//! The bits of the variables of a rule at a typing.

ghost use Rattle.std.specs.Prelude.{◌≡◌, ◌≤◌, ◌+◌, ◌^◌, ◌<◌, true, [], ◌∷◌, length, sum, if◌then◌else◌};
ghost use Rattle.std.proofs.Common.{drop};
ghost use Rattle.rule_term.specs.Terms.{terms_of};
ghost use Rattle.rule_term.specs.Typings.{size_of, occurrences, is_typing};
ghost use Rattle.circuit_laws.specs.Variables.{width_found, var_width, var_bits};

use arrayvec::ArrayVec;
use nir_ops::Width;
use rule_term::{Rule, Term, Typing};

/// What a walk over terms has found: the size of the first occurrence of a variable, and the place of the node behind the terms.
#[derive(Clone, Copy, Debug)]
struct Found {
    width: Option<Width>,
    next: usize,
}

/// The bits of each variable of the rule, in the order of their numbers.
pub fn bits_of_vars(rule: &Rule, typing: &Typing) -> ArrayVec<u32, 16>
    requires { is_typing rule.now typing.now.widths ≡ true }
    ensures { result.items ≡ var_bits rule.now typing.now.widths }
{
    let mut bits = ArrayVec::new();
    for var in 0..rule.vars {
        bits.push(width_of_var(rule, typing, var).bits());
    }
    bits
}

/// The size of a variable of the rule.
fn width_of_var(rule: &Rule, typing: &Typing, var: u32) -> Width
    requires { is_typing rule.now typing.now.widths ≡ true }
    ensures { result ≡ var_width rule.now typing.now.widths var }
{
    let found = found_in_term(&rule.search, typing.widths.as_slice(), 0, var);
    found.width.unwrap_or(Width::W1)
}

/// Walks over terms whose first node has the size at a place.
#[cycle(found)]
#[tactic(auto, using(crate::proofs::Walks::walk_steps))]
fn found_in_list(list: &[Term], widths: &[Width], at: usize, var: u32) -> Found
    requires room { at + size_of (terms_of list.now) ≤ length widths.now }
    ensures width { result.width ≡ width_found (occurrences (terms_of list.now) (drop at widths.now)) var }
    ensures next { result.next ≡ at + size_of (terms_of list.now) }
{
    let mut width = None;
    let mut next = at;
    for term in list {
        let found = found_in_term(term, widths, next, var);
        width = width.or(found.width);
        next = found.next;
    }
    Found { width, next }
}

/// Walks over a term.
#[cycle(found)]
#[tactic(auto, using(crate::proofs::Walks::walk_steps))]
fn found_in_term(term: &Term, widths: &[Width], at: usize, sought: u32) -> Found
    requires room { at + size_of (terms_of (term.now ∷ [])) ≤ length widths.now }
    ensures width { result.width ≡ width_found (occurrences (terms_of (term.now ∷ [])) (drop at widths.now)) sought }
    ensures next { result.next ≡ at + size_of (terms_of (term.now ∷ [])) }
{
    match term {
        Term::Var { var, .. } => Found {
            width: width_where(*var == sought, widths[at]),
            next: at + 1,
        },
        Term::Lit { .. } => Found {
            width: None,
            next: at + 1,
        },
        Term::App { args, .. } => found_in_list(args.as_slice(), widths, at + 1, sought),
    }
}

/// The size where the test holds.
fn width_where(test: bool, width: Width) -> Option<Width>
    ensures { result ≡ (if test then Some width else None) }
{
    if test { Some(width) } else { None }
}
