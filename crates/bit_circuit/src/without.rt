//! The first opcode of a rule that has no circuit.

ghost use Rattle.std.specs.Prelude.{◌≡◌, [], ◌∷◌, not, find, Some, None, if◌then◌else◌};
ghost use Rattle.rule_term.specs.Terms.{terms_of};
ghost use Rattle.rule_term.specs.Pieces.{ops_of};
ghost use Rattle.circuit_laws.specs.Opcodes.{has_circuit};
ghost use Rattle.circuit_laws.specs.RuleClauses.{first_without};

use crate::opcodes::has_circuit;
use nir_ops::Op;
use rule_term::{Rule, Term};

/// The first opcode without a circuit, in preorder, the search side first.
pub(crate) fn first_without(rule: &Rule) -> Option<Op>
    ensures { result ≡ first_without rule.now }
{
    without_in_term(&rule.search).or(without_in_term(&rule.replace))
}

/// The first in terms one after another.
#[cycle(without)]
#[tactic(auto, using(crate::proofs::Walks::walk_steps))]
fn without_in_list(list: &[Term]) -> Option<Op>
    ensures { result ≡ find (λ op. not (has_circuit op)) (ops_of (terms_of list.now)) }
{
    let mut found = None;
    for term in list {
        found = found.or(without_in_term(term));
    }
    found
}

/// The first in a term.
#[cycle(without)]
#[tactic(auto, using(crate::proofs::Walks::walk_steps))]
fn without_in_term(term: &Term) -> Option<Op>
    ensures { result ≡ find (λ op. not (has_circuit op)) (ops_of (terms_of (term.now ∷ []))) }
{
    match term {
        Term::Var { .. } => None,
        Term::Lit { .. } => None,
        Term::App { op, args, .. } => own_without(*op).or(without_in_list(args.as_slice())),
    }
}

/// The opcode, where it has no circuit.
fn own_without(op: Op) -> Option<Op>
    ensures { result ≡ (if not (has_circuit op) then Some op else None) }
{
    if has_circuit(op) { None } else { Some(op) }
}
