//! The clauses of the conditions on the variables of a rule.

ghost use Rattle.std.specs.Prelude.{◌≡◌, [], ◌∷◌, OnOk};
ghost use Rattle.rule_term.specs.declared.cond.Cond.TheVariants.{PosPow2, NegPow2};
ghost use Rattle.rule_term.specs.Terms.{terms_of};
ghost use Rattle.rule_term.specs.Typings.{occurrences};
ghost use Rattle.circuit_laws.specs.Opcodes.{word_at};
ghost use Rattle.circuit_laws.specs.RuleClauses.{all_false, cond_part, lower_half, part_of, parts_of, upper_half};
ghost use Rattle.bit_circuit.specs.Asking.{with_part, with_parts};
ghost use Rattle.bit_circuit.specs.Growth.{all_asked};

use crate::circuit::Circuit;
use crate::literal::Literal;
use crate::row::{Pairing, each};
use crate::sum::{negation, subtracter};
use crate::terms::part;
use crate::word::{Word, constant, top};
use nir_host::OutOfMemory;
use rule_term::{Cond, Term};

/// Asks that each literal is false.
fn deny(circuit: &mut Circuit, literals: &[Literal]) -> Result<(), OutOfMemory>
    ensures { OnOk result (circuit.new ≡ all_asked circuit.old (all_false literals.now)) }
{
    for literal in literals {
        circuit.ask(&[literal.negated()])?;
    }
    Ok(())
}

/// Asks that the signed reading of the word is a power of two.
fn positive_power(circuit: &mut Circuit, xs: &[Literal]) -> Result<(), OutOfMemory>
    ensures { OnOk result (circuit.new ≡ with_part circuit.old (cond_part PosPow2 xs.now circuit.old.next)) }
{
    let one = constant(circuit.alloc, xs.len(), 1)?;
    let before = subtracter(circuit, xs, one.as_slice())?;
    let both = each(circuit, &Pairing::And, xs, before.word.as_slice())?;
    deny(circuit, both.as_slice())?;
    circuit.ask(&xs[..xs.len().saturating_sub(1)])?;
    circuit.ask(&[top(xs).negated()])
}

/// Asks that the signed reading of the word is a power of two below 0.
fn negative_power(circuit: &mut Circuit, xs: &[Literal]) -> Result<(), OutOfMemory>
    ensures { OnOk result (circuit.new ≡ with_part circuit.old (cond_part NegPow2 xs.now circuit.old.next)) }
{
    let minus = negation(circuit, xs)?;
    let one = constant(circuit.alloc, xs.len(), 1)?;
    let before = subtracter(circuit, minus.word.as_slice(), one.as_slice())?;
    let both = each(
        circuit,
        &Pairing::And,
        minus.word.as_slice(),
        before.word.as_slice(),
    )?;
    deny(circuit, both.as_slice())?;
    circuit.ask(minus.word.as_slice())
}

/// Asks that the upper half of the word is 0. One bit has no half, and no clause without literals is true.
fn upper_zero(circuit: &mut Circuit, xs: &[Literal]) -> Result<(), OutOfMemory>
    ensures { OnOk result (circuit.new ≡ all_asked circuit.old (upper_half xs.now)) }
{
    if xs.len() == 1 {
        return circuit.ask(&[]);
    }
    deny(circuit, &xs[xs.len() / 2..])
}

/// Asks that the lower half of the word is 0. One bit has no half.
fn lower_zero(circuit: &mut Circuit, xs: &[Literal]) -> Result<(), OutOfMemory>
    ensures { OnOk result (circuit.new ≡ all_asked circuit.old (lower_half xs.now)) }
{
    if xs.len() == 1 {
        return circuit.ask(&[]);
    }
    deny(circuit, &xs[..xs.len() / 2])
}

/// Asks that the word meets a condition. The conditions on consts and on uses ask nothing of a word.
#[tactic(auto, unfolding(circuit_laws::specs::RuleClauses::cond_part))]
fn meet(circuit: &mut Circuit, cond: Cond, xs: &[Literal]) -> Result<(), OutOfMemory>
    ensures { OnOk result (circuit.new ≡ with_part circuit.old (cond_part cond xs.now circuit.old.next)) }
{
    match cond {
        Cond::PosPow2 => positive_power(circuit, xs),
        Cond::NegPow2 => negative_power(circuit, xs),
        Cond::MultipleOf4 => deny(circuit, &xs[..xs.len().min(2)]),
        Cond::UpperHalfZero => upper_zero(circuit, xs),
        Cond::LowerHalfZero => lower_zero(circuit, xs),
        Cond::NotConst | Cond::UsedOnce => Ok(()),
    }
}

/// Asks that the variable of an occurrence meets the condition that is written there, where there is one.
fn meet_at(
    circuit: &mut Circuit,
    cond: Option<Cond>,
    vars: &[Word],
    var: u32,
) -> Result<(), OutOfMemory>
    ensures { OnOk result (circuit.new ≡ with_part circuit.old (part_of cond (word_at vars.now var) circuit.old.next)) }
{
    let Some(cond) = cond else {
        return Ok(());
    };
    meet(circuit, cond, part(vars, var as usize))
}

/// Asks that the variables meet the conditions in terms one after another.
#[cycle(conditions)]
#[tactic(auto, using(crate::proofs::Walks::walk_steps))]
fn meet_in_list(circuit: &mut Circuit, list: &[Term], vars: &[Word]) -> Result<(), OutOfMemory>
    ensures { OnOk result (circuit.new ≡ with_parts circuit.old (parts_of vars.now (occurrences (terms_of list.now) []) circuit.old.next)) }
{
    for term in list {
        meet_in_term(circuit, term, vars)?;
    }
    Ok(())
}

/// Asks that the variables meet the conditions in a term.
#[cycle(conditions)]
#[tactic(auto, using(crate::proofs::Walks::walk_steps))]
pub(crate) fn meet_in_term(
    circuit: &mut Circuit,
    term: &Term,
    vars: &[Word],
) -> Result<(), OutOfMemory>
    ensures { OnOk result (circuit.new ≡ with_parts circuit.old (parts_of vars.now (occurrences (terms_of (term.now ∷ [])) []) circuit.old.next)) }
{
    match term {
        Term::Var { var, cond, .. } => meet_at(circuit, *cond, vars, *var),
        Term::Lit { .. } => Ok(()),
        Term::App { args, .. } => meet_in_list(circuit, args.as_slice(), vars),
    }
}
