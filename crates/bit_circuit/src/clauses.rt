//! The clauses of a rule at a typing.

ghost use Rattle.std.specs.Prelude.{◌≡◌, true, IfOk};
ghost use Rattle.clause_check.specs.Logs.{IsUnsatisfiable};
ghost use Rattle.rule_term.specs.Holds.{EqualAt};
ghost use Rattle.rule_term.specs.Typings.{is_typing};
ghost use Rattle.circuit_laws.specs.RuleClauses.{rule_clauses};
ghost use Rattle.bit_circuit.specs.Answers.{TellsClauses};

use crate::circuit::Circuit;
use crate::conditions::meet_in_term;
use crate::fault::CircuitFault;
use crate::inputs::inputs;
use crate::literal::Literal;
use crate::row::{Pairing, each};
use crate::terms::word_of_term;
use crate::variables::bits_of_vars;
use crate::without::first_without;
use clause_check::Clauses;
use nir_host::OutOfMemory;
use rule_term::{Rule, Typing};
use std::alloc::Global;

/// The clauses of the rule at one of its typings, numbered from 1 on: variable 1 is true; the variables of the rule have values that meet
/// the conditions; each opcode of both sides makes its word; the words of the two sides differ at some bit. So where no assignment makes
/// them all true, both sides have one value at the typing, for all values that meet the conditions. The order of the clauses and the
/// numbers of the variables are in `docs/RULES.md`.
/// # Errors
/// `NoCircuit` where an opcode of the rule has no circuit, with the first such opcode in preorder, the search side first. `OutOfMemory`
/// may come at any time.
pub fn clauses_of(alloc: Global, rule: &Rule, typing: &Typing) -> Result<Clauses, CircuitFault>
    requires { is_typing rule.now typing.now.widths ≡ true }
    ensures value { TellsClauses rule.now typing.now.widths result }
    ensures equal { IfOk result (λ clauses. IsUnsatisfiable clauses → EqualAt rule.now typing.now.widths) }
{
    // The proof learns that the rule is formed.
    let _number = rule.number;
    match first_without(rule) {
        Some(op) => Err(CircuitFault::NoCircuit(op)),
        None => {
            let clauses = made(alloc, rule, typing)?;
            Ok(clauses)
        }
    }
}

/// The clauses of a rule of which each opcode has a circuit.
fn made(alloc: Global, rule: &Rule, typing: &Typing) -> Result<Clauses, OutOfMemory>
    requires { is_typing rule.now typing.now.widths ≡ true }
    ensures { IfOk result (λ clauses. clauses ≡ rule_clauses rule.now typing.now.widths) }
{
    let mut circuit = Circuit::new(alloc);
    circuit.ask(&[Literal::yes()])?;
    let bits = bits_of_vars(rule, typing);
    let vars = inputs(&mut circuit, bits.as_slice())?;
    meet_in_term(&mut circuit, &rule.search, vars.as_slice())?;
    let widths = typing.widths.as_slice();
    let search = word_of_term(&mut circuit, &rule.search, widths, 0, vars.as_slice())?;
    let replace = word_of_term(
        &mut circuit,
        &rule.replace,
        widths,
        search.next,
        vars.as_slice(),
    )?;
    let differ = each(
        &mut circuit,
        &Pairing::Xor,
        search.word.as_slice(),
        replace.word.as_slice(),
    )?;
    circuit.ask(differ.as_slice())?;
    Ok(circuit.into_clauses())
}
