//! The evidence of a rule, typing by typing.

ghost use Rattle.std.specs.Prelude.{◌≡◌, ◌≤◌, true, length, find, map, IfOk, Some};
ghost use Rattle.std.specs.List.{All};
ghost use Rattle.std.specs.Option.{option_map};
ghost use Rattle.rule_check.specs.Lines.{is_for};
ghost use Rattle.rule_term.specs.Formed.{IsFormed};
ghost use Rattle.rule_term.specs.Typings.{is_typing};
ghost use Rattle.size_infer.specs.Grown.{all_widths_of};
ghost use Rattle.rule_read.specs.Says.{entry_says, line_says, log_step_says, proof_says, step_says};
ghost use Rattle.rule_check.specs.Accepted.{cause_at, cause_of_derivation, cause_of_log, cause_of_trial, chosen_line, claim_of, refusal_of, refused_among, refused_by_size};
ghost use Rattle.rule_check.specs.Cases.{trial_of};
ghost use Rattle.clause_check.specs.Logs.{log_fault};
ghost use Rattle.rule_check.specs.declared.refused.RuleCause.TheVariants.{Log as BadLog};

use crate::cases::{Trial, try_cases};
use crate::refused::{Refused, RuleCause};
use bit_circuit::{CircuitFault, clauses_of};
use clause_check::{Clauses, Log, LogFault, check_log};
use law_derive::{DeriveFault, check_derivation};
use nir_host::OutOfMemory;
use rule_read::{Derivation, Entry, Line, Proof};
use rule_term::{Rule, Typing};
use size_infer::{SizeFault, typings};
use std::alloc::Global;

/// Why the rule is not accepted, None where it is: the fault of its sizes, else the first typing without good evidence.
/// What memory it takes is free again at the end, but for the values that it answers.
#[tactic(auto, using(crate::proofs::EvidenceLemmas::told_by_evidence, crate::proofs::EvidenceLemmas::told_by_size))]
pub fn refusal_of(alloc: Global, entry: &Entry) -> Result<Option<Refused>, OutOfMemory>
    ensures value { IfOk result (λ refused. refused ≡ refusal_of (entry_says entry.now)) }
    ensures formed { IsFormed entry.now.rule }
{
    // The proof learns that the rule is formed.
    let _number = entry.rule.number;
    match typings(alloc, &entry.rule) {
        Ok(list) => refused_among(alloc, entry, list.as_slice()),
        Err(SizeFault::Contradiction) => Ok(Some(refused_by_size(entry, SizeFault::Contradiction))),
        Err(SizeFault::Ambiguous(node)) => Ok(Some(refused_by_size(
            entry,
            SizeFault::Ambiguous(node),
        ))),
        Err(SizeFault::TooMany) => Ok(Some(refused_by_size(entry, SizeFault::TooMany))),
        Err(SizeFault::OutOfMemory) => Err(OutOfMemory),
    }
}

/// The first of the typings without good evidence.
fn refused_among(
    alloc: Global,
    entry: &Entry,
    list: &[Typing],
) -> Result<Option<Refused>, OutOfMemory>
    requires each { All (λ typing. is_typing entry.now.rule typing.widths ≡ true) list.now }
    requires few { length list.now ≤ 64 }
    ensures { IfOk result (λ refused. refused ≡ refused_among (claim_of entry.now) 0 (all_widths_of list.now)) }
{
    for (at, typing) in list.iter().enumerate() {
        let number = at as u32;
        if let Some(cause) = cause_at(alloc, entry, number, typing)? {
            return Ok(Some(Refused {
                rule: entry.rule.number,
                typing: Some(number),
                cause,
            }));
        }
    }
    Ok(None)
}

/// What is wrong with the evidence at the typing of the number.
#[tactic(auto, unfolding(crate::specs::Accepted::cause_at))]
fn cause_at(
    alloc: Global,
    entry: &Entry,
    number: u32,
    typing: &Typing,
) -> Result<Option<RuleCause>, OutOfMemory>
    requires { is_typing entry.now.rule typing.now.widths ≡ true }
    ensures { IfOk result (λ cause. cause ≡ cause_at (claim_of entry.now) number typing.now.widths) }
{
    match chosen_proof(entry.lines.as_slice(), number) {
        Some(Proof::Cases) => cause_of_trial(alloc, &entry.rule, typing),
        Some(Proof::Derive(steps)) => cause_of_derivation(alloc, &entry.rule, typing, steps),
        Some(Proof::Logged(log)) => cause_of_log(alloc, &entry.rule, typing, log),
        None => Ok(Some(RuleCause::NoEvidence)),
    }
}

/// What the trial of all cases finds wrong at the typing.
fn cause_of_trial(
    alloc: Global,
    rule: &Rule,
    typing: &Typing,
) -> Result<Option<RuleCause>, OutOfMemory>
    requires { is_typing rule.now typing.now.widths ≡ true }
    ensures { IfOk result (λ cause. cause ≡ cause_of_trial (trial_of rule.now typing.now.widths)) }
{
    match try_cases(alloc, rule, typing)? {
        Trial::Equal => Ok(None),
        Trial::Differ(values) => Ok(Some(RuleCause::Cases(values))),
        Trial::TooMany => Ok(Some(RuleCause::TooManyCases)),
    }
}

/// What is wrong with a derivation at the typing.
fn cause_of_derivation(
    alloc: Global,
    rule: &Rule,
    typing: &Typing,
    derivation: &Derivation,
) -> Result<Option<RuleCause>, OutOfMemory>
    requires { is_typing rule.now typing.now.widths ≡ true }
    ensures { IfOk result (λ cause. cause ≡ cause_of_derivation rule.now typing.now.widths (map step_says derivation.now)) }
{
    match check_derivation(alloc, rule, typing, derivation) {
        Ok(()) => Ok(None),
        Err(DeriveFault::NoLaw(step)) => Ok(Some(RuleCause::Derive(DeriveFault::NoLaw(step)))),
        Err(DeriveFault::BadPath(step)) => Ok(Some(RuleCause::Derive(DeriveFault::BadPath(step)))),
        Err(DeriveFault::NoMatch(step)) => Ok(Some(RuleCause::Derive(DeriveFault::NoMatch(step)))),
        Err(DeriveFault::CondMissing(step)) => {
            Ok(Some(RuleCause::Derive(DeriveFault::CondMissing(step))))
        }
        Err(DeriveFault::WrongEnd) => Ok(Some(RuleCause::Derive(DeriveFault::WrongEnd))),
        Err(DeriveFault::OutOfMemory) => Err(OutOfMemory),
    }
}

/// What is wrong with a log at the typing. The clauses of the rule are made for it, and are free again at the end.
fn cause_of_log(
    alloc: Global,
    rule: &Rule,
    typing: &Typing,
    log: &Log,
) -> Result<Option<RuleCause>, OutOfMemory>
    requires { is_typing rule.now typing.now.widths ≡ true }
    ensures { IfOk result (λ cause. cause ≡ cause_of_log rule.now typing.now.widths (map log_step_says log.now)) }
{
    match clauses_of(alloc, rule, typing) {
        Ok(clauses) => cause_among(alloc, &clauses, log),
        Err(CircuitFault::NoCircuit(op)) => Ok(Some(RuleCause::NoCircuit(op))),
        Err(CircuitFault::OutOfMemory) => Err(OutOfMemory),
    }
}

/// What is wrong with a log that begins with these clauses.
fn cause_among(
    alloc: Global,
    clauses: &Clauses,
    log: &Log,
) -> Result<Option<RuleCause>, OutOfMemory>
    ensures { IfOk result (λ cause. cause ≡ option_map BadLog (log_fault clauses.now log.now)) }
{
    match check_log(alloc, clauses, log) {
        Ok(()) => Ok(None),
        Err(LogFault::TooLong) => Ok(Some(RuleCause::Log(LogFault::TooLong))),
        Err(LogFault::BadHint(step)) => Ok(Some(RuleCause::Log(LogFault::BadHint(step)))),
        Err(LogFault::NotUnit(step)) => Ok(Some(RuleCause::Log(LogFault::NotUnit(step)))),
        Err(LogFault::NoEmpty) => Ok(Some(RuleCause::Log(LogFault::NoEmpty))),
        Err(LogFault::OutOfMemory) => Err(OutOfMemory),
    }
}

/// The evidence at the typing of the number: the first line for it alone, else the first for all typings.
#[tactic(auto, using(crate::proofs::EvidenceLemmas::chosen_own, crate::proofs::EvidenceLemmas::chosen_all))]
fn chosen_proof<'a>(lines: &'a [Line], number: u32) -> Option<&'a Proof>
    ensures { option_map (λ proof. proof_says proof.now) result ≡ chosen_line number (map line_says lines.now) }
{
    match first_by(lines, Some(number)) {
        Some(proof) => Some(proof),
        None => first_by(lines, None),
    }
}

/// The evidence of the first line for this typing, or for all typings.
fn first_by<'a>(lines: &'a [Line], typing: Option<u32>) -> Option<&'a Proof>
    ensures { option_map (λ proof. proof_says proof.now) result ≡ option_map (λ line. line.proof) (find (is_for typing) (map line_says lines.now)) }
{
    for line in lines {
        if is_for(line, typing) {
            return Some(&line.proof);
        }
    }
    None
}

/// Whether the line is for this typing, or for all.
fn is_for(line: &Line, typing: Option<u32>) -> bool
    ensures { result ≡ is_for typing (line_says line.now) }
{
    match (line.typing, typing) {
        (Some(own), Some(sought)) => own == sought,
        (None, None) => true,
        (Some(_), None) | (None, Some(_)) => false,
    }
}

/// The refusal for a fault of the sizes.
fn refused_by_size(entry: &Entry, fault: SizeFault) -> Refused
    ensures { result ≡ refused_by_size (claim_of entry.now) fault }
{
    Refused {
        rule: entry.rule.number,
        typing: None,
        cause: RuleCause::Size(fault),
    }
}
