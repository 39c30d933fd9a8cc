//! The clauses of the rule and the typing that are chosen.

ghost use Rattle.std.specs.Prelude.{◌≡◌, ℕ, ◌≤◌, true, List, Ok, length, slice_get, Some, IfErr, OnOk};
ghost use Rattle.std.specs.List.{All};
ghost use Rattle.nir_host.specs.Faults.{Rose};
ghost use Rattle.rule_term.specs.Typings.{is_typing};
ghost use Rattle.size_infer.specs.Grown.{all_widths_of};
ghost use Rattle.rule_read.specs.Says.{file_says, rule_says};
ghost use Rattle.rule_clauses.specs.Asked.{bare, by_file, by_typing, ClausesFit, EndsWork, ends_by, ends_by_sizes, rule_answer, TextFits, text_answer};
ghost use Rattle.rule_clauses.specs.Ran.{ReadsToEnd};

use crate::dimacs::dimacs_text;
use crate::faults::{is_of_sizes, is_of_text};
use crate::status::Status;
use crate::words::Choice;
use bit_circuit::{CircuitFault, clauses_of};
use clause_check::Clauses;
use nir_host::{Bytes, ReadAllFault, Source, read_all};
use rule_read::{RuleFault, RuleFile, read_rules};
use rule_term::{Rule, Typing};
use size_infer::{SizeFault, typings};
use std::alloc::Global;

/// How many bytes of rules are read.
const MAX_RULES: u64 = 67_108_864;

/// How reading a rule text with this fault ends.
fn ends_by(fault: RuleFault) -> Status
    ensures { result ≡ ends_by fault }
{
    if is_of_text(&fault) {
        Status::RulesSyntax(fault)
    } else {
        Status::OutOfMemory
    }
}

/// How finding the typings of a rule with this fault ends.
fn ends_by_sizes(rule: u32, fault: SizeFault) -> Status
    ensures { result ≡ ends_by_sizes rule fault }
{
    if is_of_sizes(fault) {
        Status::NoSizes { rule, fault }
    } else {
        Status::OutOfMemory
    }
}

/// The clauses of a rule at one of its typings.
fn clauses_at(
    alloc: Global,
    choice: Choice,
    rule: &Rule,
    typing: &Typing,
) -> Result<Clauses, Status>
    requires { is_typing rule.now typing.now.widths ≡ true }
    ensures fits { ClausesFit result (by_typing choice (bare (rule_says rule.now)) (Some typing.now.widths)) }
    ensures stop { IfErr result (λ status. EndsWork status ⊥) }
{
    match clauses_of(alloc, rule, typing) {
        Ok(clauses) => Ok(clauses),
        Err(CircuitFault::NoCircuit(op)) => Err(Status::NoCircuit {
            rule: choice.rule,
            op,
        }),
        Err(CircuitFault::OutOfMemory) => Err(Status::OutOfMemory),
    }
}

/// The clauses of a rule at the typing that is chosen, of all its typings.
fn clauses_among(
    alloc: Global,
    choice: Choice,
    rule: &Rule,
    list: &[Typing],
) -> Result<Clauses, Status>
    requires { All (λ typing. is_typing rule.now typing.widths ≡ true) list.now }
    ensures fits { ClausesFit result (by_typing choice (bare (rule_says rule.now)) (slice_get (all_widths_of list.now) choice.typing)) }
    ensures stop { IfErr result (λ status. EndsWork status ⊥) }
{
    match list.get(choice.typing as usize) {
        Some(typing) => clauses_at(alloc, choice, rule, typing),
        None => Err(Status::NoTyping {
            rule: choice.rule,
            typing: choice.typing,
        }),
    }
}

/// The clauses of a rule at the typing that is chosen.
fn clauses_of_rule(alloc: Global, choice: Choice, rule: &Rule) -> Result<Clauses, Status>
    ensures fits { ClausesFit result (rule_answer choice (bare (rule_says rule.now))) }
    ensures stop { IfErr result (λ status. EndsWork status ⊥) }
{
    match typings(alloc, rule) {
        Ok(list) => clauses_among(alloc, choice, rule, list.as_slice()),
        Err(fault) => Err(ends_by_sizes(choice.rule, fault)),
    }
}

/// The clauses of the rule that is chosen in a file.
fn clauses_in_file(alloc: Global, choice: Choice, file: &RuleFile) -> Result<Clauses, Status>
    ensures fits { ClausesFit result (by_file choice (Ok (file_says file.now))) }
    ensures stop { IfErr result (λ status. EndsWork status ⊥) }
{
    match file.entries.get(choice.rule as usize) {
        Some(entry) => clauses_of_rule(alloc, choice, &entry.rule),
        None => Err(Status::NoRule(choice.rule)),
    }
}

/// The clauses of what is chosen in a rule text that was read to its end.
fn clauses_in_text(alloc: Global, choice: Choice, text: &[u8]) -> Result<Clauses, Status>
    requires { length text.now ≤ 67108864 }
    ensures fits { ClausesFit result (text_answer choice text.now) }
    ensures stop { IfErr result (λ status. EndsWork status ⊥) }
{
    match read_rules(alloc, text) {
        Ok(file) => clauses_in_file(alloc, choice, &file),
        Err(fault) => Err(ends_by(fault)),
    }
}

/// The text of the clauses of what is chosen in a rule text that was read to its end.
fn text_in(alloc: Global, choice: Choice, rules: &[u8]) -> Result<Bytes, Status>
    requires { length rules.now ≤ 67108864 }
    ensures fits { TextFits result (text_answer choice rules.now) }
    ensures stop { IfErr result (λ status. EndsWork status ⊥) }
{
    match clauses_in_text(alloc, choice, rules) {
        Ok(clauses) => match dimacs_text(alloc, clauses.as_slice()) {
            Ok(text) => Ok(text),
            Err(_no_memory) => Err(Status::OutOfMemory),
        },
        Err(status) => Err(status),
    }
}

/// Reads the rules to their end, and makes the text of the clauses of what is chosen in them.
pub fn chosen_text<R: Source>(alloc: Global, choice: Choice, rules: &mut R) -> Result<Bytes, Status>
    ensures fits { (text : List ℕ) → R.left rules.old ≡ Some text → TextFits result (text_answer choice text) }
    ensures end { OnOk result (ReadsToEnd (R.left rules.old) (R.left rules.new)) }
    ensures stop { IfErr result (λ status. EndsWork status (Rose (R.faults rules.old) (R.faults rules.new))) }
{
    match read_all(alloc, rules, MAX_RULES) {
        Ok(text) => text_in(alloc, choice, text.as_slice()),
        Err(ReadAllFault::ReadFault) => Err(Status::ReadFault),
        Err(ReadAllFault::TooLong) => Err(Status::TooLong),
        Err(ReadAllFault::OutOfMemory) => Err(Status::OutOfMemory),
    }
}
