//! Rules whose evidence is a log: the clauses of a rule, and what checking a file answers.

use crate::rule_checks::verdict;
use bit_circuit::{CircuitFault, clauses_of};
use clause_check::{Clauses, Hints, Lits, Log, LogFault, LogStep, check_log};
use nir_ops::name;
use rule_read::read_rules;
use rule_term::Rule;
use size_infer::typings;
use std::alloc::{AllocError, Global};
use std::fmt::Write;
use std::test::Fail;

/// Texts of files of one rule, and what checking them answers.
static LOGGED: &[(&str, &str)] = &[
    (
        "[((ixor, 'a@1', a), False), by * log [([], [1, 10, 6, 2, 3])]]",
        "accepted: 0",
    ),
    (
        "[((ixor, 'a@1', a), False), by * log [([], [2, 1, 10, 6, 2, 3])]]",
        "rule 0 typing 0: log step 0: not a unit",
    ),
    (
        "[((ixor, 'a@1', a), False), by * log [([], [11])]]",
        "rule 0 typing 0: log step 0: bad hint",
    ),
    (
        "[((ixor, 'a@1', a), False), by * log [([], [1, 10, 6, 2, 11])]]",
        "rule 0 typing 0: log step 0: bad hint",
    ),
    (
        "[((iand, 'a@1', a), a), by * log [([3], [9, 5, 4]), ([], [10, 2, 9, 6])]]",
        "accepted: 0",
    ),
    (
        "[((iand, 'a@1', a), a), by * log [([3], [9, 5]), ([], [10, 2, 9, 6])]]",
        "rule 0 typing 0: log step 0: not a unit",
    ),
    (
        "[((iand, 'a@1', a), a), by * log [([3], [9, 5, 4])]]",
        "rule 0 typing 0: log has no empty clause",
    ),
    (
        "[((iand, 'a@1', a), a), by * log []]",
        "rule 0 typing 0: log has no empty clause",
    ),
    // An opcode without a circuit is told whatever the log holds: the first in preorder, the search side first.
    (
        "[((udiv, a, 1), a), by * log []]",
        "rule 0 typing 0: no circuit for udiv",
    ),
    (
        "[((udiv, a, 1), a), by * log [([], [1, 10, 6, 2, 3])]]",
        "rule 0 typing 0: no circuit for udiv",
    ),
    (
        "[((iadd, (umod, 'a@8', 3), (udiv, a, 3)), a), by * log []]",
        "rule 0 typing 0: no circuit for umod",
    ),
    (
        "[((udiv, (umod, 'a@8', 3), 3), 0), by * log []]",
        "rule 0 typing 0: no circuit for udiv",
    ),
    (
        "[((iand, 'a@8', (irem, a, 1)), (udiv, a, 1)), by * log []]",
        "rule 0 typing 0: no circuit for irem",
    ),
    (
        "[((iand, 'a@8', a), (iadd, (idiv, a, 1), (irem, a, 1))), by * log []]",
        "rule 0 typing 0: no circuit for idiv",
    ),
    // Other evidence for such a rule is judged as ever.
    (
        "[((udiv, a, 1), a), by * derive [(57, [])]]",
        "rule 0 typing 0: derivation step 0: no law",
    ),
    ("[((udiv, a, 1), a)]", "rule 0 typing 0: no evidence"),
    // Faults of sizes come first.
    ("[((iadd, 'a@1', 0), a), by * log []]", "rule 0: no typing"),
    // Each typing has clauses of its own: this log is good at one bit, and not at 8.
    (
        "[((iand, a, a), a), by * log [([3], [9, 5, 4]), ([], [10, 2, 9, 6])]]",
        "rule 0 typing 1: log step 0: not a unit",
    ),
    (
        "[((iand, a, a), a), by 0 log [([3], [9, 5, 4]), ([], [10, 2, 9, 6])], by * derive [(19, [])]]",
        "accepted: 0",
    ),
    (
        "[((iand, a, a), a), by 4 log [], by * derive [(19, [])]]",
        "rule 0 typing 4: log has no empty clause",
    ),
    // A bad line for a typing is not helped by a good one for all.
    (
        "[((iand, 'a@8', a), a), by 0 log [], by * cases]",
        "rule 0 typing 0: log has no empty clause",
    ),
    // Sides that differ, and a log under options.
    (
        "[((iand, 'a@1', 0), a), by * log [([], [1, 2, 3, 4])]]",
        "rule 0 typing 0: log step 0: not a unit",
    ),
    (
        "[((ixor, 'a@1', a), False, '!options->o'), by * log [([], [1, 10, 6, 2, 3])]]",
        "accepted: 0",
    ),
];

#[test]
fn rules_are_judged_by_their_logs(rt: HostRuntime) -> Result<(), Fail> {
    for &(text, wanted) in LOGGED {
        let file = read_rules(rt.alloc(), text.as_bytes())?;
        let shown = verdict(rt.alloc(), file)?;
        assert_eq!(rt; shown.as_str(), wanted, "{text}");
    }
    Ok(())
}

/// Texts of files of one rule, and its clauses at its first typing.
static CLAUSES: [(&str, &str); 4] = [
    (
        "[((ixor, 'a@1', a), False)]",
        "(1) (-3 2 2) (-3 -2 -2) (3 -2 2) (3 2 -2) (-4 3 -1) (-4 -3 1) (4 -3 -1) (4 3 1) (4)",
    ),
    (
        "[((iand, 'a@1', a), a)]",
        "(1) (-3 2) (-3 2) (3 -2 -2) (-4 3 2) (-4 -3 -2) (4 -3 2) (4 3 -2) (4)",
    ),
    ("[((iand, 'a@8', (umod, a, 3)), 0)]", "no circuit for umod"),
    ("[((iand, 'a@8', 0), (irem, a, 1))]", "no circuit for irem"),
];

fn show_clauses(out: &mut String, clauses: &Clauses) -> Result<(), AllocError> {
    for clause in clauses.as_slice() {
        out.push_str(if out.is_empty() { "(" } else { " (" })?;
        show_literals(out, clause.as_slice())?;
        out.push(')')?;
    }
    Ok(())
}

fn show_literals(out: &mut String, literals: &[i32]) -> Result<(), AllocError> {
    for (at, literal) in literals.iter().enumerate() {
        if at > 0 {
            out.push(' ')?;
        }
        write!(out, "{literal}")?;
    }
    Ok(())
}

/// The clauses of a rule at its first typing, or the opcode without a circuit.
fn clauses_told(alloc: Global, rule: &Rule) -> Result<String, Fail> {
    let Ok(list) = typings(alloc, rule) else {
        return Err("sizes that are of no use".into());
    };
    let mut out = String::new(alloc);
    for typing in list.as_slice() {
        match clauses_of(alloc, rule, typing) {
            Ok(clauses) => show_clauses(&mut out, &clauses)?,
            Err(CircuitFault::NoCircuit(op)) => write!(out, "no circuit for {}", name(op))?,
            Err(CircuitFault::OutOfMemory) => out.push_str("out of memory")?,
        }
    }
    Ok(out)
}

#[test]
fn the_clauses_of_a_rule_are_numbered(rt: HostRuntime) -> Result<(), Fail> {
    for &(text, wanted) in &CLAUSES {
        let file = read_rules(rt.alloc(), text.as_bytes())?;
        let entry = file.entries.get(0).ok_or("a rule")?;
        let told = clauses_told(rt.alloc(), &entry.rule)?;
        assert_eq!(rt; told.as_str(), wanted, "{text}");
    }
    Ok(())
}

/// So many steps, each with the empty clause and no hints.
fn empty_steps(alloc: Global, count: u32) -> Result<Log, Fail> {
    let mut log = Log::new(alloc);
    for _step in 0..count {
        log.push(LogStep {
            clause: Lits::new(alloc),
            hints: Hints::new(alloc),
        })?;
    }
    Ok(log)
}

#[test]
fn a_log_may_have_so_many_steps(rt: HostRuntime) -> Result<(), Fail> {
    let clauses = Clauses::new(rt.alloc());
    let mut log = empty_steps(rt.alloc(), 4_194_304)?;
    assert_eq!(rt;
        check_log(rt.alloc(), &clauses, &log),
        Err(LogFault::NotUnit(0))
    );
    log.push(LogStep {
        clause: Lits::new(rt.alloc()),
        hints: Hints::new(rt.alloc()),
    })?;
    assert_eq!(rt;
        check_log(rt.alloc(), &clauses, &log),
        Err(LogFault::TooLong)
    );
    Ok(())
}
