//! Logs of clauses, and what is wrong with each.

use clause_check::{Clauses, Lits, Log, LogFault, check_log};
use rule_read::{Proof, read_rules};
use std::alloc::Global;
use std::test::Fail;

/// The clauses of `a ^ a` and 0 at one bit: they differ.
const XOR: &[&[i32]] = &[
    &[1],
    &[-3, 2, 2],
    &[-3, -2, -2],
    &[3, -2, 2],
    &[3, 2, -2],
    &[-4, 3, -1],
    &[-4, -3, 1],
    &[4, -3, -1],
    &[4, 3, 1],
    &[4],
];

/// The clauses of `a & a` and `a` at one bit: they differ.
const AND: &[&[i32]] = &[
    &[1],
    &[-3, 2],
    &[-3, 2],
    &[3, -2, -2],
    &[-4, 3, 2],
    &[-4, -3, -2],
    &[4, -3, 2],
    &[4, 3, -2],
    &[4],
];

/// Two variables of which each of the four pairs of values is excluded.
const FOUR: &[&[i32]] = &[&[1, 2], &[1, -2], &[-1, 2], &[-1, -2]];

/// Clauses that can all be true.
const OPEN: &[&[i32]] = &[&[1, 2], &[-1, 3]];

/// Clauses, a log as a rule file has it, and what is wrong with it.
static LOGS: [(&[&[i32]], &str, Option<LogFault>); 24] = [
    (XOR, "([], [1, 10, 6, 2, 3])", None),
    (XOR, "([], [2, 1, 10, 6, 2, 3])", Some(LogFault::NotUnit(0))),
    (XOR, "([], [11, 1])", Some(LogFault::BadHint(0))),
    (AND, "([3], [9, 5, 4]), ([], [10, 2, 9, 6])", None),
    (
        AND,
        "([3], [9, 5]), ([], [10, 2, 9, 6])",
        Some(LogFault::NotUnit(0)),
    ),
    (AND, "", Some(LogFault::NoEmpty)),
    (FOUR, "([1], [1, 2]), ([], [5, 3, 4])", None),
    // The empty clause may come before the end, and twice.
    (
        FOUR,
        "([1], [1, 2]), ([], [5, 3, 4]), ([2], [6]), ([], [6])",
        None,
    ),
    // A hint behind the end of a step is not taken.
    (FOUR, "([1], [1, 2, 0, 99]), ([], [5, 3, 4])", None),
    // Hints are taken in order, and each before the next is looked at.
    (FOUR, "([1], [0, 1, 2])", Some(LogFault::BadHint(0))),
    (FOUR, "([1], [1, 0])", Some(LogFault::BadHint(0))),
    (FOUR, "([], [1, 0])", Some(LogFault::NotUnit(0))),
    // A step names neither itself nor a later one.
    (FOUR, "([1], [5])", Some(LogFault::BadHint(0))),
    (
        FOUR,
        "([1], [1, 2]), ([2], [6])",
        Some(LogFault::BadHint(1)),
    ),
    (
        FOUR,
        "([1], [1, 2]), ([], [5, 7]), ([], [5, 3, 4])",
        Some(LogFault::BadHint(1)),
    ),
    // Two literals that are not false.
    (FOUR, "([1], [1, 2]), ([], [1])", Some(LogFault::NotUnit(1))),
    // A literal that is true already is the one that is left.
    (FOUR, "([1], [2, 1, 2]), ([], [5, 3, 3, 4])", None),
    // What a step assumed is forgotten behind it.
    (
        FOUR,
        "([1], [1, 2]), ([], [3, 4])",
        Some(LogFault::NotUnit(1)),
    ),
    (
        FOUR,
        "([1, 2, 3], [1]), ([3], [1])",
        Some(LogFault::NotUnit(1)),
    ),
    // A literal and its negation.
    (FOUR, "([1, -1], [1])", Some(LogFault::NotUnit(0))),
    (FOUR, "([3, 4, -3], [0])", Some(LogFault::NotUnit(0))),
    // A literal twice is one literal.
    (FOUR, "([1, 1], [1, 2]), ([], [5, 3, 4])", None),
    // The greatest and the least literal.
    (
        FOUR,
        "([1, 5000000, -4999999], [1, 2]), ([1], [1, 2]), ([], [6, 3, 4])",
        None,
    ),
    (OPEN, "([2, 3], [1, 2])", Some(LogFault::NoEmpty)),
];

fn clauses_of(alloc: Global, list: &[&[i32]]) -> Result<Clauses, Fail> {
    let mut clauses = Clauses::new(alloc);
    for literals in list {
        clauses.push(literals_of(alloc, *literals)?)?;
    }
    Ok(clauses)
}

fn literals_of(alloc: Global, list: &[i32]) -> Result<Lits, Fail> {
    let mut literals = Lits::new(alloc);
    for literal in list {
        if *literal != 0 {
            literals.push(*literal)?;
        }
    }
    Ok(literals)
}

/// What is wrong with the log of the first line of a rule file.
fn fault_of(alloc: Global, clauses: &[&[i32]], steps: &str) -> Result<Option<LogFault>, Fail> {
    let mut text = String::new(alloc);
    text.push_str("[((iand, a, a), a), by * log [")?;
    text.push_str(steps)?;
    text.push_str("]]")?;
    let file = read_rules(alloc, text.as_bytes())?;
    let entry = file.entries.get(0).ok_or("a rule")?;
    let line = entry.lines.get(0).ok_or("a line")?;
    match &line.proof {
        Proof::Logged(log) => wrong_with(alloc, clauses, log),
        Proof::Cases | Proof::Derive(_) => Err("no log".into()),
    }
}

fn wrong_with(alloc: Global, list: &[&[i32]], log: &Log) -> Result<Option<LogFault>, Fail> {
    let clauses = clauses_of(alloc, list)?;
    match check_log(alloc, &clauses, log) {
        Ok(()) => Ok(None),
        Err(fault) => Ok(Some(fault)),
    }
}

#[test]
fn logs_are_checked(rt: HostRuntime) -> Result<(), Fail> {
    for &(clauses, steps, wanted) in &LOGS {
        assert_eq!(rt; fault_of(rt.alloc(), clauses, steps)?, wanted, "{steps}");
    }
    Ok(())
}
