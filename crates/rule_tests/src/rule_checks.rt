//! Texts of rules, and what checking them answers: all of them at once, and with what is not accepted left out.

use clause_check::LogFault;
use law_derive::DeriveFault;
use nir_ops::name;
use rule_check::{CheckFault, Refused, RuleCause, check_file, check_file_skipping};
use rule_read::{RuleFile, read_rules};
use rule_term::Table;
use size_infer::SizeFault;
use std::alloc::{AllocError, Global};
use std::fmt::Write;
use std::test::Fail;

/// Texts of rules, and what checking them answers.
static CHECKED: &[(&str, &str)] = &[
    ("[]", "accepted:"),
    ("[((iadd, 'a@8', 0), a), by * cases]", "accepted: 0"),
    (
        "[((iadd, 'a@8', 0), a), by * cases, ((isub, 'a@8', a), 0), by * cases, ((iand, 'b@8', (inot, b)), 0), by * cases]",
        "accepted: 0 1 2",
    ),
    // The first difference counts, and the first rule.
    (
        "[((isub, 'a@8', b), (isub, b, a)), by * cases]",
        "rule 0 typing 0: differ at 0 1",
    ),
    (
        "[((iadd, 'a@8', 0), a), by * cases, ((iand, 'a@8', 3), 0), by * cases, ((isub, 'a@8', b), a), by * cases]",
        "rule 1 typing 0: differ at 1",
    ),
    (
        "[((umin, (iand, 'a@8', b), 254), (iand, a, b)), by * cases]",
        "rule 0 typing 0: differ at 255 255",
    ),
    // Only values that meet the conditions count.
    (
        "[((iand, 'a@8(is_unsigned_multiple_of_4)', 3), 0), by * cases]",
        "accepted: 0",
    ),
    // 16 bits are tried, and 17 are not.
    (
        "[((iand, 'a@8', 'b@8'), (iand, b, a)), by * cases]",
        "accepted: 0",
    ),
    ("[((isub, 'a@16', a), 0), by * cases]", "accepted: 0"),
    (
        "[((bcsel, 'c@1', 'a@8', 'b@8'), (bcsel, (inot, c), b, a)), by * cases]",
        "rule 0 typing 0: too many cases",
    ),
    // Variables of different sizes.
    ("[((bcsel, 'a@1', 'b@8', b), b), by * cases]", "accepted: 0"),
    (
        "[((bcsel, 'a@1', 'b@8', 0), b), by * cases]",
        "rule 0 typing 0: differ at 0 1",
    ),
    // Each typing has to have evidence.
    (
        "[((iand, a, 1), a), by * cases]",
        "rule 0 typing 1: differ at 2",
    ),
    (
        "[((iadd, a, 0), a), by * cases]",
        "rule 0 typing 2: too many cases",
    ),
    ("[((iadd, a, 0), a)]", "rule 0 typing 0: no evidence"),
    // Faults of sizes come before all others.
    ("[((iadd, 'a@1', 0), a)]", "rule 0: no typing"),
    (
        "[((iadd, 'a@8', 0), (iadd, a, (u2u8, 0)))]",
        "rule 0: node 3 has no size",
    ),
    (
        "[((iand, (ieq, a, b), (iand, (ieq, c, d), (ieq, e, f))), (iand, (ieq, b, a), (iand, (ieq, c, d), (ieq, e, f))))]",
        "rule 0: too many typings",
    ),
];

/// Five rules, of which two are accepted: each keeps its number.
const FIVE: &str =
    "[((iand, 'a@8', 3), 0), by * cases, ((iadd, 'a@8', 0), a), by * cases, ((iadd, 'a@1', 0), a), \
((isub, 'a@8', a), 0), by * cases, ((isub, 'a@8', b), a), by * cases]";

/// The numbers of the rules of a table.
fn show_table(out: &mut String, table: &Table) -> Result<(), AllocError> {
    out.push_str("accepted:")?;
    for place in 0..table.len() {
        write!(out, " {}", table.rule(place as u32).number)?;
    }
    Ok(())
}

fn show_fault(out: &mut String, fault: SizeFault) -> Result<(), AllocError> {
    match fault {
        SizeFault::Contradiction => out.push_str("no typing"),
        SizeFault::Ambiguous(node) => write!(out, "node {node} has no size"),
        SizeFault::TooMany => out.push_str("too many typings"),
        SizeFault::OutOfMemory => out.push_str("out of memory"),
    }
}

fn show_derive(out: &mut String, fault: DeriveFault) -> Result<(), AllocError> {
    match fault {
        DeriveFault::NoLaw(step) => write!(out, "derivation step {step}: no law"),
        DeriveFault::BadPath(step) => write!(out, "derivation step {step}: bad path"),
        DeriveFault::NoMatch(step) => write!(out, "derivation step {step}: no match"),
        DeriveFault::CondMissing(step) => write!(out, "derivation step {step}: condition missing"),
        DeriveFault::WrongEnd => out.push_str("derivation ends elsewhere"),
        DeriveFault::OutOfMemory => out.push_str("out of memory"),
    }
}

fn show_log_fault(out: &mut String, fault: LogFault) -> Result<(), AllocError> {
    match fault {
        LogFault::TooLong => out.push_str("log too long"),
        LogFault::BadHint(step) => write!(out, "log step {step}: bad hint"),
        LogFault::NotUnit(step) => write!(out, "log step {step}: not a unit"),
        LogFault::NoEmpty => out.push_str("log has no empty clause"),
        LogFault::OutOfMemory => out.push_str("out of memory"),
    }
}

/// The refusal in words.
pub(crate) fn show_refused(out: &mut String, refused: &Refused) -> Result<(), AllocError> {
    write!(out, "rule {}", refused.rule)?;
    if let Some(typing) = refused.typing {
        write!(out, " typing {typing}")?;
    }
    out.push_str(": ")?;
    match &refused.cause {
        RuleCause::Size(fault) => show_fault(out, *fault),
        RuleCause::NoEvidence => out.push_str("no evidence"),
        RuleCause::Cases(values) => {
            out.push_str("differ at")?;
            for value in values.as_slice() {
                write!(out, " {value}")?;
            }
            Ok(())
        }
        RuleCause::TooManyCases => out.push_str("too many cases"),
        RuleCause::Derive(fault) => show_derive(out, *fault),
        RuleCause::NoCircuit(op) => write!(out, "no circuit for {}", name(*op)),
        RuleCause::Log(fault) => show_log_fault(out, *fault),
    }
}

/// What checking a file answers, in words.
pub(crate) fn verdict(alloc: Global, file: RuleFile) -> Result<String, AllocError> {
    let mut out = String::new(alloc);
    match check_file(alloc, file) {
        Ok(table) => show_table(&mut out, &table)?,
        Err(CheckFault::Refused(refused)) => show_refused(&mut out, &refused)?,
        Err(CheckFault::OutOfMemory) => out.push_str("out of memory")?,
    }
    Ok(out)
}

#[test]
fn rules_are_accepted_or_refused(rt: HostRuntime) -> Result<(), Fail> {
    for &(text, wanted) in CHECKED {
        let file = read_rules(rt.alloc(), text.as_bytes())?;
        let shown = verdict(rt.alloc(), file)?;
        assert_eq!(rt; shown.as_str(), wanted, "{text}");
    }
    Ok(())
}

#[test]
fn refused_rules_are_left_out(rt: HostRuntime) -> Result<(), Fail> {
    let file = read_rules(rt.alloc(), FIVE.as_bytes())?;
    let checked = check_file_skipping(rt.alloc(), file)?;
    let mut out = String::new(rt.alloc());
    show_table(&mut out, &checked.table)?;
    for refused in checked.refused.as_slice() {
        out.push_str("; ")?;
        show_refused(&mut out, refused)?;
    }
    assert_eq!(rt;
        out.as_str(),
        "accepted: 1 3; rule 0 typing 0: differ at 1; rule 2: no typing; rule 4 typing 0: differ at 0 1"
    );
    Ok(())
}
