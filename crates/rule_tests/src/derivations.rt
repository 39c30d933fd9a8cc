//! Rules whose evidence is a derivation, and the line of the command `check` for each.

use crate::derivation_rows::{RIGHT, WRONG};
use crate::every_size::at_size;
use crate::rule_checks::show_refused;
use law_derive::{DeriveFault, check_derivation};
use rule_check::{CheckFault, check_file};
use rule_read::{Derivation, Proof, read_rules};
use rule_term::Rule;
use size_infer::typings;
use std::alloc::Global;
use std::test::Fail;

/// Rules that were worked out by hand, behind what is told of each. Lines that begin with `#` say what the next ones show.
const WORKED: &str = r"# A law, a path and a calculation, and what can be wrong with them.
rule 0 accepted|[((iadd, a, 0), a), by * derive [(3, [])]]
rule 0 typing 0: derivation step 0: bad path|[((iadd, a, 0), a), by * derive [(3, [2])]]
rule 0 typing 0: derivation step 0: no match|[((iadd, a, 0), a), by * derive [(4, [])]]
rule 0 typing 0: derivation ends elsewhere|[((iadd, a, 0), a), by * derive []]
rule 0 typing 0: derivation step 0: condition missing|[((imul, a, b), (ishl, a, (find_lsb, b))), by * derive [(15, [])]]
rule 0 accepted|[((iadd, (iadd, a, 1), 2), (iadd, a, 3)), by * derive [(2, []), (calc, [1], 3)]]
rule 0 typing 0: derivation step 1: no match|[((iadd, (iadd, a, 1), 2), (iadd, a, 3)), by * derive [(2, []), (calc, [1], 4)]]
rule 0 accepted|[((isub, a, a), (imul, a, 0)), by * derive [(5, []), (4, []), (11, [], rev, x = a)]]
rule 0 typing 0: derivation step 2: no match|[((isub, a, a), (imul, a, 0)), by * derive [(5, []), (4, []), (11, [], rev)]]
rule 0 typing 0: derivation step 0: no law|[((udiv, 'a@32', 1), a), by * derive [(57, [])]]
# No such law goes first, no such part second.
rule 0 typing 0: derivation step 0: no law|[((imul, 'a@16', b), 0), by * derive [(57, [9], rev)]]
rule 0 typing 0: derivation step 0: no law|[((imul, 'a@16', b), 0), by * derive [(0, [])]]
rule 0 typing 0: derivation step 0: no law|[((imul, 'a@16', b), 0), by * derive [(4294967295, [])]]
rule 0 typing 0: derivation step 0: bad path|[((imul, 'a@16', b), 0), by * derive [(4, [2])]]
rule 0 typing 0: derivation step 0: bad path|[((imul, 'a@16', b), 0), by * derive [(4, [0, 0])]]
rule 0 typing 0: derivation step 0: bad path|[((imul, 'a@16', b), 0), by * derive [(calc, [1, 4294967295], 0)]]
# Each cause at the first step, in the middle and at the last.
rule 0 accepted|[((iadd, (imul, 'a@16', b), 0), (imul, b, a)), by * derive [(1, []), (1, []), (3, []), (9, [])]]
rule 0 typing 0: derivation step 0: no law|[((iadd, (imul, 'a@16', b), 0), (imul, b, a)), by * derive [(57, []), (1, []), (3, []), (9, [])]]
rule 0 typing 0: derivation step 1: no law|[((iadd, (imul, 'a@16', b), 0), (imul, b, a)), by * derive [(1, []), (57, []), (3, []), (9, [])]]
rule 0 typing 0: derivation step 3: no law|[((iadd, (imul, 'a@16', b), 0), (imul, b, a)), by * derive [(1, []), (1, []), (3, []), (57, [])]]
rule 0 typing 0: derivation step 0: bad path|[((iadd, (imul, 'a@16', b), 0), (imul, b, a)), by * derive [(1, [2]), (1, []), (3, []), (9, [])]]
rule 0 typing 0: derivation step 1: bad path|[((iadd, (imul, 'a@16', b), 0), (imul, b, a)), by * derive [(1, []), (1, [0, 0]), (3, []), (9, [])]]
rule 0 typing 0: derivation step 3: bad path|[((iadd, (imul, 'a@16', b), 0), (imul, b, a)), by * derive [(1, []), (1, []), (3, []), (9, [0, 0])]]
rule 0 typing 0: derivation step 0: no match|[((iadd, (imul, 'a@16', b), 0), (imul, b, a)), by * derive [(9, []), (1, []), (3, []), (9, [])]]
rule 0 typing 0: derivation step 1: no match|[((iadd, (imul, 'a@16', b), 0), (imul, b, a)), by * derive [(1, []), (3, []), (3, []), (9, [])]]
rule 0 typing 0: derivation step 3: no match|[((iadd, (imul, 'a@16', b), 0), (imul, b, a)), by * derive [(1, []), (1, []), (3, []), (1, [])]]
rule 0 typing 0: derivation step 0: condition missing|[((iadd, (imul, 'a@16', b), 0), (imul, b, a)), by * derive [(15, [0]), (1, []), (3, []), (9, [])]]
rule 0 typing 0: derivation step 1: condition missing|[((iadd, (imul, 'a@16', b), 0), (imul, b, a)), by * derive [(1, []), (16, [1]), (3, []), (9, [])]]
rule 0 typing 0: derivation step 3: condition missing|[((iadd, (imul, 'a@16', b), 0), (imul, b, a)), by * derive [(1, []), (1, []), (3, []), (15, [])]]
rule 0 typing 0: derivation ends elsewhere|[((iadd, (imul, 'a@16', b), 0), (imul, b, a)), by * derive [(1, []), (1, []), (3, [])]]
rule 0 typing 0: derivation ends elsewhere|[((iadd, (imul, 'a@16', b), 0), (imul, b, a)), by * derive [(1, []), (1, []), (3, []), (9, []), (9, [])]]
# Terms are the same by opcodes, variables, sizes and words.
rule 0 accepted|[((iand, (u2u16, 'b@8'), 'a@16'), (iand, (u2u16, b), a)), by * derive [(29, [0, 0], rev), (29, [0, 0])]]
rule 0 typing 0: derivation step 0: no match|[((iadd, 'a@8', (ineg, b)), 0), by * derive [(4, [])]]
rule 0 accepted|[((iand, (iadd, 'a@8', 1), (iadd, a, 1)), (iadd, a, 1)), by * derive [(19, [])]]
rule 0 accepted|[((iand, (iadd, 'a@16', -1), (iadd, a, 65535)), (iadd, a, -1)), by * derive [(19, [])]]
rule 0 typing 0: derivation step 0: no match|[((iand, (iadd, 'a@32', -1), (iadd, a, 65535)), (iadd, a, -1)), by * derive [(19, [])]]
rule 0 accepted|[((imul, 'a@16', 65535), (ineg, a)), by * derive [(14, [])]]
rule 0 typing 0: derivation step 0: no match|[((imul, 'a@32', 65535), (ineg, a)), by * derive [(14, [])]]
rule 0 accepted|[((bcsel, 1, 'a@8', 'b@8'), a), by * derive [(45, [])]]
rule 0 accepted|[((iand, ('iadd@16(is_used_once)', 'a@16', '#b'), (iadd, a, b)), (iadd, a, b)), by * derive [(19, [])]]
rule 0 accepted|[((iadd, (imul, 'a@16', b), (iand, '#b(is_pos_power_of_two)', 0)), (iadd, (ishl, a, (find_lsb, b)), (iand, b, 0))), by * derive [(15, [0])]]
rule 0 accepted|[((ieq, (iadd, 'a@16', 0), a), True), by * derive [(3, [0]), (35, [])]]
rule 0 accepted|[((ieq, 'a@16', a), 1), by * derive [(35, [])]]
rule 0 accepted|[((iand, a, a), a), by * derive [(19, [])]]
rule 0 accepted|[((iadd, a, b), (iadd, a, b)), by * derive []]
rule 0 accepted|[((iadd, 'a@16', a), (ishl, a, 1)), by * derive [(12, [0], rev), (12, [1], rev), (13, [], rev), (calc, [1], 2), (15, []), (calc, [1], 1)]]
rule 0 typing 0: derivation ends elsewhere|[((ineg, (iadd, 'a@64', (ineg, b))), (iadd, (ineg, (ineg, b)), (ineg, a))), by * derive [(14, [], rev), (9, [])]]
rule 0 accepted|[((inot, (uge, a, b)), (ult, a, b)), by * derive [(39, [0]), (30, []), (30, [0]), (27, []), (28, [1]), (29, [])]]
rule 0 typing 0: derivation step 0: no match|[((bcsel, 'c@1', 'a@16', 'b@16'), (bcsel, c, b, a)), by * derive [(48, [])]]
# Bindings are those that are asked for, of a size that is known.
rule 0 typing 0: derivation step 2: no match|[((isub, a, a), (imul, a, 0)), by * derive [(5, []), (4, []), (11, [], rev, x = a, x = a)]]
rule 0 typing 0: derivation step 2: no match|[((isub, a, a), (imul, a, 0)), by * derive [(5, []), (4, []), (11, [], rev, y = a)]]
rule 0 typing 0: derivation step 2: no match|[((isub, a, a), (imul, a, 0)), by * derive [(5, []), (4, []), (11, [], rev, x = a, q = a)]]
rule 0 typing 0: derivation step 0: no match|[((iadd, a, 0), a), by * derive [(3, [], x = a)]]
rule 0 accepted|[((isub, 'a@16', a), (imul, (u2u16, ('iadd@8', 5, 0)), 0)), by * derive [(5, []), (4, []), (11, [], rev, x = (u2u16, ('iadd@8', 5, 0)))]]
rule 0 typing 0: derivation step 2: no match|[((isub, 'a@16', a), 0), by * derive [(5, []), (4, []), (11, [], rev, x = (u2u16, 5))]]
rule 0 typing 0: derivation step 1: no match|[((isub, 'a@16', (u2u16, 'b@8')), 0), by * derive [(5, []), (1, [0], rev, x = b)]]
rule 0 typing 0: derivation step 2: no match|[((iand, (isub, 'a@16', a), (u2u16, 'b@8')), 0), by * derive [(5, [0]), (4, [0]), (11, [0], rev, x = b)]]
rule 0 typing 0: derivation step 0: no match|[((bcsel, 'c@1', 'a@1', c), 0), by * derive [(47, [1], rev, b = (u2u16, a))]]
rule 0 accepted|[((bcsel, 'c@1', 'a@16', 'b@16'), (bcsel, c, (bcsel, (inot, c), a, a), b)), by * derive [(47, [1], rev, b = (inot, c))]]
rule 0 typing 0: derivation step 0: no match|[((bcsel, 'c@1', 'a@16', 'b@16'), 0), by * derive [(47, [1], rev, b = a)]]
# A truth value fixes no size.
rule 0 accepted|[((bcsel, True, 'a@16', 'b@16'), (bcsel, (ieq, (iadd, a, 1), (iadd, a, 1)), a, b)), by * derive [(35, [0], rev, x = (iadd, a, 1))]]
rule 0 typing 0: derivation step 0: no match|[((bcsel, True, 'a@16', 'b@16'), a), by * derive [(35, [0], rev, x = 1)]]
rule 0 typing 0: derivation step 0: no match|[((bcsel, True, 'a@16', 'b@16'), a), by * derive [(35, [0], rev, x = a, x = a)]]
rule 0 typing 0: derivation step 0: no match|[((bcsel, True, 'a@16', 'b@16'), a), by * derive [(35, [0], rev)]]
rule 0 typing 0: derivation step 0: no match|[((bcsel, True, 'a@16', 'b@16'), a), by * derive [(35, [0], rev, y = a)]]
rule 0 accepted|[((bcsel, True, 'a@16', 'b@16'), (bcsel, (ieq, True, True), a, b)), by * derive [(35, [0], rev, x = True)]]
rule 0 typing 0: derivation step 0: no match|[((bcsel, False, 'a@16', 'b@16'), b), by * derive [(40, [0], rev, x = False)]]
rule 0 typing 0: derivation step 0: no match|[((bcsel, False, 'a@16', 'b@16'), b), by * derive [(43, [0], rev, x = (ieq, a, b))]]
rule 0 accepted|[((bcsel, False, 'a@16', 'b@16'), (bcsel, (ult, (ineg, b), 0), a, b)), by * derive [(43, [0], rev, x = (ineg, b))]]
rule 0 accepted|[((bcsel, 0, 'a@16', 'b@16'), (bcsel, (ilt, a, a), a, b)), by * derive [(40, [0], rev, x = a)]]
# Conditions on a letter.
rule 0 typing 0: derivation step 0: condition missing|[((imul, 'a@16', '#b(is_neg_power_of_two)'), (ishl, a, (find_lsb, b))), by * derive [(15, [])]]
rule 0 accepted|[((imul, 'a@16', '#b(is_neg_power_of_two)'), (ineg, (ishl, a, (find_lsb, b)))), by * derive [(16, [])]]
rule 0 typing 0: derivation step 0: condition missing|[((imul, 'a@16', '#b'), (ishl, a, (find_lsb, b))), by * derive [(15, [])]]
rule 0 typing 0: derivation step 0: condition missing|[((imul, 'a@16', 3), (ishl, a, 0)), by * derive [(15, [])]]
rule 0 accepted|[((imul, 'a@8', 64), (ishl, a, 6)), by * derive [(15, []), (calc, [1], 6)]]
rule 0 typing 0: derivation step 0: condition missing|[((imul, 'a@8', 128), (ishl, a, 7)), by * derive [(15, []), (calc, [1], 7)]]
rule 0 accepted|[((imul, 'a@8', 128), (ineg, (ishl, a, 7))), by * derive [(16, []), (calc, [0, 1], 7)]]
rule 0 typing 0: derivation step 0: condition missing|[((imul, 'a@16', 128), (ineg, (ishl, a, 7))), by * derive [(16, []), (calc, [0, 1], 7)]]
rule 0 typing 0: derivation step 0: condition missing|[((imul, 'a@16', (iadd, '#b(is_pos_power_of_two)', 0)), 0), by * derive [(15, [])]]
rule 0 accepted|[((imul, 'a@16', (iadd, '#b(is_pos_power_of_two)', 0)), (ishl, a, (find_lsb, b))), by * derive [(3, [1]), (15, [])]]
rule 0 typing 0: derivation step 0: no match|[((imul, 'a@16', b), 0), by * derive [(15, [], x = a)]]
# Calculations.
rule 0 accepted|[((iadd, 'a@16', (iadd, 1, 2)), (iadd, a, 3)), by * derive [(calc, [1], 3)]]
rule 0 typing 0: derivation step 0: no match|[((iadd, 'a@16', (iadd, 1, 2)), (iadd, a, 3)), by * derive [(calc, [1], 65539)]]
rule 0 typing 0: derivation step 0: no match|[((iadd, 'a@16', (iadd, 1, 2)), (iadd, a, 3)), by * derive [(calc, [], 3)]]
rule 0 accepted|[((iadd, 'a@16', (isub, 1, 2)), (iadd, a, -1)), by * derive [(calc, [1], 65535)]]
rule 0 typing 0: derivation step 0: no match|[((iadd, 'a@16', 0), a), by * derive [(calc, [1], (isub, a, a)), (3, [])]]
rule 0 typing 0: derivation step 0: no match|[((iadd, 'a@16', 0), a), by * derive [(calc, [1], (u2u16, 0)), (3, [])]]
rule 0 accepted|[((iadd, 'a@16', 0), a), by * derive [(calc, [1], (u2u16, ('iadd@8', 0, 0))), (calc, [1, 0], 0), (calc, [1], 0), (3, [])]]
rule 0 typing 0: derivation step 0: no match|[((iadd, 'a@16', 0), a), by * derive [(calc, [1], (u2u16, ('iadd@8', 0, 256)))]]
rule 0 typing 0: derivation step 0: no match|[((iadd, 'a@16', 0), a), by * derive [(calc, [1], True)]]
rule 0 typing 0: derivation step 0: no match|[((iadd, 'a@16', 0), a), by * derive [(calc, [1], ('iadd@8', 0, 0))]]
rule 0 accepted|[((iadd, 1, 2), 3), by * derive [(calc, [], 3)]]
# Each typing has evidence of its own.
rule 0 accepted|[((iadd, a, 0), a), by 0 cases, by * derive [(3, [])]]
rule 0 accepted|[((iadd, a, 0), a), by * cases, by 2 derive [(3, [])], by 3 derive [(3, [])]]
rule 0 accepted|[((iadd, a, 0), a, '!options->o'), by * derive [(3, [])]]
rule 0 typing 1: derivation ends elsewhere|[((iadd, a, 0), a), by 0 derive [(3, [])], by * derive []]
rule 0 typing 1: derivation step 0: no match|[((imul, a, 65535), (ineg, a)), by * derive [(14, [])]]
rule 0 typing 2: log has no empty clause|[((iadd, a, 0), a), by * derive [(3, [])], by 2 log []]";

/// The line of a file of one rule.
fn line_of(alloc: Global, text: &[u8]) -> Result<String, Fail> {
    let file = read_rules(alloc, text)?;
    let mut out = String::new(alloc);
    match check_file(alloc, file) {
        Ok(_table) => out.push_str("rule 0 accepted")?,
        Err(CheckFault::Refused(refused)) => show_refused(&mut out, &refused)?,
        Err(CheckFault::OutOfMemory) => out.push_str("out of memory")?,
    }
    Ok(out)
}

#[test]
fn derivations_are_checked(rt: HostRuntime) -> Result<(), Fail> {
    for row in WORKED.lines() {
        if let Some((wanted, text)) = row.split_once('|') {
            let shown = line_of(rt.alloc(), text.as_bytes())?;
            assert_eq!(rt; shown.as_str(), wanted, "{text}");
        }
    }
    Ok(())
}

/// The sizes of a row: A from 8 bits on, B of 1 bit too.
fn sizes_of(letter: &str) -> &'static [&'static [u8]] {
    if letter == "B" {
        &[b"1", b"8", b"16", b"32", b"64"]
    } else {
        &[b"8", b"16", b"32", b"64"]
    }
}

/// The line of a rule at all sizes, or the first that is not the one that is wanted.
fn line_at(alloc: Global, sizes: &[&[u8]], text: &str, wanted: &str) -> Result<String, Fail> {
    for size in sizes {
        let sized = at_size(alloc, text.as_bytes(), *size)?;
        let shown = line_of(alloc, sized.as_slice())?;
        if shown.as_str() != wanted {
            return Ok(shown);
        }
    }
    Ok(String::from_str(alloc, wanted)?)
}

/// What is wanted of a row behind its sizes, and what is told of it.
fn told<'a>(alloc: Global, sizes: &str, row: &'a str) -> Result<(&'a str, String), Fail> {
    let (wanted, text) = row.split_once('|').ok_or("a row without a line")?;
    let shown = line_at(alloc, sizes_of(sizes), text, wanted)?;
    Ok((wanted, shown))
}

#[test]
fn each_law_is_gone_through(rt: HostRuntime) -> Result<(), Fail> {
    for line in RIGHT.lines() {
        if let Some((sizes, row)) = line.split_once('|') {
            let (wanted, shown) = told(rt.alloc(), sizes, row)?;
            assert_eq!(rt; shown.as_str(), wanted, "{row}");
        }
    }
    Ok(())
}

#[test]
fn the_first_fault_of_a_derivation_is_told(rt: HostRuntime) -> Result<(), Fail> {
    for line in WRONG.lines() {
        if let Some((sizes, row)) = line.split_once('|') {
            let (wanted, shown) = told(rt.alloc(), sizes, row)?;
            assert_eq!(rt; shown.as_str(), wanted, "{row}");
        }
    }
    Ok(())
}

/// The first fault of a derivation at the typings of a rule.
fn first_fault(
    alloc: Global,
    rule: &Rule,
    derivation: &Derivation,
) -> Result<Option<DeriveFault>, Fail> {
    let Ok(list) = typings(alloc, rule) else {
        return Err("sizes that are of no use".into());
    };
    for typing in list.as_slice() {
        if let Err(fault) = check_derivation(alloc, rule, typing, derivation) {
            return Ok(Some(fault));
        }
    }
    Ok(None)
}

/// The first fault of the derivation of a file of one rule and one line.
fn fault_of(alloc: Global, text: &str) -> Result<Option<DeriveFault>, Fail> {
    let file = read_rules(alloc, text.as_bytes())?;
    let entry = file.entries.get(0).ok_or("a rule")?;
    let line = entry.lines.get(0).ok_or("a line")?;
    match &line.proof {
        Proof::Derive(derivation) => first_fault(alloc, &entry.rule, derivation),
        Proof::Cases | Proof::Logged(_) => Err("no derivation".into()),
    }
}

/// Derivations that are checked without the rest of their file.
static ALONE: [(&str, Option<DeriveFault>); 3] = [
    ("[((iadd, a, 0), a), by * derive [(3, [])]]", None),
    (
        "[((iadd, a, 0), a), by * derive [(1, []), (3, [])]]",
        Some(DeriveFault::NoMatch(1)),
    ),
    (
        "[((iadd, a, 0), a), by * derive []]",
        Some(DeriveFault::WrongEnd),
    ),
];

#[test]
fn a_derivation_alone_is_checked(rt: HostRuntime) -> Result<(), Fail> {
    for &(text, wanted) in &ALONE {
        assert_eq!(rt; fault_of(rt.alloc(), text)?, wanted, "{text}");
    }
    Ok(())
}
