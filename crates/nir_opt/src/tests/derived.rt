//! Rules whose evidence is a derivation: the lines of `check`, and shaders that they change.

use super::rewriting::step;
use super::{Case, PRINTED, REFUSED, Text, all_end, repeated};
use nir_ir::{Step, ValueId};
use rule_check::check_file;
use rule_read::read_rules;
use std::test::Fail;

/// The rules of a table, without its brackets.
const TABLE: &[u8] = br"(('iadd', a, 0), a), by * derive [(3, [])],
  (('imul', a, '#b(is_pos_power_of_two)'), ('ishl', a, ('find_lsb', b))),
    by * derive [(15, [])],
  (('udiv', a, '#b(is_pos_power_of_two)'), ('ushr', a, ('find_lsb', b))),
    by * derive [(53, [])],
  (('ineg', ('ineg', a)), a), by * derive [(6, [])],
  (('iand', a, a), a), by * derive [(19, [])],
  (('inot', ('uge', a, b)), ('ult', a, b)),
    by * derive [(39, [0]), (30, []), (30, [0]), (27, []), (28, [1]), (29, [])],
  (('imul', a, 1), a), by * derive [(12, [])],
  (('ior', a, 0), a), by * derive [(25, [])],
  (('ishl', a, 0), a), by * derive [(55, [])],
  (('isub', a, a), 0), by * derive [(5, []), (4, [])],
  (('ixor', a, a), 0), by * derive [(28, [])],
  (('bcsel', b, a, a), a), by * derive [(47, [])]";

/// A line for each rule of the table.
const TWELVE: &[u8] = br"rule 0 accepted
rule 1 accepted
rule 2 accepted
rule 3 accepted
rule 4 accepted
rule 5 accepted
rule 6 accepted
rule 7 accepted
rule 8 accepted
rule 9 accepted
rule 10 accepted
rule 11 accepted
";

/// Derivations that go through, and one for each way in which one fails.
const DERIVED: &[u8] = br"[
  (('iadd', a, 0), a), by * derive [(3, [])],
  (('iadd', a, 0), a), by * derive [(3, [2])],
  (('iadd', a, 0), a), by * derive [(4, [])],
  (('iadd', a, 0), a), by * derive [],
  (('imul', a, b), ('ishl', a, ('find_lsb', b))), by * derive [(15, [])],
  (('iadd', ('iadd', a, 1), 2), ('iadd', a, 3)), by * derive [(2, []), (calc, [1], 3)],
  (('iadd', ('iadd', a, 1), 2), ('iadd', a, 3)), by * derive [(2, []), (calc, [1], 4)],
  (('isub', a, a), ('imul', a, 0)), by * derive [(5, []), (4, []), (11, [], rev, x = a)],
  (('isub', a, a), ('imul', a, 0)), by * derive [(5, []), (4, []), (11, [], rev)],
  (('udiv', 'a@32', 1), 'a'), by * derive [(57, [])]]";

const DERIVED_LINES: &[u8] = br"rule 0 accepted
rule 1 typing 0: derivation step 0: bad path
rule 2 typing 0: derivation step 0: no match
rule 3 typing 0: derivation ends elsewhere
rule 4 typing 0: derivation step 0: condition missing
rule 5 accepted
rule 6 typing 0: derivation step 1: no match
rule 7 accepted
rule 8 typing 0: derivation step 2: no match
rule 9 typing 0: derivation step 0: no law
";

static CHECKS: [Case; 2] = [
    Case {
        words: &[b"check", b"r"],
        rules: Text::Repeated {
            front: b"[ ",
            piece: TABLE,
            times: 1,
            end: b" ]",
        },
        out: TWELVE,
        ..REFUSED
    },
    Case {
        words: &[b"check", b"r"],
        rules: Text::Whole(DERIVED),
        number: 6,
        out: DERIVED_LINES,
        notes: b"rules: rule 1 typing 0: derivation step 0: bad path\n",
        ..REFUSED
    },
];

#[test]
fn each_derivation_has_a_line(rt: HostRuntime) {
    all_end(&rt, rt.alloc(), &CHECKS);
}

/// Fronts of the table, and whether it descends.
static FRONTS: [(&[u8], bool); 2] = [
    (b"[weight imul 3, weight udiv 3, weight inot 2, ", true),
    (b"[", false),
];

#[test]
fn weights_decide_whether_a_table_descends(rt: HostRuntime) -> Result<(), Fail> {
    for &(front, descending) in &FRONTS {
        let text = repeated(rt.alloc(), front, TABLE, 1, b"]")?;
        let file = read_rules(rt.alloc(), text.as_slice())?;
        let table = check_file(rt.alloc(), file)?;
        assert_eq!(rt; table.descending(), descending);
    }
    Ok(())
}

const BOTH: &[u8] = br"shader
inputs [w32x1]
outputs [w32x1]
buffers 0
{
  block b0 {
    %0 = input w32x1 @0
    %1 = iand w32x1 %0, %0
    output @0, %1
  }
}
";

const EITHER: &[u8] = br"shader
inputs [w32x1]
outputs [w32x1]
buffers 0
{
  block b0 {
    %0 = input w32x1 @0
    %1 = ior w32x1 %0, %0
    output @0, %1
  }
}
";

const SUM: &[u8] = br"shader
inputs [w32x1, w32x1]
outputs [w32x1]
buffers 0
{
  block b0 {
    %0 = input w32x1 @0
    %1 = input w32x1 @1
    %2 = iadd w32x1 %0, %1
    output @0, %2
  }
}
";

const TURNED: &[u8] = br"shader
inputs [w32x1, w32x1]
outputs [w32x1]
buffers 0
{
  block b0 {
    %0 = input w32x1 @0
    %1 = input w32x1 @1
    %2 = iadd w32x1 %1, %0
    output @0, %2
  }
}
";

/// A rule that undoes itself.
const TURNS: Case<'static> = Case {
    rules: Text::Whole(b"[(('iadd', a, b), ('iadd', b, a)), by * derive [(1, [])]]"),
    shader: Text::Whole(SUM),
    stopped: true,
    ..PRINTED
};

static RUNS: [Case; 3] = [
    // the earlier of two rules
    Case {
        rules: Text::Whole(
            b"[(('iand', a, a), ('ior', a, a)), by * derive [(19, []), (24, [], rev)], (('iand', a, a), a), by * derive [(19, [])]]",
        ),
        shader: Text::Whole(BOTH),
        out: EITHER,
        limit: 4097,
        journal: &[step!(1, 0, 0)],
        ..PRINTED
    },
    Case {
        words: &[b"r", b"--limit=7"],
        out: TURNED,
        notes: b"stopped at 7 rewrites\n",
        limit: 7,
        journal: &[
            step!(2, 0, 0),
            step!(2, 0, 0),
            step!(2, 0, 0),
            step!(2, 0, 0),
            step!(2, 0, 0),
            step!(2, 0, 0),
            step!(2, 0, 0),
        ],
        ..TURNS
    },
    Case {
        words: &[b"r", b"--limit=0"],
        out: SUM,
        notes: b"stopped at 0 rewrites\n",
        limit: 0,
        ..TURNS
    },
];

#[test]
fn rules_that_are_derived_are_used(rt: HostRuntime) {
    all_end(&rt, rt.alloc(), &RUNS);
}

/// Derivations that fail, under words that leave rules out.
static LEFT_OUT: [Case; 2] = [
    Case {
        words: &[b"r", b"--skip"],
        rules: Text::Whole(
            b"[(('iadd', a, 0), a), by * derive [(1, []), (57, [])], (('iand', a, a), ('ior', a, a)), by * derive [(19, []), (24, [], rev)]]",
        ),
        shader: Text::Whole(BOTH),
        out: EITHER,
        notes: b"skipped rule 0 typing 0: derivation step 1: no law\n",
        limit: 4097,
        journal: &[step!(1, 1, 0)],
        ..PRINTED
    },
    Case {
        rules: Text::Whole(b"[(('iadd', a, 0), a), by * derive [(1, []), (3, []), (15, [])]]"),
        number: 6,
        notes: b"rules: rule 0 typing 0: derivation step 1: no match\n",
        ..REFUSED
    },
];

#[test]
fn derivations_that_fail_are_told(rt: HostRuntime) {
    all_end(&rt, rt.alloc(), &LEFT_OUT);
}
