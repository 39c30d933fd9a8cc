//! Rules whose evidence is a log of clauses: the lines of `check`, and how a run ends.

use super::{Case, PRINTED, REFUSED, Text, all_end};

/// Logs in which nothing is wrong, and one for each way in which one shows nothing.
const LOGGED: &[u8] = br"[
  (('ixor', 'a@1', a), False), by * log [([], [1, 10, 6, 2, 3])],
  (('ixor', 'a@1', a), False), by * log [([], [2, 1, 10, 6, 2, 3])],
  (('ixor', 'a@1', a), False), by * log [([], [11, 1, 10, 6, 2, 3])],
  (('iand', 'a@1', a), a), by * log [([3], [9, 5, 4]), ([], [10, 2, 9, 6])],
  (('iand', 'a@1', a), a), by * log [([3], [9, 5]), ([], [10, 2, 9, 6])],
  (('iand', 'a@1', a), a), by * log [([3], [9, 5, 4]), ([], [10, 2, 9, 11])],
  (('iand', 'a@1', a), a), by * log [([3], [9, 5, 4])],
  (('iand', 'a@1', a), a), by * log [],
  (('udiv', a, 1), a), by * log [],
  (('udiv', a, 1), a), by * log [([1, -2], [3])],
  (('udiv', a, 1), a), by * derive [(57, [])],
  (('udiv', a, 1), a)]";

const LOGGED_LINES: &[u8] = br"rule 0 accepted
rule 1 typing 0: log step 0: not a unit
rule 2 typing 0: log step 0: bad hint
rule 3 accepted
rule 4 typing 0: log step 0: not a unit
rule 5 typing 0: log step 1: bad hint
rule 6 typing 0: log has no empty clause
rule 7 typing 0: log has no empty clause
rule 8 typing 0: no circuit for udiv
rule 9 typing 0: no circuit for udiv
rule 10 typing 0: derivation step 0: no law
rule 11 typing 0: no evidence
";

static CHECKS: [Case; 1] = [Case {
    words: &[b"check", b"r"],
    rules: Text::Whole(LOGGED),
    number: 6,
    out: LOGGED_LINES,
    notes: b"rules: rule 1 typing 0: log step 0: not a unit\n",
    ..REFUSED
}];

#[test]
fn each_log_has_a_line(rt: HostRuntime) {
    all_end(&rt, rt.alloc(), &CHECKS);
}

/// A run of a rule that is not accepted.
const NOT_ACCEPTED: Case<'static> = Case {
    number: 6,
    ..REFUSED
};

static RUNS: [Case; 6] = [
    Case {
        rules: Text::Whole(b"[(('ixor', 'a@1', a), False), by * log [([], [1, 10, 6, 2, 3])]]"),
        ..PRINTED
    },
    Case {
        rules: Text::Whole(b"[(('ixor', 'a@1', a), False), by * log [([], [2, 1, 10, 6, 2, 3])]]"),
        notes: b"rules: rule 0 typing 0: log step 0: not a unit\n",
        ..NOT_ACCEPTED
    },
    Case {
        rules: Text::Whole(b"[(('ixor', 'a@1', a), False), by * log [([], [11])]]"),
        notes: b"rules: rule 0 typing 0: log step 0: bad hint\n",
        ..NOT_ACCEPTED
    },
    Case {
        rules: Text::Whole(b"[(('iand', 'a@1', a), a), by * log []]"),
        notes: b"rules: rule 0 typing 0: log has no empty clause\n",
        ..NOT_ACCEPTED
    },
    Case {
        rules: Text::Whole(b"[(('udiv', a, 1), a), by * log []]"),
        notes: b"rules: rule 0 typing 0: no circuit for udiv\n",
        ..NOT_ACCEPTED
    },
    Case {
        words: &[b"r", b"--skip"],
        rules: Text::Whole(
            b"[(('udiv', a, 1), a), by * log [], (('iand', 'a@1', a), a), by * log [([3], [9, 5])]]",
        ),
        notes: b"skipped rule 0 typing 0: no circuit for udiv\nskipped rule 1 typing 0: log step 0: not a unit\n",
        ..PRINTED
    },
];

#[test]
fn a_log_that_shows_nothing_ends_a_run(rt: HostRuntime) {
    all_end(&rt, rt.alloc(), &RUNS);
}
