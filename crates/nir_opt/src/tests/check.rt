//! The command `check`: which rules of a file are accepted.

use super::{Case, REFUSED, Text, all_end, all_end_unheard};

/// A file without rules.
const NONE: Case<'static> = Case {
    words: &[b"check", b"r"],
    number: 0,
    ..REFUSED
};

/// A file with a rule that is not accepted.
const REFUSES: Case<'static> = Case { number: 6, ..NONE };

static FILES: [Case; 9] = [
    NONE,
    Case {
        rules: Text::Whole(b"[(('iadd', 'a@8', 0), 'a'), by * cases]"),
        out: b"rule 0 accepted\n",
        ..NONE
    },
    Case {
        rules: Text::Whole(b"[(('isub', 'a@8', 'b'), ('isub', b, a)), by * cases]"),
        out: b"rule 0 typing 0: cases differ at 0, 1\n",
        notes: b"rules: rule 0 typing 0: cases differ at 0, 1\n",
        ..REFUSES
    },
    Case {
        rules: Text::Whole(b"[(('iadd', 'a@8', 'b@16'), a), by * cases]"),
        out: b"rule 0: no sizes\n",
        notes: b"rules: rule 0: no sizes\n",
        ..REFUSES
    },
    Case {
        rules: Text::Whole(b"[(('iand', ('u2u32', a), ('iand', ('u2u32', b), ('u2u32', c))), 0)]"),
        out: b"rule 0 typing 0: no evidence\n",
        notes: b"rules: rule 0 typing 0: no evidence\n",
        ..REFUSES
    },
    Case {
        rules: Text::Whole(
            b"[(('iand', ('iand', ('u2u32', a), ('u2u32', d)), ('iand', ('u2u32', b), ('u2u32', c))), 0)]",
        ),
        out: b"rule 0: too many sizes\n",
        notes: b"rules: rule 0: too many sizes\n",
        ..REFUSES
    },
    Case {
        rules: Text::Whole(b"[(('iand', 'a@8', 'b@8'), ('iand', b, a)), by * cases]"),
        out: b"rule 0 accepted\n",
        ..NONE
    },
    // each typing has a line of its own, or the one for all
    Case {
        rules: Text::Whole(
            b"[(('iand', 'a@8', ('u2u8', 65536)), 0), by 1 cases, by 0 cases, (('iand', 'a@8', ('u2u8', 65536)), 0), by 1 cases, by * cases]",
        ),
        out: b"rule 0 accepted\nrule 1 accepted\n",
        ..NONE
    },
    // all lines, and the first that is not accepted
    Case {
        rules: Text::Whole(
            b"[(('ior', 'a@8', 0), a), by * cases, (('ior', 'a@8', 254), 254), by * cases, (('udiv', a, 1), a)]",
        ),
        out: b"rule 0 accepted\nrule 1 typing 0: cases differ at 1\nrule 2 typing 0: no evidence\n",
        notes: b"rules: rule 1 typing 0: cases differ at 1\n",
        ..REFUSES
    },
];

#[test]
fn each_rule_has_a_line(rt: HostRuntime) {
    all_end(&rt, rt.alloc(), &FILES);
}

/// Words without a reading.
const UNREAD: Case<'static> = Case {
    number: 2,
    notes: b"usage: nir_opt check RULES\n",
    ..NONE
};

static ENDED: [Case; 6] = [
    Case {
        words: &[b"check"],
        ..UNREAD
    },
    Case {
        words: &[b"check", b"r", b"--skip"],
        ..UNREAD
    },
    Case {
        words: &[b"check", b"--skip"],
        ..UNREAD
    },
    Case {
        rules_fail: &[0],
        number: 3,
        notes: b"read failed: rules\n",
        ..NONE
    },
    Case {
        rules: Text::Whole(b"[(('iadd', 'a@8', 0), 'a'), by * cases]"),
        room: 6,
        number: 4,
        out: b"rule 0",
        notes: b"write failed\n",
        ..NONE
    },
    Case {
        rules: Text::Whole(b"[weight imul 61]"),
        number: 5,
        notes: b"rules: byte 13: bad weight\n",
        ..NONE
    },
];

#[test]
fn a_check_ends_without_lines(rt: HostRuntime) {
    all_end(&rt, rt.alloc(), &ENDED);
    all_end_unheard(&rt, rt.alloc(), &ENDED);
}
