//! Rule files under the words of `run`: options, limits, steps that are printed, and rules that are left out.

use super::rewriting::{REWRITTEN, step};
use super::texts::{ADD_ZERO, MOVED, RULE};
use super::{Case, REFUSED, Text, all_end, uncounted};
use crate::program::Ended;
use nir_ir::{Step, ValueId};

/// A rule under options.
const OPTIONAL: Case<'static> = Case {
    rules: Text::Whole(
        b"[(('iadd', 'a@8', 0), 'a', '!options->keep_add && (options->a || options->b)'), by * cases]",
    ),
    ..REWRITTEN
};

/// Nothing is done.
const KEPT: Case<'static> = Case {
    out: ADD_ZERO,
    journal: &[],
    ..OPTIONAL
};

static OPTIONS: [Case; 6] = [
    KEPT,
    Case {
        words: &[b"r", b"--option=a"],
        ..OPTIONAL
    },
    Case {
        words: &[b"r", b"--option=b", b"--option=b", b"--option=_1"],
        ..OPTIONAL
    },
    Case {
        words: &[b"r", b"--option=a", b"--option=keep_add"],
        ..KEPT
    },
    Case {
        words: &[b"r", b"--option=keep"],
        ..KEPT
    },
    // a rule without options
    Case {
        words: &[b"r", b"--option=keep_add"],
        ..REWRITTEN
    },
];

#[test]
fn a_rule_is_used_where_its_options_hold(rt: HostRuntime) {
    all_end(&rt, rt.alloc(), &OPTIONS);
}

/// A rule whose sides differ, and one that is accepted.
const BOTH: &[u8] =
    b"[(('isub', 'a@8', 'b'), ('isub', b, a)), by * cases, (('iadd', 'a@8', 0), 'a'), by * cases]";

/// The shader with a move, and the step to it.
const REMARKED: &[u8] = br"shader
inputs [w8x1]
outputs [w8x1]
buffers 0
{
  block b0 {
    %0 = input w8x1 @0
    %1 = const w8x1 (0)
    %2 = mov w8x1 %0
    output @0, %2
  }
}
# rule 1 variant 0 value 2
";

static SKIPPED: [Case; 4] = [
    Case {
        words: &[b"r", b"--skip"],
        rules: Text::Whole(BOTH),
        notes: b"skipped rule 0 typing 0: cases differ at 0, 1\n",
        journal: &[step!(2, 1, 0)],
        ..REWRITTEN
    },
    Case {
        words: &[b"r", b"--remarks", b"--limit=5", b"--skip"],
        rules: Text::Whole(BOTH),
        out: REMARKED,
        notes: b"skipped rule 0 typing 0: cases differ at 0, 1\n",
        limit: 5,
        journal: &[step!(2, 1, 0)],
        ..REWRITTEN
    },
    Case {
        words: &[b"r", b"--skip", b"--limit=5", b"--remarks"],
        rules: Text::Whole(BOTH),
        out: REMARKED,
        notes: b"skipped rule 0 typing 0: cases differ at 0, 1\n",
        limit: 5,
        journal: &[step!(2, 1, 0)],
        ..REWRITTEN
    },
    // the shader is refused behind the rules
    Case {
        words: &[b"r", b"--skip"],
        rules: Text::Whole(BOTH),
        shader_fail: &[0],
        number: 3,
        notes: b"skipped rule 0 typing 0: cases differ at 0, 1\nread failed: shader\n",
        ..REFUSED
    },
];

#[test]
fn rules_that_are_not_accepted_are_left_out(rt: HostRuntime) {
    all_end(&rt, rt.alloc(), &SKIPPED);
}

static LIMITS: [Case; 5] = [
    Case {
        words: &[b"r", b"--limit=0"],
        rules: Text::Whole(RULE),
        notes: b"stopped at 0 rewrites\n",
        limit: 0,
        stopped: true,
        ..KEPT
    },
    Case {
        words: &[b"r", b"--limit=1"],
        limit: 1,
        ..REWRITTEN
    },
    Case {
        words: &[b"r", b"--limit=1000000"],
        limit: 1_000_000,
        ..REWRITTEN
    },
    // a weight in the file counts
    Case {
        rules: Text::Whole(b"[weight iadd 60, (('iadd', 'a@8', 0), 'a'), by * cases]"),
        out: MOVED,
        limit: 4156,
        ..REWRITTEN
    },
    Case {
        rules: Text::Whole(b"[(('iadd', 'a@8', 0), 'a'), by * cases, weight iadd 0]"),
        out: MOVED,
        limit: 4096,
        ..REWRITTEN
    },
];

#[test]
fn a_limit_stops_a_run(rt: HostRuntime) {
    all_end(&rt, rt.alloc(), &LIMITS);
}

/// A sum of two inputs.
const SUM: &[u8] = br"shader
inputs [w8x1, w8x1]
outputs [w8x1]
buffers 0
{
  block b0 {
    %0 = input w8x1 @0
    %1 = input w8x1 @1
    %2 = iadd w8x1 %0, %1
    output @0, %2
  }
}
";

/// The operands the other way round.
const TURNED: &[u8] = br"shader
inputs [w8x1, w8x1]
outputs [w8x1]
buffers 0
{
  block b0 {
    %0 = input w8x1 @0
    %1 = input w8x1 @1
    %2 = iadd w8x1 %1, %0
    output @0, %2
  }
}
";

/// A rule that undoes itself.
const ENDLESS: Case<'static> = Case {
    rules: Text::Whole(b"[(('iadd', 'a@8', b), ('iadd', b, a)), by * cases]"),
    shader: Text::Whole(SUM),
    ..REWRITTEN
};

#[test]
fn a_rule_that_undoes_itself_is_stopped(rt: HostRuntime) {
    let left = uncounted(rt.alloc(), &ENDLESS).expect(&rt, "memory");
    assert_eq!(&rt; left.ended.number(), 0);
    assert_eq!(&rt; left.sinks.out.taken(), TURNED);
    let line: &[u8] = b"stopped at 4097 rewrites\n";
    assert_eq!(&rt; left.sinks.notes.taken(), line);
    match &left.ended {
        Ended::Run(report) => {
            assert_eq!(&rt; [report.rewrites, report.limit], [4097, 4097]);
            assert_eq!(&rt; report.stopped, true);
        }
        Ended::Check(_) | Ended::Eval(_) => assert_eq!(&rt; true, false),
    }
}

/// Rules that are not accepted.
const NOT_ACCEPTED: Case<'static> = Case {
    number: 6,
    ..REFUSED
};

static CAUSES: [Case; 8] = [
    Case {
        rules: Text::Whole(b"[(('iadd', 'a@8', 0), ('iadd', a, ('u2u8', 0))), by * cases]"),
        notes: b"rules: rule 0: node 3 has no size\n",
        ..NOT_ACCEPTED
    },
    Case {
        rules: Text::Whole(b"[(('iadd', 'a@8', 'b@16'), a), by * cases]"),
        notes: b"rules: rule 0: no sizes\n",
        ..NOT_ACCEPTED
    },
    Case {
        rules: Text::Whole(
            b"[(('bcsel', 'c@1', 'a@8', 'b@8'), ('bcsel', ('inot', c), b, a)), by * cases]",
        ),
        notes: b"rules: rule 0 typing 0: too many cases\n",
        ..NOT_ACCEPTED
    },
    Case {
        rules: Text::Whole(b"[(('udiv', a, 1), a)]"),
        notes: b"rules: rule 0 typing 0: no evidence\n",
        ..NOT_ACCEPTED
    },
    // two typings, of which one has no evidence, or other sides
    Case {
        rules: Text::Whole(b"[(('iand', 'a@8', ('u2u8', 65536)), 0), by 1 cases]"),
        notes: b"rules: rule 0 typing 0: no evidence\n",
        ..NOT_ACCEPTED
    },
    Case {
        rules: Text::Whole(b"[(('iand', 'a@8', ('u2u8', 65536)), 0), by 0 cases, by 2 cases]"),
        notes: b"rules: rule 0 typing 1: no evidence\n",
        ..NOT_ACCEPTED
    },
    Case {
        rules: Text::Whole(
            b"[(('iand', 'a@8', ('u2u8', ('bit_count', -65536))), ('iand', a, 16)), by * cases]",
        ),
        notes: b"rules: rule 0 typing 1: cases differ at 32\n",
        ..NOT_ACCEPTED
    },
    Case {
        rules: Text::Whole(b"[(('udiv', a, 1), a), by * derive [(57, [])]]"),
        notes: b"rules: rule 0 typing 0: derivation step 0: no law\n",
        ..NOT_ACCEPTED
    },
];

#[test]
fn the_cause_of_a_refusal_is_told(rt: HostRuntime) {
    all_end(&rt, rt.alloc(), &CAUSES);
}
