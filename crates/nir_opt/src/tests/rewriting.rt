//! What the optimiser prints, and which rules it refuses.

use super::texts::{
    ABOVE_127, ADD_ZERO, BELOW_ZERO, BOTH_MOVED, DIFFERENCES, DOT, FREE, LEAST, LEAST_MOVED, MOVED,
    NEGATED, NEGATED_MOVED, NO_DOT, OPCODES, PRODUCT, PRODUCT_ZERO, RULE, SIGNED_LEAST, SWAPPED,
    TWICE, TWICE_MOVED, WIDE, WRONG, ZERO_THEN_MOVED,
};
use super::{Case, PRINTED, REFUSED, Text, all_end};
use nir_ir::{Step, ValueId};

/// A step: the value, the rule, and the variant.
macro_rules! step {
    ($value:expr, $rule:expr, $variant:expr) => {
        Step::Rule {
            value: ValueId($value),
            rule: $rule,
            variant: $variant,
        }
    };
}

pub(super) use step;

/// A sum with 0 under the rule that moves it.
pub(super) const REWRITTEN: Case<'static> = Case {
    rules: Text::Whole(RULE),
    shader: Text::Whole(ADD_ZERO),
    out: MOVED,
    limit: 4097,
    journal: &[step!(2, 0, 0)],
    ..PRINTED
};

static PLAIN: [Case; 5] = [
    PRINTED,
    Case {
        shader: Text::Whole(BELOW_ZERO),
        out: ABOVE_127,
        limit: 4097,
        ..PRINTED
    },
    Case {
        shader: Text::Whole(OPCODES),
        out: OPCODES,
        limit: 4105,
        ..PRINTED
    },
    Case {
        shader: Text::Whole(ADD_ZERO),
        out: ADD_ZERO,
        limit: 4097,
        ..PRINTED
    },
    Case {
        rules: Text::Whole(b" [ # no rules\n]"),
        shader: Text::Whole(FREE),
        out: ADD_ZERO,
        limit: 4097,
        ..PRINTED
    },
];

#[test]
fn shaders_without_a_match_are_printed(rt: HostRuntime) {
    all_end(&rt, rt.alloc(), &PLAIN);
}

static UNTOUCHED: [Case; 4] = [
    Case {
        shader: Text::Whole(SIGNED_LEAST),
        out: SIGNED_LEAST,
        limit: 4097,
        ..PRINTED
    },
    // a rule at 8 bits over a sum at 32
    Case {
        rules: Text::Whole(RULE),
        shader: Text::Whole(WIDE),
        out: WIDE,
        limit: 4097,
        ..PRINTED
    },
    Case {
        shader: Text::Whole(WIDE),
        out: WIDE,
        limit: 4097,
        ..PRINTED
    },
    // all components in order are no swizzle
    Case {
        shader: Text::Whole(DOT),
        out: NO_DOT,
        ..PRINTED
    },
];

#[test]
fn shaders_of_every_size_are_printed(rt: HostRuntime) {
    all_end(&rt, rt.alloc(), &UNTOUCHED);
}

static USED: [Case; 6] = [
    REWRITTEN,
    Case {
        shader: Text::Whole(SWAPPED),
        journal: &[step!(2, 0, 1)],
        ..REWRITTEN
    },
    Case {
        rules: Text::Whole(b"[((iadd, \"a@8\", 0,), a,), by * cases,]"),
        shader: Text::Whole(TWICE),
        out: TWICE_MOVED,
        limit: 4098,
        journal: &[step!(2, 0, 0), step!(3, 0, 1)],
        ..REWRITTEN
    },
    Case {
        rules: Text::Whole(b"[(('iadd(is_used_once)', 'a@8', 0), 'a'), by * cases]"),
        ..REWRITTEN
    },
    Case {
        rules: Text::Whole(RULE),
        shader: Text::Whole(MOVED),
        out: MOVED,
        ..PRINTED
    },
    Case {
        rules: Text::Whole(RULE),
        ..PRINTED
    },
];

#[test]
fn a_rule_is_used_until_it_matches_nowhere(rt: HostRuntime) {
    all_end(&rt, rt.alloc(), &USED);
}

static TWO_RULES: [Case; 2] = [
    Case {
        rules: Text::Whole(
            b"[(('isub', 'a@8', 'a'), 0), by * cases, (('isub', 'a@8', 0), 'a'), by * cases]",
        ),
        shader: Text::Whole(DIFFERENCES),
        out: ZERO_THEN_MOVED,
        limit: 4098,
        journal: &[step!(2, 0, 0), step!(3, 1, 0)],
        ..PRINTED
    },
    Case {
        rules: Text::Whole(
            b"[(('isub', 'a@8', 0), 'a'), by * cases, (('isub', 'a@8', 'a'), 0), by * cases]",
        ),
        shader: Text::Whole(DIFFERENCES),
        out: BOTH_MOVED,
        limit: 4098,
        journal: &[step!(2, 0, 0), step!(3, 0, 0)],
        ..PRINTED
    },
];

#[test]
fn the_earlier_rule_is_taken(rt: HostRuntime) {
    all_end(&rt, rt.alloc(), &TWO_RULES);
}

static DEEP: [Case; 3] = [
    Case {
        rules: Text::Whole(b"[(('ineg', ('inot', ('isub', 'a@8', 1))), 'a'), by * cases]"),
        shader: Text::Whole(NEGATED),
        out: NEGATED_MOVED,
        limit: 4099,
        journal: &[step!(4, 0, 0)],
        ..PRINTED
    },
    Case {
        rules: Text::Whole(b"[(('imul', ('iadd', 'a@8', 'a'), -128), 0), by * cases]"),
        shader: Text::Whole(PRODUCT),
        out: PRODUCT_ZERO,
        limit: 4098,
        journal: &[step!(3, 0, 0)],
        ..PRINTED
    },
    Case {
        rules: Text::Whole(b"[(('umin', 'a@8', 255), 'a'), by * cases]"),
        shader: Text::Whole(LEAST),
        out: LEAST_MOVED,
        limit: 4097,
        journal: &[step!(2, 0, 1)],
        ..PRINTED
    },
];

#[test]
fn deep_sides_and_numbers_at_their_ends_are_used(rt: HostRuntime) {
    all_end(&rt, rt.alloc(), &DEEP);
}

/// A rule of a file of many.
const RULE_AGAIN: &[u8] = b"(('iadd', 'a@8', 0), 'a'), by * cases,";

static MANY_RULES: [Case; 1] = [Case {
    rules: Text::Repeated {
        front: b"[",
        piece: RULE_AGAIN,
        times: 100,
        end: b"]",
    },
    ..REWRITTEN
}];

#[test]
fn a_file_has_many_rules(rt: HostRuntime) {
    all_end(&rt, rt.alloc(), &MANY_RULES);
}

pub(super) static DIFFER: [Case; 5] = [
    // a late difference
    Case {
        rules: Text::Whole(
            b"[(('umin', ('iand', 'a@8', 'b'), 254), ('iand', 'a', 'b')), by * cases]",
        ),
        number: 6,
        notes: b"rules: rule 0 typing 0: cases differ at 255, 255\n",
        ..REFUSED
    },
    Case {
        rules: Text::Whole(
            b"[(('iadd', 'a@8', 0), 'a'), by * cases, (('ior', 'a@8', 254), 254), by * cases]",
        ),
        shader: Text::Whole(ADD_ZERO),
        number: 6,
        notes: b"rules: rule 1 typing 0: cases differ at 1\n",
        ..REFUSED
    },
    Case {
        rules: Text::Whole(WRONG),
        shader: Text::Whole(ADD_ZERO),
        number: 6,
        notes: b"rules: rule 0 typing 0: cases differ at 0, 1\n",
        ..REFUSED
    },
    Case {
        rules: Text::Whole(WRONG),
        shader: Text::Whole(WIDE),
        number: 6,
        notes: b"rules: rule 0 typing 0: cases differ at 0, 1\n",
        ..REFUSED
    },
    Case {
        rules: Text::Whole(b"[(('iadd', 'a@8', 1), 'a'), by * cases]"),
        shader: Text::Whole(ADD_ZERO),
        number: 6,
        notes: b"rules: rule 0 typing 0: cases differ at 0\n",
        ..REFUSED
    },
];

#[test]
fn a_rule_whose_sides_differ_is_refused(rt: HostRuntime) {
    all_end(&rt, rt.alloc(), &DIFFER);
}
