//! The table of laws, in the order of their numbers.

ghost use Rattle.std.specs.Prelude.{◌≡◌, map};
ghost use Rattle.law_derive.specs.LawTable.{laws};
ghost use Rattle.law_derive.specs.Views.{law_says};

use crate::law::{Law, LawNode};
use nir_ops::Op;
use rule_term::Cond;

const ADD: LawNode = LawNode::App { op: Op::Iadd };

const SUB: LawNode = LawNode::App { op: Op::Isub };

const MUL: LawNode = LawNode::App { op: Op::Imul };

const NEG: LawNode = LawNode::App { op: Op::Ineg };

const DIV: LawNode = LawNode::App { op: Op::Idiv };

const REM: LawNode = LawNode::App { op: Op::Irem };

const UDIV: LawNode = LawNode::App { op: Op::Udiv };

const UMOD: LawNode = LawNode::App { op: Op::Umod };

const SHL: LawNode = LawNode::App { op: Op::Ishl };

const SHR: LawNode = LawNode::App { op: Op::Ushr };

const NOT: LawNode = LawNode::App { op: Op::Inot };

const AND: LawNode = LawNode::App { op: Op::Iand };

const OR: LawNode = LawNode::App { op: Op::Ior };

const XOR: LawNode = LawNode::App { op: Op::Ixor };

const LT: LawNode = LawNode::App { op: Op::Ilt };

const GE: LawNode = LawNode::App { op: Op::Ige };

const ULT: LawNode = LawNode::App { op: Op::Ult };

const UGE: LawNode = LawNode::App { op: Op::Uge };

const EQ: LawNode = LawNode::App { op: Op::Ieq };

const NE: LawNode = LawNode::App { op: Op::Ine };

const SEL: LawNode = LawNode::App { op: Op::Bcsel };

const MIN: LawNode = LawNode::App { op: Op::Imin };

const MAX: LawNode = LawNode::App { op: Op::Imax };

const UMIN: LawNode = LawNode::App { op: Op::Umin };

const UMAX: LawNode = LawNode::App { op: Op::Umax };

const LSB: LawNode = LawNode::App { op: Op::FindLsb };

const X: LawNode = LawNode::Letter { letter: b'x' };

const Y: LawNode = LawNode::Letter { letter: b'y' };

const Z: LawNode = LawNode::Letter { letter: b'z' };

const B: LawNode = LawNode::Letter { letter: b'b' };

const C: LawNode = LawNode::Letter { letter: b'c' };

const ZERO: LawNode = LawNode::Lit {
    value: 0,
    boolean: false,
};

const ONE: LawNode = LawNode::Lit {
    value: 1,
    boolean: false,
};

const ONES: LawNode = LawNode::Lit {
    value: -1,
    boolean: false,
};

const YES: LawNode = LawNode::Lit {
    value: 1,
    boolean: true,
};

const NO: LawNode = LawNode::Lit {
    value: 0,
    boolean: true,
};

/// A law from 8 bits on.
macro_rules! wide {
    ($left:expr, $right:expr) => {
        Law {
            left: &$left,
            right: &$right,
            bit: false,
            cond: None,
        }
    };
}

/// A law of every size.
macro_rules! every {
    ($left:expr, $right:expr) => {
        Law {
            left: &$left,
            right: &$right,
            bit: true,
            cond: None,
        }
    };
}

/// A law from 8 bits on, where c meets the condition.
macro_rules! where_c {
    ($cond:expr, $left:expr, $right:expr) => {
        Law {
            left: &$left,
            right: &$right,
            bit: false,
            cond: Some($cond),
        }
    };
}

const LAWS: [Law; 56] = [
    wide!([ADD, X, Y], [ADD, Y, X]),
    wide!([ADD, ADD, X, Y, Z], [ADD, X, ADD, Y, Z]),
    wide!([ADD, X, ZERO], [X]),
    wide!([ADD, X, NEG, X], [ZERO]),
    wide!([SUB, X, Y], [ADD, X, NEG, Y]),
    wide!([NEG, NEG, X], [X]),
    wide!([NEG, X], [ADD, NOT, X, ONE]),
    wide!([DIV, X, ONE], [X]),
    wide!([MUL, X, Y], [MUL, Y, X]),
    wide!([MUL, MUL, X, Y, Z], [MUL, X, MUL, Y, Z]),
    wide!([MUL, X, ZERO], [ZERO]),
    wide!([MUL, X, ONE], [X]),
    wide!([MUL, X, ADD, Y, Z], [ADD, MUL, X, Y, MUL, X, Z]),
    wide!([MUL, X, ONES], [NEG, X]),
    where_c!(Cond::PosPow2, [MUL, X, C], [SHL, X, LSB, C]),
    where_c!(Cond::NegPow2, [MUL, X, C], [NEG, SHL, X, LSB, C]),
    every!([AND, X, Y], [AND, Y, X]),
    every!([AND, AND, X, Y, Z], [AND, X, AND, Y, Z]),
    every!([AND, X, X], [X]),
    every!([AND, X, ZERO], [ZERO]),
    every!([AND, X, ONES], [X]),
    every!([OR, X, Y], [OR, Y, X]),
    every!([OR, OR, X, Y, Z], [OR, X, OR, Y, Z]),
    every!([OR, X, X], [X]),
    every!([OR, X, ZERO], [X]),
    every!([XOR, X, Y], [XOR, Y, X]),
    every!([XOR, XOR, X, Y, Z], [XOR, X, XOR, Y, Z]),
    every!([XOR, X, X], [ZERO]),
    every!([XOR, X, ZERO], [X]),
    every!([NOT, X], [XOR, X, ONES]),
    every!([NOT, AND, X, Y], [OR, NOT, X, NOT, Y]),
    every!([AND, X, OR, Y, Z], [OR, AND, X, Y, AND, X, Z]),
    every!([AND, X, NOT, X], [ZERO]),
    wide!([REM, X, ONE], [ZERO]),
    every!([EQ, X, X], [YES]),
    every!([EQ, X, Y], [EQ, Y, X]),
    every!([NE, X, Y], [NOT, EQ, X, Y]),
    wide!([GE, X, Y], [NOT, LT, X, Y]),
    wide!([UGE, X, Y], [NOT, ULT, X, Y]),
    wide!([LT, X, X], [NO]),
    wide!([ULT, X, X], [NO]),
    wide!([EQ, SUB, X, Y, ZERO], [EQ, X, Y]),
    wide!([ULT, X, ZERO], [NO]),
    wide!([ULT, X, ONE], [EQ, X, ZERO]),
    every!([SEL, YES, X, Y], [X]),
    every!([SEL, NO, X, Y], [Y]),
    every!([SEL, B, X, X], [X]),
    every!([SEL, NOT, B, X, Y], [SEL, B, Y, X]),
    wide!([MIN, X, Y], [SEL, LT, X, Y, X, Y]),
    wide!([MAX, X, Y], [SEL, LT, X, Y, Y, X]),
    wide!([UMIN, X, Y], [SEL, ULT, X, Y, X, Y]),
    wide!([UMAX, X, Y], [SEL, ULT, X, Y, Y, X]),
    where_c!(Cond::PosPow2, [UDIV, X, C], [SHR, X, LSB, C]),
    where_c!(Cond::PosPow2, [UMOD, X, C], [AND, X, ADD, C, ONES]),
    wide!([SHL, X, ZERO], [X]),
    wide!([SHR, X, ZERO], [X]),
];

/// The laws: that of number k stands at place k - 1.
pub fn laws() -> &'static [Law]
    ensures { map law_says result.now ≡ laws }
{
    &LAWS
}
