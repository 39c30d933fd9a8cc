//! Rows of the table, and names to opcodes and back.

use bitflags::Flags;
use nir_ops::{
    Base, Op, OpInput, OpType, Props, Width, allowed, info, name, names_are_distinct, op_by_bytes,
    op_by_name,
};

/// Names, and the opcodes that they lead to.
static NAMES: &[(&str, Option<Op>)] = &[
    ("iadd", Some(Op::Iadd)),
    ("pack_64_2x32_split", Some(Op::Pack64_2x32Split)),
    ("bany_inequal4", Some(Op::BanyInequal4)),
    ("iad", None),
    ("iaddd", None),
    ("", None),
];

/// Opcodes, bit sizes, and whether they are allowed.
static ALLOWED: &[(Op, Width, bool)] = &[
    (Op::Iadd, Width::W1, false),
    (Op::Iadd, Width::W8, true),
    (Op::Ieq, Width::W1, true),
    (Op::Bfm, Width::W1, true),
];

#[test]
fn names_lead_to_opcodes(rt: HostRuntime) {
    for &(text, op) in NAMES {
        assert!(rt; op_by_name(text) == op, "at {text}");
        assert!(rt; op_by_bytes(text.as_bytes()) == op, "at {text}");
        if let Some(op) = op {
            assert!(rt; name(op) == text, "at {text}");
        }
    }
    names_are_distinct();
}

#[test]
fn rows_are_the_table(rt: HostRuntime) {
    let row = info(Op::Bcsel);
    assert!(rt; row.out_count == 0);
    assert!(rt;
        row.out
            == OpType {
                base: Base::Uint,
                size: None
            }
    );
    let truth = OpType {
        base: Base::Bool,
        size: Some(Width::W1),
    };
    assert!(rt; row.inputs.len() == 3);
    assert!(rt;
        row.inputs.get(0)
            == Some(&OpInput {
                count: 0,
                kind: truth
            })
    );
    assert!(rt; row.inputs.get(3).is_none());
    assert!(rt; !info(Op::Isub).props.contains(Props::COMMUTATIVE));
    assert!(rt; info(Op::Imul).props.contains(Props::ASSOCIATIVE));
    for &(op, width, answer) in ALLOWED {
        assert!(rt; allowed(op, width) == answer);
    }
}
