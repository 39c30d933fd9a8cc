//! Texts of rules with all their typings, or why the sizes are of no use, worked out by hand.

use crate::one_rule::one_rule;
use rule_term::Typing;
use size_infer::{SizeFault, typings};
use std::alloc::{AllocError, Global};
use std::fmt::Write;
use std::test::Fail;

/// Texts of one rule, and their typings in order.
static LISTED: &[(&str, &str)] = &[
    // All nodes have one size, of more than one bit, or of any.
    (
        "[((iadd, a, 0), a)]",
        " 8 8 8 8; 16 16 16 16; 32 32 32 32; 64 64 64 64;",
    ),
    (
        "[((iand, a, a), a)]",
        " 1 1 1 1; 8 8 8 8; 16 16 16 16; 32 32 32 32; 64 64 64 64;",
    ),
    // One bit, by a truth value and by a result.
    ("[((iand, a, True), a)]", " 1 1 1 1;"),
    ("[((ieq, a, b), a)]", " 1 1 1 1;"),
    // The sources of a comparison have a size of their own, and the condition of a choice has one bit.
    (
        "[((inot, (ilt, a, b)), (ige, a, b))]",
        " 1 1 8 8 1 8 8; 1 1 16 16 1 16 16; 1 1 32 32 1 32 32; 1 1 64 64 1 64 64;",
    ),
    (
        "[((bcsel, a, b, b), b)]",
        " 1 1 1 1 1; 8 1 8 8 8; 16 1 16 16 16; 32 1 32 32 32; 64 1 64 64 64;",
    ),
    // The count of a shift has 32 bits.
    (
        "[((ishl, a, 0), a)]",
        " 8 8 32 8; 16 16 32 16; 32 32 32 32; 64 64 32 64;",
    ),
    // Conversions.
    (
        "[((u2u8, (u2u32, a)), (u2u8, a))]",
        " 8 32 8 8 8; 8 32 16 8 16; 8 32 32 8 32; 8 32 64 8 64;",
    ),
    (
        "[((b2i32, (inot, a)), (isub, 1, (b2i32, a)))]",
        " 32 1 1 32 32 32 1;",
    ),
    (
        "[((unpack_64_2x32_split_x, (pack_64_2x32_split, a, b)), a)]",
        " 32 64 32 32 32;",
    ),
    // Sizes that are written at an opcode and at a variable.
    ("[(('iadd@16', a, b), (iadd, b, a))]", " 16 16 16 16 16 16;"),
    ("[((iadd, 'a@32', 0), a)]", " 32 32 32 32;"),
    // Numbers that do not fit at each size.
    (
        "[((iadd, a, 256), a)]",
        " 16 16 16 16; 32 32 32 32; 64 64 64 64;",
    ),
    ("[((iadd, a, -32769), a)]", " 32 32 32 32; 64 64 64 64;"),
    ("[((iadd, a, -2147483649), a)]", " 64 64 64 64;"),
    (
        "[((ieq, 'a@8', b), (ult, 4294967296, 0))]",
        " 1 8 8 1 64 64;",
    ),
    // Two sizes that are chosen each by itself: the first in preorder counts slowest.
    (
        "[((iand, (ult, a, 65536), (ult, b, 65536)), False)]",
        " 1 1 32 32 1 32 32 1; 1 1 32 32 1 64 64 1; 1 1 64 64 1 32 32 1; 1 1 64 64 1 64 64 1;",
    ),
];

/// Texts of one rule, and why there is no list of its typings.
static REFUSED: &[(&str, &str)] = &[
    ("[((iadd, a, True), a)]", "contradiction"),
    ("[((iadd, 'a@8', 'b@16'), a)]", "contradiction"),
    ("[((iadd, 'a@8', 256), a)]", "contradiction"),
    ("[(('ult@8', a, b), a)]", "contradiction"),
    ("[((u2u8, 'a@16'), a)]", "contradiction"),
    // Nodes of the replacement that can have two sizes: the first one in preorder.
    ("[((ult, a, 0), (ieq, 1, 0))]", "ambiguous 1"),
    ("[((u2u32, a), (u2u32, 5))]", "ambiguous 1"),
    (
        "[((ult, a, b), (iand, (ieq, a, b), (ult, 3, 4)))]",
        "ambiguous 5",
    ),
    // More than 64: three times three times four times two, and four times four times five.
    (
        "[((iand, (iand, (ult, a, 256), (ult, b, 256)), (iand, (ult, c, 0), (ult, d, 65536))), False)]",
        "too many",
    ),
    (
        "[((iand, (iand, (ult, a, 0), (ult, b, 0)), (ieq, c, 0)), False)]",
        "too many",
    ),
    // Of several causes the first in this order is told: contradiction, ambiguous, too many.
    ("[((ult, 'a@8', 256), (ieq, 1, 0))]", "contradiction"),
    (
        "[((iand, (iand, (ult, a, 0), (ult, b, 0)), (ieq, c, 0)), (ieq, 1, 0))]",
        "ambiguous 1",
    ),
    (
        "[((iand, (iand, (ult, a, 0), (ult, b, 0)), (ieq, c, 0)), (iadd, 1, 0))]",
        "contradiction",
    ),
];

/// The typings of the rule of a text in words, or why there is no list of them.
fn told(alloc: Global, text: &str) -> Result<String, Fail> {
    let rule = one_rule(alloc, text)?;
    let mut out = String::new(alloc);
    match typings(alloc, &rule) {
        Ok(list) => show_typings(&mut out, list.as_slice())?,
        Err(fault) => show_fault(&mut out, fault)?,
    }
    Ok(out)
}

fn show_typings(out: &mut String, list: &[Typing]) -> Result<(), AllocError> {
    for typing in list {
        for width in typing.widths.as_slice() {
            write!(out, " {}", width.bits())?;
        }
        out.push(';')?;
    }
    Ok(())
}

fn show_fault(out: &mut String, fault: SizeFault) -> Result<(), AllocError> {
    match fault {
        SizeFault::Contradiction => out.push_str("contradiction"),
        SizeFault::Ambiguous(node) => write!(out, "ambiguous {node}"),
        SizeFault::TooMany => out.push_str("too many"),
        SizeFault::OutOfMemory => out.push_str("out of memory"),
    }
}

#[test]
fn all_typings_are_listed_in_order(rt: HostRuntime) -> Result<(), Fail> {
    for &(text, wanted) in LISTED {
        let said = told(rt.alloc(), text)?;
        assert_eq!(rt; said.as_str(), wanted, "{text}");
    }
    Ok(())
}

#[test]
fn sizes_of_no_use_are_refused(rt: HostRuntime) -> Result<(), Fail> {
    for &(text, wanted) in REFUSED {
        let said = told(rt.alloc(), text)?;
        assert_eq!(rt; said.as_str(), wanted, "{text}");
    }
    Ok(())
}

/// Four times four times four typings.
const SIXTY_FOUR: &str = "[((iand, (iand, (ult, a, 0), (ult, b, 0)), (ult, c, 0)), False)]";

static WHOLE: [u32; 4] = [8, 16, 32, 64];

/// The typings of that rule: three comparisons, of which the sources have a size of more than one bit.
fn sixty_four(alloc: Global) -> Result<String, AllocError> {
    let mut out = String::new(alloc);
    for a in WHOLE {
        for b in WHOLE {
            for c in WHOLE {
                write!(out, " 1 1 1 {a} {a} 1 {b} {b} 1 {c} {c} 1;")?;
            }
        }
    }
    Ok(out)
}

#[test]
fn sixty_four_typings_are_listed(rt: HostRuntime) -> Result<(), Fail> {
    let said = told(rt.alloc(), SIXTY_FOUR)?;
    let wanted = sixty_four(rt.alloc())?;
    assert_eq!(rt; said.as_str(), wanted.as_str());
    Ok(())
}
