//! Texts of rules, and the search sides of their variants, worked out by hand.

use crate::one_rule::one_rule;
use crate::shown_rules::show_term;
use rule_term::Term;
use rule_variants::{variant_count, variants};
use std::alloc::{AllocError, Global};
use std::fmt::Write;
use std::test::Fail;

/// Texts of one rule, and the search sides of its variants in order.
static SIDES: &[(&str, &str)] = &[
    // No opcode commutes.
    ("[((isub, a, b), a)]", "1: Isub ( v0 v1 );"),
    // One that does, with what is asked of it and of its sources.
    (
        "[(('iadd@16(is_used_once)', '#a(is_pos_power_of_two)', 0), a)]",
        "2: Iadd@W16 once ( v0# PosPow2 0 ); Iadd@W16 once ( 0 v0# PosPow2 );",
    ),
    (
        "[((isub, (iadd, a, b), (ineg, a)), b)]",
        "2: Isub ( Iadd ( v0 v1 ) Ineg ( v0 ) ); Isub ( Iadd ( v1 v0 ) Ineg ( v0 ) );",
    ),
    // Two side by side, and one below another: the first in preorder counts fastest.
    (
        "[((isub, (iadd, a, b), (imul, a, c)), a)]",
        "4: Isub ( Iadd ( v0 v1 ) Imul ( v0 v2 ) ); Isub ( Iadd ( v1 v0 ) Imul ( v0 v2 ) ); \
            Isub ( Iadd ( v0 v1 ) Imul ( v2 v0 ) ); Isub ( Iadd ( v1 v0 ) Imul ( v2 v0 ) );",
    ),
    (
        "[((iadd, (imul, a, b), c), a)]",
        "4: Iadd ( Imul ( v0 v1 ) v2 ); Iadd ( v2 Imul ( v0 v1 ) ); \
            Iadd ( Imul ( v1 v0 ) v2 ); Iadd ( v2 Imul ( v1 v0 ) );",
    ),
    // Below an opcode that does not commute, and the sources of which stay in their order.
    (
        "[((bcsel, a, (iand, b, c), (isub, b, c)), b)]",
        "2: Bcsel ( v0 Iand ( v1 v2 ) Isub ( v1 v2 ) ); Bcsel ( v0 Iand ( v2 v1 ) Isub ( v1 v2 ) );",
    ),
];

/// How many variants the rule of a text has, and their search sides.
fn told(alloc: Global, text: &str) -> Result<String, Fail> {
    let rule = one_rule(alloc, text)?;
    let sides = variants(alloc, &rule)?;
    let mut out = String::new(alloc);
    show_sides(&mut out, variant_count(&rule), sides.as_slice())?;
    Ok(out)
}

fn show_sides(out: &mut String, count: u32, sides: &[Term]) -> Result<(), AllocError> {
    write!(out, "{count}:")?;
    for side in sides {
        show_term(out, side)?;
        out.push(';')?;
    }
    Ok(())
}

#[test]
fn variants_are_listed_in_order(rt: HostRuntime) -> Result<(), Fail> {
    for &(text, wanted) in SIDES {
        let said = told(rt.alloc(), text)?;
        assert_eq!(rt; said.as_str(), wanted, "{text}");
    }
    Ok(())
}

/// Nine opcodes that commute, each below the one before it.
const NINE: &str =
    "[((iadd, a, (iadd, b, (iadd, c, (iadd, d, (iadd, e, (iadd, f, (iadd, g, (iadd, h, (iadd, i, j))))))))), a)]";

/// The search side of that rule's variant of this number: the ninth opcode has no bit.
fn side_of_nine(alloc: Global, variant: u32) -> Result<String, AllocError> {
    let mut text = String::from_str(alloc, " Iadd ( v8 v9 )")?;
    let mut bit = 128;
    for var in [7, 6, 5, 4, 3, 2, 1, 0] {
        text = if variant & bit == 0 {
            format!(in alloc; " Iadd ( v{var}{text} )")?
        } else {
            format!(in alloc; " Iadd ({text} v{var} )")?
        };
        bit /= 2;
    }
    Ok(text)
}

/// The search sides of all its variants.
fn sides_of_nine(alloc: Global) -> Result<String, AllocError> {
    let mut out = String::from_str(alloc, "256:")?;
    for variant in 0..256 {
        let side = side_of_nine(alloc, variant)?;
        out.push_str(side.as_str())?;
        out.push(';')?;
    }
    Ok(out)
}

#[test]
fn the_ninth_opcode_is_not_swapped(rt: HostRuntime) -> Result<(), Fail> {
    let said = told(rt.alloc(), NINE)?;
    let wanted = sides_of_nine(rt.alloc())?;
    assert_eq!(rt; said.as_str(), wanted.as_str());
    Ok(())
}
