//! Texts of rule files at each limit, and just past it.

use rule_read::RuleFault::{self, TooLarge};
use rule_read::read_rules;
use std::alloc::{AllocError, Global};
use std::fmt::Write;
use std::test::Fail;

/// How many rules a text has, or its first fault.
pub(crate) fn rule_count(alloc: Global, text: &str) -> Result<usize, RuleFault> {
    let file = read_rules(alloc, text.as_bytes())?;
    Ok(file.entries.len())
}

/// Puts the part so many times at the end of the text.
pub(crate) fn push_times(text: &mut String, part: &str, times: u32) -> Result<(), AllocError> {
    for _at in 0..times {
        text.push_str(part)?;
    }
    Ok(())
}

/// Puts `a` below so many opcodes at the end of the text. Each of them has this front.
fn push_below(text: &mut String, front: &str, opcodes: u32) -> Result<(), AllocError> {
    push_times(text, front, opcodes)?;
    text.push('a')?;
    push_times(text, ")", opcodes)
}

/// Numbers of opcodes of the search side and of the replacement, and how many rules there are, or the fault.
static SIDES: &[(u32, u32, Result<usize, RuleFault>)] = &[
    (16, 16, Ok(1)),
    (17, 1, Err(TooLarge(115))),
    (1, 17, Err(TooLarge(126))),
];

/// A rule with so many opcodes on its sides.
fn sides(alloc: Global, search: u32, replace: u32) -> Result<String, AllocError> {
    let mut text = String::from_str(alloc, "[(")?;
    push_below(&mut text, "(ineg, ", search)?;
    text.push_str(", ")?;
    push_below(&mut text, "(ineg, ", replace)?;
    text.push_str(")]")?;
    Ok(text)
}

#[test]
fn a_side_has_at_most_16_opcodes(rt: HostRuntime) -> Result<(), Fail> {
    for &(search, replace, wanted) in SIDES {
        let text = sides(rt.alloc(), search, replace)?;
        let told = rule_count(rt.alloc(), text.as_str());
        assert_eq!(rt; told, wanted, "{search} and {replace}");
    }
    Ok(())
}

/// Numbers of opcodes of two bindings and of a calculation, and how many rules there are, or the fault.
static EXPRESSIONS: &[(u32, u32, u32, Result<usize, RuleFault>)] = &[
    (16, 16, 16, Ok(1)),
    (17, 0, 0, Err(TooLarge(155))),
    (16, 17, 0, Err(TooLarge(290))),
    (16, 16, 17, Err(TooLarge(433))),
];

/// A derivation with so many opcodes in its expressions.
fn expressions(alloc: Global, first: u32, second: u32, third: u32) -> Result<String, AllocError> {
    let mut text = String::from_str(alloc, "[((ineg, a), a), by * derive [(1, [], x = ")?;
    push_below(&mut text, "(ineg, ", first)?;
    text.push_str(", y = ")?;
    push_below(&mut text, "(ineg, ", second)?;
    text.push_str("), (calc, [], ")?;
    push_below(&mut text, "(ineg, ", third)?;
    text.push_str(")]]")?;
    Ok(text)
}

#[test]
fn an_expression_has_at_most_16_opcodes(rt: HostRuntime) -> Result<(), Fail> {
    for &(first, second, third, wanted) in EXPRESSIONS {
        let text = expressions(rt.alloc(), first, second, third)?;
        let told = rule_count(rt.alloc(), text.as_str());
        assert_eq!(rt; told, wanted, "{first}, {second}, {third}");
    }
    Ok(())
}

/// Numbers of variables of a rule that sums them, and how many rules there are, or the fault: 18 variables are summed by
/// 17 opcodes, the last of which stands before the 17th variable.
static VARIABLES: &[(u32, Result<usize, RuleFault>)] = &[
    (2, Ok(1)),
    (16, Ok(1)),
    (17, Err(TooLarge(185))),
    (18, Err(TooLarge(186))),
];

/// A rule that sums so many variables.
fn sum(alloc: Global, vars: u32) -> Result<String, AllocError> {
    let mut text = String::from_str(alloc, "[(")?;
    for var in 1..vars {
        write!(text, "(iadd, x{var}, ")?;
    }
    text.push_str("x0")?;
    push_times(&mut text, ")", vars.saturating_sub(1))?;
    text.push_str(", x0)]")?;
    Ok(text)
}

#[test]
fn a_rule_has_at_most_16_variables(rt: HostRuntime) -> Result<(), Fail> {
    for &(vars, wanted) in VARIABLES {
        let text = sum(rt.alloc(), vars)?;
        let told = rule_count(rt.alloc(), text.as_str());
        assert_eq!(rt; told, wanted, "{vars}");
    }
    Ok(())
}

/// A rule, how often it stands, the last rule, and how many rules there are, or the fault.
static FILES: &[(&str, u32, &str, Result<usize, RuleFault>)] = &[
    (ONE, 4_096, "", Ok(4_096)),
    (ONE, 4_097, "", Err(TooLarge(65_537))),
    // 65,536 variants, and one more.
    (EIGHT, 256, "", Ok(256)),
    (EIGHT, 256, ONE, Err(TooLarge(24_590))),
    // The ninth opcode that commutes counts for nothing.
    (NINE, 256, "", Ok(256)),
    (NINE, 256, ONE, Err(TooLarge(27_406))),
];

/// A rule of one variant.
const ONE: &str = "((ineg, a), a), ";

/// Rules of 256 variants.
const EIGHT: &str =
    "((iadd, a, (iadd, a, (iadd, a, (iadd, a, (iadd, a, (iadd, a, (iadd, a, (iadd, a, a)))))))), a), ";

const NINE: &str =
    "((iadd, a, (iadd, a, (iadd, a, (iadd, a, (iadd, a, (iadd, a, (iadd, a, (iadd, a, (iadd, a, a))))))))), a), ";

/// The list of so many rules and of the last.
fn list(alloc: Global, rule: &str, times: u32, last: &str) -> Result<String, AllocError> {
    let mut text = String::from_str(alloc, "[")?;
    push_times(&mut text, rule, times)?;
    text.push_str(last)?;
    text.push(']')?;
    Ok(text)
}

#[test]
fn files_are_limited(rt: HostRuntime) -> Result<(), Fail> {
    for &(rule, times, last, wanted) in FILES {
        let text = list(rt.alloc(), rule, times, last)?;
        let told = rule_count(rt.alloc(), text.as_str());
        assert_eq!(rt; told, wanted, "{times} of {rule}{last}");
    }
    Ok(())
}
