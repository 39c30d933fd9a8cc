//! Formulas over options, and texts that are none.

use crate::one_rule::one_rule;
use crate::rule_limits::{push_times, rule_count};
use crate::shown_rules::show_when;
use rule_read::RuleFault::{self, BadOption};
use std::alloc::{AllocError, Global};
use std::test::Fail;

/// Formulas, and what they say.
static READ: &[(&str, &str)] = &[
    // Each operator, with spaces and without.
    ("options->lower_udiv", " lower_udiv"),
    ("options->_9", " _9"),
    ("!options->a", " not a"),
    ("options->a&&options->b", " both ( a b )"),
    ("options->a||options->b", " either ( a b )"),
    ("(options->a)", " a"),
    ("  options->a   &&   options->b  ", " both ( a b )"),
    (" ! ( options->a || options->b ) ", " not either ( a b )"),
    ("!!options->a", " not not a"),
    // `!` binds strongest and `||` weakest.
    ("!options->a && options->b", " both ( not a b )"),
    ("options->a || !options->b", " either ( a not b )"),
    ("!(options->a && options->b)", " not both ( a b )"),
    (
        "options->a || options->b && options->c",
        " either ( a both ( b c ) )",
    ),
    (
        "options->a && options->b || options->c",
        " either ( both ( a b ) c )",
    ),
    (
        "options->a && options->b || options->c && options->d",
        " either ( both ( a b ) both ( c d ) )",
    ),
    (
        "(options->a || options->b) && options->c",
        " both ( either ( a b ) c )",
    ),
    (
        "options->a && (options->b || options->c)",
        " both ( a either ( b c ) )",
    ),
    // Equal operators group to the left.
    (
        "options->a && options->b && options->c",
        " both ( both ( a b ) c )",
    ),
    (
        "options->a || options->b || options->c",
        " either ( either ( a b ) c )",
    ),
    (
        "options->a && (options->b && options->c)",
        " both ( a both ( b c ) )",
    ),
    (
        "options->a || options->b && options->c || options->d",
        " either ( either ( a both ( b c ) ) d )",
    ),
    // Names that look like something else.
    (
        "options->options && options->True",
        " both ( options True )",
    ),
    ("((!((options->a)) && options->a))", " both ( not a a )"),
];

/// Texts that are no formulas. None of them is excluded.
static UNREAD: &[&str] = &[
    "",
    " ",
    "a",
    "True",
    "1",
    "lower_udiv",
    "options",
    "options->",
    "options->9",
    "options-> a",
    "options ->a",
    "options - > a",
    "options.a",
    "option->a",
    "Options->a",
    "xoptions->a",
    "options->a-b",
    "options->a@8",
    "options->a->b",
    "options->aoptions->b",
    "options->a options->b",
    "options->a, options->b",
    "options->a == options->b",
    "!",
    "options->a!",
    "options->a !options->b",
    "options->a & options->b",
    "options->a & & options->b",
    "options->a | options->b",
    "options->a | | options->b",
    "options->a &&& options->b",
    "&& options->a",
    "options->a ||",
    "options->a && || options->b",
    "options->a && && options->b",
    "()",
    "(options->a",
    "options->a)",
    ")options->a(",
    "(options->a) (options->b)",
    "(options->a)options->b",
    "options->a(options->b)",
    "not options->a",
    "~options->a",
    "options->a@int",
    "!a",
    "# options->a",
];

/// A rule with this third part, the quote of which stands at byte 16.
fn with_options(alloc: Global, formula: &str) -> Result<String, AllocError> {
    let mut text = String::from_str(alloc, "[((ineg, a), a, '")?;
    text.push_str(formula)?;
    text.push_str("')]")?;
    Ok(text)
}

/// What a formula says, in a form of its own.
fn told(alloc: Global, formula: &str) -> Result<String, Fail> {
    let text = with_options(alloc, formula)?;
    let rule = one_rule(alloc, text.as_str())?;
    let mut out = String::new(alloc);
    show_when(&mut out, &rule.when)?;
    Ok(out)
}

#[test]
fn formulas_are_read(rt: HostRuntime) -> Result<(), Fail> {
    for &(formula, wanted) in READ {
        let said = told(rt.alloc(), formula)?;
        assert_eq!(rt; said.as_str(), wanted, "{formula}");
    }
    Ok(())
}

#[test]
fn other_texts_are_no_formulas(rt: HostRuntime) -> Result<(), Fail> {
    for &formula in UNREAD {
        let text = with_options(rt.alloc(), formula)?;
        assert_eq!(rt;
            rule_count(rt.alloc(), text.as_str()),
            Err(BadOption(16)),
            "{formula}"
        );
    }
    Ok(())
}

/// A front that stands many times before an option, how often, the name of the option, what stands as often behind it,
/// and how many rules there are, or the fault: a formula has at most 256 bytes.
static LONG: &[(&str, u32, &str, &str, Result<usize, RuleFault>)] = &[
    ("", 247, "options->", "x", Ok(1)),
    ("", 248, "options->", "x", Err(BadOption(16))),
    (" ", 246, "options->a", "", Ok(1)),
    ("", 247, "options->a", " ", Err(BadOption(16))),
    ("(", 123, "options->a", ")", Ok(1)),
    ("(", 124, "options->a", ")", Err(BadOption(16))),
    ("!", 246, "options->a", "", Ok(1)),
    ("!", 247, "options->a", "", Err(BadOption(16))),
];

/// The middle between so many fronts and as many backs.
fn between(
    alloc: Global,
    front: &str,
    times: u32,
    middle: &str,
    back: &str,
) -> Result<String, AllocError> {
    let mut text = String::new(alloc);
    push_times(&mut text, front, times)?;
    text.push_str(middle)?;
    push_times(&mut text, back, times)?;
    Ok(text)
}

#[test]
fn formulas_are_limited(rt: HostRuntime) -> Result<(), Fail> {
    for &(front, times, middle, back, wanted) in LONG {
        let formula = between(rt.alloc(), front, times, middle, back)?;
        let text = with_options(rt.alloc(), formula.as_str())?;
        let told = rule_count(rt.alloc(), text.as_str());
        assert_eq!(rt; told, wanted, "{times} of {front} or {back}");
    }
    Ok(())
}
