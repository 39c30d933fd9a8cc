//! Rules that were worked out by hand, in tables, and evaluated; and the conditions on words.

ghost use Rattle.std.specs.Prelude.{◌≡◌, ◌<◌, [], ◌∷◌, replicate, false, None, Some, IfOk};
ghost use Rattle.nir_ops.specs.declared.width.Width.TheVariants.{W8};
ghost use Rattle.rule_term.specs.Lists.{then};
ghost use Rattle.rule_term.specs.Terms.{Nil, VarThen, LitThen, AppThen, terms_of};
ghost use Rattle.rule_term.specs.Worked.{lowered, same, neutral};

use nir_host::{OutOfMemory, Seq};
use nir_ops::{Op, Width};
use rule_term::{Cond, Rule, Side, Table, Term, Typing, When, cond_holds, eval_term};
use std::alloc::Global;
use std::process::Abort;
use std::test::Fail;

/// A variable that asks for nothing but perhaps its size.
#[tactic(auto, using(crate::proofs::BuildLemmas::build_steps))]
pub(crate) fn var(var: u32, size: Option<Width>) -> Term
    ensures { terms_of (result ∷ []) ≡ VarThen var false size None Nil }
{
    Term::Var {
        var,
        constant: false,
        size,
        cond: None,
    }
}

#[tactic(auto, using(crate::proofs::BuildLemmas::build_steps))]
pub(crate) fn lit(value: i128) -> Term
    ensures { terms_of (result ∷ []) ≡ LitThen value false Nil }
{
    Term::Lit {
        value,
        boolean: false,
    }
}

/// An opcode over one term.
#[tactic(auto, using(crate::proofs::BuildLemmas::build_steps))]
pub(crate) fn over(alloc: Global, op: Op, source: Term) -> Result<Term, OutOfMemory>
    ensures { IfOk result (λ t. terms_of (t ∷ []) ≡ AppThen op None false (terms_of (source ∷ [])) Nil) }
{
    let mut args = Seq::new(alloc);
    args.push(source)?;
    Ok(Term::App {
        op,
        size: None,
        once: false,
        args,
    })
}

/// An opcode over two terms.
pub(crate) fn over_two(
    alloc: Global,
    op: Op,
    first: Term,
    second: Term,
) -> Result<Term, OutOfMemory>
    ensures { IfOk result (λ t. terms_of (t ∷ []) ≡ AppThen op None false (then (terms_of (first ∷ [])) (terms_of (second ∷ []))) Nil) }
{
    let mut args = Seq::new(alloc);
    args.push(first)?;
    args.push(second)?;
    Ok(Term::App {
        op,
        size: None,
        once: false,
        args,
    })
}

/// From `(isub (iadd a -1) b)` to `(iadd (isub a b) -1)`.
#[tactic(auto, using(rule_term::specs::Worked::lowered_formed), unfolding(rule_term::specs::Worked::lowered))]
fn lowered(alloc: Global) -> Result<Rule, OutOfMemory>
    ensures { IfOk result (λ rule. rule ≡ lowered) }
{
    let sum = over_two(alloc, Op::Iadd, var(0, None), lit(-1))?;
    let search = over_two(alloc, Op::Isub, sum, var(1, None))?;
    let difference = over_two(alloc, Op::Isub, var(0, None), var(1, None))?;
    let replace = over_two(alloc, Op::Iadd, difference, lit(-1))?;
    Ok(Rule {
        number: 0,
        search,
        replace,
        when: When::Always,
        vars: 2,
    })
}

/// From `(ineg a@8)` to `(ineg a)`, as rule 3.
#[tactic(auto, using(rule_term::specs::Worked::same_formed), unfolding(rule_term::specs::Worked::same))]
fn same(alloc: Global) -> Result<Rule, OutOfMemory>
    ensures { IfOk result (λ rule. rule ≡ same) }
{
    let search = over(alloc, Op::Ineg, var(0, Some(Width::W8)))?;
    let replace = over(alloc, Op::Ineg, var(0, None))?;
    Ok(Rule {
        number: 3,
        search,
        replace,
        when: When::Always,
        vars: 1,
    })
}

/// Ten nodes of 8 bits.
fn ten_bytes(alloc: Global) -> Result<Typing, OutOfMemory>
    ensures { IfOk result (λ typing. typing.widths ≡ replicate 10 W8) }
{
    let widths = Seq::from_slice(alloc, &[Width::W8; 10])?;
    Ok(Typing { widths })
}

#[test]
fn both_sides_have_their_values(rt: HostRuntime) -> Result<(), Fail> {
    let rule = lowered(rt.alloc())?;
    let typing = ten_bytes(rt.alloc())?;
    for &(a, b, value) in &[
        (3, 5, 253),
        (0, 0, 255),
        (1, 0, 0),
        (128, 255, 128),
        (255, 0, 254),
    ] {
        sides_at(&rt, &rule, &typing, a, b, value);
    }
    Ok(())
}

/// The value of both sides where a and b are these bytes.
#[tactic(auto, using(rule_term::specs::Worked::lowered_typing, rule_term::specs::Worked::lowered_words, rule_term::specs::Worked::lowered_vars))]
fn sides_at(rt: &impl Abort, rule: &Rule, typing: &Typing, a: u8, b: u8, value: u64)
    requires rule { rule.now ≡ lowered }
    requires typing { typing.now.widths ≡ replicate 10 W8 }
{
    let values = [u64::from(a), u64::from(b)];
    let search = eval_term(rule, Side::Search, typing, &values);
    let replace = eval_term(rule, Side::Replace, typing, &values);
    assert!(rt; search == value, "the search side at {a}, {b}: {search}");
    assert!(rt; replace == value, "the replacement at {a}, {b}: {replace}");
}

#[test]
#[tactic(auto, using(rule_term::specs::Worked::same_holds), unfolding(rule_term::specs::Worked::same))]
fn a_table_keeps_its_rules(rt: HostRuntime) -> Result<(), Fail> {
    let mut table = Table::new(rt.alloc());
    assert_eq!(rt; table.len(), 0);
    let rule = same(rt.alloc())?;
    table.add(rule)?;
    assert_eq!(rt; table.len(), 1);
    assert_eq!(rt; table.rule(0).number, 3);
    Ok(())
}

/// From `(iadd a@8 0)` to `a`, as rule 4.
#[tactic(auto, using(rule_term::specs::Worked::neutral_formed), unfolding(rule_term::specs::Worked::neutral))]
fn neutral(alloc: Global) -> Result<Rule, OutOfMemory>
    ensures { IfOk result (λ rule. rule ≡ neutral) }
{
    let search = over_two(alloc, Op::Iadd, var(0, Some(Width::W8)), lit(0))?;
    Ok(Rule {
        number: 4,
        search,
        replace: var(0, None),
        when: When::Always,
        vars: 1,
    })
}

#[test]
#[tactic(auto, using(rule_term::specs::Worked::neutral_holds), unfolding(rule_term::specs::Worked::neutral))]
fn a_table_keeps_its_weights(rt: HostRuntime) -> Result<(), Fail> {
    let mut table = Table::new(rt.alloc());
    let rule = neutral(rt.alloc())?;
    table.add(rule)?;
    for &(weight, descending) in &[(1, true), (0, false), (60, true)] {
        table.set_weight(Op::Iadd, weight);
        assert_eq!(rt; table.weight(Op::Iadd), weight);
        assert_eq!(rt;
            table.descending(),
            descending,
            "where iadd weighs {weight}"
        );
    }
    assert_eq!(rt; table.weight(Op::Isub), 1);
    assert_eq!(rt; table.weight(Op::Mov), 0);
    Ok(())
}

/// Conditions, bytes of which they hold, and bytes of which they do not.
static BYTES: &[(Cond, &[u8], &[u8])] = &[
    (Cond::PosPow2, &[1, 2, 64], &[0, 3, 128, 255]),
    (Cond::NegPow2, &[255, 254, 192, 128], &[0, 1, 64, 127, 253]),
    (Cond::MultipleOf4, &[0, 4, 252], &[1, 2, 255]),
    (Cond::UpperHalfZero, &[0, 15], &[16, 128]),
    (Cond::LowerHalfZero, &[0, 16, 240], &[1, 8, 248]),
    (Cond::NotConst, &[0, 255], &[]),
    (Cond::UsedOnce, &[0, 255], &[]),
];

#[test]
fn conditions_hold_of_words(rt: HostRuntime) {
    for &(cond, met, missed) in BYTES {
        for &word in met {
            assert!(rt;
                cond_holds(cond, Width::W8, u64::from(word)),
                "{cond:?} of {word}"
            );
        }
        for &word in missed {
            assert!(rt;
                !cond_holds(cond, Width::W8, u64::from(word)),
                "{cond:?} of {word}"
            );
        }
    }
}

/// Conditions, and whether they hold of 0 and of 1 at one bit.
static BITS: &[(Cond, bool, bool)] = &[
    (Cond::PosPow2, false, false),
    (Cond::NegPow2, false, true),
    (Cond::UpperHalfZero, false, false),
    (Cond::LowerHalfZero, false, false),
];

#[test]
fn one_bit_has_no_half_and_no_positive_power(rt: HostRuntime) {
    for &(cond, at_none, at_one) in BITS {
        assert_eq!(rt; cond_holds(cond, Width::W1, 0), at_none, "{cond:?} of 0");
        assert_eq!(rt; cond_holds(cond, Width::W1, 1), at_one, "{cond:?} of 1");
    }
}
