//! Formulas over options: options->NAME with `!`, `&&`, `||` and parentheses. `!` binds strongest and `||` weakest, and equal
//! operators group to the left.

ghost use Rattle.std.specs.Prelude.{◌≡◌, [], length, map, Some, Ok, Err, IfOk, IfErr};
ghost use Rattle.std.specs.Option.{option_map};
ghost use Rattle.grammar.specs.Reading.{ended, read_deep};
ghost use Rattle.rule_spelling.specs.Formula.{Has, Not, Both, Either, Operand, Whole, formula_of, value_of, formulas, productions, disjunction};
ghost use Rattle.formula_read.specs.declared.parse.Unread.TheVariants.{OutOfMemory as NoMemory};
ghost use Rattle.formula_read.specs.Formulas.{Gives, all_of, behind_mark, terminals, when_says};
ghost use Rattle.formula_read.specs.FormulaParts.{conjunction_to, disjunction_to, nested_to, not_to, operand_to, closed_to, with_and, with_or};

use crate::formula_text::{Sign, signs};
use nir_host::{Bytes, OutOfMemory};
use rule_term::When;
use std::alloc::{AllocFailed, Global};
use std::boxed::Box;

/// How many bytes a formula may have.
const MOST_BYTES: usize = 256;

/// The terminals that are left.
#[derive(Clone, Copy)]
pub struct Rest<'a, 'b> {
    pub signs: &'b [Sign<'a>],
}

/// What was read of a formula, and the terminals behind it.
#[derive(Drop)]
pub struct Front<'a, 'b> {
    pub when: When,
    pub rest: Rest<'a, 'b>,
}

/// Why reading stops.
#[derive(Clone, Copy)]
pub enum Unread {
    Malformed,
    OutOfMemory,
}

impl<T: Drop> From<AllocFailed<T>> for Unread {
    ghost from_gives = { λ _ e. e ≡ NoMemory };

    fn from(_failed: AllocFailed<T>) -> Unread {
        Unread::OutOfMemory
    }
}

impl From<OutOfMemory> for Unread {
    ghost from_gives = { λ _ e. e ≡ NoMemory };

    fn from(_no_memory: OutOfMemory) -> Unread {
        Unread::OutOfMemory
    }
}

fn negation(alloc: Global, inner: When) -> Result<When, Unread>
    ensures ok { IfOk result (λ when. when_says when ≡ Not (when_says inner)) }
    ensures err { IfErr result (λ unread. unread ≡ NoMemory) }
{
    Ok(When::Not {
        inner: Box::new(alloc, inner)?,
    })
}

fn both(alloc: Global, left: When, right: When) -> Result<When, Unread>
    ensures ok { IfOk result (λ when. when_says when ≡ Both (when_says left) (when_says right)) }
    ensures err { IfErr result (λ unread. unread ≡ NoMemory) }
{
    let left = Box::new(alloc, left)?;
    let right = Box::new(alloc, right)?;
    Ok(When::Both { left, right })
}

fn either(alloc: Global, left: When, right: When) -> Result<When, Unread>
    ensures ok { IfOk result (λ when. when_says when ≡ Either (when_says left) (when_says right)) }
    ensures err { IfErr result (λ unread. unread ≡ NoMemory) }
{
    let left = Box::new(alloc, left)?;
    let right = Box::new(alloc, right)?;
    Ok(When::Either { left, right })
}

fn has(alloc: Global, name: &[u8]) -> Result<When, Unread>
    ensures ok { IfOk result (λ when. when_says when ≡ Has name.now) }
    ensures err { IfErr result (λ unread. unread ≡ NoMemory) }
{
    Ok(When::Has {
        name: Bytes::from_slice(alloc, name)?,
    })
}

/// What stands behind `&&`, None where something else stands here.
fn behind_and<'a, 'b>(at: &Rest<'a, 'b>) -> Option<Rest<'a, 'b>>
    ensures { option_map (λ rest. terminals rest.signs.now) result ≡ behind_mark 38 (terminals at.now.signs.now) }
{
    match at.signs {
        [Sign::And, rest @ ..] => Some(Rest { signs: rest }),
        []
        | [
            Sign::Not | Sign::Open | Sign::Close | Sign::Or | Sign::Has { .. },
            ..
        ] => None,
    }
}

/// What stands behind `||`, None where something else stands here.
fn behind_or<'a, 'b>(at: &Rest<'a, 'b>) -> Option<Rest<'a, 'b>>
    ensures { option_map (λ rest. terminals rest.signs.now) result ≡ behind_mark 124 (terminals at.now.signs.now) }
{
    match at.signs {
        [Sign::Or, rest @ ..] => Some(Rest { signs: rest }),
        []
        | [
            Sign::Not | Sign::Open | Sign::Close | Sign::And | Sign::Has { .. },
            ..
        ] => None,
    }
}

/// The first terminal that is left and those behind it.
fn next<'a, 'b>(at: &Rest<'a, 'b>) -> Option<(Sign<'a>, Rest<'a, 'b>)>
    ensures { terminals at.now.signs.now ≡ all_of result }
{
    match at.signs {
        [] => None,
        [first, rest @ ..] => Some((*first, Rest { signs: rest })),
    }
}

/// An option before others.
fn named<'a, 'b>(alloc: Global, name: &[u8], rest: &Rest<'a, 'b>) -> Result<Front<'a, 'b>, Unread>
    ensures { Gives result (Ok (record { value = Has name.now; state = tt; rest = terminals rest.now.signs.now })) }
{
    let when = has(alloc, name)?;
    Ok(Front { when, rest: *rest })
}

/// An operand, within no more than so many others.
#[cycle(formulas)]
#[tactic(auto, using(crate::proofs::FormulaSteps::operand_steps))]
fn operand<'a, 'b>(alloc: Global, depth: usize, at: &Rest<'a, 'b>) -> Result<Front<'a, 'b>, Unread>
    ensures { Gives result (operand_to depth (terminals at.now.signs.now)) }
{
    let Some((sign, rest)) = next(at) else {
        return Err(Unread::Malformed);
    };
    match sign {
        Sign::Not => negated(alloc, depth, &rest),
        Sign::Open => in_parentheses(alloc, depth, &rest),
        Sign::Has { name } => named(alloc, name, &rest),
        Sign::Close | Sign::And | Sign::Or => Err(Unread::Malformed),
    }
}

/// The operand of a negation.
#[cycle(formulas)]
#[tactic(auto, unfolding(crate::specs::FormulaParts::not_to))]
fn negated<'a, 'b>(alloc: Global, depth: usize, at: &Rest<'a, 'b>) -> Result<Front<'a, 'b>, Unread>
    ensures { Gives result (not_to depth (terminals at.now.signs.now)) }
{
    let Front { when, rest } = nested_operand(alloc, depth, at)?;
    let when = negation(alloc, when)?;
    Ok(Front { when, rest })
}

/// A formula before a closing parenthesis.
#[cycle(formulas)]
#[tactic(auto, unfolding(crate::specs::FormulaParts::closed_to))]
fn in_parentheses<'a, 'b>(
    alloc: Global,
    depth: usize,
    at: &Rest<'a, 'b>,
) -> Result<Front<'a, 'b>, Unread>
    ensures { Gives result (closed_to depth (terminals at.now.signs.now)) }
{
    let Front { when, rest } = nested_formula(alloc, depth, at)?;
    match rest.signs {
        [Sign::Close, rest @ ..] => Ok(Front {
            when,
            rest: Rest { signs: rest },
        }),
        []
        | [
            Sign::Not | Sign::Open | Sign::And | Sign::Or | Sign::Has { .. },
            ..
        ] => { Err(Unread::Malformed) }
    }
}

#[cycle(formulas)]
#[tactic(auto, using(crate::proofs::FormulaSteps::nested_none, crate::proofs::FormulaSteps::nested_operand))]
fn nested_operand<'a, 'b>(
    alloc: Global,
    depth: usize,
    at: &Rest<'a, 'b>,
) -> Result<Front<'a, 'b>, Unread>
    ensures { Gives result (nested_to Operand depth (terminals at.now.signs.now)) }
{
    if depth == 0 {
        return Err(Unread::Malformed);
    }
    operand(alloc, depth - 1, at)
}

#[cycle(formulas)]
#[tactic(auto, using(crate::proofs::FormulaSteps::nested_none, crate::proofs::FormulaSteps::nested_formula))]
fn nested_formula<'a, 'b>(
    alloc: Global,
    depth: usize,
    at: &Rest<'a, 'b>,
) -> Result<Front<'a, 'b>, Unread>
    ensures { Gives result (nested_to Whole depth (terminals at.now.signs.now)) }
{
    if depth == 0 {
        return Err(Unread::Malformed);
    }
    disjunction(alloc, depth - 1, at)
}

/// Operands joined by `&&`.
#[cycle(formulas)]
#[tactic(auto, unfolding(crate::specs::FormulaParts::conjunction_to, crate::specs::FormulaParts::operand_to, crate::specs::FormulaParts::with_and))]
fn conjunction<'a, 'b>(
    alloc: Global,
    depth: usize,
    at: &Rest<'a, 'b>,
) -> Result<Front<'a, 'b>, Unread>
    ensures { Gives result (conjunction_to depth (terminals at.now.signs.now)) }
{
    let first = operand(alloc, depth, at)?;
    joined_by_and(alloc, depth, first)
}

/// A formula joined with the operands behind it, each behind `&&`.
#[cycle(formulas)]
fn joined_by_and<'a, 'b>(
    alloc: Global,
    depth: usize,
    first: Front<'a, 'b>,
) -> Result<Front<'a, 'b>, Unread>
    ensures { Gives result (with_and depth (length first.entry.rest.signs.now) (when_says first.entry.when) (terminals first.entry.rest.signs.now)) }
{
    let Front { when, rest } = first;
    let fuel = rest.signs.len();
    let mut left = when;
    let mut at = rest;
    'others: for _turn in 0..fuel {
        let Some(behind) = behind_and(&at) else {
            return Ok(Front {
                when: left,
                rest: at,
            });
        };
        let Front { when, rest } = operand(alloc, depth, &behind)?;
        left = both(alloc, left, when)?;
        at = rest;
    }
    Ok(Front {
        when: left,
        rest: at,
    })
}

/// A formula: operands joined by `&&`, and those joined by `||`.
#[cycle(formulas)]
#[tactic(auto, unfolding(crate::specs::FormulaParts::conjunction_to, crate::specs::FormulaParts::disjunction_to, crate::specs::FormulaParts::with_or))]
fn disjunction<'a, 'b>(
    alloc: Global,
    depth: usize,
    at: &Rest<'a, 'b>,
) -> Result<Front<'a, 'b>, Unread>
    ensures { Gives result (disjunction_to depth (terminals at.now.signs.now)) }
{
    let first = conjunction(alloc, depth, at)?;
    joined_by_or(alloc, depth, first)
}

/// A formula joined with those behind it, each behind `||`.
#[cycle(formulas)]
fn joined_by_or<'a, 'b>(
    alloc: Global,
    depth: usize,
    first: Front<'a, 'b>,
) -> Result<Front<'a, 'b>, Unread>
    ensures { Gives result (with_or depth (length first.entry.rest.signs.now) (when_says first.entry.when) (terminals first.entry.rest.signs.now)) }
{
    let Front { when, rest } = first;
    let fuel = rest.signs.len();
    let mut left = when;
    let mut at = rest;
    'others: for _turn in 0..fuel {
        let Some(behind) = behind_or(&at) else {
            return Ok(Front {
                when: left,
                rest: at,
            });
        };
        let Front { when, rest } = conjunction(alloc, depth, &behind)?;
        left = either(alloc, left, when)?;
        at = rest;
    }
    Ok(Front {
        when: left,
        rest: at,
    })
}

/// The formula that these terminals spell, None where they spell none.
#[tactic(auto, unfolding(crate::specs::FormulaParts::disjunction_to))]
fn whole(alloc: Global, signs: &[Sign<'_>]) -> Result<Option<When>, OutOfMemory>
    ensures { IfOk result (λ when. option_map when_says when ≡ value_of (read_deep formulas productions disjunction tt (terminals signs.now))) }
{
    match disjunction(alloc, signs.len() + 1, &Rest { signs }) {
        Ok(Front { when, rest }) => match next(&rest) {
            None => Ok(Some(when)),
            Some(_) => Ok(None),
        },
        Err(Unread::Malformed) => Ok(None),
        Err(Unread::OutOfMemory) => Err(OutOfMemory),
    }
}

/// The formula over options that a text of at most 256 bytes says, None where it says none. Spaces may stand at either end, and
/// between operators, parentheses and options.
/// # Errors
/// `OutOfMemory` says that there was no room for it.
#[tactic(auto, unfolding(rule_spelling::specs::Formula::formula_of))]
pub fn formula(alloc: Global, text: &[u8]) -> Result<Option<When>, OutOfMemory>
    ensures { IfOk result (λ when. option_map when_says when ≡ formula_of text.now) }
{
    if text.len() > MOST_BYTES {
        return Ok(None);
    }
    let Some(signs) = signs(alloc, text)? else {
        return Ok(None);
    };
    whole(alloc, signs.as_slice())
}
