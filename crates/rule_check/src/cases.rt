//! The trial of all cases: both sides of a rule are computed for all values of its variables.

ghost use Rattle.std.specs.Prelude.{◌≡◌, ◌≤◌, ◌<◌, ◌^◌, true, length, sum, IfOk};
ghost use Rattle.std.specs.Option.{option_map};
ghost use Rattle.rule_term.specs.Typings.{is_typing};
ghost use Rattle.rule_term.specs.Holds.{are_words};
ghost use Rattle.rule_check.specs.Cases.{differs_at, first_difference, tuple, trial_of};
ghost use Rattle.circuit_laws.specs.Variables.{var_bits};

use crate::meets::meets;
use crate::values::Values;
use arrayvec::ArrayVec;
use bit_circuit::bits_of_vars;
use nir_host::OutOfMemory;
use rule_term::{Rule, Side, Typing, eval_term};
use std::alloc::Global;

/// The most bits of all variables together that are tried.
const MOST_BITS: u32 = 16;

/// What the trial of all cases answers.
#[derive(Debug, Drop)]
pub enum Trial {
    /// The sides are equal for all values that meet the conditions.
    Equal,
    /// These are the first values that meet the conditions and at which the sides differ.
    Differ(Values),
    /// The variables have more than 16 bits.
    TooMany,
}

/// Computes both sides of the rule at the typing for all values of its variables that meet the conditions, in
/// lexicographic order. Takes memory for the values that it answers, and for nothing else.
pub fn try_cases(alloc: Global, rule: &Rule, typing: &Typing) -> Result<Trial, OutOfMemory>
    requires typing { is_typing rule.now typing.now.widths ≡ true }
    ensures { IfOk result (λ trial. trial ≡ trial_of rule.now typing.now.widths) }
{
    let bits = bits_of_vars(rule, typing);
    if total(bits.as_slice()) > MOST_BITS {
        return Ok(Trial::TooMany);
    }
    match first_difference(rule, typing, bits.as_slice()) {
        Some(values) => {
            let values = Values::from_slice(alloc, values.as_slice())?;
            Ok(Trial::Differ(values))
        }
        None => Ok(Trial::Equal),
    }
}

/// The first values at which the sides differ.
fn first_difference(rule: &Rule, typing: &Typing, bits: &[u32]) -> Option<ArrayVec<u64, 16>>
    requires typing { is_typing rule.now typing.now.widths ≡ true }
    requires bits { bits.now ≡ var_bits rule.now typing.now.widths }
    requires count { length bits.now ≤ 16 }
    requires few { sum bits.now ≤ 16 }
    ensures { option_map (λ values. values.items) result ≡ first_difference rule.now typing.now.widths }
{
    let free = total(bits);
    for number in 0..1u64 << free {
        let values = tuple_at(bits, free, number);
        if differs(rule, typing, values.as_slice()) {
            return Some(values);
        }
    }
    None
}

/// The values of a number: words of so many bits, of which the first counts slowest.
fn tuple_at(bits: &[u32], free: u32, number: u64) -> ArrayVec<u64, 16>
    requires count { length bits.now ≤ 16 }
    requires free { free ≡ sum bits.now }
    requires few { free ≤ 16 }
    ensures { result.items ≡ tuple bits.now number }
{
    let mut values = ArrayVec::new();
    let mut left = free;
    let mut rest = number;
    for width in bits {
        left -= *width;
        values.push(rest >> left);
        rest %= 1 << left;
    }
    values
}

/// Whether the values meet the conditions and the sides differ.
fn differs(rule: &Rule, typing: &Typing, values: &[u64]) -> bool
    requires typing { is_typing rule.now typing.now.widths ≡ true }
    requires values { length values.now ≡ rule.now.vars }
    requires words { are_words rule.now typing.now.widths values.now ≡ true }
    ensures { result ≡ differs_at rule.now typing.now.widths values.now }
{
    if !meets(rule, typing, values) {
        return false;
    }
    eval_term(rule, Side::Search, typing, values) != eval_term(rule, Side::Replace, typing, values)
}

/// The sum of the bits.
fn total(bits: &[u32]) -> u32
    requires { sum bits.now < 2 ^ 32 }
    ensures { result ≡ sum bits.now }
{
    bits.iter().sum()
}
