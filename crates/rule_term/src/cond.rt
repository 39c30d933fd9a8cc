//! The conditions that a rule can put on a variable, and when a word meets them.

ghost use Rattle.std.specs.Prelude.{◌≡◌, ◌<◌, ◌≤◌, ◌-◌, ◌^◌, ◌/◌, nat_eq, MatchOption};
ghost use Rattle.nir_ops.specs.declared.width.Width.TheVariants.{W1};
ghost use Rattle.std.specs.List.{list_any, range_with_len};
ghost use Rattle.nir_ops.specs.Width.{width_bits};
ghost use Rattle.rule_term.specs.Conditions.{cond_holds};

use nir_ops::Width;

/// What a variable of a rule asks of what it is matched with.
#[derive(Clone, Copy, Debug, PartialEq, Eq)]
pub enum Cond {
    /// The signed reading is 2^k, for a k from 0 to two below the bit size.
    PosPow2,
    /// The signed reading is -(2^k), for a k below the bit size.
    NegPow2,
    /// The unsigned reading is a multiple of 4.
    MultipleOf4,
    /// The upper half of the bits is 0, of more than one bit.
    UpperHalfZero,
    /// The lower half of the bits is 0, of more than one bit.
    LowerHalfZero,
    /// The value is not a const.
    NotConst,
    /// The value has exactly one use.
    UsedOnce,
}

/// Whether a word of the size meets the condition. The conditions on consts and on uses ask nothing of a word.
#[tactic(auto, unfolding(crate::specs::Conditions::cond_holds))]
pub fn cond_holds(cond: Cond, width: Width, value: u64) -> bool
    requires { value < 2 ^ width_bits width }
    ensures { result ≡ cond_holds cond (width_bits width) value }
{
    match cond {
        Cond::PosPow2 => is_power(width.bits() - 1, value),
        Cond::NegPow2 => is_negated_power(width, value),
        Cond::MultipleOf4 => value.is_multiple_of(4),
        Cond::UpperHalfZero => match half(width) {
            Some(half) => value < half,
            None => false,
        },
        Cond::LowerHalfZero => match half(width) {
            Some(half) => value % half == 0,
            None => false,
        },
        Cond::NotConst => true,
        Cond::UsedOnce => true,
    }
}

/// Whether the word is 2^k for a k below the count.
fn is_power(count: u32, value: u64) -> bool
    requires { count ≤ 64 }
    ensures { result ≡ list_any (λ k. nat_eq value (2 ^ k)) (range_with_len 0 count) }
{
    let place = value.trailing_zeros();
    if place < count {
        value == 1 << place
    } else {
        false
    }
}

/// Whether the word has the signed reading -(2^k) for a k below the bit size.
fn is_negated_power(width: Width, value: u64) -> bool
    ensures { result ≡ list_any (λ k. nat_eq value (2 ^ width_bits width - 2 ^ k)) (range_with_len 0 (width_bits width)) }
{
    let place = value.trailing_zeros();
    if place < width.bits() {
        value == greatest(width) - ((1 << place) - 1)
    } else {
        false
    }
}

/// The greatest word of the size.
fn greatest(width: Width) -> u64
    ensures { result ≡ 2 ^ width_bits width - 1 }
{
    match width {
        Width::W1 => 1,
        Width::W8 => 0xff,
        Width::W16 => 0xffff,
        Width::W32 => 0xffff_ffff,
        Width::W64 => 0xffff_ffff_ffff_ffff,
    }
}

/// 2 to half of the bit size; None at one bit.
fn half(width: Width) -> Option<u64>
    ensures { MatchOption result (width ≡ W1) (λ half. (1 < width_bits width) × (half ≡ 2 ^ (width_bits width / 2))) }
{
    match width {
        Width::W1 => None,
        Width::W8 => Some(0x10),
        Width::W16 => Some(0x100),
        Width::W32 => Some(0x1_0000),
        Width::W64 => Some(0x1_0000_0000),
    }
}
