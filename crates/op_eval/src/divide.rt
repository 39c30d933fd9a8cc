//! Quotients and rests.

ghost use Rattle.std.specs.Prelude.{◌≡◌, ◌<◌, ◌^◌, ◌/◌, ◌%◌, pos, cond, ◌==◌, true};
ghost use Rattle.std.specs.Int.RustNames.{int_div};
ghost use Rattle.nir_ops.specs.Width.{width_bits};
ghost use Rattle.nir_ops.specs.Opcodes.{sizes_allow};
ghost use Rattle.nir_ops.specs.declared.row.Sizes.TheVariants.{Whole};
ghost use Rattle.op_eval.specs.Word.{residue, signed, truncated_rest, floored_rest};

use crate::arms::{signed, signed_words};
use nir_ops::Width;

/// The quotient rounded down, and 0 where y is 0.
#[tactic(auto, unfolding(crate::specs::Word::residue))]
pub fn udiv(width: Width, x: u64, y: u64) -> u64
    requires x { x < 2 ^ width_bits width }
    requires y { y < 2 ^ width_bits width }
    ensures { result ≡ residue (width_bits width) (cond (y == 0) (pos 0) (pos (x / y))) }
{
    if y == 0 {
        return 0;
    }
    x / y
}

/// The rest, and 0 where y is 0.
#[tactic(auto, unfolding(crate::specs::Word::residue))]
pub fn umod(width: Width, x: u64, y: u64) -> u64
    requires x { x < 2 ^ width_bits width }
    requires y { y < 2 ^ width_bits width }
    ensures { result ≡ residue (width_bits width) (cond (y == 0) (pos 0) (pos (x % y))) }
{
    if y == 0 {
        return 0;
    }
    x % y
}

/// The signed quotient rounded towards 0, and 0 where y is 0; the least number by -1 is the least number.
#[tactic(auto, unfolding(crate::specs::Word::residue, crate::specs::Word::signed))]
pub fn idiv(width: Width, x: u64, y: u64) -> u64
    requires whole { sizes_allow Whole width ≡ true }
    requires x { x < 2 ^ width_bits width }
    requires y { y < 2 ^ width_bits width }
    ensures { result ≡ residue (width_bits width) (cond (y == 0) (pos 0) (int_div (signed (width_bits width) x) (signed (width_bits width) y))) }
{
    if y == 0 {
        return 0;
    }
    signed!(width, (x, y), 0, x.wrapping_div(y))
}

/// The signed rest with the sign of x, and 0 where y is 0.
#[tactic(auto, using(crate::proofs::DivideLemmas::truncated_rest_is), unfolding(crate::specs::Word::residue, crate::specs::Word::signed))]
pub fn irem(width: Width, x: u64, y: u64) -> u64
    requires whole { sizes_allow Whole width ≡ true }
    requires x { x < 2 ^ width_bits width }
    requires y { y < 2 ^ width_bits width }
    ensures { result ≡ residue (width_bits width) (cond (y == 0) (pos 0) (truncated_rest (signed (width_bits width) x) (signed (width_bits width) y))) }
{
    if y == 0 {
        return 0;
    }
    signed!(width, (x, y), 0, x.wrapping_rem(y))
}

/// The signed rest with the sign of y, and 0 where y is 0.
#[tactic(auto, using(crate::proofs::DivideLemmas::floored_above, crate::proofs::DivideLemmas::floored_zero, crate::proofs::DivideLemmas::floored_below), unfolding(crate::specs::Word::residue, crate::specs::Word::signed))]
pub fn imod(width: Width, x: u64, y: u64) -> u64
    requires whole { sizes_allow Whole width ≡ true }
    requires x { x < 2 ^ width_bits width }
    requires y { y < 2 ^ width_bits width }
    ensures { result ≡ residue (width_bits width) (cond (y == 0) (pos 0) (floored_rest (signed (width_bits width) x) (signed (width_bits width) y))) }
{
    if y == 0 {
        return 0;
    }
    signed_words!(
        width,
        (x, y),
        0,
        {
            let rest = x.wrapping_rem_euclid(y);
            if y > 0 {
                rest.cast_unsigned() as u64
            } else if rest == 0 {
                0
            } else {
                (rest + y).cast_unsigned() as u64
            }
        }
    )
}
