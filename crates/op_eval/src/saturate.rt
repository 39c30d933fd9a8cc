//! Carries, results held within bounds, and distances.

ghost use Rattle.std.specs.Prelude.{◌≡◌, ◌<◌, ◌^◌, ◌+◌, ◌-◌, min, pos, ◌+ℤ◌, ◌-ℤ◌, nat_lt, nat_le, true};
ghost use Rattle.std.specs.Int.{abs_diff, saturate_to_bits};
ghost use Rattle.std.specs.Int.RustNames.{unsigned_abs};
ghost use Rattle.nir_ops.specs.Width.{width_bits};
ghost use Rattle.nir_ops.specs.Opcodes.{sizes_allow};
ghost use Rattle.nir_ops.specs.declared.row.Sizes.TheVariants.{Whole};
ghost use Rattle.op_eval.specs.Word.{residue, signed, truth};

use crate::arms::{signed, signed_words, unsigned};
use nir_ops::Width;

/// 1 where the sum passes the bit size, else 0.
#[tactic(auto, unfolding(crate::specs::Word::residue))]
pub fn uadd_carry(width: Width, x: u64, y: u64) -> u64
    requires whole { sizes_allow Whole width ≡ true }
    requires x { x < 2 ^ width_bits width }
    requires y { y < 2 ^ width_bits width }
    ensures { result ≡ residue (width_bits width) (truth (nat_le (2 ^ (width_bits width)) (x + y))) }
{
    unsigned!(width, (x, y), 0, x.overflowing_add(y).1)
}

/// 1 where x is less than y, else 0.
#[tactic(auto, unfolding(crate::specs::Word::residue))]
pub fn usub_borrow(width: Width, x: u64, y: u64) -> u64
    requires whole { sizes_allow Whole width ≡ true }
    requires x { x < 2 ^ width_bits width }
    requires y { y < 2 ^ width_bits width }
    ensures { result ≡ residue (width_bits width) (truth (nat_lt x y)) }
{
    (x < y) as u64
}

/// The signed sum held within the signed numbers of the bit size.
#[tactic(auto, unfolding(crate::specs::Word::residue, crate::specs::Word::signed))]
pub fn iadd_sat(width: Width, x: u64, y: u64) -> u64
    requires whole { sizes_allow Whole width ≡ true }
    requires x { x < 2 ^ width_bits width }
    requires y { y < 2 ^ width_bits width }
    ensures { result ≡ residue (width_bits width) (saturate_to_bits ((width_bits width) - 1) (signed (width_bits width) x +ℤ signed (width_bits width) y)) }
{
    signed!(width, (x, y), 0, x.saturating_add(y))
}

/// The signed difference held within the signed numbers of the bit size.
#[tactic(auto, unfolding(crate::specs::Word::residue, crate::specs::Word::signed))]
pub fn isub_sat(width: Width, x: u64, y: u64) -> u64
    requires whole { sizes_allow Whole width ≡ true }
    requires x { x < 2 ^ width_bits width }
    requires y { y < 2 ^ width_bits width }
    ensures { result ≡ residue (width_bits width) (saturate_to_bits ((width_bits width) - 1) (signed (width_bits width) x -ℤ signed (width_bits width) y)) }
{
    signed!(width, (x, y), 0, x.saturating_sub(y))
}

/// The sum held below 2 to the bit size.
#[tactic(auto, unfolding(crate::specs::Word::residue))]
pub fn uadd_sat(width: Width, x: u64, y: u64) -> u64
    requires whole { sizes_allow Whole width ≡ true }
    requires x { x < 2 ^ width_bits width }
    requires y { y < 2 ^ width_bits width }
    ensures { result ≡ residue (width_bits width) (pos (min (x + y) (2 ^ (width_bits width) - 1))) }
{
    unsigned!(width, (x, y), 0, x.saturating_add(y))
}

/// The difference, or 0 where y is greater.
#[tactic(auto, unfolding(crate::specs::Word::residue))]
pub fn usub_sat(width: Width, x: u64, y: u64) -> u64
    requires x { x < 2 ^ width_bits width }
    requires y { y < 2 ^ width_bits width }
    ensures { result ≡ residue (width_bits width) (pos (x - y)) }
{
    x.saturating_sub(y)
}

/// The distance of the signed readings.
#[tactic(auto, unfolding(crate::specs::Word::residue, crate::specs::Word::signed))]
pub fn uabs_isub(width: Width, x: u64, y: u64) -> u64
    requires whole { sizes_allow Whole width ≡ true }
    requires x { x < 2 ^ width_bits width }
    requires y { y < 2 ^ width_bits width }
    ensures { result ≡ residue (width_bits width) (pos (unsigned_abs (signed (width_bits width) x -ℤ signed (width_bits width) y))) }
{
    signed_words!(width, (x, y), 0, x.abs_diff(y) as u64)
}

/// The distance of the words.
#[tactic(auto, unfolding(crate::specs::Word::residue))]
pub fn uabs_usub(width: Width, x: u64, y: u64) -> u64
    requires x { x < 2 ^ width_bits width }
    requires y { y < 2 ^ width_bits width }
    ensures { result ≡ residue (width_bits width) (pos (abs_diff x y)) }
{
    x.abs_diff(y)
}
