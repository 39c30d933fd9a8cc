//! Comparisons, choices, lesser and greater.

ghost use Rattle.std.specs.Prelude.{◌≡◌, ◌<◌, ◌^◌, min, max, pos, cond, not, nat_lt, nat_le, ◌==◌, true};
ghost use Rattle.std.specs.Int.{int_min, int_max};
ghost use Rattle.std.specs.Int.RustNames.{int_lt, int_le};
ghost use Rattle.nir_ops.specs.Width.{width_bits};
ghost use Rattle.nir_ops.specs.Opcodes.{sizes_allow};
ghost use Rattle.nir_ops.specs.declared.row.Sizes.TheVariants.{Whole};
ghost use Rattle.op_eval.specs.Word.{residue, signed, truth};

use crate::arms::{signed, signed_words};
use nir_ops::Width;

/// 1 where x is less than y by the signed reading, else 0.
#[tactic(auto, unfolding(crate::specs::Word::residue, crate::specs::Word::signed))]
pub fn ilt(width: Width, x: u64, y: u64) -> u64
    requires whole { sizes_allow Whole width ≡ true }
    requires x { x < 2 ^ width_bits width }
    requires y { y < 2 ^ width_bits width }
    ensures { result ≡ residue 1 (truth (int_lt (signed (width_bits width) x) (signed (width_bits width) y))) }
{
    signed_words!(width, (x, y), 0, (x < y) as u64)
}

/// 1 where x is not less than y by the signed reading, else 0.
#[tactic(auto, unfolding(crate::specs::Word::residue, crate::specs::Word::signed))]
pub fn ige(width: Width, x: u64, y: u64) -> u64
    requires whole { sizes_allow Whole width ≡ true }
    requires x { x < 2 ^ width_bits width }
    requires y { y < 2 ^ width_bits width }
    ensures { result ≡ residue 1 (truth (int_le (signed (width_bits width) y) (signed (width_bits width) x))) }
{
    signed_words!(width, (x, y), 0, (x >= y) as u64)
}

/// 1 where x is less than y, else 0.
#[tactic(auto, unfolding(crate::specs::Word::residue))]
pub fn ult(x: u64, y: u64) -> u64
    ensures { result ≡ residue 1 (truth (nat_lt x y)) }
{
    (x < y) as u64
}

/// 1 where x is not less than y, else 0.
#[tactic(auto, unfolding(crate::specs::Word::residue))]
pub fn uge(x: u64, y: u64) -> u64
    ensures { result ≡ residue 1 (truth (nat_le y x)) }
{
    (x >= y) as u64
}

/// 1 where the words are equal, else 0.
#[tactic(auto, unfolding(crate::specs::Word::residue))]
pub fn ieq(x: u64, y: u64) -> u64
    ensures { result ≡ residue 1 (truth (x == y)) }
{
    (x == y) as u64
}

/// 1 where the words differ, else 0.
#[tactic(auto, unfolding(crate::specs::Word::residue))]
pub fn ine(x: u64, y: u64) -> u64
    ensures { result ≡ residue 1 (truth (not (x == y))) }
{
    (x != y) as u64
}

/// The second source for 1, the third for 0.
#[tactic(auto, unfolding(crate::specs::Word::residue))]
pub fn bcsel(width: Width, x: u64, y: u64, z: u64) -> u64
    requires x { x < 2 ^ 1 }
    requires y { y < 2 ^ width_bits width }
    requires z { z < 2 ^ width_bits width }
    ensures { result ≡ residue (width_bits width) (cond (x == 1) (pos y) (pos z)) }
{
    if x == 1 { y } else { z }
}

/// The lesser by the signed reading.
#[tactic(auto, unfolding(crate::specs::Word::residue, crate::specs::Word::signed))]
pub fn imin(width: Width, x: u64, y: u64) -> u64
    requires whole { sizes_allow Whole width ≡ true }
    requires x { x < 2 ^ width_bits width }
    requires y { y < 2 ^ width_bits width }
    ensures { result ≡ residue (width_bits width) (int_min (signed (width_bits width) x) (signed (width_bits width) y)) }
{
    signed!(width, (x, y), 0, x.min(y))
}

/// The greater by the signed reading.
#[tactic(auto, unfolding(crate::specs::Word::residue, crate::specs::Word::signed))]
pub fn imax(width: Width, x: u64, y: u64) -> u64
    requires whole { sizes_allow Whole width ≡ true }
    requires x { x < 2 ^ width_bits width }
    requires y { y < 2 ^ width_bits width }
    ensures { result ≡ residue (width_bits width) (int_max (signed (width_bits width) x) (signed (width_bits width) y)) }
{
    signed!(width, (x, y), 0, x.max(y))
}

/// The lesser.
#[tactic(auto, unfolding(crate::specs::Word::residue))]
pub fn umin(width: Width, x: u64, y: u64) -> u64
    requires x { x < 2 ^ width_bits width }
    requires y { y < 2 ^ width_bits width }
    ensures { result ≡ residue (width_bits width) (pos (min x y)) }
{
    x.min(y)
}

/// The greater.
#[tactic(auto, unfolding(crate::specs::Word::residue))]
pub fn umax(width: Width, x: u64, y: u64) -> u64
    requires x { x < 2 ^ width_bits width }
    requires y { y < 2 ^ width_bits width }
    ensures { result ≡ residue (width_bits width) (pos (max x y)) }
{
    x.max(y)
}
