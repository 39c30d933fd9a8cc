//! Shifts and rotations.

ghost use Rattle.std.specs.Prelude.{◌≡◌, ◌<◌, ◌^◌, ◌-◌, ◌*◌, ◌/◌, ◌%◌, pos, true};
ghost use Rattle.nir_ops.specs.Width.{width_bits};
ghost use Rattle.nir_ops.specs.Opcodes.{sizes_allow};
ghost use Rattle.nir_ops.specs.declared.row.Sizes.TheVariants.{Whole};
ghost use Rattle.op_eval.specs.Word.{residue, signed, floor_div, rotated};

use crate::arms::{signed, unsigned};
use nir_ops::Width;

/// x shifted up by y modulo the bit size.
#[tactic(auto, unfolding(crate::specs::Word::residue))]
pub fn ishl(width: Width, x: u64, y: u64) -> u64
    requires whole { sizes_allow Whole width ≡ true }
    requires x { x < 2 ^ width_bits width }
    requires y { y < 2 ^ 32 }
    ensures { result ≡ residue (width_bits width) (pos (x * 2 ^ (y % (width_bits width)))) }
{
    unsigned!(width, (x), 0, x.wrapping_shl(y as u32))
}

/// x shifted down by y modulo the bit size.
#[tactic(auto, unfolding(crate::specs::Word::residue))]
pub fn ushr(width: Width, x: u64, y: u64) -> u64
    requires whole { sizes_allow Whole width ≡ true }
    requires x { x < 2 ^ width_bits width }
    requires y { y < 2 ^ 32 }
    ensures { result ≡ residue (width_bits width) (pos (x / 2 ^ (y % (width_bits width)))) }
{
    unsigned!(width, (x), 0, x.wrapping_shr(y as u32))
}

/// The signed reading of x shifted down by y modulo the bit size.
#[tactic(auto, using(crate::proofs::ShiftLemmas::floor_div_shr), unfolding(crate::specs::Word::residue, crate::specs::Word::signed))]
pub fn ishr(width: Width, x: u64, y: u64) -> u64
    requires whole { sizes_allow Whole width ≡ true }
    requires x { x < 2 ^ width_bits width }
    requires y { y < 2 ^ 32 }
    ensures { result ≡ residue (width_bits width) (floor_div (signed (width_bits width) x) (pos (2 ^ (y % (width_bits width))))) }
{
    signed!(width, (x), 0, x.wrapping_shr(y as u32))
}

/// x rotated up by y modulo the bit size.
pub fn urol(width: Width, x: u64, y: u64) -> u64
    requires whole { sizes_allow Whole width ≡ true }
    requires x { x < 2 ^ width_bits width }
    requires y { y < 2 ^ 32 }
    ensures { result ≡ residue (width_bits width) (pos (rotated (width_bits width) x (y % (width_bits width)))) }
{
    unsigned!(width, (x), 0, x.rotate_left(y as u32))
}

/// x rotated down by y modulo the bit size.
pub fn uror(width: Width, x: u64, y: u64) -> u64
    requires whole { sizes_allow Whole width ≡ true }
    requires x { x < 2 ^ width_bits width }
    requires y { y < 2 ^ 32 }
    ensures { result ≡ residue (width_bits width) (pos (rotated (width_bits width) x (((width_bits width) - y % (width_bits width)) % (width_bits width)))) }
{
    unsigned!(width, (x), 0, x.rotate_right(y as u32))
}
