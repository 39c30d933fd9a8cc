//! High and double products.

ghost use Rattle.std.specs.Prelude.{◌≡◌, ◌<◌, ◌^◌, ◌*◌, ◌/◌, pos, ◌*ℤ◌, true};
ghost use Rattle.nir_ops.specs.Width.{width_bits};
ghost use Rattle.nir_ops.specs.Opcodes.{sizes_allow};
ghost use Rattle.nir_ops.specs.declared.row.Sizes.TheVariants.{Whole};
ghost use Rattle.op_eval.specs.Word.{residue, signed, floor_div};

use crate::arms::{unsigned, wide_product};
use nir_ops::Width;

/// The product divided by 2 to the bit size, rounded down.
pub fn umul_high(width: Width, x: u64, y: u64) -> u64
    requires whole { sizes_allow Whole width ≡ true }
    requires x { x < 2 ^ width_bits width }
    requires y { y < 2 ^ width_bits width }
    ensures { result ≡ residue (width_bits width) (pos (x * y / 2 ^ (width_bits width))) }
{
    unsigned!(width, (x, y), 0, x.carrying_mul(y, 0).1)
}

/// The signed product divided by 2 to the bit size, rounded down.
pub fn imul_high(width: Width, x: u64, y: u64) -> u64
    requires whole { sizes_allow Whole width ≡ true }
    requires x { x < 2 ^ width_bits width }
    requires y { y < 2 ^ width_bits width }
    ensures { result ≡ residue (width_bits width) (floor_div (signed (width_bits width) x *ℤ signed (width_bits width) y) (pos (2 ^ (width_bits width)))) }
{
    match width {
        Width::W1 => 0,
        Width::W8 => wide_product!(x, y, u8, i16, 8),
        Width::W16 => wide_product!(x, y, u16, i32, 16),
        Width::W32 => wide_product!(x, y, u32, i64, 32),
        Width::W64 => wide_product!(x, y, u64, i128, 64),
    }
}

/// The product in 64 bits.
#[tactic(auto, unfolding(crate::specs::Word::residue))]
pub fn umul_2x32_64(x: u64, y: u64) -> u64
    requires x { x < 2 ^ 32 }
    requires y { y < 2 ^ 32 }
    ensures { result ≡ residue 64 (pos (x * y)) }
{
    x * y
}

/// The signed product in 64 bits.
#[tactic(auto, unfolding(crate::specs::Word::residue, crate::specs::Word::signed))]
pub fn imul_2x32_64(x: u64, y: u64) -> u64
    requires x { x < 2 ^ 32 }
    requires y { y < 2 ^ 32 }
    ensures { result ≡ residue 64 (signed 32 x *ℤ signed 32 y) }
{
    let x = (x as u32).cast_signed() as i64;
    let y = (y as u32).cast_signed() as i64;
    x.wrapping_mul(y).cast_unsigned()
}
