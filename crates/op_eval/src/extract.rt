//! Pieces of 8 and of 16 bits.

ghost use Rattle.std.specs.Prelude.{◌≡◌, ◌<◌, ◌^◌, ◌*◌, pos, true};
ghost use Rattle.nir_ops.specs.Width.{width_bits};
ghost use Rattle.nir_ops.specs.Opcodes.{sizes_allow};
ghost use Rattle.nir_ops.specs.declared.row.Sizes.TheVariants.{Whole};
ghost use Rattle.op_eval.specs.Word.{residue, signed, floor_div, field, signed_piece};

use crate::convert::{i2i, signed_number};
use nir_ops::Width;

/// Byte y of x, and 0 past the top.
pub fn extract_u8(width: Width, x: u64, y: u64) -> u64
    requires { x < 2 ^ width_bits width }
    ensures { result ≡ residue (width_bits width) (pos (field x (8 * y) 8)) }
{
    if y >= 8 {
        return 0;
    }
    (x >> (8 * y)) & 0xff
}

/// Piece y of 16 bits of x, and 0 past the top.
pub fn extract_u16(width: Width, x: u64, y: u64) -> u64
    requires { x < 2 ^ width_bits width }
    ensures { result ≡ residue (width_bits width) (pos (field x (16 * y) 16)) }
{
    if y >= 4 {
        return 0;
    }
    (x >> (16 * y)) & 0xffff
}

/// Byte y of the signed reading of x, read as signed.
#[tactic(auto, unfolding(crate::specs::Word::signed_piece))]
pub fn extract_i8(width: Width, x: u64, y: u64) -> u64
    requires whole { sizes_allow Whole width ≡ true }
    requires x { x < 2 ^ width_bits width }
    ensures { result ≡ residue (width_bits width) (signed_piece 8 (signed (width_bits width) x) y) }
{
    i2i(Width::W8, width, signed_piece_8(signed_number(width, x), y))
}

/// Piece y of 16 bits of the signed reading of x, read as signed.
#[tactic(auto, unfolding(crate::specs::Word::signed_piece))]
pub fn extract_i16(width: Width, x: u64, y: u64) -> u64
    requires whole { sizes_allow Whole width ≡ true }
    requires x { x < 2 ^ width_bits width }
    ensures { result ≡ residue (width_bits width) (signed_piece 16 (signed (width_bits width) x) y) }
{
    i2i(
        Width::W16,
        width,
        signed_piece_16(signed_number(width, x), y),
    )
}

/// Byte y of a number.
#[tactic(auto, using(crate::proofs::FieldLemmas::far_shift, crate::proofs::ShiftLemmas::floor_div_shr))]
fn signed_piece_8(number: i64, y: u64) -> u64
    ensures value { result ≡ residue 8 (floor_div number (pos (2 ^ (8 * y)))) }
    ensures small { result < 2 ^ 8 }
{
    if y >= 8 {
        return low_byte(number >> 63);
    }
    low_byte(number >> (8 * y as u32))
}

/// The lowest 8 bits of a number.
fn low_byte(number: i64) -> u64
    ensures value { result ≡ residue 8 number }
    ensures small { result < 2 ^ 8 }
{
    number.cast_unsigned() & 0xff
}

/// Piece y of a number.
#[tactic(auto, using(crate::proofs::FieldLemmas::far_shift, crate::proofs::ShiftLemmas::floor_div_shr))]
fn signed_piece_16(number: i64, y: u64) -> u64
    ensures value { result ≡ residue 16 (floor_div number (pos (2 ^ (16 * y)))) }
    ensures small { result < 2 ^ 16 }
{
    if y >= 4 {
        return low_half(number >> 63);
    }
    low_half(number >> (16 * y as u32))
}

/// The lowest 16 bits of a number.
fn low_half(number: i64) -> u64
    ensures value { result ≡ residue 16 number }
    ensures small { result < 2 ^ 16 }
{
    number.cast_unsigned() & 0xffff
}
