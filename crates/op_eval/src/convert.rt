//! Conversions, packs and their halves.

ghost use Rattle.std.specs.Prelude.{◌≡◌, ◌<◌, ◌^◌, ◌+◌, ◌*◌, ◌/◌, ◌%◌, pos, true};
ghost use Rattle.nir_ops.specs.Width.{width_bits};
ghost use Rattle.nir_ops.specs.Opcodes.{sizes_allow};
ghost use Rattle.nir_ops.specs.declared.row.Sizes.TheVariants.{Whole};
ghost use Rattle.op_eval.specs.Word.{residue, signed};

use crate::arms::signed_words;
use nir_ops::Width;

/// The two words joined, x low.
#[tactic(auto, unfolding(crate::specs::Word::residue))]
pub fn pack_64_2x32_split(x: u64, y: u64) -> u64
    requires x { x < 2 ^ 32 }
    requires y { y < 2 ^ 32 }
    ensures { result ≡ residue 64 (pos (x + 2 ^ 32 * y)) }
{
    x | (y << 32)
}

/// The lower half.
#[tactic(auto, unfolding(crate::specs::Word::residue))]
pub fn unpack_64_2x32_split_x(x: u64) -> u64
    requires { x < 2 ^ 64 }
    ensures { result ≡ residue 32 (pos (x % 2 ^ 32)) }
{
    x & 0xffff_ffff
}

/// The upper half.
#[tactic(auto, unfolding(crate::specs::Word::residue))]
pub fn unpack_64_2x32_split_y(x: u64) -> u64
    requires { x < 2 ^ 64 }
    ensures { result ≡ residue 32 (pos (x / 2 ^ 32)) }
{
    x >> 32
}

/// The two words joined, x low.
#[tactic(auto, unfolding(crate::specs::Word::residue))]
pub fn pack_32_2x16_split(x: u64, y: u64) -> u64
    requires x { x < 2 ^ 16 }
    requires y { y < 2 ^ 16 }
    ensures { result ≡ residue 32 (pos (x + 2 ^ 16 * y)) }
{
    x | (y << 16)
}

/// The lower half.
#[tactic(auto, unfolding(crate::specs::Word::residue))]
pub fn unpack_32_2x16_split_x(x: u64) -> u64
    requires { x < 2 ^ 32 }
    ensures { result ≡ residue 16 (pos (x % 2 ^ 16)) }
{
    x & 0xffff
}

/// The upper half.
#[tactic(auto, unfolding(crate::specs::Word::residue))]
pub fn unpack_32_2x16_split_y(x: u64) -> u64
    requires { x < 2 ^ 32 }
    ensures { result ≡ residue 16 (pos (x / 2 ^ 16)) }
{
    x >> 16
}

/// The number of a word by its signed reading.
#[tactic(auto, unfolding(crate::specs::Word::signed))]
pub fn signed_number(width: Width, x: u64) -> i64
    requires whole { sizes_allow Whole width ≡ true }
    requires x { x < 2 ^ width_bits width }
    ensures { result ≡ signed (width_bits width) x }
{
    signed_words!(width, (x), 0, x as i64)
}

/// The signed reading of a word, in another bit size.
pub fn i2i(width: Width, to: Width, x: u64) -> u64
    requires whole { sizes_allow Whole width ≡ true }
    requires x { x < 2 ^ width_bits width }
    ensures { result ≡ residue (width_bits to) (signed (width_bits width) x) }
{
    cut(to, signed_number(width, x).cast_unsigned())
}

/// A word in another bit size.
#[tactic(auto, unfolding(crate::specs::Word::residue))]
pub fn u2u(to: Width, x: u64) -> u64
    requires { x < 2 ^ 64 }
    ensures { result ≡ residue (width_bits to) (pos x) }
{
    cut(to, x)
}

/// The lowest bits of a word of 64 bits.
fn cut(to: Width, x: u64) -> u64
    ensures { result ≡ x % 2 ^ width_bits to }
{
    match to {
        Width::W1 => x & 1,
        Width::W8 => x & 0xff,
        Width::W16 => x & 0xffff,
        Width::W32 => x & 0xffff_ffff,
        Width::W64 => x,
    }
}

/// The word as it is.
#[tactic(auto, unfolding(crate::specs::Word::residue))]
pub fn mov(width: Width, x: u64) -> u64
    requires { x < 2 ^ width_bits width }
    ensures { result ≡ residue (width_bits width) (pos x) }
{
    x
}
