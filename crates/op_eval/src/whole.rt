//! Sums, products and bits.

ghost use Rattle.std.specs.Prelude.{◌≡◌, ◌<◌, ◌^◌, ◌+◌, ◌*◌, pos, neg_ℤ, ◌-ℤ◌, true};
ghost use Rattle.std.specs.Int.RustNames.{bit_and, bit_or, bit_xor, unsigned_abs};
ghost use Rattle.nir_ops.specs.Width.{width_bits};
ghost use Rattle.nir_ops.specs.Opcodes.{sizes_allow};
ghost use Rattle.nir_ops.specs.declared.row.Sizes.TheVariants.{Whole};
ghost use Rattle.op_eval.specs.Word.{residue, signed, negated, picked};

use crate::arms::{signed, unsigned};
use nir_ops::Width;

/// The sum.
#[tactic(auto, unfolding(crate::specs::Word::residue))]
pub fn iadd(width: Width, x: u64, y: u64) -> u64
    requires whole { sizes_allow Whole width ≡ true }
    requires x { x < 2 ^ width_bits width }
    requires y { y < 2 ^ width_bits width }
    ensures { result ≡ residue (width_bits width) (pos (x + y)) }
{
    unsigned!(width, (x, y), 0, x.wrapping_add(y))
}

/// The difference.
#[tactic(auto, unfolding(crate::specs::Word::residue))]
pub fn isub(width: Width, x: u64, y: u64) -> u64
    requires whole { sizes_allow Whole width ≡ true }
    requires x { x < 2 ^ width_bits width }
    requires y { y < 2 ^ width_bits width }
    ensures { result ≡ residue (width_bits width) (pos x -ℤ pos y) }
{
    unsigned!(width, (x, y), 0, x.wrapping_sub(y))
}

/// The product.
#[tactic(auto, unfolding(crate::specs::Word::residue))]
pub fn imul(width: Width, x: u64, y: u64) -> u64
    requires whole { sizes_allow Whole width ≡ true }
    requires x { x < 2 ^ width_bits width }
    requires y { y < 2 ^ width_bits width }
    ensures { result ≡ residue (width_bits width) (pos (x * y)) }
{
    unsigned!(width, (x, y), 0, x.wrapping_mul(y))
}

/// The negation.
#[tactic(auto, unfolding(crate::specs::Word::residue))]
pub fn ineg(width: Width, x: u64) -> u64
    requires whole { sizes_allow Whole width ≡ true }
    requires x { x < 2 ^ width_bits width }
    ensures { result ≡ residue (width_bits width) (neg_ℤ (pos x)) }
{
    unsigned!(width, (x), 0, x.wrapping_neg())
}

/// The signed reading without its sign; the least number stays.
#[tactic(auto, unfolding(crate::specs::Word::residue, crate::specs::Word::signed))]
pub fn iabs(width: Width, x: u64) -> u64
    requires whole { sizes_allow Whole width ≡ true }
    requires x { x < 2 ^ width_bits width }
    ensures { result ≡ residue (width_bits width) (pos (unsigned_abs (signed (width_bits width) x))) }
{
    signed!(width, (x), 0, x.wrapping_abs())
}

/// Each bit negated.
#[tactic(auto, unfolding(crate::specs::Word::residue))]
pub fn inot(width: Width, x: u64) -> u64
    requires { x < 2 ^ width_bits width }
    ensures { result ≡ residue (width_bits width) (pos (negated (width_bits width) x)) }
{
    unsigned!(width, (x), 1 - x, !x)
}

/// The bits that both have.
#[tactic(auto, unfolding(crate::specs::Word::residue))]
pub fn iand(width: Width, x: u64, y: u64) -> u64
    requires x { x < 2 ^ width_bits width }
    requires y { y < 2 ^ width_bits width }
    ensures { result ≡ residue (width_bits width) (pos (bit_and x y)) }
{
    x & y
}

/// The bits that one has or both.
#[tactic(auto, unfolding(crate::specs::Word::residue))]
pub fn ior(width: Width, x: u64, y: u64) -> u64
    requires x { x < 2 ^ width_bits width }
    requires y { y < 2 ^ width_bits width }
    ensures { result ≡ residue (width_bits width) (pos (bit_or x y)) }
{
    x | y
}

/// The bits that just one has.
#[tactic(auto, unfolding(crate::specs::Word::residue))]
pub fn ixor(width: Width, x: u64, y: u64) -> u64
    requires x { x < 2 ^ width_bits width }
    requires y { y < 2 ^ width_bits width }
    ensures { result ≡ residue (width_bits width) (pos (bit_xor x y)) }
{
    x ^ y
}

/// The bits of y where x has 1, and of z where it has 0.
#[tactic(auto, unfolding(crate::specs::Word::residue, crate::specs::Word::picked))]
pub fn bitfield_select(width: Width, x: u64, y: u64, z: u64) -> u64
    requires whole { sizes_allow Whole width ≡ true }
    requires x { x < 2 ^ width_bits width }
    requires y { y < 2 ^ width_bits width }
    requires z { z < 2 ^ width_bits width }
    ensures { result ≡ residue (width_bits width) (pos (picked (width_bits width) x y z)) }
{
    unsigned!(width, (x, y, z), 0, (x & y) | (!x & z))
}
