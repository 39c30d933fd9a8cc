//! Halves of sums.

ghost use Rattle.std.specs.Prelude.{◌≡◌, ◌<◌, ◌^◌, ◌+◌, ◌/◌, pos, ◌+ℤ◌, true};
ghost use Rattle.nir_ops.specs.Width.{width_bits};
ghost use Rattle.nir_ops.specs.Opcodes.{sizes_allow};
ghost use Rattle.nir_ops.specs.declared.row.Sizes.TheVariants.{Whole};
ghost use Rattle.op_eval.specs.Word.{residue, signed, floor_div};

use crate::arms::{biased, unsigned};
use nir_ops::Width;

/// Half the sum, rounded down.
#[tactic(auto, unfolding(crate::specs::Word::residue))]
pub fn uhadd(width: Width, x: u64, y: u64) -> u64
    requires x { x < 2 ^ width_bits width }
    requires y { y < 2 ^ width_bits width }
    ensures { result ≡ residue (width_bits width) (pos ((x + y) / 2)) }
{
    u64::midpoint(x, y)
}

/// Half the sum and one.
pub fn urhadd(width: Width, x: u64, y: u64) -> u64
    requires whole { sizes_allow Whole width ≡ true }
    requires x { x < 2 ^ width_bits width }
    requires y { y < 2 ^ width_bits width }
    ensures { result ≡ residue (width_bits width) (pos ((x + y + 1) / 2)) }
{
    unsigned!(width, (x, y), 0, !(!x).midpoint(!y))
}

/// Half the signed sum, rounded down.
pub fn ihadd(width: Width, x: u64, y: u64) -> u64
    requires whole { sizes_allow Whole width ≡ true }
    requires x { x < 2 ^ width_bits width }
    requires y { y < 2 ^ width_bits width }
    ensures { result ≡ residue (width_bits width) (floor_div (signed (width_bits width) x +ℤ signed (width_bits width) y) (pos 2)) }
{
    biased!(width, (x, y), 0, x.midpoint(y))
}

/// Half the signed sum and one, rounded down.
pub fn irhadd(width: Width, x: u64, y: u64) -> u64
    requires whole { sizes_allow Whole width ≡ true }
    requires x { x < 2 ^ width_bits width }
    requires y { y < 2 ^ width_bits width }
    ensures { result ≡ residue (width_bits width) (floor_div (signed (width_bits width) x +ℤ signed (width_bits width) y +ℤ pos 1) (pos 2)) }
{
    biased!(width, (x, y), 0, !(!x).midpoint(!y))
}
