//! The bits of a variant's number: each commutative opcode takes the lowest, in preorder.

ghost use Rattle.std.specs.Prelude.{◌≡◌};
ghost use Rattle.rule_term.specs.Variants.{bits_left, is_commutative, is_swapped};

use bitflags::Flags;
use nir_ops::{Op, info};

pub(crate) fn is_commutative(op: Op) -> bool
    ensures { result ≡ is_commutative op }
{
    info(op).props.bits() % 2 == 1
}

/// Whether the first two sources of the opcode stand swapped.
pub fn is_swapped(op: Op, bits: u32) -> bool
    ensures { result ≡ is_swapped op bits }
{
    if !is_commutative(op) {
        return false;
    }
    bits % 2 == 1
}

/// The bits that are left behind the opcode.
pub fn bits_left(op: Op, bits: u32) -> u32
    ensures { result ≡ bits_left op bits }
{
    if is_commutative(op) { bits / 2 } else { bits }
}
