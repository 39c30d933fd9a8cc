//! A word: one component and its bit size.

ghost use Rattle.std.specs.Prelude.{◌<◌, ◌^◌};
ghost use Rattle.nir_ops.specs.Width.{width_bits};

use nir_ops::Width;

/// One component of a value. Its bits are below 2 to the bit size.
#[derive(Clone, Copy, Debug, PartialEq, Eq)]
pub struct Word {
    pub width: Width,
    pub bits: u64,
    ghost fits: { bits < 2 ^ width_bits width },
}
