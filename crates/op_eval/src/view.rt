//! A view: the components of a value that an instruction reads, and their bit size.

ghost use Rattle.std.specs.Prelude.{◌<◌, ◌^◌, ℕ, slice_index};
ghost use Rattle.nir_ops.specs.Width.{width_bits};

use nir_ops::Width;
use short_lists::Short;

/// A list of at most 16 components.
pub type Components = Short<u64, 16>;

/// The components of a value that an instruction reads. Each is below 2 to the bit size.
#[derive(Debug, Drop)]
pub struct View {
    pub width: Width,
    pub comps: Components,
    ghost fits: { (at : ℕ) → slice_index comps at < 2 ^ width_bits width },
}
