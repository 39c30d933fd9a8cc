//! Components that are made and copied.

ghost use Rattle.std.specs.Prelude.{◌≡◌, ◌<◌, ◌≤◌, ◌^◌, ℕ, length, replicate, slice_index, IfOk};
ghost use Rattle.nir_ops.specs.Width.{width_bits};
ghost use Rattle.nir_mean.specs.State.{zeros};

use nir_host::OutOfMemory;
use nir_ir::{Comps, Kind};
use nir_ops::Width;
use op_eval::{Components, View};
use std::alloc::Global;

/// These components, at a bit size.
pub(crate) fn view_of(width: Width, items: &[u64]) -> View
    requires few { length items.now ≤ 16 }
    requires words { (at : ℕ) → slice_index items.now at < 2 ^ width_bits width }
    ensures width { result.width ≡ width }
    ensures comps { result.comps ≡ items.now }
{
    let mut comps = Components::new();
    for item in items {
        comps.push(*item);
    }
    View { width, comps }
}

/// As many components of 0 as the kind says.
pub(crate) fn zero_view(kind: Kind) -> View
    requires { kind.count ≤ 16 }
    ensures width { result.width ≡ kind.width }
    ensures comps { result.comps ≡ zeros kind }
{
    let mut comps = Components::new();
    for _ in 0..kind.count {
        comps.push(0);
    }
    View {
        width: kind.width,
        comps,
    }
}

/// A list of these components.
pub(crate) fn comps_of(alloc: Global, items: &[u64]) -> Result<Comps, OutOfMemory>
    ensures { IfOk result (λ comps. comps ≡ items.now) }
{
    let mut comps = Comps::new(alloc);
    for item in items {
        comps.push(*item)?;
    }
    Ok(comps)
}
