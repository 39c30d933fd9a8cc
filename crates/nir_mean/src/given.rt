//! What a run is given.

ghost use Rattle.std.specs.Prelude.{◌≡◌, ◌≤◌, [], Some, slice_get};
ghost use Rattle.std.specs.List.{slice_index_or};
ghost use Rattle.nir_mean.specs.Same.{InputsFit};
ghost use Rattle.nir_mean.specs.Seen.{inputs_of, shader_of};
ghost use Rattle.nir_mean.specs.Table.{kind_seen};

use crate::outcome::Inputs;
use crate::view::view_of;
use nir_ir::{Kind, Shader};
use op_eval::View;
use std::alloc::Global;

/// What a run is given, and does not change.
#[derive(Clone, Copy)]
pub(crate) struct Given<'a> {
    pub alloc: Global,
    pub shader: &'a Shader,
    pub inputs: &'a Inputs,
    /// How often a loop goes back for each time that it is entered.
    pub turns: u64,
}

impl<'a> Given<'a> {
    /// The components of an input slot of this kind.
    pub fn input_view(&self, kind: Kind, slot: u32) -> View
        requires inputs { InputsFit (shader_of self.now).inputs (inputs_of self.now) }
        requires slot { slice_get (shader_of self.now).inputs slot ≡ Some kind }
        requires few { kind.count ≤ 16 }
        ensures kind { kind_seen result ≡ kind }
        ensures value { result.comps ≡ slice_index_or (inputs_of self.now) slot [] }
    {
        view_of(kind.width, self.input(slot))
    }

    /// The components of an input slot.
    fn input(&self, slot: u32) -> &[u64]
        ensures { result.now ≡ slice_index_or self.now.inputs.now slot [] }
    {
        let inputs = self.inputs.as_slice();
        let slot = slot as usize;
        if slot < inputs.len() {
            inputs[slot].as_slice()
        } else {
            &[]
        }
    }
}
