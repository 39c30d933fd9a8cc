//! What is outside of the values: buffers, outputs and stores.

ghost use Rattle.std.specs.Prelude.{◌≡◌, ◌<◌, ◌≤◌, [], length, OnOk};
ghost use Rattle.std.specs.List.{slice_index_or};
ghost use Rattle.std.proofs.Math.ListN.{set};
ghost use Rattle.nir_mean.specs.State.{load, load_all, put_out, store, store_all, width_bytes};
ghost use Rattle.nir_mean.specs.Seen.{world_seen};
ghost use Rattle.nir_mean.specs.Table.{kind_seen};

use crate::bytes::{loaded, put_all};
use crate::outcome::{Buffers, Outputs, Stored, Stores};
use nir_host::OutOfMemory;
use nir_ir::{Comps, Kind};
use nir_ops::Width;
use op_eval::{Components, View};

/// The buffers, the outputs, and the stores that were made.
#[derive(Drop)]
pub(crate) struct Outside {
    pub buffers: Buffers,
    pub outputs: Outputs,
    pub stores: Stores,
}

/// How many bytes a component of this size has.
fn width_bytes(width: Width) -> usize
    ensures value { result ≡ width_bytes width }
    ensures few { result ≤ 8 }
{
    match width {
        Width::W1 => 0,
        Width::W8 => 1,
        Width::W16 => 2,
        Width::W32 => 4,
        Width::W64 => 8,
    }
}

/// The components of a kind that lie one behind another from an offset on.
fn load_all(bytes: &[u8], kind: Kind, offset: u32) -> View
    requires { kind.count ≤ 16 }
    ensures kind { kind_seen result ≡ kind }
    ensures value { result.comps ≡ load_all bytes.now (width_bytes kind.width) kind.count offset }
{
    let size = width_bytes(kind.width);
    let mut comps = Components::new();
    for at in 0..kind.count {
        comps.push(loaded(bytes, size, offset as u64 + at as u64 * size as u64));
    }
    View {
        width: kind.width,
        comps,
    }
}

/// Puts what a store wrote into its buffer.
fn put_in(buffers: &mut Buffers, made: &Stored)
    requires { length made.now.comps ≤ 16 }
    ensures { buffers.new ≡ set buffers.old made.now.buffer (store_all made.now.comps (slice_index_or buffers.old made.now.buffer []) (width_bytes made.now.kind.width) made.now.offset) }
{
    let size = width_bytes(made.kind.width);
    let buffer = made.buffer as usize;
    if buffer < buffers.len() {
        put_all(
            buffers.at_mut(buffer),
            made.comps.as_slice(),
            size,
            made.offset,
        );
    }
}

impl Outside {
    /// The bytes of a buffer.
    fn buffer(&self, buffer: u32) -> &[u8]
        ensures { result.now ≡ slice_index_or self.now.buffers buffer [] }
    {
        let buffers = self.buffers.as_slice();
        let buffer = buffer as usize;
        if buffer < buffers.len() {
            buffers[buffer].as_slice()
        } else {
            &[]
        }
    }

    /// A load of a kind from a buffer.
    pub fn load(&self, kind: Kind, buffer: u32, offset: u32) -> View
        requires { kind.count ≤ 16 }
        ensures kind { kind_seen result ≡ kind }
        ensures value { result.comps ≡ load (world_seen self.now) kind buffer offset }
    {
        load_all(self.buffer(buffer), kind, offset)
    }

    /// An output to a slot, in the place of what was there.
    pub fn put_out(&mut self, slot: u32, comps: Comps)
        ensures { world_seen self.new ≡ put_out slot comps (world_seen self.old) }
    {
        if (slot as usize) < self.outputs.len() {
            *self.outputs.at_mut(slot as usize) = comps;
        }
    }

    /// A store to a buffer, which is listed as it was made.
    pub fn store(&mut self, made: Stored) -> Result<(), OutOfMemory>
        requires { length made.comps ≤ 16 }
        ensures { OnOk result (world_seen self.new ≡ store made (world_seen self.old)) }
    {
        put_in(&mut self.buffers, &made);
        self.stores.push(made)?;
        Ok(())
    }
}
