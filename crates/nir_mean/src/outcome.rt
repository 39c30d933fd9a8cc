//! What a shader is given, and what it does.

use nir_host::{Bytes, Seq};
use nir_ir::{Comps, Kind};

/// The components of each input slot.
pub type Inputs = Seq<Comps>;

/// The bytes of each buffer.
pub type Buffers = Seq<Bytes>;

/// The components of each output slot.
pub type Outputs = Seq<Comps>;

/// The stores that a run made, in order.
pub type Stores = Seq<Stored>;

/// A store, as it was made: also where it lies outside of its buffer.
#[derive(Debug, Drop)]
pub struct Stored {
    pub buffer: u32,
    pub offset: u32,
    pub kind: Kind,
    pub comps: Comps,
}

/// How a run ends.
#[derive(Clone, Copy, Debug, PartialEq, Eq)]
pub enum Ending {
    /// The whole body was run.
    Done,
    /// A loop was to go back, and had no repeat left.
    Cut,
}

/// What a run does: how it ends, the stores that it made, and its outputs.
#[derive(Debug, Drop)]
pub struct Outcome {
    pub ending: Ending,
    pub stores: Stores,
    pub outputs: Outputs,
}
