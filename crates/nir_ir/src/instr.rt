//! Instructions.

use crate::ids::{EffectId, ValueId};
use crate::kind::Kind;
use crate::lists::{Comps, Srcs, Swizzle};
use nir_ops::Op;

/// A source of an ALU instruction: a value, and which of its components stand in each place.
#[derive(Debug, Default, Drop)]
pub struct Src {
    pub value: ValueId,
    pub swizzle: Swizzle,
}

/// What a block does, one step. What has a `value` defines it; what has an `effect` is an output or a store.
#[derive(Debug, Drop)]
pub enum Instr {
    Alu {
        value: ValueId,
        op: Op,
        kind: Kind,
        srcs: Srcs,
    },
    Const {
        value: ValueId,
        kind: Kind,
        comps: Comps,
    },
    Undef {
        value: ValueId,
        kind: Kind,
    },
    Input {
        value: ValueId,
        kind: Kind,
        slot: u32,
    },
    Output {
        effect: EffectId,
        slot: u32,
        src: ValueId,
    },
    LoadBuf {
        value: ValueId,
        kind: Kind,
        buffer: u32,
        offset: ValueId,
    },
    StoreBuf {
        effect: EffectId,
        buffer: u32,
        offset: ValueId,
        src: ValueId,
    },
}
