//! The steps of an optimisation, and the uses of values that they name.

use crate::ids::{EffectId, IfId, LoopId, ValueId};
use nir_host::Seq;

/// A place where a value is used. The sources of a store are offset 0 and value 1; that of a load or an
/// output is 0; those of a phi are in its list's order.
#[derive(Clone, Copy, Debug, PartialEq, Eq)]
pub enum Use {
    OfValue { value: ValueId, source: u32 },
    OfEffect { effect: EffectId, source: u32 },
    OfIf { at: IfId },
}

/// One step of an optimisation. `rule` is the rule's number in its file.
#[derive(Clone, Copy, Debug, PartialEq, Eq)]
pub enum Step {
    Rule {
        value: ValueId,
        rule: u32,
        variant: u32,
    },
    Fold {
        value: ValueId,
    },
    Copy {
        at: Use,
    },
    Sweep,
    Phi {
        value: ValueId,
    },
    Branch {
        at: IfId,
    },
    Empty {
        at: IfId,
    },
    Once {
        at: LoopId,
    },
}

/// The steps that were done, in order.
pub type Journal = Seq<Step>;
