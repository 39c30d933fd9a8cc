//! The types of an opcode's row: its sources, its result, its marks and the bit sizes at which it works.

use crate::props::Props;
use crate::width::Width;
use short_lists::Short;

/// How a component is read: as a signed number, as an unsigned number, or as a truth value.
#[derive(Clone, Copy, Debug, PartialEq, Eq)]
pub enum Base {
    Int,
    Uint,
    Bool,
}

/// The type of a source or of the result. A size of None is unsized: all unsized ones of an
/// instruction have one bit size.
#[derive(Clone, Copy, Debug, PartialEq, Eq)]
pub struct OpType {
    pub base: Base,
    pub size: Option<Width>,
}

/// A source: how many components it has, where 0 means as many as the result, and its type.
#[derive(Clone, Copy, Debug, PartialEq, Eq)]
pub struct OpInput {
    pub count: u8,
    pub kind: OpType,
}

impl Default for OpInput {
    ghost use Rattle.std.specs.Prelude.{◌≡◌, None};
    ghost use Rattle.nir_ops.specs.declared.row.Base.TheVariants.{Uint};

    ghost is_default = { λ input. input ≡ record { count = 0; kind = record { base = Uint; size = None } } };

    fn default() -> OpInput {
        OpInput {
            count: 0,
            kind: OpType {
                base: Base::Uint,
                size: None,
            },
        }
    }
}

/// The sources of an opcode in order, at most 16.
pub type Inputs = Short<OpInput, 16>;

/// The row of an opcode. A count of 0 means per component.
#[derive(Debug, Drop)]
pub struct OpInfo {
    pub out_count: u8,
    pub out: OpType,
    pub inputs: Inputs,
    pub props: Props,
}

/// The bit sizes of the unsized sources and result of an opcode.
#[derive(Clone, Copy, Debug, PartialEq, Eq)]
pub enum Sizes {
    /// 8, 16, 32 and 64 bits.
    Whole,
    /// 1, 8, 16, 32 and 64 bits.
    Every,
    /// Nothing is unsized.
    Fixed,
}
