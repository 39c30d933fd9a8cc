//! The tree of a shader: lists of blocks, ifs and loops.

use crate::ids::{BlockId, IfId, LoopId, ValueId};
use crate::instr::Instr;
use crate::kind::Kind;
use nir_host::Seq;

/// The instructions of a block, in order.
pub type Instrs = Seq<Instr>;

/// The phis of a block. They are read together, before the instructions.
pub type Phis = Seq<Phi>;

/// The sources of a phi, one for each block from which control may come.
pub type PhiSources = Seq<PhiSource>;

/// A list of nodes, run in order.
pub type List = Seq<Node>;

/// The value that a phi takes where control comes from the block.
#[derive(Clone, Copy, Debug, PartialEq, Eq)]
pub struct PhiSource {
    pub from: BlockId,
    pub value: ValueId,
}

/// A value chosen by the block from which control came.
#[derive(Debug, Drop)]
pub struct Phi {
    pub value: ValueId,
    pub kind: Kind,
    pub sources: PhiSources,
}

/// Where control goes at the end of a block that does not fall through.
#[derive(Clone, Copy, Debug, PartialEq, Eq)]
pub enum Jump {
    Break,
    Continue,
}

/// Phis, then instructions, then perhaps a jump.
#[derive(Debug, Drop)]
pub struct Block {
    pub id: BlockId,
    pub phis: Phis,
    pub instrs: Instrs,
    pub jump: Option<Jump>,
}

/// A block, an if with its two lists, or a loop with its body.
#[derive(Debug, Drop)]
pub enum Node {
    Block(Block),
    If {
        id: IfId,
        cond: ValueId,
        yes: List,
        no: List,
    },
    Loop {
        id: LoopId,
        body: List,
    },
}
