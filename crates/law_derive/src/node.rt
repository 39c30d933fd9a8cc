//! Terms at a typing: their nodes in preorder, each with its size.

use nir_ops::{Op, Width};

/// What stands at a node: an opcode over its sources, which stand behind it, a variable, or a word.
#[derive(Clone, Copy, Debug, PartialEq, Eq)]
pub enum Kind {
    App { op: Op },
    Var { var: u32 },
    Lit { word: u64 },
}

/// A node of a term, and the size of its value.
#[derive(Clone, Copy, Debug, PartialEq, Eq)]
pub struct Node {
    pub kind: Kind,
    pub width: Width,
}
