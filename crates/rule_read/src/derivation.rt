//! Derivations: steps by laws and calculations that lead from one side of a rule to the other.

use nir_host::{Bytes, Seq};
use rule_term::Term;

/// The way from a term to a part of it: which source to take at each opcode.
pub type Path = Seq<u32>;

/// What a variable of a law stands for.
#[derive(Debug, Drop)]
pub struct Binding {
    pub name: Bytes,
    pub with: Term,
}

/// What the variables of a law stand for that matching does not tell.
pub type Bindings = Seq<Binding>;

/// A step at the part at the end of a path.
#[derive(Debug, Drop)]
pub enum DeriveStep {
    /// The part is a side of the law, and becomes the other side; `rev` takes the law from right to left.
    Apply {
        law: u32,
        path: Path,
        rev: bool,
        bindings: Bindings,
    },
    /// The part becomes a term that has the same value.
    Calc {
        path: Path,
        with: Term,
    },
}

/// The steps, in order.
pub type Derivation = Seq<DeriveStep>;
