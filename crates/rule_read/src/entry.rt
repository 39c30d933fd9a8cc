//! What stands in a rule file: rules with their evidence, and weights.

use crate::derivation::Derivation;
use clause_check::Log;
use nir_host::Seq;
use nir_ops::Op;
use rule_term::Rule;

/// How it is shown that a rule holds at a typing.
#[derive(Debug, Drop)]
pub enum Proof {
    /// All values are tried.
    Cases,
    /// One side is derived from the other.
    Derive(Derivation),
    /// No assignment makes the clauses true that say that the sides differ.
    Logged(Log),
}

/// A line of evidence: for the typing of this number, or for all.
#[derive(Debug, Drop)]
pub struct Line {
    pub typing: Option<u32>,
    pub proof: Proof,
}

/// Lines of evidence, in order.
pub type Lines = Seq<Line>;

/// A rule with its evidence.
#[derive(Debug, Drop)]
pub struct Entry {
    pub rule: Rule,
    pub lines: Lines,
}

/// Rules with their evidence, in order.
pub type Entries = Seq<Entry>;

/// How much an opcode weighs.
#[derive(Clone, Copy, Debug, PartialEq, Eq)]
pub struct WeightLine {
    pub op: Op,
    pub weight: u8,
}

/// Weights of opcodes.
pub type Weights = Seq<WeightLine>;
