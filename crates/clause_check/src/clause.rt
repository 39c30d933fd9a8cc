//! Lists of clauses, and logs that derive clauses from them.

use crate::literals::Lits;
use nir_host::Seq;

/// Clauses, each of which asks for one true literal.
pub type Clauses = Seq<Lits>;

/// Numbers of clauses, the first of which is 1.
pub type Hints = Seq<u32>;

/// A clause, and the numbers of the clauses from which it follows.
#[derive(Debug, Drop)]
pub struct LogStep {
    pub clause: Lits,
    pub hints: Hints,
}

/// The steps of a log, in order.
pub type Log = Seq<LogStep>;
