//! Clauses and logs of derived clauses (clausal proofs of unsatisfiability, as those of SAT solvers), and the check of a log.
#![tactic(auto)]

mod check;
mod clause;
mod fault;
mod literals;
mod marks;
mod step;

pub use check::check_log;
pub use clause::{Clauses, Hints, Log, LogStep};
pub use fault::LogFault;
pub use literals::Lits;
