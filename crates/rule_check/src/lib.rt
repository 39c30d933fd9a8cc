//! Judging the evidence of rules: at each typing of a rule the trial of all cases, a derivation by laws, or a log over the clauses of the
//! rule. What a derivation is, and whether one goes through, is the matter of `law_derive`; the clauses are that of `bit_circuit`, and
//! logs that of `clause_check`.
#![tactic(auto)]

mod cases;
mod evidence;
mod file;
mod meets;
mod refused;
mod values;

pub use cases::{Trial, try_cases};
pub use evidence::refusal_of;
pub use file::{check_file, check_file_skipping, verdicts_are_meant};
pub use refused::{CheckFault, Checked, Refused, RefusedList, RuleCause};
pub use values::Values;
