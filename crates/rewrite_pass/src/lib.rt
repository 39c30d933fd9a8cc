//! The step by a rule: what a rule found is replaced, until no rule is left to find anything.
#![tactic(auto)]

mod build;
mod rewrite;
mod rounds;

pub use rewrite::rewrite_at;
pub use rounds::{is_settled, rewrite_all};
