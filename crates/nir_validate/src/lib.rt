//! Whether a shader is valid, or the first rule that it breaks and where.
#![tactic(auto)]

mod edge_table;
mod fault;
mod first;
mod kinds;
mod laws;
mod order;
mod phis;
mod round;
mod rules;
mod scope;
mod second;
mod verdict;
mod way;

pub use fault::ValidateFault;
pub use laws::{sets_only_grow, valid_shaders_are_typed, valid_where_no_rule_is_broken};
pub use verdict::validate;
