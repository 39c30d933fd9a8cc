//! The typings of a rule: all bit sizes that its nodes can have together, or why there is no use of them.
#![tactic(auto)]

mod classes;
mod fault;
mod found;
mod grow;
mod infer;
mod options;
mod size_rule;
mod sources;
mod walk;

pub use fault::SizeFault;
pub use grow::Typings;
pub use infer::typings;
