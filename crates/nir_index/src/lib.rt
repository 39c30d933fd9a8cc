//! A shader with an index: what defines a value and how often it is used are known without a walk through the tree.
#![tactic(auto)]

mod exchange;
mod index;
mod indexed;

pub use indexed::Indexed;
