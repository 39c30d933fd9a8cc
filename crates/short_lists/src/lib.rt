//! Short lists that lie in the value itself: of a fixed most items, or with more in memory of their own. Contracts see the list.
#![tactic(auto)]

mod short;
mod spilling;

pub use short::Short;
pub use spilling::Spilling;
