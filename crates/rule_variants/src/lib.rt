//! The variants of a rule: how many there are, which sources stand swapped, and their search sides as terms.
#![tactic(auto)]

mod bits;
mod copy;
mod count;
mod law;
mod list;

pub use bits::{bits_left, is_swapped};
pub use count::variant_count;
pub use law::variants_are_sides;
pub use list::{Variants, variants};
