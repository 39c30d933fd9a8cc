//! That the shader which a printed text denotes, the one in text order, is valid and means the same as the
//! shader that was printed.
#![tactic(auto)]

mod meaning;
mod validity;

pub use meaning::renumbering_keeps_meaning;
pub use validity::{renumbering_keeps_shape, renumbering_keeps_validity};
