//! Walks over the tree of a shader: copies of it, with other instructions in the place of one, and the uses of a value.
#![tactic(auto)]

mod copy;
mod parts;
mod use_list;

pub use copy::{copied, with_instrs};
pub use parts::copied_instr;
pub use use_list::{Uses, users};
