//! Opcodes and the bit sizes at which they work.
#![tactic(auto)]

mod lookup;
mod op;
mod props;
mod row;
mod table;
mod width;

pub use lookup::{names_are_distinct, op_by_bytes, op_by_name};
pub use op::Op;
pub use props::Props;
pub use row::{Base, Inputs, OpInfo, OpInput, OpType};
pub use table::{allowed, info, name};
pub use width::Width;
