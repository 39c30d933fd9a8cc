//! The reader of shader texts: the shader that a text spells, or the first fault of the text and its place.
#![tactic(auto)]

mod consts;
mod counts;
mod fault;
mod header;
mod instr;
mod kinds;
mod names;
mod naming;
mod opcodes;
mod parts;
mod phi;
mod point;
mod read;
mod reading;
mod sign;
mod sources;
mod swizzle;
mod table;
mod tree;

pub use fault::TextFault;
pub use read::read_shader;
