//! The short lists of an instruction.

use crate::instr::Src;
use short_lists::{Short, Spilling};

/// Which component of a value stands in each place of a source, at most 16 entries.
pub type Swizzle = Short<u8, 16>;

/// The sources of an ALU instruction.
pub type Srcs = Spilling<Src, 4>;

/// The components of a const, or of what a store wrote, each below 2^width.
pub type Comps = Spilling<u64, 4>;
