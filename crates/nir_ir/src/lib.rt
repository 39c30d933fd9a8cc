//! Shaders: declarations, and a tree of lists of blocks, ifs and loops.
#![tactic(auto)]

mod find;
mod ids;
mod instr;
mod journal;
mod kind;
mod lists;
mod node;
mod shader;

pub use ids::{BlockId, EffectId, IfId, LoopId, ValueId};
pub use instr::{Instr, Src};
pub use journal::{Journal, Step, Use};
pub use kind::{Kind, Kinds};
pub use lists::{Comps, Srcs, Swizzle};
pub use node::{Block, Instrs, Jump, List, Node, Phi, PhiSource, PhiSources, Phis};
pub use shader::Shader;
