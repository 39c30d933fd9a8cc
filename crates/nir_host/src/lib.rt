//! The outside of the optimiser: bytes, sources and sinks, their faults, and the one list type of all crates.
#![tactic(auto)]

mod counted;
mod fault;
mod file;
mod mem_sink;
mod mem_source;
mod memory;
mod reading;
mod seq;
mod sink;
mod source;
mod standard;
mod writing;

pub use fault::{Failed, Which};
pub use file::FileSource;
pub use mem_sink::MemSink;
pub use mem_source::MemSource;
pub use memory::OutOfMemory;
pub use reading::{ReadAllFault, read_all};
pub use seq::{Bytes, Seq};
pub use sink::Sink;
pub use source::Source;
pub use standard::{StderrSink, StdinSource, StdoutSink};
pub use writing::{WriteFault, write_all};
