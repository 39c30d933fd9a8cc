//! The reader of the terms of rule files, by their grammar (`rule_spelling`): where it stands in the text, what it knows of what it
//! read, and its smallest steps, each exact with the place of its first fault. The tokens are pulled one by one, without memory.
#![tactic(auto)]

mod annotated;
mod fault;
mod point;
mod reader;
mod state;
mod suffix;
mod term;

pub use annotated::unquoted;
pub use fault::RuleFault;
pub use point::Point;
pub use reader::Reader;
pub use state::State;
pub use term::{Place, app, expr};
