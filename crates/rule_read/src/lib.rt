//! Rule files: rules with the evidence that they hold, and the weights of opcodes. They are read by the whole grammar
//! (`rule_spelling`), each part exact with the place of its first fault.
#![tactic(auto)]

mod derivation;
mod entry;
mod evidence;
mod file;
mod grown;
mod items;
mod list;
mod number;
mod rule;
mod rule_file;
mod steps;
mod weight;

pub use derivation::{Binding, Bindings, Derivation, DeriveStep, Path};
pub use entry::{Entries, Entry, Line, Lines, Proof, WeightLine, Weights};
pub use file::read_rules;
pub use rule_file::RuleFile;
pub use term_read::RuleFault;
