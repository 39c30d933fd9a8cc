//! The words with which a shader is optimised: a rule file, a limit on rewrites, options, and two wishes.
#![tactic(auto)]

mod words;

pub use words::{RunWords, is_rules_alone, run_words};
