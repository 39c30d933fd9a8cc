//! The words with which a shader is run: how often its loops may go back, its inputs and its buffers.
#![tactic(auto)]

mod numbers;
mod words;

pub use numbers::decimal;
pub use words::{EvalWords, Said, eval_words, have_reading};
