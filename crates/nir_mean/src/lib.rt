//! What a shader means, and its evaluation.
#![tactic(auto)]

mod alu;
mod bytes;
mod command;
mod evaluation;
mod faults;
mod fits;
mod frames;
mod given;
mod lines;
mod machine;
mod outcome;
mod phis;
mod run;
mod shader_lines;
mod shader_text;
mod start;
mod status;
mod table;
mod view;
mod world;

pub use command::run_shader;
pub use eval_words::{EvalWords, Said, eval_words, have_reading};
pub use evaluation::evaluate;
pub use faults::{fault_place, fault_what, is_of_text};
pub use outcome::{Buffers, Ending, Inputs, Outcome, Outputs, Stored, Stores};
pub use shader_lines::{invalid_line, syntax_line};
pub use shader_text::{ShaderRefusal, read_shader_bytes, read_valid, valid_shader};
pub use status::Status;
