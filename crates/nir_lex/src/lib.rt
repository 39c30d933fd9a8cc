//! The tokens of shader texts and of rule files, or the first place at which a text is none.
#![tactic(auto)]

mod class;
mod fault;
mod lexer;
mod number;
mod piece;
mod pull;
mod token;

pub use class::is_word;
pub use fault::LexFault;
pub use lexer::{blanks_are_passed, spelled_is_read, tokens, tokens_are_in_order};
pub use pull::{first_fault, token_from, tokens_are_from_start};
pub use token::{Token, TokenKind, Tokens};
