//! Why a text has no tokens.

use thiserror::Error;

/// The first place at which the rules of tokens fail, in bytes from the start of the text.
#[derive(Clone, Copy, Debug, PartialEq, Eq, Error)]
pub enum LexFault {
    /// A byte that no token can have there, or the text's end inside quotes.
    #[error("byte {0}: bad byte")]
    BadByte(u64),
    /// A number that is too wide, that a letter or `_` follows, or that has no digits behind `0x`,
    /// at its first byte.
    #[error("byte {0}: bad number")]
    BadNumber(u64),
    /// There was no memory for the tokens.
    #[error("out of memory")]
    OutOfMemory,
}
