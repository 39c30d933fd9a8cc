//! Why a text is no shader.

ghost use Rattle.std.specs.Prelude.{◌≡◌};
ghost use Rattle.nir_text.specs.declared.fault.TextFault.TheVariants.{OutOfMemory as NoMemory};

use nir_host::OutOfMemory;
use nir_lex::LexFault;
use thiserror::Error;

/// The first fault of a shader text. Each number is a place, in bytes from the start of the text.
#[derive(Clone, Copy, Debug, PartialEq, Eq, Error)]
pub enum TextFault {
    /// The text has no tokens. This comes before every other fault.
    #[error("{0}")]
    Lex(LexFault),
    /// A token that the grammar does not have there.
    #[error("byte {0}: unexpected")]
    Expected(u64),
    /// A word behind `=` that is no opcode and no word of the grammar.
    #[error("byte {0}: unknown opcode")]
    UnknownOp(u64),
    /// The first name or block word that is used and nowhere defined, in a text that is otherwise whole.
    #[error("byte {0}: unknown name")]
    UnknownName(u64),
    /// A name or block word that is defined a second time.
    #[error("byte {0}: named twice")]
    Twice(u64),
    /// The `{` of a list inside 64 others.
    #[error("byte {0}: too deep")]
    TooDeep(u64),
    /// The name of the 16,385th value, the 65th kind of a declaration, or a number of buffers above 16.
    #[error("byte {0}: too many")]
    TooMany(u64),
    /// There was no memory for the shader.
    #[error("out of memory")]
    OutOfMemory,
}

impl From<OutOfMemory> for TextFault {
    ghost from_gives = { λ _ e. e ≡ NoMemory };

    fn from(_no_memory: OutOfMemory) -> TextFault {
        TextFault::OutOfMemory
    }
}
