//! Why a text is no rule file.

ghost use Rattle.std.specs.Prelude.{◌≡◌};
ghost use Rattle.term_read.specs.declared.fault.RuleFault.TheVariants.{OutOfMemory as NoMemory};

use nir_host::OutOfMemory;
use nir_lex::LexFault;
use thiserror::Error;

/// The first fault of a rule file. Each number is a place: that of the fault's token, in bytes from
/// the start of the text.
#[derive(Clone, Copy, Debug, PartialEq, Eq, Error)]
pub enum RuleFault {
    /// The text has no tokens. This comes before every other fault, and is never for want of memory.
    #[error("{0}")]
    Lex(LexFault),
    /// A token that the grammar does not have there.
    #[error("byte {0}: unexpected")]
    Expected(u64),
    /// A word in the place of an opcode that names none.
    #[error("byte {0}: unknown opcode")]
    UnknownOp(u64),
    /// The `)` of an opcode that has not as many sources as it takes.
    #[error("byte {0}: wrong number of sources")]
    Arity(u64),
    /// A variable of a replacement or of evidence that the search side does not have.
    #[error("byte {0}: unbound variable")]
    Unbound(u64),
    /// The `(` of the 4,097th rule, the 17th opcode of a side or of an expression in evidence, the
    /// 17th variable, or the `)` of the rule with which all have more than 65,536 variants.
    #[error("byte {0}: too large")]
    TooLarge(u64),
    /// The quote that opens a third part which is no formula over options, or has more than 256 bytes.
    #[error("byte {0}: bad option")]
    BadOption(u64),
    /// An opcode that no rule may have, or a quoted text with `~`, `!` or the word of a type.
    #[error("byte {0}: excluded")]
    Excluded(u64),
    /// A weight that is not from 0 to 60, or a word that is mov or was weighed before.
    #[error("byte {0}: bad weight")]
    Weight(u64),
    /// There was no memory for what was read.
    #[error("out of memory")]
    OutOfMemory,
}

impl From<OutOfMemory> for RuleFault {
    ghost from_gives = { λ _ e. e ≡ NoMemory };

    fn from(_no_memory: OutOfMemory) -> RuleFault {
        RuleFault::OutOfMemory
    }
}
