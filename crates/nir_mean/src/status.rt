//! How running a shader ends.

ghost use Rattle.std.specs.Prelude.{◌≡◌};
ghost use Rattle.nir_mean.specs.EvalAnswers.{number_of};

use nir_host::Which;
use nir_text::TextFault;

/// How a run of a shader ended. The numbers, the causes and the lines are in `docs/COMMANDS.md`.
#[derive(Clone, Copy, Debug, PartialEq, Eq)]
pub enum Status {
    /// The whole text of the outcome was taken.
    Ok,
    /// The words have no reading.
    Usage,
    /// A fault of the source was counted.
    ReadFault(Which),
    /// A fault of the output was counted; it took a front of the text.
    WriteFault,
    /// The text is not in the grammar.
    ShaderSyntax(TextFault),
    /// The shader breaks this rule at this item.
    ShaderInvalid { rule: u8, item: u64 },
    /// The inputs or the buffers of the words do not fit the shader.
    Misfit,
    /// More bytes came than are read.
    TooLong(Which),
    /// There was no memory.
    OutOfMemory,
}

impl Status {
    /// The number with which the program ends.
    pub fn number(&self) -> u8
        ensures { result ≡ number_of self.now }
    {
        match self {
            Status::Ok => 0,
            Status::Usage => 2,
            Status::ReadFault(_) => 3,
            Status::WriteFault => 4,
            Status::ShaderSyntax(_) => 7,
            Status::ShaderInvalid { .. } => 8,
            Status::TooLong(_) => 9,
            Status::OutOfMemory => 10,
            Status::Misfit => 11,
        }
    }
}
