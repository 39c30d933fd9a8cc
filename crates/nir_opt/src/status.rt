//! How a run ends, and the report of it.

ghost use Rattle.std.specs.Prelude.{◌≡◌};
ghost use Rattle.nir_opt.specs.Answers.{number_of, place_of};

use crate::faults::rule_fault_place;
use nir_host::Which;
use nir_ir::Journal;
use nir_mean::fault_place;
use nir_text::TextFault;
use rule_check::Refused;
use rule_read::RuleFault;

/// How a run ended. The numbers, the causes and the lines are in `docs/COMMANDS.md`.
#[derive(Debug, Drop)]
pub enum Status {
    /// The whole text was taken.
    Ok,
    /// The words have no reading.
    Usage,
    /// A fault of that source was counted.
    ReadFault(Which),
    /// A fault of the output was counted; it took a front of the text.
    WriteFault,
    /// The rule text is not in the grammar: its first fault, which is never want of memory.
    RulesSyntax(RuleFault),
    /// The rule is not accepted; it is the first of its file that is not.
    RuleRefused(Refused),
    /// The shader text is not in the grammar: its first fault, which is never want of memory.
    ShaderSyntax(TextFault),
    /// The shader is not valid: the first rule that it breaks, and the item that breaks it, as `docs/SHADERS.md` counts them.
    ShaderInvalid { rule: u8, item: u64 },
    /// That source has more bytes than are read.
    TooLong(Which),
    /// There was no memory.
    OutOfMemory,
}

impl Status {
    /// The number with which the program ends.
    pub fn number(&self) -> u8
        ensures { result ≡ number_of self.now }
    {
        match self {
            Status::Ok => 0,
            Status::Usage => 2,
            Status::ReadFault(_) => 3,
            Status::WriteFault => 4,
            Status::RulesSyntax(_) => 5,
            Status::RuleRefused(_) => 6,
            Status::ShaderSyntax(_) => 7,
            Status::ShaderInvalid { .. } => 8,
            Status::TooLong(_) => 9,
            Status::OutOfMemory => 10,
        }
    }

    /// The place of a syntax fault, in bytes from the start of its text; 0 for every other status.
    pub fn place(&self) -> u64
        ensures { result ≡ place_of self.now }
    {
        match self {
            Status::RulesSyntax(fault) => rule_fault_place(fault),
            Status::ShaderSyntax(fault) => fault_place(fault),
            Status::Ok
            | Status::Usage
            | Status::ReadFault(_)
            | Status::WriteFault
            | Status::RuleRefused(_)
            | Status::ShaderInvalid { .. }
            | Status::TooLong(_)
            | Status::OutOfMemory => 0,
        }
    }
}

/// What a run did: how it ended, the steps in order, how many of them were rewrites, the limit on
/// rewrites, whether the limit stopped it, and the place of a syntax fault, else 0.
#[derive(Debug, Drop)]
pub struct Report {
    pub status: Status,
    pub journal: Journal,
    pub rewrites: u64,
    pub limit: u64,
    pub stopped: bool,
    pub place: u64,
}
