//! How a call ends.

ghost use Rattle.std.specs.Prelude.{◌≡◌};
ghost use Rattle.rule_clauses.specs.Answers.{number_of};

use nir_ops::Op;
use rule_read::RuleFault;
use size_infer::SizeFault;

/// How a call ended. Rules and typings have their numbers from 0.
#[derive(Clone, Copy, Debug, Drop)]
pub enum Status {
    /// The whole text was taken.
    Ok,
    /// The words have no reading.
    Usage,
    /// A fault of the rules was counted.
    ReadFault,
    /// A fault of the output was counted; it took a front of the text.
    WriteFault,
    /// The rule text is not in the grammar: its first fault, which is never want of memory.
    RulesSyntax(RuleFault),
    /// There are more bytes of rules than are read.
    TooLong,
    /// There was no memory.
    OutOfMemory,
    /// The file has no rule of this number.
    NoRule(u32),
    /// The sizes of the rule are of no use: their fault, which is never want of memory.
    NoSizes { rule: u32, fault: SizeFault },
    /// The rule has no typing of this number.
    NoTyping { rule: u32, typing: u32 },
    /// The first opcode of the rule that has no circuit, in preorder, the search side first.
    NoCircuit { rule: u32, op: Op },
}

impl Status {
    /// The number with which the program ends.
    pub fn number(&self) -> u8
        ensures { result ≡ number_of self.now }
    {
        match self {
            Status::Ok => 0,
            Status::Usage => 2,
            Status::ReadFault => 3,
            Status::WriteFault => 4,
            Status::RulesSyntax(_) => 5,
            Status::TooLong => 9,
            Status::OutOfMemory => 10,
            Status::NoRule(_) => 20,
            Status::NoSizes { .. } => 21,
            Status::NoTyping { .. } => 22,
            Status::NoCircuit { .. } => 23,
        }
    }
}
