//! Why a rule is not accepted.

ghost use Rattle.std.specs.Prelude.{◌≡◌};
ghost use Rattle.rule_check.specs.declared.refused.CheckFault.TheVariants.{OutOfMemory as NoMemory};

use crate::values::Values;
use clause_check::LogFault;
use law_derive::DeriveFault;
use nir_host::{OutOfMemory, Seq};
use nir_ops::Op;
use rule_term::Table;
use size_infer::SizeFault;

/// What is wrong with a rule or with its evidence.
#[derive(Debug, Drop)]
pub enum RuleCause {
    /// The sizes of the rule are of no use. Want of memory never stands here.
    Size(SizeFault),
    /// No line of evidence is for the typing.
    NoEvidence,
    /// All cases were tried, and these are the first values at which the sides differ.
    Cases(Values),
    /// All cases were to be tried, and the variables have more than 16 bits.
    TooManyCases,
    /// The evidence is a log, and this is the first opcode without a circuit, in preorder, the search side first. What the log
    /// holds plays no part then.
    NoCircuit(Op),
    /// The evidence is a log: the first step that fails, and why, or that the log is too long or has no empty clause. Want of
    /// memory never stands here.
    Log(LogFault),
    /// The evidence is a derivation: the first step that does not apply, and why, or that it ends elsewhere. Want of memory
    /// never stands here.
    Derive(DeriveFault),
}

/// A rule that is not accepted: its number, the number of the first typing without good evidence, and why. There is no
/// typing where the cause is in the sizes.
#[derive(Debug, Drop)]
pub struct Refused {
    pub rule: u32,
    pub typing: Option<u32>,
    pub cause: RuleCause,
}

/// Rules that are not accepted, in order.
pub type RefusedList = Seq<Refused>;

/// The rules of a file that are accepted, and those that are not.
#[derive(Debug, Drop)]
pub struct Checked {
    pub table: Table,
    pub refused: RefusedList,
}

/// Why a rule file gives no table.
#[derive(Debug, Drop)]
pub enum CheckFault {
    /// A rule is not accepted.
    Refused(Refused),
    /// There was no memory for a typing or for the table.
    OutOfMemory,
}

impl From<OutOfMemory> for CheckFault {
    ghost from_gives = { λ _ e. e ≡ NoMemory };

    fn from(_no_memory: OutOfMemory) -> CheckFault {
        CheckFault::OutOfMemory
    }
}
