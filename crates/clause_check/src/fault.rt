//! Why a log shows nothing.

ghost use Rattle.std.specs.Prelude.{◌≡◌};
ghost use Rattle.clause_check.specs.declared.fault.LogFault.TheVariants.{OutOfMemory as NoMemory};

use nir_host::OutOfMemory;

/// Why a log does not show that no assignment makes all clauses true. Steps are numbered from 0 on.
#[derive(Clone, Copy, Debug, PartialEq, Eq, Drop)]
pub enum LogFault {
    /// The log has more steps than a log may have.
    TooLong,
    /// A hint of the step is the number of no clause before it.
    BadHint(u64),
    /// The clause of the step does not follow by its hints.
    NotUnit(u64),
    /// All steps end well, and none has the empty clause.
    NoEmpty,
    /// There was no memory for the assignment.
    OutOfMemory,
}

impl From<OutOfMemory> for LogFault {
    ghost from_gives = { λ _ e. e ≡ NoMemory };

    fn from(_no_memory: OutOfMemory) -> LogFault {
        LogFault::OutOfMemory
    }
}
