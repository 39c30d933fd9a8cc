//! Why a derivation shows nothing.

ghost use Rattle.std.specs.Prelude.{◌≡◌};
ghost use Rattle.law_derive.specs.declared.fault.DeriveFault.TheVariants.{OutOfMemory as NoMemory};
ghost use Rattle.law_derive.specs.Derivations.{fault_at};

use nir_host::OutOfMemory;

/// The first step that does not apply, by its number from 0 on, and why; or that all apply and lead elsewhere.
#[derive(Clone, Copy, Debug, PartialEq, Eq, Drop)]
pub enum DeriveFault {
    /// No law has the number.
    NoLaw(u64),
    /// The path leads to no part of the term.
    BadPath(u64),
    /// The law does not match the part, or its bindings are not those that it asks for; or the calculation has another value.
    NoMatch(u64),
    /// The law asks for a condition that nothing shows.
    CondMissing(u64),
    /// The last term is not the replacement.
    WrongEnd,
    /// There was no memory for a term.
    OutOfMemory,
}

/// Why a step does not apply.
#[derive(Clone, Copy, Debug, PartialEq, Eq)]
pub enum StepFault {
    /// No law has the number.
    NoLaw,
    /// The path leads to no part of the term.
    BadPath,
    /// The law does not match the part, or its bindings are not those that it asks for; or the calculation has another value.
    NoMatch,
    /// The law asks for a condition that nothing shows.
    CondMissing,
}

impl StepFault {
    /// The fault of a derivation whose step of this number does not apply.
    pub(crate) fn at_step(self, number: u64) -> DeriveFault
        ensures { result ≡ fault_at number self }
    {
        match self {
            StepFault::NoLaw => DeriveFault::NoLaw(number),
            StepFault::BadPath => DeriveFault::BadPath(number),
            StepFault::NoMatch => DeriveFault::NoMatch(number),
            StepFault::CondMissing => DeriveFault::CondMissing(number),
        }
    }
}

impl From<OutOfMemory> for DeriveFault {
    ghost from_gives = { λ _ e. e ≡ NoMemory };

    fn from(_no_memory: OutOfMemory) -> DeriveFault {
        DeriveFault::OutOfMemory
    }
}
