//! Why a rule has no clauses.

ghost use Rattle.std.specs.Prelude.{◌≡◌};
ghost use Rattle.bit_circuit.specs.declared.fault.CircuitFault.TheVariants.{OutOfMemory as NoMemory};

use nir_host::OutOfMemory;
use nir_ops::Op;

/// Why a rule has no clauses at a typing.
#[derive(Clone, Copy, Debug, PartialEq, Eq, Drop)]
pub enum CircuitFault {
    /// The first opcode that has no circuit, in preorder, the search side first.
    NoCircuit(Op),
    /// There was no memory for the clauses.
    OutOfMemory,
}

impl From<OutOfMemory> for CircuitFault {
    ghost from_gives = { λ _ e. e ≡ NoMemory };

    fn from(_no_memory: OutOfMemory) -> CircuitFault {
        CircuitFault::OutOfMemory
    }
}
