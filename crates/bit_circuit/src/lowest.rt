//! The place of the lowest 1.

ghost use Rattle.std.specs.Prelude.{◌≡◌, IfOk, OnOk};
ghost use Rattle.circuit_laws.specs.Blocks.{lowest_place};
ghost use Rattle.bit_circuit.specs.Growth.{grown};

use crate::circuit::Circuit;
use crate::literal::Literal;
use crate::row::{Pairing, each};
use crate::word::{Word, constant, filled};
use nir_host::OutOfMemory;

/// The place of the lowest 1 in 32 bits, and -1 where there is none.
pub(crate) fn lowest_place(circuit: &mut Circuit, xs: &[Literal]) -> Result<Word, OutOfMemory>
    ensures word { IfOk result (λ word. word ≡ (lowest_place xs.now 0 circuit.old.next).word) }
    ensures gates { OnOk result (circuit.new ≡ grown circuit.old (lowest_place xs.now 0 circuit.old.next).gates) }
{
    let mut word = filled(circuit.alloc, Literal::yes(), 32)?;
    let mut at = xs.len();
    'places: while at > 0 {
        at -= 1;
        let place = constant(circuit.alloc, 32, at as u64)?;
        let chosen = each(
            circuit,
            &Pairing::Mux(xs[at]),
            place.as_slice(),
            word.as_slice(),
        )?;
        word = chosen;
    }
    Ok(word)
}
