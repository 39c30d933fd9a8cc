//! Shifts and rotations by the number that a word stands for.

ghost use Rattle.std.specs.Prelude.{◌≡◌, ◌≤◌, IfOk, OnOk, length};
ghost use Rattle.circuit_laws.specs.Blocks.{shifter};
ghost use Rattle.circuit_laws.specs.Opcodes.{moved_by as moved_by_count};
ghost use Rattle.bit_circuit.specs.Growth.{grown};
ghost use Rattle.bit_circuit.specs.Moves.{moved_by};

use crate::circuit::Circuit;
use crate::literal::Literal;
use crate::row::{Pairing, each};
use crate::word::{Move, Word, moved};
use nir_host::{OutOfMemory, Seq};

/// The word moved by each power of two in turn, where the bit of the count is 1.
fn shifter(
    circuit: &mut Circuit,
    how: &Move,
    xs: &[Literal],
    count: &[Literal],
) -> Result<Word, OutOfMemory>
    requires { length count.now ≤ 64 }
    ensures word { IfOk result (λ word. word ≡ (shifter (moved_by how.now) xs.now count.now 0 circuit.old.next).word) }
    ensures gates { OnOk result (circuit.new ≡ grown circuit.old (shifter (moved_by how.now) xs.now count.now 0 circuit.old.next).gates) }
{
    let mut word = Seq::from_slice(circuit.alloc, xs)?;
    for at in 0..count.len() {
        let far = moved(circuit.alloc, how, 1 << at, word.as_slice())?;
        let chosen = each(
            circuit,
            &Pairing::Mux(count[at]),
            far.as_slice(),
            word.as_slice(),
        )?;
        word = chosen;
    }
    Ok(word)
}

/// The word moved by the count modulo its own number of bits, which is a power of two.
pub(crate) fn shift(
    circuit: &mut Circuit,
    how: &Move,
    xs: &[Literal],
    count: &[Literal],
) -> Result<Word, OutOfMemory>
    ensures word { IfOk result (λ word. word ≡ (moved_by_count (moved_by how.now) xs.now count.now circuit.old.next).word) }
    ensures gates { OnOk result (circuit.new ≡ grown circuit.old (moved_by_count (moved_by how.now) xs.now count.now circuit.old.next).gates) }
{
    let places = (xs.len() as u64).trailing_zeros() as usize;
    let kept = count.len().min(places);
    let word = shifter(circuit, how, xs, &count[..kept])?;
    Ok(word)
}
