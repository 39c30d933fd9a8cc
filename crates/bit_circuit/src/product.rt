//! Products.

ghost use Rattle.std.specs.Prelude.{◌≡◌, IfOk, OnOk, length};
ghost use Rattle.circuit_laws.specs.Blocks.{product};
ghost use Rattle.circuit_laws.specs.Opcodes.{none};
ghost use Rattle.bit_circuit.specs.Growth.{grown};
ghost use Rattle.bit_circuit.specs.Partial.{with_part};

use crate::circuit::Circuit;
use crate::literal::Literal;
use crate::row::{Pairing, each};
use crate::sum::adder;
use crate::word::{Word, filled, joined};
use nir_host::OutOfMemory;

/// The sum and the product of the word with one bit of the other, at its place.
fn with_part(
    circuit: &mut Circuit,
    xs: &[Literal],
    bit: Literal,
    place: usize,
    sum: &[Literal],
) -> Result<Word, OutOfMemory>
    ensures word { IfOk result (λ word. word ≡ (with_part xs.now bit place sum.now circuit.old.next).word) }
    ensures gates { OnOk result (circuit.new ≡ grown circuit.old (with_part xs.now bit place sum.now circuit.old.next).gates) }
{
    let kept = xs.len().saturating_sub(place);
    let bits = filled(circuit.alloc, bit, kept)?;
    let part = each(circuit, &Pairing::And, &xs[..kept], bits.as_slice())?;
    let below = filled(circuit.alloc, Literal::no(), place)?;
    let added = joined(circuit.alloc, below.as_slice(), part.as_slice())?;
    let more = adder(circuit, sum, added.as_slice(), Literal::no())?;
    Ok(more.word)
}

/// The product of two words, cut to the bits of the first.
pub(crate) fn product(
    circuit: &mut Circuit,
    xs: &[Literal],
    ys: &[Literal],
) -> Result<Word, OutOfMemory>
    ensures word { IfOk result (λ word. word ≡ (product xs.now ys.now 0 (none (length xs.now)) circuit.old.next).word) }
    ensures gates { OnOk result (circuit.new ≡ grown circuit.old (product xs.now ys.now 0 (none (length xs.now)) circuit.old.next).gates) }
{
    let mut sum = filled(circuit.alloc, Literal::no(), xs.len())?;
    for at in 0..ys.len() {
        let more = with_part(circuit, xs, ys[at], at, sum.as_slice())?;
        sum = more;
    }
    Ok(sum)
}
