//! Sums and differences.

ghost use Rattle.std.specs.Prelude.{◌≡◌, IfOk, OnOk};
ghost use Rattle.circuit_laws.specs.Blocks.{adder, subtracter, negation};
ghost use Rattle.bit_circuit.specs.Growth.{grown};

use crate::circuit::Circuit;
use crate::literal::Literal;
use crate::word::{Word, filled, flipped};
use nir_host::{OutOfMemory, Seq};

/// The word of a sum, and what is carried out at its top.
#[derive(Debug, Drop)]
pub(crate) struct Sum {
    pub(crate) word: Word,
    pub(crate) carry: Literal,
}

/// The sum of two words and a carry, bit by bit from the lowest one on.
pub(crate) fn adder(
    circuit: &mut Circuit,
    xs: &[Literal],
    ys: &[Literal],
    carry: Literal,
) -> Result<Sum, OutOfMemory>
    ensures word { IfOk result (λ sum. sum.word ≡ (adder xs.now ys.now carry circuit.old.next).word) }
    ensures carry { IfOk result (λ sum. sum.carry ≡ (adder xs.now ys.now carry circuit.old.next).carry) }
    ensures gates { OnOk result (circuit.new ≡ grown circuit.old (adder xs.now ys.now carry circuit.old.next).gates) }
{
    let mut word = Seq::new(circuit.alloc);
    let mut carried = carry;
    let count = xs.len().min(ys.len());
    for at in 0..count {
        let x = xs[at];
        let differ = circuit.xor(x, ys[at])?;
        let bit = circuit.xor(differ, carried)?;
        word.push(bit)?;
        carried = circuit.mux(differ, carried, x)?;
    }
    Ok(Sum {
        word,
        carry: carried,
    })
}

/// The difference of two words. The carry is true where the second is not greater.
pub(crate) fn subtracter(
    circuit: &mut Circuit,
    xs: &[Literal],
    ys: &[Literal],
) -> Result<Sum, OutOfMemory>
    ensures word { IfOk result (λ sum. sum.word ≡ (subtracter xs.now ys.now circuit.old.next).word) }
    ensures carry { IfOk result (λ sum. sum.carry ≡ (subtracter xs.now ys.now circuit.old.next).carry) }
    ensures gates { OnOk result (circuit.new ≡ grown circuit.old (subtracter xs.now ys.now circuit.old.next).gates) }
{
    let negated = flipped(circuit.alloc, ys)?;
    adder(circuit, xs, negated.as_slice(), Literal::yes())
}

/// The negation of a word.
pub(crate) fn negation(circuit: &mut Circuit, xs: &[Literal]) -> Result<Sum, OutOfMemory>
    ensures word { IfOk result (λ sum. sum.word ≡ (negation xs.now circuit.old.next).word) }
    ensures carry { IfOk result (λ sum. sum.carry ≡ (negation xs.now circuit.old.next).carry) }
    ensures gates { OnOk result (circuit.new ≡ grown circuit.old (negation xs.now circuit.old.next).gates) }
{
    let negated = flipped(circuit.alloc, xs)?;
    let zero = filled(circuit.alloc, Literal::no(), xs.len())?;
    adder(circuit, negated.as_slice(), zero.as_slice(), Literal::yes())
}
