//! Comparisons.

ghost use Rattle.std.specs.Prelude.{◌≡◌, IfOk, OnOk};
ghost use Rattle.circuit_laws.specs.Literals.{yes};
ghost use Rattle.circuit_laws.specs.Blocks.{less_unsigned, less_signed, equality};
ghost use Rattle.bit_circuit.specs.Growth.{grown};

use crate::circuit::Circuit;
use crate::literal::Literal;
use crate::sum::subtracter;
use crate::word::{Word, filled, top_negated};
use nir_host::OutOfMemory;

/// One bit: whether the first word is less than the second.
pub(crate) fn less_unsigned(
    circuit: &mut Circuit,
    xs: &[Literal],
    ys: &[Literal],
) -> Result<Word, OutOfMemory>
    ensures word { IfOk result (λ word. word ≡ (less_unsigned xs.now ys.now circuit.old.next).word) }
    ensures gates { OnOk result (circuit.new ≡ grown circuit.old (less_unsigned xs.now ys.now circuit.old.next).gates) }
{
    let difference = subtracter(circuit, xs, ys)?;
    filled(circuit.alloc, difference.carry.negated(), 1)
}

/// One bit: whether the first word is less than the second, in their signed reading.
pub(crate) fn less_signed(
    circuit: &mut Circuit,
    xs: &[Literal],
    ys: &[Literal],
) -> Result<Word, OutOfMemory>
    ensures word { IfOk result (λ word. word ≡ (less_signed xs.now ys.now circuit.old.next).word) }
    ensures gates { OnOk result (circuit.new ≡ grown circuit.old (less_signed xs.now ys.now circuit.old.next).gates) }
{
    let xs = top_negated(circuit.alloc, xs)?;
    let ys = top_negated(circuit.alloc, ys)?;
    less_unsigned(circuit, xs.as_slice(), ys.as_slice())
}

/// One bit: whether the words are equal.
pub(crate) fn equality(
    circuit: &mut Circuit,
    xs: &[Literal],
    ys: &[Literal],
) -> Result<Word, OutOfMemory>
    ensures word { IfOk result (λ word. word ≡ (equality xs.now ys.now yes circuit.old.next).word) }
    ensures gates { OnOk result (circuit.new ≡ grown circuit.old (equality xs.now ys.now yes circuit.old.next).gates) }
{
    let mut equal = Literal::yes();
    let count = xs.len().min(ys.len());
    for at in 0..count {
        let differ = circuit.xor(xs[at], ys[at])?;
        equal = circuit.and(equal, differ.negated())?;
    }
    let word = filled(circuit.alloc, equal, 1)?;
    Ok(word)
}
