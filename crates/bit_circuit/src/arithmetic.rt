//! Words that sums and differences make.

ghost use Rattle.std.specs.Prelude.{◌≡◌, [], ◌∷◌, IfOk, OnOk, length, replicate};
ghost use Rattle.circuit_laws.specs.Literals.{yes, no};
ghost use Rattle.circuit_laws.specs.Blocks.{adder, subtracter, negation, less_unsigned, resized};
ghost use Rattle.circuit_laws.specs.Opcodes.{magnitude, choice_by_carry, none};
ghost use Rattle.bit_circuit.specs.Growth.{grown};

use crate::circuit::Circuit;
use crate::compare::less_unsigned;
use crate::literal::Literal;
use crate::row::{Pairing, each};
use crate::sum::{adder, negation, subtracter};
use crate::word::{Word, filled, resized, top};
use nir_host::OutOfMemory;

/// The sum of two words.
pub(crate) fn sum(
    circuit: &mut Circuit,
    xs: &[Literal],
    ys: &[Literal],
) -> Result<Word, OutOfMemory>
    ensures word { IfOk result (λ word. word ≡ (adder xs.now ys.now no circuit.old.next).word) }
    ensures gates { OnOk result (circuit.new ≡ grown circuit.old (adder xs.now ys.now no circuit.old.next).gates) }
{
    let sum = adder(circuit, xs, ys, Literal::no())?;
    Ok(sum.word)
}

/// The difference of two words.
pub(crate) fn difference(
    circuit: &mut Circuit,
    xs: &[Literal],
    ys: &[Literal],
) -> Result<Word, OutOfMemory>
    ensures word { IfOk result (λ word. word ≡ (subtracter xs.now ys.now circuit.old.next).word) }
    ensures gates { OnOk result (circuit.new ≡ grown circuit.old (subtracter xs.now ys.now circuit.old.next).gates) }
{
    let difference = subtracter(circuit, xs, ys)?;
    Ok(difference.word)
}

/// The negation of a word.
pub(crate) fn negative(circuit: &mut Circuit, xs: &[Literal]) -> Result<Word, OutOfMemory>
    ensures word { IfOk result (λ word. word ≡ (negation xs.now circuit.old.next).word) }
    ensures gates { OnOk result (circuit.new ≡ grown circuit.old (negation xs.now circuit.old.next).gates) }
{
    let minus = negation(circuit, xs)?;
    Ok(minus.word)
}

/// The negation of a word whose signed reading is below 0, and else the word.
pub(crate) fn magnitude(circuit: &mut Circuit, xs: &[Literal]) -> Result<Word, OutOfMemory>
    ensures word { IfOk result (λ word. word ≡ (magnitude xs.now (negation xs.now circuit.old.next) circuit.old.next).word) }
    ensures gates { OnOk result (circuit.new ≡ grown circuit.old (magnitude xs.now (negation xs.now circuit.old.next) circuit.old.next).gates) }
{
    let minus = negation(circuit, xs)?;
    let word = each(circuit, &Pairing::Mux(top(xs)), minus.word.as_slice(), xs)?;
    Ok(word)
}

/// What the sum of two words carries out at its top, in so many bits.
pub(crate) fn carry(
    circuit: &mut Circuit,
    bits: usize,
    xs: &[Literal],
    ys: &[Literal],
) -> Result<Word, OutOfMemory>
    ensures word { IfOk result (λ word. word ≡ resized no bits ((adder xs.now ys.now no circuit.old.next).carry ∷ [])) }
    ensures gates { OnOk result (circuit.new ≡ grown circuit.old (adder xs.now ys.now no circuit.old.next).gates) }
{
    let sum = adder(circuit, xs, ys, Literal::no())?;
    let word = resized(circuit.alloc, Literal::no(), bits, &[sum.carry])?;
    Ok(word)
}

/// Whether the difference of two words borrows at its top, in so many bits.
pub(crate) fn borrow(
    circuit: &mut Circuit,
    bits: usize,
    xs: &[Literal],
    ys: &[Literal],
) -> Result<Word, OutOfMemory>
    ensures word { IfOk result (λ word. word ≡ resized no bits (less_unsigned xs.now ys.now circuit.old.next).word) }
    ensures gates { OnOk result (circuit.new ≡ grown circuit.old (less_unsigned xs.now ys.now circuit.old.next).gates) }
{
    let less = less_unsigned(circuit, xs, ys)?;
    let word = resized(circuit.alloc, Literal::no(), bits, less.as_slice())?;
    Ok(word)
}

/// The sum of two words, and the greatest word where it is too large.
pub(crate) fn saturated_sum(
    circuit: &mut Circuit,
    xs: &[Literal],
    ys: &[Literal],
) -> Result<Word, OutOfMemory>
    ensures word { let sum = adder xs.now ys.now no circuit.old.next in IfOk result (λ word. word ≡ (choice_by_carry sum (replicate (length xs.now) yes) sum.word circuit.old.next).word) }
    ensures gates { let sum = adder xs.now ys.now no circuit.old.next in OnOk result (circuit.new ≡ grown circuit.old (choice_by_carry sum (replicate (length xs.now) yes) sum.word circuit.old.next).gates) }
{
    let sum = adder(circuit, xs, ys, Literal::no())?;
    let greatest = filled(circuit.alloc, Literal::yes(), xs.len())?;
    let word = each(
        circuit,
        &Pairing::Mux(sum.carry),
        greatest.as_slice(),
        sum.word.as_slice(),
    )?;
    Ok(word)
}

/// The difference of two words, and 0 where the second is greater.
pub(crate) fn saturated_difference(
    circuit: &mut Circuit,
    xs: &[Literal],
    ys: &[Literal],
) -> Result<Word, OutOfMemory>
    ensures word { let sum = subtracter xs.now ys.now circuit.old.next in IfOk result (λ word. word ≡ (choice_by_carry sum sum.word (none (length xs.now)) circuit.old.next).word) }
    ensures gates { let sum = subtracter xs.now ys.now circuit.old.next in OnOk result (circuit.new ≡ grown circuit.old (choice_by_carry sum sum.word (none (length xs.now)) circuit.old.next).gates) }
{
    let difference = subtracter(circuit, xs, ys)?;
    let zero = filled(circuit.alloc, Literal::no(), xs.len())?;
    let word = each(
        circuit,
        &Pairing::Mux(difference.carry),
        difference.word.as_slice(),
        zero.as_slice(),
    )?;
    Ok(word)
}
