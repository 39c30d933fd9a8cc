//! Negated tests, and words that are chosen by a test.

ghost use Rattle.std.specs.Prelude.{◌≡◌, IfOk, OnOk};
ghost use Rattle.circuit_laws.specs.Literals.{yes};
ghost use Rattle.circuit_laws.specs.Blocks.{and_word, choice, equality, flipped, less_signed, less_unsigned, top};
ghost use Rattle.circuit_laws.specs.Opcodes.{choice_by, inverse};
ghost use Rattle.bit_circuit.specs.Growth.{grown};

use crate::circuit::Circuit;
use crate::compare::{equality, less_signed, less_unsigned};
use crate::literal::Literal;
use crate::row::{Pairing, each};
use crate::word::{Word, flipped, top};
use nir_host::OutOfMemory;

/// Bit by bit, whether one of the words has 1.
pub(crate) fn either(
    circuit: &mut Circuit,
    xs: &[Literal],
    ys: &[Literal],
) -> Result<Word, OutOfMemory>
    ensures word { IfOk result (λ word. word ≡ (inverse (and_word (flipped xs.now) (flipped ys.now) circuit.old.next)).word) }
    ensures gates { OnOk result (circuit.new ≡ grown circuit.old (inverse (and_word (flipped xs.now) (flipped ys.now) circuit.old.next)).gates) }
{
    let xs = flipped(circuit.alloc, xs)?;
    let ys = flipped(circuit.alloc, ys)?;
    let none = each(circuit, &Pairing::And, xs.as_slice(), ys.as_slice())?;
    let word = flipped(circuit.alloc, none.as_slice())?;
    Ok(word)
}

/// Whether the first word is not less than the second, in their signed reading.
pub(crate) fn not_less_signed(
    circuit: &mut Circuit,
    xs: &[Literal],
    ys: &[Literal],
) -> Result<Word, OutOfMemory>
    ensures word { IfOk result (λ word. word ≡ (inverse (less_signed xs.now ys.now circuit.old.next)).word) }
    ensures gates { OnOk result (circuit.new ≡ grown circuit.old (inverse (less_signed xs.now ys.now circuit.old.next)).gates) }
{
    let test = less_signed(circuit, xs, ys)?;
    let word = flipped(circuit.alloc, test.as_slice())?;
    Ok(word)
}

/// Whether the first word is not less than the second.
pub(crate) fn not_less_unsigned(
    circuit: &mut Circuit,
    xs: &[Literal],
    ys: &[Literal],
) -> Result<Word, OutOfMemory>
    ensures word { IfOk result (λ word. word ≡ (inverse (less_unsigned xs.now ys.now circuit.old.next)).word) }
    ensures gates { OnOk result (circuit.new ≡ grown circuit.old (inverse (less_unsigned xs.now ys.now circuit.old.next)).gates) }
{
    let test = less_unsigned(circuit, xs, ys)?;
    let word = flipped(circuit.alloc, test.as_slice())?;
    Ok(word)
}

/// Whether the words differ.
pub(crate) fn unequal(
    circuit: &mut Circuit,
    xs: &[Literal],
    ys: &[Literal],
) -> Result<Word, OutOfMemory>
    ensures word { IfOk result (λ word. word ≡ (inverse (equality xs.now ys.now yes circuit.old.next)).word) }
    ensures gates { OnOk result (circuit.new ≡ grown circuit.old (inverse (equality xs.now ys.now yes circuit.old.next)).gates) }
{
    let test = equality(circuit, xs, ys)?;
    let word = flipped(circuit.alloc, test.as_slice())?;
    Ok(word)
}

/// The first word where the test is true, else the second.
pub(crate) fn choice(
    circuit: &mut Circuit,
    test: &[Literal],
    xs: &[Literal],
    ys: &[Literal],
) -> Result<Word, OutOfMemory>
    ensures word { IfOk result (λ word. word ≡ (choice (top test.now) xs.now ys.now circuit.old.next).word) }
    ensures gates { OnOk result (circuit.new ≡ grown circuit.old (choice (top test.now) xs.now ys.now circuit.old.next).gates) }
{
    let selector = top(test);
    let word = each(circuit, &Pairing::Mux(selector), xs, ys)?;
    Ok(word)
}

/// One of two words: the first where the word is less than the other, in their signed reading.
pub(crate) fn by_less_signed(
    circuit: &mut Circuit,
    xs: &[Literal],
    ys: &[Literal],
    first: &[Literal],
    second: &[Literal],
) -> Result<Word, OutOfMemory>
    ensures word { IfOk result (λ word. word ≡ (choice_by (less_signed xs.now ys.now circuit.old.next) first.now second.now circuit.old.next).word) }
    ensures gates { OnOk result (circuit.new ≡ grown circuit.old (choice_by (less_signed xs.now ys.now circuit.old.next) first.now second.now circuit.old.next).gates) }
{
    let test = less_signed(circuit, xs, ys)?;
    let word = choice(circuit, test.as_slice(), first, second)?;
    Ok(word)
}

/// One of two words: the first where the word is less than the other.
pub(crate) fn by_less_unsigned(
    circuit: &mut Circuit,
    xs: &[Literal],
    ys: &[Literal],
    first: &[Literal],
    second: &[Literal],
) -> Result<Word, OutOfMemory>
    ensures word { IfOk result (λ word. word ≡ (choice_by (less_unsigned xs.now ys.now circuit.old.next) first.now second.now circuit.old.next).word) }
    ensures gates { OnOk result (circuit.new ≡ grown circuit.old (choice_by (less_unsigned xs.now ys.now circuit.old.next) first.now second.now circuit.old.next).gates) }
{
    let test = less_unsigned(circuit, xs, ys)?;
    let word = choice(circuit, test.as_slice(), first, second)?;
    Ok(word)
}
