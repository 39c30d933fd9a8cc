//! Gates bit by bit.

ghost use Rattle.std.specs.Prelude.{◌≡◌, IfOk, OnOk};
ghost use Rattle.circuit_laws.specs.Literals.{Is};
ghost use Rattle.circuit_laws.specs.Blocks.{each, selection};
ghost use Rattle.bit_circuit.specs.Growth.{grown, with_gate};
ghost use Rattle.bit_circuit.specs.Pairs.{gate_by};

use crate::circuit::Circuit;
use crate::literal::Literal;
use crate::word::Word;
use nir_host::{OutOfMemory, Seq};

/// The gate of two literals.
#[derive(Clone, Copy, Debug)]
pub(crate) enum Pairing {
    /// Both are true.
    And,
    /// They differ.
    Xor,
    /// The first where this literal is true, else the second.
    Mux(Literal),
}

/// One gate of two literals.
fn pair(
    circuit: &mut Circuit,
    how: &Pairing,
    x: Literal,
    y: Literal,
) -> Result<Literal, OutOfMemory>
    ensures made { IfOk result (λ made. made ≡ Is circuit.old.next) }
    ensures grown { OnOk result (circuit.new ≡ with_gate circuit.old (gate_by how.now x y)) }
{
    match how {
        Pairing::And => circuit.and(x, y),
        Pairing::Xor => circuit.xor(x, y),
        Pairing::Mux(selector) => circuit.mux(*selector, x, y),
    }
}

/// A gate for each bit that both words have.
pub(crate) fn each(
    circuit: &mut Circuit,
    how: &Pairing,
    xs: &[Literal],
    ys: &[Literal],
) -> Result<Word, OutOfMemory>
    ensures word { IfOk result (λ word. word ≡ (each (gate_by how.now) xs.now ys.now circuit.old.next).word) }
    ensures gates { OnOk result (circuit.new ≡ grown circuit.old (each (gate_by how.now) xs.now ys.now circuit.old.next).gates) }
{
    let mut word = Seq::new(circuit.alloc);
    let count = xs.len().min(ys.len());
    for at in 0..count {
        let made = pair(circuit, how, xs[at], ys[at])?;
        word.push(made)?;
    }
    Ok(word)
}

/// Bit by bit, the first word where the mask has 1, else the second.
pub(crate) fn selection(
    circuit: &mut Circuit,
    mask: &[Literal],
    xs: &[Literal],
    ys: &[Literal],
) -> Result<Word, OutOfMemory>
    ensures word { IfOk result (λ word. word ≡ (selection mask.now xs.now ys.now circuit.old.next).word) }
    ensures gates { OnOk result (circuit.new ≡ grown circuit.old (selection mask.now xs.now ys.now circuit.old.next).gates) }
{
    let mut word = Seq::new(circuit.alloc);
    let count = mask.len().min(xs.len()).min(ys.len());
    for at in 0..count {
        let made = circuit.mux(mask[at], xs[at], ys[at])?;
        word.push(made)?;
    }
    Ok(word)
}
