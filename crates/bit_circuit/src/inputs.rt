//! The words of a rule's variables.

ghost use Rattle.std.specs.Prelude.{◌≡◌, IfOk, OnOk, sum};
ghost use Rattle.circuit_laws.specs.Literals.{variables};
ghost use Rattle.circuit_laws.specs.RuleClauses.{words_from};
ghost use Rattle.bit_circuit.specs.Asking.{with_variables};

use crate::circuit::Circuit;
use crate::terms::Words;
use crate::word::Word;
use nir_host::{OutOfMemory, Seq};

/// A word of so many fresh variables.
fn input(circuit: &mut Circuit, count: u32) -> Result<Word, OutOfMemory>
    ensures word { IfOk result (λ word. word ≡ variables circuit.old.next count) }
    ensures grown { OnOk result (circuit.new ≡ with_variables circuit.old count) }
{
    let mut word = Seq::new(circuit.alloc);
    for _at in 0..count {
        word.push(circuit.variable()?)?;
    }
    Ok(word)
}

/// A word of fresh variables for each of these numbers of bits.
pub(crate) fn inputs(circuit: &mut Circuit, bits: &[u32]) -> Result<Words, OutOfMemory>
    ensures words { IfOk result (λ words. words ≡ words_from circuit.old.next bits.now) }
    ensures grown { OnOk result (circuit.new ≡ with_variables circuit.old (sum bits.now)) }
{
    let mut words = Seq::new(circuit.alloc);
    for count in bits {
        words.push(input(circuit, *count)?)?;
    }
    Ok(words)
}
