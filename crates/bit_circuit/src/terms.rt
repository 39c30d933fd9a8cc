//! The circuits of terms: each node behind its sources, a part that stands twice built twice.

ghost use Rattle.std.specs.Prelude.{◌≡◌, ◌≤◌, ◌+◌, [], ◌∷◌, length, IfOk, OnOk};
ghost use Rattle.std.proofs.Common.{drop};
ghost use Rattle.rule_term.specs.Terms.{terms_of};
ghost use Rattle.rule_term.specs.Typings.{size_of};
ghost use Rattle.nir_ops.specs.Width.{width_bits};
ghost use Rattle.op_eval.specs.Word.{residue};
ghost use Rattle.circuit_laws.specs.Literals.{constant};
ghost use Rattle.circuit_laws.specs.Opcodes.{op_circuit, word_at};
ghost use Rattle.circuit_laws.specs.RuleClauses.{terms_circuit};
ghost use Rattle.bit_circuit.specs.Growth.{grown};

use crate::circuit::Circuit;
use crate::literal::Literal;
use crate::opcodes::circuit_of;
use crate::word::{Word, constant};
use nir_host::{OutOfMemory, Seq};
use nir_ops::{Op, Width};
use rule_term::{Term, reduced};
use std::alloc::Global;

/// The words of terms one after another.
pub(crate) type Words = Seq<Word>;

/// The words of terms, and the place of the node behind them.
#[derive(Debug, Drop)]
struct Placed {
    words: Words,
    next: usize,
}

/// The word of a term, and the place of the node behind it.
#[derive(Debug, Drop)]
pub(crate) struct PlacedWord {
    pub(crate) word: Word,
    pub(crate) next: usize,
}

/// The word at a place, no literals past the end.
pub(crate) fn part<'a>(words: &'a [Word], place: usize) -> &'a [Literal]
    ensures { result.now ≡ word_at words.now place }
{
    if place < words.len() {
        words[place].as_slice()
    } else {
        &[]
    }
}

/// A number as a word of the size.
fn word_of_number(alloc: Global, width: Width, value: i128) -> Result<Word, OutOfMemory>
    ensures { IfOk result (λ word. word ≡ constant (width_bits width) (residue (width_bits width) value)) }
{
    constant(alloc, width.bits() as usize, reduced(value, width))
}

/// The circuit of an opcode with a result of the size, over the words of its sources.
fn word_of_call(
    circuit: &mut Circuit,
    op: Op,
    width: Width,
    sources: &[Word],
) -> Result<Word, OutOfMemory>
    ensures word { IfOk result (λ word. word ≡ (op_circuit op (width_bits width) sources.now circuit.old.next).word) }
    ensures grown { OnOk result (circuit.new ≡ grown circuit.old (op_circuit op (width_bits width) sources.now circuit.old.next).gates) }
{
    circuit_of(
        circuit,
        op,
        width.bits() as usize,
        part(sources, 0),
        part(sources, 1),
        part(sources, 2),
    )
}

/// The circuits of terms whose first node has the size at a place.
#[cycle(terms)]
#[tactic(auto, using(crate::proofs::Walks::walk_steps))]
fn words_of_list(
    circuit: &mut Circuit,
    list: &[Term],
    widths: &[Width],
    at: usize,
    vars: &[Word],
) -> Result<Placed, OutOfMemory>
    requires room { at + size_of (terms_of list.now) ≤ length widths.now }
    ensures words { IfOk result (λ placed. placed.words ≡ (terms_circuit (terms_of list.now) (drop at widths.now) vars.now circuit.old.next).words) }
    ensures next { IfOk result (λ placed. placed.next ≡ at + size_of (terms_of list.now)) }
    ensures grown { OnOk result (circuit.new ≡ grown circuit.old (terms_circuit (terms_of list.now) (drop at widths.now) vars.now circuit.old.next).gates) }
{
    let mut words = Seq::new(circuit.alloc);
    let mut next = at;
    for term in list {
        let placed = word_of_term(circuit, term, widths, next, vars)?;
        words.push(placed.word)?;
        next = placed.next;
    }
    Ok(Placed { words, next })
}

/// The circuit of a term.
#[cycle(terms)]
#[tactic(auto, using(crate::proofs::Walks::walk_steps))]
pub(crate) fn word_of_term(
    circuit: &mut Circuit,
    term: &Term,
    widths: &[Width],
    at: usize,
    vars: &[Word],
) -> Result<PlacedWord, OutOfMemory>
    requires room { at + size_of (terms_of (term.now ∷ [])) ≤ length widths.now }
    ensures word { IfOk result (λ placed. placed.word ∷ [] ≡ (terms_circuit (terms_of (term.now ∷ [])) (drop at widths.now) vars.now circuit.old.next).words) }
    ensures next { IfOk result (λ placed. placed.next ≡ at + size_of (terms_of (term.now ∷ []))) }
    ensures grown { OnOk result (circuit.new ≡ grown circuit.old (terms_circuit (terms_of (term.now ∷ [])) (drop at widths.now) vars.now circuit.old.next).gates) }
{
    match term {
        Term::Var { var, .. } => Ok(PlacedWord {
            word: Seq::from_slice(circuit.alloc, part(vars, *var as usize))?,
            next: at + 1,
        }),
        Term::Lit { value, .. } => Ok(PlacedWord {
            word: word_of_number(circuit.alloc, widths[at], *value)?,
            next: at + 1,
        }),
        Term::App { op, args, .. } => {
            let sources = words_of_list(circuit, args.as_slice(), widths, at + 1, vars)?;
            Ok(PlacedWord {
                word: word_of_call(circuit, *op, widths[at], sources.words.as_slice())?,
                next: sources.next,
            })
        }
    }
}
