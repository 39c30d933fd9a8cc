//! The value of a term, from the sizes of its nodes in preorder and the values of the variables.

ghost use Rattle.std.specs.Prelude.{◌≡◌, ◌<◌, ◌≤◌, ◌^◌, [], ◌∷◌, length, take, pos};
ghost use Rattle.nir_ops.specs.Width.{width_bits};
ghost use Rattle.op_eval.specs.Word.{residue};
ghost use Rattle.op_eval.specs.Words.{words_bits, words_widths};
ghost use Rattle.rule_term.specs.Terms.{terms_of};
ghost use Rattle.rule_term.specs.Typings.{roots, size_of};
ghost use Rattle.rule_term.specs.Holds.{values_of};
ghost use Rattle.rule_term.specs.Ready.{IsReady};

use crate::term::Term;
use nir_ops::Width;
use op_eval::{Word, eval};

/// The value of a term, and how many nodes it has.
#[derive(Clone, Copy)]
pub(crate) struct Evaluated {
    pub(crate) word: Word,
    pub(crate) nodes: usize,
}

/// The values of the sources of an opcode, of which there are so many, and how many nodes they have together.
#[derive(Clone, Copy)]
struct Sources {
    words: [Word; 4],
    count: usize,
    nodes: usize,
}

/// The value of the term. The first of the sizes is that of the term itself.
#[cycle(value)]
#[tactic(auto, using(crate::proofs::NodesLemmas::size_steps, crate::proofs::NodesLemmas::root_steps))]
pub(crate) fn value_of(term: &Term, widths: &[Width], values: &[u64]) -> Evaluated
    requires ready { IsReady (terms_of (term.now ∷ [])) widths.now values.now }
    ensures value { values_of (terms_of (term.now ∷ [])) widths.now values.now ≡ result.word.bits ∷ [] }
    ensures width { roots (terms_of (term.now ∷ [])) widths.now ≡ result.word.width ∷ [] }
    ensures nodes { result.nodes ≡ size_of (terms_of (term.now ∷ [])) }
{
    let width = widths[0];
    match term {
        Term::Var { var, .. } => Evaluated {
            word: Word {
                width,
                bits: values[*var as usize],
            },
            nodes: 1,
        },
        Term::Lit { value, .. } => Evaluated {
            word: Word {
                width,
                bits: reduced(*value, width),
            },
            nodes: 1,
        },
        Term::App { op, args, .. } => {
            let sources = sources_of(args.as_slice(), &widths[1..], values);
            let bits = eval(*op, width, &sources.words[..sources.count]);
            Evaluated {
                word: Word { width, bits },
                nodes: sources.nodes + 1,
            }
        }
    }
}

/// The values of the terms, one after another.
#[cycle(value)]
fn sources_of(terms: &[Term], widths: &[Width], values: &[u64]) -> Sources
    requires ready { IsReady (terms_of terms.now) widths.now values.now }
    requires few { length terms.now ≤ 4 }
    ensures values { words_bits (take result.count result.words) ≡ values_of (terms_of terms.now) widths.now values.now }
    ensures widths { words_widths (take result.count result.words) ≡ roots (terms_of terms.now) widths.now }
    ensures count { result.count ≤ 4 }
    ensures nodes { result.nodes ≡ size_of (terms_of terms.now) }
{
    let mut words = [Word {
        width: Width::W1,
        bits: 0,
    }; 4];
    let mut nodes = 0;
    for (at, term) in terms.iter().enumerate() {
        let next = value_of(term, &widths[nodes..], values);
        words[at] = next.word;
        nodes += next.nodes;
    }
    Sources {
        words,
        count: terms.len(),
        nodes,
    }
}

/// The number modulo 2 to the bit size.
#[tactic(auto, using(crate::proofs::LiteralLemmas::euclid_residue))]
pub fn reduced(value: i128, width: Width) -> u64
    ensures value { result ≡ residue (width_bits width) value }
    ensures small { result < 2 ^ width_bits width }
{
    value.rem_euclid(modulus(width)) as u64
}

/// 2 to the bit size.
fn modulus(width: Width) -> i128
    ensures { result ≡ pos (2 ^ width_bits width) }
{
    match width {
        Width::W1 => 2,
        Width::W8 => 0x100,
        Width::W16 => 0x1_0000,
        Width::W32 => 0x1_0000_0000,
        Width::W64 => 0x1_0000_0000_0000_0000,
    }
}
