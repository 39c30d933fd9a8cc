//! Calculations: the value of a term without variables, and whether an expression has it.

ghost use Rattle.std.specs.Prelude.{◌≡◌, ◌<◌, ◌≤◌, ◌^◌, [], ◌∷◌, true, IfOk, IfSome, drop, length, take};
ghost use Rattle.nir_ops.specs.Width.{width_bits};
ghost use Rattle.op_eval.specs.Calls.{unsized_width};
ghost use Rattle.op_eval.specs.Meaning.{op_mean};
ghost use Rattle.op_eval.specs.Words.{words_bits, words_widths};
ghost use Rattle.law_derive.specs.declared.node.Kind.TheVariants.{App as AppKind};
ghost use Rattle.law_derive.specs.Calculations.{IsComputable, calc_answer};
ghost use Rattle.law_derive.specs.Derivations.{calculated, has_var, is_var};
ghost use Rattle.law_derive.specs.Fit.{kind_fits, nodes_fit};
ghost use Rattle.law_derive.specs.Nodes.{arity, roots, sources_of, values, with_value};
ghost use Rattle.law_derive.specs.WordsLaws.{AreWordNodes, KindIsWord};

use crate::node::{Kind, Node};
use crate::parts::sources_of;
use nir_host::{OutOfMemory, Seq};
use nir_ops::{Op, Width};
use op_eval::{Word, eval};
use std::alloc::Global;

/// The expression of a calculation, given as the nodes that are known of it; None where the term or the expression has a variable,
/// and where they have two values.
pub(crate) fn calculated(
    alloc: Global,
    term: &[Node],
    nodes: Option<Seq<Node>>,
) -> Result<Option<Seq<Node>>, OutOfMemory>
    requires term { IsComputable term.now }
    requires nodes { IfSome nodes (λ list. IsComputable list) }
    ensures { IfOk result (λ made. calc_answer made ≡ calculated term.now nodes) }
{
    let Some(nodes) = nodes else {
        return Ok(None);
    };
    if has_var(term) {
        return Ok(None);
    }
    if has_var(nodes.as_slice()) {
        return Ok(None);
    }
    let value = value_of(alloc, term)?;
    let other = value_of(alloc, nodes.as_slice())?;
    if value.bits != other.bits {
        return Ok(None);
    }
    Ok(Some(nodes))
}

/// Whether a variable stands in a term.
pub(crate) fn has_var(nodes: &[Node]) -> bool
    ensures { result ≡ has_var nodes.now }
{
    for node in nodes {
        if is_var(node.kind) {
            return true;
        }
    }
    false
}

fn is_var(kind: Kind) -> bool
    ensures { result ≡ is_var kind }
{
    match kind {
        Kind::Var { .. } => true,
        Kind::App { .. } | Kind::Lit { .. } => false,
    }
}

/// The value of a term where each variable is 0.
pub(crate) fn value_of(alloc: Global, nodes: &[Node]) -> Result<Word, OutOfMemory>
    requires { IsComputable nodes.now }
    ensures { IfOk result (λ word. values nodes.now [] ≡ word.bits ∷ []) }
{
    let mut words = empty_words(alloc, nodes.len())?;
    Ok(value_on(words.as_mut_slice(), nodes))
}

/// The same, on as many words as nodes.
#[tactic(auto, using(crate::proofs::CalcLemmas::only_value, crate::proofs::CalcLemmas::value_is))]
fn value_on(words: &mut [Word], nodes: &[Node]) -> Word
    requires room { length words.old ≡ length nodes.now }
    requires computable { IsComputable nodes.now }
    ensures { values nodes.now [] ≡ result.bits ∷ [] }
{
    let begin = put_values(words, nodes);
    words[begin]
}

/// So many words, each 0.
fn empty_words(alloc: Global, count: usize) -> Result<Vec<Word>, OutOfMemory>
    ensures { IfOk result (λ words. length words.items ≡ count) }
{
    let word = Word {
        width: Width::W1,
        bits: 0,
    };
    match vec![in alloc; word; count] {
        Ok(words) => Ok(words),
        Err(_failed) => Err(OutOfMemory),
    }
}

/// Puts the values of terms at the end of the words, of which there are as many as nodes, and answers where they begin.
fn put_values(words: &mut [Word], nodes: &[Node]) -> usize
    requires room { length words.old ≡ length nodes.now }
    requires fit { nodes_fit nodes.now ≡ true }
    requires are_words { AreWordNodes [] nodes.now }
    ensures values { words_bits (drop result words.new) ≡ values nodes.now [] }
    ensures sizes { words_widths (drop result words.new) ≡ roots nodes.now }
{
    let mut begin = nodes.len();
    let mut at = nodes.len();
    'nodes: while at > 0 {
        at -= 1;
        let node = nodes[at];
        let word = word_at(node, &words[begin..]);
        begin = begin + sources_of(node.kind) - 1;
        words[begin] = word;
    }
    begin
}

/// The value of the term that begins at a node, where the values of its sources are the first of those behind it.
fn word_at(node: Node, behind: &[Word]) -> Word
    requires fits { kind_fits node.width node.kind (words_widths behind.now) ≡ true }
    requires is_word { KindIsWord [] node.width node.kind }
    ensures value { result.bits ∷ drop (sources_of node.kind) (words_bits behind.now)
        ≡ with_value node.width node.kind (words_widths behind.now) [] (words_bits behind.now) }
    ensures width { result.width ≡ node.width }
    ensures sources { sources_of node.kind ≤ length behind.now }
{
    let width = node.width;
    match node.kind {
        Kind::App { op } => Word {
            width,
            bits: applied(op, width, behind),
        },
        Kind::Var { .. } => Word { width, bits: 0 },
        Kind::Lit { word } => Word { width, bits: word },
    }
}

/// The word that an opcode makes of the first of these, as many as it has sources.
fn applied(op: Op, width: Width, behind: &[Word]) -> u64
    requires { kind_fits width (AppKind op) (words_widths behind.now) ≡ true }
    ensures value { result ≡ op_mean op (width_bits (unsized_width op width (take (arity op) (words_widths behind.now)))) (width_bits width)
        (take (arity op) (words_bits behind.now)) }
    ensures small { result < 2 ^ width_bits width }
    ensures sources { arity op ≤ length behind.now }
{
    let count = sources_of(Kind::App { op });
    eval(op, width, &behind[..count])
}
