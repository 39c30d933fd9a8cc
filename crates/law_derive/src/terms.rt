//! Terms of rules as lists of nodes at their sizes.

ghost use Rattle.std.specs.Prelude.{◌≡◌, [], ◌∷◌, ◌++◌, drop, IfOk, OnOk};
ghost use Rattle.rule_term.specs.Terms.{terms_of};
ghost use Rattle.rule_term.specs.Typings.{first_of, size_of};
ghost use Rattle.law_derive.specs.Nodes.{nodes_of};

use crate::node::{Kind, Node};
use nir_host::{OutOfMemory, Seq};
use nir_ops::Width;
use rule_term::{Term, reduced};
use std::alloc::Global;

/// The nodes of the term at these sizes, the first of which is that of the term itself.
pub(crate) fn nodes_of(
    alloc: Global,
    term: &Term,
    widths: &[Width],
) -> Result<Seq<Node>, OutOfMemory>
    ensures { IfOk result (λ nodes. nodes ≡ nodes_of (terms_of (term.now ∷ [])) widths.now) }
{
    let mut nodes = Seq::new(alloc);
    push_term(&mut nodes, term, widths)?;
    Ok(nodes)
}

/// Adds the nodes of the term, and answers the sizes behind its own.
#[cycle(nodes)]
#[tactic(auto, using(crate::proofs::TermLemmas::node_steps))]
pub(crate) fn push_term<'a>(
    nodes: &mut Seq<Node>,
    term: &Term,
    widths: &'a [Width],
) -> Result<&'a [Width], OutOfMemory>
    ensures nodes { OnOk result (nodes.new ≡ nodes.old ++ nodes_of (terms_of (term.now ∷ [])) widths.now) }
    ensures behind { IfOk result (λ behind. behind.now ≡ drop (size_of (terms_of (term.now ∷ []))) widths.now) }
{
    let width = first_size(widths);
    let behind = behind_first(widths);
    match term {
        Term::Var { var, .. } => {
            nodes.push(Node {
                kind: Kind::Var { var: *var },
                width,
            })?;
            Ok(behind)
        }
        Term::Lit { value, .. } => {
            let word = reduced(*value, width);
            nodes.push(Node {
                kind: Kind::Lit { word },
                width,
            })?;
            Ok(behind)
        }
        Term::App { op, args, .. } => {
            nodes.push(Node {
                kind: Kind::App { op: *op },
                width,
            })?;
            let behind = push_terms(nodes, args.as_slice(), behind)?;
            Ok(behind)
        }
    }
}

/// Adds the nodes of the terms, and answers the sizes behind theirs.
#[cycle(nodes)]
#[tactic(auto, using(crate::proofs::TermLemmas::node_steps))]
fn push_terms<'a>(
    nodes: &mut Seq<Node>,
    terms: &[Term],
    widths: &'a [Width],
) -> Result<&'a [Width], OutOfMemory>
    ensures nodes { OnOk result (nodes.new ≡ nodes.old ++ nodes_of (terms_of terms.now) widths.now) }
    ensures behind { IfOk result (λ behind. behind.now ≡ drop (size_of (terms_of terms.now)) widths.now) }
{
    let mut behind = widths;
    for term in terms {
        behind = push_term(nodes, term, behind)?;
    }
    Ok(behind)
}

/// The first of the sizes; 1 bit where there is none.
fn first_size(widths: &[Width]) -> Width
    ensures { result ≡ first_of widths.now }
{
    match widths.first() {
        Some(width) => *width,
        None => Width::W1,
    }
}

fn behind_first(widths: &[Width]) -> &[Width]
    ensures { result.now ≡ drop 1 widths.now }
{
    match widths.split_first() {
        Some((_width, behind)) => behind,
        None => widths,
    }
}
