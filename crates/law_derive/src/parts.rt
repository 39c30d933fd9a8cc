//! Where the terms of a list of nodes end, and where the parts of a term stand.

ghost use Rattle.std.specs.Prelude.{◌≡◌, ◌≤◌, length, IfSome};
ghost use Rattle.law_derive.specs.Nodes.{extent, place_at, sources_of};

use crate::node::{Kind, Node};
use nir_ops::info;

/// How many terms stand behind a node as its sources.
#[tactic(auto, using(rule_term::proofs::OpcodeLemmas::few_inputs))]
pub fn sources_of(kind: Kind) -> usize
    ensures value { result ≡ sources_of kind }
    ensures few { result ≤ 4 }
{
    match kind {
        Kind::App { op } => info(op).inputs.len(),
        Kind::Var { .. } | Kind::Lit { .. } => 0,
    }
}

/// How many nodes the first so many of the terms have.
pub fn extent(count: usize, nodes: &[Node]) -> usize
    ensures value { result ≡ extent count nodes.now }
    ensures within { result ≤ length nodes.now }
{
    let mut waiting = count as u128;
    'nodes: for (at, node) in nodes.iter().enumerate() {
        if waiting == 0 {
            return at;
        }
        waiting = waiting - 1 + sources_of(node.kind) as u128;
    }
    nodes.len()
}

/// Where the part of a term begins to which the numbers of sources lead, from 0 on; None where they lead to none.
pub fn place_at(path: &[u32], nodes: &[Node]) -> Option<usize>
    ensures value { result ≡ place_at path.now nodes.now }
    ensures within { IfSome result (λ place. place ≤ length nodes.now) }
{
    let mut place = 0;
    let mut left = path;
    let mut rest = nodes;
    'path: while let Some((source, others)) = left.split_first() {
        let Some((first, behind)) = rest.split_first() else {
            return None;
        };
        let source = *source as usize;
        if source >= sources_of(first.kind) {
            return None;
        }
        let passed = extent(source, behind);
        place = place + 1 + passed;
        rest = &behind[passed..];
        left = others;
    }
    Some(place)
}
