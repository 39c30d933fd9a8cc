//! Whether terms are the same.

ghost use Rattle.std.specs.Prelude.{◌≡◌};
ghost use Rattle.op_eval.specs.Calls.{same_width};
ghost use Rattle.law_derive.specs.Nodes.{same_kind, same_node, same_nodes};

use crate::node::{Kind, Node};
use nir_ops::Width;

/// Whether two terms have the same nodes.
pub fn same_nodes(nodes: &[Node], others: &[Node]) -> bool
    ensures { result ≡ same_nodes nodes.now others.now }
{
    let mut left = nodes;
    let mut right = others;
    'nodes: while let Some((node, behind)) = left.split_first() {
        let Some((other, others)) = right.split_first() else {
            return false;
        };
        if !same_node(*node, *other) {
            return false;
        }
        left = behind;
        right = others;
    }
    right.is_empty()
}

/// Whether two nodes are the same.
pub fn same_node(node: Node, other: Node) -> bool
    ensures { result ≡ same_node node other }
{
    if !same_kind(node.kind, other.kind) {
        return false;
    }
    same_width(node.width, other.width)
}

/// Whether two sizes are the same.
pub fn same_width(width: Width, other: Width) -> bool
    ensures { result ≡ same_width width other }
{
    width.bits() == other.bits()
}

fn same_kind(kind: Kind, other: Kind) -> bool
    ensures { result ≡ same_kind kind other }
{
    match (kind, other) {
        (Kind::App { op }, Kind::App { op: other }) => op == other,
        (Kind::Var { var }, Kind::Var { var: other }) => var == other,
        (Kind::Lit { word }, Kind::Lit { word: other }) => word == other,
        (Kind::App { .. }, Kind::Var { .. } | Kind::Lit { .. })
        | (Kind::Var { .. }, Kind::App { .. } | Kind::Lit { .. })
        | (Kind::Lit { .. }, Kind::App { .. } | Kind::Var { .. }) => false,
    }
}
