//! How many sizes the nodes of a rule can have, and what that says of its typings.

ghost use Rattle.std.specs.Prelude.{◌≡◌, ◌+◌, ◌≤◌, ◌<◌, MatchBool, MatchOption};
ghost use Rattle.size_infer.specs.Options.{EachHas, HasMore, HasNone, HasTwoFirst, NoneHasTwo, lists_of, options_of};

use crate::classes::Classes;

/// How many typings a rule may have.
const MOST: usize = 64;

impl Classes {
    /// How many sizes a node can have where the sizes of those before it are chosen.
    fn options(&self, node: usize) -> usize
        requires inside { node < 98 }
        ensures count { result ≡ options_of self.now node }
        ensures few { result ≤ 5 }
    {
        if self.first[node] != node {
            return 1;
        }
        self.sets[node].len()
    }

    /// A node that can have no size.
    pub(crate) fn find_none(&self, nodes: usize) -> Option<usize>
        requires inside { nodes ≤ 98 }
        ensures { MatchOption result (EachHas self.now nodes) (HasNone self.now nodes) }
    {
        for node in 0..nodes {
            if self.options(node) == 0 {
                return Some(node);
            }
        }
        None
    }

    /// The first node of the replacement that can have two sizes where those before it have theirs. Nodes are counted from its root.
    pub(crate) fn find_two(&self, searched: usize, replaced: usize) -> Option<u32>
        requires inside { searched + replaced ≤ 98 }
        ensures { MatchOption result (NoneHasTwo self.now searched replaced) (HasTwoFirst self.now searched replaced) }
    {
        for node in 0..replaced {
            if self.options(searched + node) > 1 {
                return Some(node as u32);
            }
        }
        None
    }

    /// Whether there are more typings than a rule may have.
    pub(crate) fn are_too_many(&self, nodes: usize) -> bool
        requires inside { nodes ≤ 98 }
        ensures { MatchBool result (HasMore self.now nodes 64) (lists_of self.now nodes ≤ 64) }
    {
        let mut count = 1;
        for node in 0..nodes {
            count *= self.options(node);
            if count > MOST {
                return true;
            }
        }
        false
    }
}
