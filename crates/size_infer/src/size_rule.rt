//! What is asked of the sizes of a rule's nodes.

ghost use Rattle.std.specs.Prelude.{◌≡◌, Option};
ghost use Rattle.size_infer.specs.Meant.{link_spots, meant, next_spot};
ghost use Rattle.size_laws.specs.NodeRules.{source_rule};
ghost use Rattle.std.specs.Prelude.{OnOk, map, ◌++◌};

use nir_host::{OutOfMemory, Seq};
use nir_ops::Width;
use rule_term::WidthSet;

/// Two nodes have one size, or the size of a node is in a set. Nodes are named by their places, the search side first.
#[derive(Clone, Copy, Drop)]
pub(crate) enum SizeRule {
    Same { one: usize, other: usize },
    Within { place: usize, set: WidthSet },
}

/// All that is asked.
pub(crate) type SizeRules = Seq<SizeRule>;

/// A node that is a variable.
#[derive(Clone, Copy, Drop)]
pub(crate) struct Spot {
    pub(crate) var: u32,
    pub(crate) place: usize,
}

/// The nodes that are variables, in preorder.
pub(crate) type Spots = Seq<Spot>;

/// Adds that each variable has one size: that of its next occurrence. The search for the next is plain, since a rule has at
/// most 98 nodes.
pub(crate) fn add_links(spots: &[Spot], rules: &mut SizeRules) -> Result<(), OutOfMemory>
    ensures { OnOk result (map meant rules.new ≡ map meant rules.old ++ link_spots spots.now) }
{
    for (at, spot) in spots.iter().enumerate() {
        let next = next_place(spot.var, &spots[at + 1..], spot.place);
        rules.push(SizeRule::Same {
            one: spot.place,
            other: next,
        })?;
    }
    Ok(())
}

/// The next place of the variable, or its own.
fn next_place(var: u32, spots: &[Spot], own: usize) -> usize
    ensures { result ≡ next_spot var spots.now own }
{
    for spot in spots {
        if var == spot.var {
            return spot.place;
        }
    }
    own
}
