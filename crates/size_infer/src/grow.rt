//! The lists of sizes that the classes of nodes allow, node by node.

ghost use Rattle.std.specs.Prelude.{◌≡◌, ◌≤◌, ◌<◌, ◌++◌, [], ◌∷◌, IfOk, OnOk, filter, map};
ghost use Rattle.std.specs.List.{flat_map};
ghost use Rattle.size_infer.specs.Grown.{all_widths_of};
ghost use Rattle.size_infer.specs.Options.{fits_in, grown_in, product_in};
ghost use Rattle.size_laws.specs.Places.{longer};

use crate::classes::Classes;
use nir_host::{OutOfMemory, Seq};
use nir_ops::Width;
use rule_term::{Typing, same_width};
use std::alloc::Global;

/// Typings of a rule in lexicographic order, 1 bit before 8, 16, 32 and 64.
pub type Typings = Seq<Typing>;

/// All lists of sizes of the first so many nodes, in lexicographic order.
pub(crate) fn all_lists(
    alloc: Global,
    classes: &Classes,
    nodes: usize,
) -> Result<Typings, OutOfMemory>
    requires inside { nodes ≤ 98 }
    ensures { IfOk result (λ lists. all_widths_of lists ≡ product_in classes.now nodes) }
{
    let mut lists = empty_list(alloc)?;
    for node in 0..nodes {
        lists = longer_lists(alloc, classes, node, lists.as_slice())?;
    }
    Ok(lists)
}

/// The list of no sizes alone.
fn empty_list(alloc: Global) -> Result<Typings, OutOfMemory>
    ensures { IfOk result (λ lists. all_widths_of lists ≡ [] ∷ []) }
{
    let mut lists = Seq::new(alloc);
    lists.push(Typing {
        widths: Seq::new(alloc),
    })?;
    Ok(lists)
}

/// The lists with one size more, that of the node.
fn longer_lists(
    alloc: Global,
    classes: &Classes,
    node: usize,
    lists: &[Typing],
) -> Result<Typings, OutOfMemory>
    requires inside { node < 98 }
    ensures { IfOk result (λ next. all_widths_of next ≡ flat_map (grown_in classes.now node) (all_widths_of lists.now)) }
{
    let mut next = Seq::new(alloc);
    for list in lists {
        add_longer(
            alloc,
            classes,
            node,
            list.widths.as_slice(),
            &WIDTHS,
            &mut next,
        )?;
    }
    Ok(next)
}

/// All sizes, in order.
const WIDTHS: [Width; 5] = [Width::W1, Width::W8, Width::W16, Width::W32, Width::W64];

/// Adds the list with each of the sizes that the node can have behind it.
fn add_longer(
    alloc: Global,
    classes: &Classes,
    node: usize,
    list: &[Width],
    widths: &[Width],
    next: &mut Typings,
) -> Result<(), OutOfMemory>
    requires inside { node < 98 }
    ensures { OnOk result (all_widths_of next.new ≡ all_widths_of next.old ++ map (longer list.now) (filter (fits_in classes.now list.now node) widths.now)) }
{
    for width in widths {
        if !classes.fits(list, node, *width) {
            continue;
        }
        next.push(with_width(alloc, list, *width)?)?;
    }
    Ok(())
}

/// The list with a size more.
fn with_width(alloc: Global, list: &[Width], width: Width) -> Result<Typing, OutOfMemory>
    ensures { IfOk result (λ typing. typing.widths ≡ longer list.now width) }
{
    let mut widths = Seq::from_slice(alloc, list)?;
    widths.push(width)?;
    Ok(Typing { widths })
}

impl Classes {
    /// Whether the node can have the size behind the sizes of those before it.
    fn fits(&self, before: &[Width], node: usize, width: Width) -> bool
        requires inside { node < 98 }
        ensures { result ≡ fits_in self.now before.now node width }
    {
        let first = self.first[node];
        if first == node {
            return self.sets[node].has(width);
        }
        // The first of a class stands before its other nodes, so its size is among those before.
        same_width(width, before.get(first).copied().unwrap_or(Width::W1))
    }
}
