//! The edges of a block in a table, by the blocks that they come from, and the tests of phis against it.
//! For each phi they take time in proportion to the number of its sources alone.

ghost use Rattle.std.specs.Prelude.{◌≡◌, ◌∷◌, [], ◌++◌, ◌&&◌, true, not, nat_eq, map, if◌then◌else◌, IsTrue, IfOk, IfSome};
ghost use Rattle.std.specs.List.{list_all, list_any};
ghost use Rattle.std.specs.Map.{keys_of};
ghost use Rattle.indexmap.specs.IndexMap.{IsUnique};
ghost use Rattle.nir_validate.specs.Predecessors.{Tells, TellsSets, by_block, is_defined_in};
ghost use Rattle.nir_validate.specs.Rules.{names_each_once};

use crate::scope::{Scope, Tip};
use crate::way::Way;
use indexmap::{IndexMap, IndexSet};
use nir_host::OutOfMemory;
use nir_ir::PhiSource;
use std::alloc::Global;

/// The sets along edges, each by the block that its edge comes from.
pub(crate) type EdgeTable = IndexMap<u32, Tip>;

/// So many edges are compared one by one sooner than a table of them is made.
const FEW_EDGES: usize = 4;

/// Adds an edge. False where one before it comes from the same block, and where there is no memory.
fn add_edge(table: &mut EdgeTable, way: Way) -> bool
    ensures added { IsTrue result → table.new.entries ≡ table.old.entries ++ by_block way }
    ensures unique { IsUnique nat_eq table.old → IsUnique nat_eq table.new }
{
    match way.from {
        None => true,
        Some(from) => match table.insert(from.0, way.tip) {
            Ok(None) => true,
            Ok(Some(_earlier)) => false,
            Err(_failed) => false,
        },
    }
}

/// The edges in a table. None where they are few, where two come from one block, and where there is no memory:
/// then they are compared one by one. In a list that alternates no two come from one block.
pub(crate) fn table_of(alloc: Global, ways: &[Way]) -> Option<EdgeTable>
    ensures { IfSome result (λ table. Tells table.entries ways.now) }
{
    if ways.len() <= FEW_EDGES {
        return None;
    }
    let mut table = IndexMap::new(alloc);
    for way in ways {
        if !add_edge(&mut table, *way) {
            return None;
        }
    }
    Some(table)
}

/// Adds a block to those that sources name. False where no edge comes from it, and where it was named before.
fn add_name(table: &EdgeTable, names: &mut IndexSet<u32>, block: u32) -> Result<bool, OutOfMemory>
    ensures added { IfOk result (λ added. added ≡ (list_any (nat_eq block) (keys_of table.now.entries) && not (list_any (nat_eq block) names.old.keys))) }
    ensures names { IfOk result (λ added. names.new.keys ≡ (if added then names.old.keys ++ block ∷ [] else names.old.keys)) }
{
    if !table.contains_key(&block) {
        return Ok(false);
    }
    match names.insert(block) {
        Ok(added) => Ok(added),
        Err(_failed) => Err(OutOfMemory),
    }
}

/// V6: there is an edge from a block, and the sources name the block of each such edge once and no other.
pub(crate) fn sources_match_in(
    alloc: Global,
    table: &EdgeTable,
    sources: &[PhiSource],
) -> Result<bool, OutOfMemory>
    ensures { IfOk result (λ matched. matched ≡ names_each_once (keys_of table.now.entries) (map (λ source. source.from.0) sources.now)) }
{
    if table.is_empty() {
        return Ok(false);
    }
    let mut names = IndexSet::new(alloc);
    for source in sources {
        if !add_name(table, &mut names, source.from.0)? {
            return Ok(false);
        }
    }
    Ok(names.len() == table.len())
}

/// Whether the value of a source is defined along the edge from its block, where there is one.
fn is_defined_in(scope: &Scope, table: &EdgeTable, source: PhiSource) -> bool
    requires { TellsSets scope.now table.now.entries }
    ensures { result ≡ is_defined_in scope.now table.now.entries source }
{
    match table.get(&source.from.0) {
        Some(tip) => scope.has(*tip, source.value),
        None => true,
    }
}

/// V7 of a phi: its sources are defined along their edges.
pub(crate) fn are_defined_in(scope: &Scope, table: &EdgeTable, sources: &[PhiSource]) -> bool
    requires { TellsSets scope.now table.now.entries }
    ensures { result ≡ list_all (is_defined_in scope.now table.now.entries) sources.now }
{
    for source in sources {
        if !is_defined_in(scope, table, *source) {
            return false;
        }
    }
    true
}
