//! The tests of phis against the edges of their block. Few edges are compared with each source one by one, and
//! for more there is a table (`edge_table.rt`): so for each phi the tests take time in proportion to the
//! number of its sources, after one pass over the edges. Where there is no memory for a table, edges are
//! compared one by one as well.

ghost use Rattle.std.specs.Prelude.{◌≡◌, ◌+◌, ◌≤◌, ◌<◌, ◌^◌, length, map, count_by, nat_eq, is_some, IfSome};
ghost use Rattle.std.specs.List.{list_all, list_any};
ghost use Rattle.nir_validate.specs.Least.{sooner};
ghost use Rattle.nir_validate.specs.Predecessors.{Tells, block_of, comes_from_block, names_once, is_named_once, names_some, is_defined_by};
ghost use Rattle.nir_validate.specs.Rules.{is_defined_along, named, names_each_once, predecessors};
ghost use Rattle.nir_validate.specs.Steps.{AreIn, edges_of, found_phi, found_phis};

use crate::edge_table::{EdgeTable, are_defined_in, sources_match_in, table_of};
use crate::round::Round;
use crate::scope::Scope;
use crate::way::Way;
use nir_host::OutOfMemory;
use nir_ir::{BlockId, Phi, PhiSource};
use std::alloc::Global;

/// Whether an edge comes from the block.
fn comes_from(way: Way, block: BlockId) -> bool
    ensures { result ≡ comes_from_block block.0 way }
{
    match way.from {
        Some(from) => from.0 == block.0,
        None => false,
    }
}

/// Whether exactly one source names the block. The search ends at the second.
fn names_once(sources: &[PhiSource], block: BlockId) -> bool
    ensures { result ≡ names_once sources.now block.0 }
{
    let mut found = false;
    for source in sources {
        if source.from.0 == block.0 {
            if found {
                return false;
            }
            found = true;
        }
    }
    found
}

/// Whether each edge from a block is named by exactly one source.
fn are_named_once(sources: &[PhiSource], ways: &[Way]) -> bool
    ensures { result ≡ list_all (is_named_once sources.now) ways.now }
{
    for way in ways {
        match way.from {
            Some(from) => {
                if !names_once(sources, from) {
                    return false;
                }
            }
            None => {}
        }
    }
    true
}

/// Whether an edge comes from the block that a source names.
fn names_some(ways: &[Way], source: PhiSource) -> bool
    ensures { result ≡ names_some ways.now source }
{
    for way in ways {
        if comes_from(*way, source.from) {
            return true;
        }
    }
    false
}

/// Whether each source names the block of an edge.
fn all_name_some(ways: &[Way], sources: &[PhiSource]) -> bool
    ensures { result ≡ list_all (names_some ways.now) sources.now }
{
    for source in sources {
        if !names_some(ways, *source) {
            return false;
        }
    }
    true
}

/// Whether an edge comes from a block at all.
fn is_from_block(ways: &[Way]) -> bool
    ensures { result ≡ list_any (λ way. is_some way.from) ways.now }
{
    for way in ways {
        if way.from.is_some() {
            return true;
        }
    }
    false
}

/// V6: there is an edge from a block, and the sources name the block of each such edge once and no other.
fn sources_match(scope: &Scope, phi: &Phi, ways: &[Way]) -> bool
    ensures { result ≡ names_each_once (predecessors (edges_of scope.now ways.now)) (named phi.now) }
{
    let sources = phi.sources.as_slice();
    if !is_from_block(ways) {
        return false;
    }
    if !are_named_once(sources, ways) {
        return false;
    }
    all_name_some(ways, sources)
}

/// Whether the value of a source is defined along each edge from its block.
fn is_defined(scope: &Scope, source: PhiSource, ways: &[Way]) -> bool
    requires { AreIn scope.now ways.now }
    ensures { result ≡ list_all (is_defined_by scope.now source) ways.now }
{
    for way in ways {
        if comes_from(*way, source.from) {
            if !scope.has(way.tip, source.value) {
                return false;
            }
        }
    }
    true
}

/// V7 of a phi: its sources are defined along their edges.
fn are_defined(scope: &Scope, phi: &Phi, ways: &[Way]) -> bool
    requires { AreIn scope.now ways.now }
    ensures { result ≡ list_all (is_defined_along (edges_of scope.now ways.now)) phi.now.sources }
{
    all_defined(scope, phi.sources.as_slice(), ways)
}

/// Whether each source is defined along the edges from its block.
fn all_defined(scope: &Scope, sources: &[PhiSource], ways: &[Way]) -> bool
    requires { AreIn scope.now ways.now }
    ensures { result ≡ list_all (λ source. list_all (is_defined_by scope.now source) ways.now) sources.now }
{
    for source in sources {
        if !is_defined(scope, *source, ways) {
            return false;
        }
    }
    true
}

impl Round {
    /// Looks at a phi whose block has these edges.
    pub(crate) fn phi(&mut self, phi: &Phi, ways: &[Way], item: u64)
        requires { AreIn self.old.scope ways.now }
        ensures { self.new ≡ record self.old { found = sooner self.old.found (found_phi item (edges_of self.old.scope ways.now) phi.now) } }
    {
        let matched = sources_match(&self.scope, phi, ways);
        let defined = are_defined(&self.scope, phi, ways);
        self.report(matched, 6, item);
        self.report(defined, 7, item);
    }

    /// The same where the edges are in a table.
    fn phi_in(&mut self, alloc: Global, table: &EdgeTable, phi: &Phi, ways: &[Way], item: u64)
        requires tells { Tells table.now.entries ways.now }
        requires within { AreIn self.old.scope ways.now }
        ensures { self.new ≡ record self.old { found = sooner self.old.found (found_phi item (edges_of self.old.scope ways.now) phi.now) } }
    {
        let sources = phi.sources.as_slice();
        match sources_match_in(alloc, table, sources) {
            Ok(matched) => {
                let defined = are_defined_in(&self.scope, table, sources);
                self.report(matched, 6, item);
                self.report(defined, 7, item);
            }
            Err(OutOfMemory) => self.phi(phi, ways, item),
        }
    }

    /// The same where the edges may be in a table.
    fn phi_by(
        &mut self,
        alloc: Global,
        table: &Option<EdgeTable>,
        phi: &Phi,
        ways: &[Way],
        item: u64,
    )
        requires tells { IfSome table.now (λ table. Tells table.entries ways.now) }
        requires within { AreIn self.old.scope ways.now }
        ensures { self.new ≡ record self.old { found = sooner self.old.found (found_phi item (edges_of self.old.scope ways.now) phi.now) } }
    {
        match table {
            Some(table) => self.phi_in(alloc, table, phi, ways, item),
            None => self.phi(phi, ways, item),
        }
    }

    /// Looks at the phis of a block with these edges. `first` is the item of the first of them.
    pub(crate) fn phis(&mut self, alloc: Global, phis: &[Phi], ways: &[Way], first: u64)
        requires within { AreIn self.old.scope ways.now }
        requires few { first + length phis.now < 2 ^ 64 }
        ensures { self.new ≡ record self.old { found = sooner self.old.found (found_phis first (edges_of self.old.scope ways.now) phis.now) } }
    {
        if phis.is_empty() {
            return;
        }
        let table = table_of(alloc, ways);
        let mut item = first;
        for phi in phis {
            self.phi_by(alloc, &table, phi, ways, item);
            item += 1;
        }
    }
}
