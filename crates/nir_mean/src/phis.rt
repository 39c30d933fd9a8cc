//! The phis of a block, which are read together.

ghost use Rattle.std.specs.Prelude.{◌≡◌, map, OnOk, Some};
ghost use Rattle.std.specs.List.{AllByRecursion, find};
ghost use Rattle.std.specs.Option.{option_map};
ghost use Rattle.op_eval.specs.Views.{views_comps};
ghost use Rattle.nir_mean.specs.Phis.{written};
ghost use Rattle.nir_ir.specs.Definitions.{is_from};
ghost use Rattle.nir_mean.specs.Run.{phi_value, run_phis};
ghost use Rattle.nir_mean.specs.Seen.{shader_of};
ghost use Rattle.nir_mean.specs.Sound.{PhiSound};
ghost use Rattle.nir_mean.specs.Table.{IsTable, kind_seen, values_of};

use crate::given::Given;
use crate::table::Table;
use crate::view::{view_of, zero_view};
use nir_host::OutOfMemory;
use nir_ir::{BlockId, Phi, PhiSource, ValueId};
use op_eval::View;

/// Whether a source is the one for the block that control came from.
fn comes_from(from: Option<BlockId>, source: &PhiSource) -> bool
    ensures { result ≡ is_from from source.now }
{
    match from {
        Some(id) => id.0 == source.from.0,
        None => false,
    }
}

/// The value that a phi with these sources takes.
fn taken(from: Option<BlockId>, sources: &[PhiSource]) -> Option<ValueId>
    ensures { result ≡ option_map (λ source. source.value) (find (is_from from) sources.now) }
{
    for source in sources {
        if comes_from(from, source) {
            return Some(source.value);
        }
    }
    None
}

/// What a phi takes, 0 where it has no source for the block that control came from.
fn phi_view(given: &Given<'_>, table: &Table, from: Option<BlockId>, phi: &Phi) -> View
    requires table { IsTable (shader_of given.now) table.now.views }
    requires sound { PhiSound (shader_of given.now) phi.now }
    ensures kind { kind_seen result ≡ phi.now.kind }
    ensures value { result.comps ≡ phi_value from (values_of table.now.views) phi.now }
{
    let _ = given;
    match taken(from, phi.sources.as_slice()) {
        Some(value) => view_of(phi.kind.width, table.comps(value)),
        None => zero_view(phi.kind),
    }
}

/// What each phi takes, in the place of what `out` had.
fn read_phis(
    given: &Given<'_>,
    table: &Table,
    from: Option<BlockId>,
    phis: &[Phi],
    out: &mut Vec<View>,
) -> Result<(), OutOfMemory>
    requires table { IsTable (shader_of given.now) table.now.views }
    requires sound { AllByRecursion (PhiSound (shader_of given.now)) phis.now }
    ensures kinds { OnOk result (map kind_seen out.new.items ≡ map (λ phi. phi.kind) phis.now) }
    ensures comps { OnOk result (views_comps out.new.items ≡ map (phi_value from (values_of table.now.views)) phis.now) }
{
    out.clear();
    for phi in phis {
        out.push(phi_view(given, table, from, phi))?;
    }
    Ok(())
}

/// Gives each phi what was read for it, the last first, so that `read` is used up from its end.
fn write_phis(given: &Given<'_>, table: &mut Table, phis: &[Phi], read: &mut Vec<View>)
    requires table { IsTable (shader_of given.now) table.old.views }
    requires sound { AllByRecursion (PhiSound (shader_of given.now)) phis.now }
    requires kinds { map kind_seen read.old.items ≡ map (λ phi. phi.kind) phis.now }
    ensures values { values_of table.new.views ≡ written phis.now (views_comps read.old.items) (values_of table.old.views) }
    ensures table { IsTable (shader_of given.now) table.new.views }
{
    let _ = given;
    for at in (0..phis.len()).rev() {
        match read.pop() {
            Some(view) => table.define(phis[at].value, view),
            None => {}
        }
    }
}

/// Runs the phis of a block. `room` keeps its memory from call to call.
#[tactic(auto, using(crate::proofs::PhiLemmas::written_whole))]
pub(crate) fn run_phis(
    given: &Given<'_>,
    table: &mut Table,
    from: Option<BlockId>,
    phis: &[Phi],
    room: &mut Vec<View>,
) -> Result<(), OutOfMemory>
    requires table { IsTable (shader_of given.now) table.old.views }
    requires sound { AllByRecursion (PhiSound (shader_of given.now)) phis.now }
    ensures values { OnOk result (values_of table.new.views ≡ run_phis from phis.now (values_of table.old.views)) }
    ensures table { OnOk result (IsTable (shader_of given.now) table.new.views) }
{
    read_phis(given, table, from, phis, room)?;
    write_phis(given, table, phis, room);
    Ok(())
}
