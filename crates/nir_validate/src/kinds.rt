//! The kinds of values by their numbers, told in one pass over the tree. A table has an entry for each number
//! below the shader's `next_value`, and takes memory in proportion to it.

ghost use Rattle.std.specs.Prelude.{◌≡◌, [], ◌∷◌, IfOk, map, replicate, slice_set, None, Some};
ghost use Rattle.nir_ir.specs.Definitions.{kind_at, kind_of_target};
ghost use Rattle.nir_ir.specs.Items.{InstrItem, PhiItem, items};
ghost use Rattle.nir_ir.specs.Nodes.{nodes_of};
ghost use Rattle.nir_validate.specs.KindTable.{told, told_all, told_in, kinds_in};

use nir_host::OutOfMemory;
use nir_ir::{Instr, Kind, Node, Phi, Shader, ValueId};
use std::alloc::Global;

/// The kind of a value in O(1), None where nothing defines it.
pub(crate) fn kind_of(kinds: &[Option<Kind>], value: ValueId) -> Option<Kind>
    ensures { result ≡ kinds_in kinds.now value }
{
    let at = value.0 as usize;
    if at < kinds.len() { kinds[at] } else { None }
}

/// Tells the kind of a value.
fn tell(kinds: &mut [Option<Kind>], value: ValueId, kind: Kind)
    ensures { kinds.new ≡ slice_set kinds.old value.0 (Some kind) }
{
    let at = value.0 as usize;
    if at < kinds.len() {
        kinds[at] = Some(kind);
    }
}

/// Tells the kind of what an instruction defines.
fn tell_instr(kinds: &mut [Option<Kind>], instr: &Instr)
    ensures { kinds.new ≡ told (InstrItem instr.now) kinds.old }
{
    match instr.defines() {
        Some((value, kind)) => tell(kinds, value, kind),
        None => {}
    }
}

/// Tells the kinds of instructions.
fn tell_instrs(kinds: &mut [Option<Kind>], instrs: &[Instr])
    ensures { kinds.new ≡ told_all (map InstrItem instrs.now) kinds.old }
{
    for instr in instrs {
        tell_instr(kinds, instr);
    }
}

/// Tells the kinds of phis.
fn tell_phis(kinds: &mut [Option<Kind>], phis: &[Phi])
    ensures { kinds.new ≡ told_all (map PhiItem phis.now) kinds.old }
{
    for phi in phis {
        tell(kinds, phi.value, phi.kind);
    }
}

/// Tells the kinds of what a list of nodes defines.
#[cycle(tell)]
#[tactic(auto, using(crate::proofs::KindLemmas::told_steps))]
fn tell_list(kinds: &mut [Option<Kind>], list: &[Node])
    ensures { kinds.new ≡ told_in (nodes_of list.now) kinds.old }
{
    for node in list {
        tell_node(kinds, node);
    }
}

/// Tells the kinds of what a node defines.
#[cycle(tell)]
#[tactic(auto, using(crate::proofs::KindLemmas::told_steps))]
fn tell_node(kinds: &mut [Option<Kind>], node: &Node)
    ensures { kinds.new ≡ told_in (nodes_of (node.now ∷ [])) kinds.old }
{
    match node {
        Node::Block(block) => {
            tell_phis(kinds, block.phis.as_slice());
            tell_instrs(kinds, block.instrs.as_slice());
        }
        Node::If { yes, no, .. } => {
            tell_list(kinds, yes.as_slice());
            tell_list(kinds, no.as_slice());
        }
        Node::Loop { body, .. } => tell_list(kinds, body.as_slice()),
    }
}

/// A table in which nothing is told yet.
fn empty_table(alloc: Global, len: u32) -> Result<Vec<Option<Kind>>, OutOfMemory>
    ensures { IfOk result (λ table. table.items ≡ replicate len None) }
{
    match vec![in alloc; None; len as usize] {
        Ok(table) => Ok(table),
        Err(_failed) => Err(OutOfMemory),
    }
}

/// The table of a shader. `OutOfMemory` comes where there is no memory for it.
pub(crate) fn kinds_of(alloc: Global, shader: &Shader) -> Result<Vec<Option<Kind>>, OutOfMemory>
    ensures { IfOk result (λ table. kinds_in table.items ≡ kind_at shader.now.body) }
{
    let mut table = empty_table(alloc, shader.next_value)?;
    tell_list(table.as_mut_slice(), shader.body.as_slice());
    Ok(table)
}
