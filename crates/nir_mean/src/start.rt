//! The state in which a run starts.

ghost use Rattle.std.specs.Prelude.{◌≡◌, ◌<◌, ◌≤◌, [], ◌∷◌, length, map, IfOk};
ghost use Rattle.std.specs.List.{flat_map};
ghost use Rattle.nir_ir.specs.Items.{InstrItem, PhiItem};
ghost use Rattle.nir_ir.specs.Nodes.{Nil, BlockThen, nodes_of};
ghost use Rattle.nir_mean.specs.Declares.{FitIn, declared, declares, nothing_shown, shown_of, told_of};
ghost use Rattle.nir_mean.specs.State.{unwritten, zeros};
ghost use Rattle.nir_mean.specs.Table.{IsTable, values_of};

use crate::outcome::{Buffers, Outputs};
use crate::table::Table;
use crate::view::zero_view;
use nir_host::{Bytes, OutOfMemory, Seq};
use nir_ir::{Block, Comps, Instr, Kind, Node, Phi, Shader, ValueId};
use nir_ops::Width;
use std::alloc::Global;

/// A table of so many numbers without values.
fn blank(alloc: Global, count: u32) -> Result<Table, OutOfMemory>
    ensures len { IfOk result (λ table. length table.views ≡ count) }
    ensures shown { IfOk result (λ table. shown_of table.views ≡ nothing_shown) }
{
    let mut views = Seq::new(alloc);
    let none = Kind {
        width: Width::W1,
        count: 0,
    };
    for _ in 0..count {
        views.push(zero_view(none))?;
    }
    Ok(Table { views })
}

/// Tells the table of a value of this kind, which is 0 in each component.
fn declare(table: &mut Table, id: ValueId, kind: Kind)
    requires within { id.0 < length table.old.views }
    requires few { kind.count ≤ 16 }
    ensures shown { shown_of table.new.views ≡ told_of ((id, kind) ∷ []) (shown_of table.old.views) }
    ensures len { length table.new.views ≡ length table.old.views }
{
    *table.views.at_mut(id.0 as usize) = zero_view(kind);
}

/// Tells the table of the phis of a block.
fn declare_phis(table: &mut Table, phis: &[Phi])
    requires { FitIn (length table.old.views) (flat_map declares (map PhiItem phis.now)) }
    ensures shown { shown_of table.new.views ≡ told_of (flat_map declares (map PhiItem phis.now)) (shown_of table.old.views) }
    ensures len { length table.new.views ≡ length table.old.views }
{
    for phi in phis {
        declare(table, phi.value, phi.kind);
    }
}

/// Tells the table of the value of an instruction, where it has one.
fn declare_instr(table: &mut Table, instr: &Instr)
    requires { FitIn (length table.old.views) (declares (InstrItem instr.now)) }
    ensures shown { shown_of table.new.views ≡ told_of (declares (InstrItem instr.now)) (shown_of table.old.views) }
    ensures len { length table.new.views ≡ length table.old.views }
{
    match instr.defines() {
        Some((id, kind)) => declare(table, id, kind),
        None => {}
    }
}

/// Tells the table of the instructions of a block.
fn declare_instrs(table: &mut Table, instrs: &[Instr])
    requires { FitIn (length table.old.views) (flat_map declares (map InstrItem instrs.now)) }
    ensures shown { shown_of table.new.views ≡ told_of (flat_map declares (map InstrItem instrs.now)) (shown_of table.old.views) }
    ensures len { length table.new.views ≡ length table.old.views }
{
    for instr in instrs {
        declare_instr(table, instr);
    }
}

/// Tells the table of the values of a block.
fn declare_block(table: &mut Table, block: &Block)
    requires { FitIn (length table.old.views) (declared (BlockThen block.now Nil)) }
    ensures shown { shown_of table.new.views ≡ told_of (declared (BlockThen block.now Nil)) (shown_of table.old.views) }
    ensures len { length table.new.views ≡ length table.old.views }
{
    declare_phis(table, block.phis.as_slice());
    declare_instrs(table, block.instrs.as_slice());
}

/// Tells the table of the values of a list.
#[cycle(declare)]
fn declare_list(table: &mut Table, list: &[Node])
    requires fits { FitIn (length table.old.views) (declared (nodes_of list.now)) }
    ensures shown { shown_of table.new.views ≡ told_of (declared (nodes_of list.now)) (shown_of table.old.views) }
    ensures len { length table.new.views ≡ length table.old.views }
{
    for node in list {
        declare_node(table, node);
    }
}

/// Tells the table of the values of a node.
#[cycle(declare)]
fn declare_node(table: &mut Table, node: &Node)
    requires fits { FitIn (length table.old.views) (declared (nodes_of (node.now ∷ []))) }
    ensures shown { shown_of table.new.views ≡ told_of (declared (nodes_of (node.now ∷ []))) (shown_of table.old.views) }
    ensures len { length table.new.views ≡ length table.old.views }
{
    match node {
        Node::Block(block) => declare_block(table, block),
        Node::If { yes, no, .. } => {
            declare_list(table, yes.as_slice());
            declare_list(table, no.as_slice());
        }
        Node::Loop { body, .. } => declare_list(table, body.as_slice()),
    }
}

/// The table in which a run of the shader starts: each value is 0.
pub(crate) fn start_table(alloc: Global, shader: &Shader) -> Result<Table, OutOfMemory>
    ensures table { IfOk result (λ table. IsTable shader.now table.views) }
    ensures values { IfOk result (λ table. values_of table.views ≡ unwritten shader.now.body) }
{
    let mut table = blank(alloc, shader.next_value)?;
    declare_list(&mut table, shader.body.as_slice());
    Ok(table)
}

/// As many components of 0 as the kind says.
fn zero_comps(alloc: Global, kind: Kind) -> Result<Comps, OutOfMemory>
    ensures { IfOk result (λ comps. comps ≡ zeros kind) }
{
    let mut comps = Comps::new(alloc);
    for _ in 0..kind.count {
        comps.push(0)?;
    }
    Ok(comps)
}

/// The outputs with which a run starts: each is 0.
pub(crate) fn start_outputs(alloc: Global, kinds: &[Kind]) -> Result<Outputs, OutOfMemory>
    ensures { IfOk result (λ outputs. outputs ≡ map zeros kinds.now) }
{
    let mut outputs = Seq::new(alloc);
    for kind in kinds {
        outputs.push(zero_comps(alloc, *kind)?)?;
    }
    Ok(outputs)
}

/// A copy of the buffers, which a run changes.
pub(crate) fn start_buffers(alloc: Global, given: &[Bytes]) -> Result<Buffers, OutOfMemory>
    ensures { IfOk result (λ buffers. buffers ≡ given.now) }
{
    let mut buffers = Seq::new(alloc);
    for bytes in given {
        buffers.push(Seq::from_slice(alloc, bytes.as_slice())?)?;
    }
    Ok(buffers)
}
