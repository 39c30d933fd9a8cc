//! Copies of a whole shader, with other instructions in the place of the one that defines a value.

ghost use Rattle.std.specs.Prelude.{◌≡◌, [], ◌∷◌, ◌++◌, IfOk, OnOk};
ghost use Rattle.nir_ir.specs.Definitions.{is_target};
ghost use Rattle.nir_ir.specs.Edits.{with_news};
ghost use Rattle.nir_ir.specs.Nodes.{nodes_of};
ghost use Rattle.nir_ir.specs.Shaped.{IsShaped};
ghost use Rattle.nir_tree.specs.Edited.{edited, edited_block, edited_instr, edited_instrs, edited_shader};

use crate::parts::{copied_instr, copied_phis, with_room};
use nir_host::{OutOfMemory, Seq};
use nir_ir::{Block, Instr, Instrs, List, Node, Shader, ValueId};
use std::alloc::Global;

/// What a copy of a tree changes.
#[derive(Clone, Copy)]
enum Edit<'a> {
    /// Nothing.
    Keep,
    /// The new instructions stand in the place of the one that defines the value.
    Place { value: ValueId, news: &'a [Instr] },
}

/// The same shader. `OutOfMemory` where there is no memory for it. Linear in the size of the shader.
pub fn copied(alloc: Global, shader: &Shader) -> Result<Shader, OutOfMemory>
    ensures { IfOk result (λ copy. copy ≡ shader.now) }
{
    let next = shader.next_value;
    edited_shader(alloc, shader, Edit::Keep, next)
}

/// The shader with these instructions in the place of the one that defines the value, and this next fresh number;
/// nothing else changes. `OutOfMemory` where there is no memory for it. One walk that copies, linear in the size of
/// the shader and of the new instructions.
pub fn with_instrs(
    alloc: Global,
    shader: &Shader,
    value: ValueId,
    news: &[Instr],
    next: u32,
) -> Result<Shader, OutOfMemory>
    requires shaped { IsShaped (with_news shader.now value news.now next) }
    ensures { IfOk result (λ edited. edited ≡ with_news shader.now value news.now next) }
{
    edited_shader(alloc, shader, Edit::Place { value, news }, next)
}

/// A copy of the shader with the edit, and this next fresh number.
fn edited_shader(
    alloc: Global,
    shader: &Shader,
    edit: Edit,
    next: u32,
) -> Result<Shader, OutOfMemory>
    requires shaped { IsShaped (edited_shader edit shader.now next) }
    ensures { IfOk result (λ copy. copy ≡ edited_shader edit.entry shader.now next) }
{
    let inputs = Seq::from_slice(alloc, shader.inputs.as_slice())?;
    let outputs = Seq::from_slice(alloc, shader.outputs.as_slice())?;
    let body = edited_list(alloc, shader.body.as_slice(), edit)?;
    Ok(Shader {
        inputs,
        outputs,
        buffers: shader.buffers,
        body,
        next_value: next,
    })
}

/// A copy of a list of nodes with the edit.
#[cycle(edited)]
fn edited_list(alloc: Global, list: &[Node], edit: Edit) -> Result<List, OutOfMemory>
    ensures { IfOk result (λ copy. nodes_of copy ≡ edited edit.entry (nodes_of list.now)) }
{
    let mut copy = with_room(alloc, list.len())?;
    for node in list {
        copy.push(edited_node(alloc, node, edit)?)?;
    }
    Ok(copy)
}

/// A copy of a node with the edit.
#[cycle(edited)]
fn edited_node(alloc: Global, node: &Node, edit: Edit) -> Result<Node, OutOfMemory>
    ensures { IfOk result (λ copy. nodes_of (copy ∷ []) ≡ edited edit.entry (nodes_of (node.now ∷ []))) }
{
    match node {
        Node::Block(block) => {
            let block = edited_block(alloc, block, edit)?;
            Ok(Node::Block(block))
        }
        Node::If { id, cond, yes, no } => {
            let yes = edited_list(alloc, yes.as_slice(), edit)?;
            let no = edited_list(alloc, no.as_slice(), edit)?;
            Ok(Node::If {
                id: *id,
                cond: *cond,
                yes,
                no,
            })
        }
        Node::Loop { id, body } => {
            let body = edited_list(alloc, body.as_slice(), edit)?;
            Ok(Node::Loop { id: *id, body })
        }
    }
}

/// A copy of a block with the edit.
fn edited_block(alloc: Global, block: &Block, edit: Edit) -> Result<Block, OutOfMemory>
    ensures { IfOk result (λ copy. copy ≡ edited_block edit.entry block.now) }
{
    let phis = copied_phis(alloc, block.phis.as_slice())?;
    let instrs = edited_instrs(alloc, block.instrs.as_slice(), edit)?;
    Ok(Block {
        id: block.id,
        phis,
        instrs,
        jump: block.jump,
    })
}

/// A copy of the instructions of a block with the edit.
fn edited_instrs(alloc: Global, instrs: &[Instr], edit: Edit) -> Result<Instrs, OutOfMemory>
    ensures { IfOk result (λ copy. copy ≡ edited_instrs edit.entry instrs.now) }
{
    let mut copy = with_room(alloc, instrs.len())?;
    for instr in instrs {
        push_edited(alloc, &mut copy, instr, edit)?;
    }
    Ok(copy)
}

/// Adds what stands in the place of an instruction.
fn push_edited(
    alloc: Global,
    copy: &mut Instrs,
    instr: &Instr,
    edit: Edit,
) -> Result<(), OutOfMemory>
    ensures { OnOk result (copy.new ≡ copy.old ++ edited_instr edit.entry instr.now) }
{
    match edit {
        Edit::Keep => copy.push(copied_instr(alloc, instr)?),
        Edit::Place { value, news } => {
            if defines(instr, value) {
                return push_all(alloc, copy, news);
            }
            copy.push(copied_instr(alloc, instr)?)
        }
    }
}

/// Adds copies of these instructions.
fn push_all(alloc: Global, copy: &mut Instrs, news: &[Instr]) -> Result<(), OutOfMemory>
    ensures { OnOk result (copy.new ≡ copy.old ++ news.now) }
{
    for instr in news {
        copy.push(copied_instr(alloc, instr)?)?;
    }
    Ok(())
}

/// Whether the instruction defines the value.
fn defines(instr: &Instr, value: ValueId) -> bool
    ensures { result ≡ is_target value instr.now }
{
    match instr.target() {
        Some(target) => target.0 == value.0,
        None => false,
    }
}
