//! The uses of a value, listed by a walk through the whole tree.

ghost use Rattle.std.specs.Prelude.{◌≡◌, ◌<◌, ◌^◌, [], ◌∷◌, ◌++◌, cond, length, map, IfOk, OnOk};
ghost use Rattle.std.specs.List.{flat_map, AllByRecursion};
ghost use Rattle.nir_ir.specs.Items.{PhiItem, InstrItem, items};
ghost use Rattle.nir_ir.specs.Nodes.{nodes_of, Nil, BlockThen};
ghost use Rattle.nir_ir.specs.Shaped.{IsShapedInstr, IsShapedItem, IsShapedPhi};
ghost use Rattle.nir_ir.specs.Uses.{is_value};
ghost use Rattle.nir_tree.specs.Listed.{numbered, uses_by, uses_in};
ghost use Rattle.nir_tree.specs.Users.{AreUsers};

use nir_host::{OutOfMemory, Seq};
use nir_ir::{Block, Instr, Node, Phi, PhiSource, Shader, Src, Use, ValueId};
use std::alloc::Global;

/// Uses of a value.
pub type Uses = Seq<Use>;

/// Each use of a value once. They are listed in text order, which no clause says. `OutOfMemory` where there is
/// no memory for the list. Linear in the size of the shader.
pub fn users(alloc: Global, shader: &Shader, value: ValueId) -> Result<Uses, OutOfMemory>
    ensures { IfOk result (λ uses. AreUsers value shader.now.body uses) }
{
    let mut uses = Seq::new(alloc);
    add_list(&mut uses, shader.body.as_slice(), value)?;
    Ok(uses)
}

// Each adds the uses of the value by one part, in text order.

fn add(uses: &mut Uses, used: ValueId, value: ValueId, at: Use) -> Result<(), OutOfMemory>
    ensures { OnOk result (uses.new ≡ uses.old ++ cond (is_value value used) (at ∷ []) []) }
{
    if used.0 == value.0 {
        return uses.push(at);
    }
    Ok(())
}

fn add_srcs(uses: &mut Uses, srcs: &[Src], value: ValueId, user: ValueId) -> Result<(), OutOfMemory>
    requires { length srcs.now < 2 ^ 32 }
    ensures { OnOk result (uses.new ≡ uses.old ++ numbered value (Use.OfValue user) 0 (map (λ src. src.value) srcs.now)) }
{
    for (at, src) in srcs.iter().enumerate() {
        let source = at as u32;
        add(
            uses,
            src.value,
            value,
            Use::OfValue {
                value: user,
                source,
            },
        )?;
    }
    Ok(())
}

fn add_instr(uses: &mut Uses, instr: &Instr, value: ValueId) -> Result<(), OutOfMemory>
    requires { IsShapedInstr instr.now }
    ensures { OnOk result (uses.new ≡ uses.old ++ uses_by value (InstrItem instr.now)) }
{
    match instr {
        Instr::Alu {
            value: user,
            srcs,
            ..
        } => add_srcs(uses, srcs.as_slice(), value, *user),
        Instr::Const { .. } => Ok(()),
        Instr::Undef { .. } => Ok(()),
        Instr::Input { .. } => Ok(()),
        Instr::Output { effect, src, .. } => add(
            uses,
            *src,
            value,
            Use::OfEffect {
                effect: *effect,
                source: 0,
            },
        ),
        Instr::LoadBuf {
            value: user,
            offset,
            ..
        } => add(
            uses,
            *offset,
            value,
            Use::OfValue {
                value: *user,
                source: 0,
            },
        ),
        Instr::StoreBuf {
            effect,
            offset,
            src,
            ..
        } => {
            add(
                uses,
                *offset,
                value,
                Use::OfEffect {
                    effect: *effect,
                    source: 0,
                },
            )?;
            add(
                uses,
                *src,
                value,
                Use::OfEffect {
                    effect: *effect,
                    source: 1,
                },
            )
        }
    }
}

fn add_instrs(uses: &mut Uses, instrs: &[Instr], value: ValueId) -> Result<(), OutOfMemory>
    requires { AllByRecursion IsShapedInstr instrs.now }
    ensures { OnOk result (uses.new ≡ uses.old ++ flat_map (λ instr. uses_by value (InstrItem instr)) instrs.now) }
{
    for instr in instrs {
        add_instr(uses, instr, value)?;
    }
    Ok(())
}

fn add_sources(
    uses: &mut Uses,
    sources: &[PhiSource],
    value: ValueId,
    user: ValueId,
) -> Result<(), OutOfMemory>
    requires { length sources.now < 2 ^ 32 }
    ensures { OnOk result (uses.new ≡ uses.old ++ numbered value (Use.OfValue user) 0 (map (λ source. source.value) sources.now)) }
{
    for (at, phi_source) in sources.iter().enumerate() {
        let source = at as u32;
        add(
            uses,
            phi_source.value,
            value,
            Use::OfValue {
                value: user,
                source,
            },
        )?;
    }
    Ok(())
}

fn add_phis(uses: &mut Uses, phis: &[Phi], value: ValueId) -> Result<(), OutOfMemory>
    requires { AllByRecursion IsShapedPhi phis.now }
    ensures { OnOk result (uses.new ≡ uses.old ++ flat_map (λ phi. uses_by value (PhiItem phi)) phis.now) }
{
    for phi in phis {
        add_sources(uses, phi.sources.as_slice(), value, phi.value)?;
    }
    Ok(())
}

fn add_block(uses: &mut Uses, block: &Block, value: ValueId) -> Result<(), OutOfMemory>
    requires { AllByRecursion IsShapedItem (items (BlockThen block.now Nil)) }
    ensures { OnOk result (uses.new ≡ uses.old ++ uses_in value (BlockThen block.now Nil)) }
{
    add_phis(uses, block.phis.as_slice(), value)?;
    add_instrs(uses, block.instrs.as_slice(), value)
}

#[cycle(users)]
fn add_list(uses: &mut Uses, list: &[Node], value: ValueId) -> Result<(), OutOfMemory>
    requires shaped { AllByRecursion IsShapedItem (items (nodes_of list.now)) }
    ensures { OnOk result (uses.new ≡ uses.old ++ uses_in value (nodes_of list.now)) }
{
    for node in list {
        add_node(uses, node, value)?;
    }
    Ok(())
}

#[cycle(users)]
fn add_node(uses: &mut Uses, node: &Node, value: ValueId) -> Result<(), OutOfMemory>
    requires shaped { AllByRecursion IsShapedItem (items (nodes_of (node.now ∷ []))) }
    ensures { OnOk result (uses.new ≡ uses.old ++ uses_in value (nodes_of (node.now ∷ []))) }
{
    match node {
        Node::Block(block) => add_block(uses, block, value),
        Node::If { id, cond, yes, no } => {
            add(uses, *cond, value, Use::OfIf { at: *id })?;
            add_list(uses, yes.as_slice(), value)?;
            add_list(uses, no.as_slice(), value)
        }
        Node::Loop { body, .. } => add_list(uses, body.as_slice(), value),
    }
}
