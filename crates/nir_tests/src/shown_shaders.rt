//! Shaders in a form of their own, by which tests tell them apart.

use nir_ir::{Block, Instr, Jump, Kind, Node, Phi, Shader, Src};
use std::alloc::{AllocError, Global};
use std::fmt::Write;

/// The declarations in one line, and then the body.
pub(crate) fn show_shader(alloc: Global, shader: &Shader) -> Result<String, AllocError> {
    let mut out = String::new(alloc);
    out.push_str("in")?;
    show_kinds(&mut out, shader.inputs.as_slice())?;
    out.push_str(" out")?;
    show_kinds(&mut out, shader.outputs.as_slice())?;
    write!(
        out,
        " buffers {} next {}",
        shader.buffers, shader.next_value
    )?;
    show_list(&mut out, shader.body.as_slice())?;
    Ok(out)
}

fn show_kinds(out: &mut String, kinds: &[Kind]) -> Result<(), AllocError> {
    for kind in kinds {
        out.push(' ')?;
        show_kind(out, *kind)?;
    }
    Ok(())
}

fn show_kind(out: &mut String, kind: Kind) -> Result<(), AllocError> {
    write!(out, "{:?}x{}", kind.width, kind.count)
}

#[cycle(show)]
fn show_list(out: &mut String, nodes: &[Node]) -> Result<(), AllocError> {
    out.push_str(" {")?;
    for node in nodes {
        show_node(out, node)?;
    }
    out.push_str(" }")
}

#[cycle(show)]
fn show_node(out: &mut String, node: &Node) -> Result<(), AllocError> {
    match node {
        Node::Block(block) => show_block(out, block),
        Node::If { id, cond, yes, no } => {
            write!(out, " if{} v{}", id.0, cond.0)?;
            show_list(out, yes.as_slice())?;
            show_list(out, no.as_slice())
        }
        Node::Loop { id, body } => {
            write!(out, " loop{}", id.0)?;
            show_list(out, body.as_slice())
        }
    }
}

fn show_block(out: &mut String, block: &Block) -> Result<(), AllocError> {
    write!(out, " b{}[", block.id.0)?;
    for phi in block.phis.as_slice() {
        show_phi(out, phi)?;
    }
    for instr in block.instrs.as_slice() {
        show_instr(out, instr)?;
    }
    match block.jump {
        Some(Jump::Break) => out.push_str(" break")?,
        Some(Jump::Continue) => out.push_str(" continue")?,
        None => {}
    }
    out.push_str(" ]")
}

fn show_phi(out: &mut String, phi: &Phi) -> Result<(), AllocError> {
    write!(out, " v{} phi ", phi.value.0)?;
    show_kind(out, phi.kind)?;
    for source in phi.sources.as_slice() {
        write!(out, " b{}:v{}", source.from.0, source.value.0)?;
    }
    out.push(';')
}

fn show_instr(out: &mut String, instr: &Instr) -> Result<(), AllocError> {
    match instr {
        Instr::Alu {
            value,
            op,
            kind,
            srcs,
        } => {
            write!(out, " v{} {:?} ", value.0, op)?;
            show_kind(out, *kind)?;
            show_srcs(out, srcs.as_slice())?;
        }
        Instr::Const { value, kind, comps } => {
            write!(out, " v{} const ", value.0)?;
            show_kind(out, *kind)?;
            write!(out, " {:?}", comps.as_slice())?;
        }
        Instr::Undef { value, kind } => {
            write!(out, " v{} undef ", value.0)?;
            show_kind(out, *kind)?;
        }
        Instr::Input { value, kind, slot } => {
            write!(out, " v{} input ", value.0)?;
            show_kind(out, *kind)?;
            write!(out, " {slot}")?;
        }
        Instr::Output { effect, slot, src } => {
            write!(out, " e{} output {slot} v{}", effect.0, src.0)?;
        }
        Instr::LoadBuf {
            value,
            kind,
            buffer,
            offset,
        } => {
            write!(out, " v{} load ", value.0)?;
            show_kind(out, *kind)?;
            write!(out, " {buffer} v{}", offset.0)?;
        }
        Instr::StoreBuf {
            effect,
            buffer,
            offset,
            src,
        } => {
            write!(
                out,
                " e{} store {buffer} v{} v{}",
                effect.0, offset.0, src.0
            )?;
        }
    }
    out.push(';')
}

fn show_srcs(out: &mut String, srcs: &[Src]) -> Result<(), AllocError> {
    for src in srcs {
        write!(out, " v{}.{:?}", src.value.0, src.swizzle.as_slice())?;
    }
    Ok(())
}
