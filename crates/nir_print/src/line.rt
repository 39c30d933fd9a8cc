//! What the lines of a block say: phis, instructions and jumps.

ghost use Rattle.std.specs.Prelude.{◌≡◌, ◌++◌, OnOk, codes, decimal};
ghost use Rattle.nir_ir.specs.declared.instr.Instr.TheVariants.{Alu, Const, Input, LoadBuf};
ghost use Rattle.nir_print.specs.Text.{defining, phi_text, instr_text, jump_text, value_text};

use crate::naming::Naming;
use crate::sources::push_phi_sources;
use crate::word::{push_kind, push_srcs, push_value};
use nir_host::OutOfMemory;
use nir_ir::{Comps, Instr, Jump, Kind, Phi, Srcs, ValueId};
use nir_ops::{Op, name};
use std::alloc::Global;
use text_bytes::{push, push_number, push_numbers};

/// Adds what defines a value: its name, the word and the kind.
fn push_defining(
    out: &mut Vec<u8>,
    naming: &Naming,
    value: ValueId,
    word: &[u8],
    kind: Kind,
) -> Result<(), OutOfMemory>
    ensures { OnOk result (out.new.items ≡ out.old.items ++ defining naming.now value word.now kind) }
{
    push_value(out, naming, value)?;
    push(out, b" = ")?;
    push(out, word)?;
    push(out, b" ")?;
    push_kind(out, kind)
}

/// Adds a slot or a buffer.
fn push_at(out: &mut Vec<u8>, number: u32) -> Result<(), OutOfMemory>
    ensures { OnOk result (out.new.items ≡ out.old.items ++ codes "@" ++ decimal number) }
{
    push(out, b"@")?;
    push_number(out, u64::from(number))
}

/// Adds an operand behind a comma.
fn push_next(out: &mut Vec<u8>, naming: &Naming, value: ValueId) -> Result<(), OutOfMemory>
    ensures { OnOk result (out.new.items ≡ out.old.items ++ codes ", " ++ value_text naming.now value) }
{
    push(out, b", ")?;
    push_value(out, naming, value)
}

fn push_alu(
    out: &mut Vec<u8>,
    naming: &Naming,
    value: ValueId,
    op: Op,
    kind: Kind,
    srcs: &Srcs,
) -> Result<(), OutOfMemory>
    ensures { OnOk result (out.new.items ≡ out.old.items ++ instr_text naming.now (Alu value op kind srcs.now)) }
{
    push_defining(out, naming, value, name(op).as_bytes(), kind)?;
    push(out, b" ")?;
    push_srcs(out, naming, srcs.as_slice())
}

fn push_const(
    out: &mut Vec<u8>,
    naming: &Naming,
    value: ValueId,
    kind: Kind,
    comps: &Comps,
) -> Result<(), OutOfMemory>
    ensures { OnOk result (out.new.items ≡ out.old.items ++ instr_text naming.now (Const value kind comps.now)) }
{
    push_defining(out, naming, value, b"const", kind)?;
    push(out, b" (")?;
    push_numbers(out, comps.as_slice())?;
    push(out, b")")
}

fn push_input(
    out: &mut Vec<u8>,
    naming: &Naming,
    value: ValueId,
    kind: Kind,
    slot: u32,
) -> Result<(), OutOfMemory>
    ensures { OnOk result (out.new.items ≡ out.old.items ++ instr_text naming.now (Input value kind slot)) }
{
    push_defining(out, naming, value, b"input", kind)?;
    push(out, b" ")?;
    push_at(out, slot)
}

fn push_output(
    out: &mut Vec<u8>,
    naming: &Naming,
    slot: u32,
    src: ValueId,
) -> Result<(), OutOfMemory>
    ensures { OnOk result (out.new.items ≡ out.old.items ++ codes "output @" ++ decimal slot ++ codes ", " ++ value_text naming.now src) }
{
    push(out, b"output ")?;
    push_at(out, slot)?;
    push_next(out, naming, src)
}

fn push_load(
    out: &mut Vec<u8>,
    naming: &Naming,
    value: ValueId,
    kind: Kind,
    buffer: u32,
    offset: ValueId,
) -> Result<(), OutOfMemory>
    ensures { OnOk result (out.new.items ≡ out.old.items ++ instr_text naming.now (LoadBuf value kind buffer offset)) }
{
    push_defining(out, naming, value, b"load", kind)?;
    push(out, b" ")?;
    push_at(out, buffer)?;
    push_next(out, naming, offset)
}

fn push_store(
    out: &mut Vec<u8>,
    naming: &Naming,
    buffer: u32,
    offset: ValueId,
    src: ValueId,
) -> Result<(), OutOfMemory>
    ensures { OnOk result (out.new.items
        ≡ out.old.items ++ codes "store @" ++ decimal buffer ++ codes ", " ++ value_text naming.now offset ++ codes ", " ++ value_text naming.now src) }
{
    push(out, b"store ")?;
    push_at(out, buffer)?;
    push_next(out, naming, offset)?;
    push_next(out, naming, src)
}

/// Adds an instruction.
pub(crate) fn push_instr(
    out: &mut Vec<u8>,
    naming: &Naming,
    instr: &Instr,
) -> Result<(), OutOfMemory>
    ensures { OnOk result (out.new.items ≡ out.old.items ++ instr_text naming.now instr.now) }
{
    match instr {
        Instr::Alu {
            value,
            op,
            kind,
            srcs,
        } => push_alu(out, naming, *value, *op, *kind, srcs),
        Instr::Const { value, kind, comps } => push_const(out, naming, *value, *kind, comps),
        Instr::Undef { value, kind } => push_defining(out, naming, *value, b"undef", *kind),
        Instr::Input { value, kind, slot } => push_input(out, naming, *value, *kind, *slot),
        Instr::Output { slot, src, .. } => push_output(out, naming, *slot, *src),
        Instr::LoadBuf {
            value,
            kind,
            buffer,
            offset,
        } => push_load(out, naming, *value, *kind, *buffer, *offset),
        Instr::StoreBuf {
            buffer,
            offset,
            src,
            ..
        } => push_store(out, naming, *buffer, *offset, *src),
    }
}

/// Adds a phi, its sources in block order.
pub(crate) fn push_phi(
    alloc: Global,
    out: &mut Vec<u8>,
    naming: &Naming,
    phi: &Phi,
) -> Result<(), OutOfMemory>
    ensures { OnOk result (out.new.items ≡ out.old.items ++ phi_text naming.now phi.now) }
{
    push_defining(out, naming, phi.value, b"phi", phi.kind)?;
    push(out, b" [")?;
    push_phi_sources(alloc, out, naming, phi.sources.as_slice())?;
    push(out, b"]")
}

/// Adds a jump.
pub(crate) fn push_jump(out: &mut Vec<u8>, jump: Jump) -> Result<(), OutOfMemory>
    ensures { OnOk result (out.new.items ≡ out.old.items ++ jump_text jump) }
{
    match jump {
        Jump::Break => push(out, b"break"),
        Jump::Continue => push(out, b"continue"),
    }
}
