//! The lines that say what is wrong with a shader text or with its shader.

ghost use Rattle.std.specs.Prelude.{◌≡◌, IfOk};
ghost use Rattle.nir_mean.specs.ShaderLines.{invalid_line, syntax_line};

use crate::faults::{fault_place, fault_what};
use nir_host::{Bytes, OutOfMemory};
use nir_text::TextFault;
use std::alloc::Global;
use text_bytes::{push, push_number};

/// The line for a shader text that is not in the grammar, with its line feed. `OutOfMemory` where there is no memory
/// for it.
pub fn syntax_line(alloc: Global, fault: &TextFault) -> Result<Bytes, OutOfMemory>
    ensures { IfOk result (λ line. line ≡ syntax_line fault.now) }
{
    let mut out = Vec::new(alloc);
    push(&mut out, b"shader: byte ")?;
    push_number(&mut out, fault_place(fault))?;
    push(&mut out, b": ")?;
    push(&mut out, fault_what(fault))?;
    push(&mut out, b"\n")?;
    Ok(Bytes::from_vec(out))
}

/// The line for a shader that breaks this rule of valid shaders first, at this item, with its line feed. `OutOfMemory`
/// where there is no memory for it.
pub fn invalid_line(alloc: Global, rule: u8, item: u64) -> Result<Bytes, OutOfMemory>
    ensures { IfOk result (λ line. line ≡ invalid_line rule item) }
{
    let mut out = Vec::new(alloc);
    push(&mut out, b"shader: V")?;
    push_number(&mut out, u64::from(rule))?;
    push(&mut out, b" at item ")?;
    push_number(&mut out, item)?;
    push(&mut out, b"\n")?;
    Ok(Bytes::from_vec(out))
}
