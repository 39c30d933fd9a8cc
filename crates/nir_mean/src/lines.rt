//! The lines of the statuses that name no place, and the text of an outcome.

ghost use Rattle.std.specs.Prelude.{◌≡◌, ◌++◌, true, false, codes, decimal, IfOk, OnErr, OnOk};
ghost use Rattle.std.specs.List.{flat_map};
ghost use Rattle.nir_mean.specs.EvalAnswers.{has_plain_line, IsLine, line_of};
ghost use Rattle.nir_mean.specs.OutcomeText.{ending_text, outcome_text, outputs_text, store_text};
ghost use Rattle.text_bytes.specs.Lists.{numbers_text};

use crate::outcome::{Ending, Outcome, Outputs, Stored, Stores};
use crate::shader_lines::{invalid_line, syntax_line};
use crate::status::Status;
use nir_host::{Bytes, OutOfMemory, Which};
use std::alloc::Global;
use text_bytes::{push, push_number, push_numbers};

/// The line of a status that names no place, with its line feed; nothing for Ok.
pub fn plain_line(status: &Status) -> &'static [u8]
    requires { has_plain_line status.now ≡ true }
    ensures { result.now ≡ line_of status.now }
{
    match status {
        Status::Ok => b"",
        Status::Usage => b"usage: nir_opt eval --turns=N [--input=V] [--buffer=HEX]\n",
        Status::ReadFault(Which::Rules) => b"read failed: rules\n",
        Status::ReadFault(Which::Shader) => b"read failed: shader\n",
        Status::WriteFault => b"write failed\n",
        Status::ShaderSyntax(_) | Status::ShaderInvalid { .. } => b"",
        Status::Misfit => b"inputs do not fit\n",
        Status::TooLong(Which::Rules) => b"too long: rules\n",
        Status::TooLong(Which::Shader) => b"too long: shader\n",
        Status::OutOfMemory => b"out of memory\n",
    }
}

/// The line of a status that names a place or an item, with its line feed; None for every other status.
pub fn built_line(alloc: Global, status: &Status) -> Result<Option<Bytes>, OutOfMemory>
    ensures line { IfOk result (λ built. IsLine built status.now) }
    ensures no_memory { OnErr result (has_plain_line status.now ≡ false) }
{
    match status {
        Status::ShaderSyntax(fault) => Ok(Some(syntax_line(alloc, fault)?)),
        Status::ShaderInvalid { rule, item } => Ok(Some(invalid_line(alloc, *rule, *item)?)),
        Status::Ok
        | Status::Usage
        | Status::ReadFault(_)
        | Status::WriteFault
        | Status::Misfit
        | Status::TooLong(_)
        | Status::OutOfMemory => Ok(None),
    }
}

fn push_ending(out: &mut Vec<u8>, ending: Ending) -> Result<(), OutOfMemory>
    ensures { OnOk result (out.new.items ≡ out.old.items ++ ending_text ending) }
{
    match ending {
        Ending::Done => push(out, b"end done\n"),
        Ending::Cut => push(out, b"end cut\n"),
    }
}

fn push_store(out: &mut Vec<u8>, made: &Stored) -> Result<(), OutOfMemory>
    ensures { OnOk result (out.new.items ≡ out.old.items ++ store_text made.now) }
{
    push(out, b"store @")?;
    push_number(out, u64::from(made.buffer))?;
    push(out, b" ")?;
    push_number(out, u64::from(made.offset))?;
    push(out, b" (")?;
    push_numbers(out, made.comps.as_slice())?;
    push(out, b")\n")
}

fn push_stores(out: &mut Vec<u8>, stores: &Stores) -> Result<(), OutOfMemory>
    ensures { OnOk result (out.new.items ≡ out.old.items ++ flat_map store_text stores.now) }
{
    for made in stores.as_slice() {
        push_store(out, made)?;
    }
    Ok(())
}

fn push_output(out: &mut Vec<u8>, slot: u64, comps: &[u64]) -> Result<(), OutOfMemory>
    ensures { OnOk result (out.new.items ≡ out.old.items ++ (codes "output @" ++ decimal slot ++ codes " (" ++ numbers_text comps.now ++ codes ")\n")) }
{
    push(out, b"output @")?;
    push_number(out, slot)?;
    push(out, b" (")?;
    push_numbers(out, comps)?;
    push(out, b")\n")
}

fn push_outputs(out: &mut Vec<u8>, outputs: &Outputs) -> Result<(), OutOfMemory>
    ensures { OnOk result (out.new.items ≡ out.old.items ++ outputs_text 0 outputs.now) }
{
    let mut slot = 0;
    for comps in outputs.as_slice() {
        push_output(out, slot as u64, comps.as_slice())?;
        slot += 1_usize;
    }
    Ok(())
}

/// The lines that tell an outcome.
#[tactic(auto, unfolding(crate::specs::OutcomeText::outcome_text))]
pub fn outcome_text(alloc: Global, outcome: &Outcome) -> Result<Bytes, OutOfMemory>
    ensures { IfOk result (λ text. text ≡ outcome_text outcome.now) }
{
    let mut out = Vec::new(alloc);
    push_ending(&mut out, outcome.ending)?;
    push_stores(&mut out, &outcome.stores)?;
    push_outputs(&mut out, &outcome.outputs)?;
    Ok(Bytes::from_vec(out))
}
