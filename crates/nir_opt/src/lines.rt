//! The line of each status.

ghost use Rattle.std.specs.Prelude.{◌≡◌, ◌++◌, false, true, IfOk, OnErr};
ghost use Rattle.nir_opt.specs.Answers.{has_plain_line, IsLine, line_with, rules_line, stopped_text};

use crate::faults::{rule_fault_place, rule_fault_what};
use crate::refusals::line_of_refusal;
use crate::status::Status;
use nir_host::{Bytes, OutOfMemory, Which};
use nir_mean::{invalid_line, syntax_line};
use rule_read::RuleFault;
use std::alloc::Global;
use text_bytes::{push, push_number};

/// The line of a status that names neither a rule nor a place, with its line feed; nothing for Ok. `usage` is what is told of the words.
pub fn plain_line<'a>(usage: &'a [u8], status: &Status) -> &'a [u8]
    requires { has_plain_line status.now ≡ true }
    ensures { result.now ≡ line_with usage.now status.now }
{
    match status {
        Status::Ok => b"",
        Status::Usage => usage,
        Status::ReadFault(Which::Rules) => b"read failed: rules\n",
        Status::ReadFault(Which::Shader) => b"read failed: shader\n",
        Status::WriteFault => b"write failed\n",
        Status::RulesSyntax(_)
        | Status::RuleRefused(_)
        | Status::ShaderSyntax(_)
        | Status::ShaderInvalid { .. } => b"",
        Status::TooLong(Which::Rules) => b"too long: rules\n",
        Status::TooLong(Which::Shader) => b"too long: shader\n",
        Status::OutOfMemory => b"out of memory\n",
    }
}

/// The line for a rule text that is not in the grammar, with its line feed.
fn line_of_rules(alloc: Global, fault: &RuleFault) -> Result<Bytes, OutOfMemory>
    ensures { IfOk result (λ line. line ≡ rules_line fault.now) }
{
    let mut out = Vec::new(alloc);
    push(&mut out, b"rules: byte ")?;
    push_number(&mut out, rule_fault_place(fault))?;
    push(&mut out, b": ")?;
    push(&mut out, rule_fault_what(fault))?;
    push(&mut out, b"\n")?;
    Ok(Bytes::from_vec(out))
}

/// The line of a status that names a rule or a place, with its line feed; None for every other status.
pub fn built_line(
    alloc: Global,
    usage: &[u8],
    status: &Status,
) -> Result<Option<Bytes>, OutOfMemory>
    ensures line { IfOk result (λ built. IsLine usage.now built status.now) }
    ensures no_memory { OnErr result (has_plain_line status.now ≡ false) }
{
    let _ = usage;
    match status {
        Status::RulesSyntax(fault) => Ok(Some(line_of_rules(alloc, fault)?)),
        Status::RuleRefused(refused) => Ok(Some(line_of_refusal(alloc, b"rules: ", refused)?)),
        Status::ShaderSyntax(fault) => Ok(Some(syntax_line(alloc, fault)?)),
        Status::ShaderInvalid { rule, item } => Ok(Some(invalid_line(alloc, *rule, *item)?)),
        Status::Ok
        | Status::Usage
        | Status::ReadFault(_)
        | Status::WriteFault
        | Status::TooLong(_)
        | Status::OutOfMemory => Ok(None),
    }
}

/// The line that tells that the limit on rewrites stopped a run, with its line feed.
pub fn stopped_line(alloc: Global, rewrites: u64) -> Result<Bytes, OutOfMemory>
    ensures { IfOk result (λ line. line ≡ stopped_text rewrites) }
{
    let mut out = Vec::new(alloc);
    push(&mut out, b"stopped at ")?;
    push_number(&mut out, rewrites)?;
    push(&mut out, b" rewrites\n")?;
    Ok(Bytes::from_vec(out))
}
