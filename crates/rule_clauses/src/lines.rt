//! The line of each status.

ghost use Rattle.std.specs.Prelude.{◌≡◌, ◌++◌, false, true, IfOk, OnErr, OnOk, codes, decimal};
ghost use Rattle.rule_clauses.specs.Answers.{has_plain_line, IsLine, line_of, no_circuit_line, no_rule_line, no_typing_line, rule_front, size_text, sizes_line, syntax_line};

use crate::faults::{fault_place, fault_what};
use crate::status::Status;
use nir_host::{Bytes, OutOfMemory};
use nir_ops::{Op, name};
use rule_read::RuleFault;
use size_infer::SizeFault;
use std::alloc::Global;
use text_bytes::{push, push_number};

/// The line of a status that names neither a rule nor a place, with its line feed; nothing for Ok.
pub fn plain_line(status: &Status) -> &'static [u8]
    requires { has_plain_line status.now ≡ true }
    ensures { result.now ≡ line_of status.now }
{
    match status {
        Status::Ok => b"",
        Status::Usage => b"usage: rule_clauses RULES RULE TYPING\n",
        Status::ReadFault => b"read failed: rules\n",
        Status::WriteFault => b"write failed\n",
        Status::TooLong => b"too long: rules\n",
        Status::OutOfMemory => b"out of memory\n",
        Status::RulesSyntax(_)
        | Status::NoRule(_)
        | Status::NoSizes { .. }
        | Status::NoTyping { .. }
        | Status::NoCircuit { .. } => b"",
    }
}

/// The line for a rule text that is not in the grammar, with its line feed.
fn syntax_line(alloc: Global, fault: &RuleFault) -> Result<Bytes, OutOfMemory>
    ensures { IfOk result (λ line. line ≡ syntax_line fault.now) }
{
    let mut out = Vec::new(alloc);
    push(&mut out, b"rules: byte ")?;
    push_number(&mut out, fault_place(fault))?;
    push(&mut out, b": ")?;
    push(&mut out, fault_what(fault))?;
    push(&mut out, b"\n")?;
    Ok(Bytes::from_vec(out))
}

/// Adds the front of the line on a rule.
fn push_rule(out: &mut Vec<u8>, number: u32) -> Result<(), OutOfMemory>
    ensures { OnOk result (out.new.items ≡ out.old.items ++ rule_front number) }
{
    push(out, b"rules: rule ")?;
    push_number(out, u64::from(number))
}

fn line_of_no_rule(alloc: Global, number: u32) -> Result<Bytes, OutOfMemory>
    ensures { IfOk result (λ line. line ≡ no_rule_line number) }
{
    let mut out = Vec::new(alloc);
    push_rule(&mut out, number)?;
    push(&mut out, b": no such rule\n")?;
    Ok(Bytes::from_vec(out))
}

/// Adds a node that has no size.
fn push_node(out: &mut Vec<u8>, node: u32) -> Result<(), OutOfMemory>
    ensures { OnOk result (out.new.items ≡ out.old.items ++ codes "node " ++ decimal node ++ codes " has no size") }
{
    push(out, b"node ")?;
    push_number(out, u64::from(node))?;
    push(out, b" has no size")
}

/// Adds why the sizes of a rule are of no use.
fn push_size(out: &mut Vec<u8>, fault: SizeFault) -> Result<(), OutOfMemory>
    ensures { OnOk result (out.new.items ≡ out.old.items ++ size_text fault) }
{
    match fault {
        SizeFault::Contradiction => push(out, b"no sizes"),
        SizeFault::Ambiguous(node) => push_node(out, node),
        SizeFault::TooMany => push(out, b"too many sizes"),
        SizeFault::OutOfMemory => push(out, b""),
    }
}

fn line_of_sizes(alloc: Global, number: u32, fault: SizeFault) -> Result<Bytes, OutOfMemory>
    ensures { IfOk result (λ line. line ≡ sizes_line number fault) }
{
    let mut out = Vec::new(alloc);
    push_rule(&mut out, number)?;
    push(&mut out, b": ")?;
    push_size(&mut out, fault)?;
    push(&mut out, b"\n")?;
    Ok(Bytes::from_vec(out))
}

fn line_of_no_typing(alloc: Global, number: u32, typing: u32) -> Result<Bytes, OutOfMemory>
    ensures { IfOk result (λ line. line ≡ no_typing_line number typing) }
{
    let mut out = Vec::new(alloc);
    push_rule(&mut out, number)?;
    push(&mut out, b" typing ")?;
    push_number(&mut out, u64::from(typing))?;
    push(&mut out, b": no such typing\n")?;
    Ok(Bytes::from_vec(out))
}

fn line_of_no_circuit(alloc: Global, number: u32, op: Op) -> Result<Bytes, OutOfMemory>
    ensures { IfOk result (λ line. line ≡ no_circuit_line number op) }
{
    let mut out = Vec::new(alloc);
    push_rule(&mut out, number)?;
    push(&mut out, b": no circuit for ")?;
    push(&mut out, name(op).as_bytes())?;
    push(&mut out, b"\n")?;
    Ok(Bytes::from_vec(out))
}

/// The line of a status that names a rule or a place, with its line feed; None for every other status.
pub fn built_line(alloc: Global, status: &Status) -> Result<Option<Bytes>, OutOfMemory>
    ensures line { IfOk result (λ built. IsLine built status.now) }
    ensures no_memory { OnErr result (has_plain_line status.now ≡ false) }
{
    match status {
        Status::RulesSyntax(fault) => Ok(Some(syntax_line(alloc, fault)?)),
        Status::NoRule(rule) => Ok(Some(line_of_no_rule(alloc, *rule)?)),
        Status::NoSizes { rule, fault } => Ok(Some(line_of_sizes(alloc, *rule, *fault)?)),
        Status::NoTyping { rule, typing } => Ok(Some(line_of_no_typing(alloc, *rule, *typing)?)),
        Status::NoCircuit { rule, op } => Ok(Some(line_of_no_circuit(alloc, *rule, *op)?)),
        Status::Ok
        | Status::Usage
        | Status::ReadFault
        | Status::WriteFault
        | Status::TooLong
        | Status::OutOfMemory => Ok(None),
    }
}
