//! The lines on rules that are not accepted.

ghost use Rattle.std.specs.Prelude.{◌≡◌, ◌++◌, OnOk, IfOk, codes, decimal};
ghost use Rattle.nir_ops.specs.Opcodes.{name_of};
ghost use Rattle.nir_opt.specs.Answers.{at_values, cause_text, derive_text, log_text, refusal_line, refusal_text, size_text, skipped_text, step_text, typing_text};

use clause_check::LogFault;
use law_derive::DeriveFault;
use nir_host::{Bytes, OutOfMemory};
use nir_ops::{Op, name};
use rule_check::{Refused, RuleCause};
use size_infer::SizeFault;
use std::alloc::Global;
use text_bytes::{push, push_number, push_numbers};

/// Adds the values at which the sides of a rule differ, where there are some.
fn push_at_values(out: &mut Vec<u8>, values: &[u64]) -> Result<(), OutOfMemory>
    ensures { OnOk result (out.new.items ≡ out.old.items ++ at_values values.now) }
{
    match values {
        [] => Ok(()),
        [_, ..] => {
            push(out, b" at ")?;
            push_numbers(out, values)
        }
    }
}

/// Adds a node that has no size.
fn push_node(out: &mut Vec<u8>, node: u32) -> Result<(), OutOfMemory>
    ensures { OnOk result (out.new.items ≡ out.old.items ++ codes "node " ++ decimal node ++ codes " has no size") }
{
    push(out, b"node ")?;
    push_number(out, u64::from(node))?;
    push(out, b" has no size")
}

/// Adds why the sizes of a rule are of no use.
fn push_size(out: &mut Vec<u8>, fault: SizeFault) -> Result<(), OutOfMemory>
    ensures { OnOk result (out.new.items ≡ out.old.items ++ size_text fault) }
{
    match fault {
        SizeFault::Contradiction => push(out, b"no sizes"),
        SizeFault::Ambiguous(node) => push_node(out, node),
        SizeFault::TooMany => push(out, b"too many sizes"),
        SizeFault::OutOfMemory => push(out, b""),
    }
}

/// Adds a step behind these words, with what is wrong with it.
fn push_step(out: &mut Vec<u8>, front: &[u8], step: u64, what: &[u8]) -> Result<(), OutOfMemory>
    ensures { OnOk result (out.new.items ≡ out.old.items ++ step_text front.now step what.now) }
{
    push(out, front)?;
    push_number(out, step)?;
    push(out, what)?;
    Ok(())
}

/// Adds why a derivation shows nothing.
fn push_derive(out: &mut Vec<u8>, fault: DeriveFault) -> Result<(), OutOfMemory>
    ensures { OnOk result (out.new.items ≡ out.old.items ++ derive_text fault) }
{
    match fault {
        DeriveFault::NoLaw(step) => push_step(out, b"derivation step ", step, b": no law"),
        DeriveFault::BadPath(step) => push_step(out, b"derivation step ", step, b": bad path"),
        DeriveFault::NoMatch(step) => push_step(out, b"derivation step ", step, b": no match"),
        DeriveFault::CondMissing(step) => push_step(
            out,
            b"derivation step ",
            step,
            b": condition missing",
        ),
        DeriveFault::WrongEnd => push(out, b"derivation ends elsewhere"),
        DeriveFault::OutOfMemory => push(out, b""),
    }
}

/// Adds why a log shows nothing.
fn push_log(out: &mut Vec<u8>, fault: LogFault) -> Result<(), OutOfMemory>
    ensures { OnOk result (out.new.items ≡ out.old.items ++ log_text fault) }
{
    match fault {
        LogFault::TooLong => push(out, b"log too long"),
        LogFault::BadHint(step) => push_step(out, b"log step ", step, b": bad hint"),
        LogFault::NotUnit(step) => push_step(out, b"log step ", step, b": not a unit"),
        LogFault::NoEmpty => push(out, b"log has no empty clause"),
        LogFault::OutOfMemory => push(out, b""),
    }
}

/// Adds an opcode that has no circuit.
fn push_op(out: &mut Vec<u8>, op: Op) -> Result<(), OutOfMemory>
    ensures { OnOk result (out.new.items ≡ out.old.items ++ codes "no circuit for " ++ name_of op) }
{
    push(out, b"no circuit for ")?;
    push(out, name(op).as_bytes())
}

/// Adds why a rule is not accepted.
fn push_cause(out: &mut Vec<u8>, cause: &RuleCause) -> Result<(), OutOfMemory>
    ensures { OnOk result (out.new.items ≡ out.old.items ++ cause_text cause.now) }
{
    match cause {
        RuleCause::Size(fault) => push_size(out, *fault),
        RuleCause::NoEvidence => push(out, b"no evidence"),
        RuleCause::Cases(values) => {
            push(out, b"cases differ")?;
            push_at_values(out, values.as_slice())
        }
        RuleCause::TooManyCases => push(out, b"too many cases"),
        RuleCause::NoCircuit(op) => push_op(out, *op),
        RuleCause::Log(fault) => push_log(out, *fault),
        RuleCause::Derive(fault) => push_derive(out, *fault),
    }
}

/// Adds the typing at which the evidence of a rule fails, where it is one.
fn push_typing(out: &mut Vec<u8>, typing: Option<u32>) -> Result<(), OutOfMemory>
    ensures { OnOk result (out.new.items ≡ out.old.items ++ typing_text typing) }
{
    match typing {
        Some(typing) => {
            push(out, b" typing ")?;
            push_number(out, u64::from(typing))
        }
        None => Ok(()),
    }
}

/// Adds which rule is not accepted, and why.
fn push_refusal(out: &mut Vec<u8>, refused: &Refused) -> Result<(), OutOfMemory>
    ensures { OnOk result (out.new.items ≡ out.old.items ++ refusal_text refused.now) }
{
    push(out, b"rule ")?;
    push_number(out, u64::from(refused.rule))?;
    push_typing(out, refused.typing)?;
    push(out, b": ")?;
    push_cause(out, &refused.cause)
}

/// Adds the line of a rule that is not accepted behind these words, with its line feed.
pub fn push_refusal_line(
    out: &mut Vec<u8>,
    front: &[u8],
    refused: &Refused,
) -> Result<(), OutOfMemory>
    ensures { OnOk result (out.new.items ≡ out.old.items ++ refusal_line front.now refused.now) }
{
    push(out, front)?;
    push_refusal(out, refused)?;
    push(out, b"\n")
}

/// The line of a rule that is not accepted behind these words, with its line feed.
pub fn line_of_refusal(alloc: Global, front: &[u8], refused: &Refused) -> Result<Bytes, OutOfMemory>
    ensures { IfOk result (λ line. line ≡ refusal_line front.now refused.now) }
{
    let mut out = Vec::new(alloc);
    push_refusal_line(&mut out, front, refused)?;
    Ok(Bytes::from_vec(out))
}

/// One line for each rule that is left out.
pub fn text_of_skipped(alloc: Global, refused: &[Refused]) -> Result<Bytes, OutOfMemory>
    ensures { IfOk result (λ text. text ≡ skipped_text refused.now) }
{
    let mut out = Vec::new(alloc);
    for one in refused {
        push_refusal_line(&mut out, b"skipped ", one)?;
    }
    Ok(Bytes::from_vec(out))
}
