//! The steps of an optimisation as text.
#![tactic(auto)]

ghost use Rattle.std.specs.Prelude.{◌≡◌, ◌++◌, OnOk, decimal};
ghost use Rattle.journal_text.specs.Journal.{journal_text, step_line, step_text, use_text};

use nir_host::OutOfMemory;
use nir_ir::{Step, Use};
use text_bytes::{push, push_number};

/// Adds a word and a number.
fn push_named(out: &mut Vec<u8>, word: &[u8], number: u32) -> Result<(), OutOfMemory>
    ensures { OnOk result (out.new.items ≡ out.old.items ++ word.now ++ decimal number) }
{
    push(out, word)?;
    push_number(out, u64::from(number))
}

/// Adds the use that takes the source of a mov.
fn push_use(out: &mut Vec<u8>, at: Use) -> Result<(), OutOfMemory>
    ensures { OnOk result (out.new.items ≡ out.old.items ++ use_text at) }
{
    match at {
        Use::OfValue { value, source } => {
            push_named(out, b"value ", value.0)?;
            push_named(out, b" source ", source)
        }
        Use::OfEffect { effect, source } => {
            push_named(out, b"effect ", effect.0)?;
            push_named(out, b" source ", source)
        }
        Use::OfIf { at } => push_named(out, b"if ", at.0),
    }
}

/// Adds what a step did.
fn push_step(out: &mut Vec<u8>, step: Step) -> Result<(), OutOfMemory>
    ensures { OnOk result (out.new.items ≡ out.old.items ++ step_text step) }
{
    match step {
        Step::Rule {
            value,
            rule,
            variant,
        } => {
            push_named(out, b"rule ", rule)?;
            push_named(out, b" variant ", variant)?;
            push_named(out, b" value ", value.0)
        }
        Step::Fold { value } => push_named(out, b"fold value ", value.0),
        Step::Copy { at } => {
            push(out, b"copy ")?;
            push_use(out, at)
        }
        Step::Sweep => push(out, b"sweep"),
        Step::Phi { value } => push_named(out, b"phi value ", value.0),
        Step::Branch { at } => push_named(out, b"branch ", at.0),
        Step::Empty { at } => push_named(out, b"empty ", at.0),
        Step::Once { at } => push_named(out, b"once ", at.0),
    }
}

/// Adds the line of a step, with its line feed.
fn push_line(out: &mut Vec<u8>, step: Step) -> Result<(), OutOfMemory>
    ensures { OnOk result (out.new.items ≡ out.old.items ++ step_line step) }
{
    push(out, b"# ")?;
    push_step(out, step)?;
    push(out, b"\n")
}

/// Adds one line for each step, in order: `# rule R variant C value V`, `# fold value V`, `# copy value V source K`,
/// `# copy effect E source K`, `# copy if I`, `# sweep`, `# phi value V`, `# branch I`, `# empty I` or `# once L`. R is the number of the
/// rule in its file. `OutOfMemory` where there is no memory for all of them.
pub fn push_journal(out: &mut Vec<u8>, steps: &[Step]) -> Result<(), OutOfMemory>
    ensures { OnOk result (out.new.items ≡ out.old.items ++ journal_text steps.now) }
{
    for step in steps {
        push_line(out, *step)?;
    }
    Ok(())
}
