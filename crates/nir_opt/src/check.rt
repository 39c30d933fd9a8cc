//! The command `check`: which rules of a file are accepted, line by line.

ghost use Rattle.std.specs.Prelude.{◌≡◌, ◌⊎◌, ◌++◌, ℕ, List, Some, OnOk, IfOk, slice_get};
ghost use Rattle.std.specs.Option.{option_copied};
ghost use Rattle.nir_host.specs.Faults.{Rose};
ghost use Rattle.nir_host.specs.Told.{Gains};
ghost use Rattle.nir_host.specs.Whole.{TakesFront};
ghost use Rattle.nir_mean.specs.ShaderLines.{TakesLine};
ghost use Rattle.rule_check.specs.Accepted.{entries_say, refusals};
ghost use Rattle.nir_opt.specs.Answers.{check_usage_line, IsLine, line_with};
ghost use Rattle.nir_opt.specs.Asked.{verdict};
ghost use Rattle.nir_opt.specs.Checked.{check_text, RanCheck, verdict_line};
ghost use Rattle.rule_check.specs.declared.refused.Refused.{Refused as Why};

use crate::lines::built_line;
use crate::refusals::push_refusal_line;
use crate::report::{CHECK_USAGE, Told, note_told, with_line};
use crate::status::Status;
use crate::texts::read_file;
use nir_host::{Bytes, OutOfMemory, Sink, Source, write_all};
use rule_check::{Refused, refusal_of};
use rule_read::Entry;
use run_words::is_rules_alone;
use std::alloc::Global;
use text_bytes::{push, push_number};

/// What is written of a file: a line for each rule, and the status that is told where they were taken.
#[derive(Debug, Drop)]
struct Judged {
    text: Bytes,
    told: Told,
}

/// Adds the line of a rule that is accepted, or is not.
fn push_verdict(
    out: &mut Vec<u8>,
    number: u32,
    refused: Option<&Refused>,
) -> Result<(), OutOfMemory>
    ensures { OnOk result (out.new.items ≡ out.old.items ++ verdict_line number (option_copied refused.entry)) }
{
    match refused {
        Some(refused) => push_refusal_line(out, b"", refused),
        None => {
            push(out, b"rule ")?;
            push_number(out, u64::from(number))?;
            push(out, b" accepted\n")
        }
    }
}

/// The lines of all rules, and the verdict on them.
fn judge(alloc: Global, entries: &[Entry]) -> Result<Judged, OutOfMemory>
    ensures text { IfOk result (λ judged. judged.text ≡ check_text (entries_say entries.now)) }
    ensures verdict { IfOk result (λ judged. judged.told.status ≡ verdict (refusals (entries_say entries.now))) }
    ensures line { IfOk result (λ judged. IsLine check_usage_line judged.told.built judged.told.status) }
{
    let mut text = Vec::new(alloc);
    let mut first = None;
    for entry in entries {
        let refused = refusal_of(alloc, entry)?;
        push_verdict(&mut text, entry.rule.number, refused.as_ref())?;
        first = first.or(refused);
    }
    let status = verdict_of(first);
    let built = built_line(alloc, CHECK_USAGE, &status)?;
    Ok(Judged {
        text: Bytes::from_vec(text),
        told: Told { status, built },
    })
}

/// What the first rule that is not accepted makes of a file.
fn verdict_of(first: Option<Refused>) -> Status
    ensures { (list : List Why) → slice_get list 0 ≡ first → result ≡ verdict list }
{
    match first {
        Some(refused) => Status::RuleRefused(refused),
        None => Status::Ok,
    }
}

/// Writes the line of a status, and answers it.
fn told<N: Sink>(notes: &mut N, told: Told) -> Status
    requires { IsLine check_usage_line told.built told.status }
    ensures status { result ≡ told.status }
    ensures notes { TakesLine (N.taken notes.old) (N.taken notes.new) (N.faults notes.old) (N.faults notes.new) (line_with check_usage_line result) }
{
    let _heard = note_told(notes, true, CHECK_USAGE, &told);
    let Told { status, .. } = told;
    status
}

/// Writes the lines of a file, and tells the verdict where they were taken.
fn written_whole<K: Sink, N: Sink>(out: &mut K, notes: &mut N, judged: Judged) -> Status
    requires { IsLine check_usage_line judged.told.built judged.told.status }
    ensures status { ((result ≡ judged.told.status) × Gains (K.taken out.old) (K.taken out.new) judged.text)
        ⊎ ((result ≡ Status.WriteFault) × Rose (K.faults out.old) (K.faults out.new)
        × ((before : List ℕ) → K.taken out.old ≡ Some before → TakesFront before (K.taken out.new) judged.text)) }
    ensures notes { TakesLine (N.taken notes.old) (N.taken notes.new) (N.faults notes.old) (N.faults notes.new) (line_with check_usage_line result) }
{
    match write_all(out, judged.text.as_slice()) {
        Ok(()) => told(notes, judged.told),
        Err(_fault) => told(
            notes,
            Told {
                status: Status::WriteFault,
                built: None,
            },
        ),
    }
}

/// Reads the rules, and writes for each of them whether it is accepted or why not: one line a rule, all in one writing.
///
/// The words are RULES alone. The order is fixed: the words; the rules read to their end; the rule text; the rules checked; the writing. The
/// status is that of a rule that is not accepted, with the first such rule, where there is one and the writing ended well. The line of the
/// status goes to `notes`, whose faults change nothing. Want of memory may end it at any point after the words.
pub fn run_check<R: Source, K: Sink, N: Sink>(
    alloc: Global,
    words: &[Bytes],
    rules: &mut R,
    out: &mut K,
    notes: &mut N,
) -> Status
    ensures { RanCheck words.now
        (record { left_before = R.left rules.old; left_after = R.left rules.new; faults_before = R.faults rules.old; faults_after = R.faults rules.new })
        (record { taken_before = K.taken out.old; taken_after = K.taken out.new; faults_before = K.faults out.old; faults_after = K.faults out.new })
        (record { taken_before = N.taken notes.old; taken_after = N.taken notes.new; faults_before = N.faults notes.old; faults_after = N.faults notes.new })
        result }
{
    if !is_rules_alone(words) {
        return told(notes, with_line(alloc, CHECK_USAGE, Status::Usage));
    }
    let file = match read_file(alloc, rules) {
        Ok(file) => file,
        Err(status) => return told(notes, with_line(alloc, CHECK_USAGE, status)),
    };
    let Ok(judged) = judge(alloc, file.entries.as_slice()) else {
        return told(notes, with_line(alloc, CHECK_USAGE, Status::OutOfMemory));
    };
    written_whole(out, notes, judged)
}
