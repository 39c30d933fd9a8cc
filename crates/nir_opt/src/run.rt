//! The top call: bytes in, bytes out.

ghost use Rattle.std.specs.Prelude.{◌≡◌, ℕ, Bool, ◌↔◌, ◌≢◌, List, [], None, Some, Ok, OnErr, true, false, nat_le};
ghost use Rattle.nir_host.specs.Faults.{Rose};
ghost use Rattle.nir_host.specs.Told.{Gains};
ghost use Rattle.nir_host.specs.Whole.{TakesFront};
ghost use Rattle.nir_ir.specs.Shader.{Shader};
ghost use Rattle.nir_text.specs.declared.fault.TextFault.{TextFault};
ghost use Rattle.term_read.specs.declared.fault.RuleFault.{RuleFault};
ghost use Rattle.nir_mean.specs.Faults.{is_of_text};
ghost use Rattle.nir_mean.specs.ShaderText.{ReadsToEnd};
ghost use Rattle.run_words.specs.RunWords.{Given, run_words};
ghost use Rattle.nir_opt.specs.Answers.{is_of_rule_text, place_of, skipped_text};
ghost use Rattle.nir_opt.specs.Asked.{asked, Fits, IsAsked, rules_answer, shader_answer, stage_of};
ghost use Rattle.nir_opt.specs.Heard.{Hears};
ghost use Rattle.nir_opt.specs.Printed.{IsPrinted, printed_text};
ghost use Rattle.nir_opt.specs.Ran.{Notes, Ran};

use crate::printed::printed_last;
use crate::refusals::text_of_skipped;
use crate::report::{USAGE, finished, note, stopped, with_line};
use crate::status::{Report, Status};
use crate::texts::{read_shader_text, read_table};
use nir_host::{Bytes, OutOfMemory, Sink, Source, Which};
use nir_search::Steps;
use nir_text::TextFault;
use rule_check::Refused;
use rule_read::RuleFault;
use run_words::run_words;
use std::alloc::Global;
use std::sync::ledger::Ledger;

/// Reads the rules and the shader, uses the rules until none matches or the limit on rewrites stops it, and prints the last shader: the
/// whole text in one writing at the end, with the steps behind it where the words ask for them.
///
/// The order is fixed: the words; the rules read to their end; the rule text; the rules checked; the shader read to its end; the shader
/// text; whether the shader is valid; the rewriting; the writing. Nothing goes to `out` before the text is whole, and want of memory may
/// end the run at any point after the words. A line for each rule that is left out goes to `notes` before the shader is read, and the
/// line of the status at the end; the faults of `notes` change nothing. `steps` counts calls of the matcher.
pub fn run<R: Source, S: Source, K: Sink, N: Sink, L: Ledger>(
    alloc: Global,
    words: &[Bytes],
    rules: &mut R,
    shader: &mut S,
    out: &mut K,
    notes: &mut N,
    steps: &mut Steps<L>,
) -> Report
    // Which status it is, as far as the bytes are told: that of the first text, and of both.
    ensures words { (result.status ≡ Status.Usage) ↔ (run_words words.now ≡ None) }
    ensures rules_text { (said : Given) → run_words words.now ≡ Some said → (text : List ℕ) → R.left rules.old ≡ Some text → Fits 1 result.status (rules_answer said.skip text) }
    ensures shader_text { (text : List ℕ) → S.left shader.old ≡ Some text → Fits 2 result.status (shader_answer text) }
    // What is asked for is answered, but for want of memory and a fault of a stream: valid input is not refused.
    ensures asks { (rule_text shader_text : List ℕ) → R.left rules.old ≡ Some rule_text → S.left shader.old ≡ Some shader_text →
        IsAsked (asked words.now rule_text shader_text) result.status }

    ensures rules_syntax { (fault : RuleFault) → result.status ≡ Status.RulesSyntax fault → is_of_rule_text fault ≡ true }
    ensures syntax { (fault : TextFault) → result.status ≡ Status.ShaderSyntax fault → is_of_text fault ≡ true }

    // A fault has its cause.
    ensures rules_fault { result.status ≡ Status.ReadFault Which.Rules → Rose (R.faults rules.old) (R.faults rules.new) }
    ensures shader_fault { result.status ≡ Status.ReadFault Which.Shader → Rose (S.faults shader.old) (S.faults shader.new) }
    ensures write_fault { result.status ≡ Status.WriteFault → Rose (K.faults out.old) (K.faults out.new) }

    // What was read.
    ensures nothing_read { result.status ≡ Status.Usage → (R.left rules.new ≡ R.left rules.old) × (S.left shader.new ≡ S.left shader.old) }
    ensures shader_unread { nat_le (stage_of result.status) 1 ≡ true → result.status ≢ Status.OutOfMemory → S.left shader.new ≡ S.left shader.old }
    ensures rules_end { result.status ≡ Status.Ok → ReadsToEnd (R.left rules.old) (R.left rules.new) }
    ensures shader_end { result.status ≡ Status.Ok → ReadsToEnd (S.left shader.old) (S.left shader.new) }

    // What was written.
    ensures untouched { result.status ≢ Status.Ok → result.status ≢ Status.WriteFault → K.taken out.new ≡ K.taken out.old }
    ensures printed { result.status ≡ Status.Ok → (said : Given) → run_words words.now ≡ Some said →
        (rule_text shader_text : List ℕ) → R.left rules.old ≡ Some rule_text → S.left shader.old ≡ Some shader_text →
        (last : Shader) × IsPrinted said rule_text shader_text result.journal result.rewrites result.limit result.stopped last
        × Gains (K.taken out.old) (K.taken out.new) (printed_text said result.journal last) }
    ensures prefix { result.status ≡ Status.WriteFault → (said : Given) → run_words words.now ≡ Some said →
        (rule_text shader_text : List ℕ) → R.left rules.old ≡ Some rule_text → S.left shader.old ≡ Some shader_text →
        (before : List ℕ) → K.taken out.old ≡ Some before →
        (last : Shader) × (stopped : Bool) × IsPrinted said rule_text shader_text result.journal result.rewrites result.limit stopped last
        × TakesFront before (K.taken out.new) (printed_text said result.journal last) }
    ensures notes { Notes words.now
        (record { left_before = R.left rules.old; left_after = R.left rules.new; faults_before = R.faults rules.old; faults_after = R.faults rules.new })
        (record { taken_before = N.taken notes.old; taken_after = N.taken notes.new; faults_before = N.faults notes.old; faults_after = N.faults notes.new })
        result }

    // What is reported of the work.
    ensures idle { result.status ≢ Status.Ok → result.status ≢ Status.WriteFault → (result.journal ≡ []) × (result.rewrites ≡ 0) × (result.limit ≡ 0) }
    ensures stopped { result.status ≢ Status.Ok → result.stopped ≡ false }
    ensures place { result.place ≡ place_of result.status }
{
    run_in_stages(alloc, words, rules, shader, out, notes, steps)
}

/// Tells the rules that are left out. Whether all of it was taken.
fn note_skipped<N: Sink>(
    alloc: Global,
    notes: &mut N,
    refused: &[Refused],
) -> Result<bool, OutOfMemory>
    ensures ok { (heard : Bool) → result ≡ Ok heard →
        Hears (N.taken notes.old) (N.taken notes.new) (N.faults notes.old) (N.faults notes.new) (skipped_text refused.now) true heard }
    ensures err { OnErr result ((N.taken notes.new ≡ N.taken notes.old) × (N.faults notes.new ≡ N.faults notes.old)) }
{
    let text = text_of_skipped(alloc, refused)?;
    Ok(note(notes, true, text.as_slice()))
}

/// The same, with all that it promises as one fact.
fn run_in_stages<R: Source, S: Source, K: Sink, N: Sink, L: Ledger>(
    alloc: Global,
    words: &[Bytes],
    rules: &mut R,
    shader: &mut S,
    out: &mut K,
    notes: &mut N,
    steps: &mut Steps<L>,
) -> Report
    ensures { Ran words.now
        (record { left_before = R.left rules.old; left_after = R.left rules.new; faults_before = R.faults rules.old; faults_after = R.faults rules.new })
        (record { left_before = S.left shader.old; left_after = S.left shader.new; faults_before = S.faults shader.old; faults_after = S.faults shader.new })
        (record { taken_before = K.taken out.old; taken_after = K.taken out.new; faults_before = K.faults out.old; faults_after = K.faults out.new })
        (record { taken_before = N.taken notes.old; taken_after = N.taken notes.new; faults_before = N.faults notes.old; faults_after = N.faults notes.new })
        result }
{
    let Some(said) = run_words(words) else {
        return stopped(alloc, notes, true, with_line(alloc, USAGE, Status::Usage));
    };
    let checked = match read_table(alloc, rules, said.skip) {
        Ok(checked) => checked,
        Err(status) => return stopped(alloc, notes, true, with_line(alloc, USAGE, status)),
    };
    let Ok(heard) = note_skipped(alloc, notes, checked.refused.as_slice()) else {
        return stopped(
            alloc,
            notes,
            true,
            with_line(alloc, USAGE, Status::OutOfMemory),
        );
    };
    let read = match read_shader_text(alloc, shader) {
        Ok(read) => read,
        Err(status) => return stopped(alloc, notes, heard, with_line(alloc, USAGE, status)),
    };
    let Ok(printed) = printed_last(alloc, read, &checked.table, &said, steps) else {
        return stopped(
            alloc,
            notes,
            heard,
            with_line(alloc, USAGE, Status::OutOfMemory),
        );
    };
    finished(out, notes, heard, printed)
}
