//! The command that runs a shader and tells its outcome.

ghost use Rattle.std.specs.Prelude.{◌≡◌, ℕ, ◌↔◌, ◌≢◌, IfOk, List, Some, None, true};
ghost use Rattle.eval_words.specs.declared.words.EvalWords.{EvalWords as Given};
ghost use Rattle.eval_words.specs.EvalWords.{eval_words};
ghost use Rattle.nir_host.specs.Faults.{Rose};
ghost use Rattle.nir_host.specs.Told.{Gains};
ghost use Rattle.nir_host.specs.Whole.{TakesFront};
ghost use Rattle.nir_ir.specs.Shader.{Shader as Whole};
ghost use Rattle.nir_text.specs.declared.fault.TextFault.{TextFault};
ghost use Rattle.nir_validate.specs.Valid.{Valid};
ghost use Rattle.nir_mean.specs.EvalAnswers.{EndsWell, IsGiven, IsLine, IsToldAs, line_of, Says, words_fit};
ghost use Rattle.nir_mean.specs.Faults.{is_of_text};
ghost use Rattle.nir_mean.specs.ShaderLines.{TakesLine};
ghost use Rattle.nir_mean.specs.ShaderText.{answer_of, ReadsToEnd, Sound};
ghost use Rattle.nir_mean.specs.Outcome.{outcome};
ghost use Rattle.nir_mean.specs.OutcomeText.{outcome_text};

use crate::evaluation::evaluate;
use crate::fits::words_fit;
use crate::lines::{built_line, outcome_text, plain_line};
use crate::shader_text::{ShaderRefusal, read_valid};
use crate::status::Status;
use eval_words::{EvalWords, eval_words, have_reading};
use nir_host::{Bytes, OutOfMemory, Sink, Source, Which, write_all};
use nir_ir::Shader;
use nir_text::TextFault;
use std::alloc::Global;

/// Reads a shader, runs it on the inputs and buffers of the words, and writes its outcome: how it ended, the
/// stores that it made in order, and its outputs, all in one writing at the end.
///
/// The order is fixed: the words; the shader read to its end; its text; its validity; whether the words fit it; the
/// run; the writing. The words are `--turns=N` once, `--input=V,V` once for each input slot and `--buffer=HEX` once
/// for each buffer, in any order. Nothing goes to `out` before the text is whole, and want of memory may end the call at any
/// point after the words. The line of the status goes to `notes`, whose faults change nothing. The time grows with the
/// turns of nested loops multiplied.
pub fn run_shader<S: Source, K: Sink, N: Sink>(
    alloc: Global,
    words: &[Bytes],
    shader: &mut S,
    out: &mut K,
    notes: &mut N,
) -> Status
    // Which status it is.
    ensures words { (result ≡ Status.Usage) ↔ (eval_words words.now ≡ None) }
    ensures says { (given : Given) → eval_words words.now ≡ Some given → (text : List ℕ) → S.left shader.old ≡ Some text → Says result given (answer_of text) }

    ensures syntax { (fault : TextFault) → result ≡ Status.ShaderSyntax fault → is_of_text fault ≡ true }

    // A fault has its cause.
    ensures rules_fault { result ≢ Status.ReadFault Which.Rules }
    ensures rules_length { result ≢ Status.TooLong Which.Rules }
    ensures shader_fault { result ≡ Status.ReadFault Which.Shader → Rose (S.faults shader.old) (S.faults shader.new) }
    ensures write_fault { result ≡ Status.WriteFault → Rose (K.faults out.old) (K.faults out.new) }

    // Valid input is not refused: memory alone may be wanting.
    ensures complete { (given : Given) → eval_words words.now ≡ Some given → (text : List ℕ) → S.left shader.old ≡ Some text →
        (Rose (S.faults shader.old) (S.faults shader.new) → ⊥) → (Rose (K.faults out.old) (K.faults out.new) → ⊥) →
        (s : Whole) → IsGiven given (answer_of text) true s → EndsWell result }

    // What was read.
    ensures nothing_read { result ≡ Status.Usage → S.left shader.new ≡ S.left shader.old }
    ensures end { result ≡ Status.Ok → ReadsToEnd (S.left shader.old) (S.left shader.new) }

    // What was written.
    ensures untouched { result ≢ Status.Ok → result ≢ Status.WriteFault → K.taken out.new ≡ K.taken out.old }
    ensures told { result ≡ Status.Ok → (given : Given) → eval_words words.now ≡ Some given → (text : List ℕ) → S.left shader.old ≡ Some text →
        (s : Whole) → answer_of text ≡ Sound s → Gains (K.taken out.old) (K.taken out.new) (outcome_text (outcome s given.inputs given.buffers given.turns)) }
    ensures prefix { result ≡ Status.WriteFault → (given : Given) → eval_words words.now ≡ Some given → (text : List ℕ) → S.left shader.old ≡ Some text →
        (s : Whole) → answer_of text ≡ Sound s → (before : List ℕ) → K.taken out.old ≡ Some before →
        TakesFront before (K.taken out.new) (outcome_text (outcome s given.inputs given.buffers given.turns)) }
    ensures notes { TakesLine (N.taken notes.old) (N.taken notes.new) (N.faults notes.old) (N.faults notes.new) (line_of result) }
{
    let status = answered(alloc, words, shader, out);
    let told = with_line(alloc, status);
    note(notes, &told);
    told.status
}

/// The status of a run, whose line is not written yet.
fn answered<S: Source, K: Sink>(
    alloc: Global,
    words: &[Bytes],
    shader: &mut S,
    out: &mut K,
) -> Status
    // Which status it is.
    ensures words { (result ≡ Status.Usage) ↔ (eval_words words.now ≡ None) }
    ensures says { (given : Given) → eval_words words.now ≡ Some given → (text : List ℕ) → S.left shader.old ≡ Some text → Says result given (answer_of text) }

    ensures syntax { (fault : TextFault) → result ≡ Status.ShaderSyntax fault → is_of_text fault ≡ true }

    // A fault has its cause.
    ensures rules_fault { result ≢ Status.ReadFault Which.Rules }
    ensures rules_length { result ≢ Status.TooLong Which.Rules }
    ensures shader_fault { result ≡ Status.ReadFault Which.Shader → Rose (S.faults shader.old) (S.faults shader.new) }
    ensures write_fault { result ≡ Status.WriteFault → Rose (K.faults out.old) (K.faults out.new) }

    // Valid input is not refused: memory alone may be wanting.
    ensures complete { (given : Given) → eval_words words.now ≡ Some given → (text : List ℕ) → S.left shader.old ≡ Some text →
        (Rose (S.faults shader.old) (S.faults shader.new) → ⊥) → (Rose (K.faults out.old) (K.faults out.new) → ⊥) →
        (s : Whole) → IsGiven given (answer_of text) true s → EndsWell result }

    // What was read.
    ensures nothing_read { result ≡ Status.Usage → S.left shader.new ≡ S.left shader.old }
    ensures end { result ≡ Status.Ok → ReadsToEnd (S.left shader.old) (S.left shader.new) }

    // What was written.
    ensures untouched { result ≢ Status.Ok → result ≢ Status.WriteFault → K.taken out.new ≡ K.taken out.old }
    ensures told { result ≡ Status.Ok → (given : Given) → eval_words words.now ≡ Some given → (text : List ℕ) → S.left shader.old ≡ Some text →
        (s : Whole) → answer_of text ≡ Sound s → Gains (K.taken out.old) (K.taken out.new) (outcome_text (outcome s given.inputs given.buffers given.turns)) }
    ensures prefix { result ≡ Status.WriteFault → (given : Given) → eval_words words.now ≡ Some given → (text : List ℕ) → S.left shader.old ≡ Some text →
        (s : Whole) → answer_of text ≡ Sound s → (before : List ℕ) → K.taken out.old ≡ Some before →
        TakesFront before (K.taken out.new) (outcome_text (outcome s given.inputs given.buffers given.turns)) }
{
    if !have_reading(words) {
        return Status::Usage;
    }
    let given = match eval_words(alloc, words) {
        Ok(Some(given)) => given,
        Ok(None) => return Status::Usage,
        Err(_no_memory) => return Status::OutOfMemory,
    };
    let shader = match read_valid(alloc, shader) {
        Ok(shader) => shader,
        Err(ShaderRefusal::ReadFault) => return Status::ReadFault(Which::Shader),
        Err(ShaderRefusal::TooLong) => return too_long(),
        Err(ShaderRefusal::Syntax(fault)) => return Status::ShaderSyntax(fault),
        Err(ShaderRefusal::Invalid { rule, item }) => return Status::ShaderInvalid { rule, item },
        Err(ShaderRefusal::OutOfMemory) => return Status::OutOfMemory,
    };
    if !words_fit(&given, &shader) {
        return Status::Misfit;
    }
    let Ok(text) = text_of_run(alloc, &shader, &given) else {
        return Status::OutOfMemory;
    };
    match write_all(out, text.as_slice()) {
        Ok(()) => Status::Ok,
        Err(_fault) => Status::WriteFault,
    }
}

/// The status for a shader of more bytes than are read; there are no rules that could be too long.
fn too_long() -> Status
    ensures { result ≡ Status.TooLong Which.Shader }
{
    Status::TooLong(Which::Shader)
}

/// The text of what the shader does.
fn text_of_run(alloc: Global, shader: &Shader, given: &EvalWords) -> Result<Bytes, OutOfMemory>
    requires valid { Valid shader.now }
    requires fits { words_fit given.now shader.now ≡ true }
    ensures { IfOk result (λ text. text ≡ outcome_text (outcome shader.now given.now.inputs given.now.buffers given.now.turns)) }
{
    let outcome = evaluate(alloc, shader, &given.inputs, &given.buffers, given.turns)?;
    let text = outcome_text(alloc, &outcome)?;
    Ok(text)
}

/// A status that is told, and its line where that names a place or an item.
#[derive(Drop)]
struct Told {
    status: Status,
    built: Option<Bytes>,
}

/// The status that is told: where there is no memory for its line, want of memory takes its place. It stands before the line is
/// written, so the sink of lines has no part in it.
fn with_line(alloc: Global, status: Status) -> Told
    ensures status { IsToldAs status result.status }
    ensures line { IsLine result.built result.status }
{
    match built_line(alloc, &status) {
        Ok(built) => Told { status, built },
        Err(_no_memory) => Told {
            status: Status::OutOfMemory,
            built: None,
        },
    }
}

/// Writes the line of a status that is told to `notes`, whose faults change nothing.
fn note<N: Sink>(notes: &mut N, told: &Told)
    requires { IsLine told.now.built told.now.status }
    ensures { TakesLine (N.taken notes.old) (N.taken notes.new) (N.faults notes.old) (N.faults notes.new) (line_of told.now.status) }
{
    match &told.built {
        Some(line) => note_bytes(notes, line.as_slice()),
        None => note_bytes(notes, plain_line(&told.status)),
    }
}

/// Writes these bytes to `notes`.
fn note_bytes<N: Sink>(notes: &mut N, line: &[u8])
    ensures { TakesLine (N.taken notes.old) (N.taken notes.new) (N.faults notes.old) (N.faults notes.new) line.now }
{
    match write_all(notes, line) {
        Ok(()) => {}
        Err(_fault) => {}
    }
}
