//! The top call: the words and the rules in, the text of the clauses out.

ghost use Rattle.std.specs.Prelude.{◌≡◌, ◌⊎◌, ℕ, List, Some};
ghost use Rattle.nir_host.specs.Faults.{Rose};
ghost use Rattle.nir_host.specs.Told.{Gains};
ghost use Rattle.nir_host.specs.Whole.{TakesFront};
ghost use Rattle.rule_clauses.specs.Answers.{line_of};
ghost use Rattle.rule_clauses.specs.Ran.{Ran, TakesLine};

use crate::chosen::chosen_text;
use crate::report::{Told, tell, with_line};
use crate::status::Status;
use crate::words::choice_of;
use nir_host::{Bytes, Sink, Source, write_all};
use std::alloc::Global;

/// Writes a text whole, and tells how that went.
fn written<K: Sink, N: Sink>(out: &mut K, notes: &mut N, text: &[u8]) -> Status
    ensures status { ((result ≡ Status.Ok) × Gains (K.taken out.old) (K.taken out.new) text.now)
        ⊎ ((result ≡ Status.WriteFault) × Rose (K.faults out.old) (K.faults out.new)
        × ((before : List ℕ) → K.taken out.old ≡ Some before → TakesFront before (K.taken out.new) text.now)) }
    ensures notes { TakesLine (N.taken notes.old) (N.taken notes.new) (N.faults notes.old) (N.faults notes.new) (line_of result) }
{
    let status = match write_all(out, text) {
        Ok(()) => Status::Ok,
        Err(_fault) => Status::WriteFault,
    };
    tell(
        notes,
        Told {
            status,
            built: None,
        },
    )
}

/// Writes the clauses of a rule at one of its typings in DIMACS CNF form, all in one writing.
///
/// The words are RULES, RULE and TYPING: the number of the rule in its file and that of the typing in lexicographic order, from 0. The order is
/// fixed: the words; the rules read to their end; the rule text; the rule; its sizes; the typing; a circuit for each opcode; the writing. The first step that
/// fails decides the status, and nothing goes to `out` before the text is whole. Want of memory may end it at any point after the words. The
/// line of the status goes to `notes`, whose faults change nothing.
pub fn run_clauses<R: Source, K: Sink, N: Sink>(
    alloc: Global,
    words: &[Bytes],
    rules: &mut R,
    out: &mut K,
    notes: &mut N,
) -> Status
    ensures { Ran words.now
        (record { left_before = R.left rules.old; left_after = R.left rules.new; faults_before = R.faults rules.old; faults_after = R.faults rules.new })
        (record { taken_before = K.taken out.old; taken_after = K.taken out.new; faults_before = K.faults out.old; faults_after = K.faults out.new })
        (record { taken_before = N.taken notes.old; taken_after = N.taken notes.new; faults_before = N.faults notes.old; faults_after = N.faults notes.new })
        result }
{
    let Some(choice) = choice_of(words) else {
        return tell(notes, with_line(alloc, Status::Usage));
    };
    match chosen_text(alloc, choice, rules) {
        Ok(text) => written(out, notes, text.as_slice()),
        Err(status) => tell(notes, with_line(alloc, status)),
    }
}
