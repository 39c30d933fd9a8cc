//! What is written of a run: its lines, its text, and the report of it.

ghost use Rattle.std.specs.Prelude.{◌≡◌, Bool, true, [], if◌then◌else◌};
ghost use Rattle.nir_opt.specs.Answers.{has_plain_line, IsLine, IsToldAs, line_with, stopped_text, usage_line};
ghost use Rattle.nir_opt.specs.Heard.{Hears};
ghost use Rattle.nir_opt.specs.Printed.{Writes, idle, is_ok, reported};
ghost use Rattle.nir_opt.specs.Ran.{report_line};

use crate::lines::{built_line, plain_line};
use crate::printed::Printed;
use crate::status::{Report, Status};
use nir_host::{Bytes, Sink, write_all};
use nir_ir::Journal;
use std::alloc::Global;

/// What is told of words of `run` that have no reading.
pub const USAGE: &[u8] = b"usage: nir_opt RULES [--limit=N] [--option=NAME] [--remarks] [--skip]\n";

/// What is told of words of `check` that have no reading.
pub const CHECK_USAGE: &[u8] = b"usage: nir_opt check RULES\n";

/// A status that is told, and its line where that names a rule or a place.
#[derive(Debug, Drop)]
pub struct Told {
    pub status: Status,
    pub built: Option<Bytes>,
}

/// The status that is told: where there is no memory for its line, want of memory takes its place. It stands before the line is
/// written, so the sink of lines has no part in it.
pub fn with_line(alloc: Global, usage: &[u8], status: Status) -> Told
    ensures status { IsToldAs status result.status }
    ensures line { IsLine usage.now result.built result.status }
{
    match built_line(alloc, usage, &status) {
        Ok(built) => Told { status, built },
        Err(_no_memory) => Told {
            status: Status::OutOfMemory,
            built: None,
        },
    }
}

/// Writes a text to `notes`, unless a fault came before. Whether all was taken so far: after a fault nothing more is written, and its faults change
/// nothing else.
pub fn note<N: Sink>(notes: &mut N, heard: bool, text: &[u8]) -> bool
    ensures { Hears (N.taken notes.old) (N.taken notes.new) (N.faults notes.old) (N.faults notes.new) text.now heard result }
{
    if !heard {
        return false;
    }
    write_all(notes, text).is_ok()
}

/// Writes the line of a status that is told to `notes`.
pub fn note_told<N: Sink>(notes: &mut N, heard: bool, usage: &[u8], told: &Told) -> bool
    requires { IsLine usage.now told.now.built told.now.status }
    ensures { Hears (N.taken notes.old) (N.taken notes.new) (N.faults notes.old) (N.faults notes.new) (line_with usage.now told.now.status) heard result }
{
    match &told.built {
        Some(line) => note(notes, heard, line.as_slice()),
        None => note(notes, heard, plain_line(usage, &told.status)),
    }
}

/// The report of a run that stopped before it had a text. The line of its status goes to `notes`; `heard` says whether what was told before was taken.
pub fn stopped<N: Sink>(alloc: Global, notes: &mut N, heard: bool, told: Told) -> Report
    requires { IsLine usage_line told.built told.status }
    ensures report { result ≡ idle told.status }
    ensures notes { (hears : Bool) × Hears (N.taken notes.old) (N.taken notes.new) (N.faults notes.old) (N.faults notes.new) (line_with usage_line told.status) heard hears }
{
    let _hears = note_told(notes, heard, USAGE, &told);
    let Told { status, .. } = told;
    let place = status.place();
    Report {
        status,
        journal: Journal::new(alloc),
        rewrites: 0,
        limit: 0,
        stopped: false,
        place,
    }
}

/// Writes the text: Ok, where all of it was taken.
fn written<K: Sink>(out: &mut K, text: &[u8]) -> Status
    ensures plain { has_plain_line result ≡ true }
    ensures written { Writes result text.now (K.taken out.old) (K.taken out.new) (K.faults out.old) (K.faults out.new) }
{
    match write_all(out, text) {
        Ok(()) => Status::Ok,
        Err(_fault) => Status::WriteFault,
    }
}

/// The line of a run that came to its end.
fn end_line<'a>(status: &Status, printed: &'a Printed) -> &'a [u8]
    requires plain { has_plain_line status.now ≡ true }
    requires line { printed.now.line ≡ (if printed.now.stopped then stopped_text printed.now.rewrites else []) }
    ensures { result.now ≡ report_line (reported status.now printed.now) }
{
    match status {
        Status::Ok => printed.line.as_slice(),
        Status::Usage
        | Status::ReadFault(_)
        | Status::WriteFault
        | Status::RulesSyntax(_)
        | Status::RuleRefused(_)
        | Status::ShaderSyntax(_)
        | Status::ShaderInvalid { .. }
        | Status::TooLong(_)
        | Status::OutOfMemory => plain_line(USAGE, status),
    }
}

fn is_ok(status: &Status) -> bool
    ensures { result ≡ is_ok status.now }
{
    matches!(status, Status::Ok)
}

/// Writes the text of a run that came to its end, and reports it. The line of the report goes to `notes`.
pub fn finished<K: Sink, N: Sink>(
    out: &mut K,
    notes: &mut N,
    heard: bool,
    printed: Printed,
) -> Report
    requires line { printed.line ≡ (if printed.stopped then stopped_text printed.rewrites else []) }
    ensures report { result ≡ reported result.status printed }
    ensures written { Writes result.status printed.text (K.taken out.old) (K.taken out.new) (K.faults out.old) (K.faults out.new) }
    ensures notes { (hears : Bool) × Hears (N.taken notes.old) (N.taken notes.new) (N.faults notes.old) (N.faults notes.new) (report_line result) heard hears }
{
    let status = written(out, printed.text.as_slice());
    let _hears = note(notes, heard, end_line(&status, &printed));
    let stopped = is_ok(&status) && printed.stopped;
    Report {
        status,
        journal: printed.journal,
        rewrites: printed.rewrites,
        limit: printed.limit,
        stopped,
        place: 0,
    }
}
