//! What is told of a call: the line of its status.

ghost use Rattle.std.specs.Prelude.{◌≡◌};
ghost use Rattle.rule_clauses.specs.Answers.{IsLine, IsToldAs, line_of};
ghost use Rattle.rule_clauses.specs.Ran.{TakesLine};

use crate::lines::{built_line, plain_line};
use crate::status::Status;
use nir_host::{Bytes, Sink, write_all};
use std::alloc::Global;

/// A status that is told, and its line where that names a rule or a place.
#[derive(Debug, Drop)]
pub struct Told {
    pub status: Status,
    pub built: Option<Bytes>,
}

/// The status that is told: where there is no memory for its line, want of memory takes its place. It stands before the line is written,
/// so the sink of lines has no part in it.
pub fn with_line(alloc: Global, status: Status) -> Told
    ensures status { IsToldAs status result.status }
    ensures line { IsLine result.built result.status }
{
    match built_line(alloc, &status) {
        Ok(built) => Told { status, built },
        Err(_no_memory) => Told {
            status: Status::OutOfMemory,
            built: None,
        },
    }
}

/// Writes a text to `notes`, whose faults change nothing.
fn note<N: Sink>(notes: &mut N, text: &[u8])
    ensures { TakesLine (N.taken notes.old) (N.taken notes.new) (N.faults notes.old) (N.faults notes.new) text.now }
{
    match write_all(notes, text) {
        Ok(()) => {}
        Err(_fault) => {}
    }
}

/// Writes the line of a status, and answers it.
pub fn tell<N: Sink>(notes: &mut N, told: Told) -> Status
    requires { IsLine told.built told.status }
    ensures status { result ≡ told.status }
    ensures notes { TakesLine (N.taken notes.old) (N.taken notes.new) (N.faults notes.old) (N.faults notes.new) (line_of result) }
{
    let Told { status, built } = told;
    match &built {
        Some(line) => note(notes, line.as_slice()),
        None => note(notes, plain_line(&status)),
    }
    status
}
