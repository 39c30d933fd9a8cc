//! Whole runs of the program over sources and sinks in memory. A case is what a run is given and how it ends; its table is
//! a static, which costs the proof of a test next to nothing.

mod check;
mod derived;
mod eval;
mod logged;
mod loops;
mod refusals;
mod rewriting;
mod rule_files;
mod texts;
mod validity;

ghost use Rattle.std.specs.Prelude.{◌≡◌, ◌<◌};

use crate::program::{Ended, program};
use nir_host::{Bytes, MemSink, MemSource, OutOfMemory, Seq};
use nir_ir::Step;
use nir_search::Steps;
use std::alloc::{AllocError, Global};
use std::marker::Brand;
use std::process::Abort;
use std::sync::ledger::{Blank, Ledger};
use texts::EMPTY_BLOCK;

/// A text as it stands, or so many times a piece between two others.
#[derive(Clone, Copy)]
enum Text<'a> {
    Whole(&'a [u8]),
    Repeated {
        front: &'a [u8],
        piece: &'a [u8],
        times: u32,
        end: &'a [u8],
    },
}

/// What the program is given, and how it ends.
#[derive(Clone, Copy)]
struct Case<'a> {
    words: &'a [&'a [u8]],
    rules: Text<'a>,
    /// The calls of the source that fail.
    rules_fail: &'a [u64],
    shader: Text<'a>,
    shader_fail: &'a [u64],
    /// How many bytes `out` takes.
    room: usize,
    /// The calls of the sink of lines that fail.
    notes_fail: &'a [u64],
    /// The number of the status.
    number: u8,
    out: &'a [u8],
    notes: &'a [u8],
    /// What an optimisation reports. Of an evaluation these are 0 and nothing.
    limit: u64,
    stopped: bool,
    place: u64,
    journal: &'a [Step],
}

#[derive(Drop)]
struct Sources {
    rules: MemSource,
    shader: MemSource,
}

#[derive(Drop)]
struct Sinks {
    out: MemSink,
    notes: MemSink,
}

/// What a run left.
#[derive(Drop)]
struct Left {
    ended: Ended,
    sinks: Sinks,
}

/// The least shader under no rules, which is printed.
const PRINTED: Case<'static> = Case {
    words: &[b"r"],
    rules: Text::Whole(b"[]"),
    rules_fail: &[],
    shader: Text::Whole(EMPTY_BLOCK),
    shader_fail: &[],
    room: 1000,
    notes_fail: &[],
    number: 0,
    out: EMPTY_BLOCK,
    notes: b"",
    limit: 4096,
    stopped: false,
    place: 0,
    journal: &[],
};

/// The same where nothing is printed.
const REFUSED: Case<'static> = Case {
    out: b"",
    limit: 0,
    ..PRINTED
};

/// Words as the program takes them.
fn words_of(alloc: Global, words: &[&[u8]]) -> Result<Seq<Bytes>, OutOfMemory> {
    let mut list = Seq::new(alloc);
    for word in words {
        list.push(Bytes::from_slice(alloc, *word)?)?;
    }
    Ok(list)
}

fn repeated(
    alloc: Global,
    front: &[u8],
    piece: &[u8],
    times: u32,
    end: &[u8],
) -> Result<Vec<u8>, AllocError> {
    let mut bytes = front.to_vec(alloc)?;
    for _piece in 0..times {
        bytes.extend_from_slice(piece)?;
    }
    bytes.extend_from_slice(end)?;
    Ok(bytes)
}

/// A source of the text, whose calls with these numbers fail.
fn source_of(alloc: Global, text: &Text<'_>, failing: &[u64]) -> Result<MemSource, OutOfMemory> {
    match *text {
        Text::Whole(bytes) => MemSource::new(alloc, bytes, failing),
        Text::Repeated {
            front,
            piece,
            times,
            end,
        } => {
            let bytes = repeated(alloc, front, piece, times, end)?;
            MemSource::new(alloc, bytes.as_slice(), failing)
        }
    }
}

fn sources_of(alloc: Global, case: &Case<'_>) -> Result<Sources, OutOfMemory> {
    let rules = source_of(alloc, &case.rules, case.rules_fail)?;
    let shader = source_of(alloc, &case.shader, case.shader_fail)?;
    Ok(Sources { rules, shader })
}

fn sinks_of(alloc: Global, case: &Case<'_>) -> Result<Sinks, OutOfMemory> {
    let out = MemSink::new(alloc, case.room, &[])?;
    let notes = MemSink::new(alloc, 1000, case.notes_fail)?;
    Ok(Sinks { out, notes })
}

/// The program over sources and sinks.
fn ran<L: Ledger>(
    alloc: Global,
    words: &[Bytes],
    sources: &mut Sources,
    sinks: &mut Sinks,
    blank: Blank,
) -> Ended
    requires name { blank.name ≡ L.name }
    requires parts { blank.parts ≡ L.parts }
    requires some { 0 < blank.parts }
{
    let mut steps = Steps::<L>::new(blank);
    program(
        alloc,
        words,
        &mut sources.rules,
        &mut sources.shader,
        &mut sinks.out,
        &mut sinks.notes,
        &mut steps,
    )
}

/// The program over what is given. Nothing is done with the count of steps.
fn uncounted(alloc: Global, case: &Case<'_>) -> Result<Left, OutOfMemory> {
    let words = words_of(alloc, case.words)?;
    let mut sources = sources_of(alloc, case)?;
    let mut sinks = sinks_of(alloc, case)?;
    let ended = ran::<Brand>(
        alloc,
        words.as_slice(),
        &mut sources,
        &mut sinks,
        Blank::new(1),
    );
    Ok(Left { ended, sinks })
}

/// The case ends as it says.
fn ends(rt: &impl Abort, alloc: Global, case: &Case<'_>) -> Result<(), OutOfMemory> {
    let left = uncounted(alloc, case)?;
    is_told(rt, &left, case);
    is_reported(rt, &left.ended, case);
    Ok(())
}

fn is_told(rt: &impl Abort, left: &Left, case: &Case<'_>) {
    assert_eq!(rt; left.ended.number(), case.number);
    assert_eq!(rt; left.sinks.out.taken(), case.out);
    assert_eq!(rt; left.sinks.notes.taken(), case.notes);
}

fn is_reported(rt: &impl Abort, ended: &Ended, case: &Case<'_>) {
    match ended {
        Ended::Run(report) => {
            let numbers = [report.limit, report.place, report.rewrites];
            assert_eq!(rt;
                numbers,
                [case.limit, case.place, case.journal.len() as u64]
            );
            assert_eq!(rt; report.journal.as_slice(), case.journal);
            assert_eq!(rt; report.stopped, case.stopped);
        }
        Ended::Check(_) | Ended::Eval(_) => assert_eq!(rt; case.limit, 0),
    }
}

/// The case ends as it says, though the sink of lines fails at once.
fn ends_unheard(rt: &impl Abort, alloc: Global, case: &Case<'_>) -> Result<(), OutOfMemory> {
    let unheard = Case {
        notes_fail: &[0],
        notes: b"",
        ..*case
    };
    ends(rt, alloc, &unheard)
}

/// Each case ends as it says, though the sink of lines fails at once.
fn all_end_unheard(rt: &impl Abort, alloc: Global, cases: &[Case<'_>]) {
    for case in cases {
        ends_unheard(rt, alloc, case).expect(rt, "memory");
    }
}

/// Each case ends as it says.
fn all_end(rt: &impl Abort, alloc: Global, cases: &[Case<'_>]) {
    for case in cases {
        ends(rt, alloc, case).expect(rt, "memory");
    }
}
