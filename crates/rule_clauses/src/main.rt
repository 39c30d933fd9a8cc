//! The clauses of a rule at a typing, in the form that SAT solvers read: `rule_clauses RULES RULE TYPING`.
#![tactic(auto)]

mod chosen;
mod dimacs;
mod faults;
mod lines;
mod report;
mod run;
mod status;
mod words;

ghost use Rattle.std.specs.Prelude.{◌≡◌, ◌⊎◌};
ghost use Rattle.rule_clauses.specs.Ran.{EndsWith, IsNumber};

use nir_host::{Bytes, FileSource, StderrSink, StdoutSink, write_all};
use run::run_clauses;
use std::process::ExitCode;
use std::{env, io};

/// The status where the arguments cannot be read for another cause than want of memory.
const UNREADABLE: u8 = 16;

/// The status for want of memory.
const NO_MEMORY: u8 = 10;

fn main(rt: HostRuntime) -> ExitCode {
    ExitCode::from(started(&rt))
}

/// Takes the arguments, and answers the status: that of the call, or the one for arguments that cannot be had.
fn started(rt: &HostRuntime) -> u8
    ensures { (result ≡ 16) ⊎ ((result ≡ 10) ⊎ IsNumber result) }
{
    let args = match env::args(rt) {
        Ok(args) => args,
        Err(error) => return refused(rt, &error),
    };
    let mut words = Vec::new(rt.alloc());
    for arg in args.skip(1) {
        if words.push(Bytes::from_vec(arg.into_bytes())).is_err() {
            return NO_MEMORY;
        }
    }
    on_streams(rt, words.as_slice())
}

/// Why there are no arguments.
fn refused(rt: &HostRuntime, error: &io::Error) -> u8
    ensures { (result ≡ 16) ⊎ (result ≡ 10) }
{
    if error.kind() == io::ErrorKind::OutOfMemory {
        return NO_MEMORY;
    }
    let mut notes = StderrSink::new(rt.stderr());
    match write_all(&mut notes, b"arguments unreadable\n") {
        Ok(()) => {}
        Err(_fault) => {}
    }
    UNREADABLE
}

/// Opens the file that the words name, runs on the standard streams, and answers the status.
fn on_streams(rt: &HostRuntime, words: &[Bytes]) -> u8
    ensures { EndsWith words.now result }
{
    let mut rules = FileSource::open(rt, path_of(words));
    let mut out = StdoutSink::new(rt.stdout());
    let mut notes = StderrSink::new(rt.stderr());
    let ended = run_clauses(rt.alloc(), words, &mut rules, &mut out, &mut notes);
    ended.number()
}

/// The word RULES as a path, or the empty path where there is none.
fn path_of(words: &[Bytes]) -> &str {
    match words {
        [] => "",
        [rules, ..] => str::from_utf8(rules.as_slice()).unwrap_or(""),
    }
}
