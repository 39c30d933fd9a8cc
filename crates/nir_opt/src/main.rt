//! The optimiser of shader texts, `nir_opt RULES < SHADER`, the check of rules, `nir_opt check RULES`, and the evaluator of shaders,
//! `nir_opt eval --turns=N < SHADER`.
#![tactic(auto)]

mod check;
mod faults;
mod lines;
mod optimise;
mod printed;
mod program;
mod refusals;
mod report;
mod run;
mod status;
#[cfg(test)]
mod tests;
mod texts;

ghost use Rattle.std.specs.Prelude.{◌≡◌, ◌⊎◌, ◌<◌};
ghost use Rattle.nir_opt.specs.Program.{EndsWith, IsNumber};

use nir_host::{Bytes, FileSource, StderrSink, StdinSource, StdoutSink, write_all};
use nir_search::Steps;
use program::{program, rules_at};
use std::marker::Brand;
use std::process::ExitCode;
use std::sync::ledger::{Blank, Ledger};
use std::{env, io};

/// The status where the arguments cannot be read for another cause than want of memory.
const UNREADABLE: u8 = 16;

/// The status for want of memory.
const NO_MEMORY: u8 = 10;

fn main(rt: HostRuntime) -> ExitCode {
    ExitCode::from(started(&rt))
}

/// Takes the arguments, and answers the status: that of the program, or the one for arguments that cannot be had.
fn started(rt: &HostRuntime) -> u8
    ensures { (result ≡ 16) ⊎ ((result ≡ 10) ⊎ IsNumber result) }
{
    let args = match env::args(rt) {
        Ok(args) => args,
        Err(error) => return refused(rt, &error),
    };
    let mut words = Vec::new(rt.alloc());
    for arg in args.skip(1) {
        if words.push(Bytes::from_vec(arg.into_bytes())).is_err() {
            return NO_MEMORY;
        }
    }
    counted::<Brand>(rt, words.as_slice(), Blank::new(1))
}

/// Why there are no arguments.
fn refused(rt: &HostRuntime, error: &io::Error) -> u8
    ensures { (result ≡ 16) ⊎ (result ≡ 10) }
{
    if error.kind() == io::ErrorKind::OutOfMemory {
        return NO_MEMORY;
    }
    let mut notes = StderrSink::new(rt.stderr());
    match write_all(&mut notes, b"arguments unreadable\n") {
        Ok(()) => {}
        Err(_fault) => {}
    }
    UNREADABLE
}

/// Opens the file that the words name, runs on the standard streams, and answers the status. Nothing
/// is done with the count of steps.
fn counted<L: Ledger>(rt: &HostRuntime, words: &[Bytes], blank: Blank) -> u8
    requires name { blank.name ≡ L.name }
    requires parts { blank.parts ≡ L.parts }
    requires some { 0 < blank.parts }
    ensures { EndsWith words.now result }
{
    let mut rules = FileSource::open(rt, path_of(words));
    let mut shader = StdinSource::new(rt.stdin());
    let mut out = StdoutSink::new(rt.stdout());
    let mut notes = StderrSink::new(rt.stderr());
    let mut steps = Steps::<L>::new(blank);
    let ended = program(
        rt.alloc(),
        words,
        &mut rules,
        &mut shader,
        &mut out,
        &mut notes,
        &mut steps,
    );
    ended.number()
}

/// The word RULES as a path, or the empty path where there is none.
fn path_of(words: &[Bytes]) -> &str {
    match rules_at(words) {
        Some(place) => match words.get(place) {
            Some(word) => str::from_utf8(word.as_slice()).unwrap_or(""),
            None => "",
        },
        None => "",
    }
}
