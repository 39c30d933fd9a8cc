//! The program: which call the first word picks.

ghost use Rattle.std.specs.Prelude.{◌≡◌, drop};
ghost use Rattle.nir_opt.specs.Program.{EndsAsCheck, EndsAsEval, EndsAsRun, command_of, ended_number, place_in, rules_at};

use crate::check::run_check;
use crate::run::run;
use crate::status::{Report, Status};
use nir_host::{Bytes, Sink, Source};
use nir_mean::run_shader;
use nir_search::Steps;
use std::alloc::Global;
use std::sync::ledger::Ledger;

/// How the program ended: the answer of the call that its first word picked.
#[derive(Debug, Drop)]
pub enum Ended {
    /// That of `run`.
    Run(Report),
    /// That of `run_check`.
    Check(Status),
    /// That of `run_shader`.
    Eval(nir_mean::Status),
}

impl Ended {
    /// The number with which the program ends.
    pub fn number(&self) -> u8
        ensures { result ≡ ended_number self.now }
    {
        match self {
            Ended::Run(report) => report.status.number(),
            Ended::Check(status) => status.number(),
            Ended::Eval(status) => status.number(),
        }
    }
}

/// What the program does.
#[derive(Clone, Copy, Debug, PartialEq, Eq)]
pub enum Command {
    /// It optimises a shader.
    Run,
    /// It tells which rules are accepted.
    Check,
    /// It runs a shader.
    Eval,
}

/// The command that the first word picks.
fn command_of(words: &[Bytes]) -> Command
    ensures { result ≡ command_of words.now }
{
    match words {
        [] => Command::Run,
        [first, ..] => match first.as_slice() {
            b"check" => Command::Check,
            b"eval" => Command::Eval,
            _ => Command::Run,
        },
    }
}

/// The place of the word RULES: 1 behind `check`, else 0. None exactly where the first word is `eval` or there is no word at that place. It
/// takes no memory.
pub fn rules_at(words: &[Bytes]) -> Option<usize>
    ensures { result ≡ rules_at words.now }
{
    match command_of(words) {
        Command::Run => place_in(words, 0),
        Command::Check => place_in(words, 1),
        Command::Eval => None,
    }
}

/// A place, where there is a word at it.
fn place_in(words: &[Bytes], place: usize) -> Option<usize>
    ensures { result ≡ place_in words.now place }
{
    if place < words.len() {
        Some(place)
    } else {
        None
    }
}

/// The words behind the first.
fn behind_first(words: &[Bytes]) -> &[Bytes]
    ensures { result.now ≡ drop 1 words.now }
{
    match words {
        [] => words,
        [_first, others @ ..] => others,
    }
}

/// Does what the first word picks: `check` tells which rules are accepted (`run_check`), and `eval` runs a shader (`run_shader`), by the words behind
/// it; every other list of words goes to `run`, whole. A source that the call does not take is not read.
pub fn program<R: Source, S: Source, K: Sink, N: Sink, L: Ledger>(
    alloc: Global,
    words: &[Bytes],
    rules: &mut R,
    shader: &mut S,
    out: &mut K,
    notes: &mut N,
    steps: &mut Steps<L>,
) -> Ended
    ensures run { command_of words.now ≡ Command.Run →
        EndsAsRun words.now
        (record { left_before = R.left rules.old; left_after = R.left rules.new; faults_before = R.faults rules.old; faults_after = R.faults rules.new })
        (record { left_before = S.left shader.old; left_after = S.left shader.new; faults_before = S.faults shader.old; faults_after = S.faults shader.new })
        (record { taken_before = K.taken out.old; taken_after = K.taken out.new; faults_before = K.faults out.old; faults_after = K.faults out.new })
        (record { taken_before = N.taken notes.old; taken_after = N.taken notes.new; faults_before = N.faults notes.old; faults_after = N.faults notes.new })
        result }
    ensures check { command_of words.now ≡ Command.Check →
        EndsAsCheck words.now
        (record { left_before = R.left rules.old; left_after = R.left rules.new; faults_before = R.faults rules.old; faults_after = R.faults rules.new })
        (record { left_before = S.left shader.old; left_after = S.left shader.new; faults_before = S.faults shader.old; faults_after = S.faults shader.new })
        (record { taken_before = K.taken out.old; taken_after = K.taken out.new; faults_before = K.faults out.old; faults_after = K.faults out.new })
        (record { taken_before = N.taken notes.old; taken_after = N.taken notes.new; faults_before = N.faults notes.old; faults_after = N.faults notes.new })
        result }
    ensures eval { command_of words.now ≡ Command.Eval →
        EndsAsEval words.now
        (record { left_before = R.left rules.old; left_after = R.left rules.new; faults_before = R.faults rules.old; faults_after = R.faults rules.new })
        (record { left_before = S.left shader.old; left_after = S.left shader.new; faults_before = S.faults shader.old; faults_after = S.faults shader.new })
        (record { taken_before = K.taken out.old; taken_after = K.taken out.new; faults_before = K.faults out.old; faults_after = K.faults out.new })
        (record { taken_before = N.taken notes.old; taken_after = N.taken notes.new; faults_before = N.faults notes.old; faults_after = N.faults notes.new })
        result }
{
    match command_of(words) {
        Command::Run => Ended::Run(run(alloc, words, rules, shader, out, notes, steps)),
        Command::Check => Ended::Check(run_check(alloc, behind_first(words), rules, out, notes)),
        Command::Eval => Ended::Eval(run_shader(alloc, behind_first(words), shader, out, notes)),
    }
}
