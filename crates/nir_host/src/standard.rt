//! Standard input as a source, standard output and standard error as sinks.

ghost use Rattle.std.specs.Prelude.{◌≡◌, ℕ, ◌^◌, ◌<◌, ◌≤◌, None, IfOk, OnOk, OnErr, length};
ghost use Rattle.nir_host.specs.Faults.{next_count};

use crate::counted::{read_counted, write_counted};
use crate::fault::Failed;
use crate::sink::Sink;
use crate::source::Source;
use std::io::{Stderr, Stdin, Stdout};
use std::marker::Model;

/// Standard input. It tells nothing of its bytes, and contracts see its count of faults.
#[derive(Drop)]
pub struct StdinSource {
    stdin: Stdin,
    faults: u64,
}

/// Standard output. It tells nothing of its bytes, and contracts see its count of faults.
#[derive(Drop)]
pub struct StdoutSink {
    stdout: Stdout,
    faults: u64,
}

/// Standard error. It tells nothing of its bytes, and contracts see its count of faults.
#[derive(Drop)]
pub struct StderrSink {
    stderr: Stderr,
    faults: u64,
}

impl Model for StdinSource {
    ghost Value = { ℕ };

    ghost view = { λ s. s.faults };

    ghost invariant = { λ s. s.faults < 2 ^ 64 };
}

impl Model for StdoutSink {
    ghost Value = { ℕ };

    ghost view = { λ s. s.faults };

    ghost invariant = { λ s. s.faults < 2 ^ 64 };
}

impl Model for StderrSink {
    ghost Value = { ℕ };

    ghost view = { λ s. s.faults };

    ghost invariant = { λ s. s.faults < 2 ^ 64 };
}

impl StdinSource {
    /// Takes the runtime's handle, `rt.stdin()`.
    pub fn new(stdin: Stdin) -> StdinSource
        ensures { result ≡ 0 }
    {
        StdinSource { stdin, faults: 0 }
    }
}

impl StdoutSink {
    /// Takes the runtime's handle, `rt.stdout()`.
    pub fn new(stdout: Stdout) -> StdoutSink
        ensures { result ≡ 0 }
    {
        StdoutSink { stdout, faults: 0 }
    }
}

impl StderrSink {
    /// Takes the runtime's handle, `rt.stderr()`.
    pub fn new(stderr: Stderr) -> StderrSink
        ensures { result ≡ 0 }
    {
        StderrSink { stderr, faults: 0 }
    }
}

impl Source for StdinSource {
    ghost left = { λ _. None };

    ghost faults = { λ s. s };

    fn read(&mut self, into: &mut [u8]) -> Result<usize, Failed> {
        read_counted(&mut self.stdin, &mut self.faults, into)
    }
}

impl Sink for StdoutSink {
    ghost taken = { λ _. None };

    ghost faults = { λ s. s };

    fn write(&mut self, from: &[u8]) -> Result<usize, Failed> {
        write_counted(&mut self.stdout, &mut self.faults, from)
    }
}

impl Sink for StderrSink {
    ghost taken = { λ _. None };

    ghost faults = { λ s. s };

    fn write(&mut self, from: &[u8]) -> Result<usize, Failed> {
        write_counted(&mut self.stderr, &mut self.faults, from)
    }
}
