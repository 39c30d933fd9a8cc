//! A file as a source.

ghost use Rattle.std.specs.Prelude.{◌≡◌, ℕ, ◌^◌, ◌<◌, ◌≤◌, None, IfOk, IsErr, OnOk, OnErr, length};
ghost use Rattle.nir_host.specs.Faults.{next_count, Rose};

use crate::counted::read_counted;
use crate::fault::{Failed, raised};
use crate::source::Source;
use std::fs::File;
use std::io::Read;
use std::marker::Model;
use std::rt::Files;

/// A file that is read. It tells nothing of its bytes, and contracts see its count of faults.
#[derive(Drop)]
pub struct FileSource {
    file: Option<File>,
    faults: u64,
}

impl Model for FileSource {
    ghost Value = { ℕ };

    ghost view = { λ s. s.faults };

    ghost invariant = { λ s. s.faults < 2 ^ 64 };
}

impl FileSource {
    /// Opens the file at the path. This never fails: of a file that could not be opened each read
    /// fails, the first one too.
    pub fn open<R: Files<File = File>>(rt: &R, path: &str) -> FileSource
        ensures { result ≡ 0 }
    {
        FileSource {
            file: File::open(rt, path).ok(),
            faults: 0,
        }
    }
}

impl Source for FileSource {
    ghost left = { λ _. None };

    ghost faults = { λ s. s };

    fn read(&mut self, into: &mut [u8]) -> Result<usize, Failed> {
        read_opened(&mut self.file, &mut self.faults, into)
    }
}

// Reads from what was opened. Where nothing was, the read fails.
fn read_opened<R: Read>(
    file: &mut Option<R>,
    faults: &mut u64,
    into: &mut [u8],
) -> Result<usize, Failed>
    ensures within { IfOk result (λ n. n ≤ length into.new) }
    ensures not_opened { file.old ≡ None → IsErr result }
    ensures no_fault { OnOk result (faults.new ≡ faults.old) }
    ensures failed { OnErr result (faults.new ≡ next_count faults.old) }
{
    match file {
        Some(file) => read_counted(file, faults, into),
        None => {
            *faults = raised(*faults);
            Err(Failed)
        }
    }
}
