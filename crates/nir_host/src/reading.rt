//! Reading a source to its end.

ghost use Rattle.std.specs.Prelude.{◌≡◌, ℕ, ◌+◌, ◌<◌, ◌≤◌, ◌↔◌, ◌≢◌, ◌++◌, List, length, IfOk, OnOk, OnErr};
ghost use Rattle.nir_host.specs.Faults.{Rose};
ghost use Rattle.nir_host.specs.Whole.{ReadsAll};

use crate::seq::Bytes;
use crate::source::Source;
use std::alloc::Global;

/// Why a source was not read to its end.
#[derive(Clone, Copy, Debug, PartialEq, Eq)]
pub enum ReadAllFault {
    /// A read failed.
    ReadFault,
    /// More bytes came than are allowed.
    TooLong,
    /// A growth found no memory.
    OutOfMemory,
}

// How many bytes one read asks for.
const PIECE: usize = 4096;

/// All bytes that the source has left, read piece by piece to the end.
///
/// `ReadFault` comes only where a fault was counted in this call, and every other answer where none was.
/// `TooLong` comes exactly where more than `max` bytes were taken. After a refusal the source has lost what was taken. Each turn takes a
/// byte or ends the loop, so a source that never ends is too long in the end.
pub fn read_all<S: Source>(alloc: Global, src: &mut S, max: u64) -> Result<Bytes, ReadAllFault>
    ensures told { (before : List ℕ) → S.left src.old ≡ Some before → ReadsAll before (S.left src.new) max result }
    ensures short { IfOk result (λ bytes. length bytes ≤ max) }
    ensures read_fault { result ≡ Err ReadAllFault.ReadFault → Rose (S.faults src.old) (S.faults src.new) }
    ensures no_fault { result ≢ Err ReadAllFault.ReadFault → S.faults src.new ≡ S.faults src.old }
    ensures never_fall { S.faults src.old ≤ S.faults src.new }
{
    let mut bytes = Bytes::new(alloc);
    let mut buffer = [0; PIECE];
    'pieces: loop {
        let count = match src.read(&mut buffer) {
            Ok(count) => count,
            Err(_failed) => return Err(ReadAllFault::ReadFault),
        };
        if count == 0 {
            return Ok(bytes);
        }
        append(&mut bytes, &buffer[..count], max)?;
    }
}

// Adds a piece at the end, if there are not too many bytes then. Memory is taken only for what is kept.
fn append(bytes: &mut Bytes, piece: &[u8], max: u64) -> Result<(), ReadAllFault>
    requires { length bytes.old ≤ max }
    ensures ok { OnOk result (bytes.new ≡ bytes.old ++ piece.now) }
    ensures too_long { (result ≡ Err ReadAllFault.TooLong) ↔ (max < length bytes.old + length piece.now) }
    ensures no_fault { result ≢ Err ReadAllFault.ReadFault }
{
    if max - (bytes.len() as u64) < piece.len() as u64 {
        return Err(ReadAllFault::TooLong);
    }
    match bytes.extend_from_slice(piece) {
        Ok(()) => Ok(()),
        Err(_refused) => Err(ReadAllFault::OutOfMemory),
    }
}
