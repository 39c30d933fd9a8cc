//! One read or one write of a reader or a writer of the standard library, whose failure is counted.

ghost use Rattle.std.specs.Prelude.{◌≡◌, ◌<◌, ◌≤◌, None, length, IfOk, IfSome, OnOk, OnErr, IsErr};
ghost use Rattle.std.specs.Io.KnownBytes.{ReadConsumes, WriteAppends};
ghost use Rattle.nir_host.specs.Faults.{next_count};

use crate::fault::{Failed, raised};
use std::io::{Read, Write};

// Reads once.
pub(crate) fn read_counted<R: Read>(
    from: &mut R,
    faults: &mut u64,
    into: &mut [u8],
) -> Result<usize, Failed>
    ensures within { IfOk result (λ n. n ≤ length into.new) }
    ensures bytes { ReadConsumes (R.remaining from.old) (R.remaining from.new) result into.new }
    ensures no_fault { OnOk result (faults.new ≡ faults.old) }
    ensures failed { OnErr result (faults.new ≡ next_count faults.old) }
{
    match from.read(into) {
        Ok(count) => Ok(count),
        Err(_error) => {
            *faults = raised(*faults);
            Err(Failed)
        }
    }
}

// Writes once. Taking nothing of a piece that is not empty is a failure too.
pub(crate) fn write_counted<W: Write>(
    to: &mut W,
    faults: &mut u64,
    from: &[u8],
) -> Result<usize, Failed>
    ensures within { IfOk result (λ n. n ≤ length from.now) }
    ensures some { IfOk result (λ n. 0 < length from.now → 0 < n) }
    ensures bytes { WriteAppends (W.contents to.old) (W.contents to.new) result from.now }
    ensures no_fault { OnOk result (faults.new ≡ faults.old) }
    ensures failed { OnErr result (faults.new ≡ next_count faults.old) }
{
    match to.write(from) {
        Ok(count) if count > 0 || from.is_empty() => Ok(count),
        Ok(_none) => {
            *faults = raised(*faults);
            Err(Failed)
        }
        Err(_error) => {
            *faults = raised(*faults);
            Err(Failed)
        }
    }
}
