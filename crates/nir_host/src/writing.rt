//! Handing all bytes to a sink.

ghost use Rattle.std.specs.Prelude.{◌≡◌, ℕ, ◌≤◌, List, Some, OnOk, OnErr};
ghost use Rattle.nir_host.specs.Faults.{Rose};
ghost use Rattle.nir_host.specs.Told.{Gains};
ghost use Rattle.nir_host.specs.Whole.{TakesFront};

use crate::sink::Sink;

/// A write failed, or a sink took nothing.
#[derive(Clone, Copy, Debug, PartialEq, Eq)]
pub struct WriteFault;

/// Writes until the sink has taken all the bytes.
///
/// `WriteFault` comes only where a fault was counted in this call, and `Ok` where none was. After a fault the sink then has taken a front of
/// the bytes, and not all.
pub fn write_all<K: Sink>(sink: &mut K, bytes: &[u8]) -> Result<(), WriteFault>
    ensures ok { OnOk result (Gains (K.taken sink.old) (K.taken sink.new) bytes.now) }
    ensures no_fault { OnOk result (K.faults sink.new ≡ K.faults sink.old) }
    ensures prefix { OnErr result ((before : List ℕ) → K.taken sink.old ≡ Some before → TakesFront before (K.taken sink.new) bytes.now) }
    ensures write_fault { OnErr result (Rose (K.faults sink.old) (K.faults sink.new)) }
    ensures never_fall { K.faults sink.old ≤ K.faults sink.new }
{
    let mut done = 0;
    'pieces: while done < bytes.len() {
        match sink.write(&bytes[done..]) {
            Ok(0) => return Err(WriteFault),
            Ok(count) => done += count,
            Err(_failed) => return Err(WriteFault),
        }
    }
    Ok(())
}
