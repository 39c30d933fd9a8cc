//! What bytes are read from.

ghost use Rattle.std.specs.Prelude.{◌≡◌, ℕ, ◌^◌, ◌<◌, ◌≤◌, List, length, take, Option, IfOk, OnOk, OnErr};
ghost use Rattle.nir_host.specs.Faults.{Rose};
ghost use Rattle.nir_host.specs.Told.{IsSpent, Loses};

use crate::fault::Failed;

/// A stream of bytes that come in order. A source may tell contracts which bytes are left.
pub trait Source {
    // The bytes still to come, where the source tells them.
    ghost left: { Self → Option (List ℕ) };

    // How many reads failed, as far as 64 bits count.
    ghost faults: { Self → ℕ };

    /// Reads into the front of the buffer, and answers how many bytes. 0 for a buffer that is not
    /// empty is the end. Where it answers how many, no fault is counted. After `Failed` no byte is lost, and the
    /// fault is counted.
    fn read(&mut self, into: &mut [u8]) -> Result<usize, Failed>
        ensures within { IfOk result (λ n. n ≤ length into.new) }
        ensures bytes { IfOk result (λ n. Loses (left self.old) (left self.new) (take n into.new)) }
        ensures end { IfOk result (λ n. n ≡ 0 → 0 < length into.new → IsSpent (left self.new)) }
        ensures no_fault { OnOk result (faults self.new ≡ faults self.old) }
        ensures failed { OnErr result (Rose (faults self.old) (faults self.new)) }
        ensures stays { OnErr result (left self.new ≡ left self.old) }
        ensures never_fall { faults self.old ≤ faults self.new }
        ensures limit { faults self.new < 2 ^ 64 };
}
