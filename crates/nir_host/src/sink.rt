//! What bytes are written to.

ghost use Rattle.std.specs.Prelude.{◌≡◌, ℕ, ◌^◌, ◌<◌, ◌≤◌, List, length, take, Option, IfOk, OnErr};
ghost use Rattle.nir_host.specs.Faults.{Rose};
ghost use Rattle.nir_host.specs.Told.{Gains};

use crate::fault::Failed;

/// What takes bytes in order. A sink may tell contracts which bytes it has taken.
pub trait Sink {
    // The bytes taken so far, where the sink tells them.
    ghost taken: { Self → Option (List ℕ) };

    // How many writes failed, as far as 64 bits count.
    ghost faults: { Self → ℕ };

    /// Takes the front of the piece, and answers how many bytes. 0 for a piece that is not empty is
    /// a fault, which is counted, and where some were taken none is. After `Failed` nothing was taken, and
    /// the fault is counted.
    fn write(&mut self, from: &[u8]) -> Result<usize, Failed>
        ensures within { IfOk result (λ n. n ≤ length from.now) }
        ensures bytes { IfOk result (λ n. Gains (taken self.old) (taken self.new) (take n from.now)) }
        ensures none { IfOk result (λ n. n ≡ 0 → 0 < length from.now → Rose (faults self.old) (faults self.new)) }
        ensures no_fault { IfOk result (λ n. 0 < n → faults self.new ≡ faults self.old) }
        ensures failed { OnErr result (Rose (faults self.old) (faults self.new)) }
        ensures stays { OnErr result (taken self.new ≡ taken self.old) }
        ensures never_fall { faults self.old ≤ faults self.new }
        ensures limit { faults self.new < 2 ^ 64 };
}
