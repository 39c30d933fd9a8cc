//! A source over bytes in memory, whose calls fail where they were told to.

ghost use Rattle.std.specs.Prelude.{◌≡◌, ℕ, ◌^◌, ◌<◌, ◌≤◌, ◌↔◌, length, take, drop, min, Some, IfOk, IsErr, OnOk, OnErr};
ghost use Rattle.std.specs.List.{Contains};
ghost use Rattle.nir_host.specs.Faults.{next_count, Rose};
ghost use Rattle.nir_host.specs.Told.{IsSpent, Loses};

use crate::fault::{Failed, is_failing, raised};
use crate::memory::OutOfMemory;
use crate::seq::{Bytes, Seq};
use crate::source::Source;
use std::alloc::Global;
use std::marker::Model;

/// Bytes in memory as a source. It tells what is left. Its calls are numbered from 0.
#[derive(Drop)]
pub struct MemSource {
    bytes: Bytes,
    read: usize,
    failing: Seq<u64>,
    calls: u64,
    faults: u64,
}

impl Model for MemSource {
    ghost use Rattle.std.specs.Prelude.{◌≤◌, length, drop};
    ghost use Rattle.nir_host.specs.InMemory.{SourceInMemory};

    ghost Value = { SourceInMemory };

    ghost view = { λ s. record { left = drop s.read s.bytes; failing = s.failing; calls = s.calls; faults = s.faults } };

    ghost invariant = { λ s. s.read ≤ length s.bytes };
}

impl MemSource {
    /// A source of copies of these bytes, of which the calls with the numbers in `failing` fail.
    pub fn new(alloc: Global, bytes: &[u8], failing: &[u64]) -> Result<MemSource, OutOfMemory>
        ensures { IfOk result (λ source. source ≡ record { left = bytes.now; failing = failing.now; calls = 0; faults = 0 }) }
    {
        Ok(MemSource {
            bytes: Seq::from_slice(alloc, bytes)?,
            read: 0,
            failing: Seq::from_slice(alloc, failing)?,
            calls: 0,
            faults: 0,
        })
    }
}

impl Source for MemSource {
    ghost left = { λ s. Some s.left };

    ghost faults = { λ s. s.faults };

    /// Fails exactly where the number of the call is in `failing`. Else it gives as many of the bytes
    /// left as the buffer takes.
    fn read(&mut self, into: &mut [u8]) -> Result<usize, Failed>
        ensures within { IfOk result (λ n. n ≤ length into.new) }
        ensures bytes { IfOk result (λ n. Loses (Some self.old.left) (Some self.new.left) (take n into.new)) }
        ensures end { IfOk result (λ n. n ≡ 0 → 0 < length into.new → IsSpent (Some self.new.left)) }
        ensures no_fault { OnOk result (self.new.faults ≡ self.old.faults) }
        ensures failed { OnErr result (Rose self.old.faults self.new.faults) }
        ensures stays { OnErr result (Some self.new.left ≡ Some self.old.left) }
        ensures never_fall { self.old.faults ≤ self.new.faults }
        ensures limit { self.new.faults < 2 ^ 64 }

        // What the call does, exactly.
        ensures fails { IsErr result ↔ Contains self.old.failing self.old.calls }
        ensures gives { IfOk result (λ n. n ≡ min (length into.new) (length self.old.left)) }
        ensures buffer { IfOk result (λ n. take n into.new ≡ take n self.old.left) }
        ensures after_ok { IfOk result (λ n. self.new ≡ record self.old { left = drop n self.old.left; calls = next_count self.old.calls }) }
        ensures after_err { OnErr result (self.new ≡ record self.old { calls = next_count self.old.calls; faults = next_count self.old.faults }) }
    {
        let call = self.calls;
        self.calls = raised(call);
        if is_failing(self.failing.as_slice(), call) {
            self.faults = raised(self.faults);
            return Err(Failed);
        }
        let left = &self.bytes.as_slice()[self.read..];
        let count = copy_front(left, into);
        self.read += count;
        Ok(count)
    }
}

// Copies as much of the front of `from` as `into` has room for, and answers how many bytes.
fn copy_front(from: &[u8], into: &mut [u8]) -> usize
    ensures count { result ≡ min (length into.new) (length from.now) }
    ensures copied { take result into.new ≡ take result from.now }
{
    let count = into.len().min(from.len());
    into[..count].copy_from_slice(&from[..count]);
    count
}
