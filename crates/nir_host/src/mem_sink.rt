//! A sink into room in memory, whose calls fail where they were told to and where no room is left.

ghost use Rattle.std.specs.Prelude.{◌≡◌, ℕ, ◌-◌, ◌^◌, ◌<◌, ◌≤◌, ◌↔◌, ◌⊎◌, [], ◌++◌, length, take, min, Some, IfOk, IsErr, OnErr};
ghost use Rattle.std.specs.List.{Contains};
ghost use Rattle.nir_host.specs.Faults.{next_count, Rose};
ghost use Rattle.nir_host.specs.Told.{Gains};

use crate::fault::{Failed, is_failing, raised};
use crate::memory::OutOfMemory;
use crate::seq::Seq;
use crate::sink::Sink;
use std::alloc::Global;
use std::marker::Model;

/// Room in memory as a sink. It tells what it has taken. Its calls are numbered from 0.
#[derive(Drop)]
pub struct MemSink {
    taken: Vec<u8>,
    room: usize,
    failing: Seq<u64>,
    calls: u64,
    faults: u64,
}

impl Model for MemSink {
    ghost use Rattle.std.specs.Prelude.{◌+◌, ◌≤◌, vec_len};
    ghost use Rattle.std.specs.Vec.{vec_capacity};
    ghost use Rattle.nir_host.specs.InMemory.{SinkInMemory};

    ghost Value = { SinkInMemory };

    ghost view = { λ s. record { taken = s.taken.items; room = s.room; failing = s.failing; calls = s.calls; faults = s.faults } };

    ghost invariant = { λ s. vec_len s.taken + s.room ≤ vec_capacity s.taken };
}

impl MemSink {
    /// A sink that takes `room` bytes in all, and the memory for them now. The calls with the numbers
    /// in `failing` fail.
    pub fn new(alloc: Global, room: usize, failing: &[u64]) -> Result<MemSink, OutOfMemory>
        ensures { IfOk result (λ sink. sink ≡ record { taken = []; room = room; failing = failing.now; calls = 0; faults = 0 }) }
    {
        Ok(MemSink {
            taken: Vec::with_capacity(alloc, room)?,
            room,
            failing: Seq::from_slice(alloc, failing)?,
            calls: 0,
            faults: 0,
        })
    }

    /// The bytes taken, in order.
    pub fn taken(&self) -> &[u8]
        ensures { result.now ≡ self.now.taken }
    {
        self.taken.as_slice()
    }
}

impl Sink for MemSink {
    ghost taken = { λ s. Some s.taken };

    ghost faults = { λ s. s.faults };

    /// Of a piece that is not empty, the call fails exactly where no room is left or its number is in
    /// `failing`. Else it takes what fits.
    fn write(&mut self, from: &[u8]) -> Result<usize, Failed>
        ensures within { IfOk result (λ n. n ≤ length from.now) }
        ensures bytes { IfOk result (λ n. Gains (Some self.old.taken) (Some self.new.taken) (take n from.now)) }
        ensures none { IfOk result (λ n. n ≡ 0 → 0 < length from.now → Rose self.old.faults self.new.faults) }
        ensures no_fault { IfOk result (λ n. 0 < n → self.new.faults ≡ self.old.faults) }
        ensures failed { OnErr result (Rose self.old.faults self.new.faults) }
        ensures stays { OnErr result (Some self.new.taken ≡ Some self.old.taken) }
        ensures never_fall { self.old.faults ≤ self.new.faults }
        ensures limit { self.new.faults < 2 ^ 64 }

        // What the call does, exactly.
        ensures fails { IsErr result ↔ ((0 < length from.now) × ((self.old.room ≡ 0) ⊎ Contains self.old.failing self.old.calls)) }
        ensures takes { IfOk result (λ n. n ≡ min (length from.now) self.old.room) }
        ensures after_ok { IfOk result (λ n. self.new ≡ record self.old { taken = self.old.taken ++ take n from.now; room = self.old.room - n; calls = next_count self.old.calls }) }
        ensures after_err { OnErr result (self.new ≡ record self.old { calls = next_count self.old.calls; faults = next_count self.old.faults }) }
    {
        let call = self.calls;
        self.calls = raised(call);
        if from.is_empty() {
            return Ok(0);
        }
        if self.room == 0 {
            self.faults = raised(self.faults);
            return Err(Failed);
        }
        if is_failing(self.failing.as_slice(), call) {
            self.faults = raised(self.faults);
            return Err(Failed);
        }
        let count = from.len().min(self.room);
        self.taken.extend_from_slice(&from[..count]).unwrap();
        self.room -= count;
        Ok(count)
    }
}
