// A sink in memory.
ghost use Rattle.std.specs.Prelude.{◌≡◌, ◌+◌, ◌-◌, ◌≤◌, ◌<◌, ◌⊎◌, ◌↔◌, ◌++◌, [], min, IfOk, OnErr, IsErr, Some, length, take, Contains};
ghost use Rattle.mov_edge.specs.Outside.{Took, Counts, next_count};
ghost use Rattle.mov_edge.specs.Devices.{SinkState, IsNextListed};

use crate::faults::{is_listed, raise};
use crate::{Failed, Sink};
use mov_base::Memory;
use std::alloc::Global;
use std::marker::Model;

/// A sink in memory, with room for so many bytes, that takes at most a step of bytes at each call. It fails at the calls whose
/// numbers, from 1, are listed, and where it is full and there is a byte to take.
#[derive(Drop)]
pub struct MemSink {
    taken: Vec<u8>,
    room: usize,
    step: usize,
    failing: Vec<u32>,
    calls: u64,
    faults: u64,
}

impl Model for MemSink {
    ghost use Rattle.std.specs.Prelude.{◌≡◌, ◌≤◌, ◌<◌, length, vec_capacity};
    ghost use Rattle.mov_edge.specs.Devices.{SinkState};

    ghost Value = { SinkState };

    ghost view = { λ s. record {
      taken = s.taken.items;
      room = s.room;
      step = s.step;
      failing = s.failing.items;
      calls = s.calls;
      faults = s.faults;
    } };

    ghost invariant = { λ s. (length s.taken.items ≤ s.room) × (s.room ≤ vec_capacity s.taken) × (1 ≤ s.step) };
}

impl MemSink {
    /// A sink that has taken nothing. All the memory that it ever takes is taken here.
    pub fn new(
        alloc: Global,
        room: usize,
        step: usize,
        failing: Vec<u32>,
    ) -> Result<MemSink, Memory>
        requires { 1 ≤ step }
        ensures { IfOk result
            (λ s. s ≡ record { taken = []; room = room; step = step; failing = failing.items; calls = 0; faults = 0 }) }
    {
        let taken = Vec::with_capacity(alloc, room)?;
        Ok(MemSink {
            taken,
            room,
            step,
            failing,
            calls: 0,
            faults: 0,
        })
    }

    /// Lends the bytes that were taken, in order.
    pub fn taken(&self) -> &[u8]
        ensures { result.now ≡ self.now.taken }
    {
        self.taken.as_slice()
    }
}

impl Sink for MemSink {
    ghost use Rattle.std.specs.Prelude.{Some};

    ghost taken = { λ s. Some s.taken };

    ghost faults = { λ s. s.faults };

    fn write(&mut self, bytes: &[u8]) -> Result<usize, Failed>
        ensures bound { IfOk result (λ n. n ≤ length bytes.now) }
        ensures some { IfOk result (λ n. 0 < length bytes.now → 0 < n) }
        ensures took { IfOk result (λ n. Took (Some self.old.taken) (Some self.new.taken) (take n bytes.now)) }
        ensures stays { OnErr result (Some self.new.taken ≡ Some self.old.taken) }
        ensures cause { Counts self.old.faults self.new.faults result ⊥ }

        // What more this sink promises: as many bytes as the step and the room allow, exactly when it fails, that each failure is
        // counted, and that nothing else changes.
        ensures count { IfOk result
            (λ n. n ≡ min (length bytes.now) (min self.old.step (self.old.room - length self.old.taken))) }
        ensures fails { IsErr result
            ↔ (IsNextListed self.old.failing self.old.calls
            ⊎ ((length self.old.taken ≡ self.old.room) × (0 < length bytes.now))) }
        ensures counted { OnErr result (self.new.faults ≡ next_count self.old.faults) }
        ensures rest { self.new ≡ record self.old
            { taken = self.new.taken; calls = next_count self.old.calls; faults = self.new.faults } }
    {
        self.calls = self.calls.saturating_add(1);
        let left = self.room - self.taken.len();
        if is_listed(&self.failing, self.calls) || (left == 0 && !bytes.is_empty()) {
            return Err(raise(&mut self.faults));
        }
        let count = bytes.len().min(self.step).min(left);
        self.taken.extend_from_slice(&bytes[..count]).unwrap();
        Ok(count)
    }
}
