ghost use Rattle.std.specs.Prelude.{◌≡◌, ◌<◌, ◌≤◌, ◌-◌, ◌↔◌, ◌⊎◌, List, [], ℕ, length, take, min, Contains, Some, IfOk, OnErr, IsErr};
ghost use Rattle.rf_io.specs.Causes.{HasCause};
ghost use Rattle.rf_io.specs.Memory.{sink_after, sink_failed, sink_state};
ghost use Rattle.rf_io.specs.Sink.{Appends, IsUntouched};

use crate::{Failed, Sink};
use std::alloc::{AllocError, Global};
use std::marker::Model;

/// A sink in memory, for tests: it has a fixed room, calls of given numbers fail, and a call takes a
/// given number of bytes at the most.
#[derive(Debug, Drop)]
pub struct MemSink {
    bytes: Vec<u8>,
    room: u64,
    failing: Vec<u64>,
    step: u64,
    calls: u64,
    faults: u64,
}

impl Model for MemSink {
    ghost use Rattle.std.specs.Prelude.{◌≤◌, vec_len, vec_capacity};
    ghost use Rattle.rf_io.specs.Memory.{MemorySink};

    ghost Value = { MemorySink };

    ghost view = { λ m. record { bytes = m.bytes.items; room = m.room; failing = m.failing.items; step = m.step; calls = m.calls; faults = m.faults } };

    ghost invariant = { λ m. (1 ≤ m.step) × (vec_len m.bytes ≤ m.room) × (m.room ≤ vec_capacity m.bytes) };
}

impl MemSink {
    /// Makes the memory for `room` bytes, so that no write takes any. The calls are numbered from 0,
    /// and those whose number is in `failing` fail, as does each call that finds no room left. Each
    /// other call takes at most `step` bytes.
    pub fn new(
        alloc: Global,
        room: u64,
        failing: Vec<u64>,
        step: u64,
    ) -> Result<MemSink, AllocError>
        requires { 1 ≤ step }
        ensures { IfOk result (λ m. m ≡ record { bytes = []; room = room; failing = failing.items; step = step; calls = 0; faults = 0 }) }
    {
        Ok(MemSink {
            bytes: Vec::with_capacity(alloc, room as usize)?,
            room,
            failing,
            step,
            calls: 0,
            faults: 0,
        })
    }

    /// The bytes written so far.
    pub fn bytes(&self) -> &[u8]
        ensures { result.now ≡ self.now.bytes }
    {
        self.bytes.as_slice()
    }
}

impl Sink for MemSink {
    ghost state = { sink_state };

    fn write(&mut self, piece: &[u8]) -> Result<usize, Failed>
        requires { 0 < length piece.now }
        ensures some { IfOk result (λ n. 0 < n) }
        ensures bound { IfOk result (λ n. n ≤ length piece.now) }
        ensures bytes { IfOk result (λ n. Appends (sink_state self.old) (sink_state self.new) (take n piece.now)) }
        ensures err { OnErr result (IsUntouched (sink_state self.old) (sink_state self.new)) }
        ensures cause { HasCause self.old.faults self.new.faults result }

        // Beyond what every sink promises: which calls fail, and how much the others take.
        ensures failed { IsErr result ↔ (Contains self.old.failing self.old.calls ⊎ (self.old.room ≤ length self.old.bytes)) }
        ensures count { IfOk result (λ n. n ≡ min self.old.step (min (length piece.now) (self.old.room - length self.old.bytes))) }
        ensures after_failed { OnErr result (self.new ≡ sink_failed self.old) }
        ensures after { IfOk result (λ n. self.new ≡ sink_after self.old (take n piece.now)) }
    {
        let call = self.calls;
        self.calls = call.saturating_add(1);
        let left = self.room as usize - self.bytes.len();
        if left == 0 || self.failing.contains(&call) {
            self.faults = self.faults.saturating_add(1);
            return Err(Failed);
        }
        let count = piece.len().min(left).min(self.step as usize);
        self.bytes.extend_from_slice(&piece[..count]).unwrap();
        Ok(count)
    }
}
