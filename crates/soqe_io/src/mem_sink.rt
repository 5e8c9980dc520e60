ghost use Rattle.std.specs.Prelude.{◌≡◌, ◌<◌, ◌≤◌, ◌-◌, ◌||◌, [], length, min, Some, IfOk, is_err, nat_le, if◌then◌else◌};
ghost use Rattle.std.specs.Io.{WritesAtMost};
ghost use Rattle.std.specs.Io.KnownBytes.{WriteAppends};
ghost use Rattle.soqe_io.specs.Faults.{HasCause, is_listed, next_count};

use crate::{Failed, Mem, Sink};
use std::alloc::Global;
use std::marker::Model;

/// A sink that keeps in memory what it takes, and fails at the calls that it is told and where it is full. Contracts
/// see it as a `SinkScript`: the bytes taken, the capacity, the most bytes at a call, the calls that fail, and the
/// counts of calls and of faults.
#[derive(Drop)]
pub struct MemSink {
    bytes: Vec<u8>,
    capacity: usize,
    per_call: usize,
    fail_at: Vec<u64>,
    calls: u64,
    faults: u64,
}

impl Model for MemSink {
    ghost use Rattle.std.specs.Prelude.{◌≤◌, vec_len, vec_capacity};
    ghost use Rattle.soqe_io.specs.MemSink.{SinkScript};

    ghost Value = { SinkScript };

    ghost view = { λ s. record { taken = s.bytes.items; capacity = s.capacity; per_call = s.per_call; fail_at = s.fail_at.items; calls = s.calls; faults = s.faults } };

    ghost invariant = { λ s. (vec_len s.bytes ≤ s.capacity) × (s.capacity ≤ vec_capacity s.bytes) × (1 ≤ s.per_call) };
}

impl MemSink {
    /// Takes `capacity` bytes in all, and at most `per_call` at a call. It fails at the calls whose numbers, from 1,
    /// are in `fail_at`, and wherever it is full. All its room is taken here; the one error is want of memory.
    pub fn new(alloc: Global, capacity: usize, per_call: usize, fail_at: Vec<u64>) -> Mem<MemSink>
        requires { 1 ≤ per_call }
        ensures { IfOk result (λ sink. sink ≡ record { taken = []; capacity = capacity; per_call = per_call; fail_at = fail_at.items; calls = 0; faults = 0 }) }
    {
        let bytes = Vec::with_capacity(alloc, capacity)?;
        Ok(MemSink {
            bytes,
            capacity,
            per_call,
            fail_at,
            calls: 0,
            faults: 0,
        })
    }

    /// The bytes taken. It takes no memory.
    pub fn bytes(&self) -> &[u8]
        ensures { result.now ≡ self.now.taken }
    {
        &self.bytes
    }
}

impl Sink for MemSink {
    ghost taken = { λ s. Some s.taken };

    ghost faults = { λ s. s.faults };

    /// It takes no memory, since `new` took all the room.
    fn write(&mut self, piece: &[u8]) -> Result<usize, Failed>
        requires { 0 < length piece.now }
        ensures bound { WritesAtMost result piece.now }
        ensures some { IfOk result (λ n. 0 < n) }
        ensures bytes { WriteAppends (Some self.old.taken) (Some self.new.taken) result piece.now }
        ensures cause { HasCause self.old.faults self.new.faults result }
        ensures amount { IfOk result (λ n. n ≡ min self.old.per_call (min (length piece.now) (self.old.capacity - length self.old.taken))) }
        ensures fails { is_err result ≡ (is_listed self.old.fail_at (next_count self.old.calls) || nat_le self.old.capacity (length self.old.taken)) }
        ensures script { self.new ≡ record self.old {
          taken = self.new.taken;
          calls = next_count self.old.calls;
          faults = if is_err result then next_count self.old.faults else self.old.faults;
        } }
    {
        self.calls = self.calls.saturating_add(1);
        if self.fail_at.contains(&self.calls) || self.bytes.len() >= self.capacity {
            self.faults = self.faults.saturating_add(1);
            return Err(Failed);
        }
        let room = self.capacity - self.bytes.len();
        let count = self.per_call.min(piece.len().min(room));
        match self.bytes.extend_from_slice(&piece[..count]) {
            Ok(()) => Ok(count),
            Err(_) => unreachable!(),
        }
    }
}
