ghost use Rattle.std.specs.Prelude.{◌≡◌, ◌<◌, ◌≤◌, length, min, Some, IfOk, is_err, if◌then◌else◌};
ghost use Rattle.std.specs.Io.{ReadsAtMost};
ghost use Rattle.std.specs.Io.KnownBytes.{ReadConsumes};
ghost use Rattle.soqe_io.specs.Faults.{HasCause, is_listed, next_count};

use crate::front::copy_front;
use crate::{Failed, Source};
use std::marker::Model;

/// A source over bytes in memory, which fails at the calls that it is told. Contracts see it as a `SourceScript`: the
/// bytes still to come, the most bytes at a call, the calls that fail, and the counts of calls and of faults.
#[derive(Drop)]
pub struct MemSource {
    bytes: Vec<u8>,
    at: usize,
    per_call: usize,
    fail_at: Vec<u64>,
    calls: u64,
    faults: u64,
}

impl Model for MemSource {
    ghost use Rattle.std.specs.Prelude.{◌≤◌, drop, vec_len};
    ghost use Rattle.soqe_io.specs.MemSource.{SourceScript};

    ghost Value = { SourceScript };

    ghost view = { λ s. record { left = drop s.at s.bytes.items; per_call = s.per_call; fail_at = s.fail_at.items; calls = s.calls; faults = s.faults } };

    ghost invariant = { λ s. (s.at ≤ vec_len s.bytes) × (1 ≤ s.per_call) };
}

impl MemSource {
    /// Gives these bytes, at most `per_call` at a call. It fails at the calls whose numbers, from 1, are in `fail_at`.
    /// It takes no memory.
    pub fn new(bytes: Vec<u8>, per_call: usize, fail_at: Vec<u64>) -> MemSource
        requires { 1 ≤ per_call }
        ensures { result ≡ record { left = bytes.items; per_call = per_call; fail_at = fail_at.items; calls = 0; faults = 0 } }
    {
        MemSource {
            bytes,
            at: 0,
            per_call,
            fail_at,
            calls: 0,
            faults: 0,
        }
    }
}

impl Source for MemSource {
    ghost left = { λ s. Some s.left };

    ghost faults = { λ s. s.faults };

    /// It takes no memory.
    fn read(&mut self, buf: &mut [u8]) -> Result<usize, Failed>
        requires { 0 < length buf.old }
        ensures bound { ReadsAtMost result buf.new }
        ensures bytes { ReadConsumes (Some self.old.left) (Some self.new.left) result buf.new }
        ensures cause { HasCause self.old.faults self.new.faults result }
        ensures amount { IfOk result (λ n. n ≡ min self.old.per_call (min (length buf.old) (length self.old.left))) }
        ensures fails { is_err result ≡ is_listed self.old.fail_at (next_count self.old.calls) }
        ensures script { self.new ≡ record self.old {
          left = self.new.left;
          calls = next_count self.old.calls;
          faults = if is_err result then next_count self.old.faults else self.old.faults;
        } }
    {
        self.calls = self.calls.saturating_add(1);
        if self.fail_at.contains(&self.calls) {
            self.faults = self.faults.saturating_add(1);
            return Err(Failed);
        }
        let count = copy_front(&self.bytes[self.at..], buf, self.per_call);
        self.at += count;
        Ok(count)
    }
}
