// A source in memory that gives its bytes in small steps and fails at chosen calls.
ghost use Rattle.std.specs.Prelude.{◌≡◌, ◌↔◌, ◌<◌, ◌≤◌, length, min, Some, IfOk, IsErr, MatchResult};
ghost use Rattle.std.specs.List.{Contains};
ghost use Rattle.std.specs.Io.KnownBytes.{ReadConsumes};
ghost use Rattle.cp_io.specs.Causes.{HasCause, next_count};

use crate::copies::copy_front;
use crate::schedule::Schedule;
use crate::streams::{Failed, Source};
use cp_base::Memory;
use std::alloc::Global;
use std::marker::Model;

/// A source over bytes in memory, for tests. It tells its bytes.
#[derive(Debug, Drop)]
pub struct MemSource {
    bytes: Vec<u8>,
    at: usize,
    step: usize,
    schedule: Schedule,
}

impl Model for MemSource {
    ghost use Rattle.std.specs.Prelude.{◌<◌, ◌≤◌, drop, vec_len};
    ghost use Rattle.cp_io.specs.Fakes.{SourceState};

    ghost Value = { SourceState };

    ghost view = { λ s. record {
      left = drop s.at s.bytes.items;
      step = s.step;
      failing = s.schedule.failing.items;
      calls = s.schedule.calls;
      faults = s.schedule.faults;
    } };

    ghost invariant = { λ s. (s.at ≤ vec_len s.bytes) × (0 < s.step) };
}

impl MemSource {
    /// A source with these bytes left. One read gives at most `step` bytes. Calls are numbered from
    /// 1, and exactly those whose number stands in `failing` fail.
    pub fn new(
        alloc: Global,
        bytes: &[u8],
        step: usize,
        failing: &[u64],
    ) -> Result<MemSource, Memory>
        requires { 0 < step }
        ensures { IfOk result (λ s. s ≡ record {
          left = bytes.now;
          step = step;
          failing = failing.now;
          calls = 0;
          faults = 0;
        }) }
    {
        let bytes = Vec::from_slice(alloc, bytes)?;
        let schedule = Schedule::new(alloc, failing)?;
        Ok(MemSource {
            bytes,
            at: 0,
            step,
            schedule,
        })
    }
}

impl Source for MemSource {
    ghost left = { λ s. Some s.left };

    ghost faults = { λ s. s.faults };

    /// Gives as many bytes as `step`, the length of `buf` and what is left allow. Linear in that
    /// number and in the number of calls that are to fail.
    fn read(&mut self, buf: &mut [u8]) -> Result<usize, Failed>
        requires { 0 < length buf.old }
        ensures bound { IfOk result (λ n. n ≤ length buf.new) }
        ensures bytes { ReadConsumes (Some self.old.left) (Some self.new.left) result buf.new }
        ensures cause { HasCause self.old.faults self.new.faults result }
        ensures fails { IsErr result ↔ Contains self.old.failing self.new.calls }
        ensures count { IfOk result (λ n. n ≡ min (min self.old.step (length buf.new)) (length self.old.left)) }
        ensures call { self.new.calls ≡ next_count self.old.calls }
        ensures faults { MatchResult result (λ _. self.new.faults ≡ self.old.faults)
            (λ _. self.new.faults ≡ next_count self.old.faults) }
        ensures step { self.new.step ≡ self.old.step }
        ensures failing { self.new.failing ≡ self.old.failing }
    {
        if self.schedule.call_fails() {
            self.schedule.count_fault();
            return Err(Failed);
        }
        let (_, left) = self.bytes.as_slice().split_at(self.at);
        let count = copy_front(left, buf, self.step);
        self.at += count;
        Ok(count)
    }
}
