// A sink in memory that takes bytes in small steps and fails at chosen calls or where its room is full.
ghost use Rattle.std.specs.Prelude.{◌≡◌, ◌≢◌, ◌↔◌, ◌⊎◌, ◌+◌, ◌<◌, ◌≤◌, [], length, min, Some, false, IfOk, IsErr, IsTrue, OnOk, OnErr, MatchResult};
ghost use Rattle.std.specs.List.{Contains};
ghost use Rattle.std.specs.Io.KnownBytes.{Keeps, WriteAppends};
ghost use Rattle.cp_io.specs.Causes.{HasCause, next_count};

use crate::copies::copy_behind;
use crate::schedule::Schedule;
use crate::streams::{Failed, Sink};
use cp_base::Memory;
use std::alloc::Global;
use std::marker::Model;

/// A sink into memory, for tests. It tells its bytes.
#[derive(Debug, Drop)]
pub struct MemSink {
    held: Vec<u8>,
    len: usize,
    step: usize,
    schedule: Schedule,
    finished: bool,
}

impl Model for MemSink {
    ghost use Rattle.std.specs.Prelude.{◌-◌, ◌<◌, ◌≤◌, take, vec_len};
    ghost use Rattle.cp_io.specs.Fakes.{SinkState};

    ghost Value = { SinkState };

    ghost view = { λ s. record {
      taken = take s.len s.held.items;
      room = vec_len s.held - s.len;
      step = s.step;
      failing = s.schedule.failing.items;
      calls = s.schedule.calls;
      faults = s.schedule.faults;
      finished = s.finished;
    } };

    ghost invariant = { λ s. (s.len ≤ vec_len s.held) × (0 < s.step) };
}

impl MemSink {
    /// A sink that has taken nothing and has room for `room` bytes. One write takes at most `step`
    /// bytes. Writes and finishes are numbered together from 1. Those whose number stands in
    /// `failing` fail, and so do writes of a piece that is not empty where no room is left. All
    /// memory is taken here.
    pub fn new(alloc: Global, room: usize, step: usize, failing: &[u64]) -> Result<MemSink, Memory>
        requires { 0 < step }
        ensures { IfOk result (λ s. s ≡ record {
          taken = [];
          room = room;
          step = step;
          failing = failing.now;
          calls = 0;
          faults = 0;
          finished = false;
        }) }
    {
        let held = vec![in alloc; 0u8; room]?;
        let schedule = Schedule::new(alloc, failing)?;
        Ok(MemSink {
            held,
            len: 0,
            step,
            schedule,
            finished: false,
        })
    }

    /// All bytes taken, in order.
    pub fn bytes(&self) -> &[u8]
        ensures { result.now ≡ self.now.taken }
    {
        let (taken, _) = self.held.as_slice().split_at(self.len);
        taken
    }
}

impl Sink for MemSink {
    ghost taken = { λ s. Some s.taken };

    ghost faults = { λ s. s.faults };

    ghost finished = { λ s. s.finished };

    /// Takes as many bytes as `step`, the room and the piece allow. Linear in that number and in
    /// the number of calls that are to fail.
    fn write(&mut self, piece: &[u8]) -> Result<usize, Failed>
        ensures bound { IfOk result (λ n. n ≤ length piece.now) }
        ensures some { IfOk result (λ n. 0 < length piece.now → 0 < n) }
        ensures empty { piece.now ≡ [] → result ≡ Ok 0 }
        ensures bytes { WriteAppends (Some self.old.taken) (Some self.new.taken) result piece.now }
        ensures open { IfOk result (λ n. 0 < n → self.new.finished ≡ false) }
        ensures cause { HasCause self.old.faults self.new.faults result }
        ensures fails { piece.now ≢ [] → (IsErr result ↔ (Contains self.old.failing self.new.calls ⊎ (self.old.room ≡ 0))) }
        ensures count { IfOk result (λ n. n ≡ min (min self.old.step self.old.room) (length piece.now)) }
        ensures room { length self.new.taken + self.new.room ≡ length self.old.taken + self.old.room }
        ensures kept_failed { OnErr result (self.new.finished ≡ self.old.finished) }
        ensures kept_empty { piece.now ≡ [] → self.new.finished ≡ self.old.finished }
        ensures call { self.new.calls ≡ next_count self.old.calls }
        ensures faults { MatchResult result (λ _. self.new.faults ≡ self.old.faults)
            (λ _. self.new.faults ≡ next_count self.old.faults) }
        ensures step { self.new.step ≡ self.old.step }
        ensures failing { self.new.failing ≡ self.old.failing }
    {
        let listed = self.schedule.call_fails();
        if piece.is_empty() {
            return Ok(0);
        }
        if listed || self.len == self.held.len() {
            self.schedule.count_fault();
            return Err(Failed);
        }
        let count = copy_behind(piece, self.held.as_mut_slice(), self.len, self.step);
        self.len += count;
        self.finished = false;
        Ok(count)
    }

    /// Makes the sink finished.
    fn finish(&mut self) -> Result<(), Failed>
        ensures bytes { Keeps (Some self.old.taken) (Some self.new.taken) }
        ensures finished { OnOk result (IsTrue self.new.finished) }
        ensures cause { HasCause self.old.faults self.new.faults result }
        ensures fails { IsErr result ↔ Contains self.old.failing self.new.calls }
        ensures kept_failed { OnErr result (self.new.finished ≡ self.old.finished) }
        ensures room { self.new.room ≡ self.old.room }
        ensures call { self.new.calls ≡ next_count self.old.calls }
        ensures faults { MatchResult result (λ _. self.new.faults ≡ self.old.faults)
            (λ _. self.new.faults ≡ next_count self.old.faults) }
        ensures step { self.new.step ≡ self.old.step }
        ensures failing { self.new.failing ≡ self.old.failing }
    {
        if self.schedule.call_fails() {
            self.schedule.count_fault();
            return Err(Failed);
        }
        self.finished = true;
        Ok(())
    }
}
