// Which calls of a fake device fail, and how many did.
ghost use Rattle.std.specs.Prelude.{◌≡◌, ◌↔◌, IsTrue, IfOk};
ghost use Rattle.std.specs.List.{Contains};
ghost use Rattle.cp_io.specs.Causes.{next_count};

use cp_base::Memory;
use std::alloc::Global;

/// The numbers of the calls that fail, the number of calls so far and of those that failed.
#[derive(Debug, Drop)]
pub(crate) struct Schedule {
    failing: Vec<u64>,
    calls: u64,
    faults: u64,
}

impl Schedule {
    /// No call so far.
    pub(crate) fn new(alloc: Global, failing: &[u64]) -> Result<Schedule, Memory>
        ensures failing { IfOk result (λ s. s.failing.items ≡ failing.now) }
        ensures calls { IfOk result (λ s. s.calls ≡ 0) }
        ensures faults { IfOk result (λ s. s.faults ≡ 0) }
    {
        Ok(Schedule {
            failing: Vec::from_slice(alloc, failing)?,
            calls: 0,
            faults: 0,
        })
    }

    /// Counts a call, and tells whether it is one that fails.
    pub(crate) fn call_fails(&mut self) -> bool
        ensures listed { IsTrue result ↔ Contains self.old.failing.items self.new.calls }
        ensures call { self.new.calls ≡ next_count self.old.calls }
        ensures failing { self.new.failing ≡ self.old.failing }
        ensures faults { self.new.faults ≡ self.old.faults }
    {
        self.calls = self.calls.saturating_add(1);
        self.failing.contains(&self.calls)
    }

    /// Counts a call that failed.
    pub(crate) fn count_fault(&mut self)
        ensures fault { self.new.faults ≡ next_count self.old.faults }
        ensures failing { self.new.failing ≡ self.old.failing }
        ensures calls { self.new.calls ≡ self.old.calls }
    {
        self.faults = self.faults.saturating_add(1);
    }
}
