ghost use Rattle.std.specs.Prelude.{◌≡◌, ◌≢◌, ◌↔◌, ◌⊎◌, ◌+◌, ◌-◌, ◌^◌, ◌≤◌, IsTrue, IsSomeAnd, Contains, Some};
ghost use Rattle.folder_core.specs.Cause.{HasCause};

use osgi_version::List;
use std::alloc::Global;

/// Which calls of an object fail.
#[derive(Debug, Drop)]
pub(crate) struct Schedule {
    /// How often the object was called.
    pub(crate) calls: u64,
    /// How often it failed.
    pub(crate) faults: u64,
    /// The calls that fail, counted from 1, from the call after so many.
    listed: List<u64>,
    listed_after: u64,
    /// How many calls pass, from the call after so many, until every call fails.
    fuse: Option<u64>,
    fused_after: u64,
}

impl Schedule {
    ghost use Rattle.folder_memory.specs.Schedule.{quiet, Counts, FailsNext, after_call};

    /// No call fails.
    pub(crate) fn new(alloc: Global) -> Schedule
        ensures { result ≡ quiet }
    {
        Schedule {
            calls: 0,
            faults: 0,
            listed: List::new(alloc),
            listed_after: 0,
            fuse: None,
            fused_after: 0,
        }
    }

    /// These calls fail, counted from 1, from now on.
    pub(crate) fn fail_at(&mut self, calls: List<u64>)
        ensures { self.new ≡ record self.old { listed = calls; listed_after = self.old.calls } }
    {
        self.listed = calls;
        self.listed_after = self.calls;
    }

    /// After so many calls from now on every call fails.
    pub(crate) fn fuse(&mut self, passes: u64)
        ensures { self.new ≡ record self.old { fuse = Some passes; fused_after = self.old.calls } }
    {
        self.fuse = Some(passes);
        self.fused_after = self.calls;
    }

    /// Counts a call, and answers whether it fails, which counts as a fault.
    pub(crate) fn next(&mut self) -> bool
        ensures fails { IsTrue result ↔ FailsNext self.old }
        ensures counts { Counts (FailsNext self.old) self.old self.new }
        ensures cause { HasCause self.old.faults self.new.faults (IsTrue result) }
    {
        self.next_or(false)
    }

    /// The same for a call that fails in any case, where that holds.
    pub(crate) fn next_or(&mut self, fails: bool) -> bool
        ensures fails { IsTrue result ↔ (IsTrue fails ⊎ FailsNext self.old) }
        ensures counts { self.new ≡ after_call result self.old }
        ensures cause { HasCause self.old.faults self.new.faults (IsTrue result) }
    {
        let fails = fails || self.is_last() || self.is_listed() || self.is_past_fuse();
        self.calls = self.calls.saturating_add(1);
        if fails {
            self.faults = self.faults.saturating_add(1);
        }
        fails
    }

    fn is_last(&self) -> bool
        ensures { IsTrue result ↔ (self.now.calls ≡ 2 ^ 64 - 1) }
    {
        self.calls == u64::MAX
    }

    fn is_listed(&self) -> bool
        requires { self.now.calls ≢ 2 ^ 64 - 1 }
        ensures { IsTrue result ↔ Contains self.now.listed (self.now.calls - self.now.listed_after + 1) }
    {
        let number = self.calls.saturating_sub(self.listed_after) + 1;
        self.listed.items().contains(&number)
    }

    fn is_past_fuse(&self) -> bool
        ensures { IsTrue result ↔ IsSomeAnd self.now.fuse (λ passes. passes ≤ self.now.calls - self.now.fused_after) }
    {
        self.fuse.is_some_and(|passes| passes <= self.calls.saturating_sub(self.fused_after))
    }
}
