//! Which calls of a shelf or sink in memory are to fail.

ghost use Rattle.std.specs.Prelude.{◌≡◌, ◌+◌, ◌-◌, ◌^◌, ◌≤◌, min, IfOk};
ghost use Rattle.plan_io.specs.Causes.{one_fault_more};
ghost use Rattle.plan_io.specs.FailList.{is_listed};

use crate::counts::fault_more;
use crate::failed::Failed;
use std::alloc::{AllocError, Global};

/// The numbers of the calls that are to fail, from 0, and how many calls there were and failed.
#[derive(Drop)]
pub struct FailList {
    failing: Vec<u64>,
    calls: u64,
    faults: u64,
}

impl FailList {
    /// A list of these numbers, before the first call.
    pub fn new(alloc: Global, failing: &[u64]) -> Result<FailList, AllocError>
        ensures failing { IfOk result (λ list. list.failing.items ≡ failing.now) }
        ensures calls { IfOk result (λ list. list.calls ≡ 0) }
        ensures faults { IfOk result (λ list. list.faults ≡ 0) }
    {
        Ok(FailList {
            failing: Vec::from_slice(alloc, failing)?,
            calls: 0,
            faults: 0,
        })
    }

    /// How many calls have failed.
    pub fn faults(&self) -> u64
        ensures { result ≡ self.now.faults }
    {
        self.faults
    }

    /// Counts a call, and says whether the list has its number.
    pub fn next_call(&mut self) -> bool
        ensures listed { result ≡ is_listed self.old.calls self.old.failing.items }
        ensures failing { self.new.failing.items ≡ self.old.failing.items }
        ensures calls { self.new.calls ≡ min (self.old.calls + 1) (2 ^ 64 - 1) }
        ensures faults { self.new.faults ≡ self.old.faults }
    {
        let is_listed = self.failing.contains(&self.calls);
        self.calls = self.calls.saturating_add(1);
        is_listed
    }

    /// Counts a fault.
    pub fn fault(&mut self) -> Failed
        ensures failing { self.new.failing.items ≡ self.old.failing.items }
        ensures calls { self.new.calls ≡ self.old.calls }
        ensures faults { self.new.faults ≡ one_fault_more self.old.faults }
        ensures later { self.old.faults ≤ self.new.faults }
    {
        self.faults = fault_more(self.faults);
        Failed
    }
}
