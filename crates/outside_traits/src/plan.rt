//! Which calls of a form in memory are to fail.
ghost use Rattle.std.specs.Prelude.{◌≡◌, ◌≤◌, ◌+◌, ◌-◌, ◌^◌, ◌⊎◌, ◌↔◌, IsTrue, IfSome, IsNone, Contains, []};
ghost use Rattle.outside_traits.specs.Faults.{count_fault};

use crate::failed::Failed;
use std::alloc::Global;

/// The numbers of the calls that are to fail, from 0; how many calls were made, and how many failed. Both counts stand
/// still at their type's end.
#[derive(Drop)]
pub struct Plan {
    pub calls: Vec<u64>,
    pub made: u64,
    pub faults: u64,
}

impl Plan {
    /// No call is to fail, and none was made.
    pub fn new(alloc: Global) -> Plan
        ensures calls { result.calls.items ≡ [] }
        ensures made { result.made ≡ 0 }
        ensures faults { result.faults ≡ 0 }
    {
        Plan {
            calls: Vec::new(alloc),
            made: 0,
            faults: 0,
        }
    }

    /// Counts a call, and says whether it is to fail.
    pub fn next(&mut self) -> bool
        ensures planned { IsTrue result ↔ Contains self.old.calls.items self.old.made }
        ensures made { self.new.made ≡ count_fault self.old.made }
        ensures calls { self.new.calls.items ≡ self.old.calls.items }
        ensures faults { self.new.faults ≡ self.old.faults }
    {
        let planned = self.calls.contains(&self.made);
        self.made = self.made.saturating_add(1);
        planned
    }

    /// Counts a call, and gives its number, unless it is to fail or the count is at its type's end.
    pub fn next_call(&mut self) -> Option<u64>
        ensures number { IfSome result (λ call. call ≡ self.old.made) }
        ensures next { IfSome result (λ call. self.new.made ≡ call + 1) }
        ensures planned { IsNone result
            ↔ (Contains self.old.calls.items self.old.made ⊎ (self.old.made ≡ 2 ^ 64 - 1)) }
        ensures made { self.new.made ≡ count_fault self.old.made }
        ensures calls { self.new.calls.items ≡ self.old.calls.items }
        ensures faults { self.new.faults ≡ self.old.faults }
    {
        let call = self.made;
        if self.next() || call == u64::MAX {
            return None;
        }
        Some(call)
    }

    /// Counts a fault.
    pub fn fail(&mut self) -> Failed
        ensures faults { self.new.faults ≡ count_fault self.old.faults }
        ensures kept { self.old.faults ≤ self.new.faults }
        ensures made { self.new.made ≡ self.old.made }
        ensures calls { self.new.calls.items ≡ self.old.calls.items }
    {
        self.faults = self.faults.saturating_add(1);
        Failed
    }
}
