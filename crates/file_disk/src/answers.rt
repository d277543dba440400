//! Which answers of files in memory are planned.
ghost use Rattle.std.specs.Prelude.{◌≡◌, ◌↔◌, ◌≤◌, IsErr, IsErrOf, []};
ghost use Rattle.outside_traits.specs.Faults.{count_fault, Rose};
ghost use Rattle.file_disk.specs.Memory.{answer_at, TakesAnswer, within_offsets, planned_front};

use crate::fault::CallFault;
use outside_traits::Failed;
use std::alloc::Global;

/// How a call is to be answered.
#[derive(Clone, Copy, Debug, PartialEq, Eq)]
pub enum Planned {
    /// Wholly, where the disk in memory does it.
    Whole,
    /// A read or a write for at most this many bytes, but at least one. Another call wholly.
    Short { most: usize },
    /// A read or a write as interrupted. Another call wholly.
    Interrupted,
    /// With `Failed`. Nothing is done.
    Failed,
}

/// The answers that are planned, how many of them were given, and how many calls failed and were interrupted.
#[derive(Drop)]
pub struct AnswerPlan {
    pub plan: Vec<Planned>,
    pub given: usize,
    pub faults: u64,
    pub interrupted: u64,
}

impl AnswerPlan {
    /// No answer is planned, and no call was made.
    pub fn new(alloc: Global) -> AnswerPlan
        ensures plan { result.plan.items ≡ [] }
        ensures given { result.given ≡ 0 }
        ensures faults { result.faults ≡ 0 }
        ensures interrupted { result.interrupted ≡ 0 }
    {
        AnswerPlan {
            plan: Vec::new(alloc),
            given: 0,
            faults: 0,
            interrupted: 0,
        }
    }

    // How the next call is to be answered: wholly behind the plan's end.
    fn next(&mut self) -> Planned
        ensures planned { result ≡ answer_at self.old.plan.items self.old.given }
        ensures takes { TakesAnswer self.old self.new }
        ensures faults { self.new.faults ≡ self.old.faults }
        ensures interrupted { self.new.interrupted ≡ self.old.interrupted }
    {
        let planned = match self.plan.get(self.given) {
            Some(planned) => *planned,
            None => Planned::Whole,
        };
        self.given = self.given.saturating_add(1);
        planned
    }

    /// Counts a fault.
    pub fn fail(&mut self) -> Failed
        ensures plan { self.new.plan.items ≡ self.old.plan.items }
        ensures given { self.new.given ≡ self.old.given }
        ensures faults { self.new.faults ≡ count_fault self.old.faults }
        ensures kept { self.old.faults ≤ self.new.faults }
        ensures interrupted { self.new.interrupted ≡ self.old.interrupted }
    {
        self.faults = self.faults.saturating_add(1);
        Failed
    }

    /// Whether the next call, which moves no bytes, is made.
    pub fn pass(&mut self) -> Result<(), Failed>
        ensures fails { IsErr result
            ↔ (answer_at self.old.plan.items self.old.given ≡ Planned.Failed) }
        ensures takes { TakesAnswer self.old self.new }
        ensures kept { self.old.faults ≤ self.new.faults }
        ensures rose { IsErr result → Rose self.old.faults self.new.faults }
        ensures interrupted { self.new.interrupted ≡ self.old.interrupted }
    {
        match self.next() {
            Planned::Failed => Err(self.fail()),
            _ => Ok(()),
        }
    }

    /// How many bytes the next read or write moves at most, where it is made of so many from an offset.
    pub fn front(&mut self, at: u64, len: usize) -> Result<usize, CallFault>
        ensures front { result ≡ planned_front (answer_at self.old.plan.items self.old.given) at len }
        ensures takes { TakesAnswer self.old self.new }
        ensures kept { self.old.faults ≤ self.new.faults }
        ensures failed { IsErrOf result CallFault.Failed → Rose self.old.faults self.new.faults }
        ensures interrupted { IsErrOf result CallFault.Interrupted
            → self.new.interrupted ≡ count_fault self.old.interrupted }
    {
        match self.next() {
            Planned::Whole => self.within_offsets(at, len),
            Planned::Short { most } => self.within_offsets(at, len.min(most.max(1))),
            Planned::Interrupted => {
                self.interrupted = self.interrupted.saturating_add(1);
                Err(CallFault::Interrupted)
            }
            Planned::Failed => Err(self.stop()),
        }
    }

    // So many bytes from an offset, unless they would end past the largest one.
    fn within_offsets(&mut self, at: u64, len: usize) -> Result<usize, CallFault>
        ensures front { result ≡ within_offsets at len }
        ensures plan { self.new.plan.items ≡ self.old.plan.items }
        ensures given { self.new.given ≡ self.old.given }
        ensures kept { self.old.faults ≤ self.new.faults }
        ensures failed { IsErrOf result CallFault.Failed → Rose self.old.faults self.new.faults }
        ensures interrupted { self.new.interrupted ≡ self.old.interrupted }
    {
        if len as u64 > u64::MAX - at {
            return Err(self.stop());
        }
        Ok(len)
    }

    /// Counts a read or a write that fails.
    pub fn stop(&mut self) -> CallFault
        ensures result { result ≡ CallFault.Failed }
        ensures plan { self.new.plan.items ≡ self.old.plan.items }
        ensures given { self.new.given ≡ self.old.given }
        ensures faults { self.new.faults ≡ count_fault self.old.faults }
        ensures kept { self.old.faults ≤ self.new.faults }
        ensures interrupted { self.new.interrupted ≡ self.old.interrupted }
    {
        self.fail();
        CallFault::Failed
    }
}
