//! Files in memory, whose answers can be planned.
ghost use Rattle.std.specs.Prelude.{◌≡◌, ◌↔◌, ◌⊎◌, ◌≤◌, ◌<◌, ◌+◌, Some, None, IsTrue, IsErr, IsErrOf, IfOk, OnOk, length, [], false};
ghost use Rattle.disk_trait.specs.Disk.{Cuts, Syncs, Sizes};
ghost use Rattle.disk_trait.specs.History.{disk_view_of, IsRefused};
ghost use Rattle.disk_trait.specs.Rests.{mem_rests};
ghost use Rattle.disk_trait.specs.Stays.{stays};
ghost use Rattle.file_disk.specs.Files.{areas_of, SameAreas, Asks, Tries, ReadsSome, WritesSome};
ghost use Rattle.file_disk.specs.Laws.{counted_rests};
ghost use Rattle.file_disk.specs.Memory.{mem_view_of, next_answer_of, TakesAnswer, planned_front, IsAsPlanned};
ghost use Rattle.file_disk.specs.Names.{area_of_name};

use crate::answers::{AnswerPlan, Planned};
use crate::fault::{CallFault, OpenFault};
use crate::files::CoreFiles;
use crate::names::name_of;
use disk_trait::{Area, Disk, MemDisk};
use outside_traits::Failed;
use std::alloc::Global;

/// A file in memory.
#[derive(Clone, Copy, Debug, PartialEq, Eq)]
pub struct MemFile {
    area: Area,
}

/// Files over a disk in memory. Their calls are answered as planned, wholly behind the plan's end, and fail where that
/// disk fails and where a read or a write would end past the largest offset.
#[derive(Drop)]
pub struct MemFiles {
    disk: MemDisk,
    answers: AnswerPlan,
    locked: bool,
}

impl MemFiles {
    /// The files that a disk is, with no answer planned and no call made.
    pub fn new(alloc: Global, disk: MemDisk) -> MemFiles
        ensures disk { result.disk ≡ disk }
        ensures plan { result.answers.plan.items ≡ [] }
        ensures faults { result.answers.faults ≡ 0 }
        ensures interrupted { result.answers.interrupted ≡ 0 }
        ensures locked { result.locked ≡ false }
    {
        MemFiles {
            disk,
            answers: AnswerPlan::new(alloc),
            locked: false,
        }
    }

    /// From now on calls are answered like this, in order.
    pub fn plan_answers(&mut self, plan: Vec<Planned>)
        ensures disk { self.new.disk ≡ self.old.disk }
        ensures locked { self.new.locked ≡ self.old.locked }
        ensures answers { self.new.answers ≡ record self.old.answers { plan = plan; given = 0 } }
    {
        self.answers.plan = plan;
        self.answers.given = 0;
    }

    /// The disk that the files are.
    pub fn disk(&self) -> &MemDisk
        ensures { result.now ≡ self.now.disk }
    {
        &self.disk
    }
}

// The area whose file has this name.
fn area_of(name: &str) -> Option<Area>
    ensures { result ≡ area_of_name name.now }
{
    if name == name_of(Area::Oplog) {
        return Some(Area::Oplog);
    }
    if name == name_of(Area::Tree) {
        return Some(Area::Tree);
    }
    if name == name_of(Area::BitsA) {
        return Some(Area::BitsA);
    }
    if name == name_of(Area::BitsB) {
        return Some(Area::BitsB);
    }
    if name == name_of(Area::Blocks) {
        return Some(Area::Blocks);
    }
    None
}

impl CoreFiles for MemFiles {
    type File = MemFile;

    ghost files = { mem_view_of };

    ghost area = { λ file. file.area };

    ghost may_stay = { λ files honest. stays files.disk };

    ghost rests = { λ old new honest one. counted_rests (disk_view_of old.disk) (disk_view_of new.disk) 0 0 0 0
        (mem_rests old.disk new.disk) one };

    fn open(&mut self, _alloc: Global, _folder: &str, name: &str) -> Result<MemFile, OpenFault>
        ensures asks { Asks (mem_view_of self.old) (mem_view_of self.new)
            (IsErrOf result OpenFault.Failed) }
        ensures same { SameAreas (mem_view_of self.old) (mem_view_of self.new) }
        ensures area { IfOk result (λ file. area_of_name name.now ≡ Some file.area) }
        ensures takes { TakesAnswer self.old.answers self.new.answers }
        ensures fails { IsErr result
            ↔ ((next_answer_of self.old ≡ Planned.Failed) ⊎ (area_of_name name.now ≡ None)) }
        ensures failed { IsErr result → IsErrOf result OpenFault.Failed }
    {
        if self.answers.pass().is_err() {
            return Err(OpenFault::Failed);
        }
        match area_of(name) {
            Some(area) => Ok(MemFile { area }),
            None => {
                self.answers.fail();
                Err(OpenFault::Failed)
            }
        }
    }

    fn try_lock(&mut self, _file: &MemFile) -> Result<(), Failed>
        ensures asks { Asks (mem_view_of self.old) (mem_view_of self.new) (IsErr result) }
        ensures same { SameAreas (mem_view_of self.old) (mem_view_of self.new) }
        ensures locked { OnOk result (IsTrue self.new.locked) }
        ensures takes { TakesAnswer self.old.answers self.new.answers }
        ensures fails { IsErr result ↔ (next_answer_of self.old ≡ Planned.Failed) }
    {
        match self.answers.pass() {
            Ok(()) => {
                self.locked = true;
                Ok(())
            }
            Err(failed) => Err(failed),
        }
    }

    fn read_at(&mut self, file: &MemFile, at: u64, into: &mut [u8]) -> Result<usize, CallFault>
        ensures tries { Tries (mem_view_of self.old) (mem_view_of self.new) result }
        ensures within { IfOk result (λ n. n ≤ length into.new) }
        ensures reads { ReadsSome file.now.area at into.old into.new
            (mem_view_of self.old) (mem_view_of self.new) result }
        ensures interrupted { IsErrOf result CallFault.Interrupted → into.new ≡ into.old }
        ensures takes { TakesAnswer self.old.answers self.new.answers }
        ensures planned { IsAsPlanned (planned_front (next_answer_of self.old) at (length into.old))
            (λ n. IsRefused self.old.disk) result }
    {
        match self.answers.front(at, into.len()) {
            Ok(len) => match self.disk.read(file.area, at, &mut into[..len]) {
                Ok(n) => Ok(n),
                Err(_) => Err(self.answers.stop()),
            },
            Err(fault) => Err(fault),
        }
    }

    fn write_at(&mut self, file: &MemFile, at: u64, bytes: &[u8]) -> Result<usize, CallFault>
        requires some { 0 < length bytes.now }
        ensures tries { Tries (mem_view_of self.old) (mem_view_of self.new) result }
        ensures within { IfOk result (λ n. n ≤ length bytes.now) }
        ensures some { IfOk result (λ n. 0 < n) }
        ensures writes { WritesSome file.now.area at bytes.now
            (mem_view_of self.old) (mem_view_of self.new) result }
        ensures interrupted { IsErrOf result CallFault.Interrupted
            → (mem_view_of self.new).reads file.now.area ≡ (mem_view_of self.old).reads file.now.area }
        ensures takes { TakesAnswer self.old.answers self.new.answers }
        ensures planned { IsAsPlanned (planned_front (next_answer_of self.old) at (length bytes.now))
            (λ n. IsRefused self.old.disk ⊎ (self.old.disk.room.bytes < at + n)
            ⊎ (self.old.disk.left < 32 + n)) result }
    {
        match self.answers.front(at, bytes.len()) {
            Ok(len) => match self.disk.write(file.area, at, &bytes[..len]) {
                Ok(()) => Ok(len),
                Err(_) => Err(self.answers.stop()),
            },
            Err(fault) => Err(fault),
        }
    }

    fn set_len(&mut self, file: &MemFile, to: u64) -> Result<(), Failed>
        requires within { to ≤ length ((mem_view_of self.old).reads file.now.area) }
        ensures asks { Asks (mem_view_of self.old) (mem_view_of self.new) (IsErr result) }
        ensures cuts { Cuts file.now.area to
            (areas_of (mem_view_of self.old)) (areas_of (mem_view_of self.new)) result }
        ensures takes { TakesAnswer self.old.answers self.new.answers }
        ensures fails { IsErr result ↔ ((next_answer_of self.old ≡ Planned.Failed)
            ⊎ IsRefused self.old.disk ⊎ (self.old.disk.left < 32)) }
    {
        match self.answers.pass() {
            Ok(()) => match self.disk.cut(file.area, to) {
                Ok(()) => Ok(()),
                Err(_) => Err(self.answers.fail()),
            },
            Err(failed) => Err(failed),
        }
    }

    fn sync_data(&mut self, file: &MemFile) -> Result<(), Failed>
        ensures asks { Asks (mem_view_of self.old) (mem_view_of self.new) (IsErr result) }
        ensures syncs { Syncs file.now.area
            (areas_of (mem_view_of self.old)) (areas_of (mem_view_of self.new)) result }
        ensures takes { TakesAnswer self.old.answers self.new.answers }
        ensures fails { IsErr result ↔ ((next_answer_of self.old ≡ Planned.Failed)
            ⊎ IsRefused self.old.disk ⊎ (self.old.disk.left < 32)) }
    {
        match self.answers.pass() {
            Ok(()) => match self.disk.sync(file.area) {
                Ok(()) => Ok(()),
                Err(_) => Err(self.answers.fail()),
            },
            Err(failed) => Err(failed),
        }
    }

    fn len(&mut self, file: &MemFile) -> Result<u64, Failed>
        ensures asks { Asks (mem_view_of self.old) (mem_view_of self.new) (IsErr result) }
        ensures sizes { Sizes file.now.area
            (areas_of (mem_view_of self.old)) (areas_of (mem_view_of self.new)) result }
        ensures takes { TakesAnswer self.old.answers self.new.answers }
        ensures fails { IsErr result
            ↔ ((next_answer_of self.old ≡ Planned.Failed) ⊎ IsRefused self.old.disk) }
    {
        match self.answers.pass() {
            Ok(()) => match self.disk.size(file.area) {
                Ok(size) => Ok(size),
                Err(_) => Err(self.answers.fail()),
            },
            Err(failed) => Err(failed),
        }
    }
}
