//! A disk in memory, which keeps each step, so that a crash at each moment can be made.
ghost use Rattle.std.specs.Prelude.{◌≡◌, ◌≤◌, ◌<◌, ◌+◌, ◌^◌, ◌↔◌, ◌⊎◌, IsErr, IfOk, IsTrue, length};
ghost use Rattle.disk_trait.specs.Disk.{ReadsAt, IsImage, IsSettled, Counts, Reads, Writes, Cuts, Syncs, Sizes};
ghost use Rattle.disk_trait.specs.History.{MemDiskView, IsConsistent, disk_view_of, fresh, IsRefused, Spends};
ghost use Rattle.disk_trait.specs.Crash.{crashed};
ghost use Rattle.disk_trait.specs.Rests.{mem_rests};
ghost use Rattle.disk_trait.specs.Stays.{stays};

use crate::disk::{Area, Disk};
use crate::files::Files;
use crate::journal::{Journal, ROW_BYTES};
use outside_traits::{Failed, Memory, Plan};
use std::alloc::{AllocError, Global};
use std::marker::Model;

/// The room of a disk in memory, in bytes: of each area, and of its record of calls. A recorded call takes 32 bytes of
/// the second, and a write its bytes besides.
#[derive(Clone, Copy, Debug, PartialEq, Eq)]
pub struct Room {
    pub bytes: u64,
    pub journal: u64,
}

/// A disk in memory. It fails at the calls that are planned, past its room and at the end of its count of calls, and
/// nowhere else. A call that fails changes nothing.
#[derive(Drop)]
pub struct MemDisk {
    start: Files,
    files: Files,
    journal: Journal,
    room: Room,
    plan: Plan,
}

impl Model for MemDisk {
    ghost use Rattle.disk_trait.specs.History.{MemDiskView, IsConsistent};

    ghost Value = { MemDiskView };

    ghost view = { λ disk. record {
      start = disk.start.all;
      steps = disk.journal.steps;
      room = disk.room;
      left = disk.journal.left;
      planned = disk.plan.calls.items;
      made = disk.plan.made;
      faults = disk.plan.faults;
    } };

    ghost invariant = { λ disk. IsConsistent disk.start.all disk.files disk.journal.steps disk.room disk.plan.made };
}

impl MemDisk {
    /// An empty disk that takes all its room at once. No call is to fail.
    pub fn new(alloc: Global, room: &Room) -> Result<MemDisk, Memory>
        ensures fresh { IfOk result (λ disk. disk ≡ fresh room.now) }
        ensures settled { IfOk result (λ disk. IsSettled (disk_view_of disk)) }
    {
        match make(alloc, room) {
            Ok(disk) => Ok(disk),
            Err(_) => Err(Memory),
        }
    }

    /// From now on the calls of these numbers fail, counted from 0 since it was made.
    pub fn plan_faults(&mut self, calls: Vec<u64>)
        ensures planned { self.new ≡ record self.old { planned = calls.items } }
    {
        self.plan.calls = calls;
    }

    /// The disk that a crash after the first `moment` calls leaves where, of the bytes that weren't synced then, the
    /// first `keep` in the order of writing are there and the others aren't. A cut that wasn't synced counts for one
    /// byte. The new disk has the same room, its calls are counted from 0, and none is to fail.
    pub fn crash(&self, alloc: Global, moment: u64, keep: u64) -> Result<MemDisk, Memory>
        requires { moment ≤ self.now.made }
        ensures image { IfOk result (λ disk. IsImage (disk_view_of self.now) moment
            (disk_view_of disk).reads) }
        ensures settled { IfOk result (λ disk. IsSettled (disk_view_of disk)) }
        ensures kept { IfOk result (λ disk. disk ≡ crashed moment keep self.now) }
    {
        match self.make_crashed(alloc, moment, keep) {
            Ok(disk) => Ok(disk),
            Err(_) => Err(Memory),
        }
    }

    fn make_crashed(&self, alloc: Global, moment: u64, keep: u64) -> Result<MemDisk, AllocError>
        ensures { IfOk result (λ disk. disk ≡ crashed moment keep self.now) }
    {
        let mut files = self.start.copy(alloc, self.room.bytes as usize)?;
        self.journal.replay(&mut files, moment, keep)?;
        let start = files.copy(alloc, 0)?;
        let journal = Journal::new(alloc, self.room.journal as usize)?;
        Ok(MemDisk {
            start,
            files,
            journal,
            room: self.room,
            plan: Plan::new(alloc),
        })
    }

    /// How many calls were made.
    pub fn calls(&self) -> u64
        ensures { result ≡ self.now.made }
    {
        self.plan.made
    }
}

fn make(alloc: Global, room: &Room) -> Result<MemDisk, AllocError>
    ensures { IfOk result (λ disk. disk ≡ fresh room.now) }
{
    let start = Files::new(alloc, 0)?;
    let files = Files::new(alloc, room.bytes as usize)?;
    let journal = Journal::new(alloc, room.journal as usize)?;
    Ok(MemDisk {
        start,
        files,
        journal,
        room: *room,
        plan: Plan::new(alloc),
    })
}

// Reads the bytes from `at` on, and gives their number.
fn read_from(file: &[u8], at: u64, into: &mut [u8]) -> usize
    ensures { ReadsAt at file.now into.old into.new result }
{
    if at >= file.len() as u64 {
        return 0;
    }
    let rest = &file[at as usize..];
    let n = into.len().min(rest.len());
    into[..n].copy_from_slice(&rest[..n]);
    n
}

// Whether so many bytes at this place end within the room.
fn is_within(at: u64, len: usize, room: u64) -> bool
    ensures { IsTrue result ↔ (at + len ≤ room) }
{
    at <= room && len as u64 <= room - at
}

impl Disk for MemDisk {
    ghost disk = { disk_view_of };

    ghost may_stay = { λ disk honest. stays disk };

    ghost rests = { λ old new honest one. mem_rests old new one };

    fn read(&mut self, area: Area, at: u64, into: &mut [u8]) -> Result<usize, Failed>
        ensures counts { Counts (disk_view_of self.old) (disk_view_of self.new) result }
        ensures reads { IsTrue (disk_view_of self.old).honest
            → Reads area at into.old into.new (disk_view_of self.old) (disk_view_of self.new) result }
        ensures fails { IsErr result ↔ IsRefused self.old }
        ensures spends { Spends 0 self.old self.new result }
    {
        if self.plan.next_call().is_none() {
            return Err(self.plan.fail());
        }
        Ok(read_from(self.files.of(area), at, into))
    }

    fn write(&mut self, area: Area, at: u64, bytes: &[u8]) -> Result<(), Failed>
        ensures counts { Counts (disk_view_of self.old) (disk_view_of self.new) result }
        ensures writes { IsTrue (disk_view_of self.old).honest
            → Writes area at bytes.now (disk_view_of self.old) (disk_view_of self.new) result }
        ensures fails { IsErr result ↔ (IsRefused self.old
            ⊎ (self.old.room.bytes < at + length bytes.now)
            ⊎ (self.old.left < ROW_BYTES + length bytes.now)) }
        ensures spends { Spends (ROW_BYTES + length bytes.now) self.old self.new result }
    {
        let Some(call) = self.plan.next_call() else {
            return Err(self.plan.fail());
        };
        if !is_within(at, bytes.len(), self.room.bytes) || !self.journal.has_room(bytes.len()) {
            return Err(self.plan.fail());
        }
        if self.files.overlay(area, at as usize, bytes).is_err() {
            return Err(self.plan.fail());
        }
        self.journal.write(call, area, at as usize, bytes);
        Ok(())
    }

    fn cut(&mut self, area: Area, to: u64) -> Result<(), Failed>
        requires { IsTrue (disk_view_of self.old).honest
            → to ≤ length ((disk_view_of self.old).reads area) }
        ensures counts { Counts (disk_view_of self.old) (disk_view_of self.new) result }
        ensures cuts { IsTrue (disk_view_of self.old).honest
            → Cuts area to (disk_view_of self.old) (disk_view_of self.new) result }
        ensures fails { IsErr result ↔ (IsRefused self.old ⊎ (self.old.left < ROW_BYTES)) }
        ensures spends { Spends ROW_BYTES self.old self.new result }
    {
        let Some(call) = self.plan.next_call() else {
            return Err(self.plan.fail());
        };
        if !self.journal.has_room(0) {
            return Err(self.plan.fail());
        }
        self.files.cut(area, to as usize);
        self.journal.cut(call, area, to as usize);
        Ok(())
    }

    fn sync(&mut self, area: Area) -> Result<(), Failed>
        ensures counts { Counts (disk_view_of self.old) (disk_view_of self.new) result }
        ensures syncs { IsTrue (disk_view_of self.old).honest
            → Syncs area (disk_view_of self.old) (disk_view_of self.new) result }
        ensures fails { IsErr result ↔ (IsRefused self.old ⊎ (self.old.left < ROW_BYTES)) }
        ensures spends { Spends ROW_BYTES self.old self.new result }
    {
        let Some(call) = self.plan.next_call() else {
            return Err(self.plan.fail());
        };
        if !self.journal.has_room(0) {
            return Err(self.plan.fail());
        }
        self.journal.sync(call, area);
        Ok(())
    }

    fn size(&mut self, area: Area) -> Result<u64, Failed>
        ensures counts { Counts (disk_view_of self.old) (disk_view_of self.new) result }
        ensures sizes { IsTrue (disk_view_of self.old).honest
            → Sizes area (disk_view_of self.old) (disk_view_of self.new) result }
        ensures fails { IsErr result ↔ IsRefused self.old }
        ensures spends { Spends 0 self.old self.new result }
    {
        if self.plan.next_call().is_none() {
            return Err(self.plan.fail());
        }
        Ok(self.files.of(area).len() as u64)
    }

    fn faults(&self) -> u64 {
        self.plan.faults
    }
}
