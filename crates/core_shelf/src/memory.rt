//! A shelf in memory, whose calls can be made to fail.
ghost use Rattle.std.specs.Prelude.{◌≡◌, ◌≤◌, ◌↔◌, ◌⊎◌, ℕ, List, false, true, Some, IsTrue, IfOk, OnOk, OnErr, IsErr, IsErrOf};
ghost use Rattle.outside_traits.specs.Faults.{Rose, HasCause, count_fault};
ghost use Rattle.disk_trait.specs.History.{disk_view_of};
ghost use Rattle.core_shelf.specs.Shelf.{AreInOrder, Counts, Others, KeepsList, KeepsOut, FailsWhereRose, Lists, Has, CountsOut, Takes, CountsIn, Gives, Marks};
ghost use Rattle.core_shelf.specs.Memory.{shelf_view_of, disk_at_tells, mem_disk_of, SameMemDisk, place_of, is_here, is_out, made, faults_at, went_with, Puts, planned_of, made_of, faults_of, with_plan, Plays, IsNew};

use crate::fault::ShelfFault;
use crate::shelf::{IdList, Shelf};
use disk_trait::{Disk, MemDisk, Room};
use outside_traits::{Failed, Memory, Plan};
use std::alloc::{AllocError, Global};
use std::collections::{BTreeMap, BTreeSet};

/// Where the disk of an id is, once one was made: here, or out with this count of faults.
#[derive(Drop)]
pub enum Place {
    Here(MemDisk),
    Out(u64),
}

/// A shelf in memory. It makes an empty disk with its room for each id whose disk is first taken. It fails at the calls
/// that are planned, and nowhere else.
#[derive(Drop)]
pub struct MemShelf {
    marked: BTreeSet<[u8; 32]>,
    places: BTreeMap<[u8; 32], Place>,
    room: Room,
    plan: Plan,
}

impl MemShelf {
    /// A shelf with no id on its list, whose disks have this room each. No call is to fail.
    pub fn new(alloc: Global, room: Room) -> MemShelf
        ensures { IsNew room result }
    {
        MemShelf {
            marked: BTreeSet::new(alloc),
            places: BTreeMap::new(alloc),
            room,
            plan: Plan::new(alloc),
        }
    }

    /// From now on the calls of these numbers fail, counted from 0 since it was made. `give_disk` has no number.
    pub fn plan_faults(&mut self, calls: Vec<u64>)
        ensures { self.new ≡ with_plan calls self.old }
    {
        self.plan.calls = calls;
    }

    /// How many calls failed, and how many disks came back with a fault.
    pub fn faults(&self) -> u64
        ensures { result ≡ faults_of self.now }
    {
        self.plan.faults
    }
}

// Counts a fault of the shelf.
fn fail(plan: &mut Plan) -> ShelfFault
    ensures fault { result ≡ ShelfFault.Failed }
    ensures faults { plan.new.faults ≡ count_fault plan.old.faults }
    ensures kept { plan.old.faults ≤ plan.new.faults }
    ensures made { plan.new.made ≡ plan.old.made }
    ensures calls { plan.new.calls.items ≡ plan.old.calls.items }
{
    plan.fail();
    ShelfFault::Failed
}

// The ids of a set, in their order.
fn ids_of(alloc: Global, marked: &BTreeSet<[u8; 32]>) -> Result<IdList, AllocError>
    ensures ids { IfOk result (λ ids. ids.items ≡ marked.now.keys) }
    ensures ordered { AreInOrder marked.now.keys }
{
    let mut ids = Vec::with_capacity(alloc, marked.len())?;
    for id in marked {
        ids.push(*id)?;
    }
    Ok(ids)
}

impl Shelf for MemShelf {
    type Store = MemDisk;

    ghost shelf = { shelf_view_of };

    ghost tells = { λ self honest id. disk_at_tells self.room _ };

    fn list(&mut self, alloc: Global) -> Result<IdList, ShelfFault>
        ensures counts { Counts (shelf_view_of self.old) (shelf_view_of self.new) }
        ensures out { KeepsOut (shelf_view_of self.old) (shelf_view_of self.new) }
        ensures cause { FailsWhereRose (shelf_view_of self.old) (shelf_view_of self.new) result }
        ensures lists { IsTrue (shelf_view_of self.old).honest
            → Lists (shelf_view_of self.old) (shelf_view_of self.new) result }
        ensures disks { (id : List ℕ) → SameMemDisk self.old self.new id }
        ensures plays { Plays (IsErrOf result ShelfFault.Failed) self.old self.new }
    {
        if self.plan.next() {
            return Err(fail(&mut self.plan));
        }
        match ids_of(alloc, &self.marked) {
            Ok(ids) => Ok(ids),
            Err(AllocError) => Err(ShelfFault::Memory),
        }
    }

    fn has(&mut self, id: &[u8; 32]) -> Result<bool, Failed>
        ensures counts { Counts (shelf_view_of self.old) (shelf_view_of self.new) }
        ensures out { KeepsOut (shelf_view_of self.old) (shelf_view_of self.new) }
        ensures cause { HasCause (shelf_view_of self.old).faults (shelf_view_of self.new).faults result }
        ensures has { IsTrue (shelf_view_of self.old).honest
            → Has id.now (shelf_view_of self.old) (shelf_view_of self.new) result }
        ensures disks { (other : List ℕ) → SameMemDisk self.old self.new other }
        ensures plays { Plays (IsErr result) self.old self.new }
    {
        if self.plan.next() {
            return Err(self.plan.fail());
        }
        Ok(self.marked.contains(id))
    }

    fn take_disk(&mut self, alloc: Global, id: &[u8; 32]) -> Result<MemDisk, ShelfFault>
        requires { IsTrue (shelf_view_of self.old).honest → (shelf_view_of self.old).out id.now ≡ false }
        ensures counts { Counts (shelf_view_of self.old) (shelf_view_of self.new) }
        ensures out { CountsOut disk_view_of id.now (shelf_view_of self.old) (shelf_view_of self.new) result }
        ensures cause { FailsWhereRose (shelf_view_of self.old) (shelf_view_of self.new) result }
        ensures takes { IsTrue (shelf_view_of self.old).honest
            → Takes disk_view_of id.now (shelf_view_of self.old) (shelf_view_of self.new) result }
        ensures disk { IfOk result (λ disk. mem_disk_of self.old id.now ≡ Some disk) }
        ensures others { Others id.now (SameMemDisk self.old self.new) }
        ensures err { OnErr result (SameMemDisk self.old self.new id.now) }
        ensures plays { Plays (IsErrOf result ShelfFault.Failed) self.old self.new }
    {
        if self.plan.next() {
            return Err(fail(&mut self.plan));
        }
        match prepare(alloc, &mut self.places, &self.room, id) {
            Ok(()) => Ok(take_out(&mut self.places, id)),
            Err(Memory) => Err(ShelfFault::Memory),
        }
    }

    fn give_disk(&mut self, id: &[u8; 32], disk: MemDisk)
        requires { IsTrue (shelf_view_of self.old).honest → (shelf_view_of self.old).out id.now ≡ true }
        ensures counts { Counts (shelf_view_of self.old) (shelf_view_of self.new) }
        ensures out { CountsIn (disk_view_of disk) id.now (shelf_view_of self.old) (shelf_view_of self.new) }
        ensures gives { IsTrue (shelf_view_of self.old).honest
            → Gives (disk_view_of disk) id.now (shelf_view_of self.old) (shelf_view_of self.new) }
        ensures disk { mem_disk_of self.new id.now ≡ Some disk }
        ensures others { Others id.now (SameMemDisk self.old self.new) }
        ensures planned { planned_of self.new ≡ planned_of self.old }
        ensures made { made_of self.new ≡ made_of self.old }
        ensures quiet { Rose ((shelf_view_of self.old).went id.now) disk.faults
            ⊎ (faults_of self.new ≡ faults_of self.old) }
    {
        if has_risen(went_out_with(&self.places, id), disk.faults()) {
            self.plan.fail();
        }
        put_back(&mut self.places, id, disk);
    }

    fn mark(&mut self, id: &[u8; 32]) -> Result<(), ShelfFault>
        ensures counts { Counts (shelf_view_of self.old) (shelf_view_of self.new) }
        ensures out { KeepsOut (shelf_view_of self.old) (shelf_view_of self.new) }
        ensures cause { FailsWhereRose (shelf_view_of self.old) (shelf_view_of self.new) result }
        ensures marks { IsTrue (shelf_view_of self.old).honest
            → Marks id.now (shelf_view_of self.old) (shelf_view_of self.new) result }
        ensures disks { (other : List ℕ) → SameMemDisk self.old self.new other }
        ensures err { OnErr result (KeepsList (shelf_view_of self.old) (shelf_view_of self.new)) }
        ensures plays { Plays (IsErrOf result ShelfFault.Failed) self.old self.new }
    {
        if self.plan.next() {
            return Err(fail(&mut self.plan));
        }
        match self.marked.insert(*id) {
            Ok(_) => Ok(()),
            Err(_) => Err(ShelfFault::Memory),
        }
    }
}

// Puts an empty disk on the shelf where none was made for the id.
fn prepare(
    alloc: Global,
    places: &mut BTreeMap<[u8; 32], Place>,
    room: &Room,
    id: &[u8; 32],
) -> Result<(), Memory>
    ensures ok { OnOk result (Puts id.now (made room.now (place_of places.old id.now)) places.old places.new) }
    ensures err { OnErr result (places.new.entries ≡ places.old.entries) }
{
    if places.contains_key(id) {
        return Ok(());
    }
    let disk = MemDisk::new(alloc, room)?;
    match places.insert(*id, Place::Here(disk)) {
        Ok(_) => Ok(()),
        Err(_) => Err(Memory),
    }
}

// Takes out the disk that is here.
fn take_out(places: &mut BTreeMap<[u8; 32], Place>, id: &[u8; 32]) -> MemDisk
    requires here { IsTrue (is_here (place_of places.old id.now)) }
    ensures disk { place_of places.old id.now ≡ Some (Place.Here result) }
    ensures puts { Puts id.now (Some (Place.Out result.faults)) places.old places.new }
{
    let faults = faults_here(places, id);
    match places.insert(*id, Place::Out(faults)) {
        Ok(Some(Place::Here(disk))) => disk,
        _ => unreachable!(),
    }
}

// Puts a disk back that is out.
fn put_back(places: &mut BTreeMap<[u8; 32], Place>, id: &[u8; 32], disk: MemDisk)
    requires out { is_out (place_of places.old id.now) ≡ true }
    ensures { Puts id.now (Some (Place.Here disk)) places.old places.new }
{
    let _ = places.insert(*id, Place::Here(disk));
}

// Whether a count of faults rose. One at its type's end is taken to.
fn has_risen(before: u64, now: u64) -> bool
    ensures { IsTrue result ↔ Rose before now }
{
    before.saturating_add(1) <= now
}

// The count of faults of the disk that is here.
fn faults_here(places: &BTreeMap<[u8; 32], Place>, id: &[u8; 32]) -> u64
    ensures { result ≡ faults_at (place_of places.now id.now) }
{
    match places.get(id) {
        Some(Place::Here(disk)) => disk.faults(),
        _ => 0,
    }
}

// The count of faults with which the disk went out.
fn went_out_with(places: &BTreeMap<[u8; 32], Place>, id: &[u8; 32]) -> u64
    ensures { result ≡ went_with (place_of places.now id.now) }
{
    match places.get(id) {
        Some(Place::Out(count)) => *count,
        _ => 0,
    }
}
