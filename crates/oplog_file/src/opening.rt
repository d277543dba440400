//! A change file is opened.
ghost use Rattle.std.specs.Prelude.{◌≡◌, ◌⊎◌, ◌↔◌, ◌+◌, ◌*◌, ◌≤◌, ℕ, List, length, take, drop, IsTrue, IfOk, IfErr, IfSome, IsErrOf};
ghost use Rattle.std.specs.Option.{option_map};
ghost use Rattle.disk_trait.specs.declared.disk.Area.TheVariants.{Oplog};
ghost use Rattle.node_set.specs.declared.fault.CoreFault.TheVariants.{StoreFault};
ghost use Rattle.oplog_file.specs.Slots.{slot_of, header_in_slot, later_of, header_frame, is_after};
ghost use Rattle.oplog_file.specs.Passing.{Consults};
ghost use Rattle.oplog_file.specs.Opening.{header_payload_at, header_told, TellsHeader, Opens};
ghost use Rattle.oplog_file.specs.Writers.{IsInFront};
ghost use Rattle.oplog_form.specs.Headers.{HeaderFits};

use crate::file::{OplogFile, room};
use crate::frame::{Front, read_frame};
use crate::layout::{ENTRIES_AT, FRAME_HEAD_BYTES, LAST_EPOCH, SLOT_BYTES};
use disk_trait::{Area, Disk};
use node_set::CoreFault;
use oplog_form::{Header, MAX_ENTRY_BYTES, MAX_HEADER_BYTES, read_header};
use std::alloc::Global;

/// Opens a change file in front of its first entry, and gives the header that counts.
pub fn open_at<D: Disk>(alloc: Global, disk: &mut D) -> Result<(OplogFile, Header), CoreFault>
    ensures front { IfOk result (λ opened. IsInFront opened.0 opened.0.epoch) }
    ensures fits { IfOk result (λ opened. HeaderFits opened.1) }
    ensures opens { IsTrue (D.disk disk.old).honest → Opens ((D.disk disk.old).reads Oplog) result }
    ensures consults { Consults (D.disk disk.old) (D.disk disk.new) result }
{
    let frame = room(alloc, FRAME_HEAD_BYTES + MAX_ENTRY_BYTES)?;
    open_over(disk, frame)
}

// The same, over a room that was taken before.
fn open_over<D: Disk>(disk: &mut D, mut frame: Vec<u8>) -> Result<(OplogFile, Header), CoreFault>
    requires { length frame.items ≡ FRAME_HEAD_BYTES + MAX_ENTRY_BYTES }
    ensures front { IfOk result (λ opened. IsInFront opened.0 opened.0.epoch) }
    ensures fits { IfOk result (λ opened. HeaderFits opened.1) }
    ensures opens { IsTrue (D.disk disk.old).honest → Opens ((D.disk disk.old).reads Oplog) result }
    ensures consults { Consults (D.disk disk.old) (D.disk disk.new) result }
{
    let (epoch, header) = find_header(disk, &mut frame)?;
    Ok((OplogFile::over(frame, epoch), header))
}

// Reads both slots to the front of the room, and finds the header that counts.
fn find_header<D: Disk>(disk: &mut D, room: &mut [u8]) -> Result<(u64, Header), CoreFault>
    requires room { ENTRIES_AT ≤ length room.old }
    ensures fits { IfOk result (λ found. HeaderFits found.1) }
    ensures header { IsTrue (D.disk disk.old).honest
        → TellsHeader ((D.disk disk.old).reads Oplog) result }
    ensures size { length room.new ≡ length room.old }
    ensures consults { Consults (D.disk disk.old) (D.disk disk.new) result }
{
    let n = read_front(disk, &mut room[..ENTRIES_AT])?;
    read_latest(&room[..n])
}

// Reads the front of the area, as far as it is there.
fn read_front<D: Disk>(disk: &mut D, room: &mut [u8]) -> Result<usize, CoreFault>
    ensures front { IsTrue (D.disk disk.old).honest → IfOk result (λ n.
        take n room.new ≡ take (length room.old) ((D.disk disk.old).reads Oplog)) }
    ensures within { IfOk result (λ n. n ≤ length room.old) }
    ensures size { length room.new ≡ length room.old }
    ensures store { IfErr result (λ fault. fault ≡ StoreFault) }
    ensures consults { Consults (D.disk disk.old) (D.disk disk.new) result }
{
    match disk.read(Area::Oplog, 0, room) {
        Ok(n) => Ok(n.min(room.len())),
        Err(_) => Err(CoreFault::StoreFault),
    }
}

// The header that counts and its epoch, by the bytes of both slots.
fn read_latest(slots: &[u8]) -> Result<(u64, Header), CoreFault>
    requires { length slots.now ≤ ENTRIES_AT }
    ensures fits { IfOk result (λ found. HeaderFits found.1) }
    ensures header { TellsHeader slots.now result }
    ensures no_fault { IsErrOf result StoreFault → ⊥ }
{
    let Some(front) = latest(slots) else {
        return Err(CoreFault::BadStore {
            area: Area::Oplog,
            at: 0,
        });
    };
    let at = payload_at(front.epoch);
    match read_header(&slots[at..at + front.payload_len]) {
        Ok(header) => Ok((front.epoch, header)),
        Err(bad) => Err(CoreFault::BadStore {
            area: Area::Oplog,
            at: (at + bad.at) as u64,
        }),
    }
}

fn payload_at(epoch: u64) -> usize
    ensures { result ≡ header_payload_at epoch }
{
    SLOT_BYTES * (epoch % 2) as usize + FRAME_HEAD_BYTES
}

// What the head of the header that counts tells.
fn latest(slots: &[u8]) -> Option<Front>
    ensures told { header_frame slots.now ≡ option_map (header_told slots.now) result }
    ensures within { IfSome result (λ front.
        header_payload_at front.epoch + front.payload_len ≤ length slots.now) }
{
    later(header_in(0, slots), header_in(1, slots))
}

// The later of two that may be there.
fn later(one: Option<Front>, other: Option<Front>) -> Option<Front>
    ensures told { (area : List ℕ)
        → later_of (option_map (header_told area) one) (option_map (header_told area) other)
        ≡ option_map (header_told area) result }
    ensures among { (result ≡ one) ⊎ (result ≡ other) }
{
    let Some(first) = one else {
        return other;
    };
    let Some(second) = other else {
        return one;
    };
    if comes_after(first.epoch, second.epoch) {
        one
    } else {
        other
    }
}

fn comes_after(one: u64, other: u64) -> bool
    ensures { result ≡ is_after one other }
{
    if one == 0 && other == LAST_EPOCH {
        true
    } else if one == LAST_EPOCH && other == 0 {
        false
    } else {
        one > other
    }
}

// What the head of the header in a slot tells, where one passes.
fn header_in(slot: usize, slots: &[u8]) -> Option<Front>
    requires { slot ≤ 1 }
    ensures told { header_in_slot slot slots.now ≡ option_map (header_told slots.now) result }
    ensures within { IfSome result (λ front.
        header_payload_at front.epoch + front.payload_len ≤ length slots.now) }
{
    let Some(front) = read_frame(MAX_HEADER_BYTES, slot_bytes(slots, SLOT_BYTES * slot)) else {
        return None;
    };
    if is_header(front, slot as u64) {
        Some(front)
    } else {
        None
    }
}

fn is_header(front: Front, slot: u64) -> bool
    ensures { IsTrue result ↔ ((front.number ≡ 0) × (slot_of front.epoch ≡ slot)) }
{
    front.number == 0 && front.epoch % 2 == slot
}

// The bytes of a slot, as far as they are there.
fn slot_bytes(slots: &[u8], at: usize) -> &[u8]
    ensures { result.now ≡ take SLOT_BYTES (drop at slots.now) }
{
    let rest = &slots[at.min(slots.len())..];
    &rest[..rest.len().min(SLOT_BYTES)]
}
