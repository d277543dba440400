//! A change file is read.
ghost use Rattle.std.specs.Prelude.{◌≡◌, ◌+◌, ◌-◌, ◌<◌, ◌≤◌, ℕ, List, length, take, drop, ◌↔◌, IsTrue, IfOk, IfErr, IfSome, OnErr};
ghost use Rattle.std.specs.Option.{option_map};
ghost use Rattle.disk_trait.specs.declared.disk.Area.TheVariants.{Oplog};
ghost use Rattle.node_set.specs.declared.fault.CoreFault.TheVariants.{StoreFault};
ghost use Rattle.oplog_form.specs.Entries.{entry_of};
ghost use Rattle.oplog_file.specs.Slots.{in_area};
ghost use Rattle.oplog_file.specs.Writers.{Stands};
ghost use Rattle.oplog_file.specs.Counting.{entries_part, entry_in_front};
ghost use Rattle.oplog_file.specs.Passing.{Consults, Fills, HeadTold, MovesOn, Tells, entry_told, entry_passed};

use crate::file::OplogFile;
use crate::frame::{Front, read_frame, u32_at};
use crate::layout::{ENTRIES_AT, FRAME_HEAD_BYTES, MAX_ENTRIES_BYTES};
use disk_trait::{Area, Disk};
use node_set::CoreFault;
use oplog_form::{Entry, MAX_ENTRY_BYTES, read_entry};

impl OplogFile {
    /// Passes the frame of the entry that counts next, and tells whether there was one. Behind the last it stands still, and
    /// so it does after a fault.
    pub fn next_frame<D: Disk>(&mut self, disk: &mut D) -> Result<bool, CoreFault>
        ensures next { IsTrue (D.disk disk.old).honest
            → IfOk result (MovesOn ((D.disk disk.old).reads Oplog) self.old self.new) }
        ensures err { OnErr result (Stands self.old self.new) }
        ensures store { IfErr result (λ fault. fault ≡ StoreFault) }
        ensures consults { Consults (D.disk disk.old) (D.disk disk.new) result }
    {
        let Some(payload_len) = fetch(disk, self.used, self.epoch, self.count + 1, &mut self.frame)?
        else {
            return Ok(false);
        };
        self.payload_len = payload_len;
        self.last = self.used;
        self.used += FRAME_HEAD_BYTES + payload_len;
        self.count += 1;
        Ok(true)
    }

    /// The entry of the frame that was passed last. Its records stay in the file's room.
    pub fn entry(&self) -> Result<Entry<'_>, CoreFault>
        ensures { Tells result (entry_passed self.now) }
    {
        let payload = &self.frame[FRAME_HEAD_BYTES..FRAME_HEAD_BYTES + self.payload_len];
        read_entry_at(payload, ENTRIES_AT + self.last)
    }
}

// The entry of a payload whose frame begins at a place of the area.
fn read_entry_at(payload: &[u8], at: usize) -> Result<Entry<'_>, CoreFault>
    requires few { length payload.now ≤ MAX_ENTRY_BYTES }
    requires within { at ≤ ENTRIES_AT + MAX_ENTRIES_BYTES }
    ensures { Tells result (in_area at (entry_of payload.now)) }
{
    match read_entry(payload) {
        Ok(entry) => Ok(entry),
        Err(bad) => Err(CoreFault::BadStore {
            area: Area::Oplog,
            at: (at + FRAME_HEAD_BYTES + bad.at) as u64,
        }),
    }
}

// Reads the area from a place on into the whole room, where it has so many bytes there.
fn fill<D: Disk>(disk: &mut D, at: u64, room: &mut [u8]) -> Result<bool, CoreFault>
    ensures consults { Consults (D.disk disk.old) (D.disk disk.new) result }
    ensures store { IfErr result (λ fault. fault ≡ StoreFault) }
    ensures size { length room.new ≡ length room.old }
    ensures fills { IsTrue (D.disk disk.old).honest
        → IfOk result (Fills at ((D.disk disk.old).reads Oplog) room.new) }
{
    match disk.read(Area::Oplog, at, room) {
        Ok(n) => Ok(n == room.len()),
        Err(_) => Err(CoreFault::StoreFault),
    }
}

// Reads the frame behind so many bytes of entries to the front of the room, and gives the bytes of its payload, where it
// counts.
fn fetch<D: Disk>(
    disk: &mut D,
    used: usize,
    epoch: u64,
    number: u32,
    room: &mut [u8],
) -> Result<Option<usize>, CoreFault>
    requires within { used ≤ MAX_ENTRIES_BYTES }
    requires room { length room.old ≡ FRAME_HEAD_BYTES + MAX_ENTRY_BYTES }
    ensures consults { Consults (D.disk disk.old) (D.disk disk.new) result }
    ensures store { IfErr result (λ fault. fault ≡ StoreFault) }
    ensures size { length room.new ≡ length room.old }
    ensures few { IfOk result (λ found. IfSome found (λ count. (0 < count) × (count ≤ MAX_ENTRY_BYTES))) }
    ensures fits { IfOk result (λ found. IfSome found (λ count.
        FRAME_HEAD_BYTES + count ≤ MAX_ENTRIES_BYTES - used)) }
    ensures counts { IsTrue (D.disk disk.old).honest → IfOk result (λ found.
        entry_in_front epoch number (drop used (entries_part ((D.disk disk.old).reads Oplog)))
        ≡ option_map (entry_told epoch number room.new) found) }
{
    let Some(count) = read_head(disk, used, room)? else {
        return Ok(None);
    };
    let end = FRAME_HEAD_BYTES + count;
    let at = (ENTRIES_AT + used + FRAME_HEAD_BYTES) as u64;
    if !fill(disk, at, &mut room[FRAME_HEAD_BYTES..end])? {
        return Ok(None);
    }
    Ok(entry_in(epoch, number, &room[..end]))
}

// Reads the head of the frame behind so many bytes of entries to the front of the room, and gives how many bytes of
// payload it tells of, where they may stand there.
fn read_head<D: Disk>(
    disk: &mut D,
    used: usize,
    room: &mut [u8],
) -> Result<Option<usize>, CoreFault>
    requires within { used ≤ MAX_ENTRIES_BYTES }
    requires room { length room.old ≡ FRAME_HEAD_BYTES + MAX_ENTRY_BYTES }
    ensures consults { Consults (D.disk disk.old) (D.disk disk.new) result }
    ensures store { IfErr result (λ fault. fault ≡ StoreFault) }
    ensures size { length room.new ≡ length room.old }
    ensures few { IfOk result (λ found. IfSome found (λ count. count ≤ MAX_ENTRY_BYTES)) }
    ensures fits { IfOk result (λ found. IfSome found (λ count.
        FRAME_HEAD_BYTES + count ≤ MAX_ENTRIES_BYTES - used)) }
    ensures told { IsTrue (D.disk disk.old).honest
        → IfOk result (HeadTold used ((D.disk disk.old).reads Oplog) room.new) }
{
    if MAX_ENTRIES_BYTES - used < FRAME_HEAD_BYTES {
        return Ok(None);
    }
    if !fill(
        disk,
        (ENTRIES_AT + used) as u64,
        &mut room[..FRAME_HEAD_BYTES],
    )? {
        return Ok(None);
    }
    let count = u32_at(room, 0) as usize;
    if count > MAX_ENTRY_BYTES || count > MAX_ENTRIES_BYTES - used - FRAME_HEAD_BYTES {
        return Ok(None);
    }
    Ok(Some(count))
}

// The bytes of the payload of the entry's frame at the front, where one counts.
fn entry_in(epoch: u64, number: u32, bytes: &[u8]) -> Option<usize>
    ensures counts { entry_in_front epoch number bytes.now
        ≡ option_map (entry_told epoch number bytes.now) result }
    ensures some { IfSome result (λ count. 0 < count) }
    ensures few { IfSome result (λ count. count ≤ MAX_ENTRY_BYTES) }
    ensures within { IfSome result (λ count. FRAME_HEAD_BYTES + count ≤ length bytes.now) }
{
    let Some(front) = read_frame(MAX_ENTRY_BYTES, bytes) else {
        return None;
    };
    if is_entry(front, epoch, number) {
        Some(front.payload_len)
    } else {
        None
    }
}

fn is_entry(front: Front, epoch: u64, number: u32) -> bool
    ensures { IsTrue result ↔ ((front.epoch ≡ epoch) × (front.number ≡ number) × (0 < front.payload_len)) }
{
    front.epoch == epoch && front.number == number && front.payload_len > 0
}
