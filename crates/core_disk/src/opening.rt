//! A core's disk is opened: what its change file gives.
ghost use Rattle.std.specs.Prelude.{◌≡◌, ◌+◌, ◌*◌, ℕ, IsTrue, OnOk};
ghost use Rattle.disk_trait.specs.declared.disk.Area.TheVariants.{Oplog};
ghost use Rattle.node_set.specs.declared.fault.CoreFault.TheVariants.{BadStore};
ghost use Rattle.oplog_file.specs.Files.{File, IsFile};
ghost use Rattle.oplog_file.specs.Writers.{IsInFront, IsBehind};
ghost use Rattle.oplog_file.specs.Passing.{Consults};
ghost use Rattle.oplog_file.specs.Slots.{slot_of};
ghost use Rattle.oplog_form.specs.Headers.{HeaderFits};
ghost use Rattle.core_disk.specs.InHand.{opened_of};
ghost use Rattle.core_disk.specs.Starting.{Starts};
ghost use Rattle.core_disk.specs.Replaying.{AppliesPassed, AppliesNext, ReplaysNext, Replays};

use crate::copies::read_copy;
use crate::layout::ID_AT;
use crate::replay::{ApplyFault, DiskState};
use disk_trait::{Area, Disk};
use node_set::CoreFault;
use oplog_file::{FRAME_HEAD_BYTES, MAX_ENTRIES_BYTES, OplogFile, SLOT_BYTES};
use oplog_form::Header;
use std::alloc::Global;

/// What a header of an epoch gives with the epoch's copy of the held blocks. No node of the tree area is read.
pub(crate) fn start_state<D: Disk>(
    alloc: Global,
    disk: &mut D,
    id: &[u8; 32],
    epoch: u64,
    header: &Header,
) -> Result<DiskState, CoreFault>
    requires fits { HeaderFits header.now }
    ensures starts { IsTrue (D.disk disk.old).honest
        → Starts id.now epoch header.now (D.disk disk.old).reads result }
    ensures consults { Consults (D.disk disk.old) (D.disk disk.new) result }
{
    if header.id != *id {
        return Err(bad_at(id_at(epoch)));
    }
    match read_copy(alloc, disk, epoch, header.head.length, header.bits) {
        Ok(held) => Ok(DiskState::new(alloc, header, held)),
        Err(fault) => Err(fault),
    }
}

// Where the id stands in the header of an epoch.
fn id_at(epoch: u64) -> u64
    ensures { result ≡ SLOT_BYTES * slot_of epoch + FRAME_HEAD_BYTES + ID_AT }
{
    SLOT_BYTES as u64 * (epoch % 2) + (FRAME_HEAD_BYTES + ID_AT) as u64
}

/// Does what each entry of a change file does, from the first to the last.
pub(crate) fn replay_all<D: Disk>(
    alloc: Global,
    disk: &mut D,
    file: &mut OplogFile,
    state: &mut DiskState,
) -> Result<(), CoreFault>
    requires front { IsInFront file.old file.old.epoch }
    ensures replays { IsTrue (D.disk disk.old).honest
        → Replays ((D.disk disk.old).reads Oplog) file.old.epoch
        (opened_of state.old) (opened_of state.new) result }
    ensures behind { (whole : File) → IsTrue (D.disk disk.old).honest
        → IsFile ((D.disk disk.old).reads Oplog) whole → file.old.epoch ≡ whole.header.epoch
        → OnOk result (IsBehind file.new whole) }
    ensures consults { Consults (D.disk disk.old) (D.disk disk.new) result }
{
    for _ in 0..MAX_ENTRIES_BYTES + 1 {
        match replay_next(alloc, disk, file, state) {
            Ok(true) => {}
            Ok(false) => return Ok(()),
            Err(fault) => return Err(fault),
        }
    }
    // an honest disk has no more entries than bytes for them
    Err(bad_at(file.last_at()))
}

// Does what the entry that counts next does, and tells whether there was one.
fn replay_next<D: Disk>(
    alloc: Global,
    disk: &mut D,
    file: &mut OplogFile,
    state: &mut DiskState,
) -> Result<bool, CoreFault>
    ensures next { IsTrue (D.disk disk.old).honest
        → ReplaysNext ((D.disk disk.old).reads Oplog) file.old file.new
        (opened_of state.old) (opened_of state.new) result }
    ensures consults { Consults (D.disk disk.old) (D.disk disk.new) result }
{
    match file.next_frame(disk) {
        Ok(true) => apply_next(alloc, file, state),
        Ok(false) => Ok(false),
        Err(fault) => Err(fault),
    }
}

// The same once its frame was passed.
fn apply_next(alloc: Global, file: &OplogFile, state: &mut DiskState) -> Result<bool, CoreFault>
    ensures { AppliesNext file.now (opened_of state.old) (opened_of state.new) result }
{
    match apply_passed(alloc, file, state) {
        Ok(()) => Ok(true),
        Err(fault) => Err(fault),
    }
}

// Does what the entry that was passed last does.
fn apply_passed(alloc: Global, file: &OplogFile, state: &mut DiskState) -> Result<(), CoreFault>
    ensures { AppliesPassed file.now (opened_of state.old) (opened_of state.new) result }
{
    let entry = match file.entry() {
        Ok(entry) => entry,
        Err(fault) => return Err(fault),
    };
    match state.apply(alloc, &entry) {
        Ok(()) => Ok(()),
        Err(ApplyFault::Memory) => Err(CoreFault::Memory),
        Err(ApplyFault::DoesntFollow) => Err(bad_at(file.last_at())),
    }
}

// A bad place of the change file.
fn bad_at(at: u64) -> CoreFault
    ensures { result ≡ BadStore Oplog at }
{
    CoreFault::BadStore {
        area: Area::Oplog,
        at,
    }
}
