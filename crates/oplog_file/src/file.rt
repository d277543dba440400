//! A change file in hand.
ghost use Rattle.std.specs.Prelude.{◌≡◌, ◌+◌, ◌*◌, ℕ, IfOk, IfErr, length};
ghost use Rattle.node_set.specs.declared.fault.CoreFault.TheVariants.{Memory};
ghost use Rattle.oplog_file.specs.Slots.{slot_of};
ghost use Rattle.oplog_file.specs.Writers.{Place, IsInFront};

use crate::layout::{ENTRIES_AT, FRAME_HEAD_BYTES, SLOT_BYTES};
use node_set::CoreFault;
use oplog_form::MAX_ENTRY_BYTES;
use std::alloc::Global;
use std::marker::Model;

/// Where a change file is read or written next, which contracts see as a place, and the room for one entry's frame.
#[derive(Drop)]
pub struct OplogFile {
    /// The epoch of the header that counts.
    pub(crate) epoch: u64,
    /// How many entries were passed.
    pub(crate) count: u32,
    /// The bytes of their frames.
    pub(crate) used: usize,
    /// Where the frame that was passed last begins behind the slots.
    pub(crate) last: usize,
    /// That frame, at the front of the room.
    pub(crate) frame: Vec<u8>,
    /// The bytes of its payload.
    pub(crate) payload_len: usize,
}

impl Model for OplogFile {
    ghost use Rattle.std.specs.Prelude.{take, drop};
    ghost use Rattle.oplog_file.specs.declared.layout.TheConstants.{FRAME_HEAD_BYTES as HEAD};
    ghost use Rattle.oplog_file.specs.Held.{IsHeld};
    ghost use Rattle.oplog_file.specs.Writers.{Place};

    ghost Value = { Place };

    ghost view = { λ file. record {
      epoch = file.epoch;
      count = file.count;
      used = file.used;
      last = file.last;
      payload = take file.payload_len (drop HEAD file.frame.items);
    } };

    ghost invariant = { λ file.
        IsHeld file.count file.used file.last file.payload_len file.frame.items };
}

impl OplogFile {
    /// It stands in front of the first entry under an epoch.
    pub(crate) fn in_front(alloc: Global, epoch: u64) -> Result<OplogFile, CoreFault>
        ensures { IfOk result (λ file. IsInFront file epoch) }
    {
        let frame = room(alloc, FRAME_HEAD_BYTES + MAX_ENTRY_BYTES)?;
        Ok(OplogFile::over(frame, epoch))
    }

    /// The same, over a room that was taken before.
    pub(crate) fn over(frame: Vec<u8>, epoch: u64) -> OplogFile
        requires { length frame.items ≡ FRAME_HEAD_BYTES + MAX_ENTRY_BYTES }
        ensures { IsInFront result epoch }
    {
        OplogFile {
            epoch,
            count: 0,
            used: 0,
            last: 0,
            frame,
            payload_len: 0,
        }
    }

    /// The epoch of the header that counts.
    pub fn epoch(&self) -> u64
        ensures { result ≡ self.now.epoch }
    {
        self.epoch
    }

    /// Where the slot of that header begins in the area.
    pub fn slot_at(&self) -> u64
        ensures { result ≡ SLOT_BYTES * slot_of self.now.epoch }
    {
        SLOT_BYTES as u64 * (self.epoch % 2)
    }

    /// Where the frame that was passed last begins in the area.
    pub fn last_at(&self) -> u64
        ensures { result ≡ ENTRIES_AT + self.now.last }
    {
        (ENTRIES_AT + self.last) as u64
    }
}

/// So many bytes, to be written over.
pub(crate) fn room(alloc: Global, bytes: usize) -> Result<Vec<u8>, CoreFault>
    ensures ok { IfOk result (λ frame. length frame.items ≡ bytes) }
    ensures memory { IfErr result (λ fault. fault ≡ Memory) }
{
    match vec![in alloc; 0; bytes] {
        Ok(frame) => Ok(frame),
        Err(_) => Err(CoreFault::Memory),
    }
}
