//! A core is made on a disk, opened from one, and gives it back.
ghost use Rattle.std.specs.Prelude.{◌≡◌, IfOk, MatchResult};
ghost use Rattle.core_state.specs.Handing.{HandsIn};
ghost use Rattle.core_disk.specs.Rooms.{HasRooms};
ghost use Rattle.core_disk.specs.Cored.{disk_under};
ghost use Rattle.core_disk.specs.Handed.{IsMadeOn, IsMakeFault, IsOpenedOn, IsNotOpened};

use crate::disk_core::DiskCore;
use crate::parts::{make_parts, open_parts};
use crate::store::Store;
use core_state::OpenCore;
use disk_trait::Disk;
use flat_tree::MAX_BATCH_BLOCKS;
use merkle_batch::Batch;
use merkle_nodes::Node;
use node_set::CoreFault;
use oplog_form::{MAX_ENTRY_BYTES, MAX_ENTRY_NODES};
use outside_traits::{Memory, Signer};
use std::alloc::Global;

// Room for the changes of a core.
#[derive(Drop)]
struct Room {
    batch: Batch,
    records: Vec<Node>,
    scratch: Vec<u8>,
}

// Takes the room that a core keeps for its changes.
fn take_room(alloc: Global) -> Result<Room, Memory>
    ensures { IfOk result (λ room. HasRooms room.batch room.records room.scratch) }
{
    let batch = match Batch::new(alloc, MAX_BATCH_BLOCKS) {
        Ok(batch) => batch,
        Err(Memory) => return Err(Memory),
    };
    let Ok(records) = Vec::with_capacity(alloc, MAX_ENTRY_NODES) else {
        return Err(Memory);
    };
    let Ok(scratch) = vec![in alloc; 0; MAX_ENTRY_BYTES] else {
        return Err(Memory);
    };
    Ok(Room {
        batch,
        records,
        scratch,
    })
}

impl<D: Disk, A: Signer + Drop> DiskCore<D, A> {
    /// Makes the core of an id without blocks, whatever the disk holds, which is written over. `Memory`, `StoreFault`; the
    /// disk comes back with a fault.
    pub fn make_new(
        alloc: Global,
        mut disk: D,
        id: &[u8; 32],
        auth: A,
    ) -> Result<DiskCore<D, A>, (CoreFault, D)>
        ensures made { MatchResult result
            (IsMadeOn D.disk A.accepts (A.accepts auth) id.now (D.disk disk))
            (λ back. IsMakeFault back.0) }
        ensures disk { HandsIn D.disk (disk_under D.disk) (D.disk disk) result }
    {
        let Ok(room) = take_room(alloc) else {
            return Err((CoreFault::Memory, disk));
        };
        match make_parts(alloc, &mut disk, id) {
            Ok((file, state)) => Ok(DiskCore {
                store: Store::over(disk, state),
                file,
                auth,
                broken: None,
                batch: room.batch,
                records: room.records,
                scratch: room.scratch,
            }),
            Err(fault) => Err((fault, disk)),
        }
    }

    /// Opens the core of an id. `BadStore`, `Damaged` and `BadSignature` where the disk doesn't stand for one, `Memory`,
    /// `StoreFault`; the disk comes back with a fault.
    pub fn open_store(
        alloc: Global,
        mut disk: D,
        id: &[u8; 32],
        auth: A,
    ) -> Result<DiskCore<D, A>, (CoreFault, D)>
        ensures opened { MatchResult result
            (IsOpenedOn D.disk A.accepts (A.accepts auth) id.now (D.disk disk))
            (λ back. IsNotOpened (A.accepts auth) id.now (D.disk disk) back.0 (D.disk back.1)) }
        ensures disk { HandsIn D.disk (disk_under D.disk) (D.disk disk) result }
    {
        let Ok(room) = take_room(alloc) else {
            return Err((CoreFault::Memory, disk));
        };
        match open_parts(alloc, &mut disk, id, &auth) {
            Ok((file, state)) => Ok(DiskCore {
                store: Store::over(disk, state),
                file,
                auth,
                broken: None,
                batch: room.batch,
                records: room.records,
                scratch: room.scratch,
            }),
            Err(fault) => Err((fault, disk)),
        }
    }

    /// The disk as it is.
    pub fn into_disk(self) -> D
        ensures { result ≡ self.store.disk }
    {
        let DiskCore { store, .. } = self;
        let Store { disk, .. } = store;
        disk
    }
}

impl<D: Disk + Drop, A: Signer + Drop> OpenCore<D, A> for DiskCore<D, A> {
    ghost disk_of = { disk_under D.disk };

    ghost IsMade = { IsMadeOn D.disk A.accepts };

    ghost MakeFails = { λ accepts id old fault new. IsMakeFault fault };

    ghost IsOpened = { IsOpenedOn D.disk A.accepts };

    ghost OpenFails = { IsNotOpened };

    fn make_new(
        alloc: Global,
        disk: D,
        id: &[u8; 32],
        auth: A,
    ) -> Result<DiskCore<D, A>, (CoreFault, D)> {
        DiskCore::make_new(alloc, disk, id, auth)
    }

    fn open_store(
        alloc: Global,
        disk: D,
        id: &[u8; 32],
        auth: A,
    ) -> Result<DiskCore<D, A>, (CoreFault, D)> {
        DiskCore::open_store(alloc, disk, id, auth)
    }

    fn into_disk(self) -> D {
        self.into_disk()
    }
}
