// Cores on disks, for the tests of several modules.
ghost use Rattle.std.specs.Prelude.{◌≤◌};
ghost use Rattle.flat_tree.specs.declared.limits.TheConstants.{MAX_BLOCK_BYTES};

use core_disk::DiskCore;
use core_state::{Core, OpenCore};
use disk_trait::Disk;
use node_set::CoreFault;
use outside_traits::{Blob, Blobs, PlainAuth};
use std::alloc::Global;

pub(crate) type Log<D> = DiskCore<D, PlainAuth>;

pub(crate) const ID: [u8; 32] = [7; 32];

pub(crate) const AUTH: PlainAuth = PlainAuth { mark: 1 };

pub(crate) fn made<D: Disk + Drop, C: OpenCore<D, PlainAuth>>(
    alloc: Global,
    disk: D,
) -> Result<C, CoreFault> {
    match C::make_new(alloc, disk, &ID, AUTH) {
        Ok(core) => Ok(core),
        Err((fault, _)) => Err(fault),
    }
}

pub(crate) fn opened<D: Disk + Drop, C: OpenCore<D, PlainAuth>>(
    alloc: Global,
    disk: D,
) -> Result<C, CoreFault> {
    match C::open_store(alloc, disk, &ID, AUTH) {
        Ok(core) => Ok(core),
        Err((fault, _)) => Err(fault),
    }
}

// A block of each byte.
fn blocks_of(alloc: Global, bytes: &[u8]) -> Result<Blobs, CoreFault> {
    let mut blocks = Blobs::new();
    for byte in bytes {
        if blocks.push(alloc, &[*byte]).is_err() {
            return Err(CoreFault::Memory);
        }
    }
    Ok(blocks)
}

/// Appends a block of each byte, and gives the length.
pub(crate) fn append<C: Core>(core: &mut C, alloc: Global, bytes: &[u8]) -> Result<u64, CoreFault> {
    let blocks = blocks_of(alloc, bytes)?;
    match core.append(alloc, &blocks) {
        Ok(receipt) => Ok(receipt.length),
        Err(fault) => Err(fault),
    }
}

/// The length, the number of held blocks and the fork.
pub(crate) fn brief<C: Core>(core: &C) -> (u64, u64, u64) {
    let info = core.info();
    (info.length, info.held, info.fork)
}

/// The first byte of a block, and the number of its siblings.
pub(crate) fn block_of<C: Core>(
    core: &mut C,
    alloc: Global,
    index: u64,
    room: u64,
) -> Result<(u8, usize), CoreFault>
    requires room { MAX_BLOCK_BYTES ≤ room }
{
    let Ok(mut place) = Blob::zeros(alloc, room as usize) else {
        return Err(CoreFault::Memory);
    };
    let read = core.get(index, place.bytes_mut())?;
    Ok((place.bytes()[0], read.trail.len()))
}
