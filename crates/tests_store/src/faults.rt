// A device that fails under a core, and what opening gives then.
ghost use Rattle.std.specs.Prelude.{◌≤◌};
ghost use Rattle.flat_tree.specs.declared.limits.TheConstants.{MAX_BLOCK_BYTES};

use crate::cores::{Log, append, block_of, made, opened};
use core_state::{Core, OpenCore};
use disk_trait::{Disk, FuseDisk, MemDisk, Room};
use flat_tree::MAX_BLOCK_BYTES;
use node_set::CoreFault;
use outside_traits::PlainAuth;
use std::alloc::Global;
use std::test::Fail;

const ROOM: Room = Room {
    bytes: 9_000,
    journal: 8_192,
};

// Some of the bytes that an append of a block writes before a sync, and more than all of them.
const HALF: u64 = 30;

const ALL: u64 = 1_000;

// A disk with a log of one block.
fn one_block<D: Disk + Drop, C: Core + OpenCore<D, PlainAuth> + Drop>(
    alloc: Global,
    disk: D,
) -> Result<D, CoreFault> {
    let mut core: C = made(alloc, disk)?;
    append(&mut core, alloc, b"a")?;
    Ok(core.into_disk())
}

// Such a disk that was opened since, and how many calls that took.
fn opened_once<C: Core + OpenCore<MemDisk, PlainAuth> + Drop>(
    alloc: Global,
) -> Result<(MemDisk, u64), CoreFault> {
    let Ok(disk) = MemDisk::new(alloc, &ROOM) else {
        return Err(CoreFault::Memory);
    };
    let disk = one_block::<MemDisk, C>(alloc, disk)?;
    let before = disk.calls();
    let core: C = opened(alloc, disk)?;
    let disk = core.into_disk();
    let calls = disk.calls().saturating_sub(before);
    Ok((disk, calls))
}

// Two appends: what each answers, and then the length in memory and the count of faults.
type Appends = (Result<u64, CoreFault>, Result<u64, CoreFault>, u64, u64);

fn append_twice<C: Core>(core: &mut C, alloc: Global) -> Appends {
    let first = append(core, alloc, b"b");
    let second = append(core, alloc, b"c");
    (first, second, core.info().length, core.faults())
}

// Opens the core and appends to it twice over a device that fails from a call on.
fn over_fuse<D: Disk + Drop, F: Core + OpenCore<FuseDisk<D>, PlainAuth> + Drop>(
    alloc: Global,
    disk: D,
    passes: u64,
) -> Result<(Appends, D), CoreFault> {
    let mut core: F = opened(alloc, FuseDisk::new(disk, passes))?;
    let appends = append_twice(&mut core, alloc);
    Ok((appends, core.into_disk().inner()))
}

// The length of the log that is opened once a crash keeps so many of the unsynced bytes.
fn length_after_crash<C: Core + OpenCore<MemDisk, PlainAuth> + Drop>(
    alloc: Global,
    disk: &MemDisk,
    keep: u64,
) -> Result<u64, CoreFault> {
    let Ok(left) = disk.crash(alloc, disk.calls(), keep) else {
        return Err(CoreFault::Memory);
    };
    let core: C = opened(alloc, left)?;
    Ok(core.info().length)
}

// What is told of appends, and the lengths after a crash that keeps none, some and all of the unsynced bytes.
type Told = (Appends, [Result<u64, CoreFault>; 3]);

// The device passes opening and so many calls more.
fn tried<
    C: Core + OpenCore<MemDisk, PlainAuth> + Drop,
    F: Core + OpenCore<FuseDisk<MemDisk>, PlainAuth> + Drop,
>(alloc: Global, more: u64) -> Result<Told, CoreFault> {
    let (disk, calls) = opened_once::<C>(alloc)?;
    let (appends, disk) = over_fuse::<MemDisk, F>(alloc, disk, calls.saturating_add(more))?;
    let lengths = [
        length_after_crash::<C>(alloc, &disk, 0),
        length_after_crash::<C>(alloc, &disk, HALF),
        length_after_crash::<C>(alloc, &disk, ALL),
    ];
    Ok((appends, lengths))
}

// The calls are a write and a sync of the block, and then of the entry.
#[test]
fn a_device_fails_from_each_call_of_an_append_on(rt: HostRuntime) {
    let failed = Err(CoreFault::StoreFault);
    let broken = Err(CoreFault::Broken { count: 1 });
    for (more, appends, lengths) in [
        (0, (failed, broken, 1, 1), [Ok(1), Ok(1), Ok(1)]),
        (1, (failed, broken, 1, 1), [Ok(1), Ok(1), Ok(1)]),
        (2, (failed, broken, 1, 1), [Ok(1), Ok(1), Ok(1)]),
        (3, (failed, broken, 1, 1), [Ok(1), Ok(1), Ok(2)]),
        (4, (Ok(2), failed, 2, 1), [Ok(2), Ok(2), Ok(2)]),
    ] {
        let told = tried::<Log<MemDisk>, Log<FuseDisk<MemDisk>>>(rt.alloc(), more);
        assert!(rt; told == Ok((appends, lengths)), "{more} calls more");
    }
}

// Two reads of the first block: its byte, and the number of its siblings.
type Reads = [Result<(u8, usize), CoreFault>; 2];

fn read_twice<C: Core>(core: &mut C, alloc: Global, room: u64) -> Reads
    requires room { MAX_BLOCK_BYTES ≤ room }
{
    [
        block_of(core, alloc, 0, room),
        block_of(core, alloc, 0, room),
    ]
}

// Only the first call after opening fails.
fn read_once_failed<C: Core + OpenCore<MemDisk, PlainAuth> + Drop>(
    alloc: Global,
) -> Result<Reads, CoreFault> {
    let (mut disk, calls) = opened_once::<C>(alloc)?;
    let call = disk.calls().saturating_add(calls);
    let Ok(planned) = vec![in alloc; call; 1] else {
        return Err(CoreFault::Memory);
    };
    disk.plan_faults(planned);
    let mut core: C = opened(alloc, disk)?;
    Ok(read_twice(&mut core, alloc, MAX_BLOCK_BYTES))
}

#[test]
fn a_read_that_failed_is_made_again(rt: HostRuntime) {
    let reads = read_once_failed::<Log<MemDisk>>(rt.alloc());
    assert!(rt; reads == Ok([Err(CoreFault::StoreFault), Ok((b'a', 0))]));
}
