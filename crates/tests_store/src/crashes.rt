// What a crash leaves of a disk in memory.
use disk_trait::{Area, Disk, MemDisk, Room};
use outside_traits::Failed;
use std::alloc::Global;
use std::test::Fail;

const ROOM: Room = Room {
    bytes: 16,
    journal: 1024,
};

// Seven calls: 0, 2 and 3 write, 5 cuts, 1 and 6 sync, and 4 is the size.
fn write_all<D: Disk>(disk: &mut D) -> Result<(), Failed> {
    disk.write(Area::Oplog, 0, &[1, 2, 3, 4])?;
    disk.sync(Area::Oplog)?;
    disk.write(Area::Oplog, 2, &[7, 8, 9])?;
    disk.write(Area::Tree, 1, &[5])?;
    if disk.size(Area::Oplog)? >= 1 {
        disk.cut(Area::Oplog, 1)?;
    }
    disk.sync(Area::Oplog)
}

// The bytes of an area as the digits of a number behind a 9.
fn digits<D: Disk>(disk: &mut D, area: Area) -> u64 {
    let mut into = [0; 8];
    let count = disk.read(area, 0, &mut into).unwrap_or(0);
    let mut number: u64 = 9;
    for byte in into.iter().take(count) {
        number = number.wrapping_mul(10).wrapping_add(*byte as u64);
    }
    number
}

// Two areas that a crash at this moment leaves where so many bytes are kept.
fn left_by(alloc: Global, disk: &MemDisk, moment: u64, keep: u64) -> (u64, u64) {
    if moment > disk.calls() {
        return (0, 0);
    }
    match disk.crash(alloc, moment, keep) {
        Ok(mut left) => (
            digits(&mut left, Area::Oplog),
            digits(&mut left, Area::Tree),
        ),
        Err(_) => (0, 0),
    }
}

fn crashes(alloc: Global) -> Result<[(u64, u64); 7], Fail> {
    let mut disk = MemDisk::new(alloc, &ROOM)?;
    write_all(&mut disk)?;
    Ok([
        left_by(alloc, &disk, 1, 2),
        left_by(alloc, &disk, 2, 0),
        left_by(alloc, &disk, 4, 2),
        left_by(alloc, &disk, 4, 4),
        left_by(alloc, &disk, 6, 4),
        left_by(alloc, &disk, 6, 5),
        left_by(alloc, &disk, 7, 0),
    ])
}

// Of the bytes that aren't synced the first ones are kept, in the order of writing, and a cut counts for one.
#[test]
fn a_crash_keeps_the_first_unsynced_bytes(rt: HostRuntime) -> Result<(), Fail> {
    let left = crashes(rt.alloc())?;
    assert!(rt;
        left == [
            (912, 9),
            (91234, 9),
            (91278, 9),
            (912789, 905),
            (912789, 905),
            (91, 905),
            (91, 9),
        ]
    );
    Ok(())
}
