// Cores by name on a shelf in memory, and the adapters over a real folder.
ghost use Rattle.std.specs.Prelude.{◌≡◌, ℕ, List, IsTrue, false};
ghost use Rattle.core_shelf.specs.Named.{IsHome};

use core_disk::DiskCore;
use core_keys::{MacAuth, MacKeys};
use core_shelf::{
    FileDisk, FolderShelf, MemShelf, NamedFault, Shelf, close_named, make_named, open_named,
};
use core_state::OpenCore;
use disk_trait::{Area, Disk, MemDisk, Room};
use node_set::CoreFault;
use outside_traits::Failed;
use std::alloc::Global;
use std::test::Fail;
use std::{env, fs, process};

const ROOM: Room = Room {
    bytes: 8_400,
    journal: 4_096,
};

const KEY: [u8; 32] = [0; 32];

type Kept<D> = DiskCore<D, MacAuth>;

type Done = Result<(), NamedFault>;

// Makes the core of a name, and closes it.
fn make<H: Shelf, X: OpenCore<H::Store, MacAuth>>(alloc: Global, shelf: &mut H, name: &[u8]) -> Done
    requires { (id : List ℕ) → IsHome id (H.shelf shelf.old) }
    ensures { (id : List ℕ) → IsHome id (H.shelf shelf.new) }
{
    let made: Result<X, NamedFault> = make_named(alloc, shelf, &MacKeys, &KEY, name);
    match made {
        Ok(core) => {
            close_named(shelf, &MacKeys, &KEY, name, core);
            Ok(())
        }
        Err(fault) => Err(fault),
    }
}

// Opens the core of a name, and closes it.
fn open<H: Shelf, X: OpenCore<H::Store, MacAuth>>(alloc: Global, shelf: &mut H, name: &[u8]) -> Done
    requires { (id : List ℕ) → IsHome id (H.shelf shelf.old) }
    ensures { (id : List ℕ) → IsHome id (H.shelf shelf.new) }
{
    let opened: Result<X, NamedFault> = open_named(alloc, shelf, &MacKeys, &KEY, name);
    match opened {
        Ok(core) => {
            close_named(shelf, &MacKeys, &KEY, name, core);
            Ok(())
        }
        Err(fault) => Err(fault),
    }
}

// A core is opened, made, made and opened.
fn play<H: Shelf, X: OpenCore<H::Store, MacAuth>>(alloc: Global, shelf: &mut H) -> [Done; 4]
    requires { (id : List ℕ) → IsHome id (H.shelf shelf.old) }
{
    [
        open::<H, X>(alloc, shelf, b"log"),
        make::<H, X>(alloc, shelf, b"log"),
        make::<H, X>(alloc, shelf, b"log"),
        open::<H, X>(alloc, shelf, b"log"),
    ]
}

// The same where the call of this number fails.
fn play_in_memory(alloc: Global, call: u64) -> Result<([Done; 4], u64), Fail> {
    let mut shelf = MemShelf::new(alloc, ROOM);
    shelf.plan_faults(vec![in alloc; call; 1]?);
    let done = play::<MemShelf, Kept<MemDisk>>(alloc, &mut shelf);
    Ok((done, shelf.faults()))
}

// The calls are those that ask for the id, take its disk and mark it: one of the first opening, three of making, one of
// making again, and two of the last opening.
#[test]
fn a_core_of_a_name_and_each_fault_of_its_shelf(rt: HostRuntime) -> Result<(), Fail> {
    let failed = Err(NamedFault::Core(CoreFault::StoreFault));
    let none = Err(NamedFault::NoCore);
    let there = Err(NamedFault::CoreExists);
    for (call, done, faults) in [
        (9, [none, Ok(()), there, Ok(())], 0),
        (0, [failed, Ok(()), there, Ok(())], 1),
        (1, [none, failed, Ok(()), Ok(())], 1),
        (2, [none, failed, Ok(()), Ok(())], 1),
        (3, [none, failed, Ok(()), Ok(())], 1),
        (6, [none, Ok(()), there, failed], 1),
    ] {
        assert!(rt;
            play_in_memory(rt.alloc(), call)? == (done, faults),
            "call {call}"
        );
    }
    Ok(())
}

// A folder of a test's own, below the temporary folder.
fn fresh_folder(rt: &HostRuntime, name: &str) -> Result<String, Fail> {
    let mut folder = String::from_str(rt.alloc(), env::temp_dir(rt)?.as_str())?;
    write!(folder, "/{name}-{}", process::id(rt.process()))?;
    let _ = fs::remove_dir_all(rt, folder.as_str());
    fs::create_dir(rt, folder.as_str())?;
    Ok(folder)
}

// A gap, a cut and a sync, and then a fault.
fn write_some<D: Disk>(disk: &mut D) -> Result<bool, Failed> {
    disk.write(Area::Tree, 2, &[3, 4, 5])?;
    if disk.size(Area::Tree)? >= 5 {
        disk.cut(Area::Tree, 4)?;
    }
    disk.sync(Area::Tree)?;
    Ok(disk.write(Area::BitsA, u64::MAX, &[1]).is_err())
}

// What an area has behind its first byte, and the count of faults.
fn read_some<D: Disk>(disk: &mut D) -> (Result<usize, Failed>, [u8; 6], u64) {
    let mut into = [9; 6];
    let read = disk.read(Area::Tree, 1, &mut into);
    (read, into, disk.faults())
}

// What becomes of some writes to the files of a folder, with the count of faults. The files are closed then.
fn write_files(rt: &HostRuntime, folder: &str) -> Result<(Result<bool, Failed>, u64), Fail> {
    let mut disk = FileDisk::open(rt, rt.alloc(), folder)?;
    let written = write_some(&mut disk);
    Ok((written, disk.faults()))
}

#[test]
fn a_disk_over_real_files(rt: HostRuntime) -> Result<(), Fail> {
    let folder = fresh_folder(&rt, "tests_store_files")?;
    let written = write_files(&rt, folder.as_str())?;
    let mut again = FileDisk::open(&rt, rt.alloc(), folder.as_str())?;
    let read = read_some(&mut again);
    fs::remove_dir_all(&rt, folder.as_str())?;
    assert!(rt; (written, read) == ((Ok(true), 1), (Ok(3), [0, 3, 4, 9, 9, 9], 0)));
    Ok(())
}

// The path of a name of so many equal digits in a folder.
fn name_in(rt: &HostRuntime, root: &str, digit: &str, count: usize) -> Result<String, Fail> {
    let mut name = String::from_str(rt.alloc(), root)?;
    name.push('/')?;
    for _ in 0..count {
        name.push_str(digit)?;
    }
    Ok(name)
}

// What is no core: names in upper case, names that are no id, a core that isn't marked, and a file.
fn add_others(rt: &HostRuntime, root: &str) -> Result<(), Fail> {
    for (digit, count, made) in [("A", 64, true), ("3", 62, true), ("4", 64, false)] {
        let mut folder = name_in(rt, root, digit, count)?;
        fs::create_dir(rt, folder.as_str())?;
        if made {
            folder.push_str("/made")?;
            fs::write(rt, folder, b"".as_slice())?;
        }
    }
    fs::write(rt, name_in(rt, root, "5", 64)?, b"".as_slice())?;
    Ok(())
}

// The first bytes of the two ids on the list, where there are two.
fn listed<H: Shelf>(alloc: Global, shelf: &mut H) -> Option<[u8; 2]> {
    match shelf.list(alloc) {
        Ok(ids) if ids.len() == 2 => Some([ids[0][0], ids[1][0]]),
        _ => None,
    }
}

#[test]
fn a_shelf_over_a_real_folder(rt: HostRuntime) -> Result<(), Fail> {
    let alloc = rt.alloc();
    let folder = fresh_folder(&rt, "tests_store_cores")?;
    let root = name_in(&rt, folder.as_str(), "c", 1)?;
    let mut shelf = FolderShelf::new(rt.clone()?, name_in(&rt, folder.as_str(), "c", 1)?);
    let done = play::<_, Kept<FileDisk>>(alloc, &mut shelf);
    let other = make::<_, Kept<FileDisk>>(alloc, &mut shelf, b"two");
    add_others(&rt, root.as_str())?;
    let ids = listed(alloc, &mut shelf);
    fs::remove_dir_all(&rt, folder.as_str())?;
    let there = Err(NamedFault::CoreExists);
    assert!(rt;
        (done, other, ids, shelf.faults())
            == (
                [Err(NamedFault::NoCore), Ok(()), there, Ok(())],
                Ok(()),
                Some([0x90, 0xf3]),
                0
            )
    );
    Ok(())
}
