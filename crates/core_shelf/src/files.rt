//! A core's disk in a folder of files. Nothing is told of what they hold: this is the trusted edge.
ghost use Rattle.std.specs.Prelude.{◌≡◌, ◌≤◌, ◌+◌, ◌-◌, ◌^◌, IfOk, min, length};
ghost use Rattle.outside_traits.specs.Faults.{HasCause};
ghost use Rattle.core_shelf.specs.Files.{files_view_of};

use disk_trait::{Area, Disk};
use outside_traits::Failed;
use std::alloc::{AllocError, Global};
use std::fs::{File, OpenOptions};
use std::io;
use std::os::unix::fs::FileExt;
use std::rt::Files;

/// Five open files, one for each area, with a count of the calls and one of those that failed.
#[derive(Drop)]
pub struct FileDisk {
    oplog: File,
    tree: File,
    bits_a: File,
    bits_b: File,
    blocks: File,
    calls: u64,
    faults: u64,
}

impl FileDisk {
    /// The disk in this folder, unless another program has it. A file that isn't there is made, and is empty.
    pub fn open<R: Files<File = File>>(rt: &R, alloc: Global, folder: &str) -> io::Result<FileDisk>
        ensures calls { IfOk result (λ disk. (files_view_of disk).calls ≡ 0) }
        ensures faults { IfOk result (λ disk. (files_view_of disk).faults ≡ 0) }
    {
        let oplog = open_file(rt, alloc, folder, "oplog")?;
        // The lock falls with the file, so also where the program is killed.
        oplog.try_lock()?;
        let tree = open_file(rt, alloc, folder, "tree")?;
        let bits_a = open_file(rt, alloc, folder, "bits-a")?;
        let bits_b = open_file(rt, alloc, folder, "bits-b")?;
        let blocks = open_file(rt, alloc, folder, "blocks")?;
        Ok(FileDisk {
            oplog,
            tree,
            bits_a,
            bits_b,
            blocks,
            calls: 0,
            faults: 0,
        })
    }

    fn of(&self, area: Area) -> &File {
        match area {
            Area::Oplog => &self.oplog,
            Area::Tree => &self.tree,
            Area::BitsA => &self.bits_a,
            Area::BitsB => &self.bits_b,
            Area::Blocks => &self.blocks,
        }
    }

    // Counts a call, and a fault where it failed.
    fn count<T>(&mut self, answer: io::Result<T>) -> Result<T, Failed>
        ensures calls { self.new.calls ≡ min (self.old.calls + 1) (2 ^ 64 - 1) }
        ensures cause { HasCause self.old.faults self.new.faults result }
    {
        self.calls = self.calls.saturating_add(1);
        match answer {
            Ok(value) => Ok(value),
            Err(_) => {
                self.faults = self.faults.saturating_add(1);
                Err(Failed)
            }
        }
    }
}

/// The path of what has this name in a folder.
pub fn path_in(alloc: Global, folder: &str, name: &str) -> Result<String, AllocError> {
    let mut path = String::from_str(alloc, folder)?;
    path.push('/')?;
    path.push_str(name)?;
    Ok(path)
}

/// The file of this name in a folder, to be read and written. It is made where it isn't there.
pub fn open_file<R: Files<File = File>>(
    rt: &R,
    alloc: Global,
    folder: &str,
    name: &str,
) -> io::Result<File> {
    let path = path_in(alloc, folder, name)?;
    OpenOptions::new()
        .read(true)
        .write(true)
        .create(true)
        .open(rt, path)
}

// Reads until the place is full or the file ends.
fn read_full(file: &File, at: u64, into: &mut [u8]) -> io::Result<usize>
    ensures { IfOk result (λ n. n ≤ length into.new) }
{
    let mut end = 0;
    for _ in 0..u64::MAX {
        if end == into.len() {
            return Ok(end);
        }
        match file.read_at(&mut into[end..], at.wrapping_add(end as u64)) {
            Ok(0) => return Ok(end),
            Ok(n) => end += n,
            Err(error) if error.kind() == io::ErrorKind::Interrupted => {}
            Err(error) => return Err(error),
        }
    }
    Ok(end)
}

impl Disk for FileDisk {
    ghost disk = { files_view_of };

    ghost may_stay = { λ disk honest. cc };

    ghost rests = { λ old new honest one. cc };

    fn read(&mut self, area: Area, at: u64, into: &mut [u8]) -> Result<usize, Failed> {
        let answer = read_full(self.of(area), at, into);
        self.count(answer)
    }

    fn write(&mut self, area: Area, at: u64, bytes: &[u8]) -> Result<(), Failed> {
        let answer = self.of(area).write_all_at(bytes, at);
        self.count(answer)
    }

    fn cut(&mut self, area: Area, to: u64) -> Result<(), Failed> {
        let answer = self.of(area).set_len(to);
        self.count(answer)
    }

    fn sync(&mut self, area: Area) -> Result<(), Failed> {
        let answer = self.of(area).sync_data();
        self.count(answer)
    }

    fn size(&mut self, area: Area) -> Result<u64, Failed> {
        let answer = self.of(area).metadata().map(|file| file.len());
        self.count(answer)
    }

    fn faults(&self) -> u64 {
        self.faults
    }
}
