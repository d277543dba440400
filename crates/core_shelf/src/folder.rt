//! A shelf over a folder, in which each core has a folder of its own, named by its id in lower-case hexadecimal. Nothing
//! is told of what they hold: this is the trusted edge. docs/FORMATS.md, "The folder of a core".
ghost use Rattle.std.specs.Prelude.{◌≡◌, ◌≤◌, ◌↔◌, IsTrue, IsErrOf, IfOk};
ghost use Rattle.outside_traits.specs.Faults.{HasCause, Rose};
ghost use Rattle.core_shelf.specs.Files.{files_view_of, folder_view_of, folder_faults_of};

use crate::fault::ShelfFault;
use crate::files::{FileDisk, open_file, path_in};
use crate::shelf::{IdList, Shelf};
use disk_trait::Disk;
use hex::FromHex;
use outside_traits::Failed;
use std::alloc::{AllocError, Global};
use std::fs::File;
use std::path::Path;
use std::rt::Files;
use std::{fs, io};

/// The cores below one folder, with a count of faults. The folder need not be there: it is made with the first disk.
#[derive(Drop)]
pub struct FolderShelf<R: Files<File = File> + AllocGlobal + Clone + Drop> {
    rt: R,
    root: String,
    faults: u64,
}

impl<R: Files<File = File> + AllocGlobal + Clone + Drop> FolderShelf<R> {
    /// The shelf over this folder, with no fault so far.
    pub fn new(rt: R, root: String) -> FolderShelf<R>
        ensures { folder_faults_of result ≡ 0 }
    {
        FolderShelf {
            rt,
            root,
            faults: 0,
        }
    }

    /// How many calls failed, and how many disks came back with a fault.
    pub fn faults(&self) -> u64
        ensures { result ≡ folder_faults_of self.now }
    {
        self.faults
    }

    // Counts a fault.
    fn fail(&mut self) -> Failed
        ensures rose { Rose self.old.faults self.new.faults }
        ensures kept { self.old.faults ≤ self.new.faults }
    {
        self.faults = self.faults.saturating_add(1);
        Failed
    }

    // Tells why a call wasn't done. Want of memory is no fault of the outside.
    fn tell(&mut self, error: io::Error) -> ShelfFault
        ensures kept { self.old.faults ≤ self.new.faults }
        ensures rose { result ≡ ShelfFault.Failed → Rose self.old.faults self.new.faults }
    {
        if error.kind() == io::ErrorKind::OutOfMemory {
            return ShelfFault::Memory;
        }
        self.fail();
        ShelfFault::Failed
    }
}

// The folder of a core.
fn folder_of(alloc: Global, root: &str, id: &[u8; 32]) -> Result<String, AllocError> {
    let name = hex::encode(alloc, id)?;
    path_in(alloc, root, name.as_str())
}

// The id that a folder of this name is of.
fn id_of(name: &str) -> Option<[u8; 32]> {
    if name.chars().any(|c| c.is_ascii_uppercase()) {
        return None;
    }
    <[u8; 32] as FromHex>::from_hex(name).ok()
}

fn is_folder<R: Files>(rt: &R, path: &str) -> io::Result<bool> {
    match fs::metadata(rt, path) {
        Ok(data) => Ok(data.is_dir()),
        Err(error) if error.kind() == io::ErrorKind::NotFound => Ok(false),
        Err(error) => Err(error),
    }
}

// Whether there is a core in this folder.
fn is_made<R: Files>(rt: &R, alloc: Global, folder: &str) -> io::Result<bool> {
    let made = path_in(alloc, folder, "made")?;
    Ok(is_folder(rt, folder)? && fs::exists(rt, made)?)
}

fn has_core<R: Files>(rt: &R, alloc: Global, root: &str, id: &[u8; 32]) -> io::Result<bool> {
    let folder = folder_of(alloc, root, id)?;
    is_made(rt, alloc, folder.as_str())
}

// The ids of the cores below a folder.
fn ids_in<R: Files + AllocGlobal + Clone + Drop>(
    rt: &R,
    alloc: Global,
    root: &str,
) -> io::Result<IdList> {
    let mut ids = Vec::new(alloc);
    if !fs::exists(rt, root)? {
        return Ok(ids);
    }
    for entry in fs::read_dir(rt, root)? {
        if let Some(id) = core_at(rt, alloc, entry)? {
            ids.push(id)?;
        }
    }
    ids.sort_unstable();
    Ok(ids)
}

// The core that an entry of the folder is. A name that is no text is none's.
fn core_at<R: Files + AllocGlobal + Clone + Drop>(
    rt: &R,
    alloc: Global,
    entry: io::Result<fs::DirEntry<R, Global>>,
) -> io::Result<Option<[u8; 32]>> {
    let entry = match entry {
        Ok(entry) => entry,
        Err(error) if error.kind() == io::ErrorKind::InvalidFilename => return Ok(None),
        Err(error) => return Err(error),
    };
    let Some(id) = id_of(entry.file_name()) else {
        return Ok(None);
    };
    if is_made(rt, alloc, entry.path().as_str())? {
        return Ok(Some(id));
    }
    Ok(None)
}

fn open_disk<R: Files<File = File>>(
    rt: &R,
    alloc: Global,
    root: &str,
    id: &[u8; 32],
) -> io::Result<FileDisk>
    ensures calls { IfOk result (λ disk. (files_view_of disk).calls ≡ 0) }
    ensures faults { IfOk result (λ disk. (files_view_of disk).faults ≡ 0) }
{
    let folder = folder_of(alloc, root, id)?;
    fs::create_dir_all(rt, folder.as_str())?;
    let disk = FileDisk::open(rt, alloc, folder.as_str())?;
    // The program that made the mark may have been killed before the mark was durable.
    if is_made(rt, alloc, folder.as_str())? {
        sync_mark(rt, alloc, folder.as_str())?;
    }
    Ok(disk)
}

// Makes the mark in a folder durable, and makes it where it isn't there.
fn sync_mark<R: Files<File = File>>(rt: &R, alloc: Global, folder: &str) -> io::Result<()> {
    open_file(rt, alloc, folder, "made")?.sync_all()?;
    sync_folder(rt, folder)
}

// Makes the names in a folder durable. No name is the folder that the program runs in.
fn sync_folder<R: Files<File = File>>(rt: &R, folder: &str) -> io::Result<()> {
    let path = if folder.is_empty() { "." } else { folder };
    File::open(rt, path)?.sync_all()
}

// The names of the files are durable before the mark is there, and then the mark.
fn make_mark<R: Files<File = File>>(
    rt: &R,
    alloc: Global,
    root: &str,
    id: &[u8; 32],
) -> io::Result<()> {
    let folder = folder_of(alloc, root, id)?;
    sync_folder(rt, folder.as_str())?;
    sync_folder(rt, root)?;
    if let Some(parent) = Path::new(root).parent() {
        sync_folder(rt, parent.as_str())?;
    }
    sync_mark(rt, alloc, folder.as_str())
}

impl<R: Files<File = File> + AllocGlobal + Clone + Drop> Shelf for FolderShelf<R> {
    type Store = FileDisk;

    ghost shelf = { folder_view_of };

    ghost tells = { λ shelf honest id. cc };

    fn list(&mut self, alloc: Global) -> Result<IdList, ShelfFault> {
        match ids_in(&self.rt, alloc, self.root.as_str()) {
            Ok(ids) => Ok(ids),
            Err(error) => Err(self.tell(error)),
        }
    }

    fn has(&mut self, id: &[u8; 32]) -> Result<bool, Failed> {
        match has_core(&self.rt, self.rt.alloc(), self.root.as_str(), id) {
            Ok(found) => Ok(found),
            Err(_) => Err(self.fail()),
        }
    }

    fn take_disk(&mut self, alloc: Global, id: &[u8; 32]) -> Result<FileDisk, ShelfFault> {
        match open_disk(&self.rt, alloc, self.root.as_str(), id) {
            Ok(disk) => Ok(disk),
            Err(error) => Err(self.tell(error)),
        }
    }

    fn give_disk(&mut self, _id: &[u8; 32], disk: FileDisk) {
        if disk.faults() > 0 {
            self.fail();
        }
    }

    fn mark(&mut self, id: &[u8; 32]) -> Result<(), ShelfFault> {
        match make_mark(&self.rt, self.rt.alloc(), self.root.as_str(), id) {
            Ok(()) => Ok(()),
            Err(error) => Err(self.tell(error)),
        }
    }
}
