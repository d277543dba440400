//! Commits of one block each to a core on files.

use crate::times::since;
use core_disk::DiskCore;
use core_keys::{MacAuth, MacKeys};
use core_shelf::{FileDisk, FolderShelf, NamedFault, close_named, make_named};
use outside_traits::{Blob, Blobs, Memory};
use std::alloc::Global;
use std::io;
use std::time::Instant;

// The primary key of the core that is made.
const KEY: [u8; 32] = [0; 32];

type Kept = DiskCore<FileDisk, MacAuth>;

/// Makes a core below a folder, appends so many blocks of so many bytes to it one by one, and gives the nanoseconds of
/// the appends.
pub(crate) fn commit_all(rt: &HostRuntime, root: String, count: u64, size: u64) -> io::Result<u64> {
    let mut shelf = FolderShelf::new(rt.clone()?, root);
    let made: Result<Kept, NamedFault> = make_named(rt.alloc(), &mut shelf, &MacKeys, &KEY, b"log");
    let mut core = match made {
        Ok(core) => core,
        Err(_) => return Err(io::Error::other("the core isn't made")),
    };
    let nanoseconds = append_each(rt, &mut core, count, size)?;
    close_named(&mut shelf, &MacKeys, &KEY, b"log", core);
    if shelf.faults() > 0 {
        return Err(io::Error::other("the disk failed"));
    }
    Ok(nanoseconds)
}

// Appends so many blocks one by one, and gives the nanoseconds of the appends.
fn append_each(rt: &HostRuntime, core: &mut Kept, count: u64, size: u64) -> io::Result<u64> {
    let Ok(mut block) = Blob::zeros(rt.alloc(), size as usize) else {
        return Err(io::Error::other("no memory"));
    };
    let mut nanoseconds: u64 = 0;
    for number in 0..count {
        let Ok(blocks) = one_block(rt.alloc(), number, block.bytes_mut()) else {
            return Err(io::Error::other("no memory"));
        };
        let start = Instant::now(rt)?;
        if core.append(rt.alloc(), &blocks).is_err() {
            return Err(io::Error::other("a block isn't appended"));
        }
        nanoseconds = nanoseconds.saturating_add(since(rt, &start)?);
    }
    Ok(nanoseconds)
}

// A batch of one block, which begins with its number.
fn one_block(alloc: Global, number: u64, block: &mut [u8]) -> Result<Blobs, Memory> {
    put_number(number, block);
    let mut blocks = Blobs::new();
    blocks.push(alloc, block)?;
    Ok(blocks)
}

/// Writes a number to the front of a block, or as many bytes of it as there is room for.
pub(crate) fn put_number(number: u64, block: &mut [u8]) {
    let bytes = number.to_le_bytes();
    let front = block.len().min(bytes.len());
    block[..front].copy_from_slice(&bytes[..front]);
}
