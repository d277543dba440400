//! The core in memory against the hashes that its work needs.
ghost use Rattle.std.specs.Prelude.{◌≡◌, ◌≤◌, IfOk, length};

use crate::admits::{Admitted, BLOCK_BYTES, Order, admit_all, memory_of, upgrade};
use crate::appends::{BATCH_BLOCKS, append_all, get_all};
use crate::path_hashes::hash_all;
use crate::times::Times;
use core_state::{Core, MemCore};
use flat_tree::MAX_BLOCK_BYTES;
use outside_traits::{Blob, Memory, PlainAuth};
use std::alloc::Global;
use std::io;

// How far apart the blocks are that are read one after the other where reads jump about.
const JUMP_BATCHES: u64 = 577;

// How far apart the blocks are that are admitted one after the other where admissions jump about: in a log of 65,536
// blocks each 395 of them lie all over it, and the next 395 are the ones beside.
const JUMP_BLOCKS: u64 = 40_483;

// The bytes of a block that is appended and read.
const SHORT_BYTES: usize = 32;

fn print(rt: &HostRuntime, times: Times) -> io::Result<()> {
    println!(rt; "{} {} {}", times.first, times.last, times.all)
}

// A place of so many bytes.
fn place_of(alloc: Global, bytes: u64) -> Result<Blob, Memory>
    ensures { IfOk result (λ place. length place ≡ bytes) }
{
    Blob::zeros(alloc, bytes as usize)
}

// A log without blocks.
fn empty(alloc: Global) -> MemCore<PlainAuth> {
    MemCore::new(alloc, PlainAuth { mark: 7 })
}

// Appends so many batches to a new core.
fn append(rt: &HostRuntime, batches: u64) -> io::Result<Times> {
    append_all(rt, &mut empty(rt.alloc()), batches, &mut [0; SHORT_BYTES])
}

// Reads the blocks of so many batches, each so many batches after the one before.
fn get(rt: &HostRuntime, batches: u64, stride: u64) -> io::Result<Times> {
    let mut core = empty(rt.alloc());
    let Ok(mut place) = place_of(rt.alloc(), MAX_BLOCK_BYTES) else {
        return Ok(Times::new(batches));
    };
    append_all(rt, &mut core, batches, &mut [0; SHORT_BYTES])?;
    get_all(rt, &mut core, batches, stride, place.bytes_mut())
}

// A new core with the head of a source of so many blocks.
fn upgraded(
    alloc: Global,
    source: &mut MemCore<PlainAuth>,
    blocks: u32,
    place: &mut [u8],
) -> Option<MemCore<PlainAuth>>
    requires room { MAX_BLOCK_BYTES ≤ length place.old }
{
    let mut core = empty(alloc);
    if upgrade(source, &mut core, alloc, blocks, place) {
        return Some(core);
    }
    None
}

// Admits the blocks of so many batches, each so many blocks after the one before, and prints what was timed.
fn admit(rt: &HostRuntime, batches: u64, stride: u64) -> io::Result<()> {
    let alloc = rt.alloc();
    let mut source = empty(alloc);
    append_all(rt, &mut source, batches, &mut [0; BLOCK_BYTES])?;
    let Ok(mut place) = place_of(alloc, MAX_BLOCK_BYTES) else {
        return Ok(());
    };
    let place = place.bytes_mut();
    let Ok(blocks) = u32::try_from(batches.saturating_mul(BATCH_BLOCKS)) else {
        return Ok(());
    };
    let Some(mut before) = upgraded(alloc, &mut source, blocks, place) else {
        return Ok(());
    };
    let Some(mut core) = upgraded(alloc, &mut source, blocks, place) else {
        return Ok(());
    };
    // both of them take in each block
    let Some(_above) = memory_of(alloc, blocks as u64 * 2) else {
        return Ok(());
    };
    let order = Order { blocks, stride };
    let Admitted {
        times,
        hashes,
        parents,
    } = admit_all(rt, &mut source, &mut before, &mut core, order, place)?;
    let held = core.info().held;
    println!(rt;
        "{} {} {} {} {} {} {} {}",
        times.first, times.last, times.all, hashes.first, hashes.last, hashes.all, parents, held
    )
}

/// Times a work of so many batches, and prints it.
pub(crate) fn timed(rt: &HostRuntime, kind: &str, batches: u64, parents: u64) -> io::Result<()> {
    let times = match kind {
        "append" => append(rt, batches)?,
        "get" => get(rt, batches, 0)?,
        "jump" => get(rt, batches, JUMP_BATCHES)?,
        "admit" => return admit(rt, batches, 1),
        "admit-jump" => return admit(rt, batches, JUMP_BLOCKS),
        _ => hash_all(rt, batches, parents)?,
    };
    print(rt, times)
}
