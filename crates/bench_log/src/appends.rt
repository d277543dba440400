//! Appends to a core, and reads of its blocks.
ghost use Rattle.std.specs.Prelude.{◌≤◌, length};
ghost use Rattle.flat_tree.specs.declared.limits.TheConstants.{MAX_BLOCK_BYTES};

use crate::times::{Times, since};
use core_state::Core;
use outside_traits::{Blobs, Memory};
use std::alloc::Global;
use std::io;
use std::time::Instant;

/// The blocks of a batch.
pub(crate) const BATCH_BLOCKS: u64 = 1024;

// A batch of as many copies of a block, which begin with their own numbers.
fn batch(alloc: Global, number: u64, block: &mut [u8]) -> Result<Blobs, Memory>
    requires room { 8 ≤ length block.old }
{
    let mut blocks = Blobs::new();
    for place in 0..BATCH_BLOCKS {
        let index = number.wrapping_mul(BATCH_BLOCKS).wrapping_add(place);
        block[..8].copy_from_slice(&index.to_le_bytes());
        blocks.push(alloc, block)?;
    }
    Ok(blocks)
}

/// Appends so many batches of such blocks. Those that fail end the run with what was timed.
pub(crate) fn append_all<C: Core>(
    rt: &HostRuntime,
    core: &mut C,
    batches: u64,
    block: &mut [u8],
) -> io::Result<Times>
    requires room { 8 ≤ length block.old }
{
    let mut times = Times::new(batches);
    for number in 0..batches {
        let Ok(blocks) = batch(rt.alloc(), number, block) else {
            return Ok(times);
        };
        let start = Instant::now(rt)?;
        if core.append(rt.alloc(), &blocks).is_err() {
            return Ok(times);
        }
        times.add(number, since(rt, &start)?);
    }
    Ok(times)
}

/// Reads each block of so many batches, in order, or each after one of so many batches before.
pub(crate) fn get_all<C: Core>(
    rt: &HostRuntime,
    core: &mut C,
    batches: u64,
    stride: u64,
    place: &mut [u8],
) -> io::Result<Times>
    requires room { MAX_BLOCK_BYTES ≤ length place.old }
{
    let mut times = Times::new(batches);
    for number in 0..batches {
        let start = Instant::now(rt)?;
        if !get_batch(core, number, batches, stride, place) {
            return Ok(times);
        }
        times.add(number, since(rt, &start)?);
    }
    Ok(times)
}

// Reads as many blocks as a batch has, each so many batches after the one before. Whether each was read.
fn get_batch<C: Core>(
    core: &mut C,
    number: u64,
    batches: u64,
    stride: u64,
    place: &mut [u8],
) -> bool
    requires room { MAX_BLOCK_BYTES ≤ length place.old }
{
    let mut read = true;
    for step in 0..BATCH_BLOCKS {
        let other = number.wrapping_add(step.wrapping_mul(stride)) % batches.max(1);
        let index = other.wrapping_mul(BATCH_BLOCKS).wrapping_add(step);
        if core.get(index, place).is_err() {
            read = false;
        }
    }
    read
}
