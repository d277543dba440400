//! Blocks that a core admits one by one, each with the siblings that it needs.
ghost use Rattle.std.specs.Prelude.{◌≤◌, length};
ghost use Rattle.flat_tree.specs.declared.limits.TheConstants.{MAX_BLOCK_BYTES};

use crate::offers::{Offer, block_at, spell, upgrade_to};
use crate::path_hashes::used;
use crate::times::{Times, since};
use core_state::Core;
use outside_traits::Blob;
use std::alloc::Global;
use std::io;
use std::time::Instant;

/// The bytes of an admitted block.
pub(crate) const BLOCK_BYTES: usize = 1000;

// The blocks whose admissions are timed at once.
const CHUNK_BLOCKS: u64 = 64;

// Room for the proof of such a block.
const OFFER_BYTES: usize = 2048;

// What a core takes for such a block and its nodes, with what the allocator adds.
const PIECE_BYTES: usize = 1200;

/// The blocks of a log, in the order of their admissions: each so far behind the one before.
#[derive(Clone, Copy)]
pub(crate) struct Order {
    pub blocks: u32,
    pub stride: u64,
}

impl Order {
    fn index(&self, step: u64) -> u32 {
        (step.wrapping_mul(self.stride) % (self.blocks as u64).max(1)) as u32
    }
}

/// The times of some admissions and of the hashes that they need, and how many parents they hashed.
#[derive(Clone, Copy)]
pub(crate) struct Admitted {
    pub times: Times,
    pub hashes: Times,
    pub parents: u64,
}

// The nanoseconds of a chunk's admissions, and of its hashes.
#[derive(Clone, Copy)]
struct Chunk {
    admissions: u64,
    hashes: u64,
}

/// Has the memory for so many blocks come from the system now, and not when they are admitted: it is taken in pieces that
/// are written to and given back, below the one that is handed out. While that stays the allocator keeps them.
pub(crate) fn memory_of(alloc: Global, blocks: u64) -> Option<Blob> {
    let mut pieces = Vec::new(alloc);
    for _ in 0..blocks {
        pieces.push(Blob::zeros(alloc, PIECE_BYTES).ok()?).ok()?;
    }
    pieces.pop()
}

/// Leads the head of a core to that of a source. Whether it is there.
pub(crate) fn upgrade<C: Core>(
    source: &mut C,
    core: &mut C,
    alloc: Global,
    blocks: u32,
    place: &mut [u8],
) -> bool
    requires room { MAX_BLOCK_BYTES ≤ length place.old }
{
    let mut bytes = [0; OFFER_BYTES];
    if blocks == 0 || !spell(source, &upgrade_to(blocks), place, &mut bytes) {
        return false;
    }
    match Offer::read(&bytes) {
        Some(offer) => offer.admit(core, alloc),
        None => false,
    }
}

/// Admits each block of a source, a chunk at a time, which another core admitted before: that one tells how many siblings
/// a block needs then, and isn't timed. The hashes of a chunk are made beside, from the same proofs. An admission that is
/// refused ends the run with what was timed.
pub(crate) fn admit_all<C: Core>(
    rt: &HostRuntime,
    source: &mut C,
    before: &mut C,
    core: &mut C,
    order: Order,
    place: &mut [u8],
) -> io::Result<Admitted>
    requires room { MAX_BLOCK_BYTES ≤ length place.old }
{
    let chunks = order.blocks as u64 / CHUNK_BLOCKS;
    let mut done = Admitted {
        times: Times::new(chunks),
        hashes: Times::new(chunks),
        parents: 0,
    };
    let Some(mut bytes) = room_of(rt.alloc()) else {
        return Ok(done);
    };
    for number in 0..chunks {
        let Some(parents) = spell_chunk(
            rt.alloc(),
            source,
            before,
            order,
            number,
            place,
            &mut bytes,
        ) else {
            return Ok(done);
        };
        let Some(chunk) = time_chunk(rt, core, &bytes, number)? else {
            return Ok(done);
        };
        done.times.add(number, chunk.admissions);
        done.hashes.add(number, chunk.hashes);
        done.parents = done.parents.saturating_add(parents);
    }
    Ok(done)
}

// Room for the proofs of a chunk.
fn room_of(alloc: Global) -> Option<Vec<Blob>> {
    let mut rooms = Vec::new(alloc);
    for _ in 0..CHUNK_BLOCKS {
        rooms.push(Blob::zeros(alloc, OFFER_BYTES).ok()?).ok()?;
    }
    Some(rooms)
}

// Spells the proofs of a chunk, and admits them before. How many siblings they have, None where one isn't admitted.
fn spell_chunk<C: Core>(
    alloc: Global,
    source: &mut C,
    before: &mut C,
    order: Order,
    number: u64,
    place: &mut [u8],
    bytes: &mut Vec<Blob>,
) -> Option<u64>
    requires room { MAX_BLOCK_BYTES ≤ length place.old }
{
    let mut siblings: u64 = 0;
    for at in 0..CHUNK_BLOCKS {
        let out = bytes.get_mut(at as usize)?.bytes_mut();
        let step = number.wrapping_mul(CHUNK_BLOCKS).wrapping_add(at);
        let need = spell_block(alloc, source, before, order.index(step), place, out)?;
        siblings = siblings.saturating_add(need);
    }
    Some(siblings)
}

// Spells the proof of a block, with the siblings that it needs, and admits it before.
fn spell_block<C: Core>(
    alloc: Global,
    source: &mut C,
    before: &mut C,
    index: u32,
    place: &mut [u8],
    out: &mut [u8],
) -> Option<u64>
    requires room { MAX_BLOCK_BYTES ≤ length place.old }
{
    let Ok(need) = before.need(index as u64) else {
        return None;
    };
    if !spell(source, &block_at(index, need), place, out) {
        return None;
    }
    if Offer::read(out)?.admit(before, alloc) {
        return Some(need);
    }
    None
}

// Times the proofs of a chunk, None where one isn't admitted. Every second chunk is hashed first, and each other one is
// admitted first, so that neither finds the proofs nearer than the other.
fn time_chunk<C: Core>(
    rt: &HostRuntime,
    core: &mut C,
    bytes: &[Blob],
    number: u64,
) -> io::Result<Option<Chunk>> {
    let Some(offers) = offers_of(rt.alloc(), bytes) else {
        return Ok(None);
    };
    if number % 2 == 0 {
        let hashes = hash_chunk(rt, &offers)?;
        return with_admissions(admit_chunk(rt, core, &offers)?, hashes);
    }
    let admissions = admit_chunk(rt, core, &offers)?;
    with_admissions(admissions, hash_chunk(rt, &offers)?)
}

// Both times, None where there is none of the admissions.
fn with_admissions(admissions: Option<u64>, hashes: u64) -> io::Result<Option<Chunk>> {
    let Some(admissions) = admissions else {
        return Ok(None);
    };
    Ok(Some(Chunk { admissions, hashes }))
}

// The nanoseconds in which a core admits the proofs of a chunk, None where it doesn't.
fn admit_chunk<C: Core>(
    rt: &HostRuntime,
    core: &mut C,
    offers: &[Offer<'_>],
) -> io::Result<Option<u64>> {
    let start = Instant::now(rt)?;
    let admitted = admit_each(core, rt.alloc(), offers);
    let nanoseconds = since(rt, &start)?;
    if admitted {
        return Ok(Some(nanoseconds));
    }
    Ok(None)
}

// The nanoseconds in which the blocks and paths of a chunk are hashed.
fn hash_chunk(rt: &HostRuntime, offers: &[Offer<'_>]) -> io::Result<u64> {
    let start = Instant::now(rt)?;
    let mixed = hash_each(offers);
    let nanoseconds = since(rt, &start)?;
    Ok(used(nanoseconds, mixed))
}

// Hashes the blocks and paths of some proofs. A byte of each path's last hash, mixed.
fn hash_each(offers: &[Offer<'_>]) -> u8 {
    let mut mixed = 0;
    for offer in offers {
        mixed ^= offer.hash();
    }
    mixed
}

// The proofs that are spelled in some places, None where one of them isn't.
fn offers_of<'f>(alloc: Global, bytes: &'f [Blob]) -> Option<Vec<Offer<'f>>> {
    let mut offers = Vec::new(alloc);
    for spelled in bytes {
        offers.push(Offer::read(spelled.bytes())?).ok()?;
    }
    Some(offers)
}

// Admits some proofs. Whether each is admitted.
fn admit_each<C: Core>(core: &mut C, alloc: Global, offers: &[Offer<'_>]) -> bool {
    let mut admitted = true;
    for offer in offers {
        if !offer.admit(core, alloc) {
            admitted = false;
        }
    }
    admitted
}
