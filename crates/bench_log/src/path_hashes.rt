//! The hashes that the work of a core needs.

use crate::appends::BATCH_BLOCKS;
use crate::times::{Times, since};
use blake2b_hash::{Blake2b, hash256};
use merkle_nodes::Twig;
use std::io;
use std::time::Instant;

// What is hashed for a leaf of 32 bytes, and for a parent.
const SHORT_LEAF_BYTES: usize = 41;

const PARENT_BYTES: usize = 73;

/// Makes the hashes of so many batches of short leaves, with so many parents for each.
pub(crate) fn hash_all(rt: &HostRuntime, batches: u64, parents: u64) -> io::Result<Times> {
    let mut times = Times::new(batches);
    let mut mixed = 0;
    for number in 0..batches {
        let start = Instant::now(rt)?;
        mixed ^= hash_batch(number, parents);
        times.add(number, since(rt, &start)?);
    }
    Ok(with_use(times, mixed))
}

// The times, which depend on what was hashed.
fn with_use(times: Times, mixed: u8) -> Times {
    let mut with = times;
    with.first = used(with.first, mixed);
    with
}

/// Some nanoseconds, which depend on what was hashed, by one.
pub(crate) fn used(nanoseconds: u64, mixed: u8) -> u64 {
    if mixed == 0 {
        return nanoseconds.saturating_add(1);
    }
    nanoseconds
}

// A byte of each of the hashes of a batch, mixed.
fn hash_batch(number: u64, parents: u64) -> u8 {
    let mut leaf = [0; SHORT_LEAF_BYTES];
    let mut mixed = 0;
    for place in 0..BATCH_BLOCKS {
        let index = number.wrapping_mul(BATCH_BLOCKS).wrapping_add(place);
        leaf[..8].copy_from_slice(&index.to_le_bytes());
        mixed ^= hash_parents(hash256(&leaf), parents);
    }
    mixed
}

/// A byte of the last hash of a block's path, from where its bytes and its siblings lie.
pub(crate) fn hash_path(block: &[u8], trail: &[Twig]) -> u8 {
    let mut hash = hash_leaf(block);
    let mut size = block.len() as u64;
    for beside in trail {
        size = size.wrapping_add(beside.size);
        hash = hash_halves(size, &hash, &beside.hash);
    }
    hash[0]
}

/// The hash of a leaf from where its block lies: a type, its bytes' number, and they.
pub(crate) fn hash_leaf(block: &[u8]) -> [u8; 32] {
    let mut hasher = Blake2b::new256();
    hasher.update(&[0]);
    hasher.update(&(block.len() as u64).to_le_bytes());
    hasher.update(block);
    hasher.finalize256()
}

/// The hash of a parent from where the hashes of its halves lie.
pub(crate) fn hash_halves(size: u64, left: &[u8; 32], right: &[u8; 32]) -> [u8; 32] {
    let mut hasher = Blake2b::new256();
    hasher.update(&[1]);
    hasher.update(&size.to_le_bytes());
    hasher.update(left);
    hasher.update(right);
    hasher.finalize256()
}

// A byte of the last of so many parents, each of the hash before.
fn hash_parents(from: [u8; 32], parents: u64) -> u8 {
    let mut hash = from;
    for _ in 0..parents {
        hash = hash_parent(&hash);
    }
    hash[0]
}

// A hash of as many bytes as a parent's, which begin with this one.
fn hash_parent(hash: &[u8; 32]) -> [u8; 32] {
    let mut parent = [0; PARENT_BYTES];
    parent[..32].copy_from_slice(hash);
    hash256(&parent)
}
