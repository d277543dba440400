//! The hashes of a log's leaves and parents.

use crate::commits::put_number;
use crate::path_hashes::{hash_halves, hash_leaf, used};
use crate::times::since;
use outside_traits::Blob;
use std::io;
use std::time::Instant;

/// Makes the hashes of the leaves of so many blocks of so many bytes, and of so many parents, and gives the
/// nanoseconds.
pub(crate) fn hash_all(rt: &HostRuntime, count: u64, size: u64, parents: u64) -> io::Result<u64> {
    let Ok(mut block) = Blob::zeros(rt.alloc(), size as usize) else {
        return Err(io::Error::other("no memory"));
    };
    let start = Instant::now(rt)?;
    let mixed = hash_leaves(count, block.bytes_mut()) ^ hash_parents(parents);
    // what is printed depends on each hash, so that none is left out
    Ok(used(since(rt, &start)?, mixed))
}

// A byte of each of the leaves' hashes, mixed. The blocks begin with their numbers.
fn hash_leaves(count: u64, block: &mut [u8]) -> u8 {
    let mut mixed = 0;
    for number in 0..count {
        put_number(number, block);
        mixed ^= hash_leaf(block)[0];
    }
    mixed
}

// A byte of the last of so many parents, each over the hash before.
fn hash_parents(count: u64) -> u8 {
    let mut hash = [0; 32];
    for number in 0..count {
        hash = hash_halves(number, &hash, &hash);
    }
    hash[0]
}
