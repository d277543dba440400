//! A head that was taken at some time.

use merkle_nodes::{Roots, Trail};

/// A head with its roots, which no later call changes: its fork, its length in blocks, the full roots of the length, and
/// its signature.
#[derive(Drop)]
pub struct Snapshot {
    pub fork: u64,
    pub length: u64,
    pub roots: Roots,
    pub signature: [u8; 64],
}

/// A block that was read: its number of bytes, and the siblings of its path up to the root over it, lowest first.
#[derive(Drop)]
pub struct ReadAt {
    pub len: usize,
    pub trail: Trail,
}
