//! What a call is about to change.

use commit_book::Commit;
use merkle_nodes::{Head, Roots};

/// The indices `from..to`.
#[derive(Clone, Copy, Debug, PartialEq, Eq)]
pub struct Indices {
    pub from: u64,
    pub to: u64,
}

impl Indices {
    /// No index.
    pub const NONE: Indices = Indices { from: 0, to: 0 };
}

/// A change of a log, but for the bytes of the blocks and the nodes that come in with it.
#[derive(Drop)]
pub struct LogChange {
    /// The head after the change.
    pub head: Head,
    /// The full roots of its length, left to right.
    pub roots: Roots,
    /// The blocks that are no longer held.
    pub gone: Indices,
    /// The blocks that are held from now on.
    pub come: Indices,
    /// What is committed, where something changes.
    pub commit: Option<Commit>,
}
