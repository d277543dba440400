//! One change of a core.

/// One change of a core in short. Indices, lengths and counts are in blocks, `from..to` is a part of the indices.
#[derive(Clone, Copy, Debug, PartialEq, Eq)]
pub enum Commit {
    /// `count` blocks at the end.
    Append {
        count: u64,
    },
    /// The length becomes `to`, under a greater fork.
    Truncate {
        to: u64,
        fork: u64,
    },
    /// The blocks `from..to` are given up.
    Clear {
        from: u64,
        to: u64,
    },
    /// One block came in.
    Fetch {
        index: u64,
    },
    /// The length becomes `to`; no block came with it.
    Upgrade {
        to: u64,
    },
    /// An upgrade, then a fetch.
    UpgradeFetch {
        to: u64,
        index: u64,
    },
    /// Another log under a greater fork: of the held blocks those below `kept` stay.
    Reorg {
        fork: u64,
        to: u64,
        kept: u64,
    },
    /// A reorganisation, then a fetch.
    ReorgFetch {
        fork: u64,
        to: u64,
        kept: u64,
        index: u64,
    },
}

/// An entry of the history: a commit, with the root hash of the head after it.
#[derive(Clone, Copy, Debug, PartialEq, Eq)]
pub struct Entry {
    pub commit: Commit,
    pub root: [u8; 32],
}
