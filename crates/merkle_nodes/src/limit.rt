//! What is told of a core in short, and what passes a limit.

/// A quantity that has a limit (docs/MODEL.md, "Limits").
#[derive(Clone, Copy, Debug, PartialEq, Eq)]
pub enum What {
    /// The bytes of a block.
    Block,
    /// The blocks of a core.
    Blocks,
    /// The bytes of a core.
    Bytes,
    /// The blocks of one append.
    Batch,
    /// The bytes of one append.
    BatchBytes,
    /// A fork.
    Fork,
    /// The bytes of the entries in a change file.
    Oplog,
    /// The commits of a history.
    Commits,
}

/// A quantity would pass its limit, `max`.
#[derive(Clone, Copy, Debug, PartialEq, Eq)]
pub struct Limit {
    pub what: What,
    pub max: u64,
}

/// A core in short: its fork, its length in blocks, its bytes, how many blocks are held, and its root hash.
#[derive(Clone, Copy, Debug, PartialEq, Eq)]
pub struct Info {
    pub fork: u64,
    pub length: u64,
    pub bytes: u64,
    pub held: u64,
    pub root: [u8; 32],
}
