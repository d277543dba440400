//! What may happen to a core, and what it replies.

use core_snap::Snapshot;
use merkle_nodes::Info;
use node_set::{CoreFault, Receipt};
use outside_traits::Blobs;
use proof_check::Prepared;
use proof_form::{BlockPart, Proof, Request};

/// Where a byte of a log lies: the index of the block that has it, and its offset in the block.
#[derive(Clone, Copy, Debug, PartialEq, Eq)]
pub struct Spot {
    pub index: u64,
    pub offset: u64,
}

/// One call of a core.
#[derive(Clone, Copy)]
pub enum Event<'e> {
    /// The head in short.
    Info,
    /// The head with its roots.
    Snap,
    /// Blocks come in at the end.
    Append(&'e Blobs),
    /// The log is cut to a length, under a greater fork.
    Truncate { to: u64, fork: u64 },
    /// The blocks `from..to` are cleared.
    Clear { from: u64, to: u64 },
    /// What a proof brings comes in.
    Admit(&'e Prepared<'e>),
    /// The block of an index is read.
    Get { index: u64 },
    /// The block that has a byte of the log is sought.
    Seek { byte: u64 },
    /// The block of an index is read under a head that was taken before.
    ReadAt { snap: &'e Snapshot, index: u64 },
    /// A proof is asked for.
    Make(&'e Request),
    /// How many siblings a block needs.
    Need { index: u64 },
    /// Which blocks of a page are held.
    Page { number: u64 },
}

/// What a core replies. Bytes lie in the buffer that the caller gave.
#[derive(Drop)]
pub enum Reply<'b> {
    /// To `Info`.
    Info(Info),
    /// To `Snap`.
    Snap(Snapshot),
    /// To a change: the head after it.
    Done(Result<Receipt, CoreFault>),
    /// To `Get` and `ReadAt`: the block, and the siblings of its path.
    Read(Result<BlockPart<'b>, CoreFault>),
    /// To `Seek`.
    Spot(Result<Spot, CoreFault>),
    /// To `Make`: the proof.
    Made(Result<Proof<'b>, CoreFault>),
    /// To `Need`: the number of siblings.
    Number(Result<u64, CoreFault>),
    /// To `Page`: its bytes.
    Bits(Result<&'b [u8], CoreFault>),
}
