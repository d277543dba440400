//! What may happen to a core, and what it replies.

use merkle_nodes::Info;
use node_set::{CoreFault, Receipt};
use outside_traits::Blobs;
use proof_check::Prepared;
use proof_form::{BlockPart, Proof, Request};

/// One call of a core.
#[derive(Clone, Copy)]
pub enum Event<'e> {
    /// The head in short.
    Info,
    /// Blocks come in at the end.
    Append(&'e Blobs),
    /// The log is cut to a length, under a greater fork.
    Truncate { to: u64, fork: u64 },
    /// The blocks from..to are given up.
    Clear { from: u64, to: u64 },
    /// What a proof brings comes in.
    Admit(&'e Prepared<'e>),
    /// A proof is asked for.
    Make(&'e Request),
    /// The block of an index is read.
    Get { index: u64 },
    /// How many siblings a block needs.
    Need { index: u64 },
    /// Which blocks of a page are held.
    Page { number: u64 },
}

/// What a core replies. Bytes lie in the place that the caller gave.
#[derive(Drop)]
pub enum Reply<'b> {
    /// To `Info`.
    Told(Info),
    /// To a change: the head after it.
    Done(Result<Receipt, CoreFault>),
    /// To `Make`: the proof.
    Made(Result<Proof<'b>, CoreFault>),
    /// To `Get`: the block, and the siblings of its path.
    Read(Result<BlockPart<'b>, CoreFault>),
    /// To `Need`: the number of siblings.
    Number(Result<u64, CoreFault>),
    /// To `Page`: its bytes.
    Bits(Result<&'b [u8], CoreFault>),
}
