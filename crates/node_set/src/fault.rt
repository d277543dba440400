//! Why a core refuses a call or fails in it. Each variant comes only where none of those that its call names before it
//! holds.

use commit_book::Commit;
use disk_trait::Area;
use merkle_nodes::{Twig, What};

/// Where what is kept differs from what was recomputed.
#[derive(Clone, Copy, Debug, PartialEq, Eq)]
pub enum Place {
    /// At the node of this number.
    Node { index: u64 },
    /// In the copy of the held indices in this area.
    BitsCopy { area: Area },
    /// At the leaf of the block of this index.
    Leaf { index: u64 },
}

/// Why an offered proof is refused.
#[derive(Clone, Copy, Debug, PartialEq, Eq)]
pub enum Refusal {
    /// The quantity would pass its limit, `max`.
    Limit { what: What, max: u64 },
    /// The block or the node isn't below `end`, the length after the proof.
    OutOfRange { end: u64 },
    /// The proof's fork is below the head's, which is `have`.
    OldFork { have: u64 },
    /// The proof's fork is above the head's, which is `have`, and no upgrade comes with it.
    NewFork { have: u64 },
    /// The upgrade's length isn't above the head's, which is `have`.
    NotLonger { have: u64 },
    /// The upgrade doesn't start at `have`.
    WrongStart { have: u64 },
    /// The first stored node on the path, of this number, is `want`, and the part folds to `have`.
    HashDiffers { index: u64, want: Twig, have: Twig },
    /// The siblings end below the first stored node, at the node of this number.
    Uncovered { index: u64 },
    /// The verifier refuses the upgraded head.
    BadSignature,
    /// The sought byte isn't in the block, which begins at the byte `offset` and has `len` bytes.
    SeekWrong { offset: u64, len: u64 },
}

/// Why a call of a core has no answer.
#[derive(Clone, Copy, Debug, PartialEq, Eq)]
pub enum CoreFault {
    /// Want of memory.
    Memory,
    /// A write, a cut or a sync of this core failed before, when the disk's count of faults was `count`.
    Broken {
        count: u64,
    },
    /// No commit more can be counted.
    BookFull,
    /// The disk failed in this call.
    StoreFault,
    /// What the area has at this place isn't in its form.
    BadStore {
        area: Area,
        at: u64,
    },
    /// The kept hash is `want`, and the recomputed one is `have`; where they are equal the sizes differ.
    Damaged {
        place: Place,
        want: [u8; 32],
        have: [u8; 32],
    },
    /// The verifier refuses the head.
    BadSignature,
    /// The index, length or byte passes `end`.
    OutOfRange {
        end: u64,
    },
    /// The block of this index isn't held.
    Unavailable {
        index: u64,
    },
    /// The node of this number isn't stored.
    NoNode {
        index: u64,
    },
    /// No held block has this byte.
    NoByte {
        byte: u64,
    },
    /// The request has no honest answer from this content.
    NoReply,
    /// The fork isn't above the head's, which is `have`.
    OldFork {
        have: u64,
    },
    /// The quantity would pass its limit, `max`.
    Limit {
        what: What,
        max: u64,
    },
    /// An offered proof was refused.
    Refused(Refusal),
}

/// A core after a call: its fork, length and root hash, and what was committed.
#[derive(Clone, Copy, Debug, PartialEq, Eq)]
pub struct Receipt {
    pub fork: u64,
    pub length: u64,
    pub root: [u8; 32],
    pub commit: Option<Commit>,
}
