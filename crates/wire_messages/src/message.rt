//! What one end of a link says to the other.
use proof_form::{Proof, Request};

/// The type of each message, the first byte of its body.
pub const OPEN_CORE: u8 = 0;

pub const SYNC: u8 = 1;

pub const ASK: u8 = 2;

pub const CANCEL: u8 = 3;

pub const ANSWER: u8 = 4;

pub const NO_DATA: u8 = 5;

pub const WANT: u8 = 6;

pub const UNWANT: u8 = 7;

pub const BITFIELD: u8 = 8;

pub const RANGE: u8 = 9;

pub const EXTENSION: u8 = 10;

/// The blocks of a page: a bitfield begins at a multiple of them.
pub const PAGE_BLOCKS: u64 = 32_768;
/// The most bytes of a bitfield, a bit for each block of a page.
pub const PAGE_BYTES: u64 = 4_096;

/// The most bytes of the body of an answer, the longest message but an extension.
pub const MAX_ANSWER_BYTES: u64 = 1_052_010;

/// What one end of a link says to the other.
#[derive(Drop)]
pub enum Message<'f> {
    /// The protocol's version and the core that the session is about. It comes first.
    OpenCore { version: u64, id: [u8; 32] },
    /// The fork and the length of what the sender holds.
    Sync { fork: u64, length: u64 },
    /// A request, to be answered under its number.
    Ask { id: u64, request: Request },
    /// The request with this number needn't be answered.
    Cancel { id: u64 },
    /// A proof, for the request with this number.
    Answer { id: u64, proof: Proof<'f> },
    /// There is no proof for the request with this number.
    NoData { id: u64 },
    /// The sender wants to know which of so many blocks from a start on are held.
    Want { start: u64, count: u64 },
    /// It no longer does.
    Unwant { start: u64, count: u64 },
    /// Which blocks of a page are held, the lowest bit first. Those behind the last byte aren't.
    Bitfield { start: u64, bits: &'f [u8] },
    /// So many blocks from a start on are held; with `drop`, none of them is any longer.
    Range { drop: bool, start: u64, count: u64 },
    /// What this protocol doesn't say: bytes under a number.
    Extension { number: u64, bytes: &'f [u8] },
}
