//! What callers ask of the toy, and what it answers.

/// What a caller asks.
#[derive(Clone, Copy, Debug, PartialEq, Eq)]
pub enum Event {
    /// So many blocks more, and the root hash that the log then has.
    Append { count: u64, root: [u8; 32] },
    /// The length.
    Look,
}

/// What the toy answers.
#[derive(Clone, Copy, Debug, PartialEq, Eq)]
pub enum Reply {
    /// The length after the event, in blocks.
    Length { length: u64 },
    /// The event isn't in range. Nothing was done.
    Refused,
    /// The book has no room. Nothing was done.
    BookFull,
}
