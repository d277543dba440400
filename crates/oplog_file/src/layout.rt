//! Where frames stand.

/// The bytes of a frame in front of its payload.
pub const FRAME_HEAD_BYTES: usize = 32;
/// The bytes of a frame's check.
pub const CHECK_BYTES: usize = 16;
/// The bytes of a header's slot. The second slot stands behind the first.
pub const SLOT_BYTES: usize = 4_096;
/// Where the entries begin.
pub const ENTRIES_AT: usize = 2 * SLOT_BYTES;
/// The most bytes that the frames of all entries have.
pub const MAX_ENTRIES_BYTES: usize = 16_777_216;
/// The last epoch, which 0 follows.
pub const LAST_EPOCH: u64 = 18_446_744_073_709_551_615;
