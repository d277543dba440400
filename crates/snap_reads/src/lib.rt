//! Reads of blocks with the proof of each, over a view of a log: under the view's own head, and under a head that was
//! taken before, a snapshot. What is proved under one snapshot is one block, whatever gave it. No call takes memory.
#![tactic(auto)]

mod head;
mod laws;
mod read;

pub use head::snapshot;
pub use laws::{one_block_of_a_snapshot, what_a_read_shows, what_a_snapshot_read_shows};
pub use read::{read_held, read_snap};
