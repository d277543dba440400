//! Reads of blocks with the proof of each: under a view's own head, and under a head that was taken before, a snapshot. A
//! snapshot is a value that no call changes, and what is read under it is the block that it had. No call takes memory.
#![tactic(auto)]

mod laws;
mod read;
mod snapshot;

pub use laws::snapshots_stay;
pub use read::{read_held, read_snap};
pub use snapshot::{ReadAt, Snapshot};
