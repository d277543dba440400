//! A core's change file (docs/FORMATS.md, "The change file"): two slots for headers, and entries one behind the other,
//! each in a frame with a check. It is opened behind the header that counts, and its entries are passed one by one. An entry is
//! appended, the tail behind the last one cut, and a new file made so that a stop at any moment leaves it before or after that.
#![tactic(auto)]

mod file;
mod frame;
mod layout;
mod opening;
mod reading;
mod writing;

pub use file::OplogFile;
pub use layout::{
    CHECK_BYTES, ENTRIES_AT, FRAME_HEAD_BYTES, LAST_EPOCH, MAX_ENTRIES_BYTES, SLOT_BYTES,
};
pub use opening::open_at;
