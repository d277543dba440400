//! The disk of a core: five areas of bytes, what their calls do, and what a crash may leave of them; a disk in memory
//! whose calls fail as planned and which can be crashed at every moment, and one that fails from some call on.
//! The model is in docs/MODEL.md, "The disk".
#![tactic(auto)]

mod disk;
mod files;
mod fuse;
mod journal;
mod memory;
mod replay;

pub use disk::{Area, Disk};
pub use fuse::FuseDisk;
pub use memory::{MemDisk, Room};
