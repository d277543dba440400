//! The disk of a core over five files: which file an area is, reading on after a short or interrupted read, writing on
//! after a short write. The calls on files are a trait, so all of this is proved to keep the clauses of a disk. Its real
//! form is one line of std for each call, and tells nothing; its form in memory gives short, interrupted and failing
//! answers. The model is in docs/MODEL.md, "The disk".
#![tactic(auto)]

mod answers;
mod disk;
mod fault;
mod files;
mod handles;
mod memory;
mod names;
mod standard;
mod whole;

pub use answers::Planned;
pub use disk::FileDisk;
pub use fault::{CallFault, OpenFault};
pub use files::CoreFiles;
pub use memory::{MemFile, MemFiles};
pub use names::name_of;
pub use standard::StdFiles;
pub use whole::{read_full, write_full};
