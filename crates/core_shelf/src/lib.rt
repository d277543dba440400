//! The shelf on which cores stand: a list of ids and a disk for every id, as a trait whose clauses say what is promised
//! of it; its form in memory for tests and theorems; and the adapters to a folder of files, the trusted edge.
//! The model is in docs/MODEL.md, "The shelf", the files in docs/FORMATS.md, "The folder of a core".
#![tactic(auto)]

mod fault;
mod files;
mod folder;
mod memory;
mod named;
mod shelf;

pub use fault::{NamedFault, ShelfFault};
pub use files::FileDisk;
pub use folder::FolderShelf;
pub use memory::MemShelf;
pub use named::{close_named, make_named, open_named};
pub use shelf::{IdList, Shelf};
