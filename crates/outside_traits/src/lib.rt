//! What the program takes from outside: sources and sinks of bytes, verifiers, signers and keys, as traits whose
//! clauses say what is promised of them, with forms in memory for tests and theorems, and the adapters that main uses.
//! A call fails only where its object's count of faults rose.
#![tactic(auto)]

mod auth;
mod blob;
mod blobs;
mod calls;
mod failed;
mod lines;
mod memory;
mod plan;
mod sink;
mod source;
mod standard;
mod sure;

pub use auth::{Keys, PlainAuth, Signer, Verifier};
pub use blob::Blob;
pub use blobs::Blobs;
pub use failed::{Failed, Memory};
pub use lines::{LineFault, Lines, all_lines_are_met};
pub use memory::{MemSink, MemSource};
pub use plan::Plan;
pub use sink::{Sink, write_all};
pub use source::{Source, fill};
pub use standard::{StdSink, StdSource};
pub use sure::{SureSink, SureSource};
