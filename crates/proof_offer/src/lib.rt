//! The honest proof that a view of a log can give for a request: a block with siblings of its path, a node, the block
//! that has a byte, and an upgrade. For whoever serves a core's blocks. No call takes memory.
#![tactic(auto)]

mod block;
mod hash;
mod laws;
mod reply;
mod twigs;
mod upgrade;

pub use laws::{proofs_are_of_the_log, the_closure_decides};
pub use reply::{MakeFault, make};
