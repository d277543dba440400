//! The nodes of an append: a batch of blocks behind a log that is known by its roots. For the crate that keeps a core,
//! which stores these nodes and signs these roots, and for whoever proves a block of a log in hand.
#![tactic(auto)]

mod batch;
mod laws;
mod prove;
mod push;
mod spell;

pub use batch::Batch;
pub use laws::an_honest_bundle_opens;
pub use prove::{ProveFault, prove_block};
