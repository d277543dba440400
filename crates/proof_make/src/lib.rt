//! The honest proof for a request, from what is held and stored. For whoever serves a core's blocks. No call takes memory.
#![tactic(auto)]

mod answer;
mod block;
mod laws;
mod upgrade;

pub use answer::make;
pub use laws::proofs_are_of_the_log;
