//! The full roots of a log as a stack: an aligned subtree that is pushed behind them is joined with each root that is its
//! left sibling, after DEP-0002. For an append, which pushes leaves, and for an upgrade, which pushes the subtrees of a
//! cover. Each node that becomes full is added to a list of the caller's. No call takes memory.
#![tactic(auto)]

mod cover;
mod laws;
mod sink;
mod stack;

pub use cover::push_cover;
pub use laws::{twigs_are_joined, what_becomes_full};
pub use sink::NodeSink;
pub use stack::push;
