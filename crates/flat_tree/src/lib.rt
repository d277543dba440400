//! Tree numbers of an append-only log, after DEP-0002 and the package `flat-tree`: block i is node 2i,
//! and the node of a subtree stands between the nodes of its two halves. For every crate that names
//! nodes, roots or covers, or that keeps a short list of them. No call takes memory or refuses.

#![tactic(auto)]

mod covers;
mod limits;
mod numbers;
mod room_list;
mod roots;

pub use covers::cover;
pub use limits::{
    MAX_BATCH_BLOCKS, MAX_BATCH_BYTES, MAX_BLOCK_BYTES, MAX_BLOCKS, MAX_CORE_BYTES, MAX_COUNT,
    MAX_DEPTH, MAX_FORK, MAX_FRESH_NODES, MAX_NODE, MAX_PLACES, MAX_ROOTS, MAX_SIBLINGS,
    MAX_UPGRADE_NODES,
};
pub use numbers::{children, depth, index, offset, parent, sibling, spans};
pub use room_list::{Places, RoomList};
pub use roots::{full_roots, root_of_block};
