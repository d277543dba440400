//! What a call is about to change.

use commit_book::Commit;
use flat_tree::{MAX_FRESH_NODES, RoomList};
use merkle_nodes::{Head, Node, Roots};

/// The nodes that one admission adds.
pub type Fresh = RoomList<Node, MAX_FRESH_NODES>;

/// The head and the roots after a change, what is committed, and the nodes that come in.
#[derive(Drop)]
pub struct Change {
    pub head: Head,
    pub roots: Roots,
    pub commit: Option<Commit>,
    pub fresh: Fresh,
}
