//! Where the nodes go that are made.
ghost use Rattle.std.specs.Prelude.{◌≡◌, ℕ, ◌<◌, ◌++◌, ◌∷◌, [], List, length, vec_capacity};
ghost use Rattle.merkle_nodes.specs.declared.node.Node.{Node as NodeSeen};

use flat_tree::RoomList;
use merkle_nodes::Node;

/// A list of nodes with room for more.
pub trait NodeSink {
    /// Its nodes, in order.
    ghost nodes: { Self → List NodeSeen };

    /// How many it has room for in all.
    ghost room: { Self → ℕ };

    /// Adds a node at the end.
    fn add(&mut self, node: Node)
        requires room { length (nodes self.old) < room self.old }
        ensures nodes { nodes self.new ≡ nodes self.old ++ node ∷ [] }
        ensures room { room self.new ≡ room self.old };
}

impl NodeSink for Vec<Node> {
    ghost nodes = { λ list. list.items };

    ghost room = { λ list. vec_capacity list };

    fn add(&mut self, node: Node) {
        self.push_reserved(node);
    }
}

impl<const N: usize> NodeSink for RoomList<Node, N> {
    ghost nodes = { λ list. list };

    ghost room = { λ list. N };

    fn add(&mut self, node: Node) {
        self.push(node);
    }
}
