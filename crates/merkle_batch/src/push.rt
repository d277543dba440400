//! What one more block adds.
ghost use Rattle.std.specs.Prelude.{◌≡◌, ◌≤◌, ◌<◌, ◌+◌, ◌*◌, ◌++◌, ℕ, List, Some, length, vec_capacity};
ghost use Rattle.flat_tree.specs.Subtrees.{Subtree, number};
ghost use Rattle.flat_tree.specs.Roots.{full_roots_of};
ghost use Rattle.merkle_nodes.specs.Roots.{HasShape, node_of, twig_of};
ghost use Rattle.merkle_nodes.specs.Joined.{Values};
ghost use Rattle.merkle_nodes.specs.Nodes.{AreNodes, bytes_under};
ghost use Rattle.merkle_batch.specs.Batch.{SizeFits};
ghost use Rattle.std.specs.List.{AllByRecursion};
ghost use Rattle.merkle_batch.specs.Growth.{AddsLeaf, Grows};

use flat_tree::{MAX_BLOCKS, MAX_CORE_BYTES, MAX_ROOTS};
use merkle_nodes::{Node, Roots, parent};

/// Adds the leaf of the block at an index, the number of blocks before it, and each parent that becomes full with it.
pub fn add_leaf(nodes: &mut Vec<Node>, roots: &mut Roots, block: u64, leaf: Node)
    requires within { block < MAX_BLOCKS }
    requires shape { HasShape roots.old block }
    requires leaf { leaf.index ≡ number 0 block }
    requires bytes { bytes_under roots.old + leaf.size ≤ MAX_CORE_BYTES }
    requires room { length nodes.old.items + length roots.old < vec_capacity nodes.old }
    ensures grows { Grows block leaf roots.old roots.new nodes.old nodes.new }
    ensures adds { (values : Values) → (trees : List Subtree)
        → AddsLeaf values trees block leaf roots.old roots.new nodes.old.items nodes.new.items }
{
    nodes.push_reserved(leaf);
    let mut node = leaf;
    for _ in 0..block.trailing_ones() {
        let left = roots.pop();
        node = parent(&left, &node);
        nodes.push_reserved(node);
    }
    roots.push(node);
}

/// The bytes under some nodes.
pub fn bytes_under(nodes: &[Node]) -> u64
    requires sizes { AllByRecursion SizeFits nodes.now }
    requires few { length nodes.now ≤ MAX_ROOTS }
    ensures sum { result ≡ bytes_under nodes.now }
    ensures most { result ≤ MAX_ROOTS * MAX_CORE_BYTES }
{
    let mut bytes = 0;
    for node in nodes {
        bytes += node.size;
    }
    bytes
}
