//! One subtree behind the roots of a log.
ghost use Rattle.std.specs.Prelude.{◌≡◌, ◌≤◌, ◌<◌, ◌+◌, ◌*◌, ℕ, List, length};
ghost use Rattle.flat_tree.specs.Subtrees.{Subtree, end_block_of};
ghost use Rattle.flat_tree.specs.declared.limits.TheConstants.{MAX_CORE_BYTES};
ghost use Rattle.merkle_nodes.specs.Joined.{Values};
ghost use Rattle.merkle_nodes.specs.Nodes.{bytes_under};
ghost use Rattle.root_stack.specs.Stack.{IsNext, AddsTree, Grows};

use crate::sink::NodeSink;
use flat_tree::offset;
use merkle_nodes::{Node, Roots, parent};

/// Pushes the node of a subtree that begins where the log of these roots ends. While the last root is the left sibling
/// of the node, both are joined to their parent. The node and each parent are added to `made`, from the node upward.
pub fn push<S: NodeSink>(roots: &mut Roots, made: &mut S, node: Node)
    requires next { (tree : Subtree) × IsNext tree node roots.old }
    requires bytes { bytes_under roots.old + node.size ≤ MAX_CORE_BYTES }
    requires room { length (S.nodes made.old) + length roots.old < S.room made.old }
    ensures grows { (tree : Subtree) → IsNext tree node roots.old
        → Grows (end_block_of tree.depth tree.offset) node.size 1
        roots.old roots.new (S.nodes made.old) (S.nodes made.new) }
    ensures adds { (values : Values) → (trees : List Subtree) → (tree : Subtree)
        → IsNext tree node roots.old
        → AddsTree values trees tree node roots.old roots.new (S.nodes made.old) (S.nodes made.new) }
    ensures room { S.room made.new ≡ S.room made.old }
{
    made.add(node);
    let mut last = node;
    for _ in 0..offset(node.index).trailing_ones() {
        let left = roots.pop();
        last = parent(&left, &last);
        made.add(last);
    }
    roots.push(last);
}
