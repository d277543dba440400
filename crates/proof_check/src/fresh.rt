//! Nodes that come in, in the order of their numbers.
ghost use Rattle.std.specs.Prelude.{◌≡◌, ℕ, ◌+◌, ◌<◌, ◌≤◌, Some, length, slice_get};
ghost use Rattle.flat_tree.specs.declared.limits.TheConstants.{MAX_FRESH_NODES};
ghost use Rattle.node_set.specs.Nodes.{with_node, with_nodes};
ghost use Rattle.merkle_nodes.specs.Joined.{Values};
ghost use Rattle.flat_tree.specs.Subtrees.{number, end_block_of};
ghost use Rattle.flat_tree.specs.declared.limits.TheConstants.{MAX_NODE};
ghost use Rattle.merkle_nodes.specs.declared.node.Node.{Node as NodeSeen};
ghost use Rattle.std.specs.List.{AllByRecursion};
ghost use Rattle.proof_check.specs.Admission.{Ascends, AllBelow};
ghost use Rattle.proof_check.specs.Meets.{IsPart, HasNode, AllIn, IsPutNode};

use flat_tree::spans;
use merkle_nodes::Node;
use node_set::Fresh;

/// Puts a node at its place among others in the order of their numbers, instead of one of its number. Most nodes go to
/// the end, or nearly so, since paths are gone from the leaf upward.
pub(crate) fn put(fresh: &mut Fresh, node: Node)
    requires room { length fresh.old < MAX_FRESH_NODES }
    requires order { Ascends fresh.old }
    ensures order { Ascends fresh.new }
    ensures below { (end : ℕ) → AllBelow end fresh.old → node.index < end → AllBelow end fresh.new }
    ensures puts { (value : Values) (depth offset : ℕ)
        → with_nodes value fresh.new depth offset ≡ with_node (with_nodes value fresh.old) node depth offset }
    ensures few { length fresh.new ≤ length fresh.old + 1 }
{
    if fresh.len() == 0 {
        fresh.push(node);
        return;
    }
    let last = fresh.pop();
    if last.index < node.index {
        fresh.push(last);
        fresh.push(node);
        return;
    }
    if last.index == node.index {
        fresh.push(node);
        return;
    }
    put(fresh, node);
    fresh.push(last);
}

/// Puts those of some nodes in that end behind a log of `base` blocks.
pub(crate) fn put_new(fresh: &mut Fresh, nodes: &[Node], base: u64)
    requires room { length fresh.old + length nodes.now ≤ MAX_FRESH_NODES }
    requires order { Ascends fresh.old }
    requires few { AllByRecursion (λ (node : NodeSeen). node.index ≤ MAX_NODE) nodes.now }
    ensures order { Ascends fresh.new }
    ensures part { (value : Values) → IsPart value fresh.old → AllIn value base nodes.now
        → IsPart value fresh.new }
    ensures keeps { (depth offset : ℕ) → HasNode fresh.old depth offset
        → HasNode fresh.new depth offset }
    ensures all { (place depth offset : ℕ) (node : NodeSeen) → slice_get nodes.now place ≡ Some node
        → node.index ≡ number depth offset → base < end_block_of depth offset
        → HasNode fresh.new depth offset }
    ensures few { length fresh.new ≤ length fresh.old + length nodes.now }
{
    for node in nodes {
        put_behind(fresh, *node, base);
    }
}

// Puts a node in if it ends behind a log of `base` blocks.
fn put_behind(fresh: &mut Fresh, node: Node, base: u64)
    requires room { length fresh.old < MAX_FRESH_NODES }
    requires order { Ascends fresh.old }
    requires few { node.index ≤ MAX_NODE }
    ensures order { Ascends fresh.new }
    ensures behind { (depth offset : ℕ) → node.index ≡ number depth offset → base < end_block_of depth offset
        → IsPutNode node fresh.old fresh.new }
    ensures before { (depth offset : ℕ) → node.index ≡ number depth offset → end_block_of depth offset ≤ base
        → fresh.new ≡ fresh.old }
    ensures few { length fresh.new ≤ length fresh.old + 1 }
{
    let (_, last) = spans(node.index);
    if last / 2 >= base {
        put(fresh, node);
    }
}
