//! The path of an offered block: where it meets the nodes that are stored, and what it folds to there.
ghost use Rattle.std.specs.Prelude.{◌≡◌, ℕ, ◌+◌, ◌*◌, ◌/◌, ◌^◌, ◌<◌, ◌≤◌, IsTrue, IfOk, IfSome, length};
ghost use Rattle.flat_tree.specs.Subtrees.{number};
ghost use Rattle.flat_tree.specs.Roots.{depth_over};
ghost use Rattle.flat_tree.specs.declared.limits.TheConstants.{MAX_FRESH_NODES, MAX_BLOCK_BYTES, MAX_NODE};
ghost use Rattle.std.specs.List.{AllByRecursion};
ghost use Rattle.merkle_nodes.specs.Bundle.{TwigFits};
ghost use Rattle.merkle_nodes.specs.Fold.{join};
ghost use Rattle.merkle_nodes.specs.Tree.{leaf_of};
ghost use Rattle.merkle_nodes.specs.Roots.{node_of, twig_of};
ghost use Rattle.merkle_nodes.specs.Joined.{Values, or_value};
ghost use Rattle.node_set.specs.Contents.{held};
ghost use Rattle.node_set.specs.Nodes.{with_nodes};
ghost use Rattle.node_set.specs.Paths.{folded_at, path_values, sibling_of};
ghost use Rattle.node_set.specs.Views.{KeepsContent, HasViewCause, GivesNode};
ghost use Rattle.node_set.specs.Walks.{IsInTree};
ghost use Rattle.proof_check.specs.Admission.{Ascends};
ghost use Rattle.proof_check.specs.Meets.{FoundBelow, IsValue};

use crate::fresh::put;
use flat_tree::sibling;
use merkle_nodes::{Node, Twig, leaf, parent};
use node_set::{CoreFault, Fresh, View};

/// A stored node of a block's path, so many levels above the leaf.
#[derive(Clone, Copy, Debug, PartialEq, Eq)]
pub struct Met {
    pub level: u32,
    pub node: Node,
}

/// The first stored node of a block's path below so many levels. Each node up to it is read once.
pub(crate) fn met_below<V: View>(
    view: &mut V,
    index: u64,
    levels: u32,
) -> Result<Option<Met>, CoreFault>
    requires fits { IsInTree index levels }
    ensures found { let m = (V.view view.old).content in
        IfOk result (FoundBelow m.length (held m) index levels) }
    ensures few { IfOk result (λ found. IfSome found (λ met. met.level < levels)) }
    ensures value { IsTrue (V.view view.old).stands
        → IfOk result (λ found. IfSome found (IsValue (V.view view.old).content.node index)) }
    ensures keeps { KeepsContent (V.view view.old) (V.view view.new) }
    ensures cause { HasViewCause (V.view view.old) (V.view view.new) result }
{
    for level in 0..levels {
        match node_over(view, index, level) {
            Ok(Some(node)) => return Ok(Some(Met { level, node })),
            Ok(None) => {}
            Err(fault) => return Err(fault),
        }
    }
    Ok(None)
}

// The node of a block's path so many levels above its leaf, where it is to be stored.
fn node_over<V: View>(view: &mut V, index: u64, level: u32) -> Result<Option<Node>, CoreFault>
    requires fits { IsInTree index level }
    ensures gives { IfOk result (GivesNode (V.view view.old) (number level (index / 2 ^ level))) }
    ensures keeps { KeepsContent (V.view view.old) (V.view view.new) }
    ensures cause { HasViewCause (V.view view.old) (V.view view.new) result }
{
    view.node(flat_tree::index(level, index >> level))
}

/// Folds a block with the siblings of its path so many levels up, and puts the nodes of the path and its siblings below
/// that level in. Each node is hashed once.
pub(crate) fn fold_up(
    index: u64,
    block: &[u8],
    trail: &[Twig],
    levels: u32,
    fresh: &mut Fresh,
) -> Node
    requires fits { IsInTree index levels }
    requires block { length block.now ≤ MAX_BLOCK_BYTES }
    requires trail { levels ≤ length trail.now }
    requires twigs { AllByRecursion TwigFits trail.now }
    requires order { Ascends fresh.old }
    requires room { length fresh.old + 2 * levels ≤ MAX_FRESH_NODES }
    ensures node { result
        ≡ node_of levels (index / 2 ^ levels) (folded_at index (leaf_of block.now) trail.now levels) }
    ensures puts { (value : Values) (depth offset : ℕ) → with_nodes value fresh.new depth offset
        ≡ or_value (path_values index (leaf_of block.now) trail.now levels depth offset)
        (with_nodes value fresh.old depth offset) }
    ensures order { Ascends fresh.new }
    ensures few { length fresh.new ≤ length fresh.old + 2 * levels }
{
    let mut node = leaf(index, block);
    for level in 0..levels {
        let beside = trail[level as usize].numbered(sibling(node.index));
        put(fresh, node);
        put(fresh, beside);
        node = parent_over(index >> level, &node, &beside);
    }
    node
}

// The parent of the node at an offset and its sibling.
fn parent_over(offset: u64, node: &Node, beside: &Node) -> Node
    requires within { node.now.index ≤ MAX_NODE }
    requires near { beside.now.index ≤ MAX_NODE }
    requires siblings { (depth : ℕ) × (node.now.index ≡ number depth offset)
        × (beside.now.index ≡ number depth (sibling_of offset)) }
    requires sum { node.now.size + beside.now.size < 2 ^ 63 }
    ensures index { (depth : ℕ) → node.now.index ≡ number depth offset
        → result.index ≡ number (depth + 1) (offset / 2) }
    ensures twig { twig_of result ≡ join offset (twig_of node.now) (twig_of beside.now) }
{
    if offset % 2 == 1 {
        parent(beside, node)
    } else {
        parent(node, beside)
    }
}
