//! The way from a block to the root over it.
ghost use Rattle.std.specs.Prelude.{◌≡◌, ◌≤◌, ◌<◌, ◌+◌, ◌-◌, ◌*◌, ◌^◌, ℕ, List, length};
ghost use Rattle.std.specs.List.{AllByRecursion};
ghost use Rattle.merkle_nodes.specs.Fold.{fold, join, fold_from, offset_above};
ghost use Rattle.merkle_nodes.specs.Roots.{node_of};
ghost use Rattle.merkle_nodes.specs.Bundle.{TwigFits};

use crate::node::{Node, Trail, Twig, leaf_twig, parent_twig};
use flat_tree::{MAX_CORE_BYTES, MAX_COUNT, MAX_DEPTH, MAX_SIBLINGS};

/// The top of the path of a block at an index, whose siblings are these, from the leaf upward.
pub fn fold_path(index: u64, block: &[u8], trail: &Trail) -> Node
    requires within { index < MAX_COUNT }
    requires block { length block.now ≤ MAX_CORE_BYTES }
    requires trail { AllByRecursion TwigFits trail.now }
    ensures { result ≡ node_of (length trail.now) (offset_above index trail.now)
        (fold index block.now trail.now) }
{
    let (offset, twig) = fold_twigs(index, leaf_twig(block), trail.as_slice());
    twig.numbered(flat_tree::index(trail.len() as u32, offset))
}

/// The offset and the top of the path of a node at an offset, whose siblings are these, lowest first.
fn fold_twigs(offset: u64, node: Twig, trail: &[Twig]) -> (u64, Twig)
    requires within { offset < MAX_COUNT }
    requires size { node.size ≤ MAX_CORE_BYTES }
    requires few { length trail.now ≤ MAX_SIBLINGS }
    requires trail { AllByRecursion TwigFits trail.now }
    ensures offset { result.0 ≡ offset_above offset trail.now }
    ensures fits { result.0 ≤ 2 ^ (MAX_DEPTH - length trail.now) }
    ensures top { result.1 ≡ fold_from offset node trail.now }
{
    let mut above = offset;
    let mut top = node;
    for sibling in trail {
        top = join_twigs(above, &top, sibling);
        above /= 2;
    }
    (above, top)
}

/// The parent of the node at an offset and its sibling.
fn join_twigs(offset: u64, node: &Twig, sibling: &Twig) -> Twig
    requires { node.now.size + sibling.now.size < 2 ^ 63 }
    ensures { result ≡ join offset node.now sibling.now }
{
    if offset % 2 == 1 {
        parent_twig(sibling, node)
    } else {
        parent_twig(node, sibling)
    }
}
