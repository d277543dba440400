//! How a part of a proof meets the nodes that a view stores.
ghost use Rattle.std.specs.Prelude.{◌≡◌, ℕ, ◌+◌, ◌*◌, ◌/◌, ◌^◌, ◌<◌, ◌≤◌, Some, None, IsTrue, IfOk, length};
ghost use Rattle.flat_tree.specs.Subtrees.{number};
ghost use Rattle.flat_tree.specs.declared.limits.TheConstants.{MAX_SIBLINGS, MAX_NODE};
ghost use Rattle.merkle_nodes.specs.Fold.{join};
ghost use Rattle.merkle_nodes.specs.Roots.{twig_of};
ghost use Rattle.node_set.specs.declared.fault.Refusal.TheVariants.{Uncovered};
ghost use Rattle.node_set.specs.Contents.{held};
ghost use Rattle.node_set.specs.Paths.{folded_at, sibling_of};
ghost use Rattle.node_set.specs.Same.{is_same};
ghost use Rattle.node_set.specs.Whole.{IsClosed};
ghost use Rattle.log_view.specs.Views.{Looks};
ghost use Rattle.proof_check.specs.Parts.{number_above, differs_at};
ghost use Rattle.proof_judge.specs.Meetings.{part_of, IsPartOf, IsFirstAbove, way_of, MeetsGiven, Meets};

use flat_tree::{MAX_SIBLINGS, RoomList, root_of_block, sibling, spans};
use log_view::View;
use merkle_nodes::{Node, Twig, parent};
use node_set::{CoreFault, Refusal};

/// The most nodes of a path, each with its sibling.
pub const MAX_WAY_NODES: usize = 2 * MAX_SIBLINGS;

/// Nodes of a path, each before its sibling, from below upward.
pub type Way = RoomList<Node, MAX_WAY_NODES>;

/// A part of a proof as a path: a node by its depth and offset, and siblings of its path, lowest first.
#[derive(Drop)]
pub struct PartPath<'p> {
    pub depth: u32,
    pub offset: u64,
    pub twig: Twig,
    pub trail: &'p [Twig],
}

/// How a part meets the first stored node of its path.
#[derive(Clone, Copy, Debug, PartialEq, Eq)]
pub struct Meeting {
    /// The levels from the part's node up to that one.
    pub levels: u32,
    /// `HashDiffers` where the siblings lead to it and fold to another one.
    pub differs: Option<Refusal>,
    /// `Uncovered` where they end below it.
    pub uncovered: Option<Refusal>,
}

/// Compares a part with the first stored node of its path, which alone is read, and only where the siblings lead to it.
/// The nodes of the path below, each with its sibling, are left in `way`. An `Err` is the view's.
pub fn meet<V: View>(view: &mut V, part: &PartPath<'_>, way: &mut Way) -> Result<Meeting, CoreFault>
    requires part { IsPartOf (V.view view.old).source.content.length (part_of part.now) }
    ensures content { let s = (V.view view.old).source in
        IsTrue s.shows → IsClosed s.content.length s.content.block s.content.node
        → IfOk result (Meets s.content (part_of part.now)) }

    // of any view, also of one that doesn't give what is its content's
    ensures given { IfOk result (λ meeting.
        MeetsGiven (V.view view.old).source (part_of part.now) meeting way.new) }
    ensures looks { Looks (V.view view.old) (V.view view.new) result }
{
    let levels = levels_up(view, part);
    let count = part.trail.len() as u32;
    if count < levels {
        return Ok(uncovered(levels, number_above(part, count)));
    }
    let have = fold_up(part, levels, way);
    match view.node(number_above(part, levels)) {
        Ok(stored) => Ok(compared(levels, &stored, &have)),
        Err(fault) => Err(fault),
    }
}

// The siblings end at this node, below the first stored one.
fn uncovered(levels: u32, index: u64) -> Meeting
    ensures { result ≡ record { levels = levels; differs = None; uncovered = Some (Uncovered index) } }
{
    Meeting {
        levels,
        differs: None,
        uncovered: Some(Refusal::Uncovered { index }),
    }
}

// The siblings lead to a stored node, and fold to this twig.
fn compared(levels: u32, stored: &Node, have: &Twig) -> Meeting
    ensures { result ≡ record {
      levels = levels;
      differs = differs_at stored.now.index have.now (Some (twig_of stored.now));
      uncovered = None;
    } }
{
    let want = stored.twig();
    let mut differs = None;
    if !is_same(&want, have) {
        differs = Some(Refusal::HashDiffers {
            index: stored.index,
            want,
            have: *have,
        });
    }
    Meeting {
        levels,
        differs,
        uncovered: None,
    }
}

// Whether two twigs have one size and one hash.
fn is_same(one: &Twig, other: &Twig) -> bool
    ensures { result ≡ is_same one.now other.now }
{
    one.size == other.size && one.hash == other.hash
}

// The levels from a part's node up to the first that is stored, the root over it at the latest. No node is read.
fn levels_up<V: View>(view: &V, part: &PartPath<'_>) -> u32
    requires part { IsPartOf (V.view view.now).source.content.length (part_of part.now) }
    ensures first { let m = (V.view view.now).source.content in
        IsFirstAbove m.length (held m) (part_of part.now) result }
    ensures few { part.now.depth + result ≤ MAX_SIBLINGS }
{
    let (first, _) = spans(number_above(part, 0));
    let (_, top) = root_of_block(view.head().length, first / 2);
    let levels = top - part.depth;
    for level in 0..levels {
        if view.is_stored(number_above(part, level)) {
            return level;
        }
    }
    levels
}

// The number of the node so many levels above a part's.
fn number_above(part: &PartPath<'_>, level: u32) -> u64
    requires part { (n : ℕ) × IsPartOf n (part_of part.now) }
    requires few { part.now.depth + level ≤ MAX_SIBLINGS }
    ensures number { result ≡ number_above (part_of part.now) level }
    ensures fits { result ≤ MAX_NODE }
{
    flat_tree::index(part.depth + level, part.offset >> level)
}

// Folds a part's node with so many of its siblings. The nodes below, each with its sibling, are put into `way` alone.
fn fold_up(part: &PartPath<'_>, levels: u32, way: &mut Way) -> Twig
    requires part { (n : ℕ) × IsPartOf n (part_of part.now) }
    requires few { part.now.depth + levels ≤ MAX_SIBLINGS }
    requires trail { levels ≤ length part.now.trail.now }
    ensures twig { result ≡ folded_at part.now.offset part.now.twig part.now.trail.now levels }
    ensures way { way.new ≡ way_of (part_of part.now) levels }
{
    way.clear();
    let mut node = part.twig.numbered(number_above(part, 0));
    for level in 0..levels {
        let beside = part.trail[level as usize].numbered(sibling(node.index));
        way.push(node);
        way.push(beside);
        node = parent_over(part.offset >> level, &node, &beside);
    }
    node.twig()
}

// The parent of the node at an offset and its sibling.
fn parent_over(offset: u64, node: &Node, beside: &Node) -> Node
    requires within { node.now.index ≤ MAX_NODE }
    requires near { beside.now.index ≤ MAX_NODE }
    requires siblings { (depth : ℕ) × (node.now.index ≡ number depth offset)
        × (beside.now.index ≡ number depth (sibling_of offset)) }
    requires sum { node.now.size + beside.now.size < 2 ^ 63 }
    ensures index { (depth : ℕ) → node.now.index ≡ number depth offset
        → result.index ≡ number (depth + 1) (offset / 2) }
    ensures twig { twig_of result ≡ join offset (twig_of node.now) (twig_of beside.now) }
    ensures size { result.size ≡ node.now.size + beside.now.size }
{
    if offset % 2 == 1 {
        parent(beside, node)
    } else {
        parent(node, beside)
    }
}
