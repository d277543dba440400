//! Reads of a block with its path up to a root, which is recomputed and compared.
ghost use Rattle.std.specs.Prelude.{◌≡◌, ◌≢◌, ◌+◌, ◌/◌, ◌*◌, ◌^◌, ◌<◌, ◌≤◌, ◌⊎◌, ℕ, length, take, Some, IfOk, IfErr, OnOk, IsTrue, true, false, []};
ghost use Rattle.std.specs.List.{AllByRecursion};
ghost use Rattle.flat_tree.specs.Subtrees.{number, end_block_of};
ghost use Rattle.flat_tree.specs.declared.limits.TheConstants.{MAX_BLOCKS, MAX_BLOCK_BYTES, MAX_CORE_BYTES, MAX_NODE};
ghost use Rattle.merkle_nodes.specs.Roots.{twig_of, node_of, HasShape};
ghost use Rattle.merkle_nodes.specs.Fold.{Proves, fold, fold_from, join};
ghost use Rattle.merkle_nodes.specs.Bundle.{TwigFits};
ghost use Rattle.node_set.specs.declared.fault.CoreFault.TheVariants.{Unavailable};
ghost use Rattle.node_set.specs.declared.fault.CoreFault.{CoreFault as Fault};
ghost use Rattle.node_set.specs.Contents.{held, roots};
ghost use Rattle.node_set.specs.Paths.{sibling_of};
ghost use Rattle.core_snap.specs.Causes.{read_refusal, ReadFits};
ghost use Rattle.log_view.specs.Views.{Keeps, Looks, Reports, IsStored, GivesNode, GivesBlock};
ghost use Rattle.snap_reads.specs.Reads.{IsPathUp, GivesTrail, GivesLeaf, GivesRead, LeafDiffers, RootDiffers};
ghost use Rattle.snap_reads.specs.Reads.{IsDamage, LacksRoot, LacksRootOver, HasRoot, HasRootOver};

use core_snap::{ReadAt, Snapshot};
use flat_tree::{root_of_block, sibling};
use log_view::View;
use merkle_nodes::{Node, Trail, Twig, leaf, parent};
use node_set::{CoreFault, Place};

/// Reads the block of an index to the front of `out`, with its siblings up to the root over it. The block's leaf is
/// compared with the view's, and what both fold to with the root; the nodes between aren't compared. Each node is read
/// once at most. `OutOfRange` where the index isn't below the length, `Unavailable` where the block isn't held, else what
/// the view reports, or `Damaged`: at the leaf where that isn't the block's, or at the root where the fold isn't it.
pub fn read_held<V: View>(view: &mut V, index: u64, out: &mut [u8]) -> Result<ReadAt, CoreFault>
    requires capacity { MAX_BLOCK_BYTES ≤ length out.old }
    ensures refused { let m = (V.view view.old).source.content in (fault : Fault)
        → read_refusal m.length (held m) index ≡ Some fault → result ≡ Err fault }
    ensures proved { let m = (V.view view.old).source.content in
        IfOk result (λ read. Proves m.length (roots m) index (take read.len out.new) read.trail) }
    ensures gives { IfOk result (λ read.
        GivesRead (V.view view.old).source index (length read.trail) out.new read) }
    ensures fits { IfOk result ReadFits }
    ensures cause { let v = V.view view.old in let m = v.source.content in IfErr result (λ fault.
        (read_refusal m.length (held m) index ≡ Some fault) ⊎ (Reports v (V.view view.new) fault
        ⊎ IsDamage v.source (roots m) m.length index out.new fault)) }
    ensures keeps { Keeps (V.view view.old) (V.view view.new) }
    ensures buffer { length out.new ≡ length out.old }
{
    let length = view.head().length;
    if length <= index {
        return Err(CoreFault::OutOfRange { end: length });
    }
    if !view.held(index) {
        return Err(CoreFault::Unavailable { index });
    }
    let (place, levels) = root_of_block(length, index);
    let root = view.roots().at(place);
    read_up(view, index, levels, &root, out)
}

/// Reads as `read_held` does, under a snapshot: up to its root over the index. `OutOfRange` where the index isn't below
/// the snapshot's length; `Unavailable` where the view doesn't hold the block, or its node at that root is absent or
/// differs; the other faults as there.
pub fn read_snap<V: View>(
    view: &mut V,
    snap: &Snapshot,
    index: u64,
    out: &mut [u8],
) -> Result<ReadAt, CoreFault>
    requires shape { HasShape snap.now.roots snap.now.length }
    requires few { snap.now.length ≤ MAX_BLOCKS }
    requires capacity { MAX_BLOCK_BYTES ≤ length out.old }
    ensures refused { (fault : Fault)
        → read_refusal snap.now.length (held (V.view view.old).source.content) index ≡ Some fault
        → result ≡ Err fault }
    ensures proved { IfOk result (λ read.
        Proves snap.now.length snap.now.roots index (take read.len out.new) read.trail) }
    ensures root { OnOk result
        (HasRootOver (V.view view.old).source snap.now.roots snap.now.length index) }
    ensures gives { IfOk result (λ read.
        GivesRead (V.view view.old).source index (length read.trail) out.new read) }
    ensures fits { IfOk result ReadFits }
    ensures cause { let v = V.view view.old in IfErr result (λ fault.
        (read_refusal snap.now.length (held v.source.content) index ≡ Some fault)
        ⊎ (((fault ≡ Unavailable index) × LacksRootOver v.source snap.now.roots snap.now.length index)
        ⊎ (Reports v (V.view view.new) fault
        ⊎ (HasRootOver v.source snap.now.roots snap.now.length index
        × IsDamage v.source snap.now.roots snap.now.length index out.new fault)))) }
    ensures keeps { Keeps (V.view view.old) (V.view view.new) }
    ensures buffer { length out.new ≡ length out.old }
{
    if snap.length <= index {
        return Err(CoreFault::OutOfRange { end: snap.length });
    }
    if !view.held(index) {
        return Err(CoreFault::Unavailable { index });
    }
    // with the head come the limits that every view keeps
    let _ = view.head();
    let (place, levels) = root_of_block(snap.length, index);
    let root = snap.roots.at(place);
    match has_root(view, index, levels, &root) {
        Ok(true) => read_up(view, index, levels, &root, out),
        Ok(false) => Err(CoreFault::Unavailable { index }),
        Err(fault) => Err(fault),
    }
}

// Whether a view has a node over a block as it is here.
fn has_root<V: View>(view: &mut V, index: u64, levels: u32, root: &Node) -> Result<bool, CoreFault>
    requires number { root.now.index ≡ number levels (index / 2 ^ levels) }
    ensures within { IfOk result (λ has. IsTrue has
        → end_block_of levels (index / 2 ^ levels) ≤ (V.view view.old).source.content.length) }
    ensures has { IfOk result (λ has. IsTrue has → HasRoot (V.view view.old).source root.now) }
    ensures lacks { IfOk result (λ has. has ≡ false → LacksRoot (V.view view.old).source root.now) }
    ensures looks { Looks (V.view view.old) (V.view view.new) result }
{
    if !view.is_stored(root.index) {
        return Ok(false);
    }
    match view.node(root.index) {
        Ok(node) => Ok(node.twig() == root.twig()),
        Err(fault) => Err(fault),
    }
}

// Reads a held block with its siblings up to a root over it that the view has.
fn read_up<V: View>(
    view: &mut V,
    index: u64,
    levels: u32,
    root: &Node,
    out: &mut [u8],
) -> Result<ReadAt, CoreFault>
    requires path { IsPathUp (V.view view.old).source index levels }
    requires capacity { MAX_BLOCK_BYTES ≤ length out.old }
    ensures path { IfOk result (λ read. length read.trail ≡ levels) }
    ensures folds { IfOk result (λ read. fold index (take read.len out.new) read.trail ≡ twig_of root.now) }
    ensures gives { IfOk result (GivesRead (V.view view.old).source index levels out.new) }
    ensures fits { IfOk result ReadFits }
    ensures cause { let v = V.view view.old in IfErr result (λ fault. Reports v (V.view view.new) fault
        ⊎ (LeafDiffers v.source index out.new fault
        ⊎ RootDiffers v.source root.now levels index out.new fault)) }
    ensures keeps { Keeps (V.view view.old) (V.view view.new) }
    ensures buffer { length out.new ≡ length out.old }
{
    let (len, leaf) = match read_leaf(view, index, levels, out) {
        Ok(read) => read,
        Err(fault) => return Err(fault),
    };
    let mut trail = Trail::new(Twig::BLANK);
    let top = match fold_up(view, index, levels, &leaf, &mut trail) {
        Ok(top) => top,
        Err(fault) => return Err(fault),
    };
    if top.twig() != root.twig() {
        return Err(CoreFault::Damaged {
            place: Place::Node { index: root.index },
            want: root.hash,
            have: top.hash,
        });
    }
    Ok(ReadAt { len, trail })
}

// Reads a held block, and gives its number of bytes and the view's leaf, which is the block's.
fn read_leaf<V: View>(
    view: &mut V,
    index: u64,
    levels: u32,
    out: &mut [u8],
) -> Result<(usize, Node), CoreFault>
    requires path { IsPathUp (V.view view.old).source index levels }
    requires capacity { MAX_BLOCK_BYTES ≤ length out.old }
    ensures leaf { IfOk result (λ read. GivesLeaf (V.view view.old).source index out.new read.0 read.1) }
    ensures cause { let v = V.view view.old in IfErr result (λ fault. Reports v (V.view view.new) fault
        ⊎ LeafDiffers v.source index out.new fault) }
    ensures keeps { Keeps (V.view view.old) (V.view view.new) }
    ensures buffer { length out.new ≡ length out.old }
{
    let len = match view.block(index, out) {
        Ok(len) => len,
        Err(fault) => return Err(fault),
    };
    let own = leaf(index, &out[..len]);
    let kept = match view.node(flat_tree::index(0, index)) {
        Ok(kept) => kept,
        Err(fault) => return Err(fault),
    };
    if kept.twig() != own.twig() {
        return Err(CoreFault::Damaged {
            place: Place::Leaf { index },
            want: kept.hash,
            have: own.hash,
        });
    }
    Ok((len, kept))
}

// Reads the siblings of a held block's path, from its leaf upward, and gives what they fold to.
fn fold_up<V: View>(
    view: &mut V,
    index: u64,
    levels: u32,
    leaf: &Node,
    trail: &mut Trail,
) -> Result<Node, CoreFault>
    requires path { IsPathUp (V.view view.old).source index levels }
    requires number { leaf.now.index ≡ number 0 index }
    requires size { leaf.now.size ≤ MAX_CORE_BYTES }
    requires empty { trail.old ≡ [] }
    ensures path { OnOk result (length trail.new ≡ levels) }
    ensures gives { OnOk result (GivesTrail (V.view view.old).source index levels trail.new) }
    ensures twigs { OnOk result (AllByRecursion TwigFits trail.new) }
    ensures top { IfOk result (λ top. twig_of top ≡ fold_from index (twig_of leaf.now) trail.new) }
    ensures looks { Looks (V.view view.old) (V.view view.new) result }
{
    let mut top = *leaf;
    for level in 0..levels {
        match sibling_over(view, index, levels, level) {
            Ok(sibling) => {
                trail.push(sibling.twig());
                top = join_nodes(index >> level, &top, &sibling);
            }
            Err(fault) => return Err(fault),
        }
    }
    Ok(top)
}

// The sibling of the node of a held block's path so many levels above its leaf.
fn sibling_over<V: View>(
    view: &mut V,
    index: u64,
    levels: u32,
    level: u32,
) -> Result<Node, CoreFault>
    requires path { IsPathUp (V.view view.old).source index levels }
    requires below { level < levels }
    ensures gives { IfOk result
        (GivesNode (V.view view.old).source (number level (sibling_of (index / 2 ^ level)))) }
    ensures low { IfOk result (λ node. node.index ≤ MAX_NODE) }
    ensures fits { IfOk result (λ node. TwigFits (twig_of node)) }
    ensures looks { Looks (V.view view.old) (V.view view.new) result }
{
    let own = flat_tree::index(level, index >> level);
    view.node(sibling(own))
}

// The parent of the node at an offset and its sibling.
fn join_nodes(offset: u64, node: &Node, sibling: &Node) -> Node
    requires within { node.now.index ≤ MAX_NODE }
    requires beside { sibling.now.index ≤ MAX_NODE }
    requires siblings { (depth : ℕ) × (node.now.index ≡ number depth offset)
        × (sibling.now.index ≡ number depth (sibling_of offset)) }
    requires sum { node.now.size + sibling.now.size < 2 ^ 63 }
    ensures number { (depth : ℕ) → node.now.index ≡ number depth offset
        → sibling.now.index ≡ number depth (sibling_of offset)
        → result.index ≡ number (depth + 1) (offset / 2) }
    ensures twig { twig_of result ≡ join offset (twig_of node.now) (twig_of sibling.now) }
{
    if offset % 2 == 1 {
        parent(sibling, node)
    } else {
        parent(node, sibling)
    }
}
