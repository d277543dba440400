//! Reads of a block with its way up to a root, which is recomputed and compared.
ghost use Rattle.std.specs.Prelude.{◌≡◌, ◌+◌, ◌/◌, ◌*◌, ◌^◌, ◌<◌, ◌≤◌, ◌⊎◌, ℕ, length, take, Some, Result, Ok, Err, IfOk, IfErr, OnOk, IsTrue, true, []};
ghost use Rattle.std.specs.List.{AllByRecursion};
ghost use Rattle.flat_tree.specs.Subtrees.{number, end_block_of};
ghost use Rattle.flat_tree.specs.declared.limits.TheConstants.{MAX_BLOCKS, MAX_BLOCK_BYTES, MAX_CORE_BYTES, MAX_NODE};
ghost use Rattle.merkle_nodes.specs.Tree.{leaf_of};
ghost use Rattle.merkle_nodes.specs.Roots.{twig_of, node_of, HasShape};
ghost use Rattle.merkle_nodes.specs.Fold.{Proves, fold, fold_from, join};
ghost use Rattle.merkle_nodes.specs.Bundle.{TwigFits};
ghost use Rattle.node_set.specs.declared.fault.CoreFault.TheVariants.{Unavailable};
ghost use Rattle.node_set.specs.declared.fault.CoreFault.{CoreFault as Fault};
ghost use Rattle.node_set.specs.Contents.{held, roots, twig_at};
ghost use Rattle.node_set.specs.Same.{is_stored_as};
ghost use Rattle.node_set.specs.Paths.{trail_at, sibling_of};
ghost use Rattle.node_set.specs.Views.{HasViewCause, TellsFault};
ghost use Rattle.node_set.specs.Walks.{KeepsView};
ghost use Rattle.core_snap.specs.Reads.{snap_read, get_of, answer_if, read_over, read_of};
ghost use Rattle.core_snap.specs.Causes.{read_refusal, ReadFits, IsDamage, IsDamageUnder, FailsBy, IsStoreFault, ReadsAs, ReadsKept};
ghost use Rattle.core_snap.specs.Ways.{IsStoredOver, IsWayUp, IsHonestTop};

use crate::snapshot::{ReadAt, Snapshot};
use flat_tree::{root_of_block, sibling};
use merkle_nodes::{Node, Trail, Twig, leaf, parent};
use node_set::{CoreFault, Place, View};

/// Reads the block of an index to the front of `out`, with its siblings up to the root over it. The block's leaf is
/// compared with the view's, and what both fold to with the root; the nodes between aren't compared. Each node is read
/// once at most. `OutOfRange` where the index isn't below the length, `Unavailable` where the block isn't held, else what
/// the view answers, or `Damaged`: at the leaf where that isn't the block's, or at the root where the fold isn't it.
pub fn read_held<V: View>(view: &mut V, index: u64, out: &mut [u8]) -> Result<ReadAt, CoreFault>
    requires room { MAX_BLOCK_BYTES ≤ length out.old }
    ensures refused { let m = (V.view view.old).content in (fault : Fault)
        → read_refusal m.length (held m) index ≡ Some fault → result ≡ Err fault }
    ensures proved { let m = (V.view view.old).content in
        IfOk result (λ read. Proves m.length (roots m) index (take read.len out.new) read.trail) }
    ensures fits { IfOk result ReadFits }
    ensures content { let v = V.view view.old in IsTrue v.stands
        → ReadsAs v (V.view view.new) out.new (get_of v.content index) result }
    ensures kept { let v = V.view view.old in IsTrue v.shows
        → ReadsKept v (V.view view.new) out.new (read_of v.content index) result }
    ensures cause { let m = (V.view view.old).content in
        IfErr result (λ fault. FailsBy (V.view view.old) (V.view view.new)
        (read_refusal m.length (held m) index ≡ Some fault)
        (IsDamageUnder (roots m) m.length index out.new fault) fault) }
    ensures keeps { KeepsView (V.view view.old) (V.view view.new) }
    ensures place { length out.new ≡ length out.old }
{
    let length = view.head().length;
    if length <= index {
        return Err(CoreFault::OutOfRange { end: length });
    }
    if !view.held(index) {
        return Err(CoreFault::Unavailable { index });
    }
    let (place, levels) = root_of_block(length, index);
    let root = view.roots().at(place);
    read_up(view, index, levels, &root, out)
}

/// The same under a snapshot: up to its root over the index. `OutOfRange` where the index isn't below the snapshot's
/// length; `Unavailable` where the view doesn't hold the block, or its node at that root is absent or differs; the other
/// faults as there.
pub fn read_snap<V: View>(
    view: &mut V,
    snap: &Snapshot,
    index: u64,
    out: &mut [u8],
) -> Result<ReadAt, CoreFault>
    requires shape { HasShape snap.now.roots snap.now.length }
    requires few { snap.now.length ≤ MAX_BLOCKS }
    requires room { MAX_BLOCK_BYTES ≤ length out.old }
    ensures refused { (fault : Fault)
        → read_refusal snap.now.length (held (V.view view.old).content) index ≡ Some fault
        → result ≡ Err fault }
    ensures proved { IfOk result (λ read.
        Proves snap.now.length snap.now.roots index (take read.len out.new) read.trail) }
    ensures fits { IfOk result ReadFits }
    ensures content { let v = V.view view.old in IsTrue v.stands
        → ReadsAs v (V.view view.new) out.new (snap_read v.content snap.now index) result }
    ensures cause { IfErr result (λ fault. FailsBy (V.view view.old) (V.view view.new)
        ((read_refusal snap.now.length (held (V.view view.old).content) index ≡ Some fault)
        ⊎ ((index < snap.now.length) × (fault ≡ Unavailable index)))
        (IsDamageUnder snap.now.roots snap.now.length index out.new fault) fault) }
    ensures keeps { KeepsView (V.view view.old) (V.view view.new) }
    ensures place { length out.new ≡ length out.old }
{
    if snap.length <= index {
        return Err(CoreFault::OutOfRange { end: snap.length });
    }
    if !view.held(index) {
        return Err(CoreFault::Unavailable { index });
    }
    // with the head comes that the content of a view that stands is sound
    let _ = view.head();
    let (place, levels) = root_of_block(snap.length, index);
    let root = snap.roots.at(place);
    match has_root(view, index, levels, &root) {
        Ok(true) => read_up(view, index, levels, &root, out),
        Ok(false) => Err(CoreFault::Unavailable { index }),
        Err(fault) => Err(fault),
    }
}

// Whether a node over a block is stored as it is here.
fn has_root<V: View>(view: &mut V, index: u64, levels: u32, root: &Node) -> Result<bool, CoreFault>
    requires number { root.now.index ≡ number levels (index / 2 ^ levels) }
    ensures within { IfOk result (λ has. IsTrue has
        → end_block_of levels (index / 2 ^ levels) ≤ (V.view view.old).content.length) }
    ensures stored { let v = V.view view.old in IsTrue v.stands → IfOk result (λ has.
        has ≡ is_stored_as (v.content.node levels (index / 2 ^ levels)) (twig_of root.now)) }
    ensures shown { let v = V.view view.old in IsTrue v.shows → IfOk result (λ has. IsTrue has
        → twig_at v.content.node levels (index / 2 ^ levels) ≡ twig_of root.now) }
    ensures cause { HasViewCause (V.view view.old) (V.view view.new) result }
    ensures keeps { KeepsView (V.view view.old) (V.view view.new) }
{
    match view.node(root.index) {
        Ok(Some(node)) => Ok(node.twig() == root.twig()),
        Ok(None) => Ok(false),
        Err(fault) => Err(fault),
    }
}

// Reads a held block with its siblings up to a root over it that the view has.
fn read_up<V: View>(
    view: &mut V,
    index: u64,
    levels: u32,
    root: &Node,
    out: &mut [u8],
) -> Result<ReadAt, CoreFault>
    requires way { IsWayUp (V.view view.old) index levels }
    requires root { IsStoredOver (V.view view.old) index levels root.now }
    requires room { MAX_BLOCK_BYTES ≤ length out.old }
    ensures path { IfOk result (λ read. length read.trail ≡ levels) }
    ensures folds { IfOk result (λ read. fold index (take read.len out.new) read.trail ≡ twig_of root.now) }
    ensures fits { IfOk result ReadFits }
    ensures content { let v = V.view view.old in IsTrue v.stands
        → ReadsAs v (V.view view.new) out.new (answer_if true (v.content.block index)
        (trail_at v.content.node 0 index levels) index) result }
    ensures kept { let v = V.view view.old in IsTrue v.shows
        → ReadsKept v (V.view view.new) out.new (read_over v.content root.now levels index) result }
    ensures cause { IfErr result (λ fault. TellsFault (V.view view.old) (V.view view.new) fault
        ⊎ IsDamage root.now levels index out.new fault) }
    ensures keeps { KeepsView (V.view view.old) (V.view view.new) }
    ensures place { length out.new ≡ length out.old }
{
    let (len, leaf) = match read_leaf(view, index, levels, root, out) {
        Ok(read) => read,
        Err(fault) => return Err(fault),
    };
    let mut trail = Trail::new(Twig::BLANK);
    let top = match fold_up(view, index, levels, &leaf, &mut trail) {
        Ok(top) => top,
        Err(fault) => return Err(fault),
    };
    if top.twig() != root.twig() {
        return Err(CoreFault::Damaged {
            place: Place::Node { index: root.index },
            want: root.hash,
            have: top.hash,
        });
    }
    Ok(ReadAt { len, trail })
}

// Reads a held block, and gives its number of bytes and the view's leaf, which is the block's.
fn read_leaf<V: View>(
    view: &mut V,
    index: u64,
    levels: u32,
    root: &Node,
    out: &mut [u8],
) -> Result<(usize, Node), CoreFault>
    requires way { IsWayUp (V.view view.old) index levels }
    requires root { IsStoredOver (V.view view.old) index levels root.now }
    requires room { MAX_BLOCK_BYTES ≤ length out.old }
    ensures leaf { IfOk result (λ read. read.1 ≡ node_of 0 index (leaf_of (take read.0 out.new))) }
    ensures size { IfOk result (λ read. read.0 ≤ MAX_BLOCK_BYTES) }
    ensures content { let v = V.view view.old in IsTrue v.stands
        → IfOk result (λ read. v.content.block index ≡ Some (take read.0 out.new)) }
    ensures shown { let v = V.view view.old in IsTrue v.shows → IfOk result (λ read.
        (v.content.block index ≡ Some (take read.0 out.new))
        × (twig_at v.content.node 0 index ≡ leaf_of (take read.0 out.new))) }
    ensures damaged { let v = V.view view.old in IsTrue v.shows → IfErr result (λ fault.
        (read_over v.content root.now levels index ≡ Err fault) ⊎ TellsFault v (V.view view.new) fault) }
    ensures cause { IfErr result (λ fault. TellsFault (V.view view.old) (V.view view.new) fault
        ⊎ IsDamage root.now levels index out.new fault) }
    ensures honest { IsTrue (V.view view.old).stands
        → IfErr result (IsStoreFault (V.view view.old) (V.view view.new)) }
    ensures keeps { KeepsView (V.view view.old) (V.view view.new) }
    ensures place { length out.new ≡ length out.old }
{
    let len = match view.block(index, out) {
        Ok(len) => len,
        Err(fault) => return Err(fault),
    };
    let own = leaf(index, &out[..len]);
    let kept = match kept_leaf(view, index, levels, root) {
        Ok(kept) => kept,
        Err(fault) => return Err(fault),
    };
    if kept.twig() != own.twig() {
        return Err(CoreFault::Damaged {
            place: Place::Leaf { index },
            want: kept.hash,
            have: own.hash,
        });
    }
    Ok((len, kept))
}

// The view's leaf of a held block, which isn't read where the root over it is this leaf.
fn kept_leaf<V: View>(view: &mut V, index: u64, levels: u32, root: &Node) -> Result<Node, CoreFault>
    requires way { IsWayUp (V.view view.old) index levels }
    requires root { IsStoredOver (V.view view.old) index levels root.now }
    ensures number { IfOk result (λ kept. kept.index ≡ number 0 index) }
    ensures leaf { let v = V.view view.old in IsTrue v.stands
        → IfOk result (λ kept. v.content.node 0 index ≡ Some (twig_of kept)) }
    ensures shown { let v = V.view view.old in IsTrue v.shows
        → IfOk result (λ kept. twig_at v.content.node 0 index ≡ twig_of kept) }
    ensures cause { HasViewCause (V.view view.old) (V.view view.new) result }
    ensures keeps { KeepsView (V.view view.old) (V.view view.new) }
{
    if levels == 0 {
        return Ok(*root);
    }
    match view.node(flat_tree::index(0, index)) {
        // the leaf of a held block is stored
        Ok(found) => Ok(found.unwrap()),
        Err(fault) => Err(fault),
    }
}

// Reads the siblings of a held block's path, from its leaf upward, and gives what they fold to.
fn fold_up<V: View>(
    view: &mut V,
    index: u64,
    levels: u32,
    leaf: &Node,
    trail: &mut Trail,
) -> Result<Node, CoreFault>
    requires way { IsWayUp (V.view view.old) index levels }
    requires number { leaf.now.index ≡ number 0 index }
    requires size { leaf.now.size ≤ MAX_CORE_BYTES }
    requires empty { trail.old ≡ [] }
    ensures path { OnOk result (length trail.new ≡ levels) }
    ensures top { IfOk result (λ top. twig_of top ≡ fold_from index (twig_of leaf.now) trail.new) }
    ensures twigs { OnOk result (AllByRecursion TwigFits trail.new) }
    ensures content { let v = V.view view.old in IsTrue v.stands
        → v.content.node 0 index ≡ Some (twig_of leaf.now)
        → IfOk result (IsHonestTop v.content.node index levels trail.new) }
    ensures shown { let v = V.view view.old in IsTrue v.shows
        → OnOk result (trail.new ≡ trail_at v.content.node 0 index levels) }
    ensures cause { HasViewCause (V.view view.old) (V.view view.new) result }
    ensures keeps { KeepsView (V.view view.old) (V.view view.new) }
{
    let mut top = *leaf;
    for level in 0..levels {
        match sibling_over(view, index, levels, level) {
            Ok(sibling) => {
                trail.push(sibling.twig());
                top = join_nodes(index >> level, &top, &sibling);
            }
            Err(fault) => return Err(fault),
        }
    }
    Ok(top)
}

// The sibling of the node of a held block's path so many levels above its leaf.
fn sibling_over<V: View>(
    view: &mut V,
    index: u64,
    levels: u32,
    level: u32,
) -> Result<Node, CoreFault>
    requires way { IsWayUp (V.view view.old) index levels }
    requires below { level < levels }
    ensures number { IfOk result (λ node. node.index ≡ number level (sibling_of (index / 2 ^ level))) }
    ensures low { IfOk result (λ node. node.index ≤ MAX_NODE) }
    ensures fits { IfOk result (λ node. TwigFits (twig_of node)) }
    ensures content { let v = V.view view.old in IsTrue v.stands → IfOk result (λ node.
        v.content.node level (sibling_of (index / 2 ^ level)) ≡ Some (twig_of node)) }
    ensures shown { let v = V.view view.old in IsTrue v.shows → IfOk result (λ node.
        twig_at v.content.node level (sibling_of (index / 2 ^ level)) ≡ twig_of node) }
    ensures cause { HasViewCause (V.view view.old) (V.view view.new) result }
    ensures keeps { KeepsView (V.view view.old) (V.view view.new) }
{
    let own = flat_tree::index(level, index >> level);
    match view.node(sibling(own)) {
        // the siblings of a held block's path are stored
        Ok(found) => Ok(found.unwrap()),
        Err(fault) => Err(fault),
    }
}

// The parent of the node at an offset and its sibling.
fn join_nodes(offset: u64, node: &Node, sibling: &Node) -> Node
    requires within { node.now.index ≤ MAX_NODE }
    requires beside { sibling.now.index ≤ MAX_NODE }
    requires siblings { (depth : ℕ) × (node.now.index ≡ number depth offset)
        × (sibling.now.index ≡ number depth (sibling_of offset)) }
    requires sum { node.now.size + sibling.now.size < 2 ^ 63 }
    ensures number { (depth : ℕ) → node.now.index ≡ number depth offset
        → sibling.now.index ≡ number depth (sibling_of offset)
        → result.index ≡ number (depth + 1) (offset / 2) }
    ensures twig { twig_of result ≡ join offset (twig_of node.now) (twig_of sibling.now) }
{
    if offset % 2 == 1 {
        parent(sibling, node)
    } else {
        parent(node, sibling)
    }
}
