//! Walks over a view along a block's path: what the block needs, and where it begins.
ghost use Rattle.std.specs.Prelude.{◌≡◌, ◌+◌, ◌*◌, ◌/◌, ◌^◌, ◌<◌, ◌≤◌, IsTrue, IfOk};
ghost use Rattle.flat_tree.specs.Subtrees.{number};
ghost use Rattle.flat_tree.specs.Roots.{depth_over};
ghost use Rattle.flat_tree.specs.declared.limits.TheConstants.{MAX_SIBLINGS, MAX_ROOTS, MAX_CORE_BYTES};
ghost use Rattle.node_set.specs.Contents.{held, bytes_under};
ghost use Rattle.node_set.specs.Offsets.{need_of, offset_of};
ghost use Rattle.node_set.specs.Walks.{IsFirstStored, IsInTree};
ghost use Rattle.node_set.specs.Whole.{IsSound};
ghost use Rattle.log_view.specs.Views.{Looks};
ghost use Rattle.log_view.specs.Walks.{IsLeftAt, AreLeft, BeginsAt};

use crate::view::View;
use flat_tree::root_of_block;
use merkle_nodes::Node;
use node_set::CoreFault;

/// How many siblings a proof of a block needs: the levels from its leaf up to the first stored node of its path, 0
/// where the leaf itself is stored. No node is read.
pub fn need<V: View>(view: &V, index: u64) -> u64
    requires within { index < (V.view view.now).source.content.length }
    ensures first { let m = (V.view view.now).source.content in
        IsFirstStored m.length (held m) index result }
    ensures need { let m = (V.view view.now).source.content in
        IsSound m → result ≡ need_of m index }
    ensures few { result ≤ MAX_SIBLINGS }
{
    let (_, levels) = root_of_block(view.head().length, index);
    first_stored(view, index, levels)
}

// The levels up to the first stored node, which is the root at the latest.
fn first_stored<V: View>(view: &V, index: u64, levels: u32) -> u64
    requires within { index < (V.view view.now).source.content.length }
    requires levels { levels ≡ depth_over (V.view view.now).source.content.length index }
    requires fits { IsInTree index levels }
    ensures first { let m = (V.view view.now).source.content in
        IsFirstStored m.length (held m) index result }
{
    for level in 0..levels {
        if view.is_stored(node_over(index, level)) {
            return level as u64;
        }
    }
    levels as u64
}

// The node of a block's path so many levels above its leaf.
fn node_over(index: u64, level: u32) -> u64
    requires fits { IsInTree index level }
    ensures { result ≡ number level (index / 2 ^ level) }
{
    flat_tree::index(level, index >> level)
}

/// The byte at which a held block begins: the bytes of the roots to its left and of the left siblings on its path. Each
/// node is read once.
pub fn byte_offset<V: View>(view: &mut V, index: u64) -> Result<u64, CoreFault>
    requires held { IsTrue (held (V.view view.old).source.content index) }
    ensures begins { IfOk result (BeginsAt (V.view view.old).source index) }
    ensures shown { IsTrue (V.view view.old).source.shows
        → IfOk result (λ byte. byte ≡ offset_of (V.view view.old).source.content index) }
    ensures most { IfOk result (λ byte. byte ≤ (MAX_ROOTS + MAX_SIBLINGS) * MAX_CORE_BYTES) }
    ensures looks { Looks (V.view view.old) (V.view view.new) result }
{
    let (place, levels) = root_of_block(view.head().length, index);
    let before = sum_of_sizes(&view.roots().as_slice()[..place]);
    match left_of_path(view, index, levels) {
        Ok(left) => Ok(before + left),
        Err(fault) => Err(fault),
    }
}

// The bytes under some roots.
fn sum_of_sizes(nodes: &[Node]) -> u64
    requires { bytes_under nodes.now ≤ MAX_ROOTS * MAX_CORE_BYTES }
    ensures sum { result ≡ bytes_under nodes.now }
    ensures most { result ≤ MAX_ROOTS * MAX_CORE_BYTES }
{
    nodes.iter().map(|node| node.size).sum()
}

// The bytes of the left siblings on the way from a held block's leaf to the root over it.
fn left_of_path<V: View>(view: &mut V, index: u64, levels: u32) -> Result<u64, CoreFault>
    requires held { IsTrue (held (V.view view.old).source.content index) }
    requires levels { levels ≡ depth_over (V.view view.old).source.content.length index }
    requires within { index < (V.view view.old).source.content.length }
    requires fits { IsInTree index levels }
    ensures left { IfOk result (AreLeft (V.view view.old).source index levels) }
    ensures most { IfOk result (λ bytes. bytes ≤ levels * MAX_CORE_BYTES) }
    ensures looks { Looks (V.view view.old) (V.view view.new) result }
{
    let mut bytes = 0;
    for level in 0..levels {
        match left_at(view, index, level) {
            Ok(left) => bytes += left,
            Err(fault) => return Err(fault),
        }
    }
    Ok(bytes)
}

// The bytes of the left sibling of a held block's path so many levels above its leaf, 0 at a left half.
fn left_at<V: View>(view: &mut V, index: u64, level: u32) -> Result<u64, CoreFault>
    requires held { IsTrue (held (V.view view.old).source.content index) }
    requires below { level < depth_over (V.view view.old).source.content.length index }
    requires within { index < (V.view view.old).source.content.length }
    requires fits { IsInTree index level }
    ensures left { IfOk result (IsLeftAt (V.view view.old).source index level) }
    ensures most { IfOk result (λ bytes. bytes ≤ MAX_CORE_BYTES) }
    ensures looks { Looks (V.view view.old) (V.view view.new) result }
{
    let offset = index >> level;
    if offset % 2 == 0 {
        return Ok(0);
    }
    match view.node(flat_tree::index(level, offset - 1)) {
        Ok(left) => Ok(left.size),
        Err(fault) => Err(fault),
    }
}
