//! Walks over a view, from a block's leaf up to the root over it: what a block needs, and where it begins.
ghost use Rattle.std.specs.Prelude.{◌≡◌, ◌+◌, ◌*◌, ◌/◌, ◌^◌, ◌<◌, ◌≤◌, is_some, IsTrue, IfOk, IfSome};
ghost use Rattle.flat_tree.specs.Subtrees.{number};
ghost use Rattle.flat_tree.specs.Roots.{depth_over};
ghost use Rattle.flat_tree.specs.declared.limits.TheConstants.{MAX_SIBLINGS, MAX_ROOTS, MAX_CORE_BYTES};
ghost use Rattle.node_set.specs.Contents.{held, bytes_under};
ghost use Rattle.node_set.specs.Closure.{in_closure};
ghost use Rattle.node_set.specs.Offsets.{need_of, left_bytes, left_step, offset_of};
ghost use Rattle.node_set.specs.Views.{KeepsContent, HasViewCause};
ghost use Rattle.node_set.specs.Walks.{IsFirstStored, IsInTree};

use crate::fault::CoreFault;
use crate::view::View;
use flat_tree::root_of_block;
use merkle_nodes::Node;

/// How many siblings a block needs: the levels from its leaf up to the first stored node of its path, 0 where the leaf
/// itself is stored.
pub fn need<V: View>(view: &mut V, index: u64) -> Result<u64, CoreFault>
    requires within { index < (V.view view.old).content.length }
    ensures first { let m = (V.view view.old).content in
        IfOk result (IsFirstStored m.length (held m) index) }
    ensures need { IsTrue (V.view view.old).stands
        → IfOk result (λ levels. levels ≡ need_of (V.view view.old).content index) }
    ensures few { IfOk result (λ levels. levels ≤ MAX_SIBLINGS) }
    ensures keeps { KeepsContent (V.view view.old) (V.view view.new) }
    ensures cause { HasViewCause (V.view view.old) (V.view view.new) result }
{
    let (_, levels) = root_of_block(view.head().length, index);
    first_stored(view, index, levels)
}

// The levels up to the first stored node, which is the root at the latest.
fn first_stored<V: View>(view: &mut V, index: u64, levels: u32) -> Result<u64, CoreFault>
    requires within { index < (V.view view.old).content.length }
    requires levels { levels ≡ depth_over (V.view view.old).content.length index }
    requires fits { IsInTree index levels }
    ensures first { let m = (V.view view.old).content in
        IfOk result (IsFirstStored m.length (held m) index) }
    ensures keeps { KeepsContent (V.view view.old) (V.view view.new) }
    ensures cause { HasViewCause (V.view view.old) (V.view view.new) result }
{
    for level in 0..levels {
        match has_node(view, index, level) {
            Ok(true) => return Ok(level as u64),
            Ok(false) => {}
            Err(fault) => return Err(fault),
        }
    }
    Ok(levels as u64)
}

// Whether the node of a block's path so many levels above its leaf is stored.
fn has_node<V: View>(view: &mut V, index: u64, level: u32) -> Result<bool, CoreFault>
    requires fits { IsInTree index level }
    ensures stored { let m = (V.view view.old).content in
        IfOk result (λ stored. stored ≡ in_closure m.length (held m) level (index / 2 ^ level)) }
    ensures keeps { KeepsContent (V.view view.old) (V.view view.new) }
    ensures cause { HasViewCause (V.view view.old) (V.view view.new) result }
{
    match view.node(node_over(index, level)) {
        Ok(found) => Ok(found.is_some()),
        Err(fault) => Err(fault),
    }
}

// The node of a block's path so many levels above its leaf.
fn node_over(index: u64, level: u32) -> u64
    requires fits { IsInTree index level }
    ensures { result ≡ number level (index / 2 ^ level) }
{
    flat_tree::index(level, index >> level)
}

/// The byte at which a block begins, None where it isn't held: the bytes of the roots to its left and of the left
/// siblings on its path, each node read once.
pub fn byte_offset<V: View>(view: &mut V, index: u64) -> Result<Option<u64>, CoreFault>
    ensures held { IfOk result (λ at. is_some at ≡ held (V.view view.old).content index) }
    ensures offset { IsTrue (V.view view.old).stands
        → IfOk result (λ at. IfSome at (λ byte. byte ≡ offset_of (V.view view.old).content index)) }
    ensures few { IfOk result
        (λ at. IfSome at (λ byte. byte ≤ (MAX_ROOTS + MAX_SIBLINGS) * MAX_CORE_BYTES)) }
    ensures keeps { KeepsContent (V.view view.old) (V.view view.new) }
    ensures cause { HasViewCause (V.view view.old) (V.view view.new) result }
{
    let head = view.head();
    if !view.held(index) {
        return Ok(None);
    }
    let (place, levels) = root_of_block(head.length, index);
    let before = sum_of_sizes(&view.roots().as_slice()[..place]);
    match left_of_path(view, index, levels) {
        Ok(left) => Ok(Some(before + left)),
        Err(fault) => Err(fault),
    }
}

// The bytes under some nodes.
fn sum_of_sizes(nodes: &[Node]) -> u64
    requires { bytes_under nodes.now ≤ MAX_ROOTS * MAX_CORE_BYTES }
    ensures sum { result ≡ bytes_under nodes.now }
    ensures most { result ≤ MAX_ROOTS * MAX_CORE_BYTES }
{
    nodes.iter().map(|node| node.size).sum()
}

// The bytes of the left siblings on the way from a held block's leaf to the root over it.
fn left_of_path<V: View>(view: &mut V, index: u64, levels: u32) -> Result<u64, CoreFault>
    requires held { IsTrue (held (V.view view.old).content index) }
    requires levels { levels ≡ depth_over (V.view view.old).content.length index }
    requires within { index < (V.view view.old).content.length }
    requires fits { IsInTree index levels }
    ensures bytes { IsTrue (V.view view.old).stands
        → IfOk result (λ bytes. bytes ≡ left_bytes levels (V.view view.old).content.node 0 index) }
    ensures most { IfOk result (λ bytes. bytes ≤ levels * MAX_CORE_BYTES) }
    ensures keeps { KeepsContent (V.view view.old) (V.view view.new) }
    ensures cause { HasViewCause (V.view view.old) (V.view view.new) result }
{
    let mut bytes = 0;
    for level in 0..levels {
        match left_of_node(view, index, level) {
            Ok(left) => bytes += left,
            Err(fault) => return Err(fault),
        }
    }
    Ok(bytes)
}

// The bytes of the left sibling of a held block's path so many levels above its leaf, 0 at a left half.
fn left_of_node<V: View>(view: &mut V, index: u64, level: u32) -> Result<u64, CoreFault>
    requires held { IsTrue (held (V.view view.old).content index) }
    requires below { level < depth_over (V.view view.old).content.length index }
    requires within { index < (V.view view.old).content.length }
    requires fits { IsInTree index level }
    ensures bytes { IsTrue (V.view view.old).stands
        → IfOk result (λ bytes.
        bytes ≡ left_step (V.view view.old).content.node level (index / 2 ^ level)) }
    ensures most { IfOk result (λ bytes. bytes ≤ MAX_CORE_BYTES) }
    ensures keeps { KeepsContent (V.view view.old) (V.view view.new) }
    ensures cause { HasViewCause (V.view view.old) (V.view view.new) result }
{
    let offset = index >> level;
    if offset % 2 == 0 {
        return Ok(0);
    }
    match view.node(flat_tree::index(level, offset - 1)) {
        // the siblings of a held block's path are stored
        Ok(left) => Ok(left.unwrap().size),
        Err(fault) => Err(fault),
    }
}
