//! The block that a byte of the log is in.
ghost use Rattle.std.specs.Prelude.{◌≡◌, ◌+◌, ◌*◌, ◌/◌, ◌%◌, ◌<◌, ◌≤◌, ℕ, None, Some, IsTrue, IfOk, IfSome, false, suc};
ghost use Rattle.std.specs.Option.{option_map};
ghost use Rattle.flat_tree.specs.Subtrees.{end_block_of};
ghost use Rattle.flat_tree.specs.declared.limits.TheConstants.{MAX_BLOCKS};
ghost use Rattle.node_set.specs.Contents.{held, roots, bytes_under};
ghost use Rattle.node_set.specs.Closure.{any_under};
ghost use Rattle.node_set.specs.Offsets.{seek_at, offset_of};
ghost use Rattle.node_set.specs.Whole.{IsSound};
ghost use Rattle.log_view.specs.Views.{Looks};
ghost use Rattle.log_view.specs.Walks.{GoesTo, LeadsTo, FindsByte, FindsNone};

use crate::view::View;
use flat_tree::{depth, full_roots, offset};
use node_set::CoreFault;

/// Where a byte of the log is: the index of its block, and how many bytes of the block are before it.
#[derive(Clone, Copy, Debug, PartialEq, Eq)]
pub struct Spot {
    pub index: u64,
    pub offset: u64,
}

/// The held block that has a byte of the log, None where none has it: the byte is past the roots, or the block that has
/// it isn't held. The way leads from the root to the leaf, and of each level below the root the left half alone is read.
pub fn seek<V: View>(view: &mut V, byte: u64) -> Result<Option<Spot>, CoreFault>
    ensures found { let s = (V.view view.old).source in
        IfOk result (λ found. IfSome found (λ spot. FindsByte s byte spot.index spot.offset)) }
    ensures none { let s = (V.view view.old).source in
        IfOk result (λ found. found ≡ None → FindsNone s byte) }
    ensures shown { let s = (V.view view.old).source in IsTrue s.shows → IsSound s.content
        → IfOk result (λ found. option_map (λ spot. spot.index) found ≡ seek_at s.content byte) }
    ensures begins { let s = (V.view view.old).source in IsTrue s.shows → IsSound s.content
        → IfOk result (λ found. IfSome found (λ spot. offset_of s.content spot.index + spot.offset ≡ byte)) }
    ensures looks { Looks (V.view view.old) (V.view view.new) result }
{
    match root_with(view, byte) {
        Some((depth, offset, rest)) => descend(view, depth, offset, rest),
        None => Ok(None),
    }
}

// The full root that has a byte, and how many bytes of it are before the byte.
fn root_with<V: View>(view: &V, byte: u64) -> Option<(u32, u64, u64)>
    ensures blocks { (V.view view.now).source.content.length ≤ MAX_BLOCKS }
    ensures within { let m = (V.view view.now).source.content in
        IfSome result (λ root. end_block_of root.0 root.1 ≤ m.length) }
    ensures leads { IfSome result (λ root.
        LeadsTo (V.view view.now).source byte 0 root.0 root.1 root.2) }
    ensures none { result ≡ None → bytes_under (roots (V.view view.now).source.content) ≤ byte }
{
    let numbers = full_roots(view.head().length);
    let roots = view.roots().as_slice();
    let mut rest = byte;
    for place in 0..roots.len() {
        let size = roots[place].size;
        if rest < size {
            let root = numbers.at(place);
            return Some((depth(root), offset(root), rest));
        }
        rest -= size;
    }
    None
}

// The held block under a node that has the byte so many after the node's first.
fn descend<V: View>(
    view: &mut V,
    depth: u32,
    offset: u64,
    past: u64,
) -> Result<Option<Spot>, CoreFault>
    requires within { end_block_of depth offset ≤ (V.view view.old).source.content.length }
    requires blocks { (V.view view.old).source.content.length ≤ MAX_BLOCKS }
    ensures found { let s = (V.view view.old).source in
        (byte levels : ℕ) → LeadsTo s byte levels depth offset past
        → IfOk result (λ found. IfSome found (λ spot. FindsByte s byte spot.index spot.offset)) }
    ensures none { let s = (V.view view.old).source in
        (byte levels : ℕ) → LeadsTo s byte levels depth offset past
        → IfOk result (λ found. found ≡ None → FindsNone s byte) }
    ensures looks { Looks (V.view view.old) (V.view view.new) result }
{
    let mut level = depth;
    let mut index = offset;
    let mut rest = past;
    while level > 0 {
        level -= 1;
        match half_with(view, level, index, rest) {
            Ok(Some((half, left))) => {
                index = half;
                rest = left;
            }
            Ok(None) => return Ok(None),
            Err(fault) => return Err(fault),
        }
    }
    if !view.held(index) {
        return Ok(None);
    }
    Ok(Some(Spot {
        index,
        offset: rest,
    }))
}

// The half of a node that has the byte so many after the node's first, and how many bytes of the half are before it; None
// where no block under the node is held.
fn half_with<V: View>(
    view: &mut V,
    level: u32,
    offset: u64,
    above: u64,
) -> Result<Option<(u64, u64)>, CoreFault>
    requires within { end_block_of (suc level) offset ≤ (V.view view.old).source.content.length }
    requires blocks { (V.view view.old).source.content.length ≤ MAX_BLOCKS }
    ensures half { IfOk result (λ found. IfSome found (λ half. half.0 / 2 ≡ offset)) }
    ensures goes { IfOk result (λ found.
        IfSome found (λ half. GoesTo (V.view view.old).source level half.0 above half.1)) }
    ensures none { IfOk result (λ found. found ≡ None
        → any_under (held (V.view view.old).source.content) (suc level) offset ≡ false) }
    ensures looks { Looks (V.view view.old) (V.view view.new) result }
{
    let first = 2 * offset;
    let left = flat_tree::index(level, first);
    if !view.is_stored(left) {
        return Ok(None);
    }
    match view.node(left) {
        Ok(left) if above < left.size => Ok(Some((first, above))),
        Ok(left) => Ok(Some((first + 1, above - left.size))),
        Err(fault) => Err(fault),
    }
}
