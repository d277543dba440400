//! From which level on the subtrees over a log's end are over a held block.
ghost use Rattle.std.specs.Prelude.{◌≡◌, ℕ, ◌-◌, ◌/◌, ◌^◌, ◌%◌, ◌<◌, ◌≤◌, Bool, false, IfOk, IfSome};
ghost use Rattle.flat_tree.specs.Roots.{depth_over};
ghost use Rattle.flat_tree.specs.declared.limits.TheConstants.{MAX_SIBLINGS};
ghost use Rattle.node_set.specs.Contents.{held};
ghost use Rattle.node_set.specs.Closure.{any_under, IsFullRoot};
ghost use Rattle.node_set.specs.Views.{IsUsable, KeepsContent, HasViewCause};
ghost use Rattle.proof_check.specs.Growth.{last_over, IsFirstHeld, KnowsHeld};

use node_set::{CoreFault, View};

/// What is known of the root over an index: whether a block under it is held.
#[derive(Clone, Copy, Debug, PartialEq, Eq)]
pub struct Known {
    pub index: u64,
    pub is_held: bool,
}

/// The first level from that of the last root on whose subtree above, over the last of `base` blocks, is over a held
/// block, `top` where there is none. Of each root one node is read at most, and none of the one that is known.
pub(crate) fn first_held<V: View>(
    view: &mut V,
    base: u64,
    low: u32,
    top: u32,
    known: Option<Known>,
) -> Result<u32, CoreFault>
    requires base { base ≡ (V.view view.old).content.length }
    requires some { 0 < base }
    requires low { low ≡ depth_over base (base - 1) }
    requires ordered { low ≤ top }
    requires few { top ≤ MAX_SIBLINGS }
    requires usable { IsUsable (V.view view.old).content }
    requires known { let m = (V.view view.old).content in KnowsHeld m.length (held m) known }
    ensures first { let m = (V.view view.old).content in
        IfOk result (IsFirstHeld base (held m) low top) }
    ensures keeps { KeepsContent (V.view view.old) (V.view view.new) }
    ensures cause { HasViewCause (V.view view.old) (V.view view.new) result }
{
    match any_held(view, low, (base - 1) >> low, known) {
        Ok(true) => return Ok(low),
        Ok(false) => {}
        Err(fault) => return Err(fault),
    }
    for level in low..top {
        match left_held(view, level, (base - 1) >> level, known) {
            Ok(true) => return Ok(level),
            Ok(false) => {}
            Err(fault) => return Err(fault),
        }
    }
    Ok(top)
}

// Whether the left sibling of a right half, which is a root, is over a held block.
fn left_held<V: View>(
    view: &mut V,
    level: u32,
    offset: u64,
    known: Option<Known>,
) -> Result<bool, CoreFault>
    requires root { let m = (V.view view.old).content in
        offset % 2 ≡ 1 → IsFullRoot m.length level (offset - 1) }
    requires few { level ≤ MAX_SIBLINGS }
    requires usable { IsUsable (V.view view.old).content }
    requires known { let m = (V.view view.old).content in KnowsHeld m.length (held m) known }
    ensures right { let m = (V.view view.old).content in
        offset % 2 ≡ 1 → IfOk result (λ any. any ≡ any_under (held m) level (offset - 1)) }
    ensures left { offset % 2 ≡ 0 → IfOk result (λ any. any ≡ false) }
    ensures keeps { KeepsContent (V.view view.old) (V.view view.new) }
    ensures cause { HasViewCause (V.view view.old) (V.view view.new) result }
{
    if offset % 2 == 0 {
        return Ok(false);
    }
    any_held(view, level, offset - 1, known)
}

// Whether a root is over a held block: then its left half is stored.
fn any_held<V: View>(
    view: &mut V,
    depth: u32,
    offset: u64,
    known: Option<Known>,
) -> Result<bool, CoreFault>
    requires root { IsFullRoot (V.view view.old).content.length depth offset }
    requires few { depth ≤ MAX_SIBLINGS }
    requires usable { IsUsable (V.view view.old).content }
    requires known { let m = (V.view view.old).content in KnowsHeld m.length (held m) known }
    ensures any { let m = (V.view view.old).content in
        IfOk result (λ any. any ≡ any_under (held m) depth offset) }
    ensures keeps { KeepsContent (V.view view.old) (V.view view.new) }
    ensures cause { HasViewCause (V.view view.old) (V.view view.new) result }
{
    if let Some(is_held) = known_over(known, depth, offset) {
        return Ok(is_held);
    }
    if depth == 0 {
        return Ok(view.held(offset));
    }
    match view.node(flat_tree::index(depth - 1, 2 * offset)) {
        Ok(found) => Ok(found.is_some()),
        Err(fault) => Err(fault),
    }
}

// What is known of a root, if anything is.
fn known_over(known: Option<Known>, depth: u32, offset: u64) -> Option<bool>
    requires few { depth ≤ MAX_SIBLINGS }
    ensures { (n : ℕ) → (held : ℕ → Bool) → KnowsHeld n held known → IsFullRoot n depth offset
        → IfSome result (λ any. any ≡ any_under held depth offset) }
{
    match known {
        Some(known) => {
            if known.index >> depth == offset {
                return Some(known.is_held);
            }
            None
        }
        None => None,
    }
}
