//! The first stored node of an offered block's path, once an upgrade is in.
ghost use Rattle.std.specs.Prelude.{◌≡◌, ℕ, Bool, ◌-◌, ◌/◌, ◌^◌, ◌%◌, ◌<◌, ◌≤◌, true, false, Some, None, IsTrue, IfOk, IfSome, slice_get, length};
ghost use Rattle.flat_tree.specs.Roots.{depth_over};
ghost use Rattle.flat_tree.specs.declared.limits.TheConstants.{MAX_BLOCKS, MAX_SIBLINGS};
ghost use Rattle.merkle_nodes.specs.Joined.{Values};
ghost use Rattle.node_set.specs.Closure.{in_closure};
ghost use Rattle.node_set.specs.Walks.{IsFirstStored};
ghost use Rattle.node_set.specs.Contents.{held};
ghost use Rattle.node_set.specs.Views.{KeepsContent, HasViewCause};
ghost use Rattle.proof_check.specs.Growth.{IsJoined, HasJoined, IsFirstHeld, KnowsHeld};
ghost use Rattle.proof_check.specs.Meets.{NoneBelow, FoundBelow, IsValue, IsFrom};

use crate::held::Known;
use crate::path::{Met, met_below};
use crate::upgrade::Joined;
use flat_tree::root_of_block;
use merkle_nodes::Node;
use node_set::{CoreFault, View};

/// The first stored node of a block's path below the roots of a log of `base` blocks, None also for a block behind them.
pub(crate) fn search<V: View>(view: &mut V, base: u64, index: u64) -> Result<Option<Met>, CoreFault>
    requires base { base ≡ (V.view view.old).content.length }
    requires few { base ≤ MAX_BLOCKS }
    ensures below { let m = (V.view view.old).content in
        index < base → IfOk result (FoundBelow base (held m) index (depth_over base index)) }
    ensures behind { base ≤ index → IfOk result (λ found. found ≡ None) }
    ensures few { IfOk result (λ found. IfSome found (λ met. met.level ≤ MAX_SIBLINGS)) }
    ensures value { IsTrue (V.view view.old).stands
        → IfOk result (λ found. IfSome found (IsValue (V.view view.old).content.node index)) }
    ensures keeps { KeepsContent (V.view view.old) (V.view view.new) }
    ensures cause { HasViewCause (V.view view.old) (V.view view.new) result }
{
    if index >= base {
        return Ok(None);
    }
    let (_, levels) = root_of_block(base, index);
    met_below(view, index, levels)
}

/// What the search for a block tells of the root over it.
pub(crate) fn known_by<V: View>(
    view: &V,
    base: u64,
    index: u64,
    found: Option<Met>,
) -> Option<Known>
    requires found { let m = (V.view view.now).content in
        index < base → FoundBelow base (held m) index (depth_over base index) found }
    ensures { let m = (V.view view.now).content in KnowsHeld base (held m) result }
{
    if index >= base {
        return None;
    }
    Some(Known {
        index,
        is_held: found.is_some() || view.held(index),
    })
}

/// The first stored node of a block's path, in a log of `to` blocks that grew from `base`: the one that was found below
/// the old roots, or one at or above them.
pub(crate) fn meet(
    joined: &Joined,
    base: u64,
    to: u64,
    first: u32,
    index: u64,
    found: Option<Met>,
) -> Met
    requires within { index < to }
    requires longer { base ≤ to }
    requires few { to ≤ MAX_BLOCKS }
    requires joined { IsJoined base to joined.now }
    requires found { IfSome found (λ met. met.level ≤ MAX_SIBLINGS) }
    ensures few { result.level ≤ MAX_SIBLINGS }
    ensures stored { (held : ℕ → Bool) → ((block : ℕ) → held block ≡ true → block < base)
        → IsFirstHeld base held joined.now.low (depth_over to (base - 1)) first
        → (index < base → FoundBelow base held index (depth_over base index) found)
        → (base ≤ index → found ≡ None) → IsFirstStored to held index result.level }
    ensures value { (value : Values) → HasJoined base to value joined.now
        → IfSome found (IsValue value index) → IsValue value index result }
{
    match found {
        Some(met) => met,
        None => met_from(joined, base, to, first, index, level_from(base, to, index)),
    }
}

// From which level on the path of a block goes beside that of the last of `base` blocks.
fn level_from(base: u64, to: u64, index: u64) -> u32
    requires within { index < to }
    requires longer { base ≤ to }
    requires few { to ≤ MAX_BLOCKS }
    ensures from { (low : ℕ) → (0 < base → low ≡ depth_over base (base - 1)) → IsFrom base to low index result }
    ensures none { (held : ℕ → Bool) → ((block : ℕ) → held block ≡ true → block < base)
        → (index < base → NoneBelow base held index (depth_over base index))
        → (level : ℕ) → level < result → level < depth_over to index
        → in_closure to held level (index / 2 ^ level) ≡ false }
{
    if index < base {
        let (_, depth) = root_of_block(base, index);
        return depth;
    }
    if base == 0 {
        let (_, top) = root_of_block(to, index);
        return top;
    }
    (index ^ (base - 1)).ilog2()
}

// The first stored node of a block's path from a level on, in a log of `to` blocks that grew from `base`, where those
// over the old end are over a held block from the level `first` on.
fn met_from(joined: &Joined, base: u64, to: u64, first: u32, index: u64, from: u32) -> Met
    requires within { index < to }
    requires longer { base ≤ to }
    requires few { to ≤ MAX_BLOCKS }
    requires joined { IsJoined base to joined.now }
    requires from { IsFrom base to joined.now.low index from }
    ensures few { result.level ≤ MAX_SIBLINGS }
    ensures stored { (held : ℕ → Bool)
        → IsFirstHeld base held joined.now.low (depth_over to (base - 1)) first
        → ((level : ℕ) → level < from → level < depth_over to index → in_closure to held level (index / 2 ^ level) ≡ false)
        → IsFirstStored to held index result.level }
    ensures value { (value : Values) → HasJoined base to value joined.now → IsValue value index result }
{
    let (place, top) = root_of_block(to, index);
    let level = from.max(first);
    if level >= top {
        let node = joined.roots.at(place);
        return Met { level: top, node };
    }
    let node = half(joined, level, index);
    Met { level, node }
}

// The half at a level that is over a block.
fn half(joined: &Joined, level: u32, index: u64) -> Node
    requires low { joined.now.low ≤ level }
    requires left { level - joined.now.low < length joined.now.lefts }
    requires right { level - joined.now.low < length joined.now.rights }
    requires few { level ≤ MAX_SIBLINGS }
    ensures right { index / 2 ^ level % 2 ≡ 1
        → slice_get joined.now.rights (level - joined.now.low) ≡ Some result }
    ensures left { index / 2 ^ level % 2 ≡ 0
        → slice_get joined.now.lefts (level - joined.now.low) ≡ Some result }
{
    let place = (level - joined.low) as usize;
    if (index >> level) % 2 == 1 {
        return joined.rights.at(place);
    }
    joined.lefts.at(place)
}
