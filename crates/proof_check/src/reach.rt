//! What a proof reaches of a view: all that is read for it.
ghost use Rattle.std.specs.Prelude.{◌≡◌, ℕ, ◌-◌, ◌+◌, ◌<◌, ◌≤◌, Some, None, IsTrue, IfOk, IfSome, if◌then◌else◌};
ghost use Rattle.flat_tree.specs.Roots.{depth_over};
ghost use Rattle.flat_tree.specs.declared.limits.TheConstants.{MAX_BLOCKS, MAX_CORE_BYTES};
ghost use Rattle.std.specs.List.{AllByRecursion};
ghost use Rattle.merkle_nodes.specs.Joined.{Values};
ghost use Rattle.merkle_nodes.specs.Roots.{HasShape};
ghost use Rattle.node_set.specs.Contents.{Content, held, roots, bytes_under};
ghost use Rattle.node_set.specs.Views.{IsUsable, KeepsContent, HasViewCause};
ghost use Rattle.node_set.specs.Whole.{IsSound};
ghost use Rattle.proof_form.specs.Proofs.{Proof as ProofSpelled, ProofFits, UpgradeFits, view as proof_view};
ghost use Rattle.proof_check.specs.Early.{twig_bytes};
ghost use Rattle.proof_check.specs.Growth.{SizeFits, IsJoined, HasJoined, IsFirstHeld, KnowsHeld};
ghost use Rattle.proof_check.specs.Meets.{IsValue};
ghost use Rattle.proof_check.specs.Reaching.{IfPart, IsDue, IsReach, HasReach, joined_of, AgreesBelow, ReachesBlock};
ghost use Rattle.proof_check.specs.Upgraded.{length_after};

use crate::heads::length_with;
use crate::held::{Known, first_held};
use crate::meet::{known_by, meet, search};
use crate::path::Met;
use crate::upgrade::{Joined, join, unchanged};
use flat_tree::root_of_block;
use merkle_nodes::{Head, Roots};
use node_set::{CoreFault, View};
use proof_form::{Proof, UpgradePart};

/// The upgraded roots, the level from which on the halves below them are stored, where the block meets a stored node,
/// and its index if it isn't held.
#[derive(Drop)]
pub(crate) struct Reach {
    pub joined: Joined,
    pub first: u32,
    pub met: Option<Met>,
    pub incoming: Option<u64>,
}

/// Reads all that a proof needs.
pub(crate) fn gather<V: View>(
    view: &mut V,
    proof: &Proof<'_>,
    head: &Head,
) -> Result<Reach, CoreFault>
    requires fits { ProofFits (proof_view proof.now) }
    requires head { head.now.length ≡ (V.view view.old).content.length }
    requires usable { IsUsable (V.view view.old).content }
    requires due { let m = (V.view view.old).content in IsDue (proof_view proof.now) m (bytes_under (roots m)) }
    ensures reach { let m = (V.view view.old).content in IfOk result (IsReach (proof_view proof.now) m) }
    ensures values { let m = (V.view view.old).content in IsTrue (V.view view.old).stands → IsSound m
        → IfOk result (HasReach (proof_view proof.now) m) }
    ensures keeps { KeepsContent (V.view view.old) (V.view view.new) }
    ensures cause { HasViewCause (V.view view.old) (V.view view.new) result }
{
    let joined = grown(view.roots(), head.length, &proof.upgrade);
    let to = length_with(&proof.upgrade, head);
    match &proof.block {
        Some(block) => reach_block(view, joined, head.length, to, block.index),
        None => reach_none(view, joined, head.length, to),
    }
}

// The roots of a log of `base` blocks once an upgrade is in.
fn grown(old: &Roots, base: u64, upgrade: &Option<UpgradePart>) -> Joined
    requires within { base ≤ MAX_BLOCKS }
    requires shape { HasShape old.now base }
    requires sizes { AllByRecursion SizeFits old.now }
    requires fits { IfSome upgrade.now UpgradeFits }
    requires due { IfPart upgrade.now (λ u. (u.start ≡ base) × (base < u.length)
        × (u.length ≤ MAX_BLOCKS) × (bytes_under old.now + twig_bytes u.nodes ≤ MAX_CORE_BYTES)) }
    ensures joined { (p : ProofSpelled) (m : Content) → p.upgrade ≡ upgrade.now → m.length ≡ base
        → IsJoined base (length_after p m) result }
    ensures values { (p : ProofSpelled) (m : Content) → p.upgrade ≡ upgrade.now → m.length ≡ base
        → IsSound m → old.now ≡ roots m
        → HasJoined base (length_after p m) (joined_of p m) result }
    ensures same { upgrade.now ≡ None → result.roots ≡ old.now }
{
    match upgrade {
        Some(upgrade) => join(old, base, upgrade.length, upgrade.nodes.as_slice()),
        None => unchanged(old, base),
    }
}

fn reach_block<V: View>(
    view: &mut V,
    joined: Joined,
    base: u64,
    to: u64,
    index: u64,
) -> Result<Reach, CoreFault>
    requires base { base ≡ (V.view view.old).content.length }
    requires usable { IsUsable (V.view view.old).content }
    requires longer { base ≤ to }
    requires few { to ≤ MAX_BLOCKS }
    requires within { index < to }
    requires joined { IsJoined base to joined }
    ensures reach { let m = (V.view view.old).content in
        IfOk result (ReachesBlock base to (held m) index joined) }
    ensures values { IsTrue (V.view view.old).stands → (value : Values) → HasJoined base to value joined
        → AgreesBelow base (V.view view.old).content.node value
        → IfOk result (λ reach. IfSome reach.met (IsValue value index)) }
    ensures keeps { KeepsContent (V.view view.old) (V.view view.new) }
    ensures cause { HasViewCause (V.view view.old) (V.view view.new) result }
{
    let found = match search(view, base, index) {
        Ok(found) => found,
        Err(fault) => return Err(fault),
    };
    let known = known_by(view, base, index, found);
    let first = match first_level(view, base, to, &joined, known) {
        Ok(first) => first,
        Err(fault) => return Err(fault),
    };
    let met = Some(meet(&joined, base, to, first, index, found));
    let incoming = incoming(view, index);
    Ok(Reach {
        joined,
        first,
        met,
        incoming,
    })
}

/// The index of a block that isn't held.
pub(crate) fn incoming<V: View>(view: &V, index: u64) -> Option<u64>
    ensures { let m = (V.view view.now).content in
        result ≡ (if held m index then None else Some index) }
{
    if view.held(index) {
        return None;
    }
    Some(index)
}

// A proof without a block needs the first level alone.
fn reach_none<V: View>(view: &mut V, joined: Joined, base: u64, to: u64) -> Result<Reach, CoreFault>
    requires base { base ≡ (V.view view.old).content.length }
    requires usable { IsUsable (V.view view.old).content }
    requires longer { base ≤ to }
    requires few { to ≤ MAX_BLOCKS }
    requires joined { IsJoined base to joined }
    ensures reach { let m = (V.view view.old).content in IfOk result (λ reach. (reach.joined ≡ joined)
        × (reach.incoming ≡ None)
        × IsFirstHeld base (held m) joined.low (depth_over to (base - 1)) reach.first) }
    ensures keeps { KeepsContent (V.view view.old) (V.view view.new) }
    ensures cause { HasViewCause (V.view view.old) (V.view view.new) result }
{
    match first_level(view, base, to, &joined, None) {
        Ok(first) => Ok(Reach {
            joined,
            first,
            met: None,
            incoming: None,
        }),
        Err(fault) => Err(fault),
    }
}

// The first level whose joined halves are stored, the highest where nothing was joined.
fn first_level<V: View>(
    view: &mut V,
    base: u64,
    to: u64,
    joined: &Joined,
    known: Option<Known>,
) -> Result<u32, CoreFault>
    requires base { base ≡ (V.view view.old).content.length }
    requires usable { IsUsable (V.view view.old).content }
    requires longer { base ≤ to }
    requires few { to ≤ MAX_BLOCKS }
    requires joined { IsJoined base to joined.now }
    requires known { let m = (V.view view.old).content in KnowsHeld base (held m) known }
    ensures first { let m = (V.view view.old).content in
        IfOk result (IsFirstHeld base (held m) joined.now.low (depth_over to (base - 1))) }
    ensures keeps { KeepsContent (V.view view.old) (V.view view.new) }
    ensures cause { HasViewCause (V.view view.old) (V.view view.new) result }
{
    if joined.lefts.len() == 0 {
        return Ok(joined.low);
    }
    let (_, top) = root_of_block(to, base - 1);
    first_held(view, base, joined.low, top, known)
}
