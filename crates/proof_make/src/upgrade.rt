//! The upgrade of a proof.
ghost use Rattle.std.specs.Prelude.{◌≡◌, ◌≤◌, ◌<◌, true, not, map, Some, is_some, length, option_map, IfOk, IfSome, IsTrue};
ghost use Rattle.flat_tree.specs.Subtrees.{Subtree};
ghost use Rattle.flat_tree.specs.Covers.{cover_of};
ghost use Rattle.flat_tree.specs.declared.limits.TheConstants.{MAX_BLOCKS};
ghost use Rattle.node_set.specs.declared.fault.CoreFault.TheVariants.{NoReply};
ghost use Rattle.node_set.specs.Contents.{twig_at};
ghost use Rattle.node_set.specs.Refuses.{refuse_if};
ghost use Rattle.node_set.specs.Views.{AnswersBy};
ghost use Rattle.node_set.specs.Walks.{KeepsView};
ghost use Rattle.proof_form.specs.Proofs.{UpgradeFits};
ghost use Rattle.proof_form.specs.Twigs.{CoverFits};
ghost use Rattle.proof_make.specs.Answers.{part_for, upgrade_for};
ghost use Rattle.proof_make.specs.Offers.{passes, ends_at, has_nodes, has_cover, reach_of};

use flat_tree::{RoomList, cover};
use merkle_nodes::{Twig, Twigs};
use node_set::{CoreFault, View};
use proof_form::{Reach, UpgradePart};

/// The upgrade that is asked for, where one is: the twigs of its cover, and the head's signature. `NoReply` where a node of the
/// cover isn't stored.
pub(crate) fn upgrade_part<V: View>(
    view: &mut V,
    reach: &Option<Reach>,
) -> Result<Option<UpgradePart>, CoreFault>
    requires ends { passes (ends_at (V.view view.old).content.length) reach.now ≡ true }
    ensures answers { AnswersBy (V.view view.old) (V.view view.new)
        (refuse_if (not (passes (has_cover (V.view view.old).content) reach.now)) NoReply)
        (λ part. option_map reach_of part ≡ reach.now) result }
    ensures made { let m = (V.view view.old).content in IsTrue (V.view view.old).stands
        → AnswersBy (V.view view.old) (V.view view.new)
        (refuse_if (not (is_some (part_for reach.now (upgrade_for m)))) NoReply)
        (λ part. Some part ≡ part_for reach.now (upgrade_for m)) result }
    ensures fits { IfOk result (λ part. IfSome part UpgradeFits) }
    ensures keeps { KeepsView (V.view view.old) (V.view view.new) }
{
    let Some(reach) = reach else {
        return Ok(None);
    };
    let signature = view.head().signature;
    match twigs_of(view, reach.start, reach.length) {
        Ok(nodes) => Ok(Some(UpgradePart {
            start: reach.start,
            length: reach.length,
            nodes,
            signature,
        })),
        Err(fault) => Err(fault),
    }
}

// The twigs of a cover, each node read once.
fn twigs_of<V: View>(view: &mut V, start: u64, end: u64) -> Result<Twigs, CoreFault>
    requires ordered { start < end }
    requires few { end ≤ MAX_BLOCKS }
    ensures answers { AnswersBy (V.view view.old) (V.view view.new)
        (refuse_if (not (has_nodes (V.view view.old).content (cover_of start end))) NoReply)
        (CoverFits start end) result }
    ensures twigs { let node = (V.view view.old).content.node in
        IsTrue (V.view view.old).stands → IfOk result (λ twigs.
        twigs ≡ map (λ (tree : Subtree). twig_at node tree.depth tree.offset)
        (cover_of start end)) }
    ensures keeps { KeepsView (V.view view.old) (V.view view.new) }
{
    let places = cover(start, end);
    let mut twigs = RoomList::new(Twig::BLANK);
    for place in 0..places.len() {
        match view.node(places.at(place)) {
            Ok(Some(node)) => twigs.push(node.twig()),
            Ok(None) => return Err(CoreFault::NoReply),
            Err(fault) => return Err(fault),
        }
    }
    Ok(twigs)
}
