//! The upgrade of a proof.
ghost use Rattle.std.specs.Prelude.{◌≡◌, ◌≤◌, true, IfOk};
ghost use Rattle.flat_tree.specs.declared.limits.TheConstants.{MAX_BLOCKS};
ghost use Rattle.proof_make.specs.Offers.{passes};
ghost use Rattle.log_view.specs.Views.{Looks};
ghost use Rattle.proof_offer.specs.Parts.{Answers, GivesUpgradePart};
ghost use Rattle.proof_offer.specs.Replies.{has_upgrade};

use crate::twigs::{are_stored, twigs_of};
use flat_tree::cover;
use log_view::View;
use node_set::CoreFault;
use proof_form::{Reach, UpgradePart};

/// Whether the upgrade that is asked for, where one is, ends at the length and begins below it, and its cover is to be
/// stored.
pub(crate) fn has_upgrade<V: View>(view: &V, length: u64, reach: &Option<Reach>) -> bool
    requires length { length ≡ (V.view view.now).source.content.length }
    requires few { length ≤ MAX_BLOCKS }
    ensures { result ≡ passes (has_upgrade (V.view view.now).source.content) reach.now }
{
    let Some(reach) = reach else {
        return true;
    };
    reach.length == length
        && reach.start < reach.length
        && are_stored(view, &cover(reach.start, reach.length))
}

/// The upgrade that is asked for, where one is: the twigs of its cover, and the head's signature.
pub(crate) fn upgrade_part<V: View>(
    view: &mut V,
    reach: &Option<Reach>,
) -> Result<Option<UpgradePart>, CoreFault>
    requires stored { passes (has_upgrade (V.view view.old).source.content) reach.now ≡ true }
    ensures part { IfOk result (Answers (GivesUpgradePart (V.view view.old).source) reach.now) }
    ensures looks { Looks (V.view view.old) (V.view view.new) result }
{
    let Some(reach) = reach else {
        return Ok(None);
    };
    let signature = view.head().signature;
    match twigs_of(view, &cover(reach.start, reach.length)) {
        Ok(nodes) => Ok(Some(UpgradePart {
            start: reach.start,
            length: reach.length,
            nodes,
            signature,
        })),
        Err(fault) => Err(fault),
    }
}
