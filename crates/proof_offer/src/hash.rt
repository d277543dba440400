//! The node of a proof.
ghost use Rattle.std.specs.Prelude.{◌≡◌, true, IfOk, IfSome};
ghost use Rattle.proof_form.specs.Requests.{WantFits};
ghost use Rattle.proof_make.specs.Offers.{passes};
ghost use Rattle.log_view.specs.Views.{Looks};
ghost use Rattle.proof_offer.specs.Parts.{Answers, GivesHashPart};
ghost use Rattle.proof_offer.specs.Replies.{has_hash};

use crate::twigs::{are_stored, siblings, twigs_of};
use log_view::View;
use node_set::CoreFault;
use proof_form::{HashPart, Want};

/// Whether the node that is asked for, where one is, is to be stored, and so many siblings of its path.
pub(crate) fn has_hash<V: View>(view: &V, want: &Option<Want>) -> bool
    requires fits { IfSome want.now WantFits }
    ensures { result ≡ passes (has_hash (V.view view.now).source.content) want.now }
{
    let Some(want) = want else {
        return true;
    };
    view.is_stored(want.index) && are_stored(view, &siblings(want.index, want.nodes))
}

/// The node that is asked for, where one is, with the lowest siblings of its path.
pub(crate) fn hash_part<V: View>(
    view: &mut V,
    want: &Option<Want>,
) -> Result<Option<HashPart>, CoreFault>
    requires fits { IfSome want.now WantFits }
    requires stored { passes (has_hash (V.view view.old).source.content) want.now ≡ true }
    ensures part { IfOk result (Answers (GivesHashPart (V.view view.old).source) want.now) }
    ensures looks { Looks (V.view view.old) (V.view view.new) result }
{
    let Some(want) = want else {
        return Ok(None);
    };
    let node = match view.node(want.index) {
        Ok(node) => node,
        Err(fault) => return Err(fault),
    };
    match twigs_of(view, &siblings(want.index, want.nodes)) {
        Ok(trail) => Ok(Some(HashPart { node, trail })),
        Err(fault) => Err(fault),
    }
}
