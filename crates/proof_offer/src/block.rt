//! The block of a proof.
ghost use Rattle.std.specs.Prelude.{◌≡◌, ◌≤◌, ◌<◌, true, length, IfOk, IfSome};
ghost use Rattle.flat_tree.specs.declared.limits.TheConstants.{MAX_BLOCKS, MAX_BLOCK_BYTES, MAX_SIBLINGS};
ghost use Rattle.flat_tree.specs.Roots.{depth_over};
ghost use Rattle.proof_form.specs.Proofs.{block_view};
ghost use Rattle.proof_form.specs.Requests.{WantFits, RequestFits};
ghost use Rattle.proof_make.specs.Offers.{passes, has_block};
ghost use Rattle.log_view.specs.Views.{Looks};
ghost use Rattle.proof_offer.specs.Parts.{Answers, GivesBlockPart};
ghost use Rattle.proof_offer.specs.Replies.{asked_block};

use crate::twigs::{siblings, twigs_of};
use flat_tree::root_of_block;
use log_view::View;
use node_set::CoreFault;
use proof_form::{BlockPart, Request, Want};

/// The block that a request asks for by its index, or by a byte, which the block of the index `sought` has.
pub(crate) fn asked_block(length: u64, request: &Request, sought: Option<u64>) -> Option<Want>
    requires few { length ≤ MAX_BLOCKS }
    requires within { IfSome sought (λ index. index < length) }
    ensures asked { result ≡ asked_block length request.now sought }
    ensures fits { RequestFits request.now → IfSome result WantFits }
{
    if let Some(want) = request.block {
        return Some(want);
    }
    if request.seek.is_none() {
        return None;
    }
    let Some(index) = sought else {
        return None;
    };
    let nodes = path_length(length, index);
    Some(Want { index, nodes })
}

/// Whether the block that is asked for, where one is, is held, and its path has so many siblings.
pub(crate) fn has_block<V: View>(view: &V, length: u64, want: &Option<Want>) -> bool
    requires length { length ≡ (V.view view.now).source.content.length }
    requires few { length ≤ MAX_BLOCKS }
    ensures { result ≡ passes (has_block (V.view view.now).source.content) want.now }
{
    let Some(want) = want else {
        return true;
    };
    want.index < length && view.held(want.index) && want.nodes <= path_length(length, want.index)
}

// How many siblings a block's path has below the root over it.
fn path_length(length: u64, index: u64) -> u64
    requires within { index < length }
    requires few { length ≤ MAX_BLOCKS }
    ensures depth { result ≡ depth_over length index }
    ensures few { result ≤ MAX_SIBLINGS }
{
    let (_, depth) = root_of_block(length, index);
    depth as u64
}

/// The block that is asked for, where one is, in `buf`, with the lowest siblings of its path.
pub(crate) fn block_part<'b, V: View>(
    view: &mut V,
    want: &Option<Want>,
    buf: &'b mut [u8],
) -> Result<Option<BlockPart<'b>>, CoreFault>
    requires capacity { MAX_BLOCK_BYTES ≤ length buf.old }
    requires held { passes (has_block (V.view view.old).source.content) want.now ≡ true }
    requires fits { IfSome want.now WantFits }
    requires few { (V.view view.old).source.content.length ≤ MAX_BLOCKS }
    ensures part { IfOk result (λ part.
        Answers (GivesBlockPart (V.view view.old).source) want.now (block_view part)) }
    ensures looks { Looks (V.view view.old) (V.view view.new) result }
{
    let Some(want) = want else {
        return Ok(None);
    };
    let trail = match twigs_of(view, &siblings(2 * want.index, want.nodes)) {
        Ok(trail) => trail,
        Err(fault) => return Err(fault),
    };
    match view.block(want.index, buf) {
        Ok(len) => Ok(Some(BlockPart {
            index: want.index,
            bytes: &buf[..len],
            trail,
        })),
        Err(fault) => Err(fault),
    }
}
