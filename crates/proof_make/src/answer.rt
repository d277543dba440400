//! The honest proof for a request.
ghost use Rattle.std.specs.Prelude.{◌≡◌, ◌≤◌, ◌<◌, true, false, not, Some, is_some, length, IfOk, IsErrOf, IsTrue};
ghost use Rattle.flat_tree.specs.declared.limits.TheConstants.{MAX_BLOCKS, MAX_BLOCK_BYTES};
ghost use Rattle.flat_tree.specs.Roots.{depth_over};
ghost use Rattle.node_set.specs.declared.fault.CoreFault.TheVariants.{NoReply};
ghost use Rattle.node_set.specs.Refuses.{refuse_if};
ghost use Rattle.node_set.specs.Views.{IsUsable, StandsSoundly, AnswersBy};
ghost use Rattle.node_set.specs.Walks.{KeepsView};
ghost use Rattle.proof_form.specs.Requests.{RequestFits};
ghost use Rattle.proof_form.specs.Proofs.{ProofFits, view as proof_view};
ghost use Rattle.proof_make.specs.Answers.{made_from};
ghost use Rattle.proof_make.specs.Offers.{is_plain, passes, has_block, ends_at, is_offered, has_cover, has_answer, IsReplyTo};

use crate::block::block_part;
use crate::upgrade::upgrade_part;
use flat_tree::root_of_block;
use node_set::{CoreFault, View};
use proof_form::{Proof, Reach, Request, Want};

/// The proof of the parts that are asked for, with the block's bytes in `buf`. `NoReply` where a part has none, and so far for
/// each request of a node or of a sought byte; no block is read then.
pub fn make<'b, V: View>(
    view: &mut V,
    request: &Request,
    buf: &'b mut [u8],
) -> Result<Proof<'b>, CoreFault>
    requires fits { RequestFits request.now }
    requires room { MAX_BLOCK_BYTES ≤ length buf.old }
    ensures other { is_plain request.now ≡ false → IsErrOf result CoreFault.NoReply }
    // Over any view the closure decides whether there is an answer.
    ensures answers { is_plain request.now ≡ true → AnswersBy (V.view view.old) (V.view view.new)
        (refuse_if (not (has_answer (V.view view.old).content request.now)) NoReply)
        (λ proof. IsReplyTo request.now (proof_view proof)) result }
    ensures fits { IfOk result (λ proof. ProofFits (proof_view proof)) }
    // Over one that stands it is the answer of the content.
    ensures made { IsTrue (V.view view.old).stands → is_plain request.now ≡ true
        → AnswersBy (V.view view.old) (V.view view.new)
        (refuse_if (not (is_some (made_from (V.view view.old).content request.now))) NoReply)
        (λ proof. Some (proof_view proof)
        ≡ made_from (V.view view.old).content request.now) result }
    ensures keeps { KeepsView (V.view view.old) (V.view view.new) }
{
    if !is_plain(request) || !is_offered(view, request) {
        return Err(CoreFault::NoReply);
    }
    proof_of(view, request, buf)
}

// Whether neither a node nor a sought byte is asked for.
fn is_plain(request: &Request) -> bool
    ensures { result ≡ is_plain request.now }
{
    request.hash.is_none() && request.seek.is_none()
}

// Whether the head and the held blocks are those that are asked for.
fn is_offered<V: View>(view: &V, request: &Request) -> bool
    ensures offered { result ≡ is_offered (V.view view.now).content request.now }
    ensures usable { IsUsable (V.view view.now).content }
    ensures sound { StandsSoundly (V.view view.now) }
{
    let head = view.head();
    request.fork == head.fork
        && has_block(view, head.length, &request.block)
        && ends_at(head.length, &request.upgrade)
}

// Whether the block that is asked for, where one is, is held, and its path has so many siblings.
fn has_block<V: View>(view: &V, length: u64, want: &Option<Want>) -> bool
    requires length { length ≡ (V.view view.now).content.length }
    requires few { length ≤ MAX_BLOCKS }
    ensures { result ≡ passes (has_block (V.view view.now).content) want.now }
{
    let Some(want) = want else {
        return true;
    };
    want.index < length && view.held(want.index) && want.nodes <= siblings(length, want.index)
}

// How many siblings a block's path has below the root over it.
fn siblings(length: u64, index: u64) -> u64
    requires within { index < length }
    requires few { length ≤ MAX_BLOCKS }
    ensures { result ≡ depth_over length index }
{
    let (_, depth) = root_of_block(length, index);
    depth as u64
}

// Whether the upgrade that is asked for, where one is, ends at a length, and begins below it.
fn ends_at(length: u64, reach: &Option<Reach>) -> bool
    ensures { result ≡ passes (ends_at length) reach.now }
{
    let Some(reach) = reach else {
        return true;
    };
    reach.length == length && reach.start < length
}

// The proof of the parts of a plain request, where the head and the held blocks are those that are asked for: the upgrade
// first, which may have no answer yet.
fn proof_of<'b, V: View>(
    view: &mut V,
    request: &Request,
    buf: &'b mut [u8],
) -> Result<Proof<'b>, CoreFault>
    requires fits { RequestFits request.now }
    requires room { MAX_BLOCK_BYTES ≤ length buf.old }
    requires few { (V.view view.old).content.length ≤ MAX_BLOCKS }
    requires plain { is_plain request.now ≡ true }
    requires offered { is_offered (V.view view.old).content request.now ≡ true }
    ensures answers { AnswersBy (V.view view.old) (V.view view.new)
        (refuse_if (not (passes (has_cover (V.view view.old).content) request.now.upgrade)) NoReply)
        (λ proof. IsReplyTo request.now (proof_view proof)) result }
    ensures fits { IfOk result (λ proof. ProofFits (proof_view proof)) }
    ensures made { IsTrue (V.view view.old).stands
        → AnswersBy (V.view view.old) (V.view view.new)
        (refuse_if (not (is_some (made_from (V.view view.old).content request.now))) NoReply)
        (λ proof. Some (proof_view proof)
        ≡ made_from (V.view view.old).content request.now) result }
    ensures keeps { KeepsView (V.view view.old) (V.view view.new) }
{
    let upgrade = match upgrade_part(view, &request.upgrade) {
        Ok(upgrade) => upgrade,
        Err(fault) => return Err(fault),
    };
    match block_part(view, &request.block, buf) {
        Ok(block) => Ok(Proof {
            fork: request.fork,
            block,
            hash: None,
            seek: None,
            upgrade,
        }),
        Err(fault) => Err(fault),
    }
}
