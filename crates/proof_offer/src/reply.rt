//! The honest proof for a request.
ghost use Rattle.std.specs.Prelude.{◌≡◌, ◌≤◌, true, None, Some, length, IfOk, IfErr, IfSome, IsErrOf, IsTrue};
ghost use Rattle.flat_tree.specs.declared.limits.TheConstants.{MAX_BLOCK_BYTES};
ghost use Rattle.node_set.specs.declared.fault.CoreFault.{CoreFault as CoreFaultSeen};
ghost use Rattle.node_set.specs.Contents.{held};
ghost use Rattle.node_set.specs.Whole.{IsSound};
ghost use Rattle.proof_form.specs.Requests.{RequestFits};
ghost use Rattle.proof_form.specs.Proofs.{ProofFits, view as proof_view};
ghost use Rattle.proof_make.specs.Answers.{made_from};
ghost use Rattle.log_view.specs.Views.{Keeps, Looks, Reports};
ghost use Rattle.proof_offer.specs.Replies.{has_reply, is_found, sought_byte, Finds, IsReply, IsSought, LacksReply, GivesReply};

use crate::block::{asked_block, block_part, has_block};
use crate::hash::{has_hash, hash_part};
use crate::upgrade::{has_upgrade, upgrade_part};
use log_view::{View, seek};
use node_set::CoreFault;
use proof_form::{Proof, Request};

/// Why a request has no proof.
#[derive(Clone, Copy, Debug, PartialEq, Eq)]
pub enum MakeFault {
    /// The request has no honest answer: another fork, a block that isn't held, no block that has the byte, a node that
    /// isn't stored, more siblings than the path has, or an upgrade to another length than the head's or from none
    /// below it.
    NoReply,
    /// The view reported this.
    Reported(CoreFault),
}

/// The proof of the parts that are asked for, with the block's bytes in `buf`. A block may be asked for by a byte of the
/// log that it has. `NoReply` comes before the parts are read: of a sought byte the way to its block alone.
pub fn make<'b, V: View>(
    view: &mut V,
    request: &Request,
    buf: &'b mut [u8],
) -> Result<Proof<'b>, MakeFault>
    requires fits { RequestFits request.now }
    requires capacity { MAX_BLOCK_BYTES ≤ length buf.old }
    ensures no_reply { IsErrOf result MakeFault.NoReply
        → LacksReply (V.view view.old).source request.now }
    ensures given { IfOk result (λ proof.
        GivesReply (V.view view.old).source request.now (proof_view proof)) }
    ensures fits { IfOk result (λ proof. ProofFits (proof_view proof)) }
    ensures none { let s = (V.view view.old).source in IsTrue s.shows → IsSound s.content
        → IsErrOf result MakeFault.NoReply → made_from s.content request.now ≡ None }
    ensures made { let s = (V.view view.old).source in IsTrue s.shows → IsSound s.content
        → IfOk result (λ proof. made_from s.content request.now ≡ Some (proof_view proof)) }
    ensures keeps { Keeps (V.view view.old) (V.view view.new) }
    ensures reported { IfErr result (λ fault. (reported : CoreFaultSeen)
        → fault ≡ MakeFault.Reported reported
        → Reports (V.view view.old) (V.view view.new) reported) }
{
    let sought = match sought_block(view, request) {
        Ok(sought) => sought,
        Err(fault) => return Err(MakeFault::Reported(fault)),
    };
    if !has_reply(view, request, sought) {
        return Err(MakeFault::NoReply);
    }
    match proof_of(view, request, sought, buf) {
        Ok(proof) => Ok(proof),
        Err(fault) => Err(MakeFault::Reported(fault)),
    }
}

// The index of the held block that has the byte which is sought, if one is.
fn sought_block<V: View>(view: &mut V, request: &Request) -> Result<Option<u64>, CoreFault>
    ensures finds { IfOk result (λ sought.
        Finds (V.view view.old).source (sought_byte request.now) sought) }
    ensures held { IfOk result (λ sought. IfSome sought (λ index.
        held (V.view view.old).source.content index ≡ true)) }
    ensures sought { let s = (V.view view.old).source in IsTrue s.shows → IsSound s.content
        → IfOk result (λ sought. IsSought s.content request.now sought) }
    ensures looks { Looks (V.view view.old) (V.view view.new) result }
{
    if request.block.is_some() {
        return Ok(None);
    }
    let Some(byte) = request.seek else {
        return Ok(None);
    };
    match seek(view, byte) {
        Ok(Some(spot)) => Ok(Some(spot.index)),
        Ok(None) => Ok(None),
        Err(fault) => Err(fault),
    }
}

// Whether each part that is asked for has its answer.
fn has_reply<V: View>(view: &V, request: &Request, sought: Option<u64>) -> bool
    requires fits { RequestFits request.now }
    requires sought { IfSome sought (λ index.
        held (V.view view.now).source.content index ≡ true) }
    ensures { result ≡ has_reply (V.view view.now).source.content request.now sought }
{
    let head = view.head();
    request.fork == head.fork
        && is_found(request, sought)
        && has_block(
            view,
            head.length,
            &asked_block(head.length, request, sought),
        )
        && has_hash(view, &request.hash)
        && has_upgrade(view, head.length, &request.upgrade)
}

// Whether a block that is asked for by a byte was found.
fn is_found(request: &Request, sought: Option<u64>) -> bool
    ensures { result ≡ is_found request.now sought }
{
    request.block.is_some() || request.seek.is_none() || sought.is_some()
}

// The proof, each part of which has its answer.
fn proof_of<'b, V: View>(
    view: &mut V,
    request: &Request,
    sought: Option<u64>,
    buf: &'b mut [u8],
) -> Result<Proof<'b>, CoreFault>
    requires fits { RequestFits request.now }
    requires sought { IfSome sought (λ index.
        held (V.view view.old).source.content index ≡ true) }
    requires capacity { MAX_BLOCK_BYTES ≤ length buf.old }
    requires answered { has_reply (V.view view.old).source.content request.now sought ≡ true }
    ensures given { IfOk result (λ proof.
        IsReply (V.view view.old).source request.now sought (proof_view proof)) }
    ensures fits { IfOk result (λ proof. ProofFits (proof_view proof)) }
    ensures looks { Looks (V.view view.old) (V.view view.new) result }
{
    let want = asked_block(view.head().length, request, sought);
    let block = match block_part(view, &want, buf) {
        Ok(block) => block,
        Err(fault) => return Err(fault),
    };
    let hash = match hash_part(view, &request.hash) {
        Ok(hash) => hash,
        Err(fault) => return Err(fault),
    };
    match upgrade_part(view, &request.upgrade) {
        Ok(upgrade) => Ok(Proof {
            fork: request.fork,
            block,
            hash,
            seek: request.seek,
            upgrade,
        }),
        Err(fault) => Err(fault),
    }
}
