//! Whether a proof from a stranger is admitted over a view of a log, and what it changes.
ghost use Rattle.std.specs.Prelude.{◌≡◌, ◌≤◌, ◌+◌, ◌⊎◌, [], None, Some, ℕ, IfOk, IfErr, IsTrue, length as count, vec_capacity};
ghost use Rattle.node_set.specs.declared.fault.CoreFault.TheVariants.{Memory};
ghost use Rattle.node_set.specs.Contents.{Content, held};
ghost use Rattle.node_set.specs.Whole.{IsSound};
ghost use Rattle.log_view.specs.Views.{Keeps, Looks, Reports};
ghost use Rattle.log_view.specs.Overlays.{IsLaid, laid_over};
ghost use Rattle.log_change.specs.LogChange.{Ascend, MayCommit};
ghost use Rattle.proof_form.specs.Proofs.{ProofFits, view as proof_view};
ghost use Rattle.proof_check.specs.Admission.{IsRefusal};
ghost use Rattle.proof_check.specs.Upgraded.{length_after};
ghost use Rattle.proof_check.specs.Judge.{signature_refusal, refusal_of};
ghost use Rattle.proof_judge.specs.Numbers.{numbers_refusal};
ghost use Rattle.proof_judge.specs.PartsMet.{IsWithin, IsBlockWay};
ghost use Rattle.proof_judge.specs.Judging.{later_refusal, Fails, IsJudged, Admits, IsSigned};

use crate::admission::{fetch_change, incoming, upgrade_change};
use crate::fresh::{gather, put_fresh};
use crate::numbers::refused_by_numbers;
use crate::part::{MAX_WAY_NODES, Way};
use crate::parts::meet_parts;
use crate::seek::refused_by_seek;
use crate::signed::refused_by_verifier;
use crate::upgrade::{LogAfter, MAX_LAID_NODES, lay_upgrade};
use log_change::LogChange;
use log_view::{Overlay, View};
use merkle_nodes::Node;
use node_set::{CoreFault, Refusal};
use outside_traits::Verifier;
use proof_form::{Proof, UpgradePart};
use std::alloc::Global;

/// The most nodes that come in with a proof.
pub const MAX_COMING_NODES: usize = MAX_LAID_NODES + MAX_WAY_NODES;

/// Judges a proof over a view of a log, which isn't changed. Answers the change that the proof makes, and leaves in
/// `fresh` the nodes that have to be written with it, in the order of their numbers: `fresh` is empty before, with
/// capacity for `MAX_COMING_NODES`, and what it has after an `Err` isn't said. `Refused` has the first refusal that
/// holds, in the order of its variants; `Memory` comes where there is no memory for two lists of nodes, and each other
/// `Err` is the view's.
pub fn judge<V: View, A: Verifier>(
    alloc: Global,
    view: &mut V,
    verifier: &A,
    proof: &Proof<'_>,
    fresh: &mut Vec<Node>,
) -> Result<LogChange, CoreFault>
    requires fits { ProofFits (proof_view proof.now) }
    requires empty { fresh.old.items ≡ [] }
    requires room { MAX_COMING_NODES ≤ vec_capacity fresh.old }

    // where the view shows a sound content
    ensures admits { let s = (V.view view.old).source in IsTrue s.shows → IsSound s.content
        → IfOk result (Admits (A.accepts verifier.now) (proof_view proof.now) s.content fresh.new.items) }
    ensures refused { let s = (V.view view.old).source in IsTrue s.shows → IsSound s.content
        → IfErr result (λ fault. (fault ≡ Memory) ⊎ Fails (V.view view.old) (V.view view.new)
        (refusal_of (A.accepts verifier.now) (proof_view proof.now) s.content) fault) }

    // of any view, also of one that doesn't give what is its content's
    ensures signed { IfOk result (IsSigned (A.accepts verifier.now) (proof_view proof.now)) }
    ensures legal { IfOk result (MayCommit (V.view view.old).source.content) }
    ensures told { IfErr result (λ fault. (fault ≡ Memory)
        ⊎ (IsRefusal fault ⊎ Reports (V.view view.old) (V.view view.new) fault)) }
    ensures keeps { Keeps (V.view view.old) (V.view view.new) }
{
    let refusal = refused_by_numbers(proof, &view.head(), view.roots().as_slice());
    if let Some(refusal) = refusal {
        return Err(CoreFault::Refused(refusal));
    }
    match &proof.upgrade {
        Some(upgrade) => judge_upgrade(alloc, view, verifier, proof, upgrade, fresh),
        None => judge_alone(alloc, view, verifier, proof, fresh),
    }
}

// Judges a proof without an upgrade, whose numbers aren't refused.
fn judge_alone<V: View, A: Verifier>(
    alloc: Global,
    view: &mut V,
    verifier: &A,
    proof: &Proof<'_>,
    fresh: &mut Vec<Node>,
) -> Result<LogChange, CoreFault>
    requires fits { ProofFits (proof_view proof.now) }
    requires alone { proof.now.upgrade ≡ None }
    requires passes { numbers_refusal (proof_view proof.now) (V.view view.old).source.content ≡ None }
    requires empty { fresh.old.items ≡ [] }
    requires room { MAX_COMING_NODES ≤ vec_capacity fresh.old }
    ensures admits { let s = (V.view view.old).source in IsTrue s.shows → IsSound s.content
        → IfOk result (Admits (A.accepts verifier.now) (proof_view proof.now) s.content fresh.new.items) }
    ensures refused { let s = (V.view view.old).source in IsTrue s.shows → IsSound s.content
        → IfErr result (λ fault. (fault ≡ Memory) ⊎ Fails (V.view view.old) (V.view view.new)
        (refusal_of (A.accepts verifier.now) (proof_view proof.now) s.content) fault) }
    ensures legal { IfOk result (MayCommit (V.view view.old).source.content) }
    ensures told { IfErr result (λ fault. (fault ≡ Memory)
        ⊎ (IsRefusal fault ⊎ Reports (V.view view.old) (V.view view.new) fault)) }
    ensures keeps { Keeps (V.view view.old) (V.view view.new) }
{
    let head = view.head();
    let mut nodes = match list_for(alloc, MAX_COMING_NODES) {
        Ok(nodes) => nodes,
        Err(fault) => return Err(fault),
    };
    let index = match judge_over(view, verifier, proof, &[], &mut nodes) {
        Ok(index) => index,
        Err(fault) => return Err(fault),
    };
    match put_fresh(view, head.length, nodes.as_slice(), fresh) {
        Ok(()) => Ok(fetch_change(head, view.roots(), index)),
        Err(fault) => Err(fault),
    }
}

// Judges a proof with an upgrade, whose numbers aren't refused.
fn judge_upgrade<V: View, A: Verifier>(
    alloc: Global,
    view: &mut V,
    verifier: &A,
    proof: &Proof<'_>,
    upgrade: &UpgradePart,
    fresh: &mut Vec<Node>,
) -> Result<LogChange, CoreFault>
    requires fits { ProofFits (proof_view proof.now) }
    requires upgrade { proof.now.upgrade ≡ Some upgrade.now }
    requires passes { numbers_refusal (proof_view proof.now) (V.view view.old).source.content ≡ None }
    requires empty { fresh.old.items ≡ [] }
    requires room { MAX_COMING_NODES ≤ vec_capacity fresh.old }
    ensures admits { let s = (V.view view.old).source in IsTrue s.shows → IsSound s.content
        → IfOk result (Admits (A.accepts verifier.now) (proof_view proof.now) s.content fresh.new.items) }
    ensures refused { let s = (V.view view.old).source in IsTrue s.shows → IsSound s.content
        → IfErr result (λ fault. (fault ≡ Memory) ⊎ Fails (V.view view.old) (V.view view.new)
        (refusal_of (A.accepts verifier.now) (proof_view proof.now) s.content) fault) }
    ensures signed { IfOk result (IsSigned (A.accepts verifier.now) (proof_view proof.now)) }
    ensures legal { IfOk result (MayCommit (V.view view.old).source.content) }
    ensures told { IfErr result (λ fault. (fault ≡ Memory)
        ⊎ (IsRefusal fault ⊎ Reports (V.view view.old) (V.view view.new) fault)) }
    ensures keeps { Keeps (V.view view.old) (V.view view.new) }
{
    let before = view.head();
    let mut laid = match list_for(alloc, MAX_LAID_NODES) {
        Ok(laid) => laid,
        Err(fault) => return Err(fault),
    };
    let mut nodes = match list_for(alloc, MAX_COMING_NODES) {
        Ok(nodes) => nodes,
        Err(fault) => return Err(fault),
    };
    let after = match lay_upgrade(view, proof.fork, upgrade, &mut laid) {
        Ok(after) => after,
        Err(fault) => return Err(fault),
    };
    let index = match judge_laid(view, verifier, proof, &after, laid.as_slice(), &mut nodes) {
        Ok(index) => index,
        Err(fault) => return Err(fault),
    };
    match put_fresh(view, after.head.length, nodes.as_slice(), fresh) {
        Ok(()) => Ok(upgrade_change(&before, after, index)),
        Err(fault) => Err(fault),
    }
}

// An empty list with room for so many nodes. The `Err` is `Memory`.
fn list_for(alloc: Global, count: usize) -> Result<Vec<Node>, CoreFault>
    ensures empty { IfOk result (λ list. list.items ≡ []) }
    ensures room { IfOk result (λ list. count ≤ vec_capacity list) }
    ensures memory { IfErr result (λ fault. fault ≡ Memory) }
{
    match Vec::with_capacity(alloc, count) {
        Ok(list) => Ok(list),
        Err(_) => Err(CoreFault::Memory),
    }
}

// Why a proof is refused over the log with its upgrade in: by its parts, its signature or its sought byte, in this
// order. The verifier is called where the parts are not refused. The block's path is left in `way` where nothing is
// refused.
fn refused_over<W: View, A: Verifier>(
    over: &mut W,
    verifier: &A,
    proof: &Proof<'_>,
    way: &mut Way,
) -> Result<Option<Refusal>, CoreFault>
    requires within { IsWithin (W.view over.old).source.content.length (proof_view proof.now) }
    requires fork { (W.view over.old).source.content.fork ≡ proof.now.fork }
    requires length { (m : Content)
        × ((W.view over.old).source.content.length ≡ length_after (proof_view proof.now) m) }
    ensures content { let s = (W.view over.old).source in IsTrue s.shows → IsSound s.content
        → IfOk result (λ refusal. refusal
        ≡ later_refusal (A.accepts verifier.now) (proof_view proof.now) s.content) }
    ensures signed { IfOk result (λ refusal. refusal ≡ None → signature_refusal (A.accepts verifier.now)
        (proof_view proof.now) (W.view over.old).source.content ≡ None) }
    ensures way { let m = (W.view over.old).source.content in IfOk result (λ refusal. refusal ≡ None
        → IsBlockWay m.length (held m) (proof_view proof.now).block way.new) }
    ensures looks { Looks (W.view over.old) (W.view over.new) result }
{
    match meet_parts(over, proof, way) {
        Ok(None) => {}
        Ok(refusal) => return Ok(refusal),
        Err(fault) => return Err(fault),
    }
    let refusal = refused_by_verifier(verifier, proof, over.roots());
    if refusal.is_some() {
        return Ok(refusal);
    }
    refused_by_seek(over, proof, way)
}

// Judges a proof over the log with its upgrade in. Answers the index of the block that comes in, if one does. Leaves in
// `nodes` those of the laid ones and of the block's path that may have to be written.
fn judge_over<W: View, A: Verifier>(
    over: &mut W,
    verifier: &A,
    proof: &Proof<'_>,
    laid: &[Node],
    nodes: &mut Vec<Node>,
) -> Result<Option<u64>, CoreFault>
    requires within { IsWithin (W.view over.old).source.content.length (proof_view proof.now) }
    requires fork { (W.view over.old).source.content.fork ≡ proof.now.fork }
    requires length { (m : Content)
        × ((W.view over.old).source.content.length ≡ length_after (proof_view proof.now) m) }
    requires order { Ascend laid.now }
    requires few { count laid.now ≤ MAX_LAID_NODES }
    requires empty { nodes.old.items ≡ [] }
    requires room { MAX_COMING_NODES ≤ vec_capacity nodes.old }
    ensures judged { let s = (W.view over.old).source in IfOk result (IsJudged (A.accepts verifier.now)
        (proof_view proof.now) s.shows s.content laid.now nodes.new.items) }
    ensures refused { let s = (W.view over.old).source in IsTrue s.shows → IsSound s.content
        → IfErr result (Fails (W.view over.old) (W.view over.new)
        (later_refusal (A.accepts verifier.now) (proof_view proof.now) s.content)) }
    ensures told { IfErr result (λ fault. IsRefusal fault
        ⊎ Reports (W.view over.old) (W.view over.new) fault) }
    ensures keeps { Keeps (W.view over.old) (W.view over.new) }
{
    let mut way = Way::new(Node::BLANK);
    match refused_over(over, verifier, proof, &mut way) {
        Ok(None) => {}
        Ok(Some(refusal)) => return Err(CoreFault::Refused(refusal)),
        Err(fault) => return Err(fault),
    }
    gather(over, laid, &way, nodes);
    Ok(incoming(over, &proof.block))
}

// Judges a proof over a view with the upgrade laid over it.
fn judge_laid<V: View, A: Verifier>(
    view: &mut V,
    verifier: &A,
    proof: &Proof<'_>,
    after: &LogAfter,
    laid: &[Node],
    nodes: &mut Vec<Node>,
) -> Result<Option<u64>, CoreFault>
    requires is_laid { IsLaid (V.view view.old).source.content after.now.head after.now.roots after.now.kept
        laid.now }
    requires within { IsWithin after.now.head.length (proof_view proof.now) }
    requires fork { after.now.head.fork ≡ proof.now.fork }
    requires length { (m : Content) × (after.now.head.length ≡ length_after (proof_view proof.now) m) }
    requires few { count laid.now ≤ MAX_LAID_NODES }
    requires empty { nodes.old.items ≡ [] }
    requires room { MAX_COMING_NODES ≤ vec_capacity nodes.old }
    ensures judged { let s = (V.view view.old).source in IfOk result (IsJudged (A.accepts verifier.now)
        (proof_view proof.now) s.shows (laid_over s.content after.now.head after.now.kept laid.now)
        laid.now nodes.new.items) }
    ensures refused { let s = (V.view view.old).source in IsTrue s.shows
        → IsSound (laid_over s.content after.now.head after.now.kept laid.now)
        → IfErr result (Fails (V.view view.old) (V.view view.new)
        (later_refusal (A.accepts verifier.now) (proof_view proof.now)
        (laid_over s.content after.now.head after.now.kept laid.now))) }
    ensures told { IfErr result (λ fault. IsRefusal fault
        ⊎ Reports (V.view view.old) (V.view view.new) fault) }
    ensures keeps { Keeps (V.view view.old) (V.view view.new) }
{
    let mut over = Overlay::new(view, after.head, &after.roots, after.kept, laid);
    judge_over(&mut over, verifier, proof, laid, nodes)
}
