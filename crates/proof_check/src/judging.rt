//! Whether an offered proof is admitted.
ghost use Rattle.std.specs.Prelude.{◌≡◌, ◌<◌, ◌≤◌, ◌⊎◌, [], None, Err, IfOk, IfErr, IsTrue, IsSome};
ghost use Rattle.node_set.specs.declared.fault.CoreFault.TheVariants.{Refused};
ghost use Rattle.node_set.specs.declared.fault.Refusal.TheVariants.{NewFork};
ghost use Rattle.node_set.specs.Views.{KeepsContent, AnswersBy, TellsFault};
ghost use Rattle.node_set.specs.Whole.{IsSound};
ghost use Rattle.proof_form.specs.Proofs.{ProofFits, view as proof_view};
ghost use Rattle.proof_check.specs.Admission.{IsPlain, IsServed, IsAdmission, IsRefusal, refused};
ghost use Rattle.proof_check.specs.Judge.{refusal_of};
ghost use Rattle.proof_check.specs.Reaching.{IsOpen, IsLegalChange};
ghost use Rattle.proof_check.specs.Settling.{late_refusal};

use crate::fetching::decide_fetch;
use crate::heads::refused_first;
use crate::prepared::Prepared;
use crate::reach::gather;
use crate::settle::settle;
use merkle_nodes::{Head, Node, Roots};
use node_set::{Change, CoreFault, Fresh, View};
use outside_traits::Verifier;
use proof_form::Proof;

/// Decides on an offered proof over a view: the first refusal that holds, or the change that it makes. The view stays;
/// each of its nodes is read once at most, and a change is handed out only once the verifier has accepted its head.
/// `Err(Refused)` says why the proof is refused; each other `Err` is the view's.
pub fn judge<V: View, A: Verifier>(
    view: &mut V,
    verifier: &A,
    prepared: &Prepared<'_>,
) -> Result<Change, CoreFault>
    requires plain { IsPlain prepared.now }
    ensures answers { let m = (V.view view.old).content in
        IsTrue (V.view view.old).stands → IsServed prepared.now m
        → AnswersBy (V.view view.old) (V.view view.new)
        (refused (refusal_of (A.accepts verifier.now) prepared.now m)) (IsAdmission prepared.now m) result }
    ensures new_fork { let m = (V.view view.old).content in m.fork < prepared.now.fork
        → IsSome prepared.now.upgrade → result ≡ Err (Refused (NewFork m.fork)) }

    // of any view, also of one that doesn't give what it stands for
    ensures legal { IfOk result (IsLegalChange prepared.now (V.view view.old).content) }
    ensures told { IfErr result (λ fault.
        IsRefusal fault ⊎ TellsFault (V.view view.old) (V.view view.new) fault) }
    ensures keeps { KeepsContent (V.view view.old) (V.view view.new) }
    ensures faults { (V.view view.old).faults ≤ (V.view view.new).faults }
    ensures answered { (V.view view.old).answered ≤ (V.view view.new).answered }
{
    let mut change = no_change();
    match judge_into(view, verifier, prepared, &mut change) {
        Ok(()) => Ok(change),
        Err(fault) => Err(fault),
    }
}

/// Decides as `judge`, and puts the change into a place, of which no byte is cleared before. What is in the place after
/// an `Err` is not said.
pub fn judge_into<V: View, A: Verifier>(
    view: &mut V,
    verifier: &A,
    prepared: &Prepared<'_>,
    change: &mut Change,
) -> Result<(), CoreFault>
    requires plain { IsPlain prepared.now }
    ensures answers { let m = (V.view view.old).content in
        IsTrue (V.view view.old).stands → IsServed prepared.now m
        → AnswersBy (V.view view.old) (V.view view.new)
        (refused (refusal_of (A.accepts verifier.now) prepared.now m)) (λ _. IsAdmission prepared.now m change.new) result }
    ensures new_fork { let m = (V.view view.old).content in m.fork < prepared.now.fork
        → IsSome prepared.now.upgrade → result ≡ Err (Refused (NewFork m.fork)) }

    // of any view, also of one that doesn't give what it stands for
    ensures legal { IfOk result (λ _. IsLegalChange prepared.now (V.view view.old).content change.new) }
    ensures told { IfErr result (λ fault.
        IsRefusal fault ⊎ TellsFault (V.view view.old) (V.view view.new) fault) }
    ensures keeps { KeepsContent (V.view view.old) (V.view view.new) }
    ensures faults { (V.view view.old).faults ≤ (V.view view.new).faults }
    ensures answered { (V.view view.old).answered ≤ (V.view view.new).answered }
{
    let proof = prepared.proof();
    let head = view.head();
    if let Some(refusal) = refused_first(proof, &head, view.roots().as_slice()) {
        return Err(CoreFault::Refused(refusal));
    }
    match &proof.upgrade {
        Some(_) => decide_upgrade(view, verifier, proof, &head, change),
        None => decide_fetch(view, proof, &head, change),
    }
}

/// A place for a change, in which nothing comes in.
pub fn no_change() -> Change
    ensures commit { result.commit ≡ None }
    ensures fresh { result.fresh ≡ [] }
{
    Change {
        head: Head {
            fork: 0,
            length: 0,
            signature: [0; 64],
        },
        roots: Roots::new(Node::BLANK),
        commit: None,
        fresh: Fresh::new(Node::BLANK),
    }
}

// Decides on a proof that no number forbids, once all that it needs is read.
fn decide_upgrade<V: View, A: Verifier>(
    view: &mut V,
    verifier: &A,
    proof: &Proof<'_>,
    head: &Head,
    change: &mut Change,
) -> Result<(), CoreFault>
    requires fits { ProofFits (proof_view proof.now) }
    requires is_open { IsOpen (proof_view proof.now) (V.view view.old).content head.now }
    ensures answers { let m = (V.view view.old).content in IsTrue (V.view view.old).stands → IsSound m
        → AnswersBy (V.view view.old) (V.view view.new) (refused (late_refusal (A.accepts verifier.now) (proof_view proof.now) m))
        (λ _. IsAdmission (proof_view proof.now) m change.new) result }
    ensures legal { IfOk result (λ _. IsLegalChange (proof_view proof.now) (V.view view.old).content change.new) }
    ensures told { IfErr result (λ fault. IsRefusal fault ⊎ TellsFault (V.view view.old) (V.view view.new) fault) }
    ensures keeps { KeepsContent (V.view view.old) (V.view view.new) }
    ensures faults { (V.view view.old).faults ≤ (V.view view.new).faults }
    ensures answered { (V.view view.old).answered ≤ (V.view view.new).answered }
{
    let reach = match gather(view, proof, head) {
        Ok(reach) => reach,
        Err(fault) => return Err(fault),
    };
    match settle(verifier, proof, head, reach, change) {
        Ok(()) => Ok(()),
        Err(refusal) => Err(CoreFault::Refused(refusal)),
    }
}
