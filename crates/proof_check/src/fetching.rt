//! The decision on a proof without an upgrade, whose block comes in under the nodes and the roots that are stored.
ghost use Rattle.std.specs.Prelude.{◌≡◌, ℕ, ◌<◌, ◌≤◌, ◌⊎◌, Bool, List, [], None, IsTrue, IfOk, IfErr};
ghost use Rattle.flat_tree.specs.declared.limits.TheConstants.{MAX_BLOCKS, MAX_SIBLINGS};
ghost use Rattle.node_set.specs.Contents.{held, roots};
ghost use Rattle.node_set.specs.Views.{KeepsContent, HasViewCause, AnswersBy, TellsFault};
ghost use Rattle.node_set.specs.Walks.{IsFirstStored};
ghost use Rattle.node_set.specs.Whole.{IsSound};
ghost use Rattle.proof_form.specs.Proofs.{ProofFits, view as proof_view};
ghost use Rattle.proof_check.specs.Admission.{IsAdmission, IsRefusal, refused};
ghost use Rattle.proof_check.specs.Meets.{IsValue};
ghost use Rattle.proof_check.specs.Reaching.{IsOpen, IsLegalChange};
ghost use Rattle.proof_check.specs.Settling.{late_refusal};

use crate::block::refused_block;
use crate::path::{Met, met_below};
use crate::reach::incoming;
use crate::settle::fetch;
use flat_tree::root_of_block;
use merkle_nodes::{Head, Roots};
use node_set::{Change, CoreFault, View};
use proof_form::Proof;

/// Decides on a proof without an upgrade: the refusal by a stored node, or the change, which it puts into a place.
pub(crate) fn decide_fetch<V: View>(
    view: &mut V,
    proof: &Proof<'_>,
    head: &Head,
    change: &mut Change,
) -> Result<(), CoreFault>
    requires fits { ProofFits (proof_view proof.now) }
    requires none { proof.now.upgrade ≡ None }
    requires is_open { IsOpen (proof_view proof.now) (V.view view.old).content head.now }
    ensures answers { let m = (V.view view.old).content in IsTrue (V.view view.old).stands → IsSound m
        → (accepts : List ℕ → List ℕ → Bool) → AnswersBy (V.view view.old) (V.view view.new)
        (refused (late_refusal accepts (proof_view proof.now) m)) (λ _. IsAdmission (proof_view proof.now) m change.new) result }
    ensures legal { IfOk result (λ _. IsLegalChange (proof_view proof.now) (V.view view.old).content change.new) }
    ensures told { IfErr result (λ fault. IsRefusal fault ⊎ TellsFault (V.view view.old) (V.view view.new) fault) }
    ensures keeps { KeepsContent (V.view view.old) (V.view view.new) }
    ensures faults { (V.view view.old).faults ≤ (V.view view.new).faults }
    ensures answered { (V.view view.old).answered ≤ (V.view view.new).answered }
{
    keep_head(change, head, view.roots());
    let Some(block) = &proof.block else {
        return Ok(());
    };
    let met = match first_met(view, head.length, block.index) {
        Ok(met) => met,
        Err(fault) => return Err(fault),
    };
    change.commit = fetch(incoming(view, block.index));
    match refused_block(block, &met, &mut change.fresh) {
        Some(refusal) => Err(CoreFault::Refused(refusal)),
        None => Ok(()),
    }
}

// The change that keeps the head and the roots, with nothing that comes in so far.
fn keep_head(change: &mut Change, head: &Head, roots: &Roots)
    ensures head { change.new.head ≡ head.now }
    ensures roots { change.new.roots ≡ roots.now }
    ensures commit { change.new.commit ≡ None }
    ensures fresh { change.new.fresh ≡ [] }
{
    change.head = *head;
    change.roots.clear();
    change.roots.extend(roots.as_slice());
    change.commit = None;
    change.fresh.clear();
}

// The first stored node of the path of a block of a log: one below its root, or the root.
fn first_met<V: View>(view: &mut V, length: u64, index: u64) -> Result<Met, CoreFault>
    requires length { length ≡ (V.view view.old).content.length }
    requires few { length ≤ MAX_BLOCKS }
    requires within { index < length }
    ensures few { IfOk result (λ met. met.level ≤ MAX_SIBLINGS) }
    ensures stored { let m = (V.view view.old).content in
        IfOk result (λ met. IsFirstStored length (held m) index met.level) }
    ensures value { let m = (V.view view.old).content in IsTrue (V.view view.old).stands → IsSound m
        → IfOk result (IsValue m.node index) }
    ensures keeps { KeepsContent (V.view view.old) (V.view view.new) }
    ensures cause { HasViewCause (V.view view.old) (V.view view.new) result }
{
    let (place, levels) = root_of_block(length, index);
    match met_below(view, index, levels) {
        Ok(Some(met)) => Ok(met),
        Ok(None) => {
            let node = view.roots().at(place);
            Ok(Met {
                level: levels,
                node,
            })
        }
        Err(fault) => Err(fault),
    }
}
