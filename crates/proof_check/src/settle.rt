//! The decision on a proof, once all that it needs is read.
ghost use Rattle.std.specs.Prelude.{◌≡◌, ℕ, ◌+◌, ◌*◌, ◌<◌, ◌≤◌, [], None, not, length, IfOk};
ghost use Rattle.flat_tree.specs.declared.limits.TheConstants.{MAX_FRESH_NODES, MAX_SIBLINGS, MAX_BLOCKS};
ghost use Rattle.merkle_nodes.specs.Roots.{root_hash_of, signed_text};
ghost use Rattle.node_set.specs.declared.fault.Refusal.TheVariants.{BadSignature};
ghost use Rattle.node_set.specs.Contents.{Content};
ghost use Rattle.node_set.specs.Refuses.{refuse_if};
ghost use Rattle.node_set.specs.Walks.{IsInTree};
ghost use Rattle.node_set.specs.Whole.{IsSound};
ghost use Rattle.proof_form.specs.Proofs.{BlockFits, ProofFits, block_view, view};
ghost use Rattle.proof_check.specs.Admission.{Ascends};
ghost use Rattle.proof_check.specs.Meets.{IsTop, block_refusal};
ghost use Rattle.proof_check.specs.Parts.{of_part};
ghost use Rattle.proof_check.specs.Reaching.{IfPart, Meets, IsGround, HasReach, IsLegalChange};
ghost use Rattle.proof_check.specs.Settling.{Settles, commit_with, PutsPart};

use crate::block::refused_block;
use crate::path::Met;
use crate::reach::Reach;
use crate::upgrade::put_joined;
use commit_book::Commit;
use merkle_nodes::{Head, Roots, root_hash, signable};
use node_set::{Change, Fresh, Refusal};
use outside_traits::Verifier;
use proof_form::{BlockPart, Proof, UpgradePart};

/// Decides on a proof: the first refusal by a stored node or by the verifier, or the change, which it puts into a place.
/// A change is told only once the verifier has accepted its head.
pub(crate) fn settle<A: Verifier>(
    verifier: &A,
    proof: &Proof<'_>,
    head: &Head,
    reach: Reach,
    change: &mut Change,
) -> Result<(), Refusal>
    requires fits { ProofFits (view proof.now) }
    requires ground { (m : Content) × IsGround (view proof.now) m head.now reach }
    ensures settles { (m : Content) → IsGround (view proof.now) m head.now reach → IsSound m
        → HasReach (view proof.now) m reach → Settles (A.accepts verifier.now) (view proof.now) m change.new result }
    ensures legal { (m : Content) → IsGround (view proof.now) m head.now reach
        → IfOk result (λ _. IsLegalChange (view proof.now) m change.new) }
{
    let Reach {
        joined,
        first,
        met,
        incoming,
    } = reach;
    change.fresh.clear();
    put_joined(&mut change.fresh, &joined, head.length, first);
    if let Some(refusal) = refused_part(&proof.block, met, &mut change.fresh) {
        return Err(refusal);
    }
    if let Some(refusal) = refused_head(verifier, &proof.upgrade, head.fork, &joined.roots) {
        return Err(refusal);
    }
    change.head = head_with(&proof.upgrade, head);
    change.roots = joined.roots;
    change.commit = commit_for(&proof.upgrade, incoming);
    Ok(())
}

// Why a block that is there is refused by the stored node that its path meets. Where it isn't, its path below comes in.
fn refused_part(
    block: &Option<BlockPart<'_>>,
    met: Option<Met>,
    fresh: &mut Fresh,
) -> Option<Refusal>
    requires meets { Meets (block_view block.now) met (λ b met. IsInTree b.index met.level) }
    requires fits { IfPart (block_view block.now) BlockFits }
    requires order { Ascends fresh.old }
    requires room { length fresh.old + 2 * MAX_SIBLINGS ≤ MAX_FRESH_NODES }
    ensures refusal { (m : Content) → Meets (block_view block.now) met (IsTop m)
        → result ≡ of_part (block_view block.now) (block_refusal m) }
    ensures puts { result ≡ None → PutsPart (block_view block.now) met fresh.old fresh.new }
    ensures order { Ascends fresh.new }
{
    let Some(block) = block else {
        return None;
    };
    match met {
        Some(met) => refused_block(block, &met, fresh),
        None => None,
    }
}

// Whether the verifier refuses an upgraded head.
fn refused_head<A: Verifier>(
    verifier: &A,
    upgrade: &Option<UpgradePart>,
    fork: u64,
    roots: &Roots,
) -> Option<Refusal>
    ensures { result ≡ of_part upgrade.now (λ u. refuse_if
        (not (A.accepts verifier.now (signed_text (root_hash_of roots.now) u.length fork) u.signature)) BadSignature) }
{
    let Some(upgrade) = upgrade else {
        return None;
    };
    let text = signable(&root_hash(roots), upgrade.length, fork);
    if verifier.verify(&text, &upgrade.signature) {
        return None;
    }
    Some(Refusal::BadSignature)
}

// The head once an upgrade is in.
fn head_with(upgrade: &Option<UpgradePart>, head: &Head) -> Head
    ensures none { upgrade.now ≡ None → result ≡ head.now }
    ensures some { IfPart upgrade.now (λ u.
        result ≡ record { fork = head.now.fork; length = u.length; signature = u.signature }) }
{
    match upgrade {
        Some(upgrade) => Head {
            fork: head.fork,
            length: upgrade.length,
            signature: upgrade.signature,
        },
        None => *head,
    }
}

// What is committed.
fn commit_for(upgrade: &Option<UpgradePart>, incoming: Option<u64>) -> Option<Commit>
    ensures { result ≡ commit_with upgrade.now incoming }
{
    let Some(upgrade) = upgrade else {
        return fetch(incoming);
    };
    let to = upgrade.length;
    match incoming {
        Some(index) => Some(Commit::UpgradeFetch { to, index }),
        None => Some(Commit::Upgrade { to }),
    }
}

/// The commit of a block that comes in, if one does.
pub(crate) fn fetch(incoming: Option<u64>) -> Option<Commit>
    ensures { result ≡ commit_with None incoming }
{
    match incoming {
        Some(index) => Some(Commit::Fetch { index }),
        None => None,
    }
}
