//! Whether the verifier refuses the head that an upgrade leads to.
ghost use Rattle.std.specs.Prelude.{◌≡◌, not};
ghost use Rattle.merkle_nodes.specs.Roots.{root_hash_of, signed_text};
ghost use Rattle.node_set.specs.declared.fault.Refusal.TheVariants.{BadSignature};
ghost use Rattle.node_set.specs.Contents.{Content, roots as roots_in};
ghost use Rattle.node_set.specs.Refuses.{refuse_if};
ghost use Rattle.proof_form.specs.Proofs.{view};
ghost use Rattle.proof_check.specs.Judge.{signature_refusal};
ghost use Rattle.proof_check.specs.Parts.{of_part};
ghost use Rattle.proof_check.specs.Upgraded.{length_after};

use merkle_nodes::{Roots, root_hash, signable};
use node_set::Refusal;
use outside_traits::Verifier;
use proof_form::{Proof, UpgradePart};

/// `BadSignature` where the verifier refuses the head that the proof's upgrade leads to, under the proof's fork and
/// over these roots, which are those of the log with the upgrade in.
pub fn refused_by_verifier<A: Verifier>(
    verifier: &A,
    proof: &Proof<'_>,
    roots: &Roots,
) -> Option<Refusal>
    ensures { (m after : Content) → after.fork ≡ proof.now.fork
        → after.length ≡ length_after (view proof.now) m → roots_in after ≡ roots.now
        → result ≡ signature_refusal (A.accepts verifier.now) (view proof.now) after }
{
    refused_head(verifier, &proof.upgrade, proof.fork, roots)
}

fn refused_head<A: Verifier>(
    verifier: &A,
    upgrade: &Option<UpgradePart>,
    fork: u64,
    roots: &Roots,
) -> Option<Refusal>
    ensures { result ≡ of_part upgrade.now (λ u. refuse_if (not (A.accepts verifier.now
        (signed_text (root_hash_of roots.now) u.length fork) u.signature)) BadSignature) }
{
    let Some(upgrade) = upgrade else {
        return None;
    };
    let text = signable(&root_hash(roots), upgrade.length, fork);
    if verifier.verify(&text, &upgrade.signature) {
        return None;
    }
    Some(Refusal::BadSignature)
}
