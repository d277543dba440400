//! Laws of admission. Nothing runs: each holds for every proof and every content.
ghost use Rattle.std.specs.Prelude.{◌≡◌, ◌≤◌, ℕ, Bool, List, None};
ghost use Rattle.proof_form.specs.Proofs.{Proof, ProofFits};
ghost use Rattle.node_set.specs.Contents.{Content};
ghost use Rattle.node_set.specs.Evidence.{IsOf, OrClash};
ghost use Rattle.node_set.specs.Legal.{KeepsHistory};
ghost use Rattle.node_set.specs.Whole.{IsWhole};
ghost use Rattle.proof_check.specs.Judge.{refusal_of, admitted, commit_of};
ghost use Rattle.proof_check.specs.Covering.{Covers, ProofIsOf};

/// A whole content stays whole under each proof that isn't refused, and its history stays legal; so far under its own fork.
pub fn admitted_stays_whole()
    ensures whole { (accepts : List ℕ → List ℕ → Bool) → (p : Proof) → (m : Content)
        → IsWhole accepts m → ProofFits p → p.fork ≤ m.fork → refusal_of accepts p m ≡ None
        → IsWhole accepts (admitted p m) }
    ensures history { (accepts : List ℕ → List ℕ → Bool) → (p : Proof) → (m : Content)
        → IsWhole accepts m → ProofFits p → p.fork ≤ m.fork → refusal_of accepts p m ≡ None
        → KeepsHistory m (admitted p m) (commit_of p m) }
{}

/// A proof that is of the log, and covers what a whole content of that log lacks, isn't refused, or two different inputs of
/// equal hash are in hand; so far without a node part.
pub fn covering_proofs_are_admitted()
    ensures { (accepts : List ℕ → List ℕ → Bool) → (p : Proof) → (m : Content) → (log : List (List ℕ))
        → IsWhole accepts m → ProofFits p → p.hash ≡ None → p.fork ≤ m.fork → IsOf m log
        → ProofIsOf accepts log p → Covers p m → OrClash (refusal_of accepts p m ≡ None) m log }
{}
