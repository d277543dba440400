//! Laws of what is judged by numbers. Nothing runs: each holds for every proof and every content.
ghost use Rattle.std.specs.Prelude.{◌≡◌, ℕ, Bool, List, Some, None};
ghost use Rattle.proof_form.specs.declared.proof.UpgradePart.{UpgradePart as UpgradeSpelled};
ghost use Rattle.proof_form.specs.Proofs.{Proof as ProofSpelled, ProofFits};
ghost use Rattle.node_set.specs.Contents.{Content};
ghost use Rattle.node_set.specs.Refuses.{or_else};
ghost use Rattle.node_set.specs.Whole.{IsSound};
ghost use Rattle.proof_check.specs.Upgraded.{length_after, with_upgrade};
ghost use Rattle.proof_check.specs.Parts.{range_refusal};
ghost use Rattle.proof_check.specs.Judge.{each_part, limit_refusal, head_refusal, refusal_of};
ghost use Rattle.proof_judge.specs.Numbers.{numbers_refusal};
ghost use Rattle.proof_judge.specs.Laying.{IsDue};
ghost use Rattle.proof_judge.specs.Judging.{later_refusal};

/// Over a sound content what the numbers of a proof are refused by is the first part of what it is refused by: the
/// limits of the log after it, then each part's range, then the head. All other refusals come behind these.
#[tactic(auto, using(crate::proofs::NumbersFirst::numbers_first, crate::proofs::NumbersFirst::then_later))]
pub fn numbers_come_first()
    ensures first { (p : ProofSpelled) → (m : Content) → IsSound m → ProofFits p
        → numbers_refusal p m ≡ or_else (limit_refusal p m)
        (or_else (each_part p (range_refusal (length_after p m))) (head_refusal p m)) }
    ensures others { (accepts : List ℕ → List ℕ → Bool) → (p : ProofSpelled) → (m : Content)
        → IsSound m → ProofFits p → refusal_of accepts p m
        ≡ or_else (numbers_refusal p m) (later_refusal accepts p (with_upgrade p m)) }
{}

/// An upgrade that its proof's numbers aren't refused for can be laid over the log.
#[tactic(auto, using(crate::proofs::NumbersFirst::due_is))]
pub fn what_numbers_leave()
    ensures { (p : ProofSpelled) → (m : Content) → (u : UpgradeSpelled) → p.upgrade ≡ Some u
        → ProofFits p → numbers_refusal p m ≡ None → IsDue p.fork u m }
{}
