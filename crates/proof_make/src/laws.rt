//! What the definitions promise of proofs.
ghost use Rattle.std.specs.Prelude.{ℕ, List};
ghost use Rattle.node_set.specs.Contents.{Content};
ghost use Rattle.node_set.specs.Evidence.{IsOf, OrClash};
ghost use Rattle.node_set.specs.Whole.{IsSound};
ghost use Rattle.proof_make.specs.Offers.{ProofsAreOf};

/// What a sound content of a log answers is what the holder of the whole log answers, or two different inputs of equal hash are
/// in hand.
pub fn proofs_are_of_the_log()
    ensures { (m : Content) → (log : List (List ℕ)) → IsSound m → IsOf m log
        → OrClash (ProofsAreOf m log) m log }
{}
