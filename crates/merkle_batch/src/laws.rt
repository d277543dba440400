//! Laws of all honest bundles.
ghost use Rattle.std.specs.Prelude.{◌<◌, ℕ, Bool, List, length};
ghost use Rattle.merkle_batch.specs.Honest.{LogFits, IsSigned, IsOpened};

/// The bundle of each block of each log within the limits, with a signature that the verifier accepts, is opened by
/// each check, and gives the block back.
pub fn an_honest_bundle_opens()
    ensures { (accepts : List ℕ → List ℕ → Bool) → (log : List (List ℕ)) → (index : ℕ)
        → (signature : List ℕ) → LogFits log → index < length log
        → IsSigned accepts log signature → IsOpened accepts log index signature }
{}
