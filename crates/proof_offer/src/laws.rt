//! What the definitions promise of proofs. Nothing runs.
ghost use Rattle.std.specs.Prelude.{◌≡◌, ℕ, List, Option, is_some};
ghost use Rattle.node_set.specs.Contents.{Content};
ghost use Rattle.node_set.specs.Evidence.{IsOf, OrClash};
ghost use Rattle.node_set.specs.Whole.{IsSound};
ghost use Rattle.proof_form.specs.declared.request.Request.{Request as RequestSeen};
ghost use Rattle.proof_make.specs.Answers.{made_from};
ghost use Rattle.proof_offer.specs.Replies.{has_reply, IsSought, ProofsAreOf};

/// A sound content has an honest proof exactly where the head, the held indices and the closure say so.
pub fn the_closure_decides()
    ensures { (m : Content) → (request : RequestSeen) → (sought : Option ℕ) → IsSound m
        → IsSought m request sought → is_some (made_from m request) ≡ has_reply m request sought }
{}

/// What a sound content of a log answers, a sought byte aside, is what the holder of the log's first blocks answers, or
/// two different inputs have equal hashes.
pub fn proofs_are_of_the_log()
    ensures { (m : Content) → (log : List (List ℕ)) → IsSound m → IsOf m log
        → OrClash (ProofsAreOf m log) m log }
{}
