//! Laws of the spellings.
ghost use Rattle.std.specs.Prelude.{◌≡◌, List, ℕ, ◌++◌};
ghost use Rattle.proof_form.specs.declared.request.Request.{Request};
ghost use Rattle.proof_form.specs.Requests.{RequestFits, request_spelling};
ghost use Rattle.proof_form.specs.Proofs.{Proof, ProofFits, proof_spelling};

/// A request has one spelling, each spelling has one request, and no spelling begins another: whatever follows two of
/// them, equal bytes have equal requests in front.
pub fn one_spelling_of_a_request()
    ensures { (a b : Request) → (x y : List ℕ) → RequestFits a → RequestFits b
        → request_spelling a ++ x ≡ request_spelling b ++ y → (a ≡ b) × (x ≡ y) }
{}

/// The same of proofs.
pub fn one_spelling_of_a_proof()
    ensures { (a b : Proof) → (x y : List ℕ) → ProofFits a → ProofFits b
        → proof_spelling a ++ x ≡ proof_spelling b ++ y → (a ≡ b) × (x ≡ y) }
{}
