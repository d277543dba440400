//! Who signs, and who says whether a signature is good.
ghost use Rattle.std.specs.Prelude.{◌≡◌, ◌++◌, ℕ, Bool, List, IsTrue, drop, replicate};
ghost use Rattle.outside_traits.specs.Plain.{plain_signature_of, plain_accepts};

/// Says whether a signature of a text is accepted.
pub trait Verifier {
    /// Whether it accepts this text under this signature.
    ghost accepts: { Self → List ℕ → List ℕ → Bool };

    fn verify(&self, text: &[u8; 80], signature: &[u8; 64]) -> bool
        ensures { result ≡ accepts self.now text.now signature.now };
}

/// Signs texts, so that it accepts what it signed.
pub trait Signer: Verifier {
    fn sign(&self, text: &[u8; 80]) -> [u8; 64]
        ensures { IsTrue (Self.accepts self.now text.now result) };
}

/// The authority of each key. Equal keys give authorities of equal meaning.
pub trait Keys {
    type Auth: Signer + Send + Drop;

    /// Whether the authority of this key accepts this text under this signature.
    ghost key_accepts: { Self → List ℕ → List ℕ → List ℕ → Bool };

    /// The public key of a key.
    ghost public_of: { Self → List ℕ → List ℕ };

    fn auth(&self, key: &[u8; 32]) -> Self::Auth
        ensures { (text signature : List ℕ)
            → Self.Auth.accepts result text signature ≡ key_accepts self.now key.now text signature };

    fn public(&self, key: &[u8; 32]) -> [u8; 32]
        ensures { result ≡ public_of self.now key.now };
}

/// An authority for tests: it signs a text with its bytes 32 to 79 and sixteen bytes of its mark, and accepts exactly
/// that.
#[derive(Clone, Copy, Debug)]
pub struct PlainAuth {
    pub mark: u8,
}

impl PlainAuth {
    fn signature(&self, text: &[u8; 80]) -> [u8; 64]
        ensures { result ≡ plain_signature_of self.now.mark text.now }
    {
        let mut signature = [self.mark; 64];
        signature[..48].copy_from_slice(&text[32..]);
        signature
    }
}

impl Verifier for PlainAuth {
    ghost accepts = { λ auth. plain_accepts auth.mark };

    fn verify(&self, text: &[u8; 80], signature: &[u8; 64]) -> bool {
        self.signature(text) == *signature
    }
}

impl Signer for PlainAuth {
    fn sign(&self, text: &[u8; 80]) -> [u8; 64] {
        self.signature(text)
    }
}
