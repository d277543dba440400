//! The program's own authority: a keyed hash, for which signer and verifier share the key.
ghost use Rattle.std.specs.Prelude.{◌≡◌, ◌++◌, ℕ, List, IsTrue};
ghost use Rattle.core_keys.specs.Keys.{mac_signature_of, mac_accepts, mac_public_of};

use crate::keyed::hasher;
use blake2b_hash::{MAX_OUT_BYTES, hash256_pair};
use outside_traits::{Keys, Signer, Verifier};
use std::marker::Model;

/// Signs with the hash of 64 bytes under its key, and accepts exactly that. Contracts see it as its key.
#[derive(Drop)]
pub struct MacAuth {
    key: [u8; 32],
}

impl Model for MacAuth {
    ghost Value = { List ℕ };

    ghost view = { λ auth. auth.key };
}

impl MacAuth {
    /// The authority of a key.
    pub fn new(key: &[u8; 32]) -> MacAuth
        ensures { result ≡ key.now }
    {
        MacAuth { key: *key }
    }

    fn signature(&self, text: &[u8; 80]) -> [u8; 64]
        ensures { result ≡ mac_signature_of self.now text.now }
    {
        let mut hasher = hasher(MAX_OUT_BYTES, &self.key);
        hasher.update(text);
        hasher.finalize()
    }
}

impl Verifier for MacAuth {
    ghost accepts = { λ auth. mac_accepts auth };

    fn verify(&self, text: &[u8; 80], signature: &[u8; 64]) -> bool {
        self.signature(text) == *signature
    }
}

impl Signer for MacAuth {
    fn sign(&self, text: &[u8; 80]) -> [u8; 64] {
        self.signature(text)
    }
}

/// The authority of each key is `MacAuth` of it.
#[derive(Clone, Copy)]
pub struct MacKeys;

/// What the public key's hash begins with.
const PUBLIC_NAME: &[u8; 24] = b"hypercore-store/public/1";

impl Keys for MacKeys {
    type Auth = MacAuth;

    ghost key_accepts = { λ _ key. mac_accepts key };

    ghost public_of = { λ _ key. mac_public_of key };

    fn auth(&self, key: &[u8; 32]) -> MacAuth {
        MacAuth::new(key)
    }

    fn public(&self, key: &[u8; 32]) -> [u8; 32] {
        hash256_pair(PUBLIC_NAME, key)
    }
}
