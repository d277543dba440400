//! The keys and ids that follow from other keys and from names.
ghost use Rattle.std.specs.Prelude.{◌≡◌, ◌++◌, codes};
ghost use Rattle.core_keys.specs.Keys.{name_key_of, namespace_of, discovery_of};

use crate::keyed::hasher;
use blake2b_hash::{hash256_pair, keyed256};

/// The namespace of whoever asked for no other.
pub const DEFAULT_NAMESPACE: [u8; 32] = [0; 32];

/// What is hashed under a public key for its discovery id.
const DISCOVERY_NAME: &[u8; 9] = b"hypercore";

/// The bytes of a name key.
const KEY_BYTES: usize = 32;

/// The key of the core of this name in a namespace, under the store's primary key. The names are bytes of any number.
pub fn name_key(primary: &[u8; 32], namespace: &[u8; 32], name: &[u8]) -> [u8; 32]
    ensures { result ≡ name_key_of primary.now namespace.now name.now }
{
    let mut hasher = hasher(KEY_BYTES, primary);
    hasher.update(namespace);
    hasher.update(name);
    hasher.finalize256()
}

/// The namespace of this name inside another.
pub fn namespace(parent: &[u8; 32], name: &[u8]) -> [u8; 32]
    ensures { result ≡ namespace_of parent.now name.now }
{
    hash256_pair(parent, name)
}

/// The id that names the core of a public key to those who know that key. It is Hypercore's discovery key.
pub fn discovery(public: &[u8; 32]) -> [u8; 32]
    ensures { result ≡ discovery_of public.now }
{
    keyed256(public, DISCOVERY_NAME)
}
