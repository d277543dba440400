// Hashes of 32 bytes of a whole message.

ghost use Rattle.std.specs.Prelude.{◌≡◌, ◌++◌};
ghost use Rattle.blake2b_hash.specs.Blake2b.{blake2b, hash_of};

use crate::hasher::Blake2b;

/// The hash of 32 bytes, with no key (RFC 7693).
pub fn hash256(bytes: &[u8]) -> [u8; 32]
    ensures { result ≡ hash_of bytes.now }
{
    let mut hasher = Blake2b::new256();
    hasher.update(bytes);
    hasher.finalize256()
}

/// The hash of 32 bytes of two pieces taken as one message, with no key (RFC 7693).
pub fn hash256_pair(first: &[u8], rest: &[u8]) -> [u8; 32]
    ensures { result ≡ hash_of (first.now ++ rest.now) }
{
    let mut hasher = Blake2b::new256();
    hasher.update(first);
    hasher.update(rest);
    hasher.finalize256()
}

/// The hash of 32 bytes under a key of 32 bytes (RFC 7693).
pub fn keyed256(key: &[u8; 32], bytes: &[u8]) -> [u8; 32]
    ensures { result ≡ blake2b 32 key.now bytes.now }
{
    let mut hasher = Blake2b::keyed256(key);
    hasher.update(bytes);
    hasher.finalize256()
}
