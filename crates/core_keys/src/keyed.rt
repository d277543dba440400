//! A hash under a key of 32 bytes.
ghost use Rattle.std.specs.Prelude.{◌≤◌, ◌<◌, []};
ghost use Rattle.blake2b_hash.specs.Hasher.{Holds};

use blake2b_hash::{Blake2b, MAX_OUT_BYTES};

/// A hasher for `outlen` bytes of hash under `key`.
pub fn hasher(outlen: usize, key: &[u8; 32]) -> Blake2b
    requires some { 0 < outlen }
    requires fits { outlen ≤ MAX_OUT_BYTES }
    ensures { Holds outlen key.now [] result }
{
    match Blake2b::new(outlen, key) {
        Ok(hasher) => hasher,
        Err(_) => unreachable!(),
    }
}
