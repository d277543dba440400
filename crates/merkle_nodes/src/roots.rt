//! The hash of a log's roots, and the text that its signature is over.
ghost use Rattle.std.specs.Prelude.{◌≡◌, ℕ, List};
ghost use Rattle.merkle_nodes.specs.Roots.{root_hash_of, signed_text};

use crate::node::{Node, Roots};
use blake2b_hash::Blake2b;
use flat_tree::RoomList;

/// A log's fork, its length in blocks, and the signature over both and its root hash.
#[derive(Clone, Copy, Debug, PartialEq, Eq)]
pub struct Head {
    pub fork: u64,
    pub length: u64,
    pub signature: [u8; 64],
}

/// The hash of `hypercore-store/tree/1`, which each signed text begins with.
const SIGNED_NAME: [u8; 32] = [
    0x3c, 0xc8, 0x71, 0x5c, 0xc5, 0xdc, 0x09, 0x49, 0x71, 0xd4, 0xb7, 0x43, 0x8c, 0x98, 0x5a, 0x3e,
    0x75, 0x06, 0xeb, 0xd5, 0xe3, 0xec, 0xa3, 0xa0, 0xb2, 0xab, 0xc7, 0xff, 0xaa, 0xe7, 0x57, 0xad,
];

/// The bytes of the text that is signed.
const SIGNED_BYTES: usize = 80;

/// The hash over all full roots, left to right (docs/FORMATS.md, "Hashes").
pub fn root_hash(roots: &Roots) -> [u8; 32]
    ensures { result ≡ root_hash_of roots.now }
{
    hash_of_roots(roots.as_slice())
}

fn hash_of_roots(roots: &[Node]) -> [u8; 32]
    ensures { result ≡ root_hash_of roots.now }
{
    let mut hasher = Blake2b::new256();
    hasher.update(&[2]);
    for root in roots {
        hasher.update(&root.hash);
        hasher.update(&root.index.to_le_bytes());
        hasher.update(&root.size.to_le_bytes());
    }
    hasher.finalize256()
}

/// The 80 bytes that are signed for a head (docs/FORMATS.md, "Signed text").
pub fn signable(root: &[u8; 32], length: u64, fork: u64) -> [u8; 80]
    ensures { result ≡ signed_text root.now length fork }
{
    let mut text = RoomList::<u8, SIGNED_BYTES>::new(0);
    text.extend(&SIGNED_NAME);
    text.extend(root);
    text.extend(&length.to_le_bytes());
    text.extend(&fork.to_le_bytes());
    let mut signed = [0; 80];
    signed.copy_from_slice(text.as_slice());
    signed
}
