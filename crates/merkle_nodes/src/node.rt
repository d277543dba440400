//! A node, and how leaves and parents are made.
ghost use Rattle.std.specs.Prelude.{◌≡◌, ◌≤◌, ◌<◌, ◌+◌, ◌*◌, ◌^◌, ℕ, List, length};
ghost use Rattle.flat_tree.specs.Subtrees.{number};
ghost use Rattle.merkle_nodes.specs.Tree.{leaf_of, leaf_input, parent_of, u64_bytes};
ghost use Rattle.merkle_nodes.specs.Roots.{twig_of, node_of};

use blake2b_hash::Blake2b;
use flat_tree::{MAX_COUNT, MAX_NODE, MAX_ROOTS, MAX_SIBLINGS, MAX_UPGRADE_NODES, RoomList};

/// The bytes of a hash.
pub const HASH_BYTES: usize = 32;

/// A node: its number (flat-tree's), the bytes of the blocks under it, and its hash.
#[derive(Clone, Copy, Debug, PartialEq, Eq)]
pub struct Node {
    pub index: u64,
    pub size: u64,
    pub hash: [u8; 32],
}

/// A node without its number, as it stands in a trail.
#[derive(Clone, Copy, Debug, PartialEq, Eq)]
pub struct Twig {
    pub size: u64,
    pub hash: [u8; 32],
}

/// The full roots of a log, left to right.
pub type Roots = RoomList<Node, MAX_ROOTS>;

/// The siblings of a path, from the leaf upward.
pub type Trail = RoomList<Twig, MAX_SIBLINGS>;

/// The subtrees of an upgrade's cover, left to right.
pub type Twigs = RoomList<Twig, MAX_UPGRADE_NODES>;

impl Node {
    /// Fills free places of a list.
    pub const BLANK: Node = Node {
        index: 0,
        size: 0,
        hash: [0; 32],
    };

    /// Its size and hash.
    pub fn twig(&self) -> Twig
        ensures { result ≡ twig_of self.now }
    {
        let Node { size, hash, .. } = *self;
        Twig { size, hash }
    }
}

impl Twig {
    /// Fills free places of a list.
    pub const BLANK: Twig = Twig {
        size: 0,
        hash: [0; 32],
    };

    /// The node of this number, with its size and hash.
    pub fn numbered(self, index: u64) -> Node
        ensures { result ≡ record { index = index; size = self.size; hash = self.hash } }
    {
        let Twig { size, hash } = self;
        Node { index, size, hash }
    }
}

/// The leaf of the block at an index (DEP-0002; docs/FORMATS.md, "Hashes").
pub fn leaf(index: u64, block: &[u8]) -> Node
    requires { index < MAX_COUNT }
    ensures { result ≡ node_of 0 index (leaf_of block.now) }
{
    leaf_twig(block).numbered(flat_tree::index(0, index))
}

/// A block's leaf without its number.
pub(crate) fn leaf_twig(block: &[u8]) -> Twig
    ensures { result ≡ leaf_of block.now }
{
    let size = block.len() as u64;
    let mut hasher = Blake2b::new256();
    hasher.update(&[0]);
    hasher.update(&size.to_le_bytes());
    hasher.update(block);
    Twig {
        size,
        hash: hasher.finalize256(),
    }
}

/// The parent of two siblings in order (DEP-0002; docs/FORMATS.md, "Hashes").
pub fn parent(left: &Node, right: &Node) -> Node
    requires within { left.now.index ≤ MAX_NODE }
    requires siblings { (depth : ℕ) × (offset : ℕ) × (left.now.index ≡ number depth (2 * offset))
        × (right.now.index ≡ number depth (2 * offset + 1)) }
    requires sum { left.now.size + right.now.size < 2 ^ 63 }
    ensures index { (depth offset : ℕ) → left.now.index ≡ number depth (2 * offset)
        → result.index ≡ number (depth + 1) offset }
    ensures twig { twig_of result ≡ parent_of (twig_of left.now) (twig_of right.now) }
{
    parent_twig(&left.twig(), &right.twig()).numbered(flat_tree::parent(left.index))
}

/// The parent of two halves without its number.
pub(crate) fn parent_twig(left: &Twig, right: &Twig) -> Twig
    requires { left.now.size + right.now.size < 2 ^ 63 }
    ensures { result ≡ parent_of left.now right.now }
{
    let size = left.size + right.size;
    let mut hasher = Blake2b::new256();
    hasher.update(&[1]);
    hasher.update(&size.to_le_bytes());
    hasher.update(&left.hash);
    hasher.update(&right.hash);
    Twig {
        size,
        hash: hasher.finalize256(),
    }
}
