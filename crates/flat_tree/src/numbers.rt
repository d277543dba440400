ghost use Rattle.std.specs.Prelude.{ℕ, ◌≡◌, ◌<◌, ◌≤◌, ◌+◌, ◌-◌, ◌*◌, ◌/◌, ◌%◌, ◌^◌};
ghost use Rattle.flat_tree.specs.Subtrees.{number, first_block_of, end_block_of};

use crate::limits::{MAX_DEPTH, MAX_NODE};

/// The node of a subtree.
pub fn index(depth: u32, offset: u64) -> u64
    requires depth { depth ≤ MAX_DEPTH }
    requires offset { offset ≤ 2 ^ (MAX_DEPTH - depth) }
    ensures number { result ≡ number depth offset }
    ensures leaf { depth ≡ 0 → result ≡ 2 * offset }
    ensures below { result < 2 * end_block_of depth offset }
    ensures fits { result ≤ MAX_NODE }
{
    (((2 * offset) + 1) << depth) - 1
}

/// How many rows a node stands above the leaves: the number of its trailing one bits.
pub fn depth(node: u64) -> u32
    requires within { node ≤ MAX_NODE }
    ensures depth { (depth offset : ℕ) → node ≡ number depth offset → result ≡ depth }
    ensures some { (offset : ℕ) × (node ≡ number result offset) }
    ensures fits { result < 63 }
{
    node.trailing_ones()
}

/// A node's place in its row.
pub fn offset(node: u64) -> u64
    requires within { node ≤ MAX_NODE }
    ensures offset { (depth offset : ℕ) → node ≡ number depth offset → result ≡ offset }
    ensures some { (depth : ℕ) × (node ≡ number depth result) }
    ensures fits { result ≤ node }
{
    node >> depth(node) >> 1
}

/// The node of the subtree that a node's subtree is half of.
#[tactic(auto, using(crate::proofs::NumberLemmas::parent_of_left, crate::proofs::NumberLemmas::parent_of_right))]
pub fn parent(node: u64) -> u64
    requires within { node ≤ MAX_NODE }
    ensures parent { (depth offset : ℕ) → node ≡ number depth offset
        → result ≡ number (depth + 1) (offset / 2) }
    ensures fits { result ≤ 2 * node + 1 }
{
    let size = size_of(node);
    if offset(node) % 2 == 0 {
        node + size
    } else {
        node - size
    }
}

/// The node of the other half of the parent's subtree.
#[tactic(auto, using(crate::proofs::NumberLemmas::sibling_of_left, crate::proofs::NumberLemmas::sibling_of_right))]
pub fn sibling(node: u64) -> u64
    requires within { node ≤ MAX_NODE }
    ensures sibling { (depth offset : ℕ) → node ≡ number depth offset
        → result ≡ number depth (offset + 1 - 2 * (offset % 2)) }
    ensures fits { result ≤ 3 * node + 2 }
{
    let step = 2 * size_of(node);
    if offset(node) % 2 == 0 {
        node + step
    } else {
        node - step
    }
}

/// The nodes of a subtree's left and right half; a leaf has none.
#[tactic(auto, using(crate::proofs::NumberLemmas::left_half, crate::proofs::NumberLemmas::right_half, crate::proofs::NumberLemmas::pow_up))]
pub fn children(node: u64) -> Option<(u64, u64)>
    requires within { node ≤ MAX_NODE }
    ensures leaf { (offset : ℕ) → node ≡ number 0 offset → result ≡ None }
    ensures halves { (depth offset : ℕ) → node ≡ number (depth + 1) offset
        → result ≡ Some (number depth (2 * offset), number depth (2 * offset + 1)) }
{
    let size = size_of(node);
    if size == 1 {
        return None;
    }
    let half = size / 2;
    Some((node - half, node + half))
}

/// The first and the last leaf under a node, which are twice its first and its last block.
#[tactic(auto, using(crate::proofs::NumberLemmas::number_first, crate::proofs::NumberLemmas::end_first))]
pub fn spans(node: u64) -> (u64, u64)
    requires within { node ≤ MAX_NODE }
    ensures first { (depth offset : ℕ) → node ≡ number depth offset
        → result.0 ≡ 2 * first_block_of depth offset }
    ensures last { (depth offset : ℕ) → node ≡ number depth offset
        → result.1 + 2 ≡ 2 * end_block_of depth offset }
{
    let reach = size_of(node) - 1;
    (node - reach, node + reach)
}

// How many blocks a node's subtree has.
fn size_of(node: u64) -> u64
    requires within { node ≤ MAX_NODE }
    ensures size { (depth offset : ℕ) → node ≡ number depth offset → result ≡ 2 ^ depth }
    ensures some { 0 < result }
    ensures fits { result ≤ node + 1 }
{
    1 << depth(node)
}
