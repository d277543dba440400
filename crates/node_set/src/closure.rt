//! Which nodes are to be stored.
ghost use Rattle.std.specs.Prelude.{◌≡◌, ℕ, ◌+◌, ◌≤◌, length as count};
ghost use Rattle.flat_tree.specs.Subtrees.{number, first_block_of, end_block_of};
ghost use Rattle.bit_field.specs.Places.{has};
ghost use Rattle.node_set.specs.Closure.{any_under, in_closure};

use bit_field::Bits;
use flat_tree::{parent, spans};

/// Whether the node of a number is to be stored in a log of so many blocks, of which the held ones are these.
pub fn is_stored(length: u64, held: &Bits, index: u64) -> bool
    requires places { length ≤ count held.now }
    ensures { (depth offset : ℕ) → number depth offset ≡ index
        → result ≡ in_closure length (has held.now) depth offset }
{
    if index / 2 >= held.places() {
        return false;
    }
    let (_, last) = spans(index);
    if last / 2 >= length {
        return false;
    }
    let (first, last) = spans(parent(index));
    if last / 2 >= length {
        return true;
    }
    is_any_held(held, first / 2, last / 2 + 1)
}

// Whether a block of a subtree is held, which has the blocks first..end.
fn is_any_held(held: &Bits, first: u64, end: u64) -> bool
    requires some { first ≤ end }
    requires within { end ≤ count held.now }
    ensures { (depth offset : ℕ) → first_block_of depth offset ≡ first
        → end_block_of depth offset ≡ end → result ≡ any_under (has held.now) depth offset }
{
    match held.first_in(first, end) {
        Some(_) => true,
        None => false,
    }
}
