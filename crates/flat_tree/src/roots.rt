ghost use Rattle.std.specs.Prelude.{ℕ, List, ◌≡◌, ◌<◌, ◌≤◌, ◌+◌, ◌-◌, ◌*◌, ◌/◌, ◌^◌, length, slice_get};
ghost use Rattle.flat_tree.specs.Subtrees.{Subtree, subtree, numbers_of, Tile};
ghost use Rattle.flat_tree.specs.Roots.{full_roots_of, Fall, place_over, depth_over};

use crate::limits::{MAX_BLOCKS, MAX_COUNT, MAX_ROOTS, MAX_SIBLINGS};
use crate::room_list::{Places, RoomList};

/// The nodes of the full roots of so many blocks: the perfect subtrees of the binary digits, largest
/// first, left to right.
pub fn full_roots(blocks: u64) -> Places
    requires within { blocks ≤ MAX_COUNT }
    ensures numbers { result ≡ numbers_of (full_roots_of blocks) }
    ensures tiles { Tile (full_roots_of blocks) 0 blocks }
    ensures falls { Fall (full_roots_of blocks) }
    ensures only { (trees : List Subtree) → Tile trees 0 blocks → Fall trees
        → trees ≡ full_roots_of blocks }
    ensures few { blocks ≤ MAX_BLOCKS → length (full_roots_of blocks) ≤ MAX_ROOTS }
    ensures room { blocks ≤ MAX_BLOCKS → length result ≤ MAX_ROOTS }
    ensures below { (place node : ℕ) → slice_get result place ≡ Some node → node < 2 * blocks }
{
    let mut places = RoomList::new(0);
    let mut left = blocks;
    while left > 0 {
        let size = 1u64 << left.ilog2();
        places.push(2 * (blocks - left) + size - 1);
        left -= size;
    }
    places
}

/// The place in the full roots of the root over a block, and its depth: how many siblings the block has
/// below that root.
pub fn root_of_block(blocks: u64, block: u64) -> (usize, u32)
    requires within { blocks ≤ MAX_COUNT }
    requires held { block < blocks }
    ensures place { result.0 ≡ place_over blocks block }
    ensures depth { result.1 ≡ depth_over blocks block }
    ensures root { slice_get (full_roots_of blocks) result.0
        ≡ Some (subtree result.1 (block / 2 ^ result.1)) }
    ensures inside { result.0 < length (full_roots_of blocks) }
    ensures few { blocks ≤ MAX_BLOCKS → result.1 ≤ MAX_SIBLINGS }
{
    // the highest digit in which the two differ
    let depth = (blocks ^ block).ilog2();
    ((blocks >> depth >> 1).count_ones() as usize, depth)
}
