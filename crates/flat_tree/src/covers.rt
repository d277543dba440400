ghost use Rattle.std.specs.Prelude.{ℕ, List, ◌≡◌, ◌<◌, ◌≤◌, ◌+◌, ◌-◌, ◌*◌, ◌^◌, length, slice_get};
ghost use Rattle.flat_tree.specs.Subtrees.{Subtree, numbers_of, Tile};
ghost use Rattle.flat_tree.specs.Roots.{full_roots_of};
ghost use Rattle.flat_tree.specs.Covers.{cover_of, depth_at};

use crate::limits::{MAX_BLOCKS, MAX_COUNT, MAX_UPGRADE_NODES};
use crate::room_list::{Places, RoomList};

/// The nodes of the fewest subtrees that have the blocks `from..to`, left to right: each is the largest
/// that begins at its place and ends within the range.
pub fn cover(from: u64, to: u64) -> Places
    requires ordered { from ≤ to }
    requires within { to ≤ MAX_COUNT }
    ensures numbers { result ≡ numbers_of (cover_of from to) }
    ensures tiles { Tile (cover_of from to) from to }
    ensures shortest { (trees : List Subtree) → Tile trees from to
        → length (cover_of from to) ≤ length trees }
    ensures only { (trees : List Subtree) → Tile trees from to
        → length trees ≤ length (cover_of from to) → trees ≡ cover_of from to }
    ensures roots { from ≡ 0 → cover_of from to ≡ full_roots_of to }
    ensures few { to ≤ MAX_BLOCKS → length (cover_of from to) ≤ MAX_UPGRADE_NODES }
    ensures room { to ≤ MAX_BLOCKS → length result ≤ MAX_UPGRADE_NODES }
    ensures below { (place node : ℕ) → slice_get result place ≡ Some node → node < 2 * to }
{
    let mut places = RoomList::new(0);
    let mut at = from;
    while at < to {
        let size = 1u64 << largest_at(at, to);
        places.push(2 * at + size - 1);
        at += size;
    }
    places
}

// The depth of the largest subtree that begins at a block and ends within the range.
fn largest_at(from: u64, to: u64) -> u32
    requires some { from < to }
    ensures largest { result ≡ depth_at from to }
    ensures within { from + 2 ^ result ≤ to }
    ensures fits { result < 64 }
{
    let room = (to - from).ilog2();
    let aligned = from.trailing_zeros();
    if aligned < room { aligned } else { room }
}
