//! The subtrees of a cover behind the roots of a log.
ghost use Rattle.std.specs.Prelude.{◌≡◌, ◌≤◌, ◌+◌, ◌*◌, ◌++◌, [], ℕ, List, length};
ghost use Rattle.flat_tree.specs.Subtrees.{Subtree};
ghost use Rattle.flat_tree.specs.Roots.{full_roots_of};
ghost use Rattle.flat_tree.specs.Covers.{cover_of};
ghost use Rattle.flat_tree.specs.declared.limits.TheConstants.{MAX_BLOCKS, MAX_CORE_BYTES};
ghost use Rattle.merkle_nodes.specs.Joined.{Values, joined, with_parts};
ghost use Rattle.merkle_nodes.specs.Nodes.{AreNodes, bytes_under};
ghost use Rattle.merkle_nodes.specs.Roots.{HasShape};
ghost use Rattle.root_stack.specs.Made.{made_by};
ghost use Rattle.root_stack.specs.Stack.{AreJoined, AreOf, Grows, twig_bytes};

use crate::sink::NodeSink;
use crate::stack::push;
use flat_tree::cover;
use merkle_nodes::{Roots, Twig};

/// Pushes the subtrees of the cover of the blocks `start..end`, of which these are the sizes and hashes, left to right,
/// behind the roots of `start` blocks. A longer cover can be pushed in parts: `start..middle`, and then `middle..end`.
pub fn push_cover<S: NodeSink>(
    roots: &mut Roots,
    made: &mut S,
    start: u64,
    end: u64,
    twigs: &[Twig],
)
    requires ordered { start ≤ end }
    requires within { end ≤ MAX_BLOCKS }
    requires shape { HasShape roots.old start }
    requires count { length twigs.now ≡ length (cover_of start end) }
    requires bytes { bytes_under roots.old + twig_bytes twigs.now ≤ MAX_CORE_BYTES }
    requires room { length (S.nodes made.old) + length roots.old + 2 * length twigs.now ≤ S.room made.old }
    ensures grows { Grows end (twig_bytes twigs.now) (length twigs.now)
        roots.old roots.new (S.nodes made.old) (S.nodes made.new) }
    ensures adds { (values : Values) → (trees : List Subtree)
        → AreJoined values (cover_of start end) twigs.now
        → AreOf values start trees roots.old (S.nodes made.old)
        → AreOf values end (trees ++ made_by (cover_of start end)) roots.new (S.nodes made.new) }
    ensures joined { (known : Values) → AreNodes known (full_roots_of start) roots.old
        → S.nodes made.old ≡ []
        → AreOf (joined (with_parts start known (cover_of start end) twigs.now)) end
        (made_by (cover_of start end)) roots.new (S.nodes made.new) }
    ensures room { S.room made.new ≡ S.room made.old }
{
    let places = cover(start, end);
    let numbers = places.as_slice();
    for place in 0..twigs.len() {
        push(roots, made, twigs[place].numbered(numbers[place]));
    }
}
