//! The roots under an upgraded head, joined from those of the log before and from the twigs of the upgrade.
ghost use Rattle.std.specs.Prelude.{◌≡◌, ℕ, true, false, Bool, ◌+◌, ◌-◌, ◌*◌, ◌<◌, ◌≤◌, ◌++◌, [], ◌∷◌, Some, None, length, slice_get};
ghost use Rattle.flat_tree.specs.Roots.{full_roots_of, depth_over};
ghost use Rattle.flat_tree.specs.Covers.{cover_of};
ghost use Rattle.flat_tree.specs.declared.limits.TheConstants.{MAX_BLOCKS, MAX_CORE_BYTES, MAX_UPGRADE_NODES, MAX_SIBLINGS, MAX_ROOTS};
ghost use Rattle.merkle_nodes.specs.Joined.{Values};
ghost use Rattle.merkle_nodes.specs.Nodes.{AreNodes};
ghost use Rattle.merkle_nodes.specs.Roots.{HasShape};
ghost use Rattle.node_set.specs.Contents.{bytes_under};
ghost use Rattle.proof_check.specs.Growth.{AreAt, Joins, AreValues, SizeFits, IsJoined, HasJoined, IsFirstHeld, nodes_at};
ghost use Rattle.proof_check.specs.Early.{twig_bytes};
ghost use Rattle.std.specs.List.{AllByRecursion};
ghost use Rattle.node_set.specs.Nodes.{with_nodes};
ghost use Rattle.proof_check.specs.Admission.{Ascends};
ghost use Rattle.proof_check.specs.Meets.{behind_end};

use crate::fresh::put_new;
use flat_tree::{MAX_SIBLINGS, MAX_UPGRADE_NODES, Places, RoomList, cover, root_of_block};
use merkle_nodes::{Node, Roots, Twig, parent};
use node_set::Fresh;

/// A node for each of some levels.
pub(crate) type Halves = RoomList<Node, MAX_SIBLINGS>;

/// The roots of a longer log, and the two halves of each node between them and the roots of the shorter one, from the
/// level `low` up.
#[derive(Drop)]
pub(crate) struct Joined {
    pub low: u32,
    pub lefts: Halves,
    pub rights: Halves,
    pub roots: Roots,
}

/// The nodes of the subtrees behind a log, left to right.
type Added = RoomList<Node, MAX_UPGRADE_NODES>;

/// The roots of a log of `base` blocks, as those of no longer one.
pub(crate) fn unchanged(old: &Roots, base: u64) -> Joined
    requires within { base ≤ MAX_BLOCKS }
    requires shape { HasShape old.now base }
    requires sizes { AllByRecursion SizeFits old.now }
    ensures joined { IsJoined base base result }
    ensures values { (value : Values) → AreNodes value (full_roots_of base) old.now
        → HasJoined base base value result }
    ensures roots { result.roots ≡ old.now }
{
    Joined {
        low: last_root_depth(base),
        lefts: Halves::new(Node::BLANK),
        rights: Halves::new(Node::BLANK),
        roots: old.copy(),
    }
}

/// The roots of a log of `base` blocks, joined with the twigs of the cover of those behind it, up to `to`.
pub(crate) fn join(old: &Roots, base: u64, to: u64, twigs: &[Twig]) -> Joined
    requires longer { base < to }
    requires within { to ≤ MAX_BLOCKS }
    requires shape { HasShape old.now base }
    requires count { length twigs.now ≡ length (cover_of base to) }
    requires bytes { bytes_under old.now + twig_bytes twigs.now ≤ MAX_CORE_BYTES }
    ensures joined { IsJoined base to result }
    ensures values { (value : Values) → Joins base to value
        → AreNodes value (full_roots_of base) old.now
        → AreValues value (cover_of base to) twigs.now → HasJoined base to value result }
{
    let added = numbered(&cover(base, to), twigs);
    if base == 0 {
        return first_roots(to, added.as_slice());
    }
    let mut joined = unchanged(old, base);
    climb(&mut joined, base, to, added.as_slice());
    joined
}

// The roots of a log behind the empty one.
fn first_roots(to: u64, added: &[Node]) -> Joined
    requires some { 0 < to }
    requires within { to ≤ MAX_BLOCKS }
    requires cover { AreAt (cover_of 0 to) added.now }
    requires bytes { bytes_under added.now ≤ MAX_CORE_BYTES }
    ensures joined { IsJoined 0 to result }
    ensures values { (value : Values) → AreNodes value (cover_of 0 to) added.now
        → HasJoined 0 to value result }
{
    let (_, low) = root_of_block(to, 0);
    let mut roots = Roots::new(Node::BLANK);
    roots.extend(added);
    Joined {
        low,
        lefts: Halves::new(Node::BLANK),
        rights: Halves::new(Node::BLANK),
        roots,
    }
}

// The depth of the last root of so many blocks.
fn last_root_depth(base: u64) -> u32
    requires { base ≤ MAX_BLOCKS }
    ensures { result ≡ depth_over base (base - 1) }
{
    if base == 0 {
        return 0;
    }
    let (_, low) = root_of_block(base, base - 1);
    low
}

// Twigs with their numbers.
fn numbered(places: &Places, twigs: &[Twig]) -> Added
    requires count { length twigs.now ≡ length places.now }
    requires few { length twigs.now ≤ MAX_UPGRADE_NODES }
    ensures { result ≡ nodes_at places.now twigs.now }
{
    let mut added = Added::new(Node::BLANK);
    for place in 0..twigs.len() {
        added.push(twigs[place].numbered(places.at(place)));
    }
    added
}

/// Joins the roots of a log of `base` blocks with the nodes of the cover of those behind it, up to `to`. Each parent is
/// hashed once.
fn climb(joined: &mut Joined, base: u64, to: u64, added: &[Node])
    requires some { 0 < base }
    requires longer { base < to }
    requires within { to ≤ MAX_BLOCKS }
    requires shape { HasShape joined.old.roots base }
    requires cover { AreAt (cover_of base to) added.now }
    requires bytes { bytes_under joined.old.roots + bytes_under added.now ≤ MAX_CORE_BYTES }
    requires low { joined.old.low ≡ depth_over base (base - 1) }
    requires lefts { joined.old.lefts ≡ [] }
    requires rights { joined.old.rights ≡ [] }
    ensures joined { IsJoined base to joined.new }
    ensures same { joined.new.low ≡ joined.old.low }
    ensures values { (value : Values) → Joins base to value
        → AreNodes value (full_roots_of base) joined.old.roots
        → AreNodes value (cover_of base to) added.now → HasJoined base to value joined.new }
{
    let (_, top) = root_of_block(to, base - 1);
    let mut node = joined.roots.pop();
    let mut used = 0;
    for level in joined.low..top {
        let is_right = ((base - 1) >> level) % 2 == 1;
        let (left, right) = halves(&mut joined.roots, node, added, &mut used, is_right);
        joined.lefts.push(left);
        joined.rights.push(right);
        node = parent(&left, &right);
    }
    joined.roots.push(node);
    joined.roots.extend(&added[used..]);
}

// A node with the last root, if it is a right half, or with the next node.
fn halves(
    roots: &mut Roots,
    node: Node,
    added: &[Node],
    used: &mut usize,
    is_right: bool,
) -> (Node, Node)
    requires left { is_right ≡ true → 0 < length roots.old }
    requires right { is_right ≡ false → used.old < length added.now }
    ensures right { is_right ≡ true → (roots.old ≡ roots.new ++ result.0 ∷ [])
        × (result.1 ≡ node) × (used.new ≡ used.old) }
    ensures left { is_right ≡ false → (slice_get added.now used.old ≡ Some result.1)
        × (result.0 ≡ node) × (used.new ≡ used.old + 1) × (roots.new ≡ roots.old) }
{
    if is_right {
        return (roots.pop(), node);
    }
    let right = added[*used];
    *used += 1;
    (node, right)
}

/// Puts the nodes of a grown log in that are behind the old end and are to be stored: its roots, and the halves from
/// the level `first` on.
pub(crate) fn put_joined(fresh: &mut Fresh, joined: &Joined, base: u64, first: u32)
    requires empty { fresh.old ≡ [] }
    requires joined { (to : ℕ) × (to ≤ MAX_BLOCKS) × IsJoined base to joined.now
        × (joined.now.low ≤ first) × (first ≤ depth_over to (base - 1)) }
    ensures order { Ascends fresh.new }
    ensures few { length fresh.new ≤ 2 * MAX_SIBLINGS + MAX_ROOTS }
    ensures puts { (value : Values) (held : ℕ → Bool) (to : ℕ) → base ≤ to
        → ((block : ℕ) → held block ≡ true → block < base)
        → IsFirstHeld base held joined.now.low (depth_over to (base - 1)) first
        → IsJoined base to joined.now → HasJoined base to value joined.now → (depth offset : ℕ)
        → with_nodes (λ d o. None) fresh.new depth offset ≡ behind_end base to held value depth offset }
{
    let from = (first - joined.low) as usize;
    put_new(fresh, &joined.lefts.as_slice()[from..], base);
    put_new(fresh, &joined.rights.as_slice()[from..], base);
    put_new(fresh, joined.roots.as_slice(), base);
}
