//! Which commits are in range, and what they do to the held blocks.
ghost use Rattle.std.specs.Prelude.{◌≡◌, ◌≤◌, ◌<◌, ◌-◌, ◌+◌, ℕ, Bool, IsTrue, ◌&&◌, not, nat_le, nat_lt, List, length as count};
ghost use Rattle.flat_tree.specs.declared.limits.TheConstants.{MAX_BLOCKS as MOST, MAX_FORK as LAST};
ghost use Rattle.bit_field.specs.Places.{has, SetsRange};
ghost use Rattle.commit_book.specs.History.{changed, below, with_part, without_part};
ghost use Rattle.oplog_form.specs.Commits.{CommitFits};
ghost use Rattle.node_set.specs.Legal.{core_limits};
ghost use Rattle.core_disk.specs.Following.{any_from, is_in_range};
ghost use Rattle.core_disk.specs.InHand.{rootless, none_held, NamesPlaces};

use bit_field::Bits;
use commit_book::Commit;
use flat_tree::{MAX_BLOCKS, MAX_FORK};

/// Whether a commit is in range for a core of this fork and length that holds these blocks.
pub(crate) fn is_in_range(fork: u64, length: u64, held: &Bits, commit: Commit) -> bool
    requires fits { CommitFits commit }
    requires few { length ≤ MOST }
    requires places { count held.now ≡ MOST }
    ensures { result ≡ is_in_range core_limits commit (rootless fork length (has held.now)) }
{
    match commit {
        Commit::Append { count } => count >= 1 && length + count <= MAX_BLOCKS,
        Commit::Truncate { to, fork: new } => to <= length && fork < new && new <= MAX_FORK,
        Commit::Clear { from, to } => may_clear(length, held, from, to),
        Commit::Fetch { index } => may_fetch(length, held, index),
        Commit::Upgrade { to } => may_upgrade(length, to),
        Commit::UpgradeFetch { to, index } => {
            may_upgrade(length, to) && may_fetch(to, held, index)
        }
        Commit::Reorg {
            fork: new,
            to,
            kept,
        } => may_reorganise(fork, length, new, to, kept),
        Commit::ReorgFetch {
            fork: new,
            to,
            kept,
            index,
        } => {
            may_reorganise(fork, length, new, to, kept) && may_fetch_again(to, held, kept, index)
        }
    }
}

// Whether some block of from..to is held, and the part is within the log.
fn may_clear(length: u64, held: &Bits, from: u64, to: u64) -> bool
    requires places { length ≤ count held.now }
    ensures { result ≡ (nat_le from to && nat_le to length
        && any_from (to - from) (has held.now) from) }
{
    if from > to || to > length {
        return false;
    }
    held.first_in(from, to).is_some()
}

// Whether the log may become this long.
fn may_upgrade(length: u64, to: u64) -> bool
    ensures test { result ≡ (nat_lt length to && nat_le to MOST) }
    ensures few { IsTrue result → to ≤ MOST }
{
    length < to && to <= MAX_BLOCKS
}

// Whether the block of the index may come in.
fn may_fetch(length: u64, held: &Bits, index: u64) -> bool
    requires places { length ≤ count held.now }
    ensures { result ≡ (nat_lt index length && not (has held.now index)) }
{
    index < length && !held.get(index)
}

// The same once those from `kept` on are given up.
fn may_fetch_again(length: u64, held: &Bits, kept: u64, index: u64) -> bool
    requires places { length ≤ count held.now }
    ensures { result ≡ (nat_lt index length && not (below kept (has held.now) index)) }
{
    index < length && !(index < kept && held.get(index))
}

// Whether another log may take this one's place.
fn may_reorganise(fork: u64, length: u64, new: u64, to: u64, kept: u64) -> bool
    ensures test { result ≡ (nat_lt fork new && nat_le new LAST && nat_le to MOST
        && nat_le kept length && nat_le kept to) }
    ensures few { IsTrue result → to ≤ MOST }
{
    fork < new && new <= MAX_FORK && to <= MAX_BLOCKS && kept <= length && kept <= to
}

/// The fork and the length after a commit.
pub(crate) fn numbers_after(fork: u64, length: u64, commit: Commit) -> (u64, u64)
    requires fits { CommitFits commit }
    requires few { length ≤ MOST }
    ensures fork { result.0 ≡ (changed commit (rootless fork length none_held)).fork }
    ensures length { result.1 ≡ (changed commit (rootless fork length none_held)).length }
{
    match commit {
        Commit::Append { count } => (fork, length + count),
        Commit::Truncate { to, fork: new } => (new, to),
        Commit::Clear { .. } => (fork, length),
        Commit::Fetch { .. } => (fork, length),
        Commit::Upgrade { to } => (fork, to),
        Commit::UpgradeFetch { to, .. } => (fork, to),
        Commit::Reorg { fork: new, to, .. } => (new, to),
        Commit::ReorgFetch { fork: new, to, .. } => (new, to),
    }
}

/// Holds the blocks that a commit brings, and gives up those that it takes away, in a core of this length.
pub(crate) fn hold(length: u64, held: &mut Bits, commit: Commit)
    requires within { length ≤ MOST }
    requires places { count held.old ≡ MOST }
    requires named { NamesPlaces length commit }
    ensures places { count held.new ≡ count held.old }
    ensures held { (place : ℕ) → has held.new place
        ≡ (changed commit (rootless 0 length (has held.old))).held place }
{
    match commit {
        Commit::Append { count } => add(held, length, length + count),
        Commit::Truncate { to, .. } => give_up_from(held, to),
        Commit::Clear { from, to } => give_up(held, from, to),
        Commit::Fetch { index } => add(held, index, index + 1),
        Commit::Upgrade { .. } => {}
        Commit::UpgradeFetch { index, .. } => add(held, index, index + 1),
        Commit::Reorg { kept, .. } => give_up_from(held, kept),
        Commit::ReorgFetch { kept, index, .. } => {
            give_up_from(held, kept);
            add(held, index, index + 1)
        }
    }
}

// Holds the blocks from..to.
fn add(held: &mut Bits, from: u64, to: u64)
    requires ordered { from ≤ to }
    requires within { to ≤ count held.old }
    ensures places { count held.new ≡ count held.old }
    ensures held { (place : ℕ) → has held.new place ≡ with_part from to (has held.old) place }
{
    held.set_range(from, to);
}

// Gives up the blocks from..to.
fn give_up(held: &mut Bits, from: u64, to: u64)
    requires ordered { from ≤ to }
    requires within { to ≤ count held.old }
    ensures places { count held.new ≡ count held.old }
    ensures held { (place : ℕ) → has held.new place ≡ without_part from to (has held.old) place }
{
    held.clear_range(from, to);
}

// Gives up the blocks from one on.
fn give_up_from(held: &mut Bits, from: u64)
    requires within { from ≤ count held.old }
    ensures places { count held.new ≡ count held.old }
    ensures held { (place : ℕ) → has held.new place ≡ below from (has held.old) place }
{
    let places = held.places();
    held.clear_range(from, places);
}
