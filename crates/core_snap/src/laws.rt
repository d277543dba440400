//! A law of snapshots. Nothing runs: it holds for every two contents.
ghost use Rattle.std.specs.Prelude.{◌≡◌, ℕ, Ok};
ghost use Rattle.node_set.specs.Contents.{Content};
ghost use Rattle.node_set.specs.Whole.{IsSound};
ghost use Rattle.core_snap.specs.declared.snapshot.Snapshot.{Snapshot};
ghost use Rattle.core_snap.specs.Reads.{Answer, snap_read, SameRead};

/// Two reads of an index under one snapshot, over any two sound contents, give one block, or two different inputs of
/// equal hash are in hand, one of each answer.
pub fn snapshots_stay()
    ensures { (snap : Snapshot) → (m n : Content) → (index : ℕ) → (one other : Answer) → IsSound m
        → IsSound n → snap_read m snap index ≡ Ok one → snap_read n snap index ≡ Ok other
        → SameRead snap index one other }
{}
