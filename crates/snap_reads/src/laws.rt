//! Laws of reads. Nothing runs.
ghost use Rattle.std.specs.Prelude.{◌≡◌, ◌<◌, ℕ, List, length, take, IsTrue, Ok, Err};
ghost use Rattle.flat_tree.specs.Roots.{depth_over};
ghost use Rattle.merkle_nodes.specs.declared.node.Node.{Node as NodeSeen};
ghost use Rattle.merkle_nodes.specs.Fold.{IsRootOver, Proves};
ghost use Rattle.merkle_nodes.specs.Roots.{HasShape};
ghost use Rattle.node_set.specs.declared.fault.CoreFault.{CoreFault as Fault};
ghost use Rattle.node_set.specs.declared.fault.CoreFault.TheVariants.{Unavailable};
ghost use Rattle.node_set.specs.Whole.{IsSound};
ghost use Rattle.node_set.specs.Contents.{roots};
ghost use Rattle.core_snap.specs.declared.snapshot.ReadAt.{ReadAt};
ghost use Rattle.core_snap.specs.declared.snapshot.Snapshot.{Snapshot};
ghost use Rattle.core_snap.specs.Reads.{Answer, SameRead, read_of, snap_read};
ghost use Rattle.log_view.specs.Views.{Source};
ghost use Rattle.snap_reads.specs.Reads.{GivesRead, LeafDiffers, RootDiffers, HasRootOver, LacksRootOver};

/// Two answers for one index that are proved under the roots of one snapshot have one block, or two different inputs of
/// equal hash are in hand, one of each answer.
pub fn one_block_of_a_snapshot()
    ensures { (snap : Snapshot) → (index : ℕ) → (one other : Answer)
        → Proves snap.length snap.roots index one.block one.trail
        → Proves snap.length snap.roots index other.block other.trail
        → SameRead snap index one other }
{}

/// What was read of a view that shows its content is what the content answers under its own head: the block with its
/// siblings, or the damage at its leaf or at the root over it.
pub fn what_a_read_shows()
    ensures read { (s : Source) → IsTrue s.shows → (index : ℕ) → (buffer : List ℕ) → (read : ReadAt)
        → GivesRead s index (length read.trail) buffer read
        → Proves s.content.length (roots s.content) index (take read.len buffer) read.trail
        → read_of s.content index
        ≡ Ok (record { block = take read.len buffer; trail = read.trail }) }
    ensures leaf { (s : Source) → IsTrue s.shows → (index : ℕ) → (buffer : List ℕ) → (root : NodeSeen)
        → (fault : Fault) → index < s.content.length
        → IsRootOver (roots s.content) s.content.length index root
        → LeafDiffers s index buffer fault → read_of s.content index ≡ Err fault }
    ensures root { (s : Source) → IsTrue s.shows → (index : ℕ) → (buffer : List ℕ) → (root : NodeSeen)
        → (fault : Fault) → index < s.content.length
        → IsRootOver (roots s.content) s.content.length index root
        → RootDiffers s root (depth_over s.content.length index) index buffer fault
        → read_of s.content index ≡ Err fault }
{}

/// What was read under a snapshot of a view that shows its content is what the content answers under it: the block with
/// its siblings, or, where a sound content lacks the snapshot's root over the index, that the block is unavailable.
pub fn what_a_snapshot_read_shows()
    ensures read { (s : Source) → IsTrue s.shows → (snap : Snapshot) → (index : ℕ) → (buffer : List ℕ)
        → (read : ReadAt) → HasRootOver s snap.roots snap.length index
        → GivesRead s index (length read.trail) buffer read
        → Proves snap.length snap.roots index (take read.len buffer) read.trail
        → snap_read s.content snap index
        ≡ Ok (record { block = take read.len buffer; trail = read.trail }) }
    ensures lost { (s : Source) → IsTrue s.shows → IsSound s.content → (snap : Snapshot) → (index : ℕ)
        → HasShape snap.roots snap.length → index < snap.length
        → LacksRootOver s snap.roots snap.length index
        → snap_read s.content snap index ≡ Err (Unavailable index) }
{}
