//! The trait of cores that stand on a disk.
ghost use Rattle.std.specs.Prelude.{ℕ, Bool, List, MatchResult};
ghost use Rattle.disk_trait.specs.Disk.{DiskView};
ghost use Rattle.node_set.specs.declared.fault.CoreFault.{CoreFault};
ghost use Rattle.core_state.specs.Handing.{SameDisk, HandsIn};

use disk_trait::Disk;
use node_set::CoreFault;
use outside_traits::Signer;
use std::alloc::Global;

/// A core on a disk of its own, under an authority. The disk is handed in to make the core or to open it, and comes
/// back with a fault, or from the core.
pub trait OpenCore<D: Disk, A: Signer>: Sized {
    /// What is seen of the core's disk.
    ghost disk_of: { Self → DiskView };

    /// For what the authority accepts, and an id: this core was made on a disk that was seen so.
    ghost IsMade: { (List ℕ → List ℕ → Bool) → List ℕ → DiskView → Self → Type 0 };

    /// No core was made on a disk that was seen so, by this fault, and this is then seen of the disk.
    ghost MakeFails: { (List ℕ → List ℕ → Bool) → List ℕ → DiskView → CoreFault → DiskView → Type 0 };

    /// This core was opened from a disk that was seen so.
    ghost IsOpened: { (List ℕ → List ℕ → Bool) → List ℕ → DiskView → Self → Type 0 };

    /// No core was opened from a disk that was seen so, by this fault, and this is then seen of the disk.
    ghost OpenFails: { (List ℕ → List ℕ → Bool) → List ℕ → DiskView → CoreFault → DiskView → Type 0 };

    /// Makes the core without blocks, which was never signed, whatever the disk holds.
    fn make_new(alloc: Global, disk: D, id: &[u8; 32], auth: A) -> Result<Self, (CoreFault, D)>
        ensures disk { HandsIn D.disk disk_of (D.disk disk) result }
        ensures made { MatchResult result
            (IsMade (A.accepts auth) id.now (D.disk disk))
            (λ back. MakeFails (A.accepts auth) id.now (D.disk disk) back.0 (D.disk back.1)) };

    /// Opens the core that the disk stands for.
    fn open_store(alloc: Global, disk: D, id: &[u8; 32], auth: A) -> Result<Self, (CoreFault, D)>
        ensures disk { HandsIn D.disk disk_of (D.disk disk) result }
        ensures opened { MatchResult result
            (IsOpened (A.accepts auth) id.now (D.disk disk))
            (λ back. OpenFails (A.accepts auth) id.now (D.disk disk) back.0 (D.disk back.1)) };

    /// The disk as it is.
    fn into_disk(self) -> D
        ensures { SameDisk (disk_of self) (D.disk result) };
}
