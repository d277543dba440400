//! The trait of shelves.
ghost use Rattle.std.specs.Prelude.{◌≡◌, ◌≤◌, ℕ, List, false, true, IsTrue};
ghost use Rattle.outside_traits.specs.Faults.{HasCause};
ghost use Rattle.core_shelf.specs.Shelf.{ShelfView, Counts, KeepsOut, FailsWhereRose, Lists, Has, CountsOut, Takes, CountsIn, Gives, Marks};

use crate::fault::ShelfFault;
use disk_trait::Disk;
use outside_traits::Failed;
use std::alloc::Global;

/// The ids of cores, of 32 bytes each.
pub type IdList = Vec<[u8; 32]>;

/// A list of cores by their ids, and a disk for every id. Who takes a disk gives it back, whatever came of it:
/// docs/MODEL.md, "The shelf".
pub trait Shelf {
    type Store: Disk + Send + Drop;

    /// What is seen of it: its list, the disks, which of them are out, and its count of faults.
    ghost shelf: { Self → ShelfView };

    /// The ids on the list, in byte order.
    fn list(&mut self, alloc: Global) -> Result<IdList, ShelfFault>
        ensures counts { Counts (shelf self.old) (shelf self.new) }
        ensures out { KeepsOut (shelf self.old) (shelf self.new) }
        ensures cause { FailsWhereRose (shelf self.old) (shelf self.new) result }
        ensures lists { IsTrue (shelf self.old).honest
            → Lists (shelf self.old) (shelf self.new) result };

    /// Whether the id is on the list.
    fn has(&mut self, id: &[u8; 32]) -> Result<bool, Failed>
        ensures counts { Counts (shelf self.old) (shelf self.new) }
        ensures out { KeepsOut (shelf self.old) (shelf self.new) }
        ensures cause { HasCause (shelf self.old).faults (shelf self.new).faults result }
        ensures has { IsTrue (shelf self.old).honest
            → Has id.now (shelf self.old) (shelf self.new) result };

    /// The disk of an id that isn't out. It is out then; after a fault it is on the shelf as before.
    fn take_disk(&mut self, alloc: Global, id: &[u8; 32]) -> Result<Self::Store, ShelfFault>
        requires { IsTrue (shelf self.old).honest → (shelf self.old).out id.now ≡ false }
        ensures counts { Counts (shelf self.old) (shelf self.new) }
        ensures out { CountsOut Self.Store.disk id.now (shelf self.old) (shelf self.new) result }
        ensures cause { FailsWhereRose (shelf self.old) (shelf self.new) result }
        ensures takes { IsTrue (shelf self.old).honest
            → Takes Self.Store.disk id.now (shelf self.old) (shelf self.new) result };

    /// Puts the disk of an id that is out back. The count of faults rises where the disk's rose since it went out.
    fn give_disk(&mut self, id: &[u8; 32], disk: Self::Store)
        requires { IsTrue (shelf self.old).honest → (shelf self.old).out id.now ≡ true }
        ensures counts { Counts (shelf self.old) (shelf self.new) }
        ensures out { CountsIn (Self.Store.disk disk) id.now (shelf self.old) (shelf self.new) }
        ensures gives { IsTrue (shelf self.old).honest
            → Gives (Self.Store.disk disk) id.now (shelf self.old) (shelf self.new) };

    /// Puts the id on the list. After a fault it is on the list or not.
    fn mark(&mut self, id: &[u8; 32]) -> Result<(), ShelfFault>
        ensures counts { Counts (shelf self.old) (shelf self.new) }
        ensures out { KeepsOut (shelf self.old) (shelf self.new) }
        ensures cause { FailsWhereRose (shelf self.old) (shelf self.new) result }
        ensures marks { IsTrue (shelf self.old).honest
            → Marks id.now (shelf self.old) (shelf self.new) result };

    /// A shelf that tells has disks that tell.
    ghost tells: { (self : Self) → IsTrue (shelf self).honest → (id : List ℕ) → IsTrue ((shelf self).disk id).honest };
}
