//! The trait of open files.
ghost use Rattle.std.specs.Prelude.{◌≡◌, ◌≤◌, ◌<◌, Some, IsTrue, IsErr, IsErrOf, IfOk, OnOk, length};
ghost use Rattle.disk_trait.specs.declared.disk.Area.{Area as AnArea};
ghost use Rattle.disk_trait.specs.declared.disk.Area.TheVariants.{Oplog};
ghost use Rattle.disk_trait.specs.Disk.{Cuts, Syncs, Sizes, Keeps, IsOnePast, MayStay};
ghost use Rattle.file_disk.specs.Files.{FilesView, areas_of, SameAreas, Asks, Tries, ReadsSome, WritesSome};
ghost use Rattle.file_disk.specs.Names.{area_of_name};

use crate::fault::{CallFault, OpenFault};
use outside_traits::Failed;
use std::alloc::Global;

/// The files of one core's folder, one for each area, and what the system does with them. No call waits. Each clause on
/// what they hold is of honest files; `Failed` comes only where the count of faults rose.
pub trait CoreFiles {
    /// An open file.
    type File: Drop;

    /// What is seen of the files: what a disk of them reads as, what a crash may leave, whether they were locked, and
    /// the counts.
    ghost files: { Self → FilesView };

    /// The area whose file this is.
    ghost area: { Self.File → AnArea };

    /// The file of this name in the folder, to be read and written. It is made where it isn't there, and is empty.
    fn open(&mut self, alloc: Global, folder: &str, name: &str) -> Result<Self::File, OpenFault>
        ensures asks { Asks (files self.old) (files self.new) (IsErrOf result OpenFault.Failed) }
        ensures same { IsTrue (files self.old).honest → SameAreas (files self.old) (files self.new) }
        ensures area { IsTrue (files self.old).honest
            → IfOk result (λ file. area_of_name name.now ≡ Some (area file)) };

    /// Locks the oplog against other programs. The lock falls with the file, so also where the program is killed.
    fn try_lock(&mut self, file: &Self::File) -> Result<(), Failed>
        requires oplog { IsTrue (files self.old).honest → area file.now ≡ Oplog }
        ensures asks { Asks (files self.old) (files self.new) (IsErr result) }
        ensures same { IsTrue (files self.old).honest → SameAreas (files self.old) (files self.new) }
        ensures locked { IsTrue (files self.old).honest
            → OnOk result (IsTrue (files self.new).locked) };

    /// Reads at the front of `into` bytes from `at` on, and gives their number, which is 0 only at the file's end or
    /// for an empty buffer. It may be short. An interrupted one leaves the buffer.
    fn read_at(&mut self, file: &Self::File, at: u64, into: &mut [u8]) -> Result<usize, CallFault>
        ensures tries { Tries (files self.old) (files self.new) result }
        ensures within { IfOk result (λ n. n ≤ length into.new) }
        ensures reads { IsTrue (files self.old).honest
            → ReadsSome (area file.now) at into.old into.new (files self.old) (files self.new) result }
        ensures interrupted { IsTrue (files self.old).honest
            → IsErrOf result CallFault.Interrupted → into.new ≡ into.old };

    /// Writes a front of `bytes` from `at` on, at least one byte, and gives their number. It may be short. An
    /// interrupted one writes none.
    fn write_at(&mut self, file: &Self::File, at: u64, bytes: &[u8]) -> Result<usize, CallFault>
        requires some { 0 < length bytes.now }
        ensures tries { Tries (files self.old) (files self.new) result }
        ensures within { IfOk result (λ n. n ≤ length bytes.now) }
        ensures some { IfOk result (λ n. 0 < n) }
        ensures writes { IsTrue (files self.old).honest
            → WritesSome (area file.now) at bytes.now (files self.old) (files self.new) result }
        ensures interrupted { IsTrue (files self.old).honest → IsErrOf result CallFault.Interrupted
            → (files self.new).reads (area file.now) ≡ (files self.old).reads (area file.now) };

    /// Cuts the file to `to` bytes.
    fn set_len(&mut self, file: &Self::File, to: u64) -> Result<(), Failed>
        requires within { IsTrue (files self.old).honest
            → to ≤ length ((files self.old).reads (area file.now)) }
        ensures asks { Asks (files self.old) (files self.new) (IsErr result) }
        ensures cuts { IsTrue (files self.old).honest
            → Cuts (area file.now) to (areas_of (files self.old)) (areas_of (files self.new)) result };

    /// Makes durable what the file reads as.
    fn sync_data(&mut self, file: &Self::File) -> Result<(), Failed>
        ensures asks { Asks (files self.old) (files self.new) (IsErr result) }
        ensures syncs { IsTrue (files self.old).honest
            → Syncs (area file.now) (areas_of (files self.old)) (areas_of (files self.new)) result };

    /// The file's size in bytes.
    fn len(&mut self, file: &Self::File) -> Result<u64, Failed>
        ensures asks { Asks (files self.old) (files self.new) (IsErr result) }
        ensures sizes { IsTrue (files self.old).honest
            → Sizes (area file.now) (areas_of (files self.old)) (areas_of (files self.new)) result };

    /// As they read is one of the ways in which a crash now may leave them.
    ghost may_stay: { (self : Self) → IsTrue (files self).honest → MayStay (areas_of (files self)) };

    /// Where no step was made since, nothing was touched since.
    ghost rests: { (old new : Self) → IsTrue (files old).honest
        → IsOnePast (areas_of (files old)) (areas_of (files new))
        → Keeps (areas_of (files old)) (areas_of (files new)) };
}
