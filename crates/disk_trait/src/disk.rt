//! The trait of disks.
ghost use Rattle.std.specs.Prelude.{◌≡◌, ◌≤◌, ℕ, List, IsTrue, length};
ghost use Rattle.disk_trait.specs.Disk.{DiskView, Counts, Reads, Writes, Cuts, Syncs, Sizes, Keeps, IsOnePast, MayStay};

use outside_traits::Failed;

/// One of the five lists of bytes that a core keeps on its disk.
#[derive(Clone, Copy, Debug, PartialEq, Eq)]
pub enum Area {
    Oplog,
    Tree,
    BitsA,
    BitsB,
    Blocks,
}

/// Five areas of bytes that outlive the program. What was written since an area's last sync may be lost in a crash,
/// or torn: docs/MODEL.md, "The disk".
pub trait Disk {
    /// What is seen of it: what its areas read as, what a crash may leave, what it went through, its clock and its
    /// counts.
    ghost disk: { Self → DiskView };

    /// Reads at the front of `into` the bytes from `at` on, and gives their number: as many as the area has there.
    fn read(&mut self, area: Area, at: u64, into: &mut [u8]) -> Result<usize, Failed>
        ensures counts { Counts (disk self.old) (disk self.new) result }
        ensures reads { IsTrue (disk self.old).honest
            → Reads area at into.old into.new (disk self.old) (disk self.new) result };

    /// Writes over what is there and past the end. A gap that it leaves reads as zeros.
    fn write(&mut self, area: Area, at: u64, bytes: &[u8]) -> Result<(), Failed>
        ensures counts { Counts (disk self.old) (disk self.new) result }
        ensures writes { IsTrue (disk self.old).honest
            → Writes area at bytes.now (disk self.old) (disk self.new) result };

    /// Cuts the area to `to` bytes.
    fn cut(&mut self, area: Area, to: u64) -> Result<(), Failed>
        requires { IsTrue (disk self.old).honest → to ≤ length ((disk self.old).reads area) }
        ensures counts { Counts (disk self.old) (disk self.new) result }
        ensures cuts { IsTrue (disk self.old).honest
            → Cuts area to (disk self.old) (disk self.new) result };

    /// Makes durable what the area reads as.
    fn sync(&mut self, area: Area) -> Result<(), Failed>
        ensures counts { Counts (disk self.old) (disk self.new) result }
        ensures syncs { IsTrue (disk self.old).honest
            → Syncs area (disk self.old) (disk self.new) result };

    /// The area's size in bytes.
    fn size(&mut self, area: Area) -> Result<u64, Failed>
        ensures counts { Counts (disk self.old) (disk self.new) result }
        ensures sizes { IsTrue (disk self.old).honest
            → Sizes area (disk self.old) (disk self.new) result };

    /// The count of faults. It isn't counted as a call.
    fn faults(&self) -> u64
        ensures { result ≡ (disk self.now).faults };

    /// As it reads is one of the ways in which a crash now may leave it.
    ghost may_stay: { (self : Self) → IsTrue (disk self).honest → MayStay (disk self) };

    /// Where no step was made since, nothing was touched since.
    ghost rests: { (old new : Self) → IsTrue (disk old).honest → IsOnePast (disk old) (disk new)
        → Keeps (disk old) (disk new) };
}
