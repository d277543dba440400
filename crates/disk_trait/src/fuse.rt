//! A disk that fails from some call on.
ghost use Rattle.std.specs.Prelude.{◌≡◌, ◌≤◌, ◌<◌, ◌+◌, ◌-◌, ◌^◌, ◌↔◌, min, IsTrue, length};
ghost use Rattle.outside_traits.specs.Faults.{count_fault};
ghost use Rattle.disk_trait.specs.Disk.{Counts, Reads, Writes, Cuts, Syncs, Sizes};
ghost use Rattle.disk_trait.specs.Fuse.{inner_of, left_of, made_of, refused_of, fuse_view_of, Fuses};
ghost use Rattle.disk_trait.specs.Rests.{fuse_rests};

use crate::disk::{Area, Disk};
use outside_traits::Failed;

/// Passes so many calls on to the disk that it holds, and fails each one after, which doesn't reach that disk.
#[derive(Drop)]
pub struct FuseDisk<D: Disk> {
    inner: D,
    left: u64,
    made: u64,
    refused: u64,
}

impl<D: Disk> FuseDisk<D> {
    /// A fuse over `disk` that passes `passes` calls.
    pub fn new(disk: D, passes: u64) -> FuseDisk<D>
        ensures inner { inner_of result ≡ disk }
        ensures left { left_of result ≡ passes }
        ensures made { made_of result ≡ 0 }
        ensures refused { refused_of result ≡ 0 }
    {
        FuseDisk {
            inner: disk,
            left: passes,
            made: 0,
            refused: 0,
        }
    }

    /// The disk as it is.
    pub fn inner(self) -> D
        ensures { result ≡ inner_of self }
    {
        self.inner
    }
}

// Counts a call, and says whether it is passed on.
fn spend(left: &mut u64, made: &mut u64, refused: &mut u64) -> bool
    ensures passes { IsTrue result ↔ (0 < left.old) }
    ensures left { left.new ≡ left.old - 1 }
    ensures made { made.new ≡ min (made.old + 1) (2 ^ 64 - 1) }
    ensures refused { left.old ≡ 0 → refused.new ≡ count_fault refused.old }
    ensures passed { 0 < left.old → refused.new ≡ refused.old }
{
    *made = made.saturating_add(1);
    if *left == 0 {
        *refused = refused.saturating_add(1);
        return false;
    }
    *left -= 1;
    true
}

impl<D: Disk> Disk for FuseDisk<D> {
    ghost disk = { fuse_view_of D.Disk.disk };

    ghost may_stay = { λ fuse honest. D.Disk.may_stay fuse.inner honest };

    ghost rests = { λ old new honest one. fuse_rests (D.Disk.disk old.inner) (D.Disk.disk new.inner)
        old.made new.made old.refused new.refused (λ inner. D.Disk.rests old.inner new.inner honest inner) one };

    fn read(&mut self, area: Area, at: u64, into: &mut [u8]) -> Result<usize, Failed>
        ensures counts { Counts (fuse_view_of D.Disk.disk self.old)
            (fuse_view_of D.Disk.disk self.new) result }
        ensures reads { IsTrue (D.Disk.disk self.old.inner).honest
            → Reads area at into.old into.new (fuse_view_of D.Disk.disk self.old) (fuse_view_of D.Disk.disk self.new) result }
        ensures fuse { Fuses D.Disk.disk self.old self.new result }
    {
        if !spend(&mut self.left, &mut self.made, &mut self.refused) {
            return Err(Failed);
        }
        self.inner.read(area, at, into)
    }

    fn write(&mut self, area: Area, at: u64, bytes: &[u8]) -> Result<(), Failed>
        ensures counts { Counts (fuse_view_of D.Disk.disk self.old)
            (fuse_view_of D.Disk.disk self.new) result }
        ensures writes { IsTrue (D.Disk.disk self.old.inner).honest
            → Writes area at bytes.now (fuse_view_of D.Disk.disk self.old) (fuse_view_of D.Disk.disk self.new) result }
        ensures fuse { Fuses D.Disk.disk self.old self.new result }
    {
        if !spend(&mut self.left, &mut self.made, &mut self.refused) {
            return Err(Failed);
        }
        self.inner.write(area, at, bytes)
    }

    fn cut(&mut self, area: Area, to: u64) -> Result<(), Failed>
        requires { IsTrue (D.Disk.disk self.old.inner).honest
            → to ≤ length ((D.Disk.disk self.old.inner).reads area) }
        ensures counts { Counts (fuse_view_of D.Disk.disk self.old)
            (fuse_view_of D.Disk.disk self.new) result }
        ensures cuts { IsTrue (D.Disk.disk self.old.inner).honest
            → Cuts area to (fuse_view_of D.Disk.disk self.old) (fuse_view_of D.Disk.disk self.new) result }
        ensures fuse { Fuses D.Disk.disk self.old self.new result }
    {
        if !spend(&mut self.left, &mut self.made, &mut self.refused) {
            return Err(Failed);
        }
        self.inner.cut(area, to)
    }

    fn sync(&mut self, area: Area) -> Result<(), Failed>
        ensures counts { Counts (fuse_view_of D.Disk.disk self.old)
            (fuse_view_of D.Disk.disk self.new) result }
        ensures syncs { IsTrue (D.Disk.disk self.old.inner).honest
            → Syncs area (fuse_view_of D.Disk.disk self.old) (fuse_view_of D.Disk.disk self.new) result }
        ensures fuse { Fuses D.Disk.disk self.old self.new result }
    {
        if !spend(&mut self.left, &mut self.made, &mut self.refused) {
            return Err(Failed);
        }
        self.inner.sync(area)
    }

    fn size(&mut self, area: Area) -> Result<u64, Failed>
        ensures counts { Counts (fuse_view_of D.Disk.disk self.old)
            (fuse_view_of D.Disk.disk self.new) result }
        ensures sizes { IsTrue (D.Disk.disk self.old.inner).honest
            → Sizes area (fuse_view_of D.Disk.disk self.old) (fuse_view_of D.Disk.disk self.new) result }
        ensures fuse { Fuses D.Disk.disk self.old self.new result }
    {
        if !spend(&mut self.left, &mut self.made, &mut self.refused) {
            return Err(Failed);
        }
        self.inner.size(area)
    }

    fn faults(&self) -> u64 {
        self.inner.faults().saturating_add(self.refused)
    }
}
