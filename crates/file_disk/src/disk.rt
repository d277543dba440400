//! A disk of five files.
ghost use Rattle.std.specs.Prelude.{◌≡◌, ◌≤◌, ◌+◌, ◌-◌, ◌^◌, min, length, IsTrue, IsErrOf, IfOk, IfErr, MatchResult, IsErr};
ghost use Rattle.outside_traits.specs.Faults.{HasCause};
ghost use Rattle.disk_trait.specs.declared.disk.Area.TheVariants.{Oplog};
ghost use Rattle.disk_trait.specs.Disk.{Counts, Reads, Writes, Cuts, Syncs, Sizes};
ghost use Rattle.file_disk.specs.Disk.{handle_of, AreHandles, file_view_of};
ghost use Rattle.file_disk.specs.Files.{areas_of, SameAreas, Asks, Retries};
ghost use Rattle.file_disk.specs.Laws.{counted_rests};

use crate::fault::OpenFault;
use crate::files::CoreFiles;
use crate::handles::Handles;
use crate::names::name_of;
use crate::whole::{read_full, write_full};
use disk_trait::{Area, Disk};
use outside_traits::Failed;
use std::alloc::Global;
use std::marker::Model;

/// A disk of five open files, one for each area, with a count of its calls and one of those that failed.
#[derive(Drop)]
pub struct FileDisk<F: CoreFiles> {
    files: F,
    handles: Handles<F::File>,
    calls: u64,
    faults: u64,
}

impl<F: CoreFiles> Model for FileDisk<F> {
    ghost use Rattle.std.specs.Prelude.{IsTrue as Holds};
    ghost use Rattle.file_disk.specs.Disk.{FileDiskView, AreHandles as HasHandles};

    ghost Value = { FileDiskView F };

    ghost view = { λ disk. record { files = disk.files; calls = disk.calls; faults = disk.faults } };

    ghost invariant = { λ disk. Holds (F.files disk.files).honest → HasHandles F.area disk.handles };
}

impl<F: CoreFiles> FileDisk<F> {
    /// The disk in this folder, unless another program has it; a file that isn't there is made. No call was made, and
    /// none failed. With a fault the files come back.
    pub fn open(files: F, alloc: Global, folder: &str) -> Result<FileDisk<F>, (OpenFault, F)>
        ensures calls { IfOk result (λ disk. disk.calls ≡ 0) }
        ensures faults { IfOk result (λ disk. disk.faults ≡ 0) }
        ensures asks { MatchResult result
            (λ disk. Asks (F.files files) (F.files disk.files) ⊥)
            (λ back. Asks (F.files files) (F.files back.1) (back.0 ≡ OpenFault.Failed)) }
        ensures same { IsTrue (F.files files).honest → MatchResult result
            (λ disk. SameAreas (F.files files) (F.files disk.files))
            (λ back. SameAreas (F.files files) (F.files back.1)) }
        ensures locked { IsTrue (F.files files).honest
            → IfOk result (λ disk. IsTrue (F.files disk.files).locked) }
    {
        let mut files = files;
        match open_handles(&mut files, alloc, folder) {
            Ok(handles) => Ok(FileDisk {
                files,
                handles,
                calls: 0,
                faults: 0,
            }),
            Err(fault) => Err((fault, files)),
        }
    }

    /// The same disk, with this many calls made so far and this many of them failed.
    pub fn with_counts(self, calls: u64, faults: u64) -> FileDisk<F>
        ensures files { result.files ≡ self.files }
        ensures calls { result.calls ≡ calls }
        ensures faults { result.faults ≡ faults }
    {
        FileDisk {
            files: self.files,
            handles: self.handles,
            calls,
            faults,
        }
    }

    /// How many calls were made.
    pub fn calls(&self) -> u64
        ensures { result ≡ self.now.calls }
    {
        self.calls
    }

    /// The files, which are closed.
    pub fn into_files(self) -> F
        ensures { result ≡ self.files }
    {
        self.files
    }
}

// Opens the five files of a folder, and locks the oplog before it opens the others.
fn open_handles<F: CoreFiles>(
    files: &mut F,
    alloc: Global,
    folder: &str,
) -> Result<Handles<F::File>, OpenFault>
    ensures asks { Asks (F.files files.old) (F.files files.new) (IsErrOf result OpenFault.Failed) }
    ensures same { IsTrue (F.files files.old).honest
        → SameAreas (F.files files.old) (F.files files.new) }
    ensures locked { IsTrue (F.files files.old).honest
        → IfOk result (λ all. IsTrue (F.files files.new).locked) }
    ensures handles { IsTrue (F.files files.old).honest
        → IfOk result (λ all. AreHandles F.area all) }
{
    let oplog = open_locked(files, alloc, folder)?;
    let tree = open_area(files, alloc, folder, Area::Tree)?;
    let bits_a = open_area(files, alloc, folder, Area::BitsA)?;
    let bits_b = open_area(files, alloc, folder, Area::BitsB)?;
    let blocks = open_area(files, alloc, folder, Area::Blocks)?;
    Ok(Handles {
        oplog,
        tree,
        bits_a,
        bits_b,
        blocks,
    })
}

fn open_locked<F: CoreFiles>(
    files: &mut F,
    alloc: Global,
    folder: &str,
) -> Result<F::File, OpenFault>
    ensures asks { Asks (F.files files.old) (F.files files.new) (IsErrOf result OpenFault.Failed) }
    ensures same { IsTrue (F.files files.old).honest
        → SameAreas (F.files files.old) (F.files files.new) }
    ensures locked { IsTrue (F.files files.old).honest
        → IfOk result (λ file. IsTrue (F.files files.new).locked) }
    ensures area { IsTrue (F.files files.old).honest → IfOk result (λ file. F.area file ≡ Oplog) }
{
    let oplog = open_area(files, alloc, folder, Area::Oplog)?;
    match files.try_lock(&oplog) {
        Ok(()) => Ok(oplog),
        Err(_) => Err(OpenFault::Failed),
    }
}

fn open_area<F: CoreFiles>(
    files: &mut F,
    alloc: Global,
    folder: &str,
    area: Area,
) -> Result<F::File, OpenFault>
    ensures asks { Asks (F.files files.old) (F.files files.new) (IsErrOf result OpenFault.Failed) }
    ensures same { IsTrue (F.files files.old).honest
        → SameAreas (F.files files.old) (F.files files.new) }
    ensures area { IsTrue (F.files files.old).honest → IfOk result (λ file. F.area file ≡ area) }
{
    files.open(alloc, folder, name_of(area))
}

// Counts a call, and a fault where it failed.
fn count<T>(calls: &mut u64, faults: &mut u64, answer: Result<T, Failed>) -> Result<T, Failed>
    ensures same { result ≡ answer }
    ensures calls { calls.new ≡ min (calls.old + 1) (2 ^ 64 - 1) }
    ensures cause { HasCause faults.old faults.new result }
{
    *calls = calls.saturating_add(1);
    if answer.is_err() {
        *faults = faults.saturating_add(1);
    }
    answer
}

impl<F: CoreFiles> Disk for FileDisk<F> {
    ghost disk = { file_view_of F.CoreFiles.files };

    ghost may_stay = { λ disk honest. F.CoreFiles.may_stay disk.files honest };

    ghost rests = { λ old new honest one. counted_rests (areas_of (F.CoreFiles.files old.files))
        (areas_of (F.CoreFiles.files new.files)) old.calls new.calls old.faults new.faults (λ files. F.CoreFiles.rests old.files new.files honest files) one };

    fn read(&mut self, area: Area, at: u64, into: &mut [u8]) -> Result<usize, Failed>
        ensures counts { Counts (file_view_of F.CoreFiles.files self.old)
            (file_view_of F.CoreFiles.files self.new) result }
        ensures reads { IsTrue (F.CoreFiles.files self.old.files).honest
            → Reads area at into.old into.new (file_view_of F.CoreFiles.files self.old)
            (file_view_of F.CoreFiles.files self.new) result }
        ensures retries { Retries (F.CoreFiles.files self.old.files)
            (F.CoreFiles.files self.new.files) result }
    {
        let answer = read_full(&mut self.files, self.handles.of(area), at, into);
        count(&mut self.calls, &mut self.faults, answer)
    }

    fn write(&mut self, area: Area, at: u64, bytes: &[u8]) -> Result<(), Failed>
        ensures counts { Counts (file_view_of F.CoreFiles.files self.old)
            (file_view_of F.CoreFiles.files self.new) result }
        ensures writes { IsTrue (F.CoreFiles.files self.old.files).honest
            → Writes area at bytes.now (file_view_of F.CoreFiles.files self.old)
            (file_view_of F.CoreFiles.files self.new) result }
        ensures retries { Retries (F.CoreFiles.files self.old.files)
            (F.CoreFiles.files self.new.files) result }
    {
        let answer = write_full(&mut self.files, self.handles.of(area), at, bytes);
        count(&mut self.calls, &mut self.faults, answer)
    }

    fn cut(&mut self, area: Area, to: u64) -> Result<(), Failed>
        requires { IsTrue (F.CoreFiles.files self.old.files).honest
            → to ≤ length ((F.CoreFiles.files self.old.files).reads area) }
        ensures counts { Counts (file_view_of F.CoreFiles.files self.old)
            (file_view_of F.CoreFiles.files self.new) result }
        ensures cuts { IsTrue (F.CoreFiles.files self.old.files).honest
            → Cuts area to (file_view_of F.CoreFiles.files self.old) (file_view_of F.CoreFiles.files self.new) result }
        ensures asks { Asks (F.CoreFiles.files self.old.files) (F.CoreFiles.files self.new.files) (IsErr result) }
    {
        let answer = self.files.set_len(self.handles.of(area), to);
        count(&mut self.calls, &mut self.faults, answer)
    }

    fn sync(&mut self, area: Area) -> Result<(), Failed>
        ensures counts { Counts (file_view_of F.CoreFiles.files self.old)
            (file_view_of F.CoreFiles.files self.new) result }
        ensures syncs { IsTrue (F.CoreFiles.files self.old.files).honest
            → Syncs area (file_view_of F.CoreFiles.files self.old) (file_view_of F.CoreFiles.files self.new) result }
        ensures asks { Asks (F.CoreFiles.files self.old.files) (F.CoreFiles.files self.new.files) (IsErr result) }
    {
        let answer = self.files.sync_data(self.handles.of(area));
        count(&mut self.calls, &mut self.faults, answer)
    }

    fn size(&mut self, area: Area) -> Result<u64, Failed>
        ensures counts { Counts (file_view_of F.CoreFiles.files self.old)
            (file_view_of F.CoreFiles.files self.new) result }
        ensures sizes { IsTrue (F.CoreFiles.files self.old.files).honest
            → Sizes area (file_view_of F.CoreFiles.files self.old) (file_view_of F.CoreFiles.files self.new) result }
        ensures asks { Asks (F.CoreFiles.files self.old.files) (F.CoreFiles.files self.new.files) (IsErr result) }
    {
        let answer = self.files.len(self.handles.of(area));
        count(&mut self.calls, &mut self.faults, answer)
    }

    fn faults(&self) -> u64 {
        self.faults
    }
}
