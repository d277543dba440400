//! Files of the system. Nothing is told of what they hold: this is the trusted edge.
ghost use Rattle.std.specs.Prelude.{◌≡◌, ◌≤◌, ℕ, Err, true};
ghost use Rattle.outside_traits.specs.Faults.{Rose};
ghost use Rattle.disk_trait.specs.declared.disk.Area.TheVariants.{Oplog};
ghost use Rattle.file_disk.specs.Files.{Tries};
ghost use Rattle.file_disk.specs.Standard.{std_view_of};

use crate::fault::{CallFault, OpenFault};
use crate::files::CoreFiles;
use outside_traits::Failed;
use std::alloc::Global;
use std::fs::{File, OpenOptions};
use std::io;
use std::os::unix::fs::FileExt;
use std::path::Path;
use std::rt::Files;

/// Files of the system, with a count of the calls that failed and one of those that were interrupted.
#[derive(Drop)]
pub struct StdFiles<R: Files<File = File>> {
    rt: R,
    faults: u64,
    interrupted: u64,
}

impl<R: Files<File = File>> StdFiles<R> {
    /// Files of which no call was made.
    pub fn new(rt: R) -> StdFiles<R>
        ensures faults { result.faults ≡ 0 }
        ensures interrupted { result.interrupted ≡ 0 }
    {
        StdFiles {
            rt,
            faults: 0,
            interrupted: 0,
        }
    }

    // Counts a fault.
    fn fail(&mut self) -> Failed
        ensures rose { Rose self.old.faults self.new.faults }
        ensures kept { self.old.faults ≤ self.new.faults }
        ensures interrupted { self.new.interrupted ≡ self.old.interrupted }
    {
        self.faults = self.faults.saturating_add(1);
        Failed
    }

    // Counts a call that was interrupted or failed.
    fn stop(&mut self, error: io::Error) -> CallFault
        ensures { Tries {T = ℕ} (std_view_of self.old) (std_view_of self.new) (Err result) }
    {
        if error.kind() == io::ErrorKind::Interrupted {
            self.interrupted = self.interrupted.saturating_add(1);
            return CallFault::Interrupted;
        }
        self.fail();
        CallFault::Failed
    }
}

// The file of this name in a folder, to be read and written. It is made where it isn't there.
fn open_file<R: Files<File = File>>(
    rt: &R,
    alloc: Global,
    folder: &str,
    name: &str,
) -> io::Result<File> {
    let path = Path::new(folder).join(alloc, name)?;
    OpenOptions::new()
        .read(true)
        .write(true)
        .create(true)
        .open(rt, path)
}

impl<R: Files<File = File>> CoreFiles for StdFiles<R> {
    type File = File;

    ghost files = { std_view_of };

    // Nothing is told of it.
    ghost area = { λ file. Oplog };

    ghost may_stay = { λ files honest. cc };

    ghost rests = { λ old new honest one. cc };

    fn open(&mut self, alloc: Global, folder: &str, name: &str) -> Result<File, OpenFault> {
        match open_file(&self.rt, alloc, folder, name) {
            Ok(file) => Ok(file),
            Err(error) if error.kind() == io::ErrorKind::OutOfMemory => Err(OpenFault::Memory),
            Err(_) => {
                self.fail();
                Err(OpenFault::Failed)
            }
        }
    }

    fn try_lock(&mut self, file: &File) -> Result<(), Failed> {
        match file.try_lock() {
            Ok(()) => Ok(()),
            Err(_) => Err(self.fail()),
        }
    }

    fn read_at(&mut self, file: &File, at: u64, into: &mut [u8]) -> Result<usize, CallFault> {
        match file.read_at(into, at) {
            Ok(n) => Ok(n),
            Err(error) => Err(self.stop(error)),
        }
    }

    fn write_at(&mut self, file: &File, at: u64, bytes: &[u8]) -> Result<usize, CallFault> {
        match file.write_at(bytes, at) {
            Ok(0) => Err(self.stop(io::ErrorKind::WriteZero.into())),
            Ok(n) => Ok(n),
            Err(error) => Err(self.stop(error)),
        }
    }

    fn set_len(&mut self, file: &File, to: u64) -> Result<(), Failed> {
        match file.set_len(to) {
            Ok(()) => Ok(()),
            Err(_) => Err(self.fail()),
        }
    }

    fn sync_data(&mut self, file: &File) -> Result<(), Failed> {
        match file.sync_data() {
            Ok(()) => Ok(()),
            Err(_) => Err(self.fail()),
        }
    }

    fn len(&mut self, file: &File) -> Result<u64, Failed> {
        match file.metadata() {
            Ok(data) => Ok(data.len()),
            Err(_) => Err(self.fail()),
        }
    }
}
