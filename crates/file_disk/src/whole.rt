//! Whole reads and writes, made of calls that may be short or interrupted.
ghost use Rattle.std.specs.Prelude.{◌≡◌, ◌≤◌, ◌<◌, IsTrue, IfOk, length};
ghost use Rattle.disk_trait.specs.Disk.{Reads, Writes};
ghost use Rattle.file_disk.specs.Files.{areas_of, Retries, ReadsSome, WritesSome};

use crate::fault::CallFault;
use crate::files::CoreFiles;
use outside_traits::Failed;

/// Reads until the buffer is full or the file ends, and gives the number of bytes read.
pub fn read_full<F: CoreFiles>(
    files: &mut F,
    file: &F::File,
    at: u64,
    into: &mut [u8],
) -> Result<usize, Failed>
    ensures retries { Retries (F.files files.old) (F.files files.new) result }
    ensures reads { IsTrue (F.files files.old).honest → Reads (F.area file.now) at into.old into.new
        (areas_of (F.files files.old)) (areas_of (F.files files.new)) result }
{
    let mut end = 0;
    while end < into.len() {
        match read_some(files, file, at.wrapping_add(end as u64), &mut into[end..]) {
            Ok(0) => break,
            Ok(n) => end += n,
            Err(failed) => return Err(failed),
        }
    }
    Ok(end)
}

// One read, which is made again wherever a signal interrupts it.
fn read_some<F: CoreFiles>(
    files: &mut F,
    file: &F::File,
    at: u64,
    into: &mut [u8],
) -> Result<usize, Failed>
    ensures retries { Retries (F.files files.old) (F.files files.new) result }
    ensures within { IfOk result (λ n. n ≤ length into.new) }
    ensures reads { IsTrue (F.files files.old).honest → ReadsSome (F.area file.now) at into.old into.new
        (F.files files.old) (F.files files.new) result }
{
    for _ in 0..u64::MAX {
        match files.read_at(file, at, into) {
            Ok(n) => return Ok(n),
            Err(CallFault::Interrupted) => {}
            Err(CallFault::Failed) => return Err(Failed),
        }
    }
    Err(Failed)
}

/// Writes all the bytes from `at` on. After `Failed` a part of them may be written.
pub fn write_full<F: CoreFiles>(
    files: &mut F,
    file: &F::File,
    at: u64,
    bytes: &[u8],
) -> Result<(), Failed>
    ensures retries { Retries (F.files files.old) (F.files files.new) result }
    ensures writes { IsTrue (F.files files.old).honest → Writes (F.area file.now) at bytes.now
        (areas_of (F.files files.old)) (areas_of (F.files files.new)) result }
{
    let mut end = 0;
    while end < bytes.len() {
        match write_some(files, file, at.wrapping_add(end as u64), &bytes[end..]) {
            Ok(written) => end += written,
            Err(failed) => return Err(failed),
        }
    }
    Ok(())
}

// One write, which is made again wherever a signal interrupts it.
fn write_some<F: CoreFiles>(
    files: &mut F,
    file: &F::File,
    at: u64,
    bytes: &[u8],
) -> Result<usize, Failed>
    requires some { 0 < length bytes.now }
    ensures retries { Retries (F.files files.old) (F.files files.new) result }
    ensures within { IfOk result (λ n. n ≤ length bytes.now) }
    ensures some { IfOk result (λ n. 0 < n) }
    ensures writes { IsTrue (F.files files.old).honest → WritesSome (F.area file.now) at bytes.now
        (F.files files.old) (F.files files.new) result }
{
    for _ in 0..u64::MAX {
        match files.write_at(file, at, bytes) {
            Ok(n) => return Ok(n),
            Err(CallFault::Interrupted) => {}
            Err(CallFault::Failed) => return Err(Failed),
        }
    }
    Err(Failed)
}
