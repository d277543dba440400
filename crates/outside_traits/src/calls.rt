//! Single calls of a reader or a writer of the system, sorted and counted by what they answer.
ghost use Rattle.std.specs.Prelude.{◌≡◌, ◌≢◌, ◌≤◌, ◌<◌, Ok, Err, IfOk, IfErr, length};
ghost use Rattle.std.specs.IoError.{error_kind};
ghost use Rattle.std.specs.Io.KnownBytes.{ReadConsumes, WriteAppends};
ghost use Rattle.outside_traits.specs.Standard.{CountsCall};

use std::io;
use std::io::{ErrorKind, Read, Write};

/// Why a call moved no byte.
#[derive(Clone, Copy, Debug, PartialEq, Eq)]
pub enum Stop {
    /// A signal came first. The call is to be made again.
    Interrupted,
    Failed,
}

/// How many calls were interrupted, and how many failed. Both counts stand still at their type's end.
#[derive(Drop)]
pub struct Counts {
    interrupted: u64,
    failed: u64,
}

impl Counts {
    pub fn new() -> Counts
        ensures interrupted { result.interrupted ≡ 0 }
        ensures failed { result.failed ≡ 0 }
    {
        Counts {
            interrupted: 0,
            failed: 0,
        }
    }

    fn sort(&mut self, answer: io::Result<usize>) -> Result<usize, Stop>
        ensures ok { IfOk answer (λ n. result ≡ Ok n) }
        ensures interrupted { IfErr answer (λ error. error_kind error ≡ ErrorKind.Interrupted
            → result ≡ Err Stop.Interrupted) }
        ensures failed { IfErr answer (λ error. error_kind error ≢ ErrorKind.Interrupted
            → result ≡ Err Stop.Failed) }
        ensures counts { CountsCall self.old self.new result }
    {
        match answer {
            Ok(count) => Ok(count),
            Err(error) if error.kind() == ErrorKind::Interrupted => {
                self.interrupted = self.interrupted.saturating_add(1);
                Err(Stop::Interrupted)
            }
            Err(_) => {
                self.failed = self.failed.saturating_add(1);
                Err(Stop::Failed)
            }
        }
    }
}

/// One call of a reader.
pub fn read_once<R: Read>(
    reader: &mut R,
    counts: &mut Counts,
    into: &mut [u8],
) -> Result<usize, Stop>
    ensures within { IfOk result (λ n. n ≤ length into.new) }
    ensures bytes { ReadConsumes (R.remaining reader.old) (R.remaining reader.new) result into.new }
    ensures counts { CountsCall counts.old counts.new result }
{
    let answer = reader.read(into);
    counts.sort(answer)
}

/// One call of a writer. One that takes nothing has failed.
pub fn write_once<W: Write>(
    writer: &mut W,
    counts: &mut Counts,
    bytes: &[u8],
) -> Result<usize, Stop>
    ensures within { IfOk result (λ n. n ≤ length bytes.now) }
    ensures some { IfOk result (λ n. 0 < n) }
    ensures bytes { WriteAppends (W.contents writer.old) (W.contents writer.new) result bytes.now }
    ensures counts { CountsCall counts.old counts.new result }
{
    match writer.write(bytes) {
        Ok(0) => counts.sort(Err(ErrorKind::WriteZero.into())),
        answer => counts.sort(answer),
    }
}
