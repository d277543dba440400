//! Where bytes go.
ghost use Rattle.std.specs.Prelude.{◌≡◌, []};
ghost use Rattle.outside_traits.specs.Streams.{SinkView, Writes, WritesAll};

use crate::failed::Failed;

/// A stream that bytes are written to.
pub trait Sink {
    /// The bytes that it holds, where it tells, and its count of faults.
    ghost sink: { Self → SinkView };

    /// Takes a front of `bytes`, at least one byte of a piece that isn't empty, and gives the number taken.
    /// `Failed` takes none, and comes only where the count of faults rose.
    fn write(&mut self, bytes: &[u8]) -> Result<usize, Failed>
        ensures writes { Writes (sink self.old) (sink self.new) result bytes.now };
}

/// Writes all of `bytes`, and makes no call where there are none. After `Failed` a front of them was written.
pub fn write_all<S: Sink>(sink: &mut S, bytes: &[u8]) -> Result<(), Failed>
    ensures all { WritesAll (S.sink sink.old) (S.sink sink.new) result bytes.now }
    ensures none { bytes.now ≡ [] → S.sink sink.new ≡ S.sink sink.old }
{
    let mut rest = bytes;
    while !rest.is_empty() {
        match sink.write(rest) {
            Ok(taken) => rest = &rest[taken..],
            Err(failed) => return Err(failed),
        }
    }
    Ok(())
}
