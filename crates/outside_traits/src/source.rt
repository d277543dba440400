//! Where bytes come from.
ghost use Rattle.outside_traits.specs.Streams.{SourceView, Reads, Fills};

use crate::failed::Failed;

/// A stream of bytes that is read to its end. A read of 0 bytes into a place that isn't empty is the end.
pub trait Source {
    /// The bytes that it gave so far and those that are left, where it tells, and its count of faults.
    ghost source: { Self → SourceView };

    /// Reads at the front of `into`, and gives the number of bytes read.
    /// `Failed` moves no byte, and comes only where the count of faults rose.
    fn read(&mut self, into: &mut [u8]) -> Result<usize, Failed>
        ensures reads { Reads (source self.old) (source self.new) result into.new };
}

/// Reads until `into` is full or the input ends, and gives the number of bytes at its front that were read.
/// After `Failed` the bytes read before it are lost.
pub fn fill<S: Source>(source: &mut S, into: &mut [u8]) -> Result<usize, Failed>
    ensures fills { Fills (S.source source.old) (S.source source.new) result into.new }
{
    let mut at = 0;
    while at < into.len() {
        match source.read(&mut into[at..]) {
            Ok(0) => break,
            Ok(count) => at += count,
            Err(failed) => return Err(failed),
        }
    }
    Ok(at)
}
