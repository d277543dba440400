//! Streams of bytes in both directions.
ghost use Rattle.std.specs.Prelude.{◌≡◌};
ghost use Rattle.link_traits.specs.Links.{LinkView, Receives, Sends, end_of};

use outside_traits::Failed;

/// A stream of bytes to a peer and from it. Of a source and a sink apart no clause could say that the calls of the one
/// leave the bytes of the other as they are.
pub trait Link {
    /// Where it comes from, the bytes that it gave, those left and those written, where it tells, and its count of
    /// faults.
    ghost link: { Self → LinkView };

    /// Reads at the front of `into`, and gives the number of bytes read: 0 for a buffer that isn't empty is the end.
    /// `Failed` moves no byte, and comes only where the count of faults rose.
    fn read(&mut self, into: &mut [u8]) -> Result<usize, Failed>
        ensures receives { Receives (link self.old) (link self.new) result into.new };

    /// Takes a front of `bytes`, at least one byte of a piece that isn't empty, and gives the number taken.
    /// `Failed` takes none, and comes only where the count of faults rose.
    fn write(&mut self, bytes: &[u8]) -> Result<usize, Failed>
        ensures sends { Sends (link self.old) (link self.new) result bytes.now };

    /// Drops the connection. From now on each read and each write fails.
    fn end(&mut self)
        ensures ends { link self.new ≡ end_of (link self.old) };
}
