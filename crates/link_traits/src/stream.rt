//! A link made of a source and a sink.
ghost use Rattle.std.specs.Prelude.{◌≡◌, ◌≤◌, ◌↔◌, Some, None, IsTrue};
ghost use Rattle.std.specs.Option.{is_none};
ghost use Rattle.outside_traits.specs.Faults.{Rose, count_fault};
ghost use Rattle.link_traits.specs.Links.{Receives, Sends};
ghost use Rattle.link_traits.specs.Standard.{silent_link, ReadsThrough, WritesThrough};

use crate::link::Link;
use outside_traits::{Failed, Sink, Source};

/// A link over a source and a sink that are the two directions of one connection, which its end drops. It tells nothing
/// of its bytes.
#[derive(Drop)]
pub struct StreamLink<S: Source + Drop, K: Sink + Drop> {
    streams: Option<(S, K)>,
    faults: u64,
}

impl<S: Source + Drop, K: Sink + Drop> StreamLink<S, K> {
    /// An open link, with no fault so far.
    pub fn new(source: S, sink: K) -> StreamLink<S, K>
        ensures streams { result.streams ≡ Some (source, sink) }
        ensures faults { result.faults ≡ 0 }
    {
        StreamLink {
            streams: Some((source, sink)),
            faults: 0,
        }
    }

    /// Whether a call failed since it was made.
    pub fn has_risen(&self) -> bool
        ensures { IsTrue result ↔ Rose 0 self.now.faults }
    {
        self.faults > 0
    }
}

impl<S: Source + Drop, K: Sink + Drop> Link for StreamLink<S, K> {
    ghost link = { λ link. silent_link (is_none link.streams) link.faults };

    fn read(&mut self, into: &mut [u8]) -> Result<usize, Failed>
        ensures receives { Receives (silent_link (is_none self.old.streams) self.old.faults)
            (silent_link (is_none self.new.streams) self.new.faults) result into.new }
        ensures through { ReadsThrough S.source self.old.streams self.new.streams result into.new }
    {
        if let Some((source, _)) = &mut self.streams {
            if let Ok(count) = source.read(into) {
                return Ok(count);
            }
        }
        Err(fail(&mut self.faults))
    }

    fn write(&mut self, bytes: &[u8]) -> Result<usize, Failed>
        ensures sends { Sends (silent_link (is_none self.old.streams) self.old.faults)
            (silent_link (is_none self.new.streams) self.new.faults) result bytes.now }
        ensures through { WritesThrough K.sink self.old.streams self.new.streams result bytes.now }
    {
        if let Some((_, sink)) = &mut self.streams {
            if let Ok(count) = sink.write(bytes) {
                return Ok(count);
            }
        }
        Err(fail(&mut self.faults))
    }

    fn end(&mut self)
        ensures streams { self.new.streams ≡ None }
        ensures faults { self.new.faults ≡ self.old.faults }
    {
        self.streams = None;
    }
}

pub(crate) fn fail(faults: &mut u64) -> Failed
    ensures one { faults.new ≡ count_fault faults.old }
    ensures kept { faults.old ≤ faults.new }
{
    *faults = faults.saturating_add(1);
    Failed
}
