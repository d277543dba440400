//! A source that never fails, and a sink that never fails and tells nothing.
ghost use Rattle.std.specs.Prelude.{◌≡◌, ◌≤◌, ◌<◌, ℕ, List, [], Some, None, Ok, IsOk, IfOk, min, take, drop, length};
ghost use Rattle.outside_traits.specs.Streams.{Reads, Writes};
ghost use Rattle.outside_traits.specs.Sure.{SureSourceView, sure_source_view_of, sure_sink_view};

use crate::blob::Blob;
use crate::failed::Failed;
use crate::sink::Sink;
use crate::source::Source;
use std::marker::Model;

/// A source that gives these bytes and never fails.
#[derive(Drop)]
pub struct SureSource {
    bytes: Blob,
    at: usize,
}

impl Model for SureSource {
    ghost Value = { SureSourceView };

    ghost view = { λ source. record { given = take source.at source.bytes; left = drop source.at source.bytes } };

    ghost invariant = { λ source. source.at ≤ length source.bytes };
}

impl SureSource {
    /// A source that gives `bytes`.
    pub fn new(bytes: Blob) -> SureSource
        ensures given { result.given ≡ [] }
        ensures left { result.left ≡ bytes }
    {
        SureSource { bytes, at: 0 }
    }
}

impl Source for SureSource {
    ghost source = { sure_source_view_of };

    fn read(&mut self, into: &mut [u8]) -> Result<usize, Failed>
        ensures reads { Reads (sure_source_view_of self.old) (sure_source_view_of self.new) result into.new }
        ensures sure { IsOk result }
        ensures most { IfOk result (λ n. n ≡ min (length into.old) (length self.old.left)) }
    {
        let rest = &self.bytes.bytes()[self.at..];
        let n = into.len().min(rest.len());
        into[..n].copy_from_slice(&rest[..n]);
        self.at += n;
        Ok(n)
    }
}

/// A sink that drops what it is given, never fails and tells nothing.
#[derive(Clone, Copy, Debug)]
pub struct SureSink;

impl Sink for SureSink {
    ghost sink = { λ _. sure_sink_view };

    fn write(&mut self, bytes: &[u8]) -> Result<usize, Failed>
        ensures writes { Writes sure_sink_view sure_sink_view result bytes.now }
        ensures all { result ≡ Ok (length bytes.now) }
    {
        Ok(bytes.len())
    }
}
