//! The program's own streams, as a source and a sink. They tell what their reader or writer tells, which for an open
//! file or a pipe is nothing: this is the trusted edge. A call that a signal interrupts is made again.
ghost use Rattle.std.specs.Prelude.{◌≡◌, ◌≢◌, ◌≤◌, ◌<◌, [], IsErr, IfOk, length};
ghost use Rattle.std.specs.Io.KnownBytes.{ReadConsumes, WriteAppends};
ghost use Rattle.outside_traits.specs.Faults.{count_fault};
ghost use Rattle.outside_traits.specs.Streams.{Reads, Writes};
ghost use Rattle.outside_traits.specs.Standard.{reader_view, writer_view, FailsBy};

use crate::calls::{Counts, Stop, read_once, write_once};
use crate::failed::Failed;
use crate::sink::Sink;
use crate::source::Source;
use std::io::{Read, Write};

/// A source over a reader, with a count of its faults. An empty place is a fault.
#[derive(Drop)]
pub struct StdSource<R: Read> {
    reader: R,
    counts: Counts,
    faults: u64,
}

impl<R: Read> StdSource<R> {
    /// A source over `reader`, with no fault so far.
    pub fn new(reader: R) -> StdSource<R>
        ensures reader { result.reader ≡ reader }
        ensures faults { result.faults ≡ 0 }
    {
        StdSource {
            reader,
            counts: Counts::new(),
            faults: 0,
        }
    }
}

impl<R: Read> Source for StdSource<R> {
    ghost source = { λ source. reader_view (R.remaining source.reader) source.faults };

    fn read(&mut self, into: &mut [u8]) -> Result<usize, Failed>
        ensures reads { Reads (reader_view (R.remaining self.old.reader) self.old.faults)
            (reader_view (R.remaining self.new.reader) self.new.faults) result into.new }
        ensures empty { into.old ≡ [] → IsErr result }
        ensures fails { into.old ≢ [] → FailsBy self.old.counts self.new.counts result }
    {
        if into.is_empty() {
            return Err(fail(&mut self.faults));
        }
        match read_on(&mut self.reader, &mut self.counts, into) {
            Ok(count) => Ok(count),
            Err(_) => Err(fail(&mut self.faults)),
        }
    }
}

// Reads, once more wherever a signal interrupts it.
fn read_on<R: Read>(reader: &mut R, counts: &mut Counts, into: &mut [u8]) -> Result<usize, Failed>
    ensures within { IfOk result (λ n. n ≤ length into.new) }
    ensures bytes { ReadConsumes (R.remaining reader.old) (R.remaining reader.new) result into.new }
    ensures fails { FailsBy counts.old counts.new result }
{
    for _ in 0..u64::MAX {
        match read_once(reader, counts, into) {
            Ok(count) => return Ok(count),
            Err(Stop::Interrupted) => {}
            Err(Stop::Failed) => return Err(Failed),
        }
    }
    Err(Failed)
}

/// A sink over a writer, with a count of its faults. An empty piece, and a writer that takes nothing, are faults.
#[derive(Drop)]
pub struct StdSink<W: Write> {
    writer: W,
    counts: Counts,
    faults: u64,
}

impl<W: Write> StdSink<W> {
    /// A sink over `writer`, with no fault so far.
    pub fn new(writer: W) -> StdSink<W>
        ensures writer { result.writer ≡ writer }
        ensures faults { result.faults ≡ 0 }
    {
        StdSink {
            writer,
            counts: Counts::new(),
            faults: 0,
        }
    }
}

impl<W: Write> Sink for StdSink<W> {
    ghost sink = { λ sink. writer_view (W.contents sink.writer) sink.faults };

    fn write(&mut self, bytes: &[u8]) -> Result<usize, Failed>
        ensures writes { Writes (writer_view (W.contents self.old.writer) self.old.faults)
            (writer_view (W.contents self.new.writer) self.new.faults) result bytes.now }
        ensures empty { bytes.now ≡ [] → IsErr result }
        ensures fails { FailsBy self.old.counts self.new.counts result }
    {
        match write_on(&mut self.writer, &mut self.counts, bytes) {
            Ok(count) => Ok(count),
            Err(_) => Err(fail(&mut self.faults)),
        }
    }
}

// Writes, once more wherever a signal interrupts it.
fn write_on<W: Write>(writer: &mut W, counts: &mut Counts, bytes: &[u8]) -> Result<usize, Failed>
    ensures within { IfOk result (λ n. n ≤ length bytes.now) }
    ensures some { IfOk result (λ n. 0 < n) }
    ensures bytes { WriteAppends (W.contents writer.old) (W.contents writer.new) result bytes.now }
    ensures fails { FailsBy counts.old counts.new result }
{
    for _ in 0..u64::MAX {
        match write_once(writer, counts, bytes) {
            Ok(count) => return Ok(count),
            Err(Stop::Interrupted) => {}
            Err(Stop::Failed) => return Err(Failed),
        }
    }
    Err(Failed)
}

fn fail(faults: &mut u64) -> Failed
    ensures one { faults.new ≡ count_fault faults.old }
    ensures kept { faults.old ≤ faults.new }
{
    *faults = faults.saturating_add(1);
    Failed
}
