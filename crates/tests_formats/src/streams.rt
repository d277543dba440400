use outside_traits::{
    Blob, Blobs, Failed, LineFault, Lines, MemSink, MemSource, Memory, Sink, Source, StdSink,
    StdSource, fill, write_all,
};
use std::alloc::Global;
use std::io::{Error, ErrorKind, Read, Write};

/// Gives nothing and takes nothing, but fails.
#[derive(Clone, Copy)]
struct Broken;

impl Read for Broken {
    fn read(&mut self, _: &mut [u8]) -> Result<usize, Error> {
        Err(ErrorKind::NotConnected.into())
    }
}

impl Write for Broken {
    fn write(&mut self, _: &[u8]) -> Result<usize, Error> {
        Err(ErrorKind::NotConnected.into())
    }

    fn flush(&mut self) -> Result<(), Error> {
        Ok(())
    }
}

/// Gives these bytes one at a time.
#[derive(Clone, Copy)]
struct Drip {
    bytes: [u8; 8],
    at: usize,
}

impl Read for Drip {
    fn read(&mut self, into: &mut [u8]) -> Result<usize, Error> {
        match (self.bytes.get(self.at), into.first_mut()) {
            (Some(byte), Some(place)) => {
                *place = *byte;
                self.at = self.at.saturating_add(1);
                Ok(1)
            }
            _ => Ok(0),
        }
    }
}

// A source in memory, whose second read fails.
fn failing_source(alloc: Global, bytes: &[u8]) -> Option<MemSource> {
    let mut source = MemSource::new(alloc, Blob::from_slice(alloc, bytes).ok()?);
    source.plan_faults([1].to_vec(alloc).ok()?);
    Some(source)
}

type Filled = (Result<usize, Failed>, Result<usize, Failed>, [u8; 4]);

// Fills a place of four bytes, and fills it again.
fn fill_twice<S: Source>(source: &mut S) -> Filled {
    let mut place = [0; 4];
    let first = fill(source, &mut place);
    let second = fill(source, &mut place);
    (first, second, place)
}

fn filled_from_a_slice() -> Filled {
    fill_twice(&mut StdSource::new([1, 2, 3, 4, 5].as_slice()))
}

fn filled_from_a_broken_reader() -> Filled {
    fill_twice(&mut StdSource::new(Broken))
}

fn filled_from_memory(alloc: Global) -> Option<Filled> {
    let mut source = failing_source(alloc, &[1, 2, 3])?;
    Some(fill_twice(&mut source))
}

#[test]
fn places_are_filled(rt: HostRuntime) {
    assert!(rt; filled_from_a_slice() == (Ok(4), Ok(1), [5, 2, 3, 4]));
    assert!(rt; filled_from_a_broken_reader() == (Err(Failed), Err(Failed), [0; 4]));
    assert!(rt; filled_from_memory(rt.alloc()) == Some((Err(Failed), Ok(0), [1, 2, 3, 0])));
}

type Written = (
    Result<usize, Failed>,
    Result<(), Failed>,
    Result<(), Failed>,
);

// Writes an empty piece, and two bytes twice.
fn write_thrice<S: Sink>(sink: &mut S) -> Written {
    let none = sink.write(&[]);
    let first = write_all(sink, &[6, 7]);
    let second = write_all(sink, &[8, 9]);
    (none, first, second)
}

fn written_to_a_vector(alloc: Global) -> (Written, bool) {
    let mut held = Vec::new(alloc);
    let written = write_thrice(&mut StdSink::new(&mut held));
    (written, held.as_slice() == [6, 7, 8, 9].as_slice())
}

fn written_to_a_broken_writer() -> Written {
    write_thrice(&mut StdSink::new(Broken))
}

// The sink has room for three bytes, and its second write fails.
fn written_to_memory(alloc: Global) -> Option<(Written, bool)> {
    let mut sink = MemSink::new(alloc, 3).ok()?;
    sink.plan_faults([1].to_vec(alloc).ok()?);
    let written = write_thrice(&mut sink);
    Some((written, sink.bytes() == [8, 9].as_slice()))
}

#[test]
fn pieces_are_written(rt: HostRuntime) {
    let failed = Err(Failed);
    assert!(rt; written_to_a_vector(rt.alloc()) == ((failed, Ok(()), Ok(())), true));
    assert!(rt; written_to_a_broken_writer() == (failed, Err(Failed), Err(Failed)));
    assert!(rt; written_to_memory(rt.alloc()) == Some(((failed, Err(Failed), Ok(())), true)));
}

// Adds the lines up to another answer, which it gives.
fn gather<S: Source>(
    alloc: Global,
    lines: &mut Lines,
    source: &mut S,
    blobs: &mut Blobs,
) -> Result<Result<bool, LineFault>, Memory> {
    for _ in 0..8 {
        match lines.next(source) {
            Ok(true) => blobs.push(alloc, lines.line())?,
            other => return Ok(other),
        }
    }
    Ok(Ok(true))
}

type Lined = (
    Result<bool, LineFault>,
    Result<bool, LineFault>,
    usize,
    bool,
);

// The answers behind the lines, and behind those that follow; how many lines there are, and whether they are `ab`, `cde`
// and `f`.
fn gather_twice<S: Source>(alloc: Global, source: &mut S) -> Result<Lined, Memory> {
    let mut lines = Lines::new(alloc, 3)?;
    let mut blobs = Blobs::new();
    let first = gather(alloc, &mut lines, source, &mut blobs)?;
    let second = gather(alloc, &mut lines, source, &mut blobs)?;
    Ok((
        first,
        second,
        blobs.len(),
        blobs.flat() == b"abcdef".as_slice(),
    ))
}

fn lines_of_single_bytes(alloc: Global) -> Result<Lined, Memory> {
    let bytes = *b"ab\ncde\nf";
    gather_twice(alloc, &mut StdSource::new(Drip { bytes, at: 0 }))
}

fn lines_of_memory(alloc: Global) -> Option<Lined> {
    let mut source = failing_source(alloc, b"ab\ncde\nf")?;
    gather_twice(alloc, &mut source).ok()
}

#[test]
fn lines_are_gathered(rt: HostRuntime) {
    assert!(rt; lines_of_single_bytes(rt.alloc()) == Ok((Ok(false), Ok(false), 3, true)));
    let failed = Err(LineFault::Failed);
    assert!(rt; lines_of_memory(rt.alloc()) == Some((failed, Ok(false), 3, true)));
}
