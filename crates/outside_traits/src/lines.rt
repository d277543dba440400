//! A reader of lines: one line of a source after the other, in memory that is taken once.
ghost use Rattle.std.specs.Prelude.{◌≡◌, ◌≢◌, ◌≤◌, ◌<◌, ◌+◌, ◌-◌, ◌^◌, ◌⊎◌, ℕ, List, [], false, None, Err, IfOk, IfSome, IsTrue, length, take, drop, slice_index, slice_range};
ghost use Rattle.outside_traits.specs.Lines.{LinesView, HasNoFeed, WantsMore, HandsOut, line_feed};
ghost use Rattle.std.specs.Io.KnownBytes.{IsAtEnd};
ghost use Rattle.outside_traits.specs.Streams.{SourceView};
ghost use Rattle.outside_traits.specs.LineCalls.{NextLine, Ends, CountsFaults, Meets, AllLines};
ghost use Rattle.outside_traits.specs.LinePlaces.{EndsAt, Lies, ReadsBehind, ReadsMore, lines_view_of};

use crate::failed::{Failed, Memory};
use crate::source::Source;
use std::alloc::Global;
use std::marker::Model;

/// Why there is no next line.
#[derive(Clone, Copy, Debug, PartialEq, Eq)]
pub enum LineFault {
    /// The source failed before the line's end. What was read of the line isn't lost.
    Failed,
    /// The line has more bytes than it may have. It stays where it is, and no more is read.
    TooLong,
}

// As much is asked of the source at least.
const READ_BYTES: usize = 65_536;

// A line feed is searched for in so many bytes at once.
const PIECE_BYTES: usize = 32;

/// The lines of a source. A line feed ends a line and is dropped, and the bytes behind the last
/// one are a line where there are any.
#[derive(Drop)]
pub struct Lines {
    place: Vec<u8>,
    // The line that was given last.
    start: usize,
    end: usize,
    // What was read and not given.
    from: usize,
    to: usize,
    // So many bytes at the front of that were searched, and hold no line feed.
    searched: usize,
    max: usize,
    ended: bool,
}

impl Model for Lines {
    ghost Value = { LinesView };

    ghost view = { λ l. lines_view_of l.place.items l.start l.end l.from l.to l.max l.ended };

    ghost invariant = { λ l. Lies l.place.items l.start l.end l.from l.to l.searched l.max };
}

impl Lines {
    /// Nothing is read yet. A line may have `max` bytes, and all memory is taken at once.
    pub fn new(alloc: Global, max: usize) -> Result<Lines, Memory>
        ensures ok { IfOk result (λ lines. lines
            ≡ record { line = []; ahead = []; ended = false; max = max }) }
    {
        let Some(room) = max.checked_add(READ_BYTES) else {
            return Err(Memory);
        };
        match zeros(alloc, room) {
            Ok(place) => Ok(Lines {
                place,
                start: 0,
                end: 0,
                from: 0,
                to: 0,
                searched: 0,
                max,
                ended: false,
            }),
            Err(_) => Err(Memory),
        }
    }

    /// Goes to the next line, and says whether there is one. It reads only where what it read before
    /// holds no whole line.
    pub fn next<S: Source>(&mut self, source: &mut S) -> Result<bool, LineFault>
        ensures lines { NextLine (S.source source.old) (S.source source.new)
            self.old self.new result }
        ensures max { self.new.max ≡ self.old.max }
        ensures idle { WantsMore self.old ⊎ (S.source source.new ≡ S.source source.old) }
        ensures ended { Ends (S.source source.new) self.old self.new }
        ensures cause { CountsFaults (S.source source.old) (S.source source.new) result }
    {
        loop {
            if let Some(answer) = self.front() {
                return answer;
            }
            if self.refill(source).is_err() {
                return Err(LineFault::Failed);
            }
        }
    }

    /// The line that the last call of `next` gave, without its line feed; no bytes after another
    /// answer.
    pub fn line(&self) -> &[u8]
        ensures { result.now ≡ self.now.line }
    {
        let place = self.place.as_slice();
        &place[self.start..self.end]
    }

    // The answer at the front of the bytes ahead, unless more is to be read.
    fn front(&mut self) -> Option<Result<bool, LineFault>>
        ensures answer { IfSome result (λ answer. HandsOut answer self.old.ahead self.new) }
        ensures known { IfSome result (λ answer. answer ≢ Err LineFault.Failed) }
        ensures more { result ≡ None → WantsMore self.new }
        ensures ahead { result ≡ None → self.new.ahead ≡ self.old.ahead }
        ensures line { result ≡ None → self.new.line ≡ [] }
        ensures ended { self.new.ended ≡ self.old.ended }
        ensures max { self.new.max ≡ self.old.max }
    {
        self.end = self.start;
        let at = self.line_end();
        let size = self.ahead_len();
        self.searched = at;
        if at > self.max {
            return Some(Err(LineFault::TooLong));
        }
        if at < size {
            self.give(at, at + 1);
            return Some(Ok(true));
        }
        if !self.ended {
            return None;
        }
        if size == 0 {
            return Some(Ok(false));
        }
        self.give(size, size);
        Some(Ok(true))
    }

    // How many bytes ahead stand before the first line feed of the first `max + 1`, or all of these.
    fn line_end(&self) -> usize
        ensures { EndsAt self.now.ahead self.now.max result }
    {
        let place = self.place.as_slice();
        search_on(&place[self.from..self.to], self.searched, self.max)
    }

    fn ahead_len(&self) -> usize
        ensures { result ≡ length self.now.ahead }
    {
        self.to - self.from
    }

    // Gives the first `size` bytes ahead as a line, and takes off the first `taken`.
    fn give(&mut self, size: usize, taken: usize)
        requires ordered { size ≤ taken }
        requires within { taken ≤ length self.old.ahead }
        ensures line { self.new.line ≡ take size self.old.ahead }
        ensures ahead { self.new.ahead ≡ drop taken self.old.ahead }
        ensures ended { self.new.ended ≡ self.old.ended }
        ensures max { self.new.max ≡ self.old.max }
    {
        self.start = self.from;
        self.end = self.from + size;
        self.from += taken;
        self.searched = 0;
    }

    // Reads more behind the bytes ahead, which move to the front of the place.
    fn refill<S: Source>(&mut self, source: &mut S) -> Result<(), Failed>
        requires wants { WantsMore self.old }
        ensures more { ReadsMore (S.source source.old) (S.source source.new)
            self.old self.new result }
    {
        self.end = self.start;
        let read = read_behind(source, self.place.as_mut_slice(), self.from, self.to);
        self.to -= self.from;
        self.from = 0;
        match read {
            Ok(count) => {
                self.to += count;
                self.ended = count == 0;
                Ok(())
            }
            Err(failed) => Err(failed),
        }
    }
}

/// The lines that calls of `next` give in turn, up to the one that gives none, are all lines of what was ahead and of
/// what the source had left. Nothing runs.
pub fn all_lines_are_met()
    ensures { (source last : SourceView) (lines : LinesView) (met : List (List ℕ))
        → (IsTrue lines.ended → IsAtEnd source.left) → Meets source lines met last
        → AllLines source last lines met }
{}

fn zeros(alloc: Global, len: usize) -> Result<Vec<u8>, Memory>
    ensures { IfOk result (λ place. length place.items ≡ len) }
{
    match vec![in alloc; 0; len] {
        Ok(place) => Ok(place),
        Err(_) => Err(Memory),
    }
}

// Searches on behind the bytes that were searched, in the first `max + 1`.
fn search_on(ahead: &[u8], searched: usize, max: usize) -> usize
    requires fits { max + 1 < 2 ^ 64 }
    requires within { searched ≤ length ahead.now }
    requires most { searched ≤ max + 1 }
    requires no_feed { HasNoFeed (take searched ahead.now) }
    ensures { EndsAt ahead.now max result }
{
    let end = ahead.len().min(max + 1);
    searched + len_before_feed(&ahead[searched..end])
}

// How many bytes stand before the first line feed, or all.
fn len_before_feed(bytes: &[u8]) -> usize
    ensures within { result ≤ length bytes.now }
    ensures no_feed { HasNoFeed (take result bytes.now) }
    ensures found { result < length bytes.now → slice_index bytes.now result ≡ line_feed }
{
    let clear = len_of_clear_pieces(bytes);
    clear + len_before_near_feed(&bytes[clear..])
}

// `len_before_feed`, byte by byte.
fn len_before_near_feed(bytes: &[u8]) -> usize
    ensures within { result ≤ length bytes.now }
    ensures no_feed { HasNoFeed (take result bytes.now) }
    ensures found { result < length bytes.now → slice_index bytes.now result ≡ line_feed }
{
    bytes
        .iter()
        .position(|byte| *byte == b'\n')
        .unwrap_or(bytes.len())
}

// How many bytes the whole pieces before the first one with a line feed have.
fn len_of_clear_pieces(bytes: &[u8]) -> usize
    ensures within { result ≤ length bytes.now }
    ensures no_feed { HasNoFeed (take result bytes.now) }
{
    let mut at = 0;
    while bytes.len() - at >= PIECE_BYTES && !has_feed(&bytes[at..at + PIECE_BYTES]) {
        at += PIECE_BYTES;
    }
    at
}

// Looks at each byte, so that the compiler compares many at once.
fn has_feed(piece: &[u8]) -> bool
    ensures { result ≡ false → HasNoFeed piece.now }
{
    let mut found = false;
    for byte in piece {
        found |= *byte == b'\n';
    }
    found
}

// Moves the bytes of the range to the front of the place, and reads behind them.
fn read_behind<S: Source>(
    source: &mut S,
    place: &mut [u8],
    from: usize,
    to: usize,
) -> Result<usize, Failed>
    requires ordered { from ≤ to }
    requires within { to ≤ length place.old }
    ensures { ReadsBehind (S.source source.old) (S.source source.new)
        place.old place.new from to result }
{
    move_to_front(place, from, to);
    source.read(&mut place[to - from..])
}

fn move_to_front(place: &mut [u8], from: usize, to: usize)
    requires ordered { from ≤ to }
    requires within { to ≤ length place.old }
    ensures kept { take (to - from) place.new ≡ slice_range place.old from to }
    ensures length { length place.new ≡ length place.old }
{
    if from > 0 {
        place.copy_within(from..to, 0);
    }
}
