//! What is timed.

use std::io;
use std::time::Instant;

/// The nanoseconds of some parts of a work: of the first tenth, of the last tenth, and of all.
#[derive(Clone, Copy)]
pub(crate) struct Times {
    parts: u64,
    pub first: u64,
    pub last: u64,
    pub all: u64,
}

impl Times {
    /// Of so many parts, of which none was timed yet.
    pub(crate) fn new(parts: u64) -> Times {
        Times {
            parts,
            first: 0,
            last: 0,
            all: 0,
        }
    }

    /// Adds a part that took so long.
    pub(crate) fn add(&mut self, number: u64, nanoseconds: u64) {
        let tenth = self.parts / 10;
        if number < tenth {
            self.first = self.first.saturating_add(nanoseconds);
        }
        if number >= self.parts.saturating_sub(tenth) {
            self.last = self.last.saturating_add(nanoseconds);
        }
        self.all = self.all.saturating_add(nanoseconds);
    }
}

/// The nanoseconds since then.
pub(crate) fn since(rt: &HostRuntime, start: &Instant) -> io::Result<u64> {
    Ok(u64::try_from(start.elapsed(rt)?.as_nanos()).unwrap_or(u64::MAX))
}
