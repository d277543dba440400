//! A log whose blocks are the lines of an input.
ghost use Rattle.std.specs.Prelude.{◌≡◌, ◌≤◌, None, length};
ghost use Rattle.hypercore_cli.specs.LineLimits.{limit_at, limit_in};
ghost use Rattle.hypercore_cli.specs.Logs.{fresh_lines, AddsLine, ReadsTo};

use crate::outcome::Outcome;
use flat_tree::{MAX_BATCH_BLOCKS, MAX_BATCH_BYTES, MAX_BLOCK_BYTES};
use merkle_nodes::{Limit, What};
use outside_traits::{Blobs, LineFault, Lines, Source};
use std::alloc::Global;

/// Reads the input to its end as the lines of a log within the limits of one append, each of at most `max` bytes. No
/// more is read after a refusal.
pub fn read_log<I: Source>(alloc: Global, max: usize, input: &mut I) -> Result<Blobs, Outcome>
    requires { max ≡ MAX_BLOCK_BYTES }
    ensures { ReadsTo (I.source input.old) (I.source input.new) result }
{
    match Lines::new(alloc, max) {
        Ok(mut lines) => read_lines(alloc, &mut lines, input),
        Err(_) => Err(Outcome::NoMemory),
    }
}

/// Adds each line to an empty log.
fn read_lines<I: Source>(alloc: Global, lines: &mut Lines, input: &mut I) -> Result<Blobs, Outcome>
    requires { lines.old ≡ fresh_lines }
    ensures { ReadsTo (I.source input.old) (I.source input.new) result }
{
    let mut log = Blobs::new();
    loop {
        match lines.next(input) {
            Ok(true) => {}
            Ok(false) => return Ok(log),
            Err(LineFault::Failed) => return Err(Outcome::ReadFault),
            Err(LineFault::TooLong) => {
                return Err(Outcome::Limit {
                    what: What::Block,
                    max: MAX_BLOCK_BYTES,
                });
            }
        }
        match add_line(alloc, &mut log, lines.line()) {
            Ok(()) => {}
            Err(outcome) => return Err(outcome),
        }
    }
}

/// Adds a line at the end of the log, unless it passes a limit of one append.
fn add_line(alloc: Global, log: &mut Blobs, line: &[u8]) -> Result<(), Outcome>
    requires block { length line.now ≤ MAX_BLOCK_BYTES }
    requires fits { limit_in 0 0 log.old ≡ None }
    ensures { AddsLine log.old line.now log.new result }
{
    if let Some(Limit { what, max }) = passed(log.len(), log.flat().len(), line.len()) {
        return Err(Outcome::Limit { what, max });
    }
    match log.push(alloc, line) {
        Ok(()) => Ok(()),
        Err(_) => Err(Outcome::NoMemory),
    }
}

/// The limit that a line of `size` bytes passes first, behind so many lines of so many bytes.
fn passed(lines: usize, bytes: usize, size: usize) -> Option<Limit>
    requires block { size ≤ MAX_BLOCK_BYTES }
    requires batch { bytes ≤ MAX_BATCH_BYTES }
    ensures { result ≡ limit_at lines bytes size }
{
    if lines >= MAX_BATCH_BLOCKS {
        return Some(Limit {
            what: What::Batch,
            max: MAX_BATCH_BLOCKS as u64,
        });
    }
    if (bytes + size) as u64 > MAX_BATCH_BYTES {
        return Some(Limit {
            what: What::BatchBytes,
            max: MAX_BATCH_BYTES,
        });
    }
    None
}
