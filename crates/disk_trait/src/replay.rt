//! What a crash leaves of the steps of a disk in memory.
ghost use Rattle.std.specs.Prelude.{◌≡◌, ◌≤◌, ◌<◌, ◌+◌, ◌-◌, ◌^◌, if◌then◌else◌, ℕ, List, IfOk, OnOk, IsTrue, nat_lt, map, take, drop, length};
ghost use Rattle.disk_trait.specs.Disk.{overlay};
ghost use Rattle.disk_trait.specs.Contents.{content_of, with_content};
ghost use Rattle.disk_trait.specs.History.{until, cut_to};
ghost use Rattle.disk_trait.specs.Crash.{kept, partly, replayed, left_after};
ghost use Rattle.disk_trait.specs.declared.disk.Area.{Area as AnArea};
ghost use Rattle.disk_trait.specs.Journal.{step_in, steps_in, HasBytes, RowsHaveBytes, has_sync, is_sync_of, last_of};

use crate::disk::Area;
use crate::files::Files;
use crate::journal::{Kind, Row};
use std::alloc::AllocError;

/// How many rows are of calls before this one.
pub fn rows_before(rows: &[Row], call: u64) -> usize
    ensures within { result ≤ length rows.now }
    ensures rows { (payload : List ℕ)
        → until call (steps_in payload rows.now) ≡ steps_in payload (take result rows.now) }
{
    let mut count = rows.len();
    while count > 0 && rows[count - 1].call >= call {
        count -= 1;
    }
    count
}

/// Does to the areas what is left of these rows.
pub fn replay_rows(
    rows: &[Row],
    payload: &[u8],
    files: &mut Files,
    keep: u64,
) -> Result<(), AllocError>
    requires { RowsHaveBytes payload.now rows.now }
    ensures { OnOk result (files.new ≡ record files.old { all = kept keep (map (step_in payload.now) rows.now) files.old.all }) }
{
    let syncs = last_syncs(rows);
    let mut left = keep;
    for i in 0..rows.len() {
        let row = rows[i];
        left = replay_row(row, payload, files, i < syncs.of(row.area), left)?;
    }
    Ok(())
}

// For each area the place of its last sync, or 0 where there is none: a row before that place is synced.
#[derive(Drop)]
struct Syncs {
    oplog: usize,
    tree: usize,
    bits_a: usize,
    bits_b: usize,
    blocks: usize,
}

impl Syncs {
    fn of(&self, area: Area) -> usize
        ensures { result ≡ last_of self.now area }
    {
        match area {
            Area::Oplog => self.oplog,
            Area::Tree => self.tree,
            Area::BitsA => self.bits_a,
            Area::BitsB => self.bits_b,
            Area::Blocks => self.blocks,
        }
    }
}

fn last_syncs(rows: &[Row]) -> Syncs
    ensures { (area : AnArea) (i : ℕ)
        → has_sync area (drop (i + 1) rows.now) ≡ nat_lt i (last_of result area) }
{
    Syncs {
        oplog: last_sync(rows, Area::Oplog),
        tree: last_sync(rows, Area::Tree),
        bits_a: last_sync(rows, Area::BitsA),
        bits_b: last_sync(rows, Area::BitsB),
        blocks: last_sync(rows, Area::Blocks),
    }
}

fn last_sync(rows: &[Row], area: Area) -> usize
    ensures { (i : ℕ) → has_sync area (drop (i + 1) rows.now) ≡ nat_lt i result }
{
    let mut at = rows.len();
    while at > 0 {
        at -= 1;
        if is_sync_row(rows[at], area) {
            return at;
        }
    }
    0
}

fn is_sync_row(row: Row, area: Area) -> bool
    ensures { result ≡ is_sync_of area row }
{
    row.area == area && matches!(row.kind, Kind::Sync)
}

// Does what is left of one row, and gives how many bytes are still to be kept.
fn replay_row(
    row: Row,
    payload: &[u8],
    files: &mut Files,
    is_whole: bool,
    keep: u64,
) -> Result<u64, AllocError>
    requires { HasBytes payload.now row.kind }
    ensures left { IfOk result (λ left. left ≡ left_after is_whole keep (step_in payload.now row)) }
    ensures files { OnOk result (files.new ≡ record files.old { all = replayed is_whole keep (step_in payload.now row) files.old.all }) }
{
    match row.kind {
        Kind::Write { at, from, len } => {
            replay_write(
                row.area,
                at,
                &payload[from..from + len],
                files,
                is_whole,
                keep,
            )
        }
        Kind::Cut { to } => Ok(replay_cut(row.area, to, files, is_whole, keep)),
        Kind::Sync => Ok(keep),
    }
}

fn replay_write(
    area: Area,
    at: usize,
    bytes: &[u8],
    files: &mut Files,
    is_whole: bool,
    keep: u64,
) -> Result<u64, AllocError>
    requires { at + length bytes.now < 2 ^ 64 }
    ensures left { IfOk result (λ left.
        left ≡ (if is_whole then keep else keep - length bytes.now)) }
    ensures files { OnOk result (files.new ≡ record files.old {
      all = with_content area
          (overlay at (if is_whole then bytes.now else take keep bytes.now) (content_of files.old.all area)) files.old.all;
    }) }
{
    if is_whole {
        files.overlay(area, at, bytes)?;
        return Ok(keep);
    }
    let len = (bytes.len() as u64).min(keep);
    files.overlay(area, at, &bytes[..len as usize])?;
    Ok(keep - len)
}

fn replay_cut(area: Area, to: usize, files: &mut Files, is_whole: bool, keep: u64) -> u64
    ensures left { result ≡ (if is_whole then keep else keep - 1) }
    ensures files { files.new ≡ record files.old {
      all = with_content area
          (if is_whole then take to (content_of files.old.all area) else partly keep (cut_to to) (content_of files.old.all area))
          files.old.all;
    } }
{
    if is_whole {
        files.cut(area, to);
        return keep;
    }
    if keep == 0 {
        return 0;
    }
    files.cut(area, to);
    keep - 1
}
