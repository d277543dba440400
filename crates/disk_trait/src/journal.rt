//! The record of what was done to a disk in memory.
ghost use Rattle.std.specs.Prelude.{◌≡◌, ◌↔◌, ◌≤◌, ◌<◌, ◌+◌, ◌-◌, ◌^◌, ◌++◌, ◌∷◌, [], ℕ, IfOk, OnOk, reverse, IsTrue, length, vec_capacity};
ghost use Rattle.disk_trait.specs.History.{wrote, cut_to, synced, until};
ghost use Rattle.disk_trait.specs.Crash.{kept};
ghost use Rattle.disk_trait.specs.Journal.{JournalView, IsKept, steps_in};

use crate::disk::Area;
use crate::files::Files;
use crate::replay::{replay_rows, rows_before};
use std::alloc::{AllocError, Global};
use std::marker::Model;

/// What a row of the journal takes of its room, in bytes. A write takes its bytes besides.
pub const ROW_BYTES: usize = 32;

/// What a call did. A write has its place, and where its bytes begin in the journal's payload, and how many they are.
#[derive(Clone, Copy, Debug)]
pub enum Kind {
    Write { at: usize, from: usize, len: usize },
    Cut { to: usize },
    Sync,
}

/// A call that changed its area: how many calls were made before it, and what it did.
#[derive(Clone, Copy, Debug)]
pub struct Row {
    pub call: u64,
    pub area: Area,
    pub kind: Kind,
}

/// The steps of a disk in memory, in room that is taken at once.
#[derive(Drop)]
pub struct Journal {
    rows: Vec<Row>,
    payload: Vec<u8>,
    left: usize,
}

impl Model for Journal {
    ghost use Rattle.disk_trait.specs.Journal.{JournalView, IsKept, steps_in};

    ghost Value = { JournalView };

    ghost view = { λ journal. record {
      steps = steps_in journal.payload.items journal.rows.items;
      left = journal.left;
    } };

    ghost invariant = { λ journal. IsKept journal.rows journal.payload journal.left };
}

impl Journal {
    /// An empty journal with room for so many bytes.
    pub fn new(alloc: Global, room: usize) -> Result<Journal, AllocError>
        ensures steps { IfOk result (λ journal. journal.steps ≡ []) }
        ensures left { IfOk result (λ journal. journal.left ≡ room) }
    {
        let rows = Vec::with_capacity(alloc, room / ROW_BYTES + 1)?;
        let payload = Vec::with_capacity(alloc, room)?;
        Ok(Journal {
            rows,
            payload,
            left: room,
        })
    }

    /// Whether a call with so many bytes still fits.
    pub fn has_room(&self, len: usize) -> bool
        ensures { IsTrue result ↔ (ROW_BYTES + len ≤ self.now.left) }
    {
        ROW_BYTES <= self.left && len <= self.left - ROW_BYTES
    }

    pub fn write(&mut self, call: u64, area: Area, at: usize, bytes: &[u8])
        requires room { ROW_BYTES + length bytes.now ≤ self.old.left }
        requires end { at + length bytes.now < 2 ^ 64 }
        ensures steps { self.new.steps
            ≡ record { call = call; area = area; change = wrote at bytes.now } ∷ self.old.steps }
        ensures left { self.new.left ≡ self.old.left - (ROW_BYTES + length bytes.now) }
    {
        let from = self.payload.len();
        let len = bytes.len();
        push_bytes(&mut self.payload, bytes);
        let kind = Kind::Write { at, from, len };
        push_row(&mut self.rows, Row { call, area, kind });
        self.left -= ROW_BYTES + len;
    }

    pub fn cut(&mut self, call: u64, area: Area, to: usize)
        requires { ROW_BYTES ≤ self.old.left }
        ensures steps { self.new.steps
            ≡ record { call = call; area = area; change = cut_to to } ∷ self.old.steps }
        ensures left { self.new.left ≡ self.old.left - ROW_BYTES }
    {
        let kind = Kind::Cut { to };
        push_row(&mut self.rows, Row { call, area, kind });
        self.left -= ROW_BYTES;
    }

    pub fn sync(&mut self, call: u64, area: Area)
        requires { ROW_BYTES ≤ self.old.left }
        ensures steps { self.new.steps
            ≡ record { call = call; area = area; change = synced } ∷ self.old.steps }
        ensures left { self.new.left ≡ self.old.left - ROW_BYTES }
    {
        let kind = Kind::Sync;
        push_row(&mut self.rows, Row { call, area, kind });
        self.left -= ROW_BYTES;
    }

    /// Does to the areas what is left of the steps before `moment` where the first `keep` bytes are kept of those that
    /// weren't synced then.
    pub fn replay(&self, files: &mut Files, moment: u64, keep: u64) -> Result<(), AllocError>
        ensures { OnOk result (files.new
            ≡ record files.old { all = kept keep (reverse (until moment self.now.steps)) files.old.all }) }
    {
        let count = rows_before(&self.rows, moment);
        replay_rows(&self.rows[..count], &self.payload, files, keep)
    }
}

// The room was taken, so the push doesn't fail.
fn push_row(rows: &mut Vec<Row>, row: Row)
    requires { length rows.old.items < vec_capacity rows.old }
    ensures items { rows.new.items ≡ rows.old.items ++ row ∷ [] }
    ensures capacity { vec_capacity rows.old ≤ vec_capacity rows.new }
{
    let _ = rows.push(row);
}

// The room was taken, so the push doesn't fail.
fn push_bytes(payload: &mut Vec<u8>, bytes: &[u8])
    requires { length payload.old.items + length bytes.now ≤ vec_capacity payload.old }
    ensures items { payload.new.items ≡ payload.old.items ++ bytes.now }
    ensures capacity { vec_capacity payload.old ≤ vec_capacity payload.new }
{
    let _ = payload.extend_from_slice(bytes);
}
