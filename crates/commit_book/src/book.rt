//! The history of one core, under the lock of the core.
ghost use Rattle.std.specs.Prelude.{◌≡◌, ◌≤◌, ◌+◌, ◌<◌, ◌-◌, ◌^◌, ◌++◌, [], ◌∷◌, length, IsTrue, IsFalse};
ghost use mathlib.Core.Logic.{◌↔◌};
ghost use Rattle.commit_book.specs.History.{IsPrefix, entry_of, with_entry};

use crate::commit::{Commit, Entry};
use crate::law::{Named, Place, Sheet};
use crate::pass::Pass;
use crate::steps::{show, write};
use std::marker::Model;
use std::sync::ledger::{Ledger, Share};
use std::sync::{Arc, ledger};

/// A share of each ledger without a part.
#[derive(Drop)]
pub(crate) struct Spare<N: Named, F: Ledger> {
    pub commits: Share<N>,
    pub marks: Share<F>,
    ghost no_commits: { (commits.parts ≡ 0) × (commits.amount ≡ 0) },
    ghost no_marks: { (marks.parts ≡ 0) × (marks.amount ≡ 0) },
}

/// All commits of one core, each with the root hash after it, and how many marks were made. To a contract it is the
/// list; at run time it is its length.
#[derive(Drop)]
pub struct Book<N: Named, F: Ledger> {
    pub(crate) sheet: Arc<Sheet>,
    pub(crate) seat: Place,
    pub(crate) commits: ledger::Book<N>,
    pub(crate) marks: ledger::Book<F>,
    pub(crate) spare: Spare<N, F>,
    pub(crate) count: u64,
    pub(crate) passes: u32,
}

impl<N: Named, F: Ledger> Model for Book<N, F> {
    ghost use Rattle.commit_book.specs.History.{BookState};
    ghost use Rattle.commit_book.specs.Seats.{IsBook};
    ghost use Rattle.std.specs.Arc.{arc_value};

    ghost Value = { BookState };

    ghost view = { λ b. record { entries = b.seat.me.0.seen; marks = b.marks.total; passes = b.passes } };

    ghost invariant = { λ b. IsBook N.book (arc_value b.sheet).shared.table_id b.seat b.count b.commits.total N.parts F.parts b.passes };
}

impl<N: Named, F: Ledger> Book<N, F> {
    /// Whether no further entry has room.
    pub fn full(&self) -> bool
        ensures full { IsTrue result ↔ (length self.now.entries ≡ 2 ^ 64 - 1) }
        ensures room { IsFalse result → length self.now.entries < 2 ^ 64 - 1 }
    {
        self.count == u64::MAX
    }

    /// How many entries the history has.
    pub fn count(&self) -> u64
        ensures { result ≡ length self.now.entries }
    {
        self.count
    }

    /// Adds the commit with the root hash after it. The pass has made it, and has seen all.
    pub fn commit(&mut self, entry: Commit, root: &[u8; 32], pass: &mut Pass<N, F>)
        requires { length self.old.entries < 2 ^ 64 - 1 }
        ensures book { self.new ≡ with_entry (entry_of entry root.now) self.old }
        ensures seen { pass.new.seen ≡ self.new.entries }
        ensures made { pass.new.made ≡ pass.old.made ++ entry_of entry root.now ∷ [] }
        ensures marks { pass.new.marks ≡ pass.old.marks }
        ensures news { pass.new.news ≡ length self.new.entries }
        ensures begins { IsPrefix pass.old.seen self.old.entries }
        ensures noted { pass.old.news ≤ length self.old.entries }
    {
        let entry = Entry {
            commit: entry,
            root: *root,
        };
        write(&self.sheet, &mut self.seat, &mut pass.seat, &entry);
        self.commits.add(&mut pass.commits, 1);
        let count = self.count + 1;
        self.count = count;
        pass.count = count;
    }

    /// The pass sees the whole history.
    pub fn meet(&mut self, pass: &mut Pass<N, F>)
        ensures book { self.new ≡ self.old }
        ensures seen { pass.new.seen ≡ self.new.entries }
        ensures made { pass.new.made ≡ pass.old.made }
        ensures marks { pass.new.marks ≡ pass.old.marks }
        ensures news { pass.new.news ≡ length self.new.entries }
        ensures begins { IsPrefix pass.old.seen self.old.entries }
        ensures noted { pass.old.news ≤ length self.old.entries }
    {
        show(&self.sheet, &mut self.seat, &mut pass.seat);
        pass.count = self.count;
    }

    /// Marks the pass.
    pub fn mark(&mut self, pass: &mut Pass<N, F>)
        ensures book { self.new ≡ record self.old { marks = self.old.marks + 1 } }
        ensures pass { pass.new ≡ record pass.old { marks = pass.old.marks + 1 } }
    {
        self.marks.add(&mut pass.marks, 1);
    }
}
