//! The name of a book, and the rule that its count word keeps.
use crate::commit::Entry;
use atomic_table::{Join, Play, Seat, Split, Table, TableRule};
use std::alloc::Global;
use std::collections::LinkedList;
use std::marker::Brand;
use std::sync::ledger::Ledger;

/// Which book it is, and what its core was at the start. All that has to agree on one book is generic in it; a call of
/// a program picks it by `Brand`. It is the ledger of the commits.
pub trait Named: Ledger {
    ghost use Rattle.std.specs.Prelude.{ℕ, Bool};
    ghost use Rattle.commit_book.specs.States.{BookName};
    ghost use Rattle.commit_book.specs.History.{Summary};

    /// The book.
    ghost book: { BookName };

    /// The summary of the core at the start.
    ghost start: { Summary };

    /// The core's count of faults at the start.
    ghost faults: { ℕ };

    /// Whether the core stood on its disk at the start.
    ghost stood: { Bool };
}

impl Named for Brand {
    ghost use Rattle.std.specs.Prelude.{false, []};
    ghost use Rattle.commit_book.specs.States.{no_book};

    ghost book = { no_book };

    ghost start = { record { fork = 0; length = 0; root = []; held = λ index. false } };

    ghost faults = { 0 };

    ghost stood = { false };
}

/// Names an entry that a step adds, so that it reaches the proof without a byte.
pub(crate) trait Said {
    ghost use Rattle.commit_book.specs.declared.commit.Entry.{Entry};

    ghost entry: { Entry };
}

impl Said for Brand {
    ghost use Rattle.std.specs.Prelude.{[]};
    ghost use Rattle.commit_book.specs.declared.commit.Commit.TheVariants.{Fetch};

    ghost entry = { record { commit = Fetch 0; root = [] } };
}

/// What a seat knows. No value of it is made.
pub(crate) struct Known {
    /// It knows the whole history.
    pub keeps: bool,
    pub seen: LinkedList<Entry>,
    /// What the pass had seen that the book now hosts.
    pub guest: LinkedList<Entry>,
    /// The last count that the pass, or the guest, was told.
    pub noted: u64,
    /// The entries that the pass, or the guest, made.
    pub made: LinkedList<Entry>,
}

/// The rule of the count word.
pub(crate) struct Law;

impl TableRule<u64, Known, ()> for Law {
    ghost use Rattle.std.specs.Prelude.{[]};
    ghost use Rattle.commit_book.specs.Rule.{Kept, keeper};

    ghost holds = { λ _. Kept };

    ghost first = { λ _. keeper [] };
}

/// The count word of a book.
pub(crate) type Sheet = Table<u64, Known, (), Law, Global>;

pub(crate) type Place = Seat<u64, Known>;

/// A pass begins.
pub(crate) struct Opens;

impl Split<Known> for Opens {
    ghost use Rattle.commit_book.specs.Rule.{nobody};

    ghost left = { λ v. v };

    ghost right = { λ v. nobody };
}

/// All that a pass knows leaves it.
pub(crate) struct Leaves;

impl Split<Known> for Leaves {
    ghost use Rattle.commit_book.specs.Rule.{nobody};

    ghost left = { λ v. nobody };

    ghost right = { λ v. v };
}

/// The book hosts a pass.
pub(crate) struct Hosts;

impl Join<Known> for Hosts {
    ghost use Rattle.commit_book.specs.Rule.{hosting, nobody};

    ghost both = { hosting };

    ghost spent = { nobody };
}

/// The guest leaves, knowing the whole history.
pub(crate) struct Tells;

impl Split<Known> for Tells {
    ghost use Rattle.commit_book.specs.Rule.{told};

    ghost left = { λ v. v };

    ghost right = { told };
}

/// The guest's entry goes to the end of the history.
pub(crate) struct Adds<E: Said> {
    entry: std::marker::PhantomData<E>,
}

impl<E: Said> Play<u64, Known> for Adds<E> {
    ghost use Rattle.commit_book.specs.Rule.{Added};

    ghost then = { Added E.entry };
}

/// The guest's list is compared with the history.
pub(crate) struct Compares;

impl Play<u64, Known> for Compares {
    ghost use Rattle.commit_book.specs.Rule.{Compared};

    ghost then = { Compared };
}

/// A pass is told the count.
pub(crate) struct Notes;

impl Play<u64, Known> for Notes {
    ghost use Rattle.commit_book.specs.Rule.{Noted};

    ghost then = { Noted };
}
