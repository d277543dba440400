//! The value under the lock: a toy core with the book of its commits.
ghost use Rattle.std.specs.Prelude.{◌≡◌, ◌<◌, [], length, IfOk, IfErr, IsErr};
ghost use mathlib.Core.Logic.{◌↔◌};
ghost use Rattle.book_trial.specs.Turns.{Turned, Ended};

use crate::event::{Event, Reply};
use commit_book::{Book, BookClose, Commit, Named, Pass, PassList};
use std::marker::Model;
use std::sync::ledger::Ledger;

/// The greatest length of a toy, in blocks.
pub const MAX_LENGTH: u64 = 1 << 20;

/// A core that is its length, with the book of its commits. To a contract it is the book.
#[derive(Drop)]
pub struct Toy<N: Named, F: Ledger> {
    length: u64,
    book: Book<N, F>,
}

impl<N: Named, F: Ledger> Model for Toy<N, F> {
    ghost use Rattle.std.specs.Prelude.{◌≡◌, ◌≤◌};
    ghost use Rattle.commit_book.specs.History.{BookState};
    ghost use Rattle.commit_book.specs.History.{replay, IsLegal};
    ghost use Rattle.book_trial.specs.Turns.{toy_limits};

    ghost Value = { BookState };

    ghost view = { λ t. t.book };

    ghost invariant = { λ t. (t.length ≡ (replay N.start t.book.entries).length) × IsLegal toy_limits N.start t.book.entries };
}

/// A toy that wasn't closed, with the passes that were handed in, so many.
#[derive(Drop)]
pub struct ToyOpen<N: Named, F: Ledger> {
    pub have: u32,
    pub toy: Toy<N, F>,
    pub passes: PassList<N, F>,
}

impl<N: Named, F: Ledger> Toy<N, F> {
    /// An empty toy.
    pub fn new(length: u64, book: Book<N, F>) -> Toy<N, F>
        requires start { length ≡ N.start.length }
        requires empty { book.entries ≡ [] }
        ensures { result ≡ book }
    {
        Toy { length, book }
    }

    /// One event. The pass has then seen all, the event's own entry last.
    pub fn act(&mut self, pass: &mut Pass<N, F>, event: Event) -> Reply
        ensures { Turned N.start event pass.old pass.new result }
    {
        match event {
            Event::Append { count, root } => self.append(pass, count, &root),
            Event::Look => self.look(pass),
        }
    }

    fn append(&mut self, pass: &mut Pass<N, F>, count: u64, root: &[u8; 32]) -> Reply
        ensures { Turned N.start (Event.Append count root.now) pass.old pass.new result }
    {
        if count == 0 || self.length > MAX_LENGTH || count > MAX_LENGTH - self.length {
            self.book.meet(pass);
            return Reply::Refused;
        }
        if self.book.full() {
            self.book.meet(pass);
            return Reply::BookFull;
        }
        self.book.commit(Commit::Append { count }, root, pass);
        self.length += count;
        Reply::Length {
            length: self.length,
        }
    }

    fn look(&mut self, pass: &mut Pass<N, F>) -> Reply
        ensures { Turned N.start Event.Look pass.old pass.new result }
    {
        self.book.meet(pass);
        Reply::Length {
            length: self.length,
        }
    }

    /// The length and the number of commits, once all passes are handed in.
    pub fn close(self, passes: PassList<N, F>) -> Result<(u64, u64), ToyOpen<N, F>>
        ensures ok { IfOk result (λ r. Ended N.start passes.items r.0 r.1) }
        ensures not_all { IfErr result (λ e. (e.have ≡ length passes.items) × (e.toy ≡ self)
            × (e.passes ≡ passes)) }
        ensures refused { IsErr result ↔ (length passes.items < self.passes) }
    {
        let Toy { length, book } = self;
        match book.close(passes) {
            Ok(commits) => Ok((length, commits)),
            Err(BookClose::NotAll { have, book, passes }) => Err(ToyOpen {
                have,
                toy: Toy { length, book },
                passes,
            }),
        }
    }
}
