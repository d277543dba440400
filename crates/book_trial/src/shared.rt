//! The toy that threads share.
ghost use Rattle.std.specs.Prelude.{◌≡◌, [], IfOk};
ghost use Rattle.book_trial.specs.Turns.{Turned, Ended};

use crate::event::{Event, Reply};
use crate::toy::{Toy, ToyOpen};
use commit_book::{Book, Named, Pass, PassList};
use std::sync::ledger::Ledger;
use std::sync::{Mutex, Wait};

/// A toy with its book, behind one lock.
#[derive(Drop)]
pub struct SharedToy<N: Named, F: Ledger> {
    lock: Mutex<Toy<N, F>>,
}

/// Not all passes were handed in, but so many. All is given back.
#[derive(Drop)]
pub struct ToyClose<N: Named, F: Ledger> {
    pub have: u32,
    pub shared: SharedToy<N, F>,
    pub passes: PassList<N, F>,
}

impl<N: Named, F: Ledger> SharedToy<N, F> {
    /// A toy of this length, with a book that has no entry yet.
    pub fn start(length: u64, book: Book<N, F>) -> SharedToy<N, F>
        requires start { length ≡ N.start.length }
        requires empty { book.entries ≡ [] }
    {
        SharedToy {
            lock: Mutex::new(Toy::new(length, book)),
        }
    }

    /// One event, in any thread. The pass has then seen all that came before it, and the event's own entry last.
    pub fn act<R: Wait>(&self, rt: &R, pass: &mut Pass<N, F>, event: Event) -> Reply
        ensures { Turned N.start event pass.old pass.new result }
    {
        self.lock.lock(rt).act(pass, event)
    }

    /// The toy's length and the number of commits, once all passes are handed in.
    pub fn close(self, passes: PassList<N, F>) -> Result<(u64, u64), ToyClose<N, F>>
        ensures { IfOk result (λ r. Ended N.start passes.items r.0 r.1) }
    {
        match self.lock.into_inner().close(passes) {
            Ok(end) => Ok(end),
            Err(ToyOpen { have, toy, passes }) => Err(ToyClose {
                have,
                shared: SharedToy {
                    lock: Mutex::new(toy),
                },
                passes,
            }),
        }
    }
}
