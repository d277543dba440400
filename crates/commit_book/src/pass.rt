//! What one thread has seen of the history.
ghost use Rattle.std.specs.Prelude.{◌≡◌, ◌≤◌, length};

use crate::law::{Named, Place, Sheet};
use crate::steps::note;
use std::marker::Model;
use std::sync::Arc;
use std::sync::ledger::{Ledger, Share};

/// A beginning of the history that one thread has seen, and the entries that it made. To a contract it is the lists.
#[derive(Drop)]
pub struct Pass<N: Named, F: Ledger> {
    pub(crate) sheet: Arc<Sheet>,
    pub(crate) seat: Place,
    pub(crate) commits: Share<N>,
    pub(crate) marks: Share<F>,
    pub(crate) count: u64,
}

impl<N: Named, F: Ledger> Model for Pass<N, F> {
    ghost use Rattle.commit_book.specs.History.{PassState};
    ghost use Rattle.commit_book.specs.Seats.{IsPass};
    ghost use Rattle.std.specs.Arc.{arc_value};

    ghost Value = { PassState };

    ghost view = { λ p. record { seen = p.seat.me.0.seen; made = p.seat.me.0.made; marks = p.marks.amount; news = p.seat.me.0.noted } };

    ghost invariant = { λ p. IsPass N.book (arc_value p.sheet).shared.table_id p.seat p.count p.commits.parts p.commits.amount p.marks.parts };
}

/// The passes of a book.
pub type PassList<N, F> = Vec<Pass<N, F>>;

impl<N: Named, F: Ledger> Pass<N, F> {
    /// A length that the history has now, in entries: one step, with no lock and no memory. It never falls, and it is at
    /// least what the pass has seen.
    pub fn news(&mut self) -> u64
        ensures seen { length self.old.seen ≤ result }
        ensures rises { self.old.news ≤ result }
        ensures same { self.new ≡ record self.old { news = result } }
    {
        note(&self.sheet, &mut self.seat)
    }

    /// How many entries the pass has seen.
    pub fn seen(&self) -> u64
        ensures length { result ≡ length self.now.seen }
        ensures news { result ≤ self.now.news }
    {
        self.count
    }
}
