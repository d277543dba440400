//! The end of a book, where all its passes are handed in.
ghost use Rattle.std.specs.Prelude.{◌≡◌, ◌<◌, ◌≤◌, true, length, All, Any, IfOk, IsErr};
ghost use mathlib.Core.Logic.{◌↔◌};
ghost use Rattle.commit_book.specs.History.{HasSeen, IsMarked, made_of, marks_of};
ghost use Rattle.commit_book.specs.Seats.{IsSeated};

use crate::book::{Book, Spare};
use crate::law::{Named, Place, Sheet};
use crate::pass::{Pass, PassList};
use crate::steps::take_in;
use std::sync::ledger::{Ledger, Share};

/// Why a book wasn't closed.
#[derive(Drop)]
pub enum BookClose<N: Named, F: Ledger> {
    /// There are fewer passes than were made: so many. The book and the passes come back.
    NotAll {
        have: u32,
        book: Book<N, F>,
        passes: PassList<N, F>,
    },
}

impl<N: Named, F: Ledger> Book<N, F> {
    /// The length of the history, once all passes are handed in: what each has seen begins it, and it is as long as all
    /// that they made.
    pub fn close(self, passes: PassList<N, F>) -> Result<u64, BookClose<N, F>>
        ensures length { IfOk result (λ n. n ≡ length self.entries) }
        ensures made { IfOk result (λ n. n ≡ made_of passes.items) }
        ensures seen { IfOk result (λ n. All (HasSeen self.entries) passes.items) }
        ensures marks { IfOk result (λ n. self.marks ≡ marks_of passes.items) }
        ensures marked { IfOk result (λ n. (0 < self.marks) ↔ Any IsMarked passes.items) }
        ensures refused { IsErr result ↔ (length passes.items < self.passes) }
        ensures not_all { IsErr result → result ≡ Err (BookClose.NotAll
            (length passes.items) self passes) }
    {
        if passes.len() < self.passes as usize {
            return Err(BookClose::NotAll {
                have: passes.len() as u32,
                book: self,
                passes,
            });
        }
        Ok(self.end(passes))
    }

    fn end(self, passes: PassList<N, F>) -> u64
        requires { self.passes ≤ length passes.items }
        ensures length { result ≡ length self.entries }
        ensures made { result ≡ made_of passes.items }
        ensures seen { All (HasSeen self.entries) passes.items }
        ensures marks { self.marks ≡ marks_of passes.items }
    {
        let Book {
            sheet,
            mut seat,
            mut commits,
            mut marks,
            spare,
            count,
            passes: _,
        } = self;
        let Spare {
            commits: mut made,
            marks: mut marked,
        } = spare;
        gather(&sheet, &mut seat, &mut made, &mut marked, passes);
        commits.audit(&mut made);
        marks.audit(&mut marked);
        count
    }
}

fn gather<N: Named, F: Ledger>(
    sheet: &Sheet,
    seat: &mut Place,
    made: &mut Share<N>,
    marked: &mut Share<F>,
    passes: PassList<N, F>,
)
    requires book { sheet.now.shared.table_id ≡ N.book }
    requires seat { IsSeated N.book true seat.old }
    requires made { (made.old.parts ≡ 0) × (made.old.amount ≡ 0) }
    requires marked { (marked.old.parts ≡ 0) × (marked.old.amount ≡ 0) }
    ensures seen { All (HasSeen seat.old.me.0.seen) passes.items }
    ensures parts { (made.new.parts ≡ length passes.items) × (made.new.parts ≤ N.parts) }
    ensures made { made.new.amount ≡ made_of passes.items }
    ensures mark_parts { marked.new.parts ≡ length passes.items }
    ensures marks { marked.new.amount ≡ marks_of passes.items }
{
    for pass in passes {
        let Pass {
            sheet: _,
            seat: other,
            commits,
            marks,
            count: _,
        } = pass;
        take_in(sheet, seat, other);
        made.merge(commits);
        marked.merge(marks);
    }
}
