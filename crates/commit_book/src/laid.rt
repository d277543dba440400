//! A book is made in two steps: its table first, then, in a function that is generic in the name of that table, the book
//! and its passes.
ghost use Rattle.std.specs.Prelude.{◌≡◌, ◌+◌, ◌≤◌, true, [], IfOk, OnOk, replicate};
ghost use Rattle.std.specs.Arc.{arc_value};
ghost use Rattle.commit_book.specs.Seats.{IsSeated};
ghost use Rattle.commit_book.specs.History.{new_book, new_pass};

use crate::book::{Book, Spare};
use crate::law::{Named, Place, Sheet};
use crate::pass::{Pass, PassList};
use crate::steps::open_seat;
use atomic_table::Table;
use outside_traits::Memory;
use std::alloc::{AllocError, Global};
use std::marker::Model;
use std::sync::Arc;
use std::sync::ledger::{Blank, Ledger, Share};

/// The most passes that a book has.
pub const MAX_PASSES: u32 = 32;

/// The table of a book that is to be started.
#[derive(Drop)]
pub struct Laid {
    sheet: Arc<Sheet>,
    seat: Place,
    commits: Blank,
    marks: Blank,
    passes: u32,
}

impl Model for Laid {
    ghost use Rattle.commit_book.specs.History.{LaidState};
    ghost use Rattle.commit_book.specs.Seats.{IsLaid};
    ghost use Rattle.std.specs.Arc.{arc_value};

    ghost Value = { LaidState };

    ghost view = { λ l. record { book = (arc_value l.sheet).shared.table_id; commits = l.commits.name; marks = l.marks.name; passes = l.passes } };

    ghost invariant = { λ l. IsLaid (arc_value l.sheet).shared.table_id l.seat l.commits.parts l.marks.parts l.passes };
}

/// The table of a book with so many passes, 1 to `MAX_PASSES`.
pub fn lay(alloc: Global, passes: u32) -> Result<Laid, Memory>
    requires some { 1 ≤ passes }
    requires few { passes ≤ MAX_PASSES }
    ensures { IfOk result (λ l. l.passes ≡ passes) }
{
    match lay_table(alloc, passes) {
        Ok(laid) => Ok(laid),
        Err(_) => Err(Memory),
    }
}

fn lay_table(alloc: Global, passes: u32) -> Result<Laid, AllocError>
    ensures { IfOk result (λ l. l.passes ≡ passes) }
{
    let (sheet, seat) = Table::of_words(alloc, &[0], &())?;
    Ok(Laid {
        sheet: Arc::new(alloc, sheet)?,
        seat,
        commits: Blank::new(u64::from(passes)),
        marks: Blank::new(u64::from(passes)),
        passes,
    })
}

/// The book whose table was laid, with an empty history, and its passes, which have seen nothing.
pub fn start<N: Named, F: Ledger>(
    alloc: Global,
    laid: Laid,
) -> Result<(Book<N, F>, PassList<N, F>), Memory>
    requires book { laid.book ≡ N.book }
    requires commits { (laid.commits ≡ N.name) × (laid.passes ≡ N.parts) }
    requires marks { (laid.marks ≡ F.name) × (laid.passes ≡ F.parts) }
    ensures book { IfOk result (λ r. r.0 ≡ new_book laid.passes) }
    ensures passes { IfOk result (λ r. r.1.items ≡ replicate laid.passes new_pass) }
{
    let Laid {
        sheet,
        mut seat,
        commits,
        marks,
        passes,
    } = laid;
    let (commits, mut commit_parts) = commits.open::<N>();
    let (marks, mut mark_parts) = marks.open::<F>();
    let Ok(list) = deal_all(
        alloc,
        &sheet,
        &mut seat,
        &mut commit_parts,
        &mut mark_parts,
        passes,
    ) else {
        return Err(Memory);
    };
    let book = Book {
        sheet,
        seat,
        commits,
        marks,
        spare: Spare {
            commits: commit_parts,
            marks: mark_parts,
        },
        count: 0,
        passes,
    };
    Ok((book, list))
}

fn deal_all<N: Named, F: Ledger>(
    alloc: Global,
    sheet: &Arc<Sheet>,
    seat: &mut Place,
    commits: &mut Share<N>,
    marks: &mut Share<F>,
    passes: u32,
) -> Result<PassList<N, F>, AllocError>
    requires book { (arc_value sheet.now).shared.table_id ≡ N.book }
    requires seat { IsSeated N.book true seat.old }
    requires commits { (commits.old.parts ≡ passes) × (commits.old.amount ≡ 0) }
    requires marks { (marks.old.parts ≡ passes) × (marks.old.amount ≡ 0) }
    ensures list { IfOk result (λ v. v.items ≡ replicate passes new_pass) }
    ensures seat { IsSeated N.book true seat.new × (seat.new.me.0 ≡ seat.old.me.0) }
    ensures commits { OnOk result ((commits.new.parts ≡ 0) × (commits.new.amount ≡ 0)) }
    ensures marks { OnOk result ((marks.new.parts ≡ 0) × (marks.new.amount ≡ 0)) }
{
    let mut list = Vec::with_capacity(alloc, passes as usize)?;
    for _i in 0..passes {
        list.push(deal(sheet, seat, commits, marks)?)?;
    }
    Ok(list)
}

fn deal<N: Named, F: Ledger>(
    sheet: &Arc<Sheet>,
    seat: &mut Place,
    commits: &mut Share<N>,
    marks: &mut Share<F>,
) -> Result<Pass<N, F>, AllocError>
    requires book { (arc_value sheet.now).shared.table_id ≡ N.book }
    requires seat { IsSeated N.book true seat.old }
    requires commits { (1 ≤ commits.old.parts) × (commits.old.amount ≡ 0) }
    requires marks { (1 ≤ marks.old.parts) × (marks.old.amount ≡ 0) }
    ensures pass { IfOk result (λ p. p ≡ new_pass) }
    ensures seat { IsSeated N.book true seat.new × (seat.new.me.0 ≡ seat.old.me.0) }
    ensures commits { OnOk result ((commits.new.parts + 1 ≡ commits.old.parts)
        × (commits.new.amount ≡ 0)) }
    ensures marks { OnOk result ((marks.new.parts + 1 ≡ marks.old.parts) × (marks.new.amount ≡ 0)) }
{
    let shared = Arc::try_clone(sheet)?;
    let pass_seat = open_seat(&**sheet, seat);
    Ok(Pass {
        sheet: shared,
        seat: pass_seat,
        commits: commits.split_off(1, 0),
        marks: marks.split_off(1, 0),
        count: 0,
    })
}
