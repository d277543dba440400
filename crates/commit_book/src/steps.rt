//! The steps of a call, over a book's table and two seats. All that a pass knows goes to the book's seat as its guest,
//! the word is stepped or loaded there, and the guest leaves, knowing the whole history.
ghost use Rattle.std.specs.Prelude.{◌≡◌, ◌≤◌, ◌+◌, ◌<◌, ◌^◌, ◌++◌, [], ◌∷◌, length, true, false};
ghost use Rattle.commit_book.specs.Rule.{hosting, told, writing, nobody, Agrees};
ghost use Rattle.commit_book.specs.Prefix.{IsPrefix};
ghost use Rattle.commit_book.specs.Seats.{IsSeated};

use crate::commit::Entry;
use crate::law::{Adds, Compares, Hosts, Leaves, Notes, Opens, Place, Said, Sheet, Tells};
use std::marker::Brand;

/// A seat that knows nothing.
pub(crate) fn open_seat(sheet: &Sheet, book: &mut Place) -> Place
    requires { IsSeated sheet.now.shared.table_id true book.old }
    ensures book { IsSeated sheet.now.shared.table_id true book.new }
    ensures same { book.new.me.0 ≡ book.old.me.0 }
    ensures pass { IsSeated sheet.now.shared.table_id false result }
    ensures nobody { result.me.0 ≡ nobody }
{
    sheet.shared.split_seat::<Opens>(book)
}

fn host(sheet: &Sheet, book: &mut Place, pass: Place)
    requires book { IsSeated sheet.now.shared.table_id true book.old }
    requires pass { IsSeated sheet.now.shared.table_id false pass }
    ensures book { IsSeated sheet.now.shared.table_id true book.new }
    ensures guest { book.new.me.0 ≡ hosting book.old.me.0 pass.me.0 }
{
    sheet.shared.join_seat::<Hosts>(book, pass);
}

fn leave(sheet: &Sheet, pass: &mut Place) -> Place
    requires { IsSeated sheet.now.shared.table_id false pass.old }
    ensures pass { IsSeated sheet.now.shared.table_id false result }
    ensures same { result.me.0 ≡ pass.old.me.0 }
{
    sheet.shared.split_seat::<Leaves>(pass)
}

fn tell(sheet: &Sheet, book: &mut Place) -> Place
    requires { IsSeated sheet.now.shared.table_id true book.old }
    ensures book { IsSeated sheet.now.shared.table_id true book.new }
    ensures same { book.new.me.0 ≡ book.old.me.0 }
    ensures pass { IsSeated sheet.now.shared.table_id false result }
    ensures told { result.me.0 ≡ told book.old.me.0 }
{
    sheet.shared.split_seat::<Tells>(book)
}

fn add<E: Said>(sheet: &Sheet, book: &mut Place, entry: &Entry)
    requires said { entry.now ≡ E.entry }
    requires book { IsSeated sheet.now.shared.table_id true book.old }
    requires room { length book.old.me.0.seen + 1 < 2 ^ 64 }
    ensures book { IsSeated sheet.now.shared.table_id true book.new }
    ensures added { book.new.me.0 ≡ writing entry.now book.old.me.0 }
    ensures agrees { Agrees book.old.me.0 }
{
    sheet.shared.fetch_add::<Adds<E>>(book, 0, 1);
}

fn compare(sheet: &Sheet, book: &mut Place)
    requires { IsSeated sheet.now.shared.table_id true book.old }
    ensures book { IsSeated sheet.now.shared.table_id true book.new }
    ensures same { book.new.me.0 ≡ book.old.me.0 }
    ensures agrees { Agrees book.old.me.0 }
{
    sheet.shared.load::<Compares>(book, 0);
}

/// The count, which the pass has noted.
pub(crate) fn note(sheet: &Sheet, pass: &mut Place) -> u64
    requires { IsSeated sheet.now.shared.table_id false pass.old }
    ensures pass { IsSeated sheet.now.shared.table_id false pass.new }
    ensures noted { pass.new.me.0 ≡ record pass.old.me.0 { noted = result } }
    ensures seen { length pass.old.me.0.seen ≤ result }
    ensures rises { pass.old.me.0.noted ≤ result }
{
    sheet.shared.load::<Notes>(pass, 0)
}

/// The entry is added to the history, and the pass has seen it and made it.
pub(crate) fn write(sheet: &Sheet, book: &mut Place, pass: &mut Place, entry: &Entry)
    requires book { IsSeated sheet.now.shared.table_id true book.old }
    requires pass { IsSeated sheet.now.shared.table_id false pass.old }
    requires room { length book.old.me.0.seen + 1 < 2 ^ 64 }
    ensures book { IsSeated sheet.now.shared.table_id true book.new }
    ensures entries { book.new.me.0.seen ≡ book.old.me.0.seen ++ entry.now ∷ [] }
    ensures pass { IsSeated sheet.now.shared.table_id false pass.new }
    ensures seen { pass.new.me.0.seen ≡ book.new.me.0.seen }
    ensures made { pass.new.me.0.made ≡ pass.old.me.0.made ++ entry.now ∷ [] }
    ensures told { pass.new.me.0.noted ≡ length book.new.me.0.seen }
    ensures begins { IsPrefix pass.old.me.0.seen book.old.me.0.seen }
    ensures noted { pass.old.me.0.noted ≤ length book.old.me.0.seen }
{
    let guest = leave(sheet, pass);
    host(sheet, book, guest);
    add::<Brand>(sheet, book, entry);
    *pass = tell(sheet, book);
}

/// The pass sees the whole history.
pub(crate) fn show(sheet: &Sheet, book: &mut Place, pass: &mut Place)
    requires book { IsSeated sheet.now.shared.table_id true book.old }
    requires pass { IsSeated sheet.now.shared.table_id false pass.old }
    ensures book { IsSeated sheet.now.shared.table_id true book.new }
    ensures entries { book.new.me.0.seen ≡ book.old.me.0.seen }
    ensures pass { IsSeated sheet.now.shared.table_id false pass.new }
    ensures seen { pass.new.me.0.seen ≡ book.new.me.0.seen }
    ensures made { pass.new.me.0.made ≡ pass.old.me.0.made }
    ensures told { pass.new.me.0.noted ≡ length book.new.me.0.seen }
    ensures begins { IsPrefix pass.old.me.0.seen book.old.me.0.seen }
    ensures noted { pass.old.me.0.noted ≤ length book.old.me.0.seen }
{
    let guest = leave(sheet, pass);
    host(sheet, book, guest);
    compare(sheet, book);
    *pass = tell(sheet, book);
}

/// The pass ends, and what it saw is compared with the history.
pub(crate) fn take_in(sheet: &Sheet, book: &mut Place, pass: Place)
    requires book { IsSeated sheet.now.shared.table_id true book.old }
    requires pass { IsSeated sheet.now.shared.table_id false pass }
    ensures book { IsSeated sheet.now.shared.table_id true book.new }
    ensures entries { book.new.me.0.seen ≡ book.old.me.0.seen }
    ensures begins { IsPrefix pass.me.0.seen book.old.me.0.seen }
    ensures noted { pass.me.0.noted ≤ length book.old.me.0.seen }
{
    host(sheet, book, pass);
    compare(sheet, book);
}
