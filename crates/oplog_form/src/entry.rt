//! Entries.
ghost use Rattle.std.specs.Prelude.{◌≡◌, ◌++◌, ℕ, List, IfOk};
ghost use Rattle.compact_enc.specs.Reading.{Gives};
ghost use Rattle.compact_enc.specs.Input.{Yields};
ghost use Rattle.compact_enc.specs.Written.{Puts, SameBuffer, Writes};
ghost use Rattle.oplog_form.specs.declared.entry.Entry.{Entry as EntrySpelled};
ghost use Rattle.oplog_form.specs.Form.{Ahead};
ghost use Rattle.oplog_form.specs.Entries.{EntryFits, entry_spelling, entry_in, entry_of};

use crate::commit::{commit_from, write_commit};
use crate::fields::{head_from, write_head};
use crate::form::BadForm;
use crate::records::{Records, records_from, write_records};
use commit_book::Commit;
use compact_enc::{Decoder, Encoder, Full};
use flat_tree::{MAX_BATCH_BLOCKS, MAX_ROOTS};
use merkle_nodes::Head;

/// The most bytes that a frame has for an entry.
pub const MAX_ENTRY_BYTES: usize = 131_072;
/// So many records find room in a frame's entry, and a commit makes no more: two for each block of a batch, and one for
/// each root of the log before it.
pub const MAX_ENTRY_NODES: usize = 2 * MAX_BATCH_BLOCKS + MAX_ROOTS;

/// A commit, the head after it, and the nodes that it made, in rising order of their numbers.
#[derive(Drop)]
pub struct Entry<'e> {
    pub commit: Commit,
    pub head: Head,
    pub records: Records<'e>,
}

/// Reads an entry, which is all of the bytes. Its records stay in the bytes.
pub fn read_entry(bytes: &[u8]) -> Result<Entry<'_>, BadForm>
    // What is read has a spelling, and is spelled so.
    ensures fits { IfOk result EntryFits }
    ensures found { IfOk result (λ entry. bytes.now ≡ entry_spelling entry) }
    // What is spelled so is read.
    ensures only { (entry : EntrySpelled) → EntryFits entry
        → bytes.now ≡ entry_spelling entry → Yields (λ read. read) result entry }
    // Which place is bad.
    ensures exact { Gives (λ entry. entry) result (entry_of bytes.now) }
{
    entry_whole(bytes)
}

/// Writes an entry. `Full` comes exactly where fewer bytes are free than its spelling has, and then what was written
/// stays; what stands behind it isn't said.
pub fn put_entry(entry: &Entry<'_>, to: &mut Encoder<'_>) -> Result<(), Full>
    requires fits { EntryFits entry.now }
    ensures puts { Puts (entry_spelling entry.now) to.old to.new result }
    ensures same { SameBuffer to.old to.new }
{
    let start = to.place();
    if let Err(full) = write_entry(entry, to) {
        to.back_to(start);
        return Err(full);
    }
    Ok(())
}

#[tactic(auto, unfolding(crate::specs::Entries::entry_spelling))]
fn write_entry(entry: &Entry<'_>, to: &mut Encoder<'_>) -> Result<(), Full>
    ensures { Writes (entry_spelling entry.now) to.old to.new result }
{
    write_commit(&entry.commit, to)?;
    write_head(&entry.head, to)?;
    write_records(&entry.records, to)
}

fn entry_whole(bytes: &[u8]) -> Result<Entry<'_>, BadForm>
    ensures { Gives (λ entry. entry) result (entry_of bytes.now) }
{
    let mut from = Decoder::new(bytes);
    let entry = entry_from(&mut from)?;
    if from.rest() > 0 {
        return Err(BadForm { at: from.place() });
    }
    Ok(entry)
}

#[tactic(auto, unfolding(crate::specs::Entries::entry_in))]
fn entry_from<'e>(from: &mut Decoder<'e>) -> Result<Entry<'e>, BadForm>
    ensures { Ahead from.new result (entry_in from.old) }
{
    let commit = commit_from(from)?;
    let head = head_from(from)?;
    let records = records_from(from)?;
    Ok(Entry {
        commit,
        head,
        records,
    })
}
