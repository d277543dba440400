//! What a change writes to a core's disk: the bytes of its blocks, and once they are synced its entry, so that a crash at each
//! moment leaves what was there before the change or what is there after it.
ghost use Rattle.std.specs.Prelude.{◌≡◌, ◌+◌, ◌<◌, ◌≤◌, ◌↔◌, ◌⊎◌, ℕ, Some as Brought, length, take, IsTrue, IsErrOf, IfErr, OnOk, OnErr};
ghost use Rattle.disk_trait.specs.declared.disk.Area.TheVariants.{Blocks as BlocksArea};
ghost use Rattle.disk_trait.specs.Disk.{Syncs};
ghost use Rattle.merkle_nodes.specs.declared.limit.What.TheVariants.{Oplog as EntriesBytes};
ghost use Rattle.node_set.specs.declared.fault.CoreFault.TheVariants.{StoreFault, Limit};
ghost use Rattle.oplog_form.specs.Entries.{EntryFits, entry_spelling};
ghost use Rattle.oplog_file.specs.Files.{File};
ghost use Rattle.oplog_file.specs.Writers.{IsBehind, Stands, with_entry};
ghost use Rattle.oplog_file.specs.Storing.{Calls};
ghost use Rattle.core_disk.specs.Bringing.{part_of, Brings, FindsNoRoom};
ghost use Rattle.core_disk.specs.Plans.{bytes_in, calls_for, laid, TornBy};
ghost use Rattle.core_disk.specs.Firm.{WritesChange};

use compact_enc::Encoder;
use disk_trait::{Area, Disk};
use merkle_nodes::What;
use node_set::CoreFault;
use oplog_file::{MAX_ENTRIES_BYTES, OplogFile};
use oplog_form::{Entry, MAX_ENTRY_BYTES, MAX_ENTRY_NODES, payloads_find_room, put_entry};

/// Bytes that come into the blocks area, and where.
#[derive(Clone, Copy)]
pub(crate) struct BlocksPart<'p> {
    pub(crate) at: u64,
    pub(crate) bytes: &'p [u8],
}

/// Writes what a change brings: its blocks' bytes, where there are some, and once they are synced its entry behind the others.
/// After a fault of the store a crash may leave the entry or not. `scratch` is written over.
pub(crate) fn write_change<D: Disk>(
    disk: &mut D,
    file: &mut OplogFile,
    part: Option<BlocksPart<'_>>,
    entry: &Entry<'_>,
    scratch: &mut [u8],
) -> Result<(), CoreFault>
    requires fits { EntryFits entry.now }
    requires few { length entry.now.records ≤ MAX_ENTRY_NODES }
    requires scratch { MAX_ENTRY_BYTES ≤ length scratch.old }
    ensures writes { (whole : File) → IsTrue (D.disk disk.old).honest → IsBehind file.old whole
        → WritesChange whole (part_of part.entry) (entry_spelling entry.now)
        (D.disk disk.old) (D.disk disk.new) result }
    ensures behind { (whole : File) → IsBehind file.old whole
        → OnOk result (IsBehind file.new (with_entry (entry_spelling entry.now) whole)) }
    ensures torn { IsTrue (D.disk disk.old).honest → TornBy (part_of part.entry)
        ((D.disk disk.old).reads BlocksArea) ((D.disk disk.new).reads BlocksArea) }
    ensures laid { IsTrue (D.disk disk.old).honest → OnOk result ((D.disk disk.new).reads BlocksArea
        ≡ laid (part_of part.entry) ((D.disk disk.old).reads BlocksArea)) }

    ensures limit { IsErrOf result (Limit EntriesBytes MAX_ENTRIES_BYTES)
        ↔ FindsNoRoom file.old.used (length (entry_spelling entry.now)) }
    ensures few { length (entry_spelling entry.now) ≤ MAX_ENTRY_BYTES }
    ensures no_call { FindsNoRoom file.old.used (length (entry_spelling entry.now))
        → disk.new ≡ disk.old }
    ensures err { OnErr result (Stands file.old file.new) }
    ensures size { length scratch.new ≡ length scratch.old }

    ensures fault { IfErr result (λ fault.
        (fault ≡ StoreFault) ⊎ (fault ≡ Limit EntriesBytes MAX_ENTRIES_BYTES)) }
    ensures calls { Calls (calls_for (bytes_in (part_of part.entry)) + 2)
        (D.disk disk.old) (D.disk disk.new) result }
{
    let len = spell(entry, scratch);
    if !file.fits(len) {
        return Err(CoreFault::Limit {
            what: What::Oplog,
            max: MAX_ENTRIES_BYTES as u64,
        });
    }
    // A block has to be on the disk before an entry tells that it is held.
    match bring(disk, part) {
        Ok(()) => file.append(disk, &scratch[..len]),
        Err(fault) => Err(fault),
    }
}

// Spells an entry at the front of a room, and gives its bytes.
fn spell(entry: &Entry<'_>, into: &mut [u8]) -> usize
    requires fits { EntryFits entry.now }
    requires few { length entry.now.records ≤ MAX_ENTRY_NODES }
    requires room { MAX_ENTRY_BYTES ≤ length into.old }
    ensures place { result ≡ length (entry_spelling entry.now) }
    ensures some { 0 < result }
    ensures few { result ≤ MAX_ENTRY_BYTES }
    ensures spelled { take result into.new ≡ entry_spelling entry.now }
    ensures size { length into.new ≡ length into.old }
{
    payloads_find_room();
    write_entry(entry, into)
}

fn write_entry(entry: &Entry<'_>, into: &mut [u8]) -> usize
    requires fits { EntryFits entry.now }
    requires room { length (entry_spelling entry.now) ≤ length into.old }
    ensures place { result ≡ length (entry_spelling entry.now) }
    ensures spelled { take result into.new ≡ entry_spelling entry.now }
    ensures size { length into.new ≡ length into.old }
{
    let mut to = Encoder::new(into);
    let _ = put_entry(entry, &mut to);
    to.place()
}

// Writes bytes to the blocks area and syncs it, where there are some: without a byte the disk isn't called.
fn bring<D: Disk>(disk: &mut D, part: Option<BlocksPart<'_>>) -> Result<(), CoreFault>
    ensures brings { IsTrue (D.disk disk.old).honest
        → Brings (part_of part.entry) (D.disk disk.old) (D.disk disk.new) result }
    ensures calls { Calls (calls_for (bytes_in (part_of part.entry)))
        (D.disk disk.old) (D.disk disk.new) result }
    ensures store { IfErr result (λ fault. fault ≡ StoreFault) }
{
    let Some(part) = part else {
        return Ok(());
    };
    if part.bytes.is_empty() {
        return Ok(());
    }
    store_part(disk, part.at, part.bytes)
}

fn store_part<D: Disk>(disk: &mut D, at: u64, bytes: &[u8]) -> Result<(), CoreFault>
    ensures brings { IsTrue (D.disk disk.old).honest
        → Brings (Brought (record { at = at; bytes = bytes.now }))
        (D.disk disk.old) (D.disk disk.new) result }
    ensures calls { Calls 2 (D.disk disk.old) (D.disk disk.new) result }
    ensures store { IfErr result (λ fault. fault ≡ StoreFault) }
{
    match disk.write(Area::Blocks, at, bytes) {
        Ok(()) => sync_blocks(disk),
        Err(_) => Err(CoreFault::StoreFault),
    }
}

fn sync_blocks<D: Disk>(disk: &mut D) -> Result<(), CoreFault>
    ensures syncs { IsTrue (D.disk disk.old).honest
        → Syncs BlocksArea (D.disk disk.old) (D.disk disk.new) result }
    ensures calls { Calls 1 (D.disk disk.old) (D.disk disk.new) result }
    ensures store { IfErr result (λ fault. fault ≡ StoreFault) }
{
    match disk.sync(Area::Blocks) {
        Ok(()) => Ok(()),
        Err(_) => Err(CoreFault::StoreFault),
    }
}
