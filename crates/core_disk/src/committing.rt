//! A change is written, and taken in once it is on the disk.
ghost use Rattle.std.specs.Prelude.{◌≡◌, ◌+◌, ◌≤◌, ◌↔◌, ◌⊎◌, ℕ, length, IsTrue, IfErr, OnOk, OnErr, Some as Found};
ghost use Rattle.oplog_form.specs.Entries.{EntryFits, entry_spelling};
ghost use Rattle.oplog_file.specs.Files.{File};
ghost use Rattle.oplog_file.specs.Writers.{IsBehind, Stands, with_entry};
ghost use Rattle.oplog_file.specs.Storing.{Calls};
ghost use Rattle.node_set.specs.declared.fault.CoreFault.TheVariants.{StoreFault, BadStore};
ghost use Rattle.disk_trait.specs.declared.disk.Area.TheVariants.{Oplog, Blocks as BlocksArea};
ghost use Rattle.core_disk.specs.Opened.{Opened, short_of, entry_after};
ghost use Rattle.core_disk.specs.InHand.{opened_of, Agrees, NextRoots, HavePlaces};
ghost use Rattle.core_disk.specs.Bringing.{part_of};
ghost use Rattle.core_disk.specs.Plans.{bytes_in, calls_for, laid, TornBy};
ghost use Rattle.core_disk.specs.Firm.{WritesChange};
ghost use Rattle.core_disk.specs.Committing.{IsReady, TakesIn, IsCommitFault};
ghost use Rattle.commit_book.specs.History.{entry_of, KeepsRoot};
ghost use Rattle.merkle_nodes.specs.Roots.{root_hash_of};

use crate::replay::ApplyFault;
use crate::store::Store;
use crate::writing::{BlocksPart, write_change};
use commit_book::Commit;
use disk_trait::{Area, Disk};
use merkle_nodes::{Roots, root_hash};
use node_set::CoreFault;
use oplog_file::{ENTRIES_AT, OplogFile};
use oplog_form::{Entry, MAX_ENTRY_BYTES, MAX_ENTRY_NODES};
use std::alloc::Global;

/// Writes what a change brings, and takes it in once that is synced. All memory is taken before the disk is called. An entry
/// that doesn't follow from what is in memory, or that changes roots where its commit keeps them, is `BadStore`.
pub(crate) fn commit_change<D: Disk>(
    alloc: Global,
    store: &mut Store<D>,
    file: &mut OplogFile,
    part: Option<BlocksPart<'_>>,
    entry: &Entry<'_>,
    scratch: &mut [u8],
) -> Result<(), CoreFault>
    requires fits { EntryFits entry.now }
    requires few { length entry.now.records ≤ MAX_ENTRY_NODES }
    requires scratch { MAX_ENTRY_BYTES ≤ length scratch.old }
    ensures takes { TakesIn entry.now (opened_of store.old.hand) (opened_of store.new.hand) result }
    ensures writes { (whole : File) → IsTrue (D.disk store.old.disk).honest → IsBehind file.old whole
        → WritesChange whole (part_of part.entry) (entry_spelling entry.now)
        (D.disk store.old.disk) (D.disk store.new.disk) result }
    ensures behind { (whole : File) → IsBehind file.old whole
        → OnOk result (IsBehind file.new (with_entry (entry_spelling entry.now) whole)) }
    ensures torn { IsTrue (D.disk store.old.disk).honest → TornBy (part_of part.entry)
        ((D.disk store.old.disk).reads BlocksArea) ((D.disk store.new.disk).reads BlocksArea) }
    ensures laid { IsTrue (D.disk store.old.disk).honest → OnOk result ((D.disk store.new.disk).reads BlocksArea
        ≡ laid (part_of part.entry) ((D.disk store.old.disk).reads BlocksArea)) }
    ensures err { OnErr result (Stands file.old file.new) }
    ensures why { IfErr result (IsCommitFault file.old.used entry.now (opened_of store.old.hand)
        (D.disk store.old.disk) (D.disk store.new.disk)) }
    ensures quiet { IfErr result (λ fault. (fault ≡ StoreFault) ⊎ (store.new.disk ≡ store.old.disk)) }
    ensures calls { Calls (calls_for (bytes_in (part_of part.entry)) + 2)
        (D.disk store.old.disk) (D.disk store.new.disk) result }
    ensures size { length scratch.new ≡ length scratch.old }
{
    let roots = match store.ready(alloc, entry) {
        Ok(roots) => roots,
        Err(fault) => return Err(fault),
    };
    match write_change(&mut store.disk, file, part, entry, scratch) {
        Ok(()) => {}
        Err(fault) => return Err(fault),
    }
    store.take_in(entry, roots);
    Ok(())
}

impl<D: Disk> Store<D> {
    /// The roots after an entry that is fit, once there is a place for each of its nodes. What is in memory stays.
    pub(crate) fn ready(&mut self, alloc: Global, entry: &Entry<'_>) -> Result<Roots, CoreFault>
        requires fits { EntryFits entry.now }
        ensures ready { IsReady entry.now self.old.hand self.new.hand result }
        ensures same { opened_of self.new.hand ≡ opened_of self.old.hand }
        ensures disk { self.new.disk ≡ self.old.disk }
    {
        match self.state.ready(alloc, entry) {
            Ok(roots) => self.checked(entry, roots),
            Err(ApplyFault::Memory) => Err(CoreFault::Memory),
            Err(ApplyFault::DoesntFollow) => Err(unfit()),
        }
    }

    // The roots after an entry that follows, where their hash is the one before if its commit keeps it.
    fn checked(&self, entry: &Entry<'_>, roots: Roots) -> Result<Roots, CoreFault>
        requires next { NextRoots (opened_of self.now.hand) entry.now (Found roots) }
        requires places { HavePlaces self.now.hand.nodes entry.now.records }
        ensures { IsReady entry.now self.now.hand self.now.hand result }
    {
        if keeps_root(entry.commit, &self.known().roots, &roots) {
            return Ok(roots);
        }
        Err(unfit())
    }

    /// Puts an entry in that is fit, with the roots after it.
    pub(crate) fn take_in(&mut self, entry: &Entry<'_>, roots: Roots)
        requires fits { EntryFits entry.now }
        requires next { NextRoots (opened_of self.old.hand) entry.now (Found roots) }
        requires places { HavePlaces self.old.hand.nodes entry.now.records }
        ensures done { Agrees (opened_of self.new.hand) (entry_after (opened_of self.old.hand) entry.now) }
        ensures disk { self.new.disk ≡ self.old.disk }
    {
        self.state.put(entry, roots);
    }
}

// Whether these roots have the hash of those before, where a commit keeps it.
fn keeps_root(commit: Commit, was: &Roots, now: &Roots) -> bool
    ensures { (o : Opened) → o.roots ≡ was.now → IsTrue result
        ↔ KeepsRoot (entry_of commit (root_hash_of now.now)) (short_of o) }
{
    match commit {
        Commit::Clear { .. } => root_hash(was) == root_hash(now),
        Commit::Fetch { .. } => root_hash(was) == root_hash(now),
        _ => true,
    }
}

// An entry that isn't fit.
fn unfit() -> CoreFault
    ensures { result ≡ BadStore Oplog ENTRIES_AT }
{
    CoreFault::BadStore {
        area: Area::Oplog,
        at: ENTRIES_AT as u64,
    }
}
