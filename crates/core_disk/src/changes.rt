//! The changes of a core over a disk.
ghost use Rattle.std.specs.Prelude.{◌≡◌, ◌≢◌, Some, true};
ghost use Rattle.node_set.specs.declared.fault.CoreFault.TheVariants.{Memory as MemoryFault, StoreFault};
ghost use Rattle.proof_check.specs.Admission.{IsPlain};
ghost use Rattle.core_state.specs.Events.{Append, Truncate, Clear, Admit};
ghost use Rattle.core_state.specs.Events.Reply.{Done};
ghost use Rattle.core_state.specs.Calls.{Acts};
ghost use Rattle.core_state.specs.States.{receipt_of};
ghost use Rattle.core_disk.specs.Committing.{Tells};
ghost use Rattle.core_disk.specs.InHand.{IsKept};
ghost use Rattle.core_disk.specs.Stored.{content_of};
ghost use Rattle.core_disk.specs.Bringing.{part_of};
ghost use Rattle.core_disk.specs.Plans.{block_at};
ghost use Rattle.core_disk.specs.Cored.{state_of, ChangesDisk};

use crate::admitting::plan_admit;
use crate::appending::plan_append;
use crate::committing::commit_change;
use crate::cutting::{plan_clear, plan_truncate};
use crate::disk_core::DiskCore;
use crate::writing::BlocksPart;
use commit_book::Commit;
use disk_trait::Disk;
use node_set::{CoreFault, Receipt};
use oplog_form::{Entry, Records};
use outside_traits::{Blobs, Signer};
use proof_check::Prepared;
use std::alloc::Global;

impl<D: Disk, A: Signer> DiskCore<D, A> {
    /// Appends blocks as one commit; none is no commit. `Limit`, for each block in turn: of its bytes, of the blocks
    /// and the bytes of one append, of the blocks and the bytes of a core; `Limit` of the oplog where the entry finds
    /// no room.
    pub fn append(&mut self, alloc: Global, blocks: &Blobs) -> Result<Receipt, CoreFault>
        ensures acts { Acts true (state_of D.disk A.accepts self.old) (Append blocks.now)
            (state_of D.disk A.accepts self.new) (Done result) }
        ensures disk { ChangesDisk D.disk A.accepts (Append blocks.now) self.old self.new result }
    {
        if let Some(count) = self.failed_at() {
            return Err(CoreFault::Broken { count });
        }
        if blocks.len() == 0 {
            return Ok(self.receipt(None));
        }
        let at = self.store.known().bytes();
        let planned = plan_append(
            &self.store,
            &self.auth,
            blocks,
            &mut self.batch,
            &mut self.records,
        );
        let head = match planned {
            Ok(head) => head,
            Err(fault) => return Err(own_fault(fault)),
        };
        let commit = Commit::Append {
            count: blocks.len() as u64,
        };
        let part = BlocksPart {
            at,
            bytes: blocks.flat(),
        };
        let entry = Entry {
            commit,
            head,
            records: Records::of(self.records.as_slice()),
        };
        let done = commit_change(
            alloc,
            &mut self.store,
            &mut self.file,
            Some(part),
            &entry,
            &mut self.scratch,
        );
        self.told(commit, done)
    }

    /// Cuts the log to a length, under a greater fork. `OutOfRange` above the length, `Limit` of forks, `OldFork` where
    /// the fork isn't greater, `NoNode` where a root of the length isn't stored; `Limit` of the oplog as in `append`.
    pub fn truncate(&mut self, alloc: Global, to: u64, fork: u64) -> Result<Receipt, CoreFault>
        ensures acts { Acts true (state_of D.disk A.accepts self.old) (Truncate to fork)
            (state_of D.disk A.accepts self.new) (Done result) }
        ensures disk { ChangesDisk D.disk A.accepts (Truncate to fork) self.old self.new result }
    {
        if let Some(count) = self.failed_at() {
            return Err(CoreFault::Broken { count });
        }
        let mut nodes = self.store.nodes();
        let head = match plan_truncate(&mut nodes, &self.auth, to, fork, &mut self.records) {
            Ok(head) => head,
            Err(fault) => return Err(own_fault(fault)),
        };
        let commit = Commit::Truncate { to, fork };
        let entry = Entry {
            commit,
            head,
            records: Records::of(self.records.as_slice()),
        };
        let done = commit_change(
            alloc,
            &mut self.store,
            &mut self.file,
            None,
            &entry,
            &mut self.scratch,
        );
        self.told(commit, done)
    }

    /// Gives up the blocks from..to; no commit where none is held. `OutOfRange` unless the range is ordered and within
    /// the length; `Limit` of the oplog as in `append`.
    pub fn clear(&mut self, alloc: Global, from: u64, to: u64) -> Result<Receipt, CoreFault>
        ensures acts { Acts true (state_of D.disk A.accepts self.old) (Clear from to)
            (state_of D.disk A.accepts self.new) (Done result) }
        ensures disk { ChangesDisk D.disk A.accepts (Clear from to) self.old self.new result }
    {
        if let Some(count) = self.failed_at() {
            return Err(CoreFault::Broken { count });
        }
        let mut nodes = self.store.nodes();
        match plan_clear(&mut nodes, from, to) {
            Ok(true) => {}
            Ok(false) => return Ok(self.receipt(None)),
            Err(fault) => return Err(own_fault(fault)),
        }
        let commit = Commit::Clear { from, to };
        let entry = Entry {
            commit,
            head: self.store.known().head(),
            records: Records::of(&[]),
        };
        let done = commit_change(
            alloc,
            &mut self.store,
            &mut self.file,
            None,
            &entry,
            &mut self.scratch,
        );
        self.told(commit, done)
    }

    /// Takes in the block and the upgrade that a proof brings. `Refused` where it isn't admitted
    /// (`proof_check::judge`); no commit where it brings nothing new; `Limit` of the oplog as in `append`.
    pub fn admit(&mut self, alloc: Global, prepared: &Prepared<'_>) -> Result<Receipt, CoreFault>
        requires plain { IsPlain prepared.now }
        ensures acts { Acts true (state_of D.disk A.accepts self.old) (Admit prepared.now)
            (state_of D.disk A.accepts self.new) (Done result) }
        ensures disk { ChangesDisk D.disk A.accepts (Admit prepared.now) self.old self.new result }
    {
        if let Some(count) = self.failed_at() {
            return Err(CoreFault::Broken { count });
        }
        let mut nodes = self.store.nodes();
        let planned = match plan_admit(&mut nodes, &self.auth, prepared) {
            Ok(planned) => planned,
            Err(fault) => return Err(own_fault(fault)),
        };
        let Some(commit) = planned.change.commit else {
            return Ok(self.receipt(None));
        };
        let entry = Entry {
            commit,
            head: planned.change.head,
            records: Records::of(planned.change.fresh.as_slice()),
        };
        let part = brought(prepared, planned.at);
        let done = commit_change(
            alloc,
            &mut self.store,
            &mut self.file,
            part,
            &entry,
            &mut self.scratch,
        );
        self.told(commit, done)
    }

    // What a change tells that committed this, or its fault. A fault of the disk breaks the core.
    fn told(&mut self, commit: Commit, done: Result<(), CoreFault>) -> Result<Receipt, CoreFault>
        ensures tells { Tells (receipt_of (content_of (D.disk self.new.store.disk) self.new.store.hand)) commit
            (D.disk self.new.store.disk).faults self.old.broken done self.new.broken result }
        ensures store { self.new.store ≡ self.old.store }
        ensures place { self.new.place ≡ self.old.place }
        ensures auth { self.new.auth ≡ self.old.auth }
        ensures kept { IsKept self.new.store.hand }
    {
        let _known = self.store.known();
        match done {
            Ok(()) => Ok(self.receipt(Some(commit))),
            Err(fault) => {
                self.keep(fault);
                Err(fault)
            }
        }
    }

    // Keeps that a change failed by a fault of the disk.
    fn keep(&mut self, fault: CoreFault)
        ensures store { self.new.store ≡ self.old.store }
        ensures place { self.new.place ≡ self.old.place }
        ensures auth { self.new.auth ≡ self.old.auth }
        ensures broken { fault ≡ StoreFault → self.new.broken ≡ Some (D.disk self.new.store.disk).faults }
        ensures whole { fault ≢ StoreFault → self.new.broken ≡ self.old.broken }
    {
        if fault == CoreFault::StoreFault {
            self.broken = Some(self.store.disk.faults());
        }
    }
}

// The bytes of a proof's block, where it comes in at this byte.
fn brought<'p>(prepared: &'p Prepared<'_>, at: Option<u64>) -> Option<BlocksPart<'p>>
    ensures { part_of result ≡ block_at at prepared.now.block }
{
    let at = at?;
    let part = prepared.block().as_ref()?;
    Some(BlocksPart {
        at,
        bytes: part.bytes,
    })
}

// A plan's fault as one of the core. The nodes that it was made over are in memory, so none is one of the disk.
fn own_fault(fault: CoreFault) -> CoreFault
    ensures store { fault ≡ StoreFault → result ≡ MemoryFault }
    ensures other { fault ≢ StoreFault → result ≡ fault }
{
    match fault {
        CoreFault::StoreFault => CoreFault::Memory,
        other => other,
    }
}
