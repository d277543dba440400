//! A core over a disk.
ghost use Rattle.std.specs.Prelude.{◌≡◌, ◌≤◌, ℕ, Some, Err, length, IsTrue, IsSome, IfOk, true};
ghost use Rattle.flat_tree.specs.declared.limits.TheConstants.{MAX_BLOCK_BYTES};
ghost use Rattle.proof_form.specs.Requests.{RequestFits};
ghost use Rattle.node_set.specs.declared.fault.CoreFault.TheVariants.{Broken};
ghost use Rattle.node_set.specs.Views.{IsUsable};
ghost use Rattle.node_set.specs.Whole.{IsWhole};
ghost use Rattle.core_state.specs.Events.{Make, Get, Need, Page, proof_in};
ghost use Rattle.core_state.specs.Events.Reply.{Made, Read, Number, Bits};
ghost use Rattle.core_state.specs.Next.{answer_in, page_in};
ghost use Rattle.core_state.specs.Calls.{Acts};
ghost use Rattle.core_state.specs.States.{info_of, receipt_of};
ghost use Rattle.core_disk.specs.InHand.{IsKept, opened_of};
ghost use Rattle.core_disk.specs.Laid.{IsRooted};
ghost use Rattle.core_disk.specs.Stored.{content_of};
ghost use Rattle.core_disk.specs.Cored.{state_of, shown};
ghost use Rattle.core_disk.specs.Reading.{OnlyReads, ReadsBlock};

use crate::store::Store;
use bit_field::PAGE_BYTES;
use commit_book::Commit;
use core_snap::{ReadAt, read_held};
use disk_trait::Disk;
use merkle_batch::Batch;
use merkle_nodes::{Info, Node, root_hash};
use node_set::{CoreFault, Receipt, need};
use oplog_file::OplogFile;
use outside_traits::Signer;
use proof_form::{Proof, Request};
use std::marker::Model;

/// A log on a disk, with the authority that signs its heads. Once a write, a cut or a sync of it failed, each call but
/// `info` and `faults` answers `Broken`.
#[derive(Drop)]
pub struct DiskCore<D: Disk, A: Signer> {
    pub(crate) store: Store<D>,
    pub(crate) file: OplogFile,
    pub(crate) auth: A,
    pub(crate) broken: Option<u64>,
    // Room for a batch, for an entry's records and for its bytes.
    pub(crate) batch: Batch,
    pub(crate) records: Vec<Node>,
    pub(crate) scratch: Vec<u8>,
}

impl<D: Disk, A: Signer> Model for DiskCore<D, A> {
    ghost use Rattle.core_disk.specs.Cored.{Cored};

    ghost Value = { Cored D A };

    ghost view = { λ core. record { store = core.store; place = core.file; auth = core.auth; broken = core.broken } };

    ghost use Rattle.core_disk.specs.Rooms.{HasRooms};

    ghost invariant = { λ core. HasRooms core.batch core.records core.scratch };
}

impl<D: Disk, A: Signer> DiskCore<D, A> {
    /// The disk's count of faults when a change failed, if one did. With it comes what is always kept.
    pub(crate) fn failed_at(&self) -> Option<u64>
        ensures broken { result ≡ self.now.broken }
        ensures kept { IsKept self.now.store.hand }
        ensures rooted { IsRooted (opened_of self.now.store.hand) }
    {
        let _known = self.store.known();
        self.broken
    }

    // The head in short.
    fn in_short(&self) -> Info
        ensures { result ≡ info_of (content_of (D.disk self.now.store.disk) self.now.store.hand) }
    {
        let state = self.store.known();
        Info {
            fork: state.head.fork,
            length: state.head.length,
            bytes: state.bytes(),
            held: state.held.count(),
            root: root_hash(&state.roots),
        }
    }

    // What a change tells that committed this.
    pub(crate) fn receipt(&self, commit: Option<Commit>) -> Receipt
        ensures { result ≡ receipt_of (content_of (D.disk self.now.store.disk) self.now.store.hand) commit }
    {
        let state = self.store.known();
        Receipt {
            fork: state.head.fork,
            length: state.head.length,
            root: root_hash(&state.roots),
            commit,
        }
    }

    /// The head in short. With it comes what every core keeps.
    pub fn info(&self) -> Info
        ensures info { result ≡ info_of (shown D.disk self.now) }
        ensures usable { IsUsable (shown D.disk self.now) }
        ensures whole { IsTrue (state_of D.disk A.accepts self.now).stands
            → IsWhole (A.accepts self.now.auth) (shown D.disk self.now) }
    {
        let _ = self.failed_at();
        self.in_short()
    }

    /// How often the disk failed.
    pub fn faults(&self) -> u64
        ensures { result ≡ (D.disk self.now.store.disk).faults }
    {
        self.store.disk.faults()
    }

    /// The proof of what is asked for, with the block's bytes in `buf`. `NoReply` where there is none
    /// (`proof_make::make`); `StoreFault`, `BadStore` where the disk fails or isn't the core's.
    pub fn make<'b>(&mut self, request: &Request, buf: &'b mut [u8]) -> Result<Proof<'b>, CoreFault>
        requires fits { RequestFits request.now }
        requires room { MAX_BLOCK_BYTES ≤ length buf.old }
        ensures acts { Acts true (state_of D.disk A.accepts self.old) (Make request.now)
            (state_of D.disk A.accepts self.new) (Made (proof_in result)) }
        ensures leaves { OnlyReads D.disk self.old self.new }
        ensures broken { (count : ℕ) → self.old.broken ≡ Some count → result ≡ Err (Broken count) }
        ensures quiet { IsSome self.old.broken → self.new.store.disk ≡ self.old.store.disk }
    {
        if let Some(count) = self.failed_at() {
            return Err(CoreFault::Broken { count });
        }
        proof_make::make(&mut self.store, request, buf)
    }

    /// Reads the block of an index to the front of `buf`, and proves it under the head. `OutOfRange` at the length,
    /// `Unavailable` where the block isn't held; `StoreFault`, `BadStore`, `Damaged` where the disk fails or isn't the core's.
    pub fn get(&mut self, index: u64, buf: &mut [u8]) -> Result<ReadAt, CoreFault>
        requires room { MAX_BLOCK_BYTES ≤ length buf.old }
        ensures acts { Acts true (state_of D.disk A.accepts self.old) (Get index)
            (state_of D.disk A.accepts self.new) (Read (answer_in buf.new result)) }
        ensures leaves { OnlyReads D.disk self.old self.new }
        ensures broken { (count : ℕ) → self.old.broken ≡ Some count → result ≡ Err (Broken count) }
        ensures quiet { IsSome self.old.broken → self.new.store.disk ≡ self.old.store.disk }
        ensures size { IfOk result (λ read. read.len ≤ MAX_BLOCK_BYTES) }
        ensures place { length buf.new ≡ length buf.old }
        ensures ends { ReadsBlock D.disk self.old self.new index buf.new result }
    {
        if let Some(count) = self.failed_at() {
            return Err(CoreFault::Broken { count });
        }
        read_held(&mut self.store, index, buf)
    }

    /// How many siblings a block needs to be proved. `OutOfRange` at the length.
    pub fn need(&mut self, index: u64) -> Result<u64, CoreFault>
        ensures acts { Acts true (state_of D.disk A.accepts self.old) (Need index)
            (state_of D.disk A.accepts self.new) (Number result) }
        ensures leaves { OnlyReads D.disk self.old self.new }
        ensures broken { (count : ℕ) → self.old.broken ≡ Some count → result ≡ Err (Broken count) }
        ensures quiet { IsSome self.old.broken → self.new.store.disk ≡ self.old.store.disk }
    {
        if let Some(count) = self.failed_at() {
            return Err(CoreFault::Broken { count });
        }
        let end = self.store.known().head().length;
        if end <= index {
            return Err(CoreFault::OutOfRange { end });
        }
        need(&mut self.store, index)
    }

    /// Which blocks of a page are held (`bit_field::Bits::page`); none past the length.
    pub fn bits(&mut self, number: u64, out: &mut [u8; PAGE_BYTES]) -> Result<(), CoreFault>
        ensures acts { Acts true (state_of D.disk A.accepts self.old) (Page number)
            (state_of D.disk A.accepts self.new) (Bits (page_in out.new result)) }
        ensures leaves { OnlyReads D.disk self.old self.new }
        ensures broken { (count : ℕ) → self.old.broken ≡ Some count → result ≡ Err (Broken count) }
        ensures quiet { IsSome self.old.broken → self.new.store.disk ≡ self.old.store.disk }
    {
        if let Some(count) = self.failed_at() {
            return Err(CoreFault::Broken { count });
        }
        self.store.known().page(number, out);
        Ok(())
    }
}
