//! The trait of cores.
ghost use Rattle.std.specs.Prelude.{◌≡◌, ◌≢◌, ◌≤◌, Bool, ℕ, Err, IfOk, IsTrue, length};
ghost use Rattle.flat_tree.specs.declared.limits.TheConstants.{MAX_BLOCK_BYTES};
ghost use Rattle.node_set.specs.declared.fault.CoreFault.TheVariants.{Memory};
ghost use Rattle.node_set.specs.Views.{IsUsable};
ghost use Rattle.node_set.specs.Whole.{IsWhole};
ghost use Rattle.core_state.specs.States.{CoreState, info_of};
ghost use Rattle.proof_form.specs.Requests.{RequestFits};
ghost use Rattle.proof_form.specs.Proofs.{Proof as ProofSpelled};
ghost use Rattle.proof_check.specs.Admission.{IsPlain};
ghost use Rattle.core_state.specs.Events.{Append, Truncate, Clear, Admit, Make, Get, Need, Page, proof_in};
ghost use Rattle.core_state.specs.Events.Reply.{Done, Made, Read, Number, Bits};
ghost use Rattle.core_state.specs.Next.{answer_in, page_in};
ghost use Rattle.core_state.specs.Calls.{Acts};

use bit_field::PAGE_BYTES;
use core_snap::ReadAt;
use merkle_nodes::Info;
use node_set::{CoreFault, Receipt};
use outside_traits::Blobs;
use proof_check::Prepared;
use proof_form::{Proof, Request};
use std::alloc::Global;

/// A log that one owner holds, whole or in part. A refused call changes nothing. Each call but `info` and `faults`
/// answers `Broken` from then on where a write failed once.
pub trait Core {
    /// What is seen of it.
    ghost state: { Self → CoreState };

    /// Whether a call may want memory.
    ghost TAKES_MEMORY: { Bool };

    /// All memory is taken that an admission of this proof wants.
    ghost IsReserved: { Self → ProofSpelled → Type 0 };

    const TAKES_MEMORY: bool;

    /// The head in short. With it comes what every core keeps.
    fn info(&self) -> Info
        ensures info { result ≡ info_of (state self.now).content }
        ensures usable { IsUsable (state self.now).content }
        ensures whole { IsTrue (state self.now).stands
            → IsWhole (state self.now).accepts (state self.now).content };

    /// How often the outside failed.
    fn faults(&self) -> u64
        ensures { result ≡ (state self.now).faults };

    /// Appends blocks as one commit; none is no commit. `Limit`, for each block in turn: of its bytes, of the blocks and
    /// the bytes of one append, of the blocks and the bytes of a core.
    fn append(&mut self, alloc: Global, blocks: &Blobs) -> Result<Receipt, CoreFault>
        ensures { Acts Self.TAKES_MEMORY (state self.old) (Append blocks.now) (state self.new) (Done result) };

    /// Cuts the log to a length, under a greater fork. `OutOfRange` above the length, `Limit` of forks, `OldFork` where
    /// the fork isn't greater, `NoNode` where a root of the length isn't stored.
    fn truncate(&mut self, alloc: Global, to: u64, fork: u64) -> Result<Receipt, CoreFault>
        ensures { Acts Self.TAKES_MEMORY (state self.old) (Truncate to fork) (state self.new) (Done result) };

    /// Gives up the blocks from..to; no commit where none is held. `OutOfRange` unless the range is ordered and within
    /// the length.
    fn clear(&mut self, alloc: Global, from: u64, to: u64) -> Result<Receipt, CoreFault>
        ensures { Acts Self.TAKES_MEMORY (state self.old) (Clear from to) (state self.new) (Done result) };

    /// Takes in the block and the upgrade that a proof brings. `Refused` where it isn't admitted (`proof_check::judge`);
    /// no commit where it brings nothing new.
    fn admit(&mut self, alloc: Global, prepared: &Prepared<'_>) -> Result<Receipt, CoreFault>
        requires plain { IsPlain prepared.now }
        ensures acts { Acts Self.TAKES_MEMORY (state self.old) (Admit prepared.now) (state self.new) (Done result) }
        ensures reserved { IsReserved self.old prepared.now → result ≢ Err Memory };

    /// The proof of what is asked for, with the block's bytes in `buf`. `NoReply` where there is none
    /// (`proof_make::make`).
    fn make<'b>(&mut self, request: &Request, buf: &'b mut [u8]) -> Result<Proof<'b>, CoreFault>
        requires fits { RequestFits request.now }
        requires room { MAX_BLOCK_BYTES ≤ length buf.old }
        ensures acts { Acts Self.TAKES_MEMORY (state self.old) (Make request.now) (state self.new)
            (Made (proof_in result)) }
        ensures reserved { (p : ProofSpelled) → IsReserved self.old p → IsReserved self.new p };

    /// Reads the block of an index to the front of `buf`, and proves it under the head. `OutOfRange` at the length,
    /// `Unavailable` where the block isn't held.
    fn get(&mut self, index: u64, buf: &mut [u8]) -> Result<ReadAt, CoreFault>
        requires room { MAX_BLOCK_BYTES ≤ length buf.old }
        ensures acts { Acts Self.TAKES_MEMORY (state self.old) (Get index) (state self.new)
            (Read (answer_in buf.new result)) }
        ensures size { IfOk result (λ read. read.len ≤ MAX_BLOCK_BYTES) }
        ensures room { length buf.new ≡ length buf.old }
        ensures reserved { (p : ProofSpelled) → IsReserved self.old p → IsReserved self.new p };

    /// How many siblings a block needs to be proved. `OutOfRange` at the length.
    fn need(&mut self, index: u64) -> Result<u64, CoreFault>
        ensures acts { Acts Self.TAKES_MEMORY (state self.old) (Need index) (state self.new) (Number result) }
        ensures reserved { (p : ProofSpelled) → IsReserved self.old p → IsReserved self.new p };

    /// Which blocks of a page are held (`bit_field::Bits::page`); none past the length.
    fn bits(&mut self, number: u64, out: &mut [u8; PAGE_BYTES]) -> Result<(), CoreFault>
        ensures acts { Acts Self.TAKES_MEMORY (state self.old) (Page number) (state self.new)
            (Bits (page_in out.new result)) }
        ensures reserved { (p : ProofSpelled) → IsReserved self.old p → IsReserved self.new p };
}
