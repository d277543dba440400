//! The trait of cores.
ghost use Rattle.std.specs.Prelude.{◌≡◌, ◌≤◌, Bool, IfOk, length};
ghost use Rattle.flat_tree.specs.declared.limits.TheConstants.{MAX_BLOCKS, MAX_BLOCK_BYTES};
ghost use Rattle.merkle_nodes.specs.Roots.{HasShape};
ghost use Rattle.log_view.specs.Views.{IsUsable};
ghost use Rattle.log_core.specs.Events.Event.{Truncate, Clear, Get, Need, Page, ReadAt as ReadsAt};
ghost use Rattle.log_core.specs.Events.Reply.{Done, Read, Number, Bits};
ghost use Rattle.log_core.specs.States.{CoreState, content_of, info_of, snapshot_of};
ghost use Rattle.log_core.specs.Acts.{Acts, answer_in, page_in};

use bit_field::PAGE_BYTES;
use core_snap::{ReadAt, Snapshot};
use merkle_nodes::Info;
use node_set::{CoreFault, Receipt};
use std::alloc::Global;

/// A log that one owner holds, whole or in part. A refused call changes nothing. Each call but `info`, `faults` and
/// `snapshot` answers `Broken` from then on where a write failed once.
pub trait Core {
    /// What is seen of it.
    ghost core: { Self → CoreState };

    /// Whether a change may answer `Memory`.
    ghost TAKES_MEMORY: { Bool };

    const TAKES_MEMORY: bool;

    /// The head in short.
    fn info(&self) -> Info
        ensures info { result ≡ info_of (content_of (core self.now)) }
        ensures usable { IsUsable (content_of (core self.now)) };

    /// How often the store failed.
    fn faults(&self) -> u64
        ensures { result ≡ (core self.now).view.faults };

    /// The head with its roots, under which reads stay what they are when the core changes.
    fn snapshot(&self) -> Snapshot
        ensures snapshot { result ≡ snapshot_of (content_of (core self.now)) }
        // what a read under it requires
        ensures shape { HasShape result.roots result.length }
        ensures few { result.length ≤ MAX_BLOCKS };

    /// Cuts the log to `to` blocks, under a greater fork. `OutOfRange` where `to` is above the length, `Limit` (`Fork`),
    /// `OldFork` where the fork isn't above the head's, and `NoNode` of the first root of `to` that isn't stored.
    fn truncate(&mut self, alloc: Global, to: u64, fork: u64) -> Result<Receipt, CoreFault>
        ensures { Acts Self.TAKES_MEMORY (core self.old) (Truncate to fork) (core self.new)
            (Done result) };

    /// Clears the blocks `from..to`; no commit where none is held. `OutOfRange` unless `from` is at most `to`, and `to` at
    /// most the length.
    fn clear(&mut self, alloc: Global, from: u64, to: u64) -> Result<Receipt, CoreFault>
        ensures { Acts Self.TAKES_MEMORY (core self.old) (Clear from to) (core self.new)
            (Done result) };

    /// Reads the block of an index to the front of `buf`, and proves it under the head. `OutOfRange` at the length,
    /// `Unavailable` where the block isn't held.
    fn get(&mut self, index: u64, buf: &mut [u8]) -> Result<ReadAt, CoreFault>
        requires capacity { MAX_BLOCK_BYTES ≤ length buf.old }
        ensures acts { Acts Self.TAKES_MEMORY (core self.old) (Get index) (core self.new)
            (Read (answer_in buf.new result)) }
        ensures size { IfOk result (λ read. read.len ≤ MAX_BLOCK_BYTES) }
        ensures buffer { length buf.new ≡ length buf.old };

    /// Reads as `get` does, under a snapshot. `Unavailable` also where the log no longer has the snapshot's root over the
    /// block.
    fn read_at(&mut self, snap: &Snapshot, index: u64, buf: &mut [u8]) -> Result<ReadAt, CoreFault>
        requires shape { HasShape snap.now.roots snap.now.length }
        requires few { snap.now.length ≤ MAX_BLOCKS }
        requires capacity { MAX_BLOCK_BYTES ≤ length buf.old }
        ensures acts { Acts Self.TAKES_MEMORY (core self.old) (ReadsAt snap.now index) (core self.new)
            (Read (answer_in buf.new result)) }
        ensures size { IfOk result (λ read. read.len ≤ MAX_BLOCK_BYTES) }
        ensures buffer { length buf.new ≡ length buf.old };

    /// How many siblings a block needs to be proved. `OutOfRange` at the length.
    fn need(&mut self, index: u64) -> Result<u64, CoreFault>
        ensures { Acts Self.TAKES_MEMORY (core self.old) (Need index) (core self.new)
            (Number result) };

    /// Which blocks of a page are held (`bit_field::Bits::page`); none past the length.
    fn bits(&mut self, number: u64, out: &mut [u8; PAGE_BYTES]) -> Result<(), CoreFault>
        ensures { Acts Self.TAKES_MEMORY (core self.old) (Page number) (core self.new)
            (Bits (page_in out.new result)) };
}
