//! A core of any log.
ghost use Rattle.std.specs.Prelude.{◌≡◌, ◌≤◌, ◌*◌, None, IfOk, IsTrue, MatchResult, length};
ghost use Rattle.merkle_nodes.specs.Roots.{signed_text};
ghost use Rattle.node_set.specs.Whole.{IsSound, KeepsLimits};
ghost use Rattle.log_change.specs.LogChange.{signed};
ghost use Rattle.log_view.specs.Views.{IsUsable};
ghost use Rattle.log_core.specs.Logs.{blocks_of, Fits, Leads, Applies};
ghost use Rattle.flat_tree.specs.declared.limits.TheConstants.{MAX_ROOTS, MAX_CORE_BYTES};
ghost use Rattle.node_set.specs.Contents.{bytes_under};
ghost use Rattle.log_core.specs.States.{core_of, receipt_of, BreaksBy};

use crate::core_calls::Core;
use crate::log::{Blocks, Log};
use bit_field::PAGE_BYTES;
use core_snap::{ReadAt, Snapshot};
use log_change::LogChange;
use merkle_nodes::{Head, Info, Node, root_hash, signable};
use node_set::{CoreFault, Fresh, Receipt};
use outside_traits::Signer;
use snap_reads::{read_held, read_snap};
use std::alloc::Global;

/// A log with the authority that signs its heads. Its calls decide over the log as a view, and apply what they decided
/// to it.
#[derive(Drop)]
pub struct LogCore<L: Log, A: Signer> {
    log: L,
    auth: A,
    // The store's count of faults when a change failed.
    broken: Option<u64>,
}

impl<L: Log, A: Signer> LogCore<L, A> {
    /// The core of a log that this authority signs.
    pub fn new(log: L, auth: A) -> LogCore<L, A>
        ensures log { result.log ≡ log }
        ensures auth { result.auth ≡ auth }
        ensures broken { result.broken ≡ None }
    {
        LogCore {
            log,
            auth,
            broken: None,
        }
    }

    /// The log.
    pub fn log(&self) -> &L
        ensures { result.now ≡ self.now.log }
    {
        &self.log
    }
}

impl<L: Log, A: Signer> LogCore<L, A> {
    // Applies a change, and keeps in mind where the store failed in it.
    fn commit(
        &mut self,
        alloc: Global,
        change: &LogChange,
        root: &[u8; 32],
        come: &Blocks<'_>,
        fresh: &[Node],
    ) -> Result<Receipt, CoreFault>
        requires fits { let m = (L.view self.old.log).source.content in IsUsable m
            → Fits m change.now root.now (blocks_of come.now) }
        requires leads { let s = (L.view self.old.log).source in IsTrue s.shows
            → IsSound s.content → KeepsLimits s.content
            → Leads s.content change.now (blocks_of come.now) fresh.now }
        ensures applies { Applies L.TAKES_MEMORY L.FILLS (L.view self.old.log) (L.view self.new.log)
            change.now (blocks_of come.now) fresh.now result }
        ensures receipt { IfOk result (λ receipt.
            receipt ≡ receipt_of (L.view self.new.log).source.content change.now.commit) }
        ensures auth { self.new.auth ≡ self.old.auth }
        ensures breaks { MatchResult result (λ _. self.new.broken ≡ self.old.broken)
            (BreaksBy self.old.broken self.new.broken (L.view self.new.log).faults) }
    {
        match self.log.apply(alloc, change, root, come, fresh) {
            Ok(()) => Ok(receipt(change, root)),
            Err(CoreFault::StoreFault) => {
                self.broken = Some(self.log.faults());
                Err(CoreFault::StoreFault)
            }
            Err(fault) => Err(fault),
        }
    }
}

impl<L: Log, A: Signer> Core for LogCore<L, A> {
    ghost core = { λ c. core_of (L.view c.log) (A.accepts c.auth) L.FILLS c.broken };

    ghost TAKES_MEMORY = { L.TAKES_MEMORY };

    const TAKES_MEMORY: bool = L::TAKES_MEMORY;

    fn info(&self) -> Info {
        let head = self.log.head();
        Info {
            fork: head.fork,
            length: head.length,
            bytes: bytes_under(self.log.roots().as_slice()),
            held: self.log.held_count(),
            root: self.log.root_hash(),
        }
    }

    fn faults(&self) -> u64 {
        self.log.faults()
    }

    fn snapshot(&self) -> Snapshot {
        snap_reads::snapshot(&self.log)
    }

    fn truncate(&mut self, alloc: Global, to: u64, fork: u64) -> Result<Receipt, CoreFault> {
        if let Some(count) = self.broken {
            return Err(CoreFault::Broken { count });
        }
        let mut fresh = Fresh::new(Node::BLANK);
        let change = match log_change::truncate(&mut self.log, to, fork, &mut fresh) {
            Ok(change) => change,
            Err(fault) => return Err(fault),
        };
        let root = root_hash(&change.roots);
        let change = sign(&self.auth, change, &root);
        self.commit(alloc, &change, &root, &Blocks::NoBlock, fresh.as_slice())
    }

    fn clear(&mut self, alloc: Global, from: u64, to: u64) -> Result<Receipt, CoreFault> {
        if let Some(count) = self.broken {
            return Err(CoreFault::Broken { count });
        }
        let change = match log_change::clear(&self.log, from, to) {
            Ok(change) => change,
            Err(fault) => return Err(fault),
        };
        let root = self.log.root_hash();
        if change.commit.is_none() {
            return Ok(receipt(&change, &root));
        }
        self.commit(alloc, &change, &root, &Blocks::NoBlock, &[])
    }

    fn get(&mut self, index: u64, buf: &mut [u8]) -> Result<ReadAt, CoreFault> {
        if let Some(count) = self.broken {
            return Err(CoreFault::Broken { count });
        }
        read_held(&mut self.log, index, buf)
    }

    fn read_at(
        &mut self,
        snap: &Snapshot,
        index: u64,
        buf: &mut [u8],
    ) -> Result<ReadAt, CoreFault> {
        if let Some(count) = self.broken {
            return Err(CoreFault::Broken { count });
        }
        read_snap(&mut self.log, snap, index, buf)
    }

    fn need(&mut self, index: u64) -> Result<u64, CoreFault> {
        if let Some(count) = self.broken {
            return Err(CoreFault::Broken { count });
        }
        let end = self.log.head().length;
        if end <= index {
            return Err(CoreFault::OutOfRange { end });
        }
        Ok(log_view::need(&self.log, index))
    }

    fn bits(&mut self, number: u64, out: &mut [u8; PAGE_BYTES]) -> Result<(), CoreFault> {
        if let Some(count) = self.broken {
            return Err(CoreFault::Broken { count });
        }
        self.log.page(number, out);
        Ok(())
    }
}

// The bytes under some roots.
fn bytes_under(nodes: &[Node]) -> u64
    requires few { bytes_under nodes.now ≤ MAX_ROOTS * MAX_CORE_BYTES }
    ensures { result ≡ bytes_under nodes.now }
{
    nodes.iter().map(|node| node.size).sum()
}

// The change under the signature of its head over roots with this hash.
fn sign<A: Signer>(auth: &A, change: LogChange, root: &[u8; 32]) -> LogChange
    ensures signed { result ≡ signed result.head.signature change }
    ensures accepted { IsTrue (A.accepts auth.now
        (signed_text root.now change.head.length change.head.fork) result.head.signature) }
    ensures size { length result.head.signature ≡ 64 }
{
    let Head { fork, length, .. } = change.head;
    let signature = auth.sign(&signable(root, length, fork));
    LogChange {
        head: Head {
            fork,
            length,
            signature,
        },
        ..change
    }
}

// What is returned of a change, under roots with this hash.
fn receipt(change: &LogChange, root: &[u8; 32]) -> Receipt
    ensures { result ≡ record {
      fork = change.now.head.fork;
      length = change.now.head.length;
      root = root.now;
      commit = change.now.commit;
    } }
{
    Receipt {
        fork: change.head.fork,
        length: change.head.length,
        root: *root,
        commit: change.commit,
    }
}
