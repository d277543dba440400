//! What is in memory of a core's disk, and what an entry does to it.
ghost use Rattle.std.specs.Prelude.{◌≡◌, ◌≤◌, ◌<◌, ℕ, true, None, Some as Found, length as count};
ghost use Rattle.bit_field.specs.Places.{has};
ghost use Rattle.flat_tree.specs.declared.limits.TheConstants.{MAX_BLOCKS as MOST};
ghost use Rattle.commit_book.specs.History.{changed};
ghost use Rattle.oplog_form.specs.Headers.{HeaderFits};
ghost use Rattle.oplog_form.specs.Entries.{EntryFits};
ghost use Rattle.core_disk.specs.Opened.{start_of, entry_after};
ghost use Rattle.core_disk.specs.Following.{has_numbers};
ghost use Rattle.core_disk.specs.Committing.{MakesReady};
ghost use Rattle.core_disk.specs.InHand.{opened_of, IsKept, rootless, none_held, Agrees, Applies, NextRoots, HavePlaces};

use crate::in_range::{hold, is_in_range, numbers_after};
use crate::records::{known_roots, make_places, put_records};
use bit_field::Bits;
use flat_tree::MAX_BLOCKS;
use merkle_nodes::{Head, Roots};
use node_set::Nodes;
use oplog_form::{Entry, Header};
use outside_traits::Memory;
use std::alloc::Global;
use std::marker::Model;

/// Above the numbers of all nodes that a core may have.
pub(crate) const MAX_NODES: u64 = 2 * MAX_BLOCKS;

/// Why an entry isn't applied.
#[derive(Clone, Copy, Debug, PartialEq, Eq)]
pub(crate) enum ApplyFault {
    /// Want of memory.
    Memory,
    /// The entry doesn't follow from what came before it.
    DoesntFollow,
}

/// What is in memory of a core's disk: its head, the roots, a place for each block that a core may have, and nodes.
#[derive(Drop)]
pub(crate) struct DiskState {
    pub(crate) head: Head,
    pub(crate) roots: Roots,
    pub(crate) held: Bits,
    pub(crate) nodes: Nodes,
}

impl Model for DiskState {
    ghost use Rattle.core_disk.specs.InHand.{InHand, IsKept};
    ghost use Rattle.core_disk.specs.Hands.{hand_of};

    ghost Value = { InHand };

    ghost view = { hand_of };

    ghost invariant = { λ inside. IsKept (hand_of inside) };
}

impl DiskState {
    /// What a header tells, with these held blocks and no node. Takes no memory.
    pub(crate) fn new(alloc: Global, header: &Header, held: Bits) -> DiskState
        requires fits { HeaderFits header.now }
        requires places { count held ≡ MOST }
        requires spare { (index : ℕ) → has held index ≡ true → index < header.now.head.length }
        ensures { opened_of result ≡ start_of header.now (has held) (λ depth offset. None) }
    {
        DiskState {
            head: header.head,
            roots: header.roots.copy(),
            held,
            nodes: Nodes::new(alloc),
        }
    }

    /// The head. With it comes what is always kept.
    pub(crate) fn head(&self) -> Head
        ensures head { result ≡ self.now.head }
        ensures kept { IsKept self.now }
    {
        self.head
    }

    /// Whether a block is held.
    pub(crate) fn holds(&self, index: u64) -> bool
        ensures { result ≡ (opened_of self.now).held index }
    {
        index < self.head.length && self.held.get(index)
    }

    /// Does what an entry does. Where the entry doesn't follow, and without memory, nothing changes.
    pub(crate) fn apply(&mut self, alloc: Global, entry: &Entry<'_>) -> Result<(), ApplyFault>
        requires fits { EntryFits entry.now }
        ensures { Applies entry.now (opened_of self.old) (opened_of self.new) result }
    {
        let Some(roots) = self.next_roots(entry) else {
            return Err(ApplyFault::DoesntFollow);
        };
        match make_places(alloc, &entry.records, &mut self.nodes) {
            Ok(()) => {}
            Err(Memory) => return Err(ApplyFault::Memory),
        }
        self.put(entry, roots);
        Ok(())
    }

    /// The roots after an entry that follows, once there is a place for each of its nodes. What is in memory stays.
    pub(crate) fn ready(&mut self, alloc: Global, entry: &Entry<'_>) -> Result<Roots, ApplyFault>
        requires fits { EntryFits entry.now }
        ensures ready { MakesReady entry.now self.old self.new result }
        ensures same { opened_of self.new ≡ opened_of self.old }
    {
        let Some(roots) = self.next_roots(entry) else {
            return Err(ApplyFault::DoesntFollow);
        };
        match make_places(alloc, &entry.records, &mut self.nodes) {
            Ok(()) => Ok(roots),
            Err(Memory) => Err(ApplyFault::Memory),
        }
    }

    // The roots after an entry, where it follows.
    fn next_roots(&self, entry: &Entry<'_>) -> Option<Roots>
        requires fits { EntryFits entry.now }
        ensures { NextRoots (opened_of self.now) entry.now result }
    {
        let Head { fork, length, .. } = self.head;
        if !is_in_range(fork, length, &self.held, entry.commit) {
            return None;
        }
        if !has_numbers(fork, length, entry) {
            return None;
        }
        known_roots(&self.roots, &entry.records, entry.head.length)
    }

    /// Puts an entry in that follows, with the roots after it.
    pub(crate) fn put(&mut self, entry: &Entry<'_>, roots: Roots)
        requires fits { EntryFits entry.now }
        requires next { NextRoots (opened_of self.old) entry.now (Found roots) }
        requires places { HavePlaces self.old.nodes entry.now.records }
        ensures { Agrees (opened_of self.new) (entry_after (opened_of self.old) entry.now) }
    {
        hold(self.head.length, &mut self.held, entry.commit);
        put_records(&entry.records, &mut self.nodes);
        self.roots = roots;
        self.head = entry.head;
    }
}

// Whether an entry's head has the fork and the length that its commit gives.
fn has_numbers(fork: u64, length: u64, entry: &Entry<'_>) -> bool
    requires fits { EntryFits entry.now }
    requires few { length ≤ MOST }
    ensures { result ≡ has_numbers entry.now
        (changed entry.now.commit (rootless fork length none_held)) }
{
    let (new_fork, new_length) = numbers_after(fork, length, entry.commit);
    entry.head.fork == new_fork && entry.head.length == new_length
}
