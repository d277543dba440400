//! A disk with what is in memory of it, as a view.
ghost use Rattle.std.specs.Prelude.{◌≡◌, ◌≤◌, ◌<◌, ◌*◌, ◌+◌, ◌-◌, ℕ, Some, None, IfSome, IfOk, IfErr, IsTrue, true, length as count, take, drop, replicate, ◌++◌};
ghost use Rattle.disk_trait.specs.declared.disk.Area.TheVariants.{Tree, Blocks as BlocksArea};
ghost use Rattle.flat_tree.specs.declared.limits.TheConstants.{MAX_BLOCK_BYTES, MAX_CORE_BYTES, MAX_COUNT};
ghost use Rattle.flat_tree.specs.Subtrees.{number};
ghost use Rattle.outside_traits.specs.Faults.{count_fault};
ghost use Rattle.merkle_nodes.specs.Roots.{twig_of};
ghost use Rattle.node_set.specs.declared.fault.CoreFault.TheVariants.{StoreFault, BadStore};
ghost use Rattle.node_set.specs.Contents.{held, twig_at};
ghost use Rattle.node_set.specs.Offsets.{offset_of};
ghost use Rattle.node_set.specs.Views.{KeepsContent, HasViewCause, TellsFault};
ghost use Rattle.node_set.specs.Walks.{KeepsView};
ghost use Rattle.core_disk.specs.InHand.{opened_of, IsKept};
ghost use Rattle.core_disk.specs.Laid.{IsRooted, outline, block_in};
ghost use Rattle.core_disk.specs.Areas.{read_at};
ghost use Rattle.core_disk.specs.Stored.{view_of, is_showing, blocks_area};

use crate::layout::NODE_BYTES;
use crate::replay::{DiskState, MAX_NODES};
use disk_trait::{Area, Disk};
use flat_tree::MAX_BLOCK_BYTES;
use merkle_nodes::{Head, Node, Roots};
use node_set::{CoreFault, View};
use std::marker::Model;

/// A disk with what is in memory of it. Each root is among the nodes.
#[derive(Drop)]
pub struct Store<D: Disk> {
    pub(crate) disk: D,
    pub(crate) state: DiskState,
    // How many calls of the view answered a fault, and the last one.
    answered: u64,
    last: Option<CoreFault>,
}

impl<D: Disk> Model for Store<D> {
    ghost use Rattle.core_disk.specs.InHand.{opened_of as shown_of};
    ghost use Rattle.core_disk.specs.Laid.{IsRooted as HasRoots};
    ghost use Rattle.core_disk.specs.Stored.{Stored};

    ghost Value = { Stored D };

    ghost view = { λ store. record { disk = store.disk; hand = store.state; answered = store.answered; last = store.last } };

    ghost invariant = { λ store. HasRoots (shown_of store.state) };
}

impl<D: Disk> Store<D> {
    /// A disk with what was read of it.
    pub(crate) fn over(disk: D, state: DiskState) -> Store<D>
        requires rooted { IsRooted (opened_of state) }
        ensures disk { result.disk ≡ disk }
        ensures hand { result.hand ≡ state }
    {
        Store {
            disk,
            state,
            answered: 0,
            last: None,
        }
    }

    /// What is in memory. With it comes what is always kept.
    pub(crate) fn known(&self) -> &DiskState
        ensures same { result.now ≡ self.now.hand }
        ensures kept { IsKept self.now.hand }
        ensures rooted { IsRooted (opened_of self.now.hand) }
    {
        let _ = self.state.head();
        &self.state
    }

    // Answers a fault, and keeps it.
    fn tell(&mut self, fault: CoreFault) -> CoreFault
        ensures same { result ≡ fault }
        ensures told { self.new ≡ record self.old { answered = count_fault self.old.answered; last = Some fault } }
        ensures more { self.old.answered ≤ count_fault self.old.answered }
    {
        self.answered = self.answered.saturating_add(1);
        self.last = Some(fault);
        fault
    }

    // Reads so many bytes of the blocks area to the front of a place; those past the area's end are zeros.
    fn read_bytes(&mut self, at: u64, into: &mut [u8]) -> Result<(), CoreFault>
        ensures bytes { IsTrue (D.disk self.old.disk).honest → IfOk result (λ _.
            into.new ≡ read_at (blocks_area (D.disk self.old.disk)) at (count into.old)) }
        ensures place { count into.new ≡ count into.old }
        ensures keeps { KeepsView (view_of D.disk self.old) (view_of D.disk self.new) }
        ensures cause { HasViewCause (view_of D.disk self.old) (view_of D.disk self.new) result }
    {
        match self.disk.read(Area::Blocks, at, into) {
            Ok(n) => {
                clear_from(into, n);
                Ok(())
            }
            Err(_) => Err(self.tell(CoreFault::StoreFault)),
        }
    }

    // Reads a held block to the front of a place, and gives its number of bytes.
    fn read_block(&mut self, index: u64, out: &mut [u8]) -> Result<usize, CoreFault>
        requires held { (opened_of self.old.hand).held index ≡ true }
        requires room { MAX_BLOCK_BYTES ≤ count out.old }
        ensures size { IfOk result (λ len. len ≤ MAX_BLOCK_BYTES) }
        ensures bytes { IsTrue (is_showing (D.disk self.old.disk) self.old.hand) → IfOk result (λ len.
            take len out.new ≡ block_in (blocks_area (D.disk self.old.disk)) (outline (opened_of self.old.hand)) index) }
        ensures place { count out.new ≡ count out.old }
        ensures keeps { KeepsView (view_of D.disk self.old) (view_of D.disk self.new) }
        ensures cause { HasViewCause (view_of D.disk self.old) (view_of D.disk self.new) result }
    {
        let known = self.known();
        let leaf = leaf_of_block(known, index);
        let size = known.bytes_of(leaf);
        let at = known.offset(index);
        if size > MAX_BLOCK_BYTES {
            // the leaf of a held block is no larger where the nodes agree
            return Err(self.tell(bad_record(leaf)));
        }
        match self.read_bytes(at, &mut out[..size as usize]) {
            Ok(()) => Ok(size as usize),
            Err(fault) => Err(fault),
        }
    }
}

// The number of a held block's leaf.
fn leaf_of_block(known: &DiskState, index: u64) -> u64
    requires held { (opened_of known.now).held index ≡ true }
    ensures number { result ≡ number 0 index }
    ensures few { result < MAX_NODES }
    ensures within { index < known.now.head.length }
{
    let _ = known.head();
    flat_tree::index(0, index)
}

// Makes zeros of what is in a place from so many bytes on.
fn clear_from(into: &mut [u8], n: usize)
    ensures { into.new ≡ take n into.old ++ replicate (count into.old - n) 0 }
{
    let from = n.min(into.len());
    into[from..].fill(0);
}

/// A node whose record in the tree area is bad.
pub(crate) fn bad_record(index: u64) -> CoreFault
    requires few { index < MAX_NODES }
    ensures { result ≡ BadStore Tree (NODE_BYTES * index) }
{
    CoreFault::BadStore {
        area: Area::Tree,
        at: NODE_BYTES as u64 * index,
    }
}

impl<D: Disk> View for Store<D> {
    ghost view = { λ store. view_of D.disk store };

    fn head(&self) -> Head {
        self.known().head()
    }

    fn roots(&self) -> &Roots {
        &self.known().roots
    }

    fn held(&self, index: u64) -> bool {
        self.state.holds(index)
    }

    fn node(&mut self, index: u64) -> Result<Option<Node>, CoreFault> {
        let known = self.known();
        if !known.stores(index) {
            return Ok(None);
        }
        match known.fit_node(index) {
            Some(node) => Ok(Some(node)),
            // where the nodes agree each that is to be stored is there
            None => Err(self.tell(bad_record(index))),
        }
    }

    fn block(&mut self, index: u64, out: &mut [u8]) -> Result<usize, CoreFault> {
        let _ = self.known();
        self.read_block(index, out)
    }
}
