//! The nodes that are stored, by their numbers.
ghost use Rattle.std.specs.Prelude.{◌≡◌, ℕ, Bool, true, false, ◌+◌, ◌*◌, ◌<◌, ◌≤◌, [], None, length as size, slice_index_or, IfSome, IsOk, IsErr, OnOk, OnErr};
ghost use Rattle.std.specs.Option.{option_map};
ghost use Rattle.std.specs.List.{AllByRecursion};
ghost use Rattle.flat_tree.specs.Subtrees.{number};
ghost use Rattle.flat_tree.specs.declared.limits.TheConstants.{MAX_COUNT};
ghost use Rattle.bit_field.specs.Places.{has};
ghost use Rattle.merkle_nodes.specs.declared.node.Node.{Node};
ghost use Rattle.merkle_nodes.specs.Roots.{twig_of};
ghost use Rattle.node_set.specs.Closure.{closed_on};
ghost use Rattle.node_set.specs.Nodes.{nodes_in, page_at, has_place, value_at, values_of, with_node, with_nodes};

use crate::change::Fresh;
use crate::page::{PAGE_NODES, Page};
use bit_field::Bits;
use flat_tree::MAX_COUNT;
use merkle_nodes::Node;
use outside_traits::Memory;
use std::alloc::Global;
use std::marker::Model;

/// A table from node numbers to sizes and hashes: a directory of pages, each with places for `PAGE_NODES` numbers or none
/// yet. A number is found by two index operations. In memory a page with places is 24 KiB, and the directory 24 bytes for
/// each page up to the last with places, or twice that.
#[derive(Drop)]
pub struct Nodes {
    pages: Vec<Page>,
}

impl Model for Nodes {
    ghost use Rattle.node_set.specs.Nodes.{NodePages};

    ghost Value = { NodePages };

    ghost view = { λ nodes. record { pages = nodes.pages.items } };
}

impl Nodes {
    /// No node, and no place. Takes no memory.
    pub fn new(alloc: Global) -> Nodes
        ensures places { result.pages ≡ [] }
        ensures values { (depth offset : ℕ) → values_of result depth offset ≡ None }
    {
        Nodes {
            pages: Vec::new(alloc),
        }
    }

    /// The node of a number.
    pub fn get(&self, index: u64) -> Option<Node>
        ensures value { (depth offset : ℕ) → number depth offset ≡ index
            → option_map twig_of result ≡ values_of self.now depth offset }
        ensures at { option_map twig_of result ≡ value_at self.now index }
        ensures numbered { IfSome result (λ node. node.index ≡ index) }
    {
        let page = self.pages.get(index as usize / PAGE_NODES)?;
        let twig = page.get(index as usize % PAGE_NODES)?;
        Some(twig.numbered(index))
    }

    // Whether there is a place for a number.
    fn has_place(&self, index: u64) -> bool
        ensures { result ≡ has_place self.now index }
    {
        match self.pages.get(index as usize / PAGE_NODES) {
            Some(page) => page.has_place(index as usize % PAGE_NODES),
            None => false,
        }
    }

    /// Makes the place of a number, where it isn't there. The nodes and the places that are there stay. It takes 24 KiB for the page, and up to
    /// 48 bytes of directory for each page before it. A number past those of `MAX_COUNT` blocks gets `Memory`, as if it
    /// lacked for a directory of more than 400 MB.
    pub fn reserve(&mut self, alloc: Global, index: u64) -> Result<(), Memory>
        ensures place { OnOk result (has_place self.new index ≡ true) }
        ensures idle { has_place self.old index ≡ true → IsOk result }
        ensures past { 2 * MAX_COUNT ≤ index → has_place self.old index ≡ false → IsErr result }
        ensures kept { (number : ℕ) → has_place self.old number ≡ true → has_place self.new number ≡ true }
        ensures same { values_of self.new ≡ values_of self.old }
    {
        if self.has_place(index) {
            return Ok(());
        }
        if index >= 2 * MAX_COUNT {
            return Err(Memory);
        }
        let page = index as usize / PAGE_NODES;
        match self.extend(alloc, page + 1) {
            Ok(()) => self.pages[page].fill(),
            Err(Memory) => Err(Memory),
        }
    }

    // Makes the directory so long at least.
    fn extend(&mut self, alloc: Global, count: usize) -> Result<(), Memory>
        ensures pages { OnOk result (count ≤ size self.new.pages) }
        ensures same { (number : ℕ) → page_at self.new number ≡ page_at self.old number }
    {
        for _ in self.pages.len()..count {
            if self.pages.push(Page::new(alloc)).is_err() {
                return Err(Memory);
            }
        }
        Ok(())
    }

    /// Makes the places of all these nodes. The nodes that are in stay.
    pub fn reserve_all(&mut self, alloc: Global, nodes: &[Node]) -> Result<(), Memory>
        ensures places { OnOk result
            (AllByRecursion (λ (node : Node). has_place self.new node.index ≡ true) nodes.now) }
        ensures idle { AllByRecursion (λ (node : Node). has_place self.old node.index ≡ true) nodes.now → IsOk result }
        ensures kept { (number : ℕ) → has_place self.old number ≡ true → has_place self.new number ≡ true }
        ensures same { values_of self.new ≡ values_of self.old }
    {
        for node in nodes {
            match self.reserve(alloc, node.index) {
                Ok(()) => {}
                Err(Memory) => return Err(Memory),
            }
        }
        Ok(())
    }

    /// Puts a node at its place, over one that is there. Takes no memory.
    pub fn insert(&mut self, node: &Node)
        requires place { has_place self.old node.now.index ≡ true }
        ensures values { values_of self.new ≡ with_node (values_of self.old) node.now }
        ensures kept { (number : ℕ) → has_place self.new number ≡ has_place self.old number }
    {
        let index = node.index as usize;
        self.pages[index / PAGE_NODES].put(index % PAGE_NODES, node.twig());
    }

    /// Puts these nodes at their places, each over one that is there, also an earlier one. Takes no memory.
    pub fn insert_all(&mut self, nodes: &[Node])
        requires places { AllByRecursion (λ (node : Node). has_place self.old node.index ≡ true) nodes.now }
        ensures values { values_of self.new ≡ with_nodes (values_of self.old) nodes.now }
        ensures kept { (number : ℕ) → has_place self.new number ≡ has_place self.old number }
    {
        for node in nodes {
            self.insert(node);
        }
    }

    /// Makes the place of a node, and puts it there.
    pub fn put(&mut self, alloc: Global, node: &Node) -> Result<(), Memory>
        ensures ok { OnOk result (values_of self.new ≡ with_node (values_of self.old) node.now) }
        ensures err { OnErr result (values_of self.new ≡ values_of self.old) }
        ensures kept { (number : ℕ) → has_place self.old number ≡ true → has_place self.new number ≡ true }
    {
        match self.reserve(alloc, node.index) {
            Ok(()) => {
                self.insert(node);
                Ok(())
            }
            Err(Memory) => Err(Memory),
        }
    }

    /// Makes the places of these nodes, and puts them there, all or none.
    pub fn insert_path(&mut self, alloc: Global, fresh: &Fresh) -> Result<(), Memory>
        ensures ok { OnOk result (values_of self.new ≡ with_nodes (values_of self.old) fresh.now) }
        ensures err { OnErr result (values_of self.new ≡ values_of self.old) }
        ensures kept { (number : ℕ) → has_place self.old number ≡ true → has_place self.new number ≡ true }
    {
        match self.reserve_all(alloc, fresh.as_slice()) {
            Ok(()) => {
                self.insert_all(fresh.as_slice());
                Ok(())
            }
            Err(Memory) => Err(Memory),
        }
    }

    /// Keeps those nodes alone that are to be stored in a log of so many blocks, of which the held ones are these. The
    /// pages past the log go, with their memory.
    pub fn prune(&mut self, length: u64, held: &Bits)
        requires places { length ≤ size held.now }
        ensures values { values_of self.new ≡ closed_on length (has held.now) (values_of self.old) }
        ensures kept { (number : ℕ) → number < 2 * length → has_place self.new number ≡ has_place self.old number }
    {
        // the length is within the most places that a set has
        let _places = held.places();
        self.pages
            .truncate(length.div_ceil(PAGE_NODES as u64 / 2) as usize);
        prune_pages(self.pages.as_mut_slice(), length, held);
    }
}

// Keeps those nodes alone that are to be stored.
fn prune_pages(pages: &mut [Page], length: u64, held: &Bits)
    requires few { PAGE_NODES * size pages.old ≤ 2 * MAX_COUNT }
    requires places { length ≤ size held.now }
    ensures values { values_of (nodes_in pages.new) ≡ closed_on length (has held.now) (values_of (nodes_in pages.old)) }
    ensures kept { (number : ℕ) → has_place (nodes_in pages.new) number ≡ has_place (nodes_in pages.old) number }
{
    for at in 0..pages.len() {
        pages[at].prune((at * PAGE_NODES) as u64, length, held);
    }
}
