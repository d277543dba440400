//! A page of nodes, which stand in the order of their numbers.
ghost use Rattle.std.specs.Prelude.{◌≡◌, ℕ, ◌+◌, ◌*◌, ◌≤◌, ◌<◌, [], None, Some, if◌then◌else◌, length, nat_lt, slice_index_or, slice_set, OnOk};
ghost use Rattle.flat_tree.specs.Subtrees.{number};
ghost use Rattle.bit_field.specs.Places.{has};
ghost use Rattle.node_set.specs.Closure.{in_closure};

use crate::closure::is_stored;
use bit_field::Bits;
use flat_tree::MAX_COUNT;
use merkle_nodes::Twig;
use outside_traits::Memory;
use std::alloc::Global;
use std::marker::Model;

/// The numbers of a page.
pub const PAGE_NODES: usize = 512;

/// A place for each number of a page, or none as yet.
#[derive(Drop)]
pub struct Page {
    twigs: Vec<Option<Twig>>,
}

impl Model for Page {
    ghost use Rattle.std.specs.Prelude.{◌≤◌, List, Option, length};
    ghost use Rattle.merkle_nodes.specs.declared.node.Twig.{Twig};
    ghost use Rattle.node_set.specs.declared.page.TheConstants.{PAGE_NODES};

    ghost Value = { List (Option Twig) };

    ghost view = { λ page. page.twigs.items };

    ghost invariant = { λ page. length page.twigs.items ≤ PAGE_NODES };
}

impl Page {
    /// No place. Takes no memory.
    pub fn new(alloc: Global) -> Page
        ensures { result ≡ [] }
    {
        Page {
            twigs: Vec::new(alloc),
        }
    }

    /// The size and hash at a place.
    pub fn get(&self, place: usize) -> Option<Twig>
        ensures { result ≡ slice_index_or self.now place None }
    {
        match self.twigs.get(place) {
            Some(twig) => *twig,
            None => None,
        }
    }

    /// Whether it has the place.
    pub fn has_place(&self, place: usize) -> bool
        ensures { result ≡ nat_lt place (length self.now) }
    {
        place < self.twigs.len()
    }

    /// Makes all its places.
    pub fn fill(&mut self) -> Result<(), Memory>
        ensures places { OnOk result (length self.new ≡ PAGE_NODES) }
        ensures kept { length self.old ≤ length self.new }
        ensures same { (place : ℕ)
            → slice_index_or self.new place None ≡ slice_index_or self.old place None }
    {
        if self.twigs.len() >= PAGE_NODES {
            return Ok(());
        }
        match self.twigs.resize(PAGE_NODES, None) {
            Ok(()) => {}
            Err(_) => return Err(Memory),
        }
        Ok(())
    }

    /// Puts a size and hash at a place.
    pub fn put(&mut self, place: usize, twig: Twig)
        requires within { place < length self.old }
        ensures { self.new ≡ slice_set self.old place (Some twig) }
    {
        self.twigs[place] = Some(twig);
    }

    /// Keeps what is to be stored alone, where the places have the numbers from `first` on.
    pub fn prune(&mut self, first: u64, blocks: u64, held: &Bits)
        requires fits { first ≤ 2 * MAX_COUNT }
        requires places { blocks ≤ length held.now }
        ensures kept { length self.new ≡ length self.old }
        ensures values { (depth offset place : ℕ) → number depth offset ≡ first + place
            → slice_index_or self.new place None
            ≡ (if in_closure blocks (has held.now) depth offset
            then slice_index_or self.old place None else None) }
    {
        prune_twigs(self.twigs.as_mut_slice(), first, blocks, held);
    }
}

// Keeps what is to be stored alone, where the places have the numbers from `first` on.
fn prune_twigs(twigs: &mut [Option<Twig>], first: u64, blocks: u64, held: &Bits)
    requires few { length twigs.old ≤ PAGE_NODES }
    requires fits { first ≤ 2 * MAX_COUNT }
    requires places { blocks ≤ length held.now }
    ensures kept { length twigs.new ≡ length twigs.old }
    ensures values { (depth offset place : ℕ) → number depth offset ≡ first + place
        → slice_index_or twigs.new place None
        ≡ (if in_closure blocks (has held.now) depth offset
        then slice_index_or twigs.old place None else None) }
{
    for place in 0..twigs.len() {
        if twigs[place].is_some() && !is_stored(blocks, held, first + place as u64) {
            twigs[place] = None;
        }
    }
}
