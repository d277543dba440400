//! A list of byte lists in two pieces of memory, however many they are.
ghost use Rattle.std.specs.Prelude.{◌≡◌, ◌<◌, List, [], ◌∷◌, ◌++◌, ℕ, Some, IfOk, IfErr, length, slice_get};
ghost use Rattle.std.specs.List.{concat};
ghost use Rattle.outside_traits.specs.Blobs.{cut_at, Rise, lists_of, start_at};

use crate::failed::Memory;
use std::alloc::Global;
use std::marker::Model;

/// Some byte lists in order, which contracts see as a list of lists.
#[derive(Drop)]
pub struct Blobs {
    held: Option<Flat>,
}

impl Model for Blobs {
    ghost Value = { List (List ℕ) };

    ghost view = { λ blobs. lists_of blobs.held };
}

impl Blobs {
    /// No lists, and no memory taken.
    pub fn new() -> Blobs
        ensures { result ≡ [] }
    {
        Blobs { held: None }
    }

    /// Adds a copy of `block` at the end, also of an empty one. After `Memory` the lists are as they
    /// were.
    pub fn push(&mut self, alloc: Global, block: &[u8]) -> Result<(), Memory>
        ensures ok { IfOk result (λ _. self.new ≡ self.old ++ block.now ∷ []) }
        ensures err { IfErr result (λ _. self.new ≡ self.old) }
    {
        if let Some(held) = &mut self.held {
            return held.push(block);
        }
        let mut held = Flat::new(alloc);
        if held.push(block).is_err() {
            return Err(Memory);
        }
        self.held = Some(held);
        Ok(())
    }

    /// How many lists there are.
    pub fn len(&self) -> usize
        ensures { result ≡ length self.now }
    {
        match &self.held {
            Some(held) => held.len(),
            None => 0,
        }
    }

    /// The list at a place.
    pub fn get(&self, place: usize) -> &[u8]
        requires within { place < length self.now }
        ensures { slice_get self.now place ≡ Some result.now }
    {
        match &self.held {
            Some(held) => held.get(place),
            None => &[],
        }
    }

    /// The bytes of all lists, joined.
    pub fn flat(&self) -> &[u8]
        ensures { result.now ≡ concat self.now }
    {
        match &self.held {
            Some(held) => held.joined(),
            None => &[],
        }
    }

    /// Takes off every list, and keeps the memory.
    pub fn clear(&mut self)
        ensures { self.new ≡ [] }
    {
        if let Some(held) = &mut self.held {
            held.clear();
        }
    }
}

/// The bytes of the lists, joined, and where each of them ends.
#[derive(Drop)]
struct Flat {
    bytes: Vec<u8>,
    ends: Vec<usize>,
}

impl Model for Flat {
    ghost Value = { List (List ℕ) };

    ghost view = { λ flat. cut_at flat.bytes.items 0 flat.ends.items };

    ghost invariant = { λ flat. Rise 0 flat.ends.items (length flat.bytes.items) };
}

impl Flat {
    fn new(alloc: Global) -> Flat
        ensures { result ≡ [] }
    {
        Flat {
            bytes: Vec::new(alloc),
            ends: Vec::new(alloc),
        }
    }

    // Both take their memory before either changes.
    fn push(&mut self, block: &[u8]) -> Result<(), Memory>
        ensures ok { IfOk result (λ _. self.new ≡ self.old ++ block.now ∷ []) }
        ensures err { IfErr result (λ _. self.new ≡ self.old) }
    {
        if self.ends.reserve(1).is_err() || self.bytes.extend_from_slice(block).is_err() {
            return Err(Memory);
        }
        if self.ends.push(self.bytes.len()).is_err() {
            return Err(Memory);
        }
        Ok(())
    }

    fn len(&self) -> usize
        ensures { result ≡ length self.now }
    {
        self.ends.len()
    }

    fn get(&self, place: usize) -> &[u8]
        requires within { place < length self.now }
        ensures { slice_get self.now place ≡ Some result.now }
    {
        list_at(self.bytes.as_slice(), self.ends.as_slice(), place)
    }

    fn joined(&self) -> &[u8]
        ensures { result.now ≡ concat self.now }
    {
        self.bytes.as_slice()
    }

    fn clear(&mut self)
        ensures { self.new ≡ [] }
    {
        self.bytes.clear();
        self.ends.clear();
    }
}

fn list_at<'a>(bytes: &'a [u8], ends: &[usize], place: usize) -> &'a [u8]
    requires within { place < length ends.now }
    requires shape { Rise 0 ends.now (length bytes.now) }
    ensures { slice_get (cut_at bytes.now 0 ends.now) place ≡ Some result.now }
{
    let from = start_of(ends, place);
    &bytes[from..ends[place]]
}

fn start_of(ends: &[usize], place: usize) -> usize
    requires within { place < length ends.now }
    ensures { result ≡ start_at 0 ends.now place }
{
    if place == 0 {
        return 0;
    }
    ends[place - 1]
}
