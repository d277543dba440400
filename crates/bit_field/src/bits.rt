ghost use Rattle.std.specs.Prelude.{◌≡◌, ℕ, ◌<◌, ◌≤◌, ◌+◌, ◌*◌, ◌/◌, ◌%◌, true, false};
ghost use Rattle.std.specs.Prelude.{length, slice_index, [], IfOk, OnOk, OnErr};
ghost use Rattle.bit_field.specs.Places.{has, count_below, SetsRange, Finds};
ghost use Rattle.bit_field.specs.Pages.{is_set, page_of};
ghost use Rattle.bit_field.specs.Words.{words_for};

use crate::page::{PAGE_BYTES, PAGE_PLACES, PAGE_WORDS, put_page};
use crate::range::set_places;
use crate::search::next_place;
use crate::words::{bit, count_places};
use outside_traits::Memory;
use std::alloc::Global;
use std::marker::Model;

/// The most places that a set is made for.
pub const MAX_PLACES: u64 = 1 << 32;

/// A set of places below a count, which contracts see as the list of whether it has each.
#[derive(Drop)]
pub struct Bits {
    words: Vec<u64>,
    count: u64,
}

impl Model for Bits {
    ghost use Rattle.std.specs.Prelude.{Bool, List};

    ghost Value = { List Bool };

    ghost use Rattle.bit_field.specs.Words.{set_of, IsKept};

    ghost view = { λ bits. set_of bits.words.items bits.count };

    ghost invariant = { λ bits. IsKept bits.words.items bits.count };
}

impl Bits {
    /// The set of no places. Takes no memory.
    pub fn none(alloc: Global) -> Bits
        ensures { result ≡ [] }
    {
        Bits {
            words: Vec::new(alloc),
            count: 0,
        }
    }

    /// The empty set of so many places.
    pub fn new(alloc: Global, count: u64) -> Result<Bits, Memory>
        requires within { count ≤ MAX_PLACES }
        ensures places { IfOk result (λ bits. length bits ≡ count) }
        ensures empty { IfOk result (λ bits. (place : ℕ) → has bits place ≡ false) }
    {
        match vec![in alloc; 0; words_of(count)] {
            Ok(words) => Ok(Bits { words, count }),
            Err(_) => Err(Memory),
        }
    }

    /// Makes it a set of so many places, of which the further ones are not in it. An `Err` changes
    /// nothing.
    pub fn grow(&mut self, alloc: Global, count: u64) -> Result<(), Memory>
        requires more { length self.old ≤ count }
        requires within { count ≤ MAX_PLACES }
        ensures places { OnOk result (length self.new ≡ count) }
        ensures same { OnOk result ((place : ℕ) → has self.new place ≡ has self.old place) }
        ensures err { OnErr result (self.new ≡ self.old) }
    {
        match self.words.resize(words_of(count), 0) {
            Ok(()) => {
                self.count = count;
                Ok(())
            }
            Err(_) => Err(Memory),
        }
    }

    /// How many places there are, in the set or not.
    pub fn places(&self) -> u64
        ensures places { result ≡ length self.now }
        ensures within { result ≤ MAX_PLACES }
    {
        self.count
    }

    /// Whether the set has the place.
    pub fn get(&self, at: u64) -> bool
        requires within { at < length self.now }
        ensures { result ≡ has self.now at }
    {
        bit(&self.words, at)
    }

    /// Takes the places from..to into the set.
    pub fn set_range(&mut self, from: u64, to: u64)
        requires ordered { from ≤ to }
        requires within { to ≤ length self.old }
        ensures places { length self.new ≡ length self.old }
        ensures range { SetsRange true from to (has self.old) (has self.new) }
    {
        self.set_to(from, to, true);
    }

    /// Takes the places from..to out of the set.
    pub fn clear_range(&mut self, from: u64, to: u64)
        requires ordered { from ≤ to }
        requires within { to ≤ length self.old }
        ensures places { length self.new ≡ length self.old }
        ensures range { SetsRange false from to (has self.old) (has self.new) }
    {
        self.set_to(from, to, false);
    }

    // Gives the places from..to a bit.
    fn set_to(&mut self, from: u64, to: u64, bit: bool)
        requires ordered { from ≤ to }
        requires within { to ≤ length self.old }
        ensures places { length self.new ≡ length self.old }
        ensures range { SetsRange bit from to (has self.old) (has self.new) }
    {
        set_places(&mut self.words, from, to, bit);
    }

    /// The least place from `from` on that the set doesn't have.
    pub fn next_unset(&self, from: u64) -> Option<u64>
        requires within { from ≤ length self.now }
        ensures { Finds false from (length self.now) (has self.now) result }
    {
        next_place(&self.words, from, self.count, false)
    }

    /// The least place from `from` on that the set has.
    pub fn next_set(&self, from: u64) -> Option<u64>
        requires within { from ≤ length self.now }
        ensures { Finds true from (length self.now) (has self.now) result }
    {
        next_place(&self.words, from, self.count, true)
    }

    /// The least of the places from..to that the set has. No place past them is looked at.
    pub fn first_in(&self, from: u64, to: u64) -> Option<u64>
        requires ordered { from ≤ to }
        requires within { to ≤ length self.now }
        ensures { Finds true from to (has self.now) result }
    {
        next_place(&self.words, from, to, true)
    }

    /// How many places the set has.
    pub fn count(&self) -> u64
        ensures { result ≡ count_below (has self.now) (length self.now) }
    {
        count_places(&self.words)
    }

    /// Writes the bytes of a page of `PAGE_PLACES` places, with zeros for places past the last.
    pub fn page(&self, number: u64, out: &mut [u8; PAGE_BYTES])
        ensures page { out.new ≡ page_of (has self.now) number }
        ensures places { (place : ℕ) → place < PAGE_PLACES
            → is_set (slice_index out.new (place / 8)) (place % 8)
            ≡ has self.now (number * PAGE_PLACES + place) }
    {
        put_page(&self.words, number, out);
    }
}

// The words of the fewest pages that have so many places.
fn words_of(count: u64) -> usize
    requires within { count ≤ MAX_PLACES }
    ensures { result ≡ words_for count }
{
    PAGE_WORDS * count.div_ceil(PAGE_PLACES) as usize
}
