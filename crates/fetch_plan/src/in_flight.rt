//! The requests in flight, by their ids.
ghost use Rattle.std.specs.Prelude.{◌≡◌, ◌+◌, ◌<◌, ◌≤◌, ◌++◌, [], ◌∷◌, None, nat_eq, length, take, IfOk};
ghost use Rattle.std.specs.List.{IsDistinct};
ghost use Rattle.std.specs.Map.{lookup, keys_of};
ghost use Rattle.indexmap.specs.IndexMap.{index_map_len, spare};
ghost use Rattle.fetch_plan.specs.Requests.{HasRoom, without};

use indexmap::IndexMap;
use outside_traits::Memory;
use std::alloc::Global;
use std::marker::Model;
use std::mem::swap;

/// The most requests that are in flight at once.
pub const MAX_IN_FLIGHT: usize = 16;

/// The requests in flight, in the order in which they were put: an id and the index that it asks for.
#[derive(Drop)]
pub(crate) struct InFlight {
    requests: IndexMap<u64, u64>,
    emptied: IndexMap<u64, u64>,
}

impl Model for InFlight {
    ghost use Rattle.std.specs.Prelude.{◌≡◌, List, []};
    ghost use Rattle.fetch_plan.specs.Requests.{Request, HasRoom};

    ghost Value = { List Request };

    ghost view = { λ in_flight. in_flight.requests.entries };

    ghost invariant = { λ in_flight. HasRoom in_flight.requests × HasRoom in_flight.emptied
        × (in_flight.emptied.entries ≡ []) };
}

impl InFlight {
    /// None, and room for the most.
    pub(crate) fn new(alloc: Global) -> Result<InFlight, Memory>
        ensures { IfOk result (λ in_flight. in_flight ≡ []) }
    {
        match (map_of_most(alloc), map_of_most(alloc)) {
            (Ok(requests), Ok(emptied)) => Ok(InFlight { requests, emptied }),
            _ => Err(Memory),
        }
    }

    /// How many there are.
    pub(crate) fn len(&self) -> usize
        ensures len { result ≡ length self.now }
        ensures few { result ≤ MAX_IN_FLIGHT }
    {
        self.requests.len()
    }

    /// Puts a request behind the others.
    pub(crate) fn put(&mut self, id: u64, index: u64)
        requires room { length self.old < MAX_IN_FLIGHT }
        requires new { lookup (nat_eq id) self.old ≡ None }
        ensures { self.new ≡ self.old ++ (id, index) ∷ [] }
    {
        put_last(&mut self.requests, id, index);
    }

    /// Takes out the request of an id, and gives the index that it asks for, if it is in flight.
    pub(crate) fn take(&mut self, id: u64) -> Option<u64>
        ensures index { result ≡ lookup (nat_eq id) self.old }
        ensures rest { self.new ≡ without id self.old }
    {
        let index = *self.requests.get(&id)?;
        // A removal gives a map no capacity back, and `put` may take no memory: the others go into an emptied map.
        put_others(&mut self.emptied, &self.requests, id);
        swap(&mut self.requests, &mut self.emptied);
        self.emptied.clear();
        Some(index)
    }
}

// An empty map with room for the most requests.
fn map_of_most(alloc: Global) -> Result<IndexMap<u64, u64>, Memory>
    ensures empty { IfOk result (λ requests. requests.entries ≡ []) }
    ensures room { IfOk result HasRoom }
{
    match IndexMap::with_capacity(alloc, MAX_IN_FLIGHT) {
        Ok(requests) => Ok(requests),
        Err(_) => Err(Memory),
    }
}

// Puts a request behind the others of a map that has room.
fn put_last(requests: &mut IndexMap<u64, u64>, id: u64, index: u64)
    requires room { 0 < spare requests.old }
    requires new { lookup (nat_eq id) requests.old.entries ≡ None }
    ensures entries { requests.new.entries ≡ requests.old.entries ++ (id, index) ∷ [] }
    ensures room { spare requests.old ≤ spare requests.new + 1 }
{
    requests.insert(id, index).unwrap();
}

// Puts all requests but that of an id into an empty map.
fn put_others(requests: &mut IndexMap<u64, u64>, all: &IndexMap<u64, u64>, id: u64)
    requires empty { requests.old.entries ≡ [] }
    requires room { index_map_len all.now ≤ spare requests.old }
    ensures entries { requests.new.entries ≡ without id all.now.entries }
    ensures few { index_map_len requests.new ≤ index_map_len all.now }
    ensures room { spare requests.old ≤ index_map_len requests.new + spare requests.new }
{
    for (other, index) in all.iter() {
        if id != *other {
            put_last(requests, *other, *index);
        }
    }
}
