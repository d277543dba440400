//! A link in memory, whose calls can be made to fail.
ghost use Rattle.std.specs.Prelude.{◌≡◌, ◌≤◌, ◌<◌, ◌-◌, ◌⊎◌, ◌↔◌, ℕ, List, [], None, true, false, IsTrue, IsErr, IfOk, Contains, length, min, vec_capacity};
ghost use Rattle.outside_traits.specs.Faults.{count_fault};
ghost use Rattle.link_traits.specs.Links.{Receives, Sends};
ghost use Rattle.link_traits.specs.declared.memory.TheConstants.{MAX_ADDRESS_BYTES};
ghost use Rattle.link_traits.specs.Memory.{MemLinkView, IsUnused, HasRisen, link_view_of};

use crate::link::Link;
use outside_traits::{Blob, Failed, MemSink, Memory, Plan, Sink, Source, SureSource};
use std::alloc::Global;
use std::marker::Model;

/// The longest address that can be dialled in memory.
pub const MAX_ADDRESS_BYTES: usize = 512;

/// A link that gives these bytes, so many at a time, and holds what it was given, up to its capacity. It fails at the
/// calls that are planned, where no capacity is left, at an empty piece and behind its end, and nowhere else. Reads and
/// writes are counted together.
#[derive(Drop)]
pub struct MemLink {
    source: SureSource,
    sink: MemSink,
    piece: usize,
    ended: bool,
    plan: Plan,
    address: Vec<u8>,
    number: Option<u64>,
    start: u64,
}

impl Model for MemLink {
    ghost Value = { MemLinkView };

    ghost view = { λ mem. record {
      given = mem.source.given;
      left = mem.source.left;
      piece = mem.piece;
      written = mem.sink.holds;
      room = mem.sink.room;
      ended = mem.ended;
      planned = mem.plan.calls.items;
      made = mem.plan.made;
      faults = mem.plan.faults;
      address = mem.address.items;
      number = mem.number;
      start = mem.start;
    } };

    ghost invariant = { λ mem. (0 < mem.piece) × (mem.sink.planned ≡ []) × (MAX_ADDRESS_BYTES ≤ vec_capacity mem.address)
        × (mem.plan.made ≡ 0 → (mem.source.given ≡ []) × (mem.sink.holds ≡ [])) };
}

impl MemLink {
    /// A link that gives `bytes`, at most `piece` of them in one read, and takes at most `room` bytes, for which it
    /// takes its memory at once. No call is to fail.
    pub fn new(alloc: Global, bytes: Blob, piece: usize, room: usize) -> Result<MemLink, Memory>
        requires some { 0 < piece }
        ensures given { IfOk result (λ link. link.given ≡ []) }
        ensures left { IfOk result (λ link. link.left ≡ bytes) }
        ensures piece { IfOk result (λ link. link.piece ≡ piece) }
        ensures written { IfOk result (λ link. link.written ≡ []) }
        ensures room { IfOk result (λ link. link.room ≡ room) }
        ensures open { IfOk result (λ link. link.ended ≡ false) }
        ensures planned { IfOk result (λ link. link.planned ≡ []) }
        ensures made { IfOk result (λ link. link.made ≡ 0) }
        ensures faults { IfOk result (λ link. link.faults ≡ 0) }
    {
        let Ok(address) = Vec::with_capacity(alloc, MAX_ADDRESS_BYTES) else {
            return Err(Memory);
        };
        match MemSink::new(alloc, room) {
            Ok(sink) => Ok(MemLink {
                source: SureSource::new(bytes),
                sink,
                piece,
                ended: false,
                plan: Plan::new(alloc),
                address,
                number: None,
                start: 0,
            }),
            Err(_) => Err(Memory),
        }
    }

    /// From now on the calls of these numbers fail, counted from 0 since it was made.
    pub fn plan_faults(&mut self, calls: Vec<u64>)
        ensures planned { self.new ≡ record self.old { planned = calls.items } }
    {
        self.plan.calls = calls;
    }

    /// The bytes that were written to it.
    pub fn written(&self) -> &[u8]
        ensures { result.now ≡ self.now.written }
    {
        self.sink.bytes()
    }

    /// Whether no call was made of it.
    pub fn is_unused(&self) -> bool
        ensures unused { IsTrue result ↔ IsUnused self.now }
        ensures fresh { IsTrue result → (self.now.given ≡ []) × (self.now.written ≡ []) }
    {
        self.plan.made == 0 && !self.ended
    }

    /// Whether its count of faults rose since it was dialled or accepted.
    pub fn has_risen(&self) -> bool
        ensures { IsTrue result ↔ HasRisen self.now }
    {
        self.start.saturating_add(1) <= self.plan.faults
    }

    // Notes where it comes from, and its count of faults then.
    pub(crate) fn start(&mut self, address: &str, number: Option<u64>)
        requires fits { length address.now ≤ MAX_ADDRESS_BYTES }
        ensures { self.new ≡ record self.old { address = address.now; number = number; start = self.old.faults } }
    {
        self.address.clear();
        let _fits = self.address.extend_from_slice(address.as_bytes());
        self.number = number;
        self.start = self.plan.faults;
    }
}

impl Link for MemLink {
    ghost link = { link_view_of };

    fn read(&mut self, into: &mut [u8]) -> Result<usize, Failed>
        ensures receives { Receives (link_view_of self.old) (link_view_of self.new) result into.new }
        ensures fails { IsErr result ↔ (Contains self.old.planned self.old.made ⊎ IsTrue self.old.ended) }
        ensures most { IfOk result (λ n. n ≡ min (min (length into.old) self.old.piece) (length self.old.left)) }
        ensures planned { self.new.planned ≡ self.old.planned }
        ensures made { self.new.made ≡ count_fault self.old.made }
    {
        if self.plan.next() {
            return Err(self.plan.fail());
        }
        if self.ended {
            return Err(self.plan.fail());
        }
        let most = into.len().min(self.piece);
        self.source.read(&mut into[..most])
    }

    fn write(&mut self, bytes: &[u8]) -> Result<usize, Failed>
        ensures sends { Sends (link_view_of self.old) (link_view_of self.new) result bytes.now }
        ensures fails { IsErr result ↔ (Contains self.old.planned self.old.made ⊎ IsTrue self.old.ended
            ⊎ (min (length bytes.now) (self.old.room - length self.old.written) ≡ 0)) }
        ensures most { IfOk result (λ n. n ≡ min (length bytes.now) (self.old.room - length self.old.written)) }
        ensures room { self.new.room ≡ self.old.room }
        ensures planned { self.new.planned ≡ self.old.planned }
        ensures made { self.new.made ≡ count_fault self.old.made }
    {
        if self.plan.next() {
            return Err(self.plan.fail());
        }
        if self.ended {
            return Err(self.plan.fail());
        }
        match self.sink.write(bytes) {
            Ok(taken) => Ok(taken),
            Err(_) => Err(self.plan.fail()),
        }
    }

    fn end(&mut self)
        ensures ends { self.new ≡ record self.old { ended = true } }
    {
        self.ended = true;
    }
}
