//! A source and a sink in memory, whose calls can be made to fail.
ghost use Rattle.std.specs.Prelude.{◌≡◌, ◌≤◌, ◌<◌, ◌-◌, ◌⊎◌, ◌↔◌, ℕ, List, [], Ok, IsErr, IfOk, Contains, take, drop, length, vec_capacity, min};
ghost use Rattle.outside_traits.specs.Faults.{count_fault};
ghost use Rattle.outside_traits.specs.Streams.{Reads, Writes};
ghost use Rattle.outside_traits.specs.Memory.{MemSourceView, source_view_of, MemSinkView, sink_view_of};

use crate::blob::Blob;
use crate::failed::{Failed, Memory};
use crate::plan::Plan;
use crate::sink::Sink;
use crate::source::Source;
use crate::sure::SureSource;
use std::alloc::Global;
use std::marker::Model;

/// A source that gives these bytes, and fails at the calls that are planned, and nowhere else.
#[derive(Drop)]
pub struct MemSource {
    source: SureSource,
    plan: Plan,
}

impl Model for MemSource {
    ghost Value = { MemSourceView };

    ghost view = { λ mem. record {
      given = mem.source.given;
      left = mem.source.left;
      planned = mem.plan.calls.items;
      made = mem.plan.made;
      faults = mem.plan.faults;
    } };
}

impl MemSource {
    /// A source that gives `bytes`. No call is to fail.
    pub fn new(alloc: Global, bytes: Blob) -> MemSource
        ensures given { result.given ≡ [] }
        ensures left { result.left ≡ bytes }
        ensures planned { result.planned ≡ [] }
        ensures made { result.made ≡ 0 }
        ensures faults { result.faults ≡ 0 }
    {
        MemSource {
            source: SureSource::new(bytes),
            plan: Plan::new(alloc),
        }
    }

    /// From now on the calls of these numbers fail, counted from 0 since it was made.
    pub fn plan_faults(&mut self, calls: Vec<u64>)
        ensures planned { self.new ≡ record self.old { planned = calls.items } }
    {
        self.plan.calls = calls;
    }
}

impl Source for MemSource {
    ghost source = { source_view_of };

    fn read(&mut self, into: &mut [u8]) -> Result<usize, Failed>
        ensures reads { Reads (source_view_of self.old) (source_view_of self.new) result into.new }
        ensures fails { IsErr result ↔ Contains self.old.planned self.old.made }
        ensures planned { self.new.planned ≡ self.old.planned }
        ensures made { self.new.made ≡ count_fault self.old.made }
        ensures most { IfOk result (λ n. n ≡ min (length into.old) (length self.old.left)) }
    {
        if self.plan.next() {
            return Err(self.plan.fail());
        }
        self.source.read(into)
    }
}

/// A sink that holds what it was given, up to its room, and fails at the calls that are planned, where no room is
/// left, and at an empty piece, and nowhere else.
#[derive(Drop)]
pub struct MemSink {
    held: Vec<u8>,
    room: usize,
    plan: Plan,
}

impl Model for MemSink {
    ghost Value = { MemSinkView };

    ghost view = { λ sink. record {
      holds = sink.held.items;
      room = sink.room;
      planned = sink.plan.calls.items;
      made = sink.plan.made;
      faults = sink.plan.faults;
    } };

    ghost invariant = { λ sink. sink.room ≤ vec_capacity sink.held };
}

impl MemSink {
    /// An empty sink with room for so many bytes, which it takes at once. No call is to fail.
    pub fn new(alloc: Global, room: usize) -> Result<MemSink, Memory>
        ensures holds { IfOk result (λ sink. sink.holds ≡ []) }
        ensures room { IfOk result (λ sink. sink.room ≡ room) }
        ensures planned { IfOk result (λ sink. sink.planned ≡ []) }
        ensures made { IfOk result (λ sink. sink.made ≡ 0) }
        ensures faults { IfOk result (λ sink. sink.faults ≡ 0) }
    {
        match Vec::with_capacity(alloc, room) {
            Ok(held) => Ok(MemSink {
                held,
                room,
                plan: Plan::new(alloc),
            }),
            Err(_) => Err(Memory),
        }
    }

    /// From now on the calls of these numbers fail, counted from 0 since it was made.
    pub fn plan_faults(&mut self, calls: Vec<u64>)
        ensures planned { self.new ≡ record self.old { planned = calls.items } }
    {
        self.plan.calls = calls;
    }

    /// The bytes that it holds.
    pub fn bytes(&self) -> &[u8]
        ensures { result.now ≡ self.now.holds }
    {
        self.held.as_slice()
    }
}

impl Sink for MemSink {
    ghost sink = { sink_view_of };

    fn write(&mut self, bytes: &[u8]) -> Result<usize, Failed>
        ensures writes { Writes (sink_view_of self.old) (sink_view_of self.new) result bytes.now }
        ensures fails { IsErr result ↔ (Contains self.old.planned self.old.made
            ⊎ (min (length bytes.now) (self.old.room - length self.old.holds) ≡ 0)) }
        ensures most { IfOk result (λ n. n ≡ min (length bytes.now) (self.old.room - length self.old.holds)) }
        ensures room { self.new.room ≡ self.old.room }
        ensures planned { self.new.planned ≡ self.old.planned }
        ensures made { self.new.made ≡ count_fault self.old.made }
    {
        if self.plan.next() {
            return Err(self.plan.fail());
        }
        let n = bytes.len().min(self.room.saturating_sub(self.held.len()));
        if n == 0 || self.held.extend_from_slice(&bytes[..n]).is_err() {
            return Err(self.plan.fail());
        }
        Ok(n)
    }
}
