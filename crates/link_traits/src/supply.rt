//! The links of a dial or of a listen in memory.
ghost use Rattle.std.specs.Prelude.{◌≡◌, ◌≤◌, ◌<◌, ◌+◌, ◌↔◌, [], IsSome, IfSome, OnSome, IfNone, IfOk, length, slice_index_or, vec_capacity};
ghost use Rattle.link_traits.specs.Memory.{SupplyView, HasNext, next_number, takes_next, puts_back};

use crate::memory::MemLink;
use outside_traits::Memory;
use std::alloc::Global;
use std::marker::Model;

/// Links that are given out in their order, and taken back.
#[derive(Drop)]
pub(crate) struct Supply {
    links: Vec<MemLink>,
    hung_up: Vec<MemLink>,
    out: usize,
}

impl Model for Supply {
    ghost Value = { SupplyView };

    ghost view = { λ supply. record { left = supply.links.items; hung_up = supply.hung_up.items; out = supply.out } };

    ghost invariant = { λ supply. length supply.links.items + supply.out + length supply.hung_up.items ≤ vec_capacity supply.hung_up };
}

impl Supply {
    // Takes the memory for hanging up at once.
    pub(crate) fn new(alloc: Global, links: Vec<MemLink>) -> Result<Supply, Memory>
        ensures { IfOk result (λ supply. supply ≡ record { left = links.items; hung_up = []; out = 0 }) }
    {
        match Vec::with_capacity(alloc, links.len()) {
            Ok(hung_up) => Ok(Supply {
                links,
                hung_up,
                out: 0,
            }),
            Err(_) => Err(Memory),
        }
    }

    // The next link, unless there is none or it was used before.
    pub(crate) fn take(&mut self) -> Option<MemLink>
        ensures next { IsSome result ↔ HasNext self.old.left }
        ensures first { IfSome result (λ link. link ≡ slice_index_or self.old.left 0 link) }
        ensures fresh { IfSome result (λ link. (link.given ≡ []) × (link.written ≡ [])) }
        ensures some { OnSome result (self.new ≡ takes_next self.old) }
        ensures none { IfNone result (self.new ≡ self.old) }
    {
        if self.links.is_empty() || !self.links[0].is_unused() {
            return None;
        }
        self.out += 1;
        Some(self.links.remove(0))
    }

    // The number of the next link, counted from 1.
    pub(crate) fn next_number(&self) -> u64
        ensures { result ≡ next_number self.now }
    {
        (self.hung_up.len() + self.out + 1) as u64
    }

    pub(crate) fn put(&mut self, link: MemLink)
        requires out { 0 < self.old.out }
        ensures { self.new ≡ puts_back link self.old }
    {
        self.out -= 1;
        let _fits = self.hung_up.push(link);
    }

    pub(crate) fn hung_up(&self) -> &[MemLink]
        ensures { result.now ≡ self.now.hung_up }
    {
        self.hung_up.as_slice()
    }
}
