//! A dial in memory, whose calls can be made to fail.
ghost use Rattle.std.specs.Prelude.{◌≡◌, ◌<◌, ◌⊎◌, ◌↔◌, [], None, IsErr, IfOk, OnOk, Contains, length};
ghost use Rattle.outside_traits.specs.Faults.{count_fault};
ghost use Rattle.link_traits.specs.declared.memory.TheConstants.{MAX_ADDRESS_BYTES};
ghost use Rattle.link_traits.specs.Dials.{HasOut, IsDialled, Dials, DialHangsUp};
ghost use Rattle.link_traits.specs.Memory.{MemDialView, dial_view_of, link_view_of, HasNext, IsNextAs, takes_next, puts_back};

use crate::dial::Dial;
use crate::memory::{MAX_ADDRESS_BYTES, MemLink};
use crate::supply::Supply;
use outside_traits::{Failed, Memory, Plan};
use std::alloc::Global;
use std::marker::Model;

/// A dial that gives these links in their order, whatever the address. A dialling fails where it is planned, at an
/// address of more than `MAX_ADDRESS_BYTES`, and where no link is left or the next one was used before, and nowhere else.
#[derive(Drop)]
pub struct MemDial {
    supply: Supply,
    plan: Plan,
}

impl Model for MemDial {
    ghost Value = { MemDialView };

    ghost view = { λ mem. record {
      supply = mem.supply;
      planned = mem.plan.calls.items;
      made = mem.plan.made;
      faults = mem.plan.faults;
    } };
}

impl MemDial {
    /// A dial with these links, for whose list it takes memory at once. No call is to fail.
    pub fn new(alloc: Global, links: Vec<MemLink>) -> Result<MemDial, Memory>
        ensures supply { IfOk result (λ dial. dial.supply ≡ record { left = links.items; hung_up = []; out = 0 }) }
        ensures planned { IfOk result (λ dial. dial.planned ≡ []) }
        ensures made { IfOk result (λ dial. dial.made ≡ 0) }
        ensures faults { IfOk result (λ dial. dial.faults ≡ 0) }
    {
        match Supply::new(alloc, links) {
            Ok(supply) => Ok(MemDial {
                supply,
                plan: Plan::new(alloc),
            }),
            Err(_) => Err(Memory),
        }
    }

    /// From now on the diallings of these numbers fail, counted from 0 since it was made.
    pub fn plan_faults(&mut self, calls: Vec<u64>)
        ensures planned { self.new ≡ record self.old { planned = calls.items } }
    {
        self.plan.calls = calls;
    }

    /// The links that were hung up, in order.
    pub fn hung_up(&self) -> &[MemLink]
        ensures { result.now ≡ self.now.supply.hung_up }
    {
        self.supply.hung_up()
    }
}

impl Dial for MemDial {
    type Link = MemLink;

    ghost dial = { dial_view_of };

    fn dial(&mut self, address: &str) -> Result<MemLink, Failed>
        ensures link { IfOk result (λ link. IsDialled (dial_view_of self.old) address.now (link_view_of link)) }
        ensures dials { Dials (dial_view_of self.old) (dial_view_of self.new) result }
        ensures fails { IsErr result ↔ (Contains self.old.planned self.old.made
            ⊎ (MAX_ADDRESS_BYTES < length address.now) ⊎ ¬ HasNext self.old.supply.left) }
        ensures next { IfOk result (λ link. IsNextAs self.old.supply.left address.now None link) }
        ensures takes { OnOk result (self.new.supply ≡ takes_next self.old.supply) }
        ensures planned { self.new.planned ≡ self.old.planned }
        ensures made { self.new.made ≡ count_fault self.old.made }
    {
        if self.plan.next() {
            return Err(self.plan.fail());
        }
        if address.len() > MAX_ADDRESS_BYTES {
            return Err(self.plan.fail());
        }
        let Some(mut link) = self.supply.take() else {
            return Err(self.plan.fail());
        };
        link.start(address, None);
        Ok(link)
    }

    fn hang_up(&mut self, link: MemLink)
        requires out { HasOut (dial_view_of self.old).links }
        ensures hangs_up { DialHangsUp (dial_view_of self.old) (dial_view_of self.new) (link_view_of link) }
        ensures puts { self.new.supply ≡ puts_back link self.old.supply }
        ensures planned { self.new.planned ≡ self.old.planned }
        ensures made { self.new.made ≡ self.old.made }
    {
        if link.has_risen() {
            self.plan.fail();
        }
        self.supply.put(link);
    }
}
