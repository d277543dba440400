//! A listen in memory, whose calls can be made to fail.
ghost use Rattle.std.specs.Prelude.{◌≡◌, ◌≤◌, ◌<◌, ◌⊎◌, ◌↔◌, [], Some, None, IsErr, IfOk, OnOk, IsNone, Contains, length, vec_capacity};
ghost use Rattle.outside_traits.specs.Faults.{count_fault};
ghost use Rattle.link_traits.specs.declared.memory.TheConstants.{MAX_ADDRESS_BYTES};
ghost use Rattle.link_traits.specs.Dials.{HasOut, Binds, IsAccepted, Accepts, ListenHangsUp};
ghost use Rattle.link_traits.specs.Memory.{MemListenView, bound_of, listen_view_of, link_view_of, HasNext, IsNextAs, next_number, takes_next, puts_back};

use crate::listen::Listen;
use crate::memory::{MAX_ADDRESS_BYTES, MemLink};
use crate::supply::Supply;
use outside_traits::{Failed, Memory, Plan};
use std::alloc::Global;
use std::marker::Model;

/// A listen that gives these links in their order. A binding fails where it is planned and at an address of more than
/// `MAX_ADDRESS_BYTES`. An accepting fails where it is planned, before the first binding, and where no link is left or
/// the next one was used before. None fails elsewhere. Both are counted together.
#[derive(Drop)]
pub struct MemListen {
    address: Vec<u8>,
    is_bound: bool,
    supply: Supply,
    plan: Plan,
}

impl Model for MemListen {
    ghost Value = { MemListenView };

    ghost view = { λ mem. record {
      bound = bound_of mem.is_bound mem.address.items;
      supply = mem.supply;
      planned = mem.plan.calls.items;
      made = mem.plan.made;
      faults = mem.plan.faults;
    } };

    ghost invariant = { λ mem. MAX_ADDRESS_BYTES ≤ vec_capacity mem.address };
}

impl MemListen {
    /// A listen with these links, for whose list it takes memory at once. No call is to fail.
    pub fn new(alloc: Global, links: Vec<MemLink>) -> Result<MemListen, Memory>
        ensures bound { IfOk result (λ listen. listen.bound ≡ None) }
        ensures supply { IfOk result (λ listen. listen.supply ≡ record { left = links.items; hung_up = []; out = 0 }) }
        ensures planned { IfOk result (λ listen. listen.planned ≡ []) }
        ensures made { IfOk result (λ listen. listen.made ≡ 0) }
        ensures faults { IfOk result (λ listen. listen.faults ≡ 0) }
    {
        let Ok(address) = Vec::with_capacity(alloc, MAX_ADDRESS_BYTES) else {
            return Err(Memory);
        };
        match Supply::new(alloc, links) {
            Ok(supply) => Ok(MemListen {
                address,
                is_bound: false,
                supply,
                plan: Plan::new(alloc),
            }),
            Err(_) => Err(Memory),
        }
    }

    /// From now on the calls of these numbers fail, counted from 0 since it was made.
    pub fn plan_faults(&mut self, calls: Vec<u64>)
        ensures planned { self.new ≡ record self.old { planned = calls.items } }
    {
        self.plan.calls = calls;
    }

    /// The links that were hung up, in order.
    pub fn hung_up(&self) -> &[MemLink]
        ensures { result.now ≡ self.now.supply.hung_up }
    {
        self.supply.hung_up()
    }
}

impl Listen for MemListen {
    type Link = MemLink;

    ghost listen = { listen_view_of };

    fn bind(&mut self, address: &str) -> Result<(), Failed>
        ensures binds { Binds (listen_view_of self.old) (listen_view_of self.new) address.now result }
        ensures fails { IsErr result ↔ (Contains self.old.planned self.old.made
            ⊎ (MAX_ADDRESS_BYTES < length address.now)) }
        ensures supply { self.new.supply ≡ self.old.supply }
        ensures planned { self.new.planned ≡ self.old.planned }
        ensures made { self.new.made ≡ count_fault self.old.made }
    {
        if self.plan.next() {
            return Err(self.plan.fail());
        }
        if address.len() > MAX_ADDRESS_BYTES {
            return Err(self.plan.fail());
        }
        self.address.clear();
        let _fits = self.address.extend_from_slice(address.as_bytes());
        self.is_bound = true;
        Ok(())
    }

    fn accept(&mut self) -> Result<MemLink, Failed>
        ensures link { IfOk result (λ link. IsAccepted (listen_view_of self.old) (link_view_of link)) }
        ensures accepts { Accepts (listen_view_of self.old) (listen_view_of self.new) result }
        ensures fails { IsErr result ↔ (Contains self.old.planned self.old.made
            ⊎ IsNone self.old.bound ⊎ ¬ HasNext self.old.supply.left) }
        ensures next { IfOk result (λ link. IsNextAs self.old.supply.left [] (Some (next_number self.old.supply)) link) }
        ensures takes { OnOk result (self.new.supply ≡ takes_next self.old.supply) }
        ensures planned { self.new.planned ≡ self.old.planned }
        ensures made { self.new.made ≡ count_fault self.old.made }
    {
        if self.plan.next() {
            return Err(self.plan.fail());
        }
        if !self.is_bound {
            return Err(self.plan.fail());
        }
        let number = self.supply.next_number();
        let Some(mut link) = self.supply.take() else {
            return Err(self.plan.fail());
        };
        link.start("", Some(number));
        Ok(link)
    }

    fn hang_up(&mut self, link: MemLink)
        requires out { HasOut (listen_view_of self.old).links }
        ensures hangs_up { ListenHangsUp (listen_view_of self.old) (listen_view_of self.new) (link_view_of link) }
        ensures puts { self.new.supply ≡ puts_back link self.old.supply }
        ensures planned { self.new.planned ≡ self.old.planned }
        ensures made { self.new.made ≡ self.old.made }
    {
        self.supply.put(link);
    }
}
