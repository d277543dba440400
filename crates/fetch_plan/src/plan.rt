//! Which index is asked for next.
ghost use Rattle.std.specs.Prelude.{◌≡◌, ◌<◌, ◌≤◌, nat_eq, length, IfOk, IfSome};
ghost use Rattle.std.specs.Map.{lookup};
ghost use Rattle.fetch_plan.specs.declared.in_flight.TheConstants.{MAX_IN_FLIGHT as most};
ghost use Rattle.fetch_plan.specs.Plan.{plan_of, after_pass, after_ask, after_answer, Looks};

use crate::in_flight::{InFlight, MAX_IN_FLIGHT};
use outside_traits::Memory;
use std::alloc::Global;
use std::marker::Model;

/// What is to be done next in a fetch.
#[derive(Clone, Copy, Debug, PartialEq, Eq)]
pub enum Look {
    /// This index is to be passed over or asked for.
    Next { index: u64 },
    /// An answer has to come first.
    Wait,
    /// Nothing: each index was looked at, and each request answered.
    Done,
}

/// The plan of a fetch of a range of indices.
#[derive(Drop)]
pub struct Plan {
    next: u64,
    to: u64,
    last: u64,
    in_flight: InFlight,
}

impl Model for Plan {
    ghost use Rattle.fetch_plan.specs.Plan.{PlanView, IsPlan};

    ghost Value = { PlanView };

    ghost view = { λ plan. record { next = plan.next; to = plan.to; last = plan.last; in_flight = plan.in_flight } };

    ghost invariant = { λ plan. IsPlan plan.next plan.last plan.in_flight };
}

impl Plan {
    /// The plan of the indices from..to, of which none was looked at.
    pub fn new(alloc: Global, from: u64, to: u64) -> Result<Plan, Memory>
        ensures { IfOk result (λ plan. plan ≡ plan_of from to) }
    {
        match InFlight::new(alloc) {
            Ok(in_flight) => Ok(Plan {
                next: from,
                to,
                last: 0,
                in_flight,
            }),
            Err(fault) => Err(fault),
        }
    }

    /// What is to be done next.
    pub fn look(&self) -> Look
        ensures { Looks self.now result }
    {
        let count = self.in_flight.len();
        if self.next < self.to && count < MAX_IN_FLIGHT {
            return Look::Next { index: self.next };
        }
        if count > 0 { Look::Wait } else { Look::Done }
    }

    /// Passes the next index over.
    pub fn pass(&mut self)
        requires left { self.old.next < self.old.to }
        ensures { self.new ≡ after_pass self.old }
    {
        self.next += 1;
    }

    /// Puts a request for the next index in flight, and gives its id: the next one, from 1 on.
    pub fn ask(&mut self) -> u64
        requires left { self.old.next < self.old.to }
        requires room { length self.old.in_flight < most }
        ensures id { result ≡ self.new.last }
        ensures asks { self.new ≡ after_ask self.old }
        ensures few { result ≤ self.new.next }
    {
        self.last += 1;
        self.in_flight.put(self.last, self.next);
        self.next += 1;
        self.last
    }

    /// Takes the request of an id out of flight, and gives the index that it asked for; `None` where it isn't in flight.
    pub fn answered(&mut self, id: u64) -> Option<u64>
        ensures index { result ≡ lookup (nat_eq id) self.old.in_flight }
        ensures rest { self.new ≡ after_answer id self.old }
        ensures looked_at { IfSome result (λ index. index < self.old.next) }
    {
        self.in_flight.take(id)
    }
}
