//! The end of a pool, where all its seats are handed in.
ghost use Rattle.std.specs.Prelude.{◌≡◌, ◌<◌, ◌≤◌, ◌+◌, ℕ, [], None, Some, All, IfOk, IsErr, Err, length, vec_capacity};
ghost use lib.ListN.{get_elem?};
ghost use mathlib.Core.Option.{some};
ghost use Rattle.std.specs.Mem.Slots.{slots_items, slots_filled, slots_len, IsFull};
ghost use Rattle.region_pool.specs.Seats.{IsFirst, IsIdle, IsEmptied};

use crate::law::{Chair, Known, Sheet};
use crate::pool::Pool;
use crate::seat::PoolSeat;
use crate::steps::end_chair;
use atomic_table::{Badge, Closed};
use std::alloc::Global;
use std::marker::Model;

/// The right to close a pool, for one thread.
#[derive(Drop)]
pub struct PoolEnd {
    pub(crate) first: Badge<Known>,
    pub(crate) seats: usize,
}

impl Model for PoolEnd {
    ghost use Rattle.region_pool.specs.Seats.{EndView, IsEnd};

    ghost Value = { EndView };

    ghost view = { λ e. record { pool = e.first.table_id; seats = e.seats } };

    ghost invariant = { λ e. IsEnd e.first e.seats };
}

/// Why a pool wasn't closed. The right, the pool and the seats come back.
#[derive(Drop)]
pub enum PoolClose<R: Drop> {
    /// Out of memory for the list of the regions.
    Memory {
        end: PoolEnd,
        pool: Pool<R>,
        seats: Vec<PoolSeat<R>>,
    },
    /// There are fewer seats than were made: so many.
    NotAll {
        have: usize,
        end: PoolEnd,
        pool: Pool<R>,
        seats: Vec<PoolSeat<R>>,
    },
}

impl PoolEnd {
    /// All regions of the pool, once all its seats are handed in, each of which holds nothing.
    pub fn close<R: Drop>(
        self,
        alloc: Global,
        pool: Pool<R>,
        seats: Vec<PoolSeat<R>>,
    ) -> Result<Vec<R>, PoolClose<R>>
        requires pool { pool.pool ≡ self.pool }
        requires idle { All (IsIdle self.pool) seats.items }
        ensures all { IfOk result (λ regions. length regions.items ≡ pool.places) }
        ensures not_all { length seats.items < self.seats
            → result ≡ Err (PoolClose.NotAll (length seats.items) self pool seats) }
        ensures memory { self.seats ≤ length seats.items → IsErr result
            → result ≡ Err (PoolClose.Memory self pool seats) }
    {
        if seats.len() < self.seats {
            return Err(PoolClose::NotAll {
                have: seats.len(),
                end: self,
                pool,
                seats,
            });
        }
        match Vec::with_capacity(alloc, pool.places) {
            Ok(regions) => Ok(self.end(pool, seats, regions)),
            Err(_) => Err(PoolClose::Memory {
                end: self,
                pool,
                seats,
            }),
        }
    }

    fn end<R: Drop>(self, pool: Pool<R>, seats: Vec<PoolSeat<R>>, mut regions: Vec<R>) -> Vec<R>
        requires pool { pool.pool ≡ self.pool }
        requires idle { All (IsIdle self.pool) seats.items }
        requires all { self.seats ≤ length seats.items }
        requires none { regions.items ≡ [] }
        requires room { pool.places ≤ vec_capacity regions }
        ensures { length result.items ≡ pool.places }
    {
        let PoolEnd { first, seats: _ } = self;
        let Pool { sheet, places } = pool;
        let mut first = first.into_seat();
        gather(&sheet, &mut first, seats);
        let mut closed = sheet.close_with(first);
        take_all(&mut closed, places, &mut regions);
        closed.free();
        regions
    }
}

// The parts of all seats go to the first one.
fn gather<R>(sheet: &Sheet<R>, first: &mut Chair<R>, mut seats: Vec<PoolSeat<R>>)
    requires some { 0 < sheet.now.shared.table_id.words }
    requires first { IsFirst sheet.now.shared.table_id first.old first.old.me.0.parts }
    requires idle { All (IsIdle sheet.now.shared.table_id) seats.items }
    ensures { IsFirst sheet.now.shared.table_id first.new (first.old.me.0.parts + length seats.items) }
{
    while let Some(seat) = seats.pop() {
        let PoolSeat { chair } = seat;
        end_chair(sheet, first, chair);
    }
}

// Takes the regions, all of which are at home.
fn take_all<R: Drop>(closed: &mut Closed<Option<R>, Global>, places: usize, regions: &mut Vec<R>)
    requires places { places ≡ slots_len closed.old.slots }
    requires full { IsFull closed.old.slots }
    requires home { (place : ℕ) → place < places
        → (x : R) × (get_elem? (slots_items closed.old.slots) place ≡ some (Some x)) }
    requires empty { regions.old.items ≡ [] }
    requires room { places ≤ vec_capacity regions.old }
    ensures all { length regions.new.items ≡ places }
    ensures taken { IsEmptied (slots_filled closed.new.slots) (slots_len closed.new.slots) }
{
    for place in 0..places {
        let Some(region) = closed.take(place) else {
            unreachable!()
        };
        let _fits = regions.push(region);
    }
}
