//! Regions that threads take and give.
ghost use Rattle.std.specs.Prelude.{◌≡◌, ◌<◌, Some, None, IfSome, IfNone};
ghost use Rattle.region_pool.specs.Seats.{TakesPlace, GivesPlace, FindsHeld, FindsPlaceHeld};

use crate::law::Sheet;
use crate::seat::PoolSeat;
use crate::steps::{free_place, put_in, take_out, try_place};
use std::marker::Model;

/// A region that was taken, and the number of its place.
#[derive(Drop)]
pub struct Held<R> {
    pub place: usize,
    pub value: R,
}

/// Some regions, each in a place of its own. No call takes memory, waits, or runs on without end.
#[derive(Drop)]
pub struct Pool<R> {
    pub(crate) sheet: Sheet<R>,
    pub(crate) places: usize,
}

impl<R> Model for Pool<R> {
    ghost use Rattle.region_pool.specs.Seats.{PoolView, IsLaid};

    ghost Value = { PoolView };

    ghost view = { λ p. record { pool = p.sheet.shared.table_id; places = p.places } };

    ghost invariant = { λ p. IsLaid p.sheet.shared.table_id p.places };
}

impl<R> Pool<R> {
    /// How many regions it has, those that are held too.
    pub fn places(&self) -> usize
        ensures { result ≡ self.now.places }
    {
        self.places
    }

    /// A region that no seat holds. `None` where each place was found held by a step of this call.
    pub fn take(&self, seat: &mut PoolSeat<R>) -> Option<Held<R>>
        requires pool { seat.old.pool ≡ self.now.pool }
        requires empty { seat.old.place ≡ None }
        ensures within { IfSome result (λ held. held.place < self.now.places) }
        ensures takes { IfSome result (λ held. TakesPlace held.place seat.old seat.new) }
        ensures none { IfNone result (FindsHeld self.now.places seat.old seat.new) }
    {
        for place in 0..self.places {
            if let Some(value) = self.take_at(seat, place) {
                return Some(Held { place, value });
            }
        }
        None
    }

    fn take_at(&self, seat: &mut PoolSeat<R>, place: usize) -> Option<R>
        requires pool { seat.old.pool ≡ self.now.pool }
        requires empty { seat.old.place ≡ None }
        requires within { place < self.now.places }
        ensures takes { IfSome result (λ value. TakesPlace place seat.old seat.new) }
        ensures none { IfNone result (FindsPlaceHeld place seat.old seat.new) }
    {
        if try_place(&self.sheet, &mut seat.chair, place) {
            return Some(take_out(&self.sheet, &mut seat.chair, place));
        }
        None
    }

    /// Gives back the region that the seat holds.
    pub fn give(&self, seat: &mut PoolSeat<R>, held: Held<R>)
        requires pool { seat.old.pool ≡ self.now.pool }
        requires place { seat.old.place ≡ Some held.place }
        ensures gives { GivesPlace held.place seat.old seat.new }
    {
        let Held { place, value } = held;
        put_in(&self.sheet, &mut seat.chair, place, value);
        free_place(&self.sheet, &mut seat.chair, place);
    }
}
