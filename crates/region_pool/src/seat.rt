//! What a thread takes and gives regions with.
use crate::law::Chair;
use std::marker::Model;

/// A right to take one region of a pool at a time. To a contract it is the beginning of the pool's history that it has
/// seen, and the place that it holds.
#[derive(Drop)]
pub struct PoolSeat<R> {
    pub(crate) chair: Chair<R>,
}

impl<R> Model for PoolSeat<R> {
    ghost use Rattle.region_pool.specs.Seats.{SeatView, IsSeated};

    ghost Value = { SeatView };

    ghost view = { λ s. record { pool = s.chair.table_id; seen = s.chair.me.0.seen; place = s.chair.me.0.place } };

    ghost invariant = { λ s. IsSeated s.chair };
}
