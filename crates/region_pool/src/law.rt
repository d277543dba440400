//! The rule that the words of a pool keep.
use crate::event::Event;
use atomic_table::{Join, Play, Seat, Split, Table, TableRule};
use std::alloc::Global;
use std::collections::LinkedList;

/// What a seat knows. No value of it is made.
pub(crate) struct Known {
    /// A beginning of the history.
    pub seen: LinkedList<Event>,
    /// The place that it holds.
    pub place: Option<usize>,
    /// Its parts of the right to close the pool.
    pub parts: usize,
}

/// The most seats that a pool has.
pub const MAX_SEATS: usize = 65_536;

/// The rule of the words, one for each place: 0 where it is free, and its region is at home.
pub(crate) struct Law;

impl<R> TableRule<Option<R>, Known, ()> for Law {
    ghost use Rattle.region_pool.specs.Rule.{Kept, founder};

    ghost holds = { λ _. Kept };

    ghost first = { λ _. founder };
}

/// The words and the regions of a pool.
pub(crate) type Sheet<R> = Table<Option<R>, Known, (), Law, Global>;

pub(crate) type Chair<R> = Seat<Option<R>, Known>;

/// A seat begins, with one part of the first seat's.
pub(crate) struct Opens;

impl Split<Known> for Opens {
    ghost use Rattle.region_pool.specs.Rule.{newcomer, without_part};

    ghost left = { without_part };

    ghost right = { λ v. newcomer };
}

/// A seat ends, and its parts go to the first seat.
pub(crate) struct Ends;

impl Join<Known> for Ends {
    ghost use Rattle.region_pool.specs.Rule.{nobody, with_parts};

    ghost both = { with_parts };

    ghost spent = { nobody };
}

/// A place is tried: it is taken, or found held.
pub(crate) struct Tries;

impl<R> Play<Option<R>, Known> for Tries {
    ghost use Rattle.region_pool.specs.Rule.{Tried};

    ghost then = { Tried };
}

/// A place is given back.
pub(crate) struct Gives;

impl<R> Play<Option<R>, Known> for Gives {
    ghost use Rattle.region_pool.specs.Rule.{Given};

    ghost then = { Given };
}
