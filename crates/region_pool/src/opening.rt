//! A pool and its seats, which are made together.
ghost use Rattle.std.specs.Prelude.{◌≡◌, ◌-◌, ◌<◌, ◌≤◌, [], Some, OnOk, IfOk, length, map, replicate};
ghost use Rattle.region_pool.specs.declared.law.TheConstants.{MAX_SEATS};
ghost use Rattle.region_pool.specs.Seats.{new_seat, IsFirst};

use crate::close::PoolEnd;
use crate::law::{Chair, Sheet};
use crate::pool::Pool;
use crate::seat::PoolSeat;
use crate::steps::open_chair;
use atomic_table::Table;
use outside_traits::Memory;
use std::alloc::{AllocError, Global};

/// A pool of these regions, so many seats, at most `MAX_SEATS`, and the right to close it. But for the list that
/// closing it makes, the pool takes all its memory here.
pub fn start<R: Drop>(
    alloc: Global,
    regions: Vec<R>,
    seats: usize,
) -> Result<(Pool<R>, Vec<PoolSeat<R>>, PoolEnd), Memory>
    requires some { 0 < length regions.items }
    requires few { seats ≤ MAX_SEATS }
    ensures places { IfOk result (λ made. made.0.places ≡ length regions.items) }
    ensures end { IfOk result (λ made. made.2 ≡ record { pool = made.0.pool; seats = seats }) }
    ensures seats { IfOk result (λ made. made.1.items ≡ replicate seats (new_seat made.0.pool)) }
{
    match start_all(alloc, regions, seats) {
        Ok(made) => Ok(made),
        Err(_) => Err(Memory),
    }
}

fn start_all<R: Drop>(
    alloc: Global,
    regions: Vec<R>,
    seats: usize,
) -> Result<(Pool<R>, Vec<PoolSeat<R>>, PoolEnd), AllocError>
    requires some { 0 < length regions.items }
    requires few { seats ≤ MAX_SEATS }
    ensures places { IfOk result (λ made. made.0.places ≡ length regions.items) }
    ensures end { IfOk result (λ made. made.2 ≡ record { pool = made.0.pool; seats = seats }) }
    ensures seats { IfOk result (λ made. made.1.items ≡ replicate seats (new_seat made.0.pool)) }
{
    let places = regions.len();
    let (sheet, mut first) = lay(alloc, regions)?;
    let list = open_seats(alloc, &sheet, &mut first, seats)?;
    let end = PoolEnd {
        first: first.into_badge(),
        seats,
    };
    Ok((Pool { sheet, places }, list, end))
}

fn lay<R: Drop>(alloc: Global, regions: Vec<R>) -> Result<(Sheet<R>, Chair<R>), AllocError>
    ensures words { IfOk result (λ laid. laid.0.shared.table_id.words ≡ length regions.items) }
    ensures slots { IfOk result (λ laid. laid.0.shared.table_id.slots ≡ length regions.items) }
    ensures first { IfOk result (λ laid. IsFirst laid.0.shared.table_id laid.1 MAX_SEATS) }
{
    let words = vec![in alloc; 0u64; regions.len()]?;
    let slots = fill_slots(alloc, regions)?;
    match Table::new(alloc, words.as_slice(), slots, &()) {
        Ok(laid) => Ok(laid),
        Err(_) => Err(AllocError),
    }
}

fn fill_slots<R: Drop>(alloc: Global, regions: Vec<R>) -> Result<Vec<Option<R>>, AllocError>
    ensures { IfOk result (λ slots. slots.items ≡ map Some regions.items) }
{
    let mut slots = Vec::with_capacity(alloc, regions.len())?;
    for region in regions {
        slots.push(Some(region))?;
    }
    Ok(slots)
}

fn open_seats<R: Drop>(
    alloc: Global,
    sheet: &Sheet<R>,
    first: &mut Chair<R>,
    seats: usize,
) -> Result<Vec<PoolSeat<R>>, AllocError>
    requires some { 0 < sheet.now.shared.table_id.words }
    requires first { IsFirst sheet.now.shared.table_id first.old MAX_SEATS }
    requires few { seats ≤ MAX_SEATS }
    ensures first { OnOk result (IsFirst sheet.now.shared.table_id first.new (MAX_SEATS - seats)) }
    ensures list { IfOk result (λ list. list.items ≡ replicate seats (new_seat sheet.now.shared.table_id)) }
{
    let mut list = Vec::with_capacity(alloc, seats)?;
    for _i in 0..seats {
        let chair = open_chair(sheet, first);
        list.push(PoolSeat { chair })?;
    }
    Ok(list)
}
