//! The steps of a call, over the words and the regions of a pool and one seat.
ghost use Rattle.std.specs.Prelude.{◌≡◌, ◌<◌, ℕ, IsTrue, IsFalse, [], ◌∷◌, Some, None};
ghost use Rattle.region_pool.specs.Rule.{newcomer, without_part, with_parts, Taken, FoundHeld};
ghost use Rattle.region_pool.specs.History.{GoesOn};
ghost use Rattle.region_pool.specs.declared.event.Event.TheVariants.{Gave};

use crate::law::{Chair, Ends, Gives, Opens, Sheet, Tries};

/// A seat that holds nothing and has seen nothing.
pub(crate) fn open_chair<R>(sheet: &Sheet<R>, first: &mut Chair<R>) -> Chair<R>
    requires here { first.old.table_id ≡ sheet.now.shared.table_id }
    requires some { 0 < sheet.now.shared.table_id.words }
    requires empty { first.old.me.0.place ≡ None }
    requires part { 0 < first.old.me.0.parts }
    ensures first { (first.new.table_id ≡ first.old.table_id)
        × (first.new.me ≡ (without_part first.old.me.0, first.old.me.1)) }
    ensures chair { (result.table_id ≡ first.old.table_id) × (result.me ≡ (newcomer, [])) }
{
    sheet.shared.split_seat::<Opens>(first)
}

/// The parts of a seat go to the first one.
pub(crate) fn end_chair<R>(sheet: &Sheet<R>, first: &mut Chair<R>, chair: Chair<R>)
    requires here { first.old.table_id ≡ sheet.now.shared.table_id }
    requires there { chair.table_id ≡ sheet.now.shared.table_id }
    requires some { 0 < sheet.now.shared.table_id.words }
    requires empty { first.old.me.0.place ≡ None }
    requires bare { (chair.me.0.place ≡ None) × (chair.me.1 ≡ []) }
    ensures first { (first.new.table_id ≡ first.old.table_id)
        × (first.new.me ≡ (with_parts first.old.me.0 chair.me.0, first.old.me.1)) }
{
    sheet.shared.join_seat::<Ends>(first, chair);
}

/// Takes a place, or finds it held.
pub(crate) fn try_place<R>(sheet: &Sheet<R>, chair: &mut Chair<R>, place: usize) -> bool
    requires here { chair.old.table_id ≡ sheet.now.shared.table_id }
    requires even { sheet.now.shared.table_id.words ≡ sheet.now.shared.table_id.slots }
    requires within { place < sheet.now.shared.table_id.words }
    requires empty { chair.old.me.0.place ≡ None }
    requires part { 0 < chair.old.me.0.parts }
    ensures here { chair.new.table_id ≡ chair.old.table_id }
    ensures taken { IsTrue result → Taken place chair.old.me chair.new.me }
    ensures held { IsFalse result → FoundHeld place chair.old.me chair.new.me }
{
    sheet.shared.compare_exchange::<Tries>(chair, place, 0, 1) == 0
}

/// The region of the place that the seat holds.
pub(crate) fn take_out<R>(sheet: &Sheet<R>, chair: &mut Chair<R>, place: usize) -> R
    requires here { chair.old.table_id ≡ sheet.now.shared.table_id }
    requires carried { (x : R) × (chair.old.me.1 ≡ (place, Some x) ∷ []) }
    ensures here { chair.new.table_id ≡ chair.old.table_id }
    ensures me { chair.new.me ≡ (chair.old.me.0, (place, None) ∷ []) }
{
    match sheet.shared.exchange(chair, place, None) {
        Some(region) => region,
        None => unreachable!(),
    }
}

/// Lays the region into the place that the seat holds.
pub(crate) fn put_in<R>(sheet: &Sheet<R>, chair: &mut Chair<R>, place: usize, region: R)
    requires here { chair.old.table_id ≡ sheet.now.shared.table_id }
    requires carried { chair.old.me.1 ≡ (place, None) ∷ [] }
    ensures here { chair.new.table_id ≡ chair.old.table_id }
    ensures me { chair.new.me ≡ (chair.old.me.0, (place, Some region) ∷ []) }
{
    let left = sheet.shared.exchange(chair, place, Some(region));
    let None = left else { unreachable!() };
}

/// Gives the place back, with the region that lies in it.
pub(crate) fn free_place<R>(sheet: &Sheet<R>, chair: &mut Chair<R>, place: usize)
    requires here { chair.old.table_id ≡ sheet.now.shared.table_id }
    requires even { sheet.now.shared.table_id.words ≡ sheet.now.shared.table_id.slots }
    requires within { place < sheet.now.shared.table_id.words }
    requires place { chair.old.me.0.place ≡ Some place }
    requires carried { (x : R) × (chair.old.me.1 ≡ (place, Some x) ∷ []) }
    ensures here { chair.new.table_id ≡ chair.old.table_id }
    ensures seen { GoesOn chair.old.me.0.seen (Gave place) chair.new.me.0.seen }
    ensures empty { chair.new.me.0.place ≡ None }
    ensures part { chair.new.me.0.parts ≡ chair.old.me.0.parts }
    ensures bare { chair.new.me.1 ≡ [] }
{
    sheet.shared.store::<Gives>(chair, place, 0);
}
