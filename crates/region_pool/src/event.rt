//! One change of a pool.

/// One change of a pool, by the number of the place.
#[derive(Clone, Copy, Debug, PartialEq, Eq)]
pub enum Event {
    /// The place was free and is held from then on.
    Took { place: usize },
    /// The place was held and is free from then on.
    Gave { place: usize },
}
