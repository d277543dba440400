//! Sets of the places below a count, as what a core holds of its blocks: a bit for each place, in
//! words of 64 and whole pages of 4,096 bytes. For the crates that keep, search or send what is
//! held. Ranges, searches, counts and pages go by whole words. Only `new` and `grow` take memory.
#![tactic(auto)]

mod bits;
mod page;
mod range;
mod search;
mod words;

pub use bits::{Bits, MAX_PLACES};
pub use page::{PAGE_BYTES, PAGE_PLACES};
