//! A toy core under a lock, which threads share through a book of commits: the model of a shared log. Its call says what
//! the caller's pass has seen, which entry was added, and what a toy of one thread would have answered.
#![tactic(auto)]

mod event;
mod shared;
mod toy;

pub use event::{Event, Reply};
pub use shared::{SharedToy, ToyClose};
pub use toy::{MAX_LENGTH, Toy};
