//! A pool of regions that threads share: each region has a place, which at most one seat holds, and taking and giving
//! take no memory and don't wait. Every taking and giving is one step of one history.
#![tactic(auto)]

mod close;
mod event;
mod law;
mod laws;
mod opening;
mod pool;
mod seat;
mod steps;

pub use close::{PoolClose, PoolEnd};
pub use event::Event;
pub use law::MAX_SEATS;
pub use laws::held_once;
pub use opening::start;
pub use pool::{Held, Pool};
pub use seat::PoolSeat;
