//! The state machine of a log: what a core answers to each event, for every kind of core. A core is a log, which may be
//! kept in memory or on a disk, with the authority that signs its heads; what an event comes to is decided once, over the
//! log as a view.
#![tactic(auto)]

mod appending;
mod core_calls;
mod event;
mod log;
mod log_core;
mod mem_log;

pub use appending::batch_of;
pub use core_calls::Core;
pub use event::{Event, Reply, Spot};
pub use log::{Blocks, Log};
pub use log_core::LogCore;
pub use mem_log::MemLog;
