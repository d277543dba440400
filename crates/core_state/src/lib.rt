//! The state machine of a log: what a core answers to each event, for every kind of core by one trait, and the core in
//! memory.
#![tactic(auto)]

mod acting;
mod admit;
mod append;
mod cut;
mod event;
mod log_core;
mod mem_core;
mod open_core;
mod playing;
mod stored;

pub use acting::act;
pub use append::push_all;
pub use event::{Event, Reply};
pub use log_core::Core;
pub use mem_core::MemCore;
pub use open_core::OpenCore;
pub use playing::{Kept, Replies, Step, Steps, play, status};
pub use stored::signature_of;
