//! Whether a proof from a stranger is admitted, and what it changes, decided over any view of one log: by its numbers
//! first, then by how each of its parts meets the nodes that the log after its upgrade stores, by its signature, and by
//! the byte that it seeks. A core writes the change that `judge` answers, and applies it.
#![tactic(auto)]

mod admission;
mod fresh;
mod judging;
mod laws;
mod numbers;
mod part;
mod parts;
mod seek;
mod signed;
mod upgrade;

pub use fresh::{gather, put_fresh};
pub use judging::{MAX_COMING_NODES, judge};
pub use laws::{numbers_come_first, what_numbers_leave};
pub use numbers::refused_by_numbers;
pub use part::{MAX_WAY_NODES, Meeting, PartPath, Way, meet};
pub use parts::meet_parts;
pub use seek::refused_by_seek;
pub use signed::refused_by_verifier;
pub use upgrade::{LogAfter, MAX_LAID_NODES, lay_upgrade};
