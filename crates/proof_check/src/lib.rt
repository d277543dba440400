//! Whether a proof from a stranger is admitted, and what it changes: the first refusal that holds, or the change.
#![tactic(auto)]

mod block;
mod fetching;
mod fresh;
mod heads;
mod held;
mod judging;
mod laws;
mod meet;
mod path;
mod prepared;
mod reach;
mod settle;
mod upgrade;

pub use judging::{judge, judge_into, no_change};
pub use laws::{admitted_stays_whole, covering_proofs_are_admitted};
pub use prepared::{Prepared, prepare};
