//! The plan of a fetch: which index is asked for next, and which requests are in flight. For the sessions that fetch the
//! blocks of a range. The least index that is still to be looked at comes first, no index is asked for twice, and few
//! requests are in flight at once. Only `Plan::new` takes memory.
#![tactic(auto)]

mod in_flight;
mod laws;
mod plan;

pub use in_flight::MAX_IN_FLIGHT;
pub use laws::a_fetch_asks_for_what_is_missing;
pub use plan::{Look, Plan};
