//! One change of a log, for every core: what an append, a truncation, a clearing and another log under a greater fork
//! come to, with the nodes that have to be written for it. Each call reads a view, changes nothing and takes no memory; a
//! core signs where the log is its own, writes the change, and applies it.
#![tactic(auto)]

mod appending;
mod change;
mod clearing;
mod laws;
mod reorganisation;
mod roots;
mod truncation;

pub use appending::append;
pub use change::{Indices, LogChange};
pub use clearing::clear;
pub use laws::{
    a_batch_in_order, a_change_leads_to_its_content, append_is_legal, clear_is_legal,
    fetch_is_legal, reorganise_is_legal, truncate_is_legal, upgrade_is_legal,
};
pub use reorganisation::{kept_under, reorganise};
pub use truncation::truncate;
