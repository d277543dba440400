//! What takes blocks away: truncation, clearing, and another log under a greater fork. Each call tells what a core is about
//! to change, and changes nothing. No call takes memory.
#![tactic(auto)]

mod clearing;
mod truncation;

pub use clearing::clear;
pub use truncation::truncate;
