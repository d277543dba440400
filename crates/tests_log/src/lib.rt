//! Tests of a log in memory and of what a core is built of: that each public call succeeds with ample memory, and a message
//! by the formulas of docs/FORMATS.md. What a contract says isn't tested.
#![tactic(auto)]

#[cfg(test)]
mod event_tests;
#[cfg(test)]
mod logs;
#[cfg(test)]
mod node_tests;
#[cfg(test)]
mod play_tests;
#[cfg(test)]
mod proof_tests;
