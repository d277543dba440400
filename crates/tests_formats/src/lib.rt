//! Tests of the crates of streams, hashes, trees, formats and histories: what no clause of theirs says. That calls
//! succeed with ample memory, that a fault of the outside is answered, and values from outside on the built program.
#![tactic(auto)]

#[cfg(test)]
mod bits;
#[cfg(test)]
mod bundles;
#[cfg(test)]
mod frames;
#[cfg(test)]
mod hash;
#[cfg(test)]
mod histories;
#[cfg(test)]
mod keys;
#[cfg(test)]
mod messages;
#[cfg(test)]
mod oplog;
#[cfg(test)]
mod streams;
