//! The two faults that every crate knows.

/// A call of the outside failed. Its object's count of faults rose in that call.
#[derive(Clone, Copy, Debug, PartialEq, Eq)]
pub struct Failed;

/// Want of memory. The call that answers it changed nothing, unless its own words say otherwise.
#[derive(Clone, Copy, Debug, PartialEq, Eq)]
pub struct Memory;
