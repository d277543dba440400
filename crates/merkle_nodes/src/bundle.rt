//! What a proof bundle holds.
use crate::node::{Roots, Trail};
use crate::reading::Start;

/// A bundle that was read: a head with its roots, and a block with its index and trail.
#[derive(Drop)]
pub struct Bundle<'b> {
    pub start: Start,
    pub roots: Roots,
    pub trail: Trail,
    pub block: &'b [u8],
}
