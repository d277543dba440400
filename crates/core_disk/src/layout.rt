//! Where things stand in the areas of a core's disk.

/// The bytes of a node in the tree area. Node x stands at x times as many.
pub const NODE_BYTES: usize = 40;
/// Where the id stands in a header's payload: behind the version, which is one byte.
pub const ID_AT: usize = 1;
