/// The most blocks that a core has.
pub const MAX_BLOCKS: u64 = 1 << MAX_SIBLINGS;
/// The most siblings between a block and the full root over it.
pub const MAX_SIBLINGS: usize = 20;
/// The most full roots that a core has: no more than its length has digits, or one.
pub const MAX_ROOTS: usize = MAX_SIBLINGS;
/// The most nodes that one part of an upgrade has: subtrees that rise in depth, and then fall.
pub const MAX_UPGRADE_NODES: usize = 2 * MAX_SIBLINGS;
/// The most nodes that one admission adds.
pub const MAX_FRESH_NODES: usize = 128;
/// The most bytes that a block has.
pub const MAX_BLOCK_BYTES: u64 = 1_048_576;
/// The most bytes that a core has, and so the largest size of a node.
pub const MAX_CORE_BYTES: u64 = 1 << 40;
/// The largest fork.
pub const MAX_FORK: u64 = 4_294_967_295;
/// The most blocks that one commit of an append adds.
pub const MAX_BATCH_BLOCKS: usize = 1_024;
/// The most bytes that one commit of an append adds.
pub const MAX_BATCH_BYTES: u64 = 8_388_608;
/// The largest depth that `index` is asked for.
pub const MAX_DEPTH: u32 = 32;
/// The most blocks that roots and covers are asked for.
pub const MAX_COUNT: u64 = 1 << MAX_DEPTH;
/// The most nodes of a cover of so many blocks.
pub const MAX_PLACES: usize = 2 * MAX_DEPTH as usize;
/// The largest node whose parent and sibling are asked for, so that theirs fit.
pub const MAX_NODE: u64 = (1 << 62) - 1;
