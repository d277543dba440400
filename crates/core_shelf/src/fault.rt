//! Why a shelf doesn't do a call, and why no core is made or opened by a name.
use node_set::CoreFault;

/// Why a shelf gives no list or no disk, or doesn't mark an id.
#[derive(Clone, Copy, Debug, PartialEq, Eq)]
pub enum ShelfFault {
    /// Want of memory.
    Memory,
    /// A call of the outside failed. The shelf's count of faults rose.
    Failed,
}

/// Why no core is made or opened by a name.
#[derive(Clone, Copy, Debug, PartialEq, Eq)]
pub enum NamedFault {
    /// The core's id isn't on the list.
    NoCore,
    /// The core's id is on the list.
    CoreExists,
    /// Want of memory, `StoreFault` where the shelf's count of faults rose, or what the core says of its disk.
    Core(CoreFault),
}
