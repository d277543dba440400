//! Why a call on files isn't done.

/// Why a read or a write moved no byte.
#[derive(Clone, Copy, Debug, PartialEq, Eq)]
pub enum CallFault {
    /// A signal came first. The call is to be made again.
    Interrupted,
    /// The call failed. The files' count of faults rose.
    Failed,
}

/// Why a file isn't opened.
#[derive(Clone, Copy, Debug, PartialEq, Eq)]
pub enum OpenFault {
    /// Out of memory.
    Memory,
    /// The call failed, or another program has the files. The files' count of faults rose.
    Failed,
}
