//! The commands that are built.

/// A command, with the values of its words.
#[derive(Clone, Copy, Debug, PartialEq, Eq)]
pub enum Command<'w> {
    /// Checks a proof bundle, and writes its block.
    Check {
        key: [u8; 32],
    },
    /// Writes the proof bundle of a block of the log that the input's lines are.
    Prove {
        key: [u8; 32],
        index: u64,
    },
    /// Makes the core of a name, and writes its id.
    Init {
        key: [u8; 32],
        name: &'w [u8],
    },
    /// Appends the input's lines to the core of a name, and writes its length and fork.
    Append {
        key: [u8; 32],
        name: &'w [u8],
    },
    /// Writes a block of the core of a name.
    Get {
        key: [u8; 32],
        name: &'w [u8],
        index: u64,
    },
}
