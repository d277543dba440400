//! How a command ends.
ghost use Rattle.std.specs.Prelude.{◌≡◌};

use disk_trait::Area;
use merkle_nodes::{Node, What};
use node_set::Place;

/// How a command ends.
#[derive(Clone, Copy, Debug, PartialEq, Eq)]
pub enum Outcome {
    /// It did what its row says.
    Done,
    /// The words are no command line.
    Usage,
    /// The input failed.
    ReadFault,
    /// The output failed.
    WriteFault,
    /// The shelf, or the core's disk, failed.
    StoreFault,
    /// The input is no bundle: the field at this place is the first that isn't whole or is outside its range.
    BadForm {
        at: usize,
    },
    /// The block and its siblings fold to another node than the root over the block's index.
    NotProved {
        index: u64,
        want: Node,
        have: Node,
    },
    /// The signature on the head isn't accepted.
    BadSignature,
    /// The core isn't on the shelf's list.
    NoCore,
    /// The core is on the shelf's list.
    CoreExists,
    /// The index isn't below this end.
    OutOfRange {
        end: u64,
    },
    /// The block of this index isn't held.
    Unavailable {
        index: u64,
    },
    /// The quantity would pass its limit, `max`.
    Limit {
        what: What,
        max: u64,
    },
    /// What the area of the core's disk has at this place isn't in its form.
    BadStore {
        area: Area,
        at: u64,
    },
    /// The kept hash is `want`, and the recomputed one is `have`; where they are equal the sizes differ.
    Damaged {
        place: Place,
        want: [u8; 32],
        have: [u8; 32],
    },
    /// Want of memory.
    NoMemory,
}

impl Outcome {
    ghost use Rattle.hypercore_cli.specs.Outcomes.{status_of};

    /// The exit status of the program.
    pub fn status(&self) -> u8
        ensures { result ≡ status_of self.now }
    {
        match self {
            Outcome::Done => 0,
            Outcome::Usage => 2,
            Outcome::ReadFault => 3,
            Outcome::WriteFault => 4,
            Outcome::StoreFault => 5,
            Outcome::BadForm { .. } => 7,
            Outcome::NotProved { .. } => 8,
            Outcome::BadSignature => 9,
            Outcome::NoCore => 10,
            Outcome::CoreExists => 11,
            Outcome::OutOfRange { .. } => 12,
            Outcome::Unavailable { .. } => 13,
            Outcome::Limit { .. } => 14,
            Outcome::BadStore { .. } => 15,
            Outcome::Damaged { .. } => 16,
            Outcome::NoMemory => 70,
        }
    }
}
