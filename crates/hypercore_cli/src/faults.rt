//! How a command ends by a fault of a core.
ghost use Rattle.std.specs.Prelude.{◌≡◌};
ghost use Rattle.hypercore_cli.specs.Faults.{named_end, store_end, read_end};

use crate::outcome::Outcome;
use core_shelf::NamedFault;
use node_set::CoreFault;

/// The end of a command whose core isn't made or opened.
pub fn named_end(fault: NamedFault) -> Outcome
    ensures { result ≡ named_end fault }
{
    match fault {
        NamedFault::NoCore => Outcome::NoCore,
        NamedFault::CoreExists => Outcome::CoreExists,
        NamedFault::Core(CoreFault::BadSignature) => Outcome::BadSignature,
        NamedFault::Core(fault) => store_end(fault),
    }
}

/// The end of a command whose core's disk failed or isn't the core's. No other fault comes where this is asked for.
fn store_end(fault: CoreFault) -> Outcome
    ensures { result ≡ store_end fault }
{
    match fault {
        CoreFault::StoreFault => Outcome::StoreFault,
        CoreFault::BadStore { area, at } => Outcome::BadStore { area, at },
        CoreFault::Damaged { place, want, have } => Outcome::Damaged { place, want, have },
        _ => Outcome::NoMemory,
    }
}

/// The end of a command whose read is refused.
pub fn read_end(fault: CoreFault) -> Outcome
    ensures { result ≡ read_end fault }
{
    match fault {
        CoreFault::OutOfRange { end } => Outcome::OutOfRange { end },
        CoreFault::Unavailable { index } => Outcome::Unavailable { index },
        _ => store_end(fault),
    }
}
