ghost use Rattle.std.specs.Prelude.{◌≡◌};
ghost use Rattle.clock_scripts.specs.declared.fault.SimFault.TheVariants.{NoMemory};

use clock_api::Code;
use clock_connections::HubFault;
use clock_device::NoMemory;
use thiserror::Error;

/// Why a rehearsal has no report: its first fault, in the order of the requests. The codes are
/// never [`Code::Done`] or [`Code::Memory`].
#[derive(Clone, Copy, Debug, PartialEq, Eq, Error)]
pub enum SimFault {
    /// The sheet of a bidder, by its number, was refused in a round with this code.
    #[error("bidder {0} was refused in round {1}")]
    Refused(u64, u64, Code),
    /// The closing of a round was refused with this code.
    #[error("the closing of round {0} was refused")]
    Closing(u64, Code),
    /// The auction has not ended, and no closing is left. The sheets of the current round were
    /// submitted.
    #[error("no closing is left")]
    ClosingsSpent,
    /// Out of memory. Replaces any other result.
    #[error("out of memory")]
    NoMemory,
}

impl From<NoMemory> for SimFault {
    ghost from_gives = { λ _ fault. fault ≡ NoMemory };

    fn from(_refused: NoMemory) -> SimFault {
        SimFault::NoMemory
    }
}

/// A rehearsal uses only its own connections, fewer than 256 at once, and fewer in all than there
/// are serial numbers. So its hub refuses one only if it is out of memory.
impl From<HubFault> for SimFault {
    ghost from_gives = { λ _ fault. fault ≡ NoMemory };

    fn from(_refused: HubFault) -> SimFault {
        SimFault::NoMemory
    }
}
