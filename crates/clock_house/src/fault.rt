ghost use Rattle.std.specs.Prelude.{◌≡◌};
ghost use Rattle.clock_house.specs.declared.fault.PutFault.TheVariants as put_faults;
ghost use Rattle.clock_house.specs.ReportedFaults.{fault_from_bid};

use clock_bids::BidFault;
use clock_device::NoMemory;
use thiserror::Error;

/// Why a sheet is refused: the first of these that applies. `NoMemory` may replace any of them.
///
/// - `Ended`: the auction has ended.
/// - `WrongRound`: the sheet is not for the current round, whose number is given.
/// - `Bid`: the bids have this fault.
/// - `NoMemory`: out of memory.
// The cases are described above the enum because `rt plant` takes a comment above a case for its
// name.
#[derive(Clone, Copy, Debug, PartialEq, Eq, Error)]
pub enum PutFault {
    #[error("the auction has ended")]
    Ended,
    #[error("not the current round")]
    WrongRound(u64),
    #[error("the sheet has a fault")]
    Bid(BidFault),
    #[error("out of memory")]
    NoMemory,
}

impl From<NoMemory> for PutFault {
    ghost from_gives = { λ _ reported. reported ≡ put_faults.NoMemory };

    fn from(_none: NoMemory) -> PutFault {
        PutFault::NoMemory
    }
}

impl From<BidFault> for PutFault {
    ghost from_gives = { λ fault reported. reported ≡ fault_from_bid fault };

    fn from(fault: BidFault) -> PutFault {
        match fault {
            BidFault::NoMemory => PutFault::NoMemory,
            _ => PutFault::Bid(fault),
        }
    }
}
