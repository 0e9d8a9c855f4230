ghost use Rattle.std.specs.Prelude.{◌≡◌};
ghost use Rattle.clock_closing.specs.declared.fault.CloseFault.TheVariants as close_faults;
ghost use Rattle.clock_closing.specs.ReportedFaults.{fault_from_post, fault_from_tie};

use clock_device::NoMemory;
use clock_order::TieFault;
use clock_posting::PostFault;
use thiserror::Error;

/// Why a closing is refused: the first of these that applies. `NoMemory` may replace any of them.
///
/// - `Ended`: the auction has ended.
/// - `WrongRound`: the closing is not for the current round, whose number is given.
/// - `Increment`: an increment is not 1 to 50 percent, or there is not one for each product.
/// - `Tie`: the tie-breaking numbers have this fault.
/// - `PriceLimit`: the next clock price of this product would be above the highest price.
/// - `NoMemory`: out of memory.
// The cases are described above the enum because `rt plant` takes a comment above a case for its
// name.
#[derive(Clone, Copy, Debug, PartialEq, Eq, Error)]
pub enum CloseFault {
    #[error("the auction has ended")]
    Ended,
    #[error("not the current round")]
    WrongRound(u64),
    #[error("increment out of range")]
    Increment,
    #[error("the tie numbers have a fault")]
    Tie(TieFault),
    #[error("a next clock price is too high")]
    PriceLimit(u64),
    #[error("out of memory")]
    NoMemory,
}

impl From<NoMemory> for CloseFault {
    ghost from_gives = { λ _ reported. reported ≡ close_faults.NoMemory };

    fn from(_none: NoMemory) -> CloseFault {
        CloseFault::NoMemory
    }
}

impl From<TieFault> for CloseFault {
    ghost from_gives = { λ fault reported. reported ≡ fault_from_tie fault };

    fn from(fault: TieFault) -> CloseFault {
        match fault {
            TieFault::NoMemory => CloseFault::NoMemory,
            _ => CloseFault::Tie(fault),
        }
    }
}

impl From<PostFault> for CloseFault {
    ghost from_gives = { λ fault reported. reported ≡ fault_from_post fault };

    fn from(fault: PostFault) -> CloseFault {
        match fault {
            PostFault::NoMemory => CloseFault::NoMemory,
            PostFault::PriceLimit(product) => CloseFault::PriceLimit(product),
        }
    }
}
