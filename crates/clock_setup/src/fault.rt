ghost use Rattle.std.specs.Prelude.{◌≡◌};
ghost use Rattle.clock_setup.specs.declared.fault.SetupFault.TheVariants as faults;

use clock_device::NoMemory;
use thiserror::Error;

/// A value in a set-up document. Products and bidders are given by their numbers, from 0.
#[derive(Clone, Copy, Debug, PartialEq, Eq)]
pub enum Place {
    /// The activity requirement, 50 to 100 percent.
    Requirement,
    /// The activity limit, 100 to 140 percent.
    Limit,
    /// The operator's token, 16 to 64 letters and digits.
    Operator,
    /// The number of products, 1 to 4,096.
    Products,
    /// A product's name, 1 to 32 letters, digits, dashes, and underscores.
    Name(u64),
    /// A product's bidding units per block, 1 to 1,000,000.
    Units(u64),
    /// A product's supply, 1 to 1,000 blocks.
    Supply(u64),
    /// A product's cap for one bidder, from 1 block to the supply.
    Cap(u64),
    /// A product's opening price, 1 to 10^12 whole dollars.
    Opening(u64),
    /// A product's granule, 1 to 1,000,000 whole dollars.
    Granule(u64),
    /// The number of bidders, 1 to 512.
    Bidders,
    /// A bidder's name, 1 to 32 letters, digits, dashes, and underscores.
    BidderName(u64),
    /// A bidder's token, 16 to 64 letters and digits.
    Token(u64),
    /// A bidder's eligibility, at most 10^12 bidding units.
    Eligibility(u64),
}

/// Why a set-up document is refused. A document with several faults has the first in this order.
#[derive(Clone, Copy, Debug, PartialEq, Eq, Error)]
pub enum SetupFault {
    /// The bytes are no JSON value.
    #[error("not a JSON value")]
    NotJson,
    /// The value is no object with a number under `version`, or, in version 1 or 2, not of the
    /// shape of that version.
    #[error("not of the shape of a set-up")]
    Shape,
    /// The version is neither 1 nor 2.
    #[error("not a version that is known")]
    Version,
    /// A value is outside its limits. The order is that of [`Place`], product by product and bidder
    /// by bidder.
    #[error("a value is outside its limits")]
    Range(Place),
    /// Two products, or two bidders, have the same name.
    #[error("a name stands twice")]
    DuplicateName,
    /// Two bidders, or a bidder and the operator, have the same token.
    #[error("a token stands twice")]
    DuplicateToken,
    /// Out of memory. Replaces any other result.
    #[error("out of memory")]
    NoMemory,
}

impl From<NoMemory> for SetupFault {
    ghost from_gives = { λ _ fault. fault ≡ faults.NoMemory };

    fn from(_refused: NoMemory) -> SetupFault {
        SetupFault::NoMemory
    }
}
