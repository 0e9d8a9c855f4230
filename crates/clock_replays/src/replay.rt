ghost use Rattle.std.specs.Prelude.{◌≡◌};
ghost use Rattle.clock_replays.specs.Replays.{ReplayFields, IsReplay};
ghost use Rattle.clock_replays.specs.declared.replay.ScriptFault.TheVariants as faults;

use crate::limit_lists::LimitLists;
use clock_bids::Bid;
use clock_device::{Items, NoMemory};
use clock_order::Tie;
use clock_setup::SetupFault;
use clock_terms::{Increments, Setup};
use std::marker::Model;
use thiserror::Error;

/// The bids of a sheet, in the order given.
pub type BidList = Items<Bid>;

/// The sheets of a bidder, from round 1: the bids of each, or none without a sheet.
pub type SheetList = Items<Option<BidList>>;

/// What a scripted bidder submits in each round.
#[derive(Drop)]
pub enum Script {
    /// The sheet of the round, if there is one. Rounds after the last sheet have none.
    Literal(SheetList),
    /// A sheet in every round, made from the prices up to which each block is wanted.
    Sincere(LimitLists),
}

/// A script for each bidder, in the order of the set-up.
pub type Scripts = Items<Script>;

/// How the operator closes a round. Its increments and tie-breaking numbers are checked only at the
/// closing.
#[derive(Drop)]
pub struct Closing {
    /// The increments, in percent, in the form of the set-up's version.
    pub increments: Increments,
    /// The tie-breaking numbers of the round, in the order given.
    pub ties: Items<Tie>,
}

/// The closings, from round 1.
pub type Closings = Items<Closing>;

/// A rehearsal: its set-up, a script for each bidder, and how each round is closed. The type
/// ensures that:
///
/// - there is a script for each bidder;
/// - a sincere script has a list of limits for each product, which never rises and is no longer
///   than the product's cap;
/// - the closings have the form of the set-up's version.
#[derive(Drop)]
pub struct Replay {
    /// The set-up of the auction.
    pub setup: Setup,
    /// A script for each bidder.
    pub scripts: Scripts,
    /// A closing for each round. There may be more of them than rounds, or fewer.
    pub closings: Closings,
}

impl Model for Replay {
    ghost Value = { ReplayFields };

    ghost view = { λ r. record { setup = r.setup; scripts = r.scripts; closings = r.closings } };

    ghost invariant = { λ r.
        IsReplay (record { setup = r.setup; scripts = r.scripts; closings = r.closings }) };
}

/// Why a replay document is refused: its first fault. A fault of the set-up is never `NoMemory`.
#[derive(Clone, Copy, Debug, PartialEq, Eq, Error)]
pub enum ScriptFault {
    /// The bytes are not a JSON value.
    #[error("not a JSON value")]
    NotJson,
    /// The document has another shape. Two parts of its shape are checked only after the set-up.
    /// First, the closings must have the form of its version. Then, after the count of scripts,
    /// each sincere script must have a list of limits for each product.
    #[error("not of the shape of a replay")]
    Shape,
    /// The value under `setup` is not a set-up.
    #[error("the set-up is refused")]
    Setup(SetupFault),
    /// There is not one script for each bidder.
    #[error("not one script for each bidder")]
    Scripts,
    /// A bidder's list of limits for a product rises, or is longer than the product's cap: the
    /// first such bidder, and its first such product.
    #[error("limits rise or are more than the cap")]
    Limits(u64, u64),
    /// Out of memory. Replaces any other result.
    #[error("out of memory")]
    NoMemory,
}

impl From<NoMemory> for ScriptFault {
    ghost from_gives = { λ _ fault. fault ≡ faults.NoMemory };

    fn from(_refused: NoMemory) -> ScriptFault {
        ScriptFault::NoMemory
    }
}
