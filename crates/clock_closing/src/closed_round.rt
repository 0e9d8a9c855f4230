ghost use Rattle.std.specs.Prelude.{◌≡◌};
ghost use Rattle.clock_closing.specs.{Prepared.{PreparedClosing}, Results.{AreConsistent}};

use clock_device::Items;
use clock_order::Ties;
use clock_posting::RoundSheet;
use clock_terms::{Grid, Increments, PackedRow, Prices};
use std::marker::Model;

/// The results of one bidder after a round.
#[derive(Drop)]
pub struct Slip {
    /// The round, from 1.
    pub round: u64,
    /// The processed activity, in bidding units.
    pub activity: u64,
    /// The eligibility for the next round, in bidding units.
    pub eligibility: u64,
    /// The processed demand for each product, in blocks.
    pub demands: PackedRow,
}

/// Bidder results, one per bidder in the order of the set-up.
pub type Slips = Items<Slip>;

/// A closed round: the round results, and the results of each bidder.
#[derive(Drop)]
pub struct ClosedRound {
    /// The round results, for everyone.
    pub sheet: RoundSheet,
    /// The bidder results, each for its bidder only.
    pub slips: Slips,
}

/// What a closing produces.
#[derive(Drop)]
pub struct Results {
    /// The round results and the bidder results.
    pub closed: ClosedRound,
    /// The prices of the next round, or `None` if the auction has ended.
    pub next: Option<Prices>,
    /// The processed demands of the bidder results, one row per bidder, for quick reading in the
    /// next round.
    pub demands: Grid,
}

/// A closing that is accepted, but not yet in effect.
///
/// In contracts, it is the round, the increments, and the tie-breaking numbers of the request, and
/// the round that it adds.
#[derive(Drop)]
pub struct Prepared {
    /// The round that it closes.
    pub round: u64,
    /// The increments for the next round, in percent.
    pub increments: Increments,
    /// The tie-breaking numbers of this round.
    pub ties: Ties,
    /// What it produces.
    pub results: Results,
}

impl Model for Prepared {
    ghost Value = { PreparedClosing };

    ghost view = { λ p. record {
      round = p.round;
      increments = p.increments;
      ties = p.ties;
      closed = p.results.closed;
    } };

    ghost invariant = { λ p. AreConsistent p.results };
}

impl Prepared {
    /// Whether the auction ends with this closing.
    pub fn ended(&self) -> bool
        ensures { result ≡ self.now.closed.sheet.ended }
    {
        self.results.closed.sheet.ended
    }
}
