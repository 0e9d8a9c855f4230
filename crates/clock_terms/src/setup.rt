ghost use Rattle.std.specs.Prelude.{◌≡◌, IfOk};

use clock_device::{Items, NoMemory, Text};
use clock_money::Price;
use std::alloc::Global;
use std::marker::Model;

/// A product: generic blocks that are all alike, so that bidders ask for a number of them.
#[derive(Clone, Drop)]
pub struct Product {
    /// 1 to 32 ASCII letters, digits, dashes, and underscores. No other product has this name.
    pub name: Text,
    /// The bidding units of one block, 1 to 1,000,000.
    pub units: u64,
    /// The number of blocks, 1 to 1,000.
    pub supply: u64,
    /// The most blocks that one bidder may ask for, from 1 to the supply.
    pub cap: u64,
    /// The price of a block in round 1.
    pub opening: Price,
    /// The granule, 1 to 1,000,000 dollars: clock prices from round 2 on are multiples of it. In
    /// version 1 it is 1.
    pub granule: u64,
}

/// A bidder, and its eligibility before round 1.
#[derive(Clone, Drop)]
pub struct Bidder {
    /// 1 to 32 ASCII letters, digits, dashes, and underscores. No other bidder has this name.
    pub name: Text,
    /// 16 to 64 ASCII letters and digits. No other bidder has this token, nor has the operator.
    pub token: Text,
    /// The most bidding units that the bidder may demand in round 1, up to 10^12.
    pub eligibility: u64,
}

/// Products in the order of their numbers, from 0.
pub type Products = Items<Product>;

/// Bidders in the order of their numbers, from 0.
pub type Bidders = Items<Bidder>;

/// The set-up of an auction. Every value of this type is within the limits: each part has its own,
/// and there are 1 to 4,096 products and 1 to 512 bidders. No two products share a name. No two
/// bidders share a name or a token, and no bidder has the operator's token.
///
/// The limits are our own. The parts are those of an ascending clock auction of generic blocks in
/// the FCC's procedures for Auction 105.
#[derive(Clone, Drop)]
pub struct Setup {
    /// The version of the document that the set-up was read from, 1 or 2.
    pub version: u64,
    /// The activity limit: from round 2, the most requested activity of a sheet, 100 to 140 percent
    /// of eligibility. In version 1 it is 100.
    pub limit: u64,
    /// The activity requirement, 50 to 100 percent of eligibility.
    pub requirement: u64,
    /// The operator's token, 16 to 64 ASCII letters and digits.
    pub operator: Text,
    /// The products, at least one, numbered from 0 in this order.
    pub products: Products,
    /// The bidders, at least one, numbered from 0 in this order.
    pub bidders: Bidders,
}

impl Model for Setup {
    ghost use Rattle.clock_terms.specs.Limits.{IsSetup, SetupFields};

    ghost Value = { SetupFields };

    ghost use Rattle.clock_terms.specs.Setups.{fields_of};

    ghost view = { fields_of };

    ghost invariant = { λ s. IsSetup (fields_of s) };
}

impl Setup {
    /// Returns an equal set-up. Its memory comes from the allocator of this one. May return
    /// `NoMemory`.
    pub fn copy(&self, _alloc: Global) -> Result<Setup, NoMemory>
        ensures { IfOk result (λ copy. copy ≡ self.now) }
    {
        Ok(self.clone()?)
    }
}
