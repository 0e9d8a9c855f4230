ghost use Rattle.std.specs.Prelude.{◌≡◌, ◌<◌, ◌^◌};
ghost use Rattle.clock_terms.specs.Demands.{changed_demand};

use clock_device::Items;
use clock_money::Point;

/// The direction of a request to change demand.
#[derive(Clone, Copy, Debug, PartialEq, Eq)]
pub enum Kind {
    /// To increase demand.
    Increase,
    /// To reduce demand.
    Reduction,
}

impl Kind {
    /// Returns a demand, or an aggregate demand, after `amount` blocks of such a change. Requires a
    /// result that fits into 64 bits; a reduction by more than the demand gives 0.
    pub(crate) fn after(self, demand: u64, amount: u64) -> u64
        requires { changed_demand self demand amount < 2 ^ 64 }
        ensures { result ≡ changed_demand self demand amount }
    {
        match self {
            Kind::Increase => demand + amount,
            Kind::Reduction => demand.saturating_sub(amount),
        }
    }
}

/// A request to change a bidder's demand for a product. One bid of a sheet makes one request.
#[derive(Clone, Copy, Debug, PartialEq, Eq)]
pub struct Change {
    /// The bidder's number in the set-up, from 0.
    pub bidder: u32,
    /// The product's number in the set-up, from 0.
    pub product: u32,
    /// The index of the bid in the sheet's chain for the product, from 0.
    pub place: u32,
    /// Whether to increase or to reduce demand.
    pub kind: Kind,
    /// The number of blocks.
    pub amount: u64,
    /// The price of the bid, in whole dollars.
    pub price: u64,
    /// How far the price is from the start-of-round price to the clock price.
    pub point: Point,
}

/// A list of requests to change demand.
pub type Changes = Items<Change>;
