ghost use Rattle.std.specs.Prelude.{◌≡◌, IfOk};
ghost use Rattle.clock_terms.specs.Prices.{opening_prices};

use crate::setup::Setup;
use clock_device::{Items, NoMemory};
use clock_money::Price;
use std::alloc::Global;

/// The start-of-round price and the clock price of a product in a round. Bid prices are from the
/// one to the other.
#[derive(Clone, Copy, Debug)]
pub struct PricePair {
    /// In whole dollars: in round 1 the opening price, later the posted price of the round before.
    pub start: Price,
    /// In whole dollars: in round 1 the opening price, later the start-of-round price plus the
    /// increment, rounded up.
    pub clock: Price,
}

/// The prices of a round: a pair for each product, in the order of the products' numbers.
pub type Prices = Items<PricePair>;

/// Adds the call `Prices::opening` to [`Prices`].
pub trait OpeningPrices {
    /// Returns the prices of round 1: start-of-round price and clock price of each product are its
    /// opening price. May return `NoMemory`.
    fn opening(alloc: Global, setup: &Setup) -> Result<Prices, NoMemory>
        ensures { IfOk result (λ prices. prices ≡ opening_prices setup.now.products) };
}

impl OpeningPrices for Prices {
    fn opening(alloc: Global, setup: &Setup) -> Result<Prices, NoMemory> {
        let products = setup.products.as_slice();
        let mut prices = Prices::with_capacity(alloc, products.len())?;
        for product in products {
            prices.push(PricePair {
                start: product.opening,
                clock: product.opening,
            });
        }
        Ok(prices.into_items())
    }
}
