//! What a house stores before the first round.
ghost use Rattle.std.specs.Prelude.{◌≡◌, IfOk, None, OnOk, length, map};
ghost use Rattle.std.specs.List.{range_with_len};
ghost use Rattle.clock_terms.specs.Demands.{no_demands};
ghost use Rattle.clock_terms.specs.Limits.{IsSetup};
ghost use Rattle.clock_terms.specs.Prices.{opening_prices};
ghost use Rattle.clock_house.specs.History.{for_each_bidder};

use clock_bids::Sheet;
use clock_device::{Items, NoMemory};
use clock_terms::{Amounts, Grid, OpeningPrices, Prices, Setup};
use std::alloc::Global;

/// What a house stores before the first round: the opening prices, the initial eligibilities,
/// demands of 0, and no sheets.
pub(crate) fn opening(
    alloc: Global,
    setup: &Setup,
) -> Result<(Prices, Amounts, Grid, Items<Option<Sheet>>), NoMemory>
    ensures limits { OnOk result (IsSetup setup.now) }
    ensures prices { IfOk result (λ parts. parts.0 ≡ opening_prices setup.now.products) }
    ensures eligibilities { IfOk result
        (λ parts. parts.1 ≡ map (λ bidder. bidder.eligibility) setup.now.bidders) }
    ensures demands { IfOk result
        (λ parts. parts.2 ≡ no_demands (length setup.now.bidders) (length setup.now.products)) }
    ensures sheets { IfOk result (λ parts. parts.3 ≡ for_each_bidder setup.now (λ bidder. None)) }
{
    let prices = Prices::opening(alloc, setup)?;
    let demands = Grid::zero(alloc, setup)?;
    let eligibilities = opening_eligibilities(alloc, setup)?;
    let sheets = no_sheets(alloc, setup.bidders.len())?;
    Ok((prices, eligibilities, demands, sheets))
}

/// The initial eligibilities, one per bidder.
fn opening_eligibilities(alloc: Global, setup: &Setup) -> Result<Amounts, NoMemory>
    ensures { IfOk result
        (λ list. list ≡ map (λ bidder. bidder.eligibility) setup.now.bidders) }
{
    let bidders = setup.bidders.as_slice();
    let mut eligibilities = Amounts::with_capacity(alloc, bidders.len())?;
    for bidder in bidders {
        eligibilities.push(bidder.eligibility);
    }
    Ok(eligibilities.into_items())
}

/// A list for `count` bidders, none of whom has a sheet in force.
fn no_sheets(alloc: Global, count: usize) -> Result<Items<Option<Sheet>>, NoMemory>
    ensures { IfOk result (λ sheets. sheets ≡ map (λ bidder. None) (range_with_len 0 count)) }
{
    let mut sheets = Items::with_capacity(alloc, count)?;
    for _bidder in 0..count {
        sheets.push(None);
    }
    Ok(sheets.into_items())
}
