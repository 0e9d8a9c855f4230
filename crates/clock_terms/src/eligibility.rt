ghost use Rattle.std.specs.Prelude.{◌≡◌, ◌≤◌, ◌*◌, length, All};
ghost use Rattle.clock_terms.specs.Eligibility as eligibility;
ghost use Rattle.clock_terms.specs.Limits.{IsProduct, IsRow, least_requirement, most_eligibility};
ghost use Rattle.clock_terms.specs.Limits.{most_products, most_requirement, most_supply};
ghost use Rattle.clock_terms.specs.Limits.{most_units};

use crate::row::Row;
use crate::setup::{Product, Setup};

/// Returns the eligibility after a round, in bidding units: the smaller of `held`, the eligibility
/// before it, and the least whole number whose `requirement` percent is at least `activity`.
///
/// Requires an eligibility of at most 10^12, an activity of at most that eligibility, and a
/// requirement of 50 to 100 percent. The rule is the FCC's for Auction 105; rounding up is our own.
pub fn next_eligibility(held: u64, activity: u64, requirement: u64) -> u64
    requires activity { activity ≤ held }
    requires held { held ≤ most_eligibility }
    requires low { least_requirement ≤ requirement }
    requires high { requirement ≤ most_requirement }
    ensures exact { result ≡ eligibility.next_eligibility held activity requirement }
    ensures supported { eligibility.IsSupported activity requirement
        (eligibility.supported_eligibility activity requirement) }
{
    held.min((100 * activity + (requirement - 1)) / requirement)
}

/// Gives its caller a law: the eligibility that an activity supports is the least whole number
/// whose required percentage is at least the activity. Does nothing when it runs.
pub fn law_of_eligibility()
    ensures { eligibility.SupportsTheLeast }
{}

/// Returns the activity of a row of demands, in bidding units: the sum of units times demand over
/// all products.
///
/// Requires one demand for each product, none above its cap. Visits only positive demands.
/// Allocates nothing.
pub fn units_held(products: &[Product], row: &Row) -> u64
    requires limits { All IsProduct products.now }
    requires product_count { length products.now ≤ most_products }
    requires row { IsRow products.now row.now }
    ensures exact { result ≡ eligibility.activity products.now row.now }
    ensures most { result ≤ most_products * (most_units * most_supply) }
{
    let mut total: u64 = 0;
    let mut held = row.held();
    'held: while let Some(one) = held.next() {
        total += products[one.product].units * one.demand;
    }
    total
}

/// Returns the activity of demands as a document lists them, in bidding units: the sum of units
/// times demand.
///
/// Requires one demand for each product, none above its cap. Allocates nothing.
pub fn activity(setup: &Setup, demands: &[u64]) -> u64
    requires { IsRow setup.now.products demands.now }
    ensures { result ≡ eligibility.activity setup.now.products demands.now }
{
    let products = setup.products.as_slice();
    let mut total: u64 = 0;
    for (place, demand) in demands.iter().enumerate() {
        total += products[place].units * *demand;
    }
    total
}
