//! What set-ups open with: prices, grids of demands, and increments.

ghost use Rattle.clock_terms.specs.Demands.{IsGrid};

use crate::comparing::{assert_is, assert_is_at};
use crate::setups::setup_in;
use clock_fixtures::{ONE_PRODUCT, PRICE_EDGES};
use clock_money::Price;
use clock_setup::Setup;
use clock_terms::{Amounts, Grid, Increments, OpeningPrices, Prices};
use std::alloc::Global;

/// The last pair of prices, if there is one.
fn last_of(prices: &Prices) -> Option<(u64, u64)> {
    match prices.as_slice().last() {
        Some(pair) => Some((pair.start.get(), pair.clock.get())),
        None => None,
    }
}

/// The start-of-round and clock price of the last product in round 1.
fn last_prices(alloc: Global, text: &str) -> Option<(u64, u64)> {
    let Some(setup) = setup_in(alloc, text) else {
        return None;
    };
    let prices = Prices::opening(alloc, &setup);
    drop(setup);
    match prices {
        Ok(prices) => last_of(&prices),
        Err(_) => None,
    }
}

/// Set-up documents, and the opening price of the last product of each.
const OPENING_PRICES: &[(&str, u64)] = &[(ONE_PRODUCT, 100), (PRICE_EDGES, Price::HIGHEST)];

#[test]
fn opens_at_the_opening_prices(rt: HostRuntime) {
    for row in OPENING_PRICES {
        assert_is_at(
            &rt,
            row.0,
            last_prices(rt.alloc(), row.0),
            Some((row.1, row.1)),
        );
    }
}

/// Sets the demands of two bidders for one product to 2 and 1. Returns their total in the grid, and
/// in a copy in which the first demand is removed.
fn totals(alloc: Global, grid: &mut Grid) -> Option<(u64, u64)>
    requires { IsGrid 2 1 grid.old }
{
    grid.set(0, 0, 2);
    grid.set(1, 0, 1);
    let Ok(mut copy) = grid.copy(alloc) else {
        return None;
    };
    copy.set(0, 0, 0);
    Some((grid.total(0), copy.total(0)))
}

/// The totals of [`totals`] for a set-up without demands at first, of two bidders and one product.
fn totals_of(alloc: Global, setup: &Setup) -> Option<(u64, u64)> {
    if setup.bidders.as_slice().len() != 2 || setup.products.as_slice().len() != 1 {
        return None;
    }
    match Grid::zero(alloc, setup) {
        Ok(mut grid) => totals(alloc, &mut grid),
        Err(_) => None,
    }
}

/// The totals of [`totals`] for the set-up of one product.
fn totals_of_one(alloc: Global) -> Option<(u64, u64)> {
    let Some(setup) = setup_in(alloc, ONE_PRODUCT) else {
        return None;
    };
    let totals = totals_of(alloc, &setup);
    drop(setup);
    totals
}

#[test]
fn a_copy_of_a_grid_is_its_own(rt: HostRuntime) {
    assert_is(&rt, totals_of_one(rt.alloc()), Some((3, 1)));
}

/// Whether increments for each of two products are within their limits.
fn are_for_two(alloc: Global, increments: &[u64]) -> Option<bool> {
    match Amounts::from_slice(alloc, increments) {
        Ok(amounts) => Some(Increments::PerProduct(amounts).are_within(2)),
        Err(_) => None,
    }
}

/// Increments for each product, and whether there are two within the limits.
const INCREMENTS: &[(&[u64], bool)] = &[(&[10, 20], true), (&[10], false), (&[10, 51], false)];

#[test]
fn increments_are_one_for_each_product_within_limits(rt: HostRuntime) {
    for row in INCREMENTS {
        assert_is_at(&rt, row.0, are_for_two(rt.alloc(), row.0), Some(row.1));
    }
}
