//! Changes that sheets of small auctions ask for.

ghost use Rattle.std.specs.Prelude.{◌≡◌, ◌≤◌, ◌<◌, length, All, IsTrue, IfOk};
ghost use Rattle.clock_terms.specs.Limits.{IsRow, cap_of};

use crate::auction::bids;
use crate::comparing::{assert_has, assert_is_at};
use crate::settle::{Asked, change_of, push_demands};
use crate::setups::setup_in;
use clock_bids::{Bid, Changes, Kind, Own, asked_row, changes_of, check_sheet};
use clock_device::NoMemory;
use clock_fixtures::{ONE_PRODUCT, TWO_PRODUCTS};
use clock_money::Price;
use clock_setup::{Amounts, PricePair, Prices, Product, Setup};
use clock_terms::Row;
use std::alloc::Global;
use std::process::Abort;

/// A second round in which each product's prices go from 100 to 110: the set-up document, and the
/// first bidder's eligibility and demands.
type Round<'a> = (&'a str, u64, &'a [u16]);

/// This pair of prices for each product of a set-up.
fn equal_prices(alloc: Global, setup: &Setup, pair: &PricePair) -> Option<Prices> {
    let mut prices = Prices::new(alloc);
    for _ in setup.products.as_slice() {
        if prices.push(*pair).is_err() {
            return None;
        }
    }
    Some(prices)
}

/// The prices of each product of a set-up.
fn prices_of(alloc: Global, setup: &Setup) -> Option<Prices> {
    let (Some(start), Some(clock)) = (Price::new(100), Price::new(110)) else {
        return None;
    };
    equal_prices(alloc, setup, &PricePair { start, clock })
}

/// Whether there is a demand for each product, none above its cap.
fn is_row(products: &[Product], demands: &[u16]) -> bool
    ensures { IsTrue result → IsRow products.now demands.now }
{
    if demands.len() != products.len() {
        return false;
    }
    for (i, product) in products.iter().enumerate() {
        if demands[i] as u64 > product.cap {
            return false;
        }
    }
    true
}

/// Whether there is a pair of prices for each product.
fn are_prices(setup: &Setup, prices: &Prices) -> bool
    ensures { IsTrue result → length prices.now ≡ length setup.now.products }
{
    prices.as_slice().len() == setup.products.as_slice().len()
}

/// Whether each clock price is above its start-of-round price.
fn rise(prices: &Prices) -> bool
    ensures { IsTrue result → All (λ pair. pair.start < pair.clock) prices.now }
{
    prices
        .as_slice()
        .iter()
        .all(|pair| pair.start.get() < pair.clock.get())
}

/// Whether each bid is for a product of the set-up, and not above its cap.
fn are_capped(setup: &Setup, bids: &[Bid]) -> bool
    ensures known { IsTrue result → All (λ bid. bid.product < length setup.now.products) bids.now }
    ensures capped { IsTrue result
        → All (λ bid. bid.quantity ≤ cap_of setup.now.products bid.product) bids.now }
{
    let products = setup.products.as_slice();
    bids.iter().all(|bid| {
        bid.product < products.len() as u64 && bid.quantity <= products[bid.product as usize].cap
    })
}

/// Packs these demands into a row.
fn row_of(rt: &impl Abort, alloc: Global, setup: &Setup, demands: &[u16]) -> Result<Row, NoMemory>
    ensures { IfOk result (IsRow setup.now.products) }
{
    assert!(rt; is_row(setup.products.as_slice(), demands));
    Row::of(alloc, setup, demands)
}

/// A bidder's eligibility and demands in the second round.
fn held(eligibility: u64, row: &Row) -> Own<'_>
    ensures round { result.round ≡ 2 }
    ensures demands { result.demands.now ≡ row.now }
{
    Own {
        round: 2,
        eligibility,
        demands: row,
    }
}

/// The changes that the first bidder's sheet asks for, if the sheet has no fault.
fn asked_with(
    alloc: Global,
    setup: &Setup,
    prices: &Prices,
    own: Own,
    bids: &[Bid],
) -> Option<Changes>
    requires round { 2 ≤ own.round }
    requires prices { length prices.now ≡ length setup.now.products }
    requires rising { All (λ pair. pair.start < pair.clock) prices.now }
    requires demands { IsRow setup.now.products own.demands.now }
{
    let Ok(sheet) = check_sheet(alloc, setup, prices, own, bids) else {
        return None;
    };
    let changes = changes_of(alloc, setup, prices, own, 0, Some(&sheet));
    drop(sheet);
    changes.ok()
}

/// The changes that the first bidder's sheet asks for, or a missing sheet.
fn asked(
    rt: &impl Abort,
    alloc: Global,
    setup: &Setup,
    prices: &Prices,
    own: Own,
    bids: Option<&[Bid]>,
) -> Option<Changes>
    requires round { 2 ≤ own.round }
    requires demands { IsRow setup.now.products own.demands.now }
{
    assert!(rt; rise(prices));
    assert!(rt; are_prices(setup, prices));
    match bids {
        Some(bids) => asked_with(alloc, setup, prices, own, bids),
        None => changes_of(alloc, setup, prices, own, 0, None).ok(),
    }
}

/// The changes of the first bidder, like [`asked`], in a second round.
fn asked_in(
    rt: &impl Abort,
    alloc: Global,
    setup: &Setup,
    round: &Round,
    bids: Option<&[Bid]>,
) -> Option<Changes> {
    let Some(prices) = prices_of(alloc, setup) else {
        return None;
    };
    let Ok(row) = row_of(rt, alloc, setup, round.2) else {
        return None;
    };
    asked(rt, alloc, setup, &prices, held(round.1, &row), bids)
}

/// The changes of the first bidder, like [`asked`], from a set-up document.
fn asked_by(
    rt: &impl Abort,
    alloc: Global,
    round: &Round,
    bids: Option<&[Bid]>,
) -> Option<Changes> {
    let Some(setup) = setup_in(alloc, round.0) else {
        return None;
    };
    let changes = asked_in(rt, alloc, &setup, round, bids);
    drop(setup);
    changes
}

/// An expected change, and the place of its bid in the chain.
type Wanted = (Asked, u32);

/// Makes the changes of rows.
fn wanted_changes(alloc: Global, rows: &[Wanted]) -> Option<Changes> {
    let mut changes = Changes::new(alloc);
    for row in rows {
        let Some(change) = change_of(&row.0, row.1) else {
            return None;
        };
        if changes.push(change).is_err() {
            return None;
        }
    }
    Some(changes)
}

/// A case: what it shows, the round, the bids of a sheet if there is one, and the changes that are
/// expected.
type Ask<'a> = (&'a str, Round<'a>, Option<&'a [Bid]>, &'a [Wanted]);

/// Sheets of a round, and the changes they ask for.
const ASKS: &[Ask<'static>] = &[
    (
        "a falling chain asks for a change at each bid",
        (ONE_PRODUCT, 3, &[2]),
        Some(bids![(0, 1, 103), (0, 0, 107)]),
        &[
            ((Kind::Reduction, 0, 0, 1, 103), 0),
            ((Kind::Reduction, 0, 0, 1, 107), 1),
        ],
    ),
    (
        "so does a climbing one",
        (ONE_PRODUCT, 3, &[0]),
        Some(bids![(0, 1, 104), (0, 2, 110)]),
        &[
            ((Kind::Increase, 0, 0, 1, 104), 0),
            ((Kind::Increase, 0, 0, 1, 110), 1),
        ],
    ),
    (
        "a missing bid gives up the demand at the start price",
        (ONE_PRODUCT, 3, &[2]),
        Some(&[]),
        &[((Kind::Reduction, 0, 0, 2, 100), 0)],
    ),
    (
        "so does a missing sheet",
        (ONE_PRODUCT, 3, &[2]),
        None,
        &[((Kind::Reduction, 0, 0, 2, 100), 0)],
    ),
    (
        "a bid for what is held asks for nothing",
        (ONE_PRODUCT, 3, &[2]),
        Some(bids![(0, 2, 110)]),
        &[],
    ),
    (
        "chains of two products may be interleaved",
        (TWO_PRODUCTS, 3, &[0, 2]),
        Some(bids![(1, 1, 106), (0, 1, 104), (1, 0, 108)]),
        &[
            ((Kind::Increase, 0, 0, 1, 104), 0),
            ((Kind::Reduction, 0, 1, 1, 106), 0),
            ((Kind::Reduction, 0, 1, 1, 108), 1),
        ],
    ),
];

/// Asserts that the first bidder's sheet asks for the changes of a case.
fn asks_for(rt: &impl Abort, alloc: Global, row: &Ask) {
    let changes = asked_by(rt, alloc, &row.1, row.2);
    match wanted_changes(alloc, row.3) {
        Some(wanted) => assert_has(rt, row.0, changes, wanted.as_slice()),
        None => assert_is_at(rt, row.0, "no prices", "prices of the round"),
    }
}

#[test]
fn a_sheet_asks_for_changes(rt: HostRuntime) {
    for row in ASKS {
        asks_for(&rt, rt.alloc(), row);
    }
}

/// Two bids of a chain for the second product.
const CHAIN: &[Bid] = bids![(1, 1, 104), (1, 2, 110)];

/// The requested demands of bids.
fn demands_of(rt: &impl Abort, alloc: Global, bids: &[Bid]) -> Result<Amounts, NoMemory> {
    let Some(setup) = setup_in(alloc, TWO_PRODUCTS) else {
        return Err(NoMemory);
    };
    assert!(rt; are_capped(&setup, bids));
    let row = asked_row(alloc, &setup, bids);
    drop(setup);
    let mut demands = Amounts::new(alloc);
    push_demands(&mut demands, &row?)?;
    Ok(demands)
}

#[test]
fn the_last_quantity_is_the_demand_asked_for(rt: HostRuntime) {
    let demands = demands_of(&rt, rt.alloc(), CHAIN);
    assert_has(&rt, "the last quantity", demands.ok(), &[0, 2]);
}
