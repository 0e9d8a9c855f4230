//! Requests as data, and their processing by any processor.

ghost use Rattle.std.specs.Prelude.{◌≡◌, ◌≤◌, ◌<◌, ℕ, length, All, IfOk, IfSome, IsTrue};
ghost use Rattle.clock_terms.specs.{Limits.{most_supply}, Demands.{IsGrid}};
ghost use Rattle.clock_terms.specs.Requests.{KeepWithinCap, asked_of, is_request_of};
ghost use Rattle.clock_processor.specs.Board.{IsWithinEligibility};
ghost use Rattle.clock_processor.specs.Requests.{AskWithinCaps, IsRequest};

use crate::comparing::{assert_has, assert_is_at};
use clock_device::NoMemory;
use clock_money::Point;
use clock_processor::{Board, Processor, Settled};
use clock_setup::{Amounts, Grid, Product, Setup};
use clock_terms::{Change, Changes, Kind, Row};
use std::alloc::Global;
use std::process::Abort;

/// A request: its kind, bidder, product, blocks and price.
pub type Asked = (Kind, u32, u32, u64, u64);

/// The change that a request asks for, with the place of its bid in the chain and a price of a
/// round from 100 to 110.
pub fn change_of(&(kind, bidder, product, amount, price): &Asked, place: u32) -> Option<Change> {
    let point = Point::of(100, price, 110)?;
    Some(Change {
        bidder,
        product,
        place,
        kind,
        amount,
        price,
        point,
    })
}

/// The changes of the requests, in the order of places.
fn requests(alloc: Global, asked: &[Asked]) -> Option<Changes> {
    let mut changes = Changes::new(alloc);
    for request in asked {
        let Some(change) = change_of(request, 0) else {
            return None;
        };
        if changes.push(change).is_err() {
            return None;
        }
    }
    Some(changes)
}

/// The eligibility of each bidder.
fn eligibilities(alloc: Global, setup: &Setup) -> Result<Amounts, NoMemory>
    ensures { IfOk result (λ amounts. length amounts ≡ length setup.now.bidders) }
{
    let mut amounts = Amounts::new(alloc);
    for bidder in setup.bidders.as_slice() {
        amounts.push(bidder.eligibility)?;
    }
    Ok(amounts)
}

/// Whether a change has this kind, bidder, and product.
fn is_of(change: &Change, kind: Kind, bidder: usize, product: usize) -> bool
    ensures { result ≡ is_request_of kind bidder product change.now }
{
    let same = match (kind, change.kind) {
        (Kind::Increase, Kind::Increase) => true,
        (Kind::Increase, Kind::Reduction) => false,
        (Kind::Reduction, Kind::Increase) => false,
        (Kind::Reduction, Kind::Reduction) => true,
    };
    same && change.bidder as usize == bidder && change.product as usize == product
}

/// The blocks that a bidder's requests of one kind for a product ask for in all.
fn asked(changes: &[Change], kind: Kind, bidder: usize, product: usize) -> u64
    requires count { length changes.now ≤ 100 }
    requires small { All (λ change. change.amount ≤ most_supply) changes.now }
    ensures { result ≡ asked_of kind bidder product changes.now }
{
    let mut blocks = 0;
    for change in changes {
        if is_of(change, kind, bidder, product) {
            blocks += change.amount;
        }
    }
    blocks
}

/// Whether each request is of a bidder and a product, for 1 to 1,000 blocks.
fn are_requests(bidders: usize, products: usize, changes: &[Change]) -> bool
    ensures { IsTrue result → All (IsRequest bidders products) changes.now }
{
    for change in changes {
        let known = (change.bidder as usize) < bidders && (change.product as usize) < products;
        if !known || change.amount < 1 || change.amount > 1000 {
            return false;
        }
    }
    true
}

/// Whether a bidder's demands stay within 0 and the caps, whatever part of its requests is applied.
fn row_keeps_caps(products: &[Product], demands: &Row, bidder: usize, changes: &[Change]) -> bool
    requires row { length demands.now ≡ length products.now }
    requires count { length changes.now ≤ 100 }
    requires small { All (λ change. change.amount ≤ most_supply) changes.now }
    ensures { IsTrue result → ((product : ℕ) → product < length products.now
        → KeepWithinCap products.now demands.now bidder changes.now product) }
{
    for (i, product) in products.iter().enumerate() {
        let raised = asked(changes, Kind::Increase, bidder, i);
        let reduced = asked(changes, Kind::Reduction, bidder, i);
        let held = demands.get(i);
        if raised > product.cap || held > product.cap - raised || reduced > held {
            return false;
        }
    }
    true
}

/// Whether [`row_keeps_caps`] is true of each bidder.
fn keep_caps(setup: &Setup, grid: &Grid, changes: &[Change]) -> bool
    requires grid { IsGrid (length setup.now.bidders) (length setup.now.products) grid.now }
    requires count { length changes.now ≤ 100 }
    requires small { All (λ change. change.amount ≤ most_supply) changes.now }
    ensures { IsTrue result → AskWithinCaps setup.now.products grid.now changes.now }
{
    for bidder in 0..setup.bidders.as_slice().len() {
        if !row_keeps_caps(setup.products.as_slice(), grid.row(bidder), bidder, changes) {
            return false;
        }
    }
    true
}

/// Whether the requests meet the preconditions of bid processing.
fn can_settle(setup: &Setup, grid: &Grid, changes: &[Change]) -> bool
    requires { IsGrid (length setup.now.bidders) (length setup.now.products) grid.now }
    ensures count { IsTrue result → length changes.now ≤ 100 }
    ensures requests { IsTrue result
        → All (IsRequest (length setup.now.bidders) (length setup.now.products)) changes.now }
    ensures caps { IsTrue result → AskWithinCaps setup.now.products grid.now changes.now }
{
    let bidders = setup.bidders.as_slice().len();
    let products = setup.products.as_slice().len();
    changes.len() <= 100
        && are_requests(bidders, products, changes)
        && keep_caps(setup, grid, changes)
}

/// Processes changes on the demands of a round, if they can be processed, on a board that expects
/// `count` of them.
fn settle_changes<P: Processor>(
    alloc: Global,
    processor: &P,
    setup: &Setup,
    eligibilities: &Amounts,
    grid: &Grid,
    changes: &Changes,
    count: usize,
) -> Option<Settled>
    requires bidders { length eligibilities.now ≡ length setup.now.bidders }
    requires within { IsWithinEligibility setup.now.products eligibilities.now grid.now }
    ensures { IfSome result
        (λ settled. IsWithinEligibility setup.now.products eligibilities.now settled.grid) }
{
    if !can_settle(setup, grid, changes.as_slice()) {
        return None;
    }
    let Ok(copy) = grid.copy(alloc) else {
        return None;
    };
    let Ok(board) = Board::for_requests(alloc, setup, eligibilities, copy, count) else {
        return None;
    };
    match processor.settle(alloc, board, changes) {
        Ok(settled) => Some(settled),
        Err(_) => None,
    }
}

/// Processes requests on the demands of a round, if they can be processed, on a board that expects
/// `count` of them.
fn settle<P: Processor>(
    alloc: Global,
    processor: &P,
    setup: &Setup,
    eligibilities: &Amounts,
    grid: &Grid,
    asked: &[Asked],
    count: usize,
) -> Option<Settled>
    requires bidders { length eligibilities.now ≡ length setup.now.bidders }
    requires within { IsWithinEligibility setup.now.products eligibilities.now grid.now }
    ensures { IfSome result
        (λ settled. IsWithinEligibility setup.now.products eligibilities.now settled.grid) }
{
    let Some(changes) = requests(alloc, asked) else {
        return None;
    };
    let settled = settle_changes(
        alloc,
        processor,
        setup,
        eligibilities,
        grid,
        &changes,
        count,
    );
    drop(changes);
    settled
}

/// Adds a bidder's demands.
pub fn push_demands(demands: &mut Amounts, row: &Row) -> Result<(), NoMemory> {
    for product in 0..row.len() {
        demands.push(row.get(product))?;
    }
    Ok(())
}

/// The demands of all bidders, row by row.
fn demands_of(alloc: Global, grid: &Grid, bidders: usize) -> Result<Amounts, NoMemory>
    requires { bidders ≤ length grid.now }
{
    let mut demands = Amounts::new(alloc);
    for bidder in 0..bidders {
        push_demands(&mut demands, grid.row(bidder))?;
    }
    Ok(demands)
}

/// Processes first requests on the demands of a round, and then others on the result.
fn settle_in_turn<P: Processor>(
    alloc: Global,
    processor: &P,
    setup: &Setup,
    eligibilities: &Amounts,
    grid: &Grid,
    requests: (&[Asked], &[Asked]),
    count: usize,
) -> Option<Settled>
    requires bidders { length eligibilities.now ≡ length setup.now.bidders }
    requires within { IsWithinEligibility setup.now.products eligibilities.now grid.now }
    ensures { IfSome result (λ settled. length settled.grid ≡ length setup.now.bidders) }
{
    let (first, second) = requests;
    let Some(begun) = settle(alloc, processor, setup, eligibilities, grid, first, count) else {
        return None;
    };
    let settled = settle(
        alloc,
        processor,
        setup,
        eligibilities,
        begun.grid(),
        second,
        count,
    );
    drop(begun);
    settled
}

/// Processes first requests on no demands, and then others on the result.
fn settle_from_none<P: Processor>(
    alloc: Global,
    processor: &P,
    setup: &Setup,
    requests: (&[Asked], &[Asked]),
    count: usize,
) -> Option<Settled>
    ensures { IfSome result (λ settled. length settled.grid ≡ length setup.now.bidders) }
{
    let Ok(eligibilities) = eligibilities(alloc, setup) else {
        return None;
    };
    let Ok(none) = Grid::zero(alloc, setup) else {
        return None;
    };
    settle_in_turn(
        alloc,
        processor,
        setup,
        &eligibilities,
        &none,
        requests,
        count,
    )
}

/// A result of bid processing: the demands row by row, what is left of each request, and the number
/// of applications.
pub type End<'a> = (&'a [u64], &'a [u64], u64);

/// Asserts a result of bid processing.
fn compare(rt: &impl Abort, alloc: Global, shows: &str, settled: &Settled, bidders: usize, end: End)
    requires { bidders ≤ length settled.now.grid }
{
    let demands = demands_of(alloc, settled.grid(), bidders).ok();
    assert_has(rt, shows, demands, end.0);
    assert_is_at(
        rt,
        shows,
        (settled.left(), settled.applied()),
        (end.1, end.2),
    );
}

/// What a case shows, first requests, others after them, the result of these, and the most tests of
/// a request's room by the event queue.
pub type Case<'a> = (&'a str, &'a [Asked], &'a [Asked], End<'a>, u64);

/// Processes requests after first ones, each time on a board that expects `count` of them, and
/// asserts the result. Returns the number of tests of a request's room.
pub fn settle_twice<P: Processor>(
    rt: &impl Abort,
    alloc: Global,
    processor: &P,
    setup: &Setup,
    case: &Case,
    count: usize,
) -> Option<u64> {
    let &(shows, first, second, end, _) = case;
    let Some(settled) = settle_from_none(alloc, processor, setup, (first, second), count) else {
        return None;
    };
    compare(
        rt,
        alloc,
        shows,
        &settled,
        setup.bidders.as_slice().len(),
        end,
    );
    let tests = settled.tests();
    drop(settled);
    Some(tests)
}
