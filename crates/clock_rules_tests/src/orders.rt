//! Tie-breaking numbers and the order of processing in two small auctions.

ghost use Rattle.std.specs.Prelude.{◌≡◌, ◌≢◌, AllPairs, IfOk, IfSome};
ghost use Rattle.clock_terms.specs.Requests.{AreApart};

use crate::auction::ties;
use crate::comparing::{assert_is, assert_is_at};
use crate::setups::setup_in;
use clock_device::NoMemory;
use clock_fixtures::{ONE_PRODUCT, TWO_PRODUCTS};
use clock_money::Point;
use clock_order::{Tie, TieFault, Ties, are_in_order, ordered, put_by_code};
use clock_terms::{Change, Changes, Kind};
use std::alloc::Global;

/// A reduction by a block: the product, the start-of-round price, the price, and the clock price.
type Reduction = (u32, u64, u64, u64);

/// The change that a bidder's reduction asks for.
fn change(bidder: u32, reduction: &Reduction) -> Option<Change>
    ensures { IfSome result (λ change. change.bidder ≡ bidder) }
{
    let &(product, start, price, clock) = reduction;
    let Some(point) = Point::of(start, price, clock) else {
        return None;
    };
    Some(Change {
        bidder,
        product,
        place: 0,
        kind: Kind::Reduction,
        amount: 1,
        price,
        point,
    })
}

/// The changes of two bidders.
fn both(alloc: Global, first: &Change, second: &Change) -> Result<Changes, NoMemory>
    requires { first.now.bidder ≢ second.now.bidder }
    ensures { IfOk result (AllPairs AreApart) }
{
    let mut changes = Changes::new(alloc);
    changes.push(*first)?;
    changes.push(*second)?;
    Ok(changes)
}

/// The tie-breaking numbers of a list, in the auction of a set-up document, or their fault.
fn ties_of(alloc: Global, document: &str, list: &[Tie]) -> Option<Result<Ties, TieFault>> {
    let Some(setup) = setup_in(alloc, document) else {
        return None;
    };
    let ties = Ties::new(alloc, &setup, list);
    drop(setup);
    Some(ties)
}

/// The bidder of the first change.
fn first_bidder(changes: &[Change]) -> Option<u32> {
    match changes.first() {
        Some(change) => Some(change.bidder),
        None => None,
    }
}

/// Which of two reductions, of bidder 0 and bidder 1, is processed first.
fn first_of(alloc: Global, ties: &Ties, x: &Reduction, y: &Reduction) -> Option<u32> {
    let (Some(x), Some(y)) = (change(0, x), change(1, y)) else {
        return None;
    };
    let Ok(changes) = both(alloc, &x, &y) else {
        return None;
    };
    match ordered(alloc, changes, ties) {
        Ok(list) => first_bidder(list.as_slice()),
        Err(_) => None,
    }
}

/// The bidder whose reduction is first, like [`first_of`], with the tie-breaking numbers of a list.
fn first_in(
    alloc: Global,
    document: &str,
    list: &[Tie],
    reductions: &(Reduction, Reduction),
) -> Option<u32> {
    let Some(Ok(ties)) = ties_of(alloc, document, list) else {
        return None;
    };
    let first = first_of(alloc, &ties, &reductions.0, &reductions.1);
    drop(ties);
    first
}

/// Reductions of bidder 0 and bidder 1 at equal price points: of products with other prices, and of
/// one product.
const OF_TWO: (Reduction, Reduction) = ((0, 100, 105, 110), (1, 1000, 1050, 1100));

/// Reductions at price points that differ by about a 2^126th, the second just below the first.
const CLOSE: (Reduction, Reduction) = (
    (0, 0, 1 << 62, (1 << 63) + 1),
    (1, 0, (1 << 62) - 1, (1 << 63) - 1),
);

const OF_ONE: (Reduction, Reduction) = ((0, 100, 104, 110), (0, 100, 104, 110));

/// A set-up document, the tie-breaking numbers of a list, the reductions, and the bidder whose is
/// processed first.
const ORDERS: &[(&str, &[Tie], (Reduction, Reduction), u32)] = &[
    (TWO_PRODUCTS, ties![(0, 0, 2), (1, 1, 1)], OF_TWO, 1),
    (TWO_PRODUCTS, &[], OF_TWO, 0),
    (TWO_PRODUCTS, &[], CLOSE, 1),
    (ONE_PRODUCT, ties![(0, 0, 9), (1, 0, 3)], OF_ONE, 1),
    (ONE_PRODUCT, &[], OF_ONE, 0),
];

#[test]
fn changes_go_by_point_and_then_by_tie_number_and_bidder(rt: HostRuntime) {
    for row in ORDERS {
        let first = first_in(rt.alloc(), row.0, row.1, &row.2);
        assert_is_at(&rt, row.1, first, Some(row.3));
    }
}

/// Requests for 64 products in chains of 4, as a closing makes them: by bidder, product, and place.
/// Products differ in the range of their prices.
fn many(alloc: Global, count: u32) -> Option<Changes> {
    let mut changes = Changes::new(alloc);
    for number in 0..count {
        let product = number / 4 % 64;
        let range = 1 + product as u64 % 20;
        let price = 100 + number as u64 % (range + 1);
        let Some(mut one) = change(number / 256, &(product, 100, price, 100 + range)) else {
            return None;
        };
        one.place = number % 4;
        if changes.push(one).is_err() {
            return None;
        }
    }
    Some(changes)
}

/// Two reductions that codes do not tell apart, in the wrong order.
fn close(alloc: Global) -> Option<Changes> {
    let (Some(x), Some(y)) = (change(0, &CLOSE.0), change(1, &CLOSE.1)) else {
        return None;
    };
    both(alloc, &x, &y).ok()
}

/// Whether codes put requests into the order of processing.
fn is_by_code(alloc: Global, list: &[Tie], changes: Option<Changes>) -> Option<bool> {
    let (Some(mut changes), Some(Ok(ties))) = (changes, ties_of(alloc, TWO_PRODUCTS, list)) else {
        return None;
    };
    let put = put_by_code(alloc, &mut changes, &ties);
    let is_right = are_in_order(changes.as_slice(), &ties);
    drop(ties);
    drop(changes);
    match put {
        Ok(()) => Some(is_right),
        Err(_) => None,
    }
}

#[test]
fn codes_put_the_requests_of_a_closing_in_order(rt: HostRuntime) {
    let none = is_by_code(rt.alloc(), &[], many(rt.alloc(), 2048));
    assert_is(&rt, none, Some(true));
    let some = is_by_code(
        rt.alloc(),
        ties![(0, 0, 2), (1, 1, 1)],
        many(rt.alloc(), 2048),
    );
    assert_is(&rt, some, Some(true));
    // enough to be moved to their blocks first
    let long = is_by_code(rt.alloc(), ties![(0, 0, 2)], many(rt.alloc(), 300_000));
    assert_is(&rt, long, Some(true));
}

#[test]
fn requests_in_the_wrong_order_are_noticed(rt: HostRuntime) {
    assert_is(
        &rt,
        is_by_code(rt.alloc(), &[], close(rt.alloc())),
        Some(false),
    );
}

/// Lists of tie-breaking numbers, and their faults in the auction of one product.
const FAULTY: &[(&[Tie], TieFault)] = &[
    (ties![(0, 1, 5)], TieFault::Range(0)),
    (ties![(0, 0, 1), (0, 0, 2)], TieFault::Repeated(1)),
];

/// The fault of a list of tie-breaking numbers, if it has one.
fn fault_of(alloc: Global, list: &[Tie]) -> Option<TieFault> {
    ties_of(alloc, ONE_PRODUCT, list)?.err()
}

/// The fault of a list of `count` equal tie-breaking numbers.
fn fault_of_many(alloc: Global, count: usize) -> Option<TieFault> {
    let tie = Tie {
        bidder: 0,
        product: 1,
        number: 5,
    };
    let Ok(many) = vec![in alloc; tie; count] else {
        return None;
    };
    fault_of(alloc, many.as_slice())
}

#[test]
fn a_tie_list_is_refused_for_its_first_fault(rt: HostRuntime) {
    for row in FAULTY {
        assert_is_at(&rt, row.0, fault_of(rt.alloc(), row.0), Some(row.1));
    }
    let fault = fault_of_many(rt.alloc(), 16_385);
    assert_is(&rt, fault, Some(TieFault::TooMany));
}
