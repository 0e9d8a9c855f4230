//! Refusals of sheets.

use crate::auction::Rise::By;
use crate::auction::Step::{Close, InForce, Put, PutEach, RefusedPut};
use crate::auction::{Play, X, Y, Z, bid, bids, play_all};
use crate::comparing::assert_is;
use clock_bids::{Bid, BidFault};
use clock_fixtures::{ONE_PRODUCT, TWO_PRODUCTS};
use clock_house::PutFault;
use std::alloc::{AllocError, Global};
use std::process::Abort;

/// Sheets that are refused.
const SHEETS: &[Play<'static>] = &[
    (
        "a sheet is refused for its first fault",
        ONE_PRODUCT,
        &[
            RefusedPut(
                X,
                1,
                bids![(1, 1, 100)],
                PutFault::Bid(BidFault::UnknownProduct(0)),
            ),
            RefusedPut(
                X,
                1,
                bids![(0, 1, 101)],
                PutFault::Bid(BidFault::PriceRange(0)),
            ),
            RefusedPut(
                X,
                1,
                bids![(0, 3, 100)],
                PutFault::Bid(BidFault::OverCap(0)),
            ),
            RefusedPut(
                X,
                1,
                bids![(0, 1, 100), (0, 2, 100)],
                PutFault::Bid(BidFault::PriceOrder(1)),
            ),
            Put(X, bids![(0, 0, 100)]),
            InForce(X, Some(bids![(0, 0, 100)])),
        ],
    ),
    (
        "a chain goes one way at rising prices",
        ONE_PRODUCT,
        &[
            PutEach(&[(X, bid!(0, 2, 100)), (Y, bid!(0, 1, 100))]),
            Close(By(10), &[]),
            RefusedPut(
                X,
                2,
                bids![(0, 1, 103), (0, 2, 105)],
                PutFault::Bid(BidFault::MixedDirection(1)),
            ),
            RefusedPut(
                X,
                2,
                bids![(0, 2, 105)],
                PutFault::Bid(BidFault::KeepPrice(0)),
            ),
            RefusedPut(
                X,
                2,
                bids![(0, 1, 103), (0, 0, 103)],
                PutFault::Bid(BidFault::PriceOrder(1)),
            ),
        ],
    ),
    (
        "a sheet asks for no more than the eligibility",
        TWO_PRODUCTS,
        &[RefusedPut(
            Z,
            1,
            bids![(0, 1, 100), (1, 1, 100)],
            PutFault::Bid(BidFault::OverActivity),
        )],
    ),
];

#[test]
fn a_sheet_is_refused_for_its_first_fault(rt: HostRuntime) {
    play_all(&rt, rt.alloc(), SHEETS);
}

/// A list of `count` bids for a block of the first product.
fn blocks(alloc: Global, count: usize) -> Result<Vec<Bid>, AllocError> {
    vec![in alloc; bid!(0, 1, 100); count]
}

/// Plays a case in which a sheet with these bids is refused.
fn is_too_many(rt: &impl Abort, alloc: Global, bids: &[Bid]) {
    let step = RefusedPut(X, 1, bids, PutFault::Bid(BidFault::TooMany));
    play_all(rt, alloc, &[("8193 bids", ONE_PRODUCT, &[step])]);
}

#[test]
fn a_sheet_has_at_most_two_bids_for_each_of_the_most_products(rt: HostRuntime) {
    let many = blocks(rt.alloc(), 8193);
    assert_is(&rt, many.is_ok(), true);
    if let Ok(many) = many {
        is_too_many(&rt, rt.alloc(), many.as_slice());
    }
}
