//! What an auction refuses, and that a refusal changes nothing.

use crate::auction::Rise::By;
use crate::auction::Step::{
    Close, Hold, InForce, Lines, Put, PutEach, RefusedClose, RefusedPut, Stands,
};
use crate::auction::{Play, Step, X, Y, bid, bids, play_all, ties};
use clock_bids::BidFault;
use clock_fixtures::{AT_THE_HIGHEST, BELOW_THE_HIGHEST, ONE_PRODUCT};
use clock_house::{CloseFault, PutFault};
use clock_order::TieFault;

/// The highest price.
const HIGHEST: u64 = 1_000_000_000_000;

/// A price that can rise once more by one percent. The next price is one dollar below the highest.
const HIGH: u64 = 990_099_009_900;

const HIGHER: u64 = 999_999_999_999;

/// X and Y ask for three blocks at the highest price.
const MORE_AT_HIGHEST: Step<'static> = PutEach(&[
    (X, bid!(0, 2, HIGHEST)),
    (Y, bid!(0, 1, HIGHEST)),
]);

/// Refusals after the end, in other rounds, and with a sheet in force.
const IN_TURN: &[Play<'static>] = &[
    (
        "nobody bids and the auction ends",
        ONE_PRODUCT,
        &[
            Close(By(10), &[]),
            Lines(1, b"round 1\nA 100 100 100 - -\n"),
            Hold(&[0, 0], &[0, 0]),
            RefusedClose(1, By(10), &[], CloseFault::Ended),
            RefusedPut(X, 1, &[], PutFault::Ended),
            Stands(1, true),
        ],
    ),
    (
        "another round is refused with the current one",
        ONE_PRODUCT,
        &[
            RefusedPut(X, 2, bids![(0, 3, 100)], PutFault::WrongRound(1)),
            PutEach(&[(X, bid!(0, 2, 100)), (Y, bid!(0, 1, 100))]),
            Close(By(10), &[]),
            RefusedPut(X, 1, bids![(0, 2, 110)], PutFault::WrongRound(2)),
            InForce(X, None),
            RefusedClose(1, By(10), &[], CloseFault::WrongRound(2)),
            Stands(2, false),
        ],
    ),
    (
        "a refused sheet leaves the one in force",
        ONE_PRODUCT,
        &[
            Put(X, bids![(0, 2, 100)]),
            RefusedPut(
                X,
                1,
                bids![(0, 3, 100)],
                PutFault::Bid(BidFault::OverCap(0)),
            ),
            InForce(X, Some(bids![(0, 2, 100)])),
            Put(X, bids![(0, 1, 100)]),
            InForce(X, Some(bids![(0, 1, 100)])),
            Put(X, &[]),
            InForce(X, Some(&[])),
        ],
    ),
];

/// Refusals at the highest price.
const AT_THE_LIMIT: &[Play<'static>] = &[
    (
        "the highest price can be the last",
        AT_THE_HIGHEST,
        &[
            PutEach(&[(X, bid!(0, 1, HIGHEST)), (Y, bid!(0, 1, HIGHEST))]),
            Close(By(1), &[]),
            Lines(
                1,
                b"round 1\nA 1000000000000 1000000000000 1000000000000 - -\n",
            ),
            Hold(&[2, 2], &[1, 1]),
            InForce(X, None),
            Stands(1, true),
        ],
    ),
    (
        "a closing refused for the price limit keeps the sheets",
        AT_THE_HIGHEST,
        &[
            MORE_AT_HIGHEST,
            RefusedClose(1, By(1), &[], CloseFault::PriceLimit(0)),
            Stands(1, false),
            InForce(X, Some(bids![(0, 2, HIGHEST)])),
            InForce(Y, Some(bids![(0, 1, HIGHEST)])),
        ],
    ),
    (
        "the price limit comes in later rounds too",
        BELOW_THE_HIGHEST,
        &[
            PutEach(&[(X, bid!(0, 2, HIGH)), (Y, bid!(0, 1, HIGH))]),
            Close(By(1), &[]),
            PutEach(&[(X, bid!(0, 2, HIGHER)), (Y, bid!(0, 1, HIGHER))]),
            RefusedClose(2, By(1), &[], CloseFault::PriceLimit(0)),
            Stands(2, false),
            InForce(X, Some(bids![(0, 2, HIGHER)])),
        ],
    ),
    (
        "refused closings have their first fault",
        AT_THE_HIGHEST,
        &[
            MORE_AT_HIGHEST,
            RefusedClose(2, By(0), ties![(0, 1, 5)], CloseFault::WrongRound(1)),
            RefusedClose(1, By(0), ties![(0, 1, 5)], CloseFault::Increment),
            RefusedClose(1, By(51), ties![(0, 1, 5)], CloseFault::Increment),
            RefusedClose(
                1,
                By(1),
                ties![(0, 1, 5)],
                CloseFault::Tie(TieFault::Range(0)),
            ),
            RefusedClose(
                1,
                By(1),
                ties![(0, 0, 1), (0, 0, 2)],
                CloseFault::Tie(TieFault::Repeated(1)),
            ),
            RefusedClose(1, By(1), &[], CloseFault::PriceLimit(0)),
        ],
    ),
];

#[test]
fn a_refusal_changes_nothing(rt: HostRuntime) {
    play_all(&rt, rt.alloc(), IN_TURN);
}

#[test]
fn the_price_limit_is_the_highest_price(rt: HostRuntime) {
    play_all(&rt, rt.alloc(), AT_THE_LIMIT);
}
