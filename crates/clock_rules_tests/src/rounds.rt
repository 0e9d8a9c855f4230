//! Whole rounds: the requests that are applied, the posted prices, and each bidder's results.

use crate::auction::Rise::{By, Each};
use crate::auction::Step::{
    Close, Hold, Lines, Put, PutEach, RefusedClose, RefusedPut, Slip, Stands,
};
use crate::auction::{Play, Step, X, Y, Z, bid, bids, play_all, ties};
use clock_bids::BidFault;
use clock_fixtures::{
    ACTIVITY_LIMIT, GRANULES_AND_INCREMENTS, NO_HIGHER_LIMIT, ONE_PRODUCT, SEVEN_BLOCKS,
    TWO_PRODUCTS,
};
use clock_house::{CloseFault, PutFault};

/// The second bidder, which is Z if there is no Y.
const SECOND: u32 = 1;

/// The fault of a sheet whose requested activity is above the limit.
const OVER: PutFault = PutFault::Bid(BidFault::OverActivity);

/// In a first round, X asks for 2 blocks and Y for 1 of a supply of 2, so that there is a second.
const FIRST: Step<'static> = PutEach(&[(X, bid!(0, 2, 100)), (Y, bid!(0, 1, 100))]);

const CLOSE: Step<'static> = Close(By(10), &[]);

const POSTED: Step<'static> = Lines(1, b"round 1\nA 100 100 100 3 110\n");

/// In the second round, X drops both; or Y maintains its one too; or both give up a block at equal
/// price points.
const X_DROPS: Step<'static> = Put(X, bids![(0, 0, 103)]);

const Y_KEEPS: Step<'static> = PutEach(&[(X, bid!(0, 0, 103)), (Y, bid!(0, 1, 110))]);

const BOTH: Step<'static> = PutEach(&[(X, bid!(0, 1, 104)), (Y, bid!(0, 0, 104))]);

/// Y has the lower tie-breaking number.
const Y_FIRST: Step<'static> = Close(By(10), ties![(0, 0, 9), (1, 0, 3)]);

/// The posted price then.
const AT_100: Step<'static> = Lines(2, b"round 2\nA 100 110 100 - -\n");

const AT_103: Step<'static> = Lines(2, b"round 2\nA 100 110 103 - -\n");

const AT_104: Step<'static> = Lines(2, b"round 2\nA 100 110 104 - -\n");

/// X has both blocks, or each has one, and the auction has ended.
const X_HOLDS: Step<'static> = Hold(&[3, 0], &[2, 0]);

const ONE_EACH: Step<'static> = Hold(&[2, 2], &[1, 1]);

const ENDED: Step<'static> = Stands(2, true);

type Steps = &'static [Step<'static>];

const NO_ROOM: Steps = &[FIRST, CLOSE, POSTED, X_DROPS, CLOSE, AT_100, X_HOLDS, ENDED];

const IN_PART: Steps = &[
    FIRST, CLOSE, POSTED, Y_KEEPS, CLOSE, AT_103, ONE_EACH, ENDED,
];

const BY_TIES: Steps = &[FIRST, CLOSE, POSTED, BOTH, Y_FIRST, AT_104, X_HOLDS, ENDED];

const NO_TIES: Steps = &[FIRST, CLOSE, POSTED, BOTH, CLOSE, AT_104, ONE_EACH, ENDED];

const NO_SHEETS: Steps = &[FIRST, CLOSE, POSTED, CLOSE, AT_100, ONE_EACH, ENDED];

/// Rounds of an auction of one product.
const OF_ONE_PRODUCT: &[Play<'static>] = &[
    (
        "demand at supply ends the auction",
        ONE_PRODUCT,
        &[
            PutEach(&[(X, bid!(0, 1, 100)), (Y, bid!(0, 1, 100))]),
            Close(By(10), &[]),
            Lines(1, b"round 1\nA 100 100 100 - -\n"),
            Stands(1, true),
        ],
    ),
    ("a drop without room keeps the demand", ONE_PRODUCT, NO_ROOM),
    ("a drop is applied as far as it may", ONE_PRODUCT, IN_PART),
    ("a lower tie number goes first", ONE_PRODUCT, BY_TIES),
    ("a lower bidder goes first without", ONE_PRODUCT, NO_TIES),
    ("missing sheets drop at the start", ONE_PRODUCT, NO_SHEETS),
    (
        "a slip tells a bidder its own results",
        ONE_PRODUCT,
        &[
            Put(X, bids![(0, 2, 100)]),
            Close(By(10), &[]),
            Slip(X, 1, 2, 3, &[2]),
            Slip(Y, 1, 0, 0, &[0]),
            Stands(1, true),
        ],
    ),
];

/// X and Z ask for three blocks of B, and Y for both of A.
const MORE_OF_B: Step<'static> = PutEach(&[
    (X, bid!(1, 2, 100)),
    (Y, bid!(0, 2, 100)),
    (Z, bid!(1, 1, 100)),
]);

/// Rounds of auctions of two products.
const OF_TWO_PRODUCTS: &[Play<'static>] = &[
    (
        "a freed request is taken up again",
        TWO_PRODUCTS,
        &[
            MORE_OF_B,
            Close(By(10), &[]),
            Lines(1, b"round 1\nA 100 100 100 - 110\nB 100 100 100 3 110\n"),
            Put(Y, bids![(0, 1, 102)]),
            Put(X, bids![(0, 1, 104), (1, 1, 106)]),
            Put(Z, bids![(1, 1, 110)]),
            Close(By(10), &[]),
            Lines(2, b"round 2\nA 100 110 102 - -\nB 100 110 106 - -\n"),
            Hold(&[2, 1, 1], &[1, 1, 1, 0, 0, 1]),
            Stands(2, true),
        ],
    ),
    (
        "each product rises by its increment to its granule",
        GRANULES_AND_INCREMENTS,
        &[
            MORE_OF_B,
            RefusedClose(1, Each(&[10]), &[], CloseFault::Increment),
            RefusedClose(1, Each(&[10, 51]), &[], CloseFault::Increment),
            Close(Each(&[10, 20]), &[]),
            Lines(1, b"round 1\nA 100 100 100 - 125\nB 100 100 100 3 120\n"),
            Stands(2, false),
        ],
    ),
    (
        "a sheet may ask for activity up to the limit",
        ACTIVITY_LIMIT,
        &[
            RefusedPut(X, 1, bids![(0, 4, 100), (1, 1, 100)], OVER),
            PutEach(&[(X, bid!(0, 4, 100)), (SECOND, bid!(0, 4, 100))]),
            Close(Each(&[10, 10]), &[]),
            Lines(1, b"round 1\nA 100 100 100 8 110\nB 100 100 100 - 110\n"),
            RefusedPut(X, 2, bids![(0, 3, 104), (1, 3, 106)], OVER),
            Put(X, bids![(0, 3, 104), (1, 2, 106)]),
            Put(SECOND, bids![(0, 4, 110)]),
            Close(Each(&[10, 10]), &[]),
            Lines(2, b"round 2\nA 100 110 110 7 121\nB 100 110 100 - 110\n"),
            Slip(X, 2, 8, 8, &[3, 1]),
        ],
    ),
    (
        "the limit is rounded down",
        SEVEN_BLOCKS,
        &[
            Put(X, bids![(0, 7, 100), (1, 3, 100)]),
            Put(SECOND, bids![(0, 1, 100)]),
            Close(By(10), &[]),
            RefusedPut(X, 2, bids![(0, 7, 110), (1, 6, 110)], OVER),
            Put(X, bids![(0, 7, 110), (1, 5, 110)]),
        ],
    ),
    (
        "without a higher limit the eligibility binds",
        NO_HIGHER_LIMIT,
        &[
            PutEach(&[(X, bid!(0, 4, 100)), (SECOND, bid!(0, 4, 100))]),
            Close(Each(&[10, 10]), &[]),
            RefusedPut(X, 2, bids![(0, 3, 104), (1, 2, 106)], OVER),
        ],
    ),
    (
        "a product without excess is raised too",
        TWO_PRODUCTS,
        &[
            PutEach(&[
                (X, bid!(1, 2, 100)),
                (Y, bid!(0, 1, 100)),
                (Z, bid!(1, 1, 100)),
            ]),
            Close(By(10), &[]),
            PutEach(&[(X, bid!(1, 2, 110)), (Z, bid!(1, 1, 110))]),
            Close(By(10), &[]),
            Lines(2, b"round 2\nA 100 110 100 - 110\nB 100 110 110 3 121\n"),
            Hold(&[2, 1, 1], &[0, 2, 1, 0, 0, 1]),
            Stands(3, false),
        ],
    ),
];

#[test]
fn rounds_of_one_product_are_played(rt: HostRuntime) {
    play_all(&rt, rt.alloc(), OF_ONE_PRODUCT);
}

#[test]
fn rounds_of_two_products_are_played(rt: HostRuntime) {
    play_all(&rt, rt.alloc(), OF_TWO_PRODUCTS);
}
