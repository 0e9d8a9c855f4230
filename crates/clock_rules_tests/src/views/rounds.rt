//! Pages of an auction of one product, in which X drops two blocks in the second round and Y
//! maintains one, so that X's reduction is applied in part.

use crate::auction::Rise::By;
use crate::auction::Step::{Close, Put, PutEach, Reads};
use crate::auction::{Play, Step, X, Y, bid, bids, play_all};
use crate::views::Page;
use clock_fixtures::ONE_PRODUCT;

/// The sheets of the first round, after which X has two blocks and Y one.
const FIRST_SHEETS: Step<'static> = PutEach(&[(X, bid!(0, 2, 100)), (Y, bid!(0, 1, 100))]);

/// The pages of auctions at each stage.
const PAGES: &[Play<'static>] = &[
    (
        "an account in the second round with no bids in force",
        ONE_PRODUCT,
        &[
            FIRST_SHEETS,
            Close(By(10), &[]),
            Reads(
                Page::Account,
                r#"{"activity":2,"demands":[2],"eligibility":3,"ended":false,"name":"X","round":2}"#,
            ),
            Reads(Page::Bids, r#"{"bids":null,"round":2}"#),
        ],
    ),
    (
        "bids in force",
        ONE_PRODUCT,
        &[
            Put(X, bids![(0, 2, 100)]),
            Reads(
                Page::Bids,
                r#"{"bids":[{"price":100,"product":0,"quantity":2}],"round":1}"#,
            ),
            Put(X, &[]),
            Reads(Page::Bids, r#"{"bids":[],"round":1}"#),
        ],
    ),
    (
        "slip, sheet and results after the partial drop",
        ONE_PRODUCT,
        &[
            FIRST_SHEETS,
            Close(By(10), &[]),
            PutEach(&[(X, bid!(0, 0, 103)), (Y, bid!(0, 1, 110))]),
            Close(By(10), &[]),
            Reads(
                Page::Slip(2),
                r#"{"activity":1,"demands":[1],"eligibility":2,"round":2}"#,
            ),
            Reads(
                Page::Sheet(2),
                r#"{"ended":true,"products":[{"clock":110,"demand":null,"name":"A","next":null,"posted":103,"start":100}],"round":2}"#,
            ),
            Reads(
                Page::Results,
                r#"{"bidders":[{"demands":[1],"eligibility":2,"name":"X"},{"demands":[1],"eligibility":2,"name":"Y"}],"ended":true,"round":2}"#,
            ),
        ],
    ),
];

#[test]
fn pages_show_the_auction_as_it_stands(rt: HostRuntime) {
    play_all(&rt, rt.alloc(), PAGES);
}
