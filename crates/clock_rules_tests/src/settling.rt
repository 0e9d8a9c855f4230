//! Bid processing: the results of requests, with the rescanned list and with the event queue.

use crate::comparing::{assert_is, assert_is_at};
use crate::settle::{Asked, Case, End, settle_twice};
use crate::setups::setup_in;
use clock_fixtures::TWO_PRODUCTS;
use clock_processor::Plain;
use clock_queue::Woken;
use clock_setup::Setup;
use clock_terms::Kind;
use std::alloc::Global;
use std::process::Abort;

/// X asks for two of B, Y for two of A, and Z for one of B.
const FIRST: &[Asked] = &[
    (Kind::Increase, 0, 1, 2, 100),
    (Kind::Increase, 1, 0, 2, 100),
    (Kind::Increase, 2, 1, 1, 100),
];

const Y_REDUCES_A: Asked = (Kind::Reduction, 1, 0, 1, 102);

const X_RAISES_A: Asked = (Kind::Increase, 0, 0, 1, 104);

const X_REDUCES_B: Asked = (Kind::Reduction, 0, 1, 1, 106);

const Z_DROPS_B: Asked = (Kind::Reduction, 2, 1, 1, 100);

const X_DROPS_B: Asked = (Kind::Reduction, 0, 1, 2, 106);

/// Processes the requests of a case with both processors, and asserts the results. The board of the
/// rescanned list expects many requests, the one of the event queue few. Returns whether the event
/// queue makes at most the case's number of tests, or `None` if a request cannot be processed.
fn settles(rt: &impl Abort, alloc: Global, setup: &Setup, case: &Case) -> Option<bool> {
    let Some(_) = settle_twice(rt, alloc, &Plain, setup, case, usize::MAX) else {
        return None;
    };
    match settle_twice(rt, alloc, &Woken, setup, case, 0) {
        Some(tests) => Some(tests <= case.4),
        None => None,
    }
}

/// The result of [`settles`] in the auction of a set-up document.
fn settles_in(rt: &impl Abort, alloc: Global, document: &str, case: &Case) -> Option<bool> {
    let Some(setup) = setup_in(alloc, document) else {
        return None;
    };
    let settled = settles(rt, alloc, &setup, case);
    drop(setup);
    settled
}

/// Requests after the first ones on two products.
const AFTER_FIRST: &[Case<'static>] = &[
    (
        "an increase waits for two reductions",
        FIRST,
        &[Y_REDUCES_A, X_RAISES_A, X_REDUCES_B],
        (&[1, 1, 1, 0, 0, 1], &[0, 0, 0], 3),
        9,
    ),
    (
        "requests without room are left",
        FIRST,
        &[Y_REDUCES_A, X_RAISES_A],
        (&[0, 2, 2, 0, 0, 1], &[1, 1], 0),
        u64::MAX,
    ),
    (
        "nothing is asked for",
        FIRST,
        &[],
        (&[0, 2, 2, 0, 0, 1], &[], 0),
        u64::MAX,
    ),
    (
        "an earlier drop takes the excess",
        FIRST,
        &[Z_DROPS_B, X_DROPS_B],
        (&[0, 2, 2, 0, 0, 0], &[0, 2], 1),
        u64::MAX,
    ),
];

#[test]
fn requests_come_to_their_ends(rt: HostRuntime) {
    for case in AFTER_FIRST {
        let settled = settles_in(&rt, rt.alloc(), TWO_PRODUCTS, case);
        assert_is_at(&rt, case.0, settled, Some(true));
    }
}

/// A set-up document up to its first bidder, and after its last.
const FIRST_BIDDER: &str =
    r#"{"bidders":[{"eligibility":1,"name":"B100","token":"TOKENTOKENTOK100"}"#;

const A_HUNDRED_BLOCKS: &str =
    r#"],"operator":"OPERATOROPERATOR","products":[{"cap":1,"name":"A","opening":100,"supply":100,"units":1}],"requirement":100,"version":1}"#;

/// Adds a bidder with eligibility 1 to a list. Returns whether it did.
fn push_bidder(alloc: Global, text: &mut String, number: u32) -> bool {
    let entry = format!(in alloc;
        r#",{{"eligibility":1,"name":"B{number}","token":"TOKENTOKENTOK{number}"}}"#
    );
    match entry {
        Ok(entry) => text.push_str(entry.as_str()).is_ok(),
        Err(_) => false,
    }
}

/// Writes a set-up document with a product of a hundred blocks and a hundred bidders, each with a
/// cap of one block. Returns whether it did.
fn push_a_hundred(alloc: Global, text: &mut String) -> bool {
    if text.push_str(FIRST_BIDDER).is_err() {
        return false;
    }
    for number in 101..200 {
        if !push_bidder(alloc, text, number) {
            return false;
        }
    }
    text.push_str(A_HUNDRED_BLOCKS).is_ok()
}

/// A request of each of a hundred bidders for one block at 100.
fn of_each(alloc: Global, kind: Kind) -> Option<Vec<Asked>> {
    let mut asked = Vec::new(alloc);
    for bidder in 0..100 {
        if asked.push((kind, bidder, 0, 1, 100)).is_err() {
            return None;
        }
    }
    Some(asked)
}

/// The demands of a hundred bidders with a block each, and what is left of their requests.
const ONES: &[u64] = &[1; 100];

/// Each of a hundred bidders gets a block, and still has it after all ask to give theirs up.
fn each_keeps_a_block(rt: &impl Abort, alloc: Global, document: &str) -> Option<bool> {
    let Some(taken) = of_each(alloc, Kind::Increase) else {
        return None;
    };
    let Some(given) = of_each(alloc, Kind::Reduction) else {
        return None;
    };
    let end: End = (ONES, ONES, 0);
    let case: Case = ("a hundred", taken.as_slice(), given.as_slice(), end, 100);
    settles_in(rt, alloc, document, &case)
}

/// The result of [`each_keeps_a_block`] in an auction of a hundred.
fn each_of_a_hundred_keeps_a_block(rt: &impl Abort, alloc: Global) -> Option<bool> {
    let mut document = String::new(alloc);
    let settled = if push_a_hundred(alloc, &mut document) {
        each_keeps_a_block(rt, alloc, document.as_str())
    } else {
        None
    };
    drop(document);
    settled
}

#[test]
fn nobody_can_give_up_a_block_without_excess(rt: HostRuntime) {
    let settled = each_of_a_hundred_keeps_a_block(&rt, rt.alloc());
    assert_is(&rt, settled, Some(true));
}
