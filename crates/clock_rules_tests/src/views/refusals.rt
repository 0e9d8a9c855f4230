//! Pages of refusals, with a place, with a round, and with neither.

use crate::comparing::assert_has;
use clock_api::Code;
use clock_bids::BidFault;
use clock_device::Text;
use clock_house::{CloseFault, PutFault};
use clock_order::TieFault;
use clock_views::{Refusal, headed_refusal, refusal_page};
use std::alloc::Global;

/// Codes and their pages.
const ALONE: &[(Code, &[u8])] = &[
    (Code::NoPage, br#"{"code":"no_page","status":404}"#),
    (Code::CutShort, br#"{"code":"cut_short","status":400}"#),
    (Code::Memory, br#"{"code":"memory","status":503}"#),
];

#[test]
fn codes_that_stand_alone(rt: HostRuntime) {
    for row in ALONE {
        let page = refusal_page(rt.alloc(), row.0, None, None).ok();
        assert_has(&rt, row.0, page, row.1);
    }
}

/// The page of a refusal.
fn page_of(alloc: Global, refusal: Refusal) -> Option<Text> {
    headed_refusal(alloc, b"", refusal).ok()
}

/// Faults of sheets and their pages. Two are of sheets that come too late.
const OF_SHEETS: &[(PutFault, &[u8])] = &[
    (PutFault::Ended, br#"{"code":"ended","status":409}"#),
    (
        PutFault::WrongRound(2),
        br#"{"code":"wrong_round","round":2,"status":409}"#,
    ),
    (
        PutFault::Bid(BidFault::OverCap(0)),
        br#"{"code":"over_cap","place":0,"status":422}"#,
    ),
    (
        PutFault::Bid(BidFault::OverActivity),
        br#"{"code":"over_activity","status":422}"#,
    ),
];

#[test]
fn sheets_with_a_fault(rt: HostRuntime) {
    for row in OF_SHEETS {
        let page = page_of(rt.alloc(), Refusal::from(row.0));
        assert_has(&rt, row.0, page, row.1);
    }
}

/// Faults of closings and their pages.
const OF_CLOSINGS: &[(CloseFault, &[u8])] = &[
    (
        CloseFault::PriceLimit(0),
        br#"{"code":"price_limit","place":0,"status":422}"#,
    ),
    (
        CloseFault::Tie(TieFault::Repeated(1)),
        br#"{"code":"tie_repeated","place":1,"status":422}"#,
    ),
];

#[test]
fn closings_with_a_fault(rt: HostRuntime) {
    for row in OF_CLOSINGS {
        let page = page_of(rt.alloc(), Refusal::from(row.0));
        assert_has(&rt, row.0, page, row.1);
    }
}
