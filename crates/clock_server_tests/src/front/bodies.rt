//! The meaning of the bodies of requests.
use crate::comparing::assert_is_at;
use clock_bids::Bid;
use clock_front::{BodyFault, CloseBody, read_close, read_put};
use clock_terms::Increments;
use std::alloc::Global;
use std::process::Abort;

/// The bids of the first sheet.
const TWO_BIDS: [Bid; 2] = [
    Bid {
        product: 0,
        quantity: 2,
        price: 100,
    },
    Bid {
        product: 7,
        quantity: 1,
        price: 0,
    },
];

/// A sheet: its round and its bids.
type Sheet<'a> = (u64, &'a [Bid]);

/// The body of a sheet, and the sheet or the fault.
type SheetRow<'a> = (&'a [u8], Result<Sheet<'a>, BodyFault>);

/// The last two are no text.
const SHEETS: &[SheetRow<'static>] = &[
    (
        br#" {"round":1,"bids":[{"price":100,"product":0,"quantity":2}, {"quantity":1,"\u0070rice":0,"product":7}]}"#,
        Ok((1, &TWO_BIDS)),
    ),
    (
        br#"{"bids":[],"round":18446744073709551615}"#,
        Ok((18446744073709551615, &[])),
    ),
    (br#"{"bids":[],"round":1}"#, Ok((1, &[]))),
    (b"", Err(BodyFault::NotJson)),
    (br#"{"bids":[]"#, Err(BodyFault::NotJson)),
    (br#"{"bids":[],"round":1}x"#, Err(BodyFault::NotJson)),
    (br#"{"bids":[],"round":1e400}"#, Err(BodyFault::NotJson)),
    (br#"{"bids":[],"round":"\ud800"}"#, Err(BodyFault::NotJson)),
    (br#"[]"#, Err(BodyFault::Shape)),
    (br#"{"bids":[]}"#, Err(BodyFault::Shape)),
    (br#"{"bids":null,"round":1}"#, Err(BodyFault::Shape)),
    (br#"{"bids":[],"round":1,"x":1}"#, Err(BodyFault::Shape)),
    (br#"{"bids":[1],"round":1}"#, Err(BodyFault::Shape)),
    (
        br#"{"bids":[{"price":100,"product":0}],"round":1}"#,
        Err(BodyFault::Shape),
    ),
    (
        br#"{"bids":[{"price":100,"product":0,"quantity":2,"x":1}],"round":1}"#,
        Err(BodyFault::Shape),
    ),
    (
        br#"{"bids":[{"price":100,"product":"0","quantity":2}],"round":1}"#,
        Err(BodyFault::Shape),
    ),
    (
        br#"{"bids":[],"round":18446744073709551616}"#,
        Err(BodyFault::Shape),
    ),
    (br#"{"bids":[],"round":-0}"#, Err(BodyFault::Shape)),
    (br#"{"bids":[],"round":-1}"#, Err(BodyFault::Shape)),
    (br#"{"bids":[],"round":1.0}"#, Err(BodyFault::Shape)),
    (br#"{"bids":[],"round":1e2}"#, Err(BodyFault::Shape)),
    (br#"{"bids":[],"round":1e-400}"#, Err(BodyFault::Shape)),
    (
        b"\xef\xbb\xbf{\"bids\":[],\"round\":1}",
        Err(BodyFault::NotJson),
    ),
    (b"{\"bids\":[],\"round\":\"\xff\"}", Err(BodyFault::NotJson)),
];

/// Asserts the meaning of the body of a sheet.
fn is_sheet(rt: &impl Abort, alloc: Global, row: &SheetRow<'_>) {
    match read_put(alloc, row.0) {
        Ok(put) => {
            let reported = Ok((put.round, put.bids.as_slice()));
            assert_is_at(rt, row.0, reported, row.1);
        }
        Err(fault) => assert_is_at(rt, row.0, Err(fault), row.1),
    }
}

#[test]
fn a_sheet_is_its_bids_and_round(rt: HostRuntime) {
    for row in SHEETS {
        is_sheet(&rt, rt.alloc(), row);
    }
}

/// The numbers of a closing's increments by product and of its tie-breaking numbers, and its round.
type Closing = (usize, usize, u64);

/// Bodies of closings, and the closing or the fault.
const CLOSINGS: &[(&[u8], Result<Closing, BodyFault>)] = &[
    (br#"{"increment":10,"round":1,"ties":[]}"#, Ok((0, 0, 1))),
    (
        br#"{"increments":[10,20],"round":2,"ties":[[0,1,5],[1,0,3]]}"#,
        Ok((2, 2, 2)),
    ),
    (
        br#"{"increment":10,"increments":[10],"round":1,"ties":[]}"#,
        Err(BodyFault::Shape),
    ),
    (br#"{"round":1,"ties":[]}"#, Err(BodyFault::Shape)),
    (
        br#"{"increment":10,"round":1,"ties":[[0,1]]}"#,
        Err(BodyFault::Shape),
    ),
    (
        br#"{"increment":10,"round":1,"ties":[[0,1,5,6]]}"#,
        Err(BodyFault::Shape),
    ),
    (
        br#"{"increment":10,"round":1,"ties":[}"#,
        Err(BodyFault::NotJson),
    ),
];

/// The numbers and the round of a closing.
fn reported(closing: &CloseBody) -> Closing {
    let increments = match &closing.increments {
        Increments::Single(_) => 0,
        Increments::PerProduct(increments) => increments.as_slice().len(),
    };
    (increments, closing.ties.as_slice().len(), closing.round)
}

/// Reads the body of a closing.
fn closing_of(alloc: Global, body: &[u8]) -> Result<Closing, BodyFault> {
    let closing = read_close(alloc, body)?;
    let reported = reported(&closing);
    drop(closing);
    Ok(reported)
}

#[test]
fn a_closing_has_one_form_of_increments(rt: HostRuntime) {
    for row in CLOSINGS {
        assert_is_at(&rt, row.0, closing_of(rt.alloc(), row.0), row.1);
    }
}
