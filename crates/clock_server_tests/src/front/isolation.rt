//! One bidder's replies in two runs in which it sees the same.
mod in_pieces;

use super::requests::{reply_of, request_of};
use crate::comparing::{assert_is_at, made_at};
use crate::front::example::on_front;
use clock_front::Front;
use clock_processor::Plain;
use std::alloc::{AllocError, Global};
use std::process::Abort;

/// The public set-up.
const PUBLIC: &str =
    r#""version":1,"requirement":95,"operator":"OPERATOROPERATOR","products":[{"name":"A","units":1,"supply":2,"cap":2,"opening":100}]"#;

/// Bidders of a run. X has the same row in each such list.
const X_AND_Y: &str =
    r#"{"name":"X","token":"XXXXXXXXXXXXXXXX","eligibility":10},{"name":"Y","token":"YYYYYYYYYYYYYYYY","eligibility":10}"#;

/// X's own requests by turns: the request line, the owner of the token, and the body. After each
/// turn the others have theirs.
const OWN: &[&str] = &[
    r#"GET /v1/me/bids|X|
PUT /v1/me/bids|X|{"bids":[{"price":100,"product":0,"quantity":3}],"round":1}
PUT /v1/me/bids|X|{"bids":[{"price":100,"product":0,"quantity":2}],"round":1}"#,
    r#"GET /v1/me/bids|X|
GET /v1/rounds/1|X|"#,
    r#"PUT /v1/me/bids|X|{"bids":[{"price":110,"product":0,"quantity":2}],"round":1}
GET /v1/rounds/1|X|
GET /v1/me/rounds/1|X|
PUT /v1/me/bids|X|{"bids":[{"price":103,"product":0,"quantity":0}],"round":2}
GET /v1/me|X|"#,
    r#"GET /v1/me/bids|X|
GET /v1/status|X|"#,
    r#"GET /v1/me|X|
GET /v1/me/rounds/2|X|
GET /v1/rounds/2|X|
GET /v1/products|X|
GET /v1/none|X|
DELETE /v1/me/bids|X|
GET /v1/results|X|
POST /v1/close|X|{"increment":10,"round":2,"ties":[]}
PUT /v1/me/bids|X|{"bids":[],"round":2}"#,
];

/// The pages of X's account in round 2, and of round 2's results.
const PAGES: &str =
    r#"{"activity":2,"demands":[2],"eligibility":3,"ended":false,"name":"X","round":2}
{"activity":1,"demands":[1],"eligibility":2,"round":2}
{"ended":true,"products":[{"clock":110,"demand":null,"name":"A","next":null,"posted":103,"start":100}],"round":2}"#;

/// The row of a request, and whether the request is X's.
type Sent<'a> = (&'a str, bool);

/// Adds the requests of rows.
fn push_rows<'a>(requests: &mut Vec<Sent<'a>>, rows: &'a str, is_own: bool) -> Option<()> {
    for row in rows.split('\n') {
        requests.push((row, is_own)).ok()?;
    }
    Some(())
}

/// The requests of a run in their order: in each turn X's, and then those of the others.
fn requests_of<'a>(alloc: Global, others: &[&'a str]) -> Option<Vec<Sent<'a>>> {
    let own = OWN;
    let mut requests = Vec::new(alloc);
    for turn in 0..own.len() {
        push_rows(&mut requests, own[turn], true)?;
        if turn < others.len() {
            push_rows(&mut requests, others[turn], false)?;
        }
    }
    Some(requests)
}

/// The reply to the request of a row.
fn reply_to(alloc: Global, front: &mut Front<Plain>, row: &str) -> Option<String> {
    let text = request_of(alloc, row)?;
    reply_of(alloc, front, text.as_str())
}

/// The replies to X's requests, from a front that answers all requests in turn.
fn reported_in_turn(alloc: Global, front: &mut Front<Plain>, requests: &[Sent]) -> Option<String> {
    let mut reported = String::new(alloc);
    for &(row, is_own) in requests {
        let reply = reply_to(alloc, front, row)?;
        if is_own {
            reported.push_str(reply.as_str()).ok()?;
        }
    }
    Some(reported)
}

/// The set-up document with this public set-up and these bidders.
fn document_of(alloc: Global, public: &str, bidders: &str) -> Result<String, AllocError> {
    format!(in alloc; "{{{public},\"bidders\":[{bidders}]}}")
}

/// A run: its bidders, and what the others send in each turn.
type Run<'a> = (&'a str, &'a [&'a str]);

/// The replies to X's requests in a run with this public set-up.
fn reported_x(rt: &impl Abort, alloc: Global, public: &str, run: &Run<'_>) -> String {
    let document = made_at(rt, run, document_of(alloc, public, run.0).ok());
    let requests = made_at(rt, run, requests_of(alloc, run.1));
    let reported = on_front(rt, alloc, document.as_str(), |front| {
        reported_in_turn(alloc, front, requests.as_slice())
    });
    made_at(rt, run, reported)
}

/// Whether each of [`PAGES`] is in X's replies.
fn has_pages(reported: &str) -> bool {
    PAGES.split('\n').all(|page| reported.contains(page))
}

/// Y asks for one block in both rounds.
const BY_Y: &[&str] = &[
    r#"PUT /v1/me/bids|Y|{"bids":[{"price":100,"product":0,"quantity":1}],"round":1}"#,
    r#"POST /v1/close|O|{"increment":10,"round":1,"ties":[]}"#,
    r#"PUT /v1/me/bids|Y|{"bids":[{"price":110,"product":0,"quantity":1}],"round":2}"#,
    r#"POST /v1/close|O|{"increment":10,"round":2,"ties":[]}"#,
];

/// X between two other bidders.
const V_X_AND_W: &str =
    r#"{"name":"V","token":"VVVVVVVVVVVVVVVV","eligibility":3},{"name":"X","token":"XXXXXXXXXXXXXXXX","eligibility":10},
{"name":"W","token":"WWWWWWWWWWWWWWWW","eligibility":5}"#;

/// W instead of Y: a sheet of two blocks first, and at the end one that is over the cap.
const BY_W: &[&str] = &[
    r#"PUT /v1/me/bids|W|{"bids":[{"price":100,"product":0,"quantity":2}],"round":1}
PUT /v1/me/bids|W|{"bids":[{"price":100,"product":0,"quantity":1}],"round":1}
PUT /v1/me/bids|W|{"bids":[{"price":100,"product":0,"quantity":3}],"round":1}"#,
    r#"POST /v1/close|O|{"increment":10,"round":1,"ties":[]}"#,
    r#"PUT /v1/me/bids|W|{"bids":[{"price":110,"product":0,"quantity":1}],"round":2}"#,
    r#"POST /v1/close|O|{"increment":10,"round":2,"ties":[]}"#,
];

/// The requests of Y, and three that are refused: a closing, a sheet without a valid token, and no
/// head.
const BY_Y_AND_STRANGERS: &[&str] = &[
    r#"PUT /v1/me/bids|Y|{"bids":[{"price":100,"product":0,"quantity":1}],"round":1}
POST /v1/close|O|{"increment":0,"round":1,"ties":[]}"#,
    r#"PUT /v1/me/bids|N|{"bids":[{"price":100,"product":0,"quantity":1}],"round":1}
POST /v1/close|O|{"increment":10,"round":1,"ties":[]}"#,
    r#"GET  /v1/status|N|
PUT /v1/me/bids|Y|{"bids":[{"price":110,"product":0,"quantity":1}],"round":2}"#,
    r#"POST /v1/close|O|{"increment":10,"round":2,"ties":[]}"#,
];

/// The public set-up in version 2.
const PUBLIC_2: &str = r#""version":2,"limit":125,"requirement":95,"operator":"OPERATOROPERATOR",
"products":[{"name":"A","units":1,"supply":2,"cap":2,"opening":100,"granule":1}]"#;

/// The requests of Y and the operator in version 2, in which a closing has an increment for each
/// product.
const BY_Y_2: &[&str] = &[
    r#"PUT /v1/me/bids|Y|{"bids":[{"price":100,"product":0,"quantity":1}],"round":1}"#,
    r#"POST /v1/close|O|{"increments":[10],"round":1,"ties":[]}"#,
    r#"PUT /v1/me/bids|Y|{"bids":[{"price":110,"product":0,"quantity":1}],"round":2}"#,
    r#"POST /v1/close|O|{"increments":[10],"round":2,"ties":[]}"#,
];

const BY_W_2: &[&str] = &[
    r#"PUT /v1/me/bids|W|{"bids":[{"price":100,"product":0,"quantity":2}],"round":1}
PUT /v1/me/bids|W|{"bids":[{"price":100,"product":0,"quantity":1}],"round":1}
PUT /v1/me/bids|W|{"bids":[{"price":100,"product":0,"quantity":3}],"round":1}"#,
    r#"POST /v1/close|O|{"increments":[10],"round":1,"ties":[]}"#,
    r#"PUT /v1/me/bids|W|{"bids":[{"price":110,"product":0,"quantity":1}],"round":2}"#,
    r#"POST /v1/close|O|{"increments":[10],"round":2,"ties":[]}"#,
];

/// The bidders of [`X_AND_Y`] in another order.
const Y_AND_X: &str =
    r#"{"name":"Y","token":"YYYYYYYYYYYYYYYY","eligibility":10},{"name":"X","token":"XXXXXXXXXXXXXXXX","eligibility":10}"#;

/// Y's sheets with faults and the operator's refused closings, in another order in each turn, and
/// tie-breaking numbers for the other order of bidders.
const BY_Y_WITH_FAULTS: &[&str] = &[
    r#"POST /v1/close|O|{"increment":51,"round":1,"ties":[]}
PUT /v1/me/bids|Y|{"bids":[{"price":101,"product":0,"quantity":1}],"round":1}
PUT /v1/me/bids|Y|{"bids":[{"price":100,"product":0,"quantity":1}],"round":1}"#,
    r#"PUT /v1/me/bids|Y|{"bids":[],"round":2}
POST /v1/close|O|{"increment":10,"round":2,"ties":[]}
POST /v1/close|O|{"increment":10,"round":1,"ties":[[0,0,7],[1,0,3]]}"#,
    r#"PUT /v1/me/bids|Y|{"bids":[{"price":110,"product":0,"quantity":1}],"round":2}
POST /v1/close|O|{"increments":[10],"round":2,"ties":[]}
PUT /v1/me/bids|Y|{"bids":[{"price":110,"product":0,"quantity":1}]}"#,
    r#"POST /v1/close|O|{"increment":10,"round":2,"ties":[[1,0,1],[1,0,1]]}
POST /v1/close|O|{"increment":10,"round":2,"ties":[[1,0,2]]}"#,
];

/// Y's requests and the operator's with other faults.
const BY_Y_WITH_OTHER_FAULTS: &[&str] = &[
    r#"PUT /v1/me/bids|Y|{"bids":[{"price":100,"product":0,"quantity":1}],"round":1}
PUT /v1/me/bids|Y|{"bids":[{"price":100,"product":1,"quantity":1}],"round":1}
POST /v1/close|O|{"increment":10,"round":1,"ties":[[2,0,1]]}"#,
    r#"POST /v1/close|Y|{"increment":10,"round":1,"ties":[]}
POST /v1/close|O|{"increment":10,"round":1,"ties":[]}
PUT /v1/me/bids|Y|{"bids":[],"round":1}"#,
    r#"POST /v1/close|O|{"increment":10,"round":1,"ties":[]}
PUT /v1/me/bids|Y|{"bids":[{"price":105,"product":0,"quantity":2}],"round":2}
PUT /v1/me/bids|Y|{"bids":[{"price":110,"product":0,"quantity":1}],"round":2}"#,
    r#"PUT /v1/me/bids|Y|{"bids":[{"price":111,"product":0,"quantity":1}],"round":2}
POST /v1/close|O|{"increment":10,"round":2,"ties":[[0,0,8]]}"#,
];

/// What X's replies hide, the public set-up, and two runs that differ only in it.
type Hidden<'a> = (&'a str, &'a str, Run<'a>, Run<'a>);

const RUNS: &[Hidden<'static>] = &[
    ("rivals", PUBLIC, (X_AND_Y, BY_Y), (V_X_AND_W, BY_W)),
    (
        "refused requests",
        PUBLIC,
        (X_AND_Y, BY_Y_AND_STRANGERS),
        (V_X_AND_W, BY_W),
    ),
    (
        "rivals in version 2",
        PUBLIC_2,
        (X_AND_Y, BY_Y_2),
        (V_X_AND_W, BY_W_2),
    ),
    ("its number", PUBLIC, (X_AND_Y, BY_Y), (Y_AND_X, BY_Y)),
    (
        "faults and ties of others",
        PUBLIC,
        (X_AND_Y, BY_Y_WITH_FAULTS),
        (X_AND_Y, BY_Y_WITH_OTHER_FAULTS),
    ),
];

/// Asserts X's replies in the second run, with its pages among them. A failure names what the runs
/// hide.
fn is_reported(rt: &impl Abort, alloc: Global, row: &Hidden<'_>, expected: &str) {
    let reported = reported_x(rt, alloc, row.1, &row.3);
    let is_whole = has_pages(reported.as_str());
    assert_is_at(rt, row.0, (reported.as_str(), is_whole), (expected, true));
}

/// Asserts that X's replies in both runs are equal.
fn is_reported_alike(rt: &impl Abort, alloc: Global, row: &Hidden<'_>) {
    let reported = reported_x(rt, alloc, row.1, &row.2);
    is_reported(rt, alloc, row, reported.as_str());
}

#[test]
fn what_a_bidder_may_not_see_shows_in_no_reply(rt: HostRuntime) {
    for row in RUNS {
        is_reported_alike(&rt, rt.alloc(), row);
    }
}
