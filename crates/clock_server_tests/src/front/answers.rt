//! Replies to requests that are sent one after the other.
use super::hostile::{Hostile, are_reported};
use super::requests::{compare, reply_of, request_of, setup_of};
use crate::comparing::{assert_is, assert_is_at, made_at};
use crate::front::example::{on_front, on_one_product};
use clock_api::Code;
use clock_device::{Items, Text};
use clock_fixtures::{
    ACCEPTED, ACTIVITY_LIMIT, AT_THE_HIGHEST, GRANULES_AND_INCREMENTS, NO_SHEET, ONE_PRODUCT, PUT,
};
use clock_front::{Front, Replies, Reply, run};
use clock_processor::Plain;
use std::alloc::Global;
use std::process::Abort;

/// Sends the request of a row, and compares its reply.
fn send(rt: &impl Abort, alloc: Global, front: &mut Front<Plain>, row: &str) {
    let (request, reply) = made_at(rt, row, row.split_once('>'));
    let reported = made_at(rt, row, reply.split_once('|'));
    let text = made_at(rt, row, request_of(alloc, request));
    compare(rt, alloc, front, row, text.as_str(), reported);
}

/// Sends the requests of all rows in turn.
fn send_rows(rt: &impl Abort, alloc: Global, front: &mut Front<Plain>, rows: &str) {
    for row in rows.split('\n') {
        send(rt, alloc, front, row);
    }
}

/// X's sheet is replaced by another one, and by one without bids. Y has no sheet.
const SHEETS: &str =
    r#"GET /v1/me/bids|X|>200 OK|{"bids":[{"price":100,"product":0,"quantity":2}],"round":1}
PUT /v1/me/bids|X|{"bids":[{"price":100,"product":0,"quantity":1}],"round":1}>200 OK|{"accepted":true,"bids":1,"round":1}
GET /v1/me/bids|X|>200 OK|{"bids":[{"price":100,"product":0,"quantity":1}],"round":1}
PUT /v1/me/bids|X|{"bids":[],"round":1}>200 OK|{"accepted":true,"bids":0,"round":1}
GET /v1/me/bids|X|>200 OK|{"bids":[],"round":1}
GET /v1/me/bids|Y|>200 OK|{"bids":null,"round":1}"#;

/// Sends the 147 bytes of X's sheet and compares the reply. Then sends the rows.
fn put_and_reported(rt: &impl Abort, alloc: Global, front: &mut Front<Plain>) {
    let reply = made_at(rt, PUT, reply_of(alloc, front, PUT));
    assert_is(rt, reply.as_str(), ACCEPTED);
    drop(reply);
    send_rows(rt, alloc, front, SHEETS);
}

#[test]
fn a_sheet_is_put_and_reported(rt: HostRuntime) {
    assert_is(&rt, PUT.len(), 147);
    on_one_product(
        &rt,
        rt.alloc(),
        |front| put_and_reported(&rt, rt.alloc(), front),
    );
}

/// X asks to give up two blocks, and one of the two is applied.
const DROP_IN_PART: &str =
    r#"PUT /v1/me/bids|X|{"bids":[{"price":100,"product":0,"quantity":2}],"round":1}>200 OK|{"accepted":true,"bids":1,"round":1}
PUT /v1/me/bids|Y|{"bids":[{"price":100,"product":0,"quantity":1}],"round":1}>200 OK|{"accepted":true,"bids":1,"round":1}
POST /v1/close|O|{"increment":10,"round":1,"ties":[]}>200 OK|{"closed":1,"ended":false}
PUT /v1/me/bids|X|{"bids":[{"price":110,"product":0,"quantity":2}],"round":1}>409 Conflict|{"code":"wrong_round","round":2,"status":409}
PUT /v1/me/bids|X|{"bids":[{"price":103,"product":0,"quantity":0}],"round":2}>200 OK|{"accepted":true,"bids":1,"round":2}
PUT /v1/me/bids|Y|{"bids":[{"price":110,"product":0,"quantity":1}],"round":2}>200 OK|{"accepted":true,"bids":1,"round":2}
GET /v1/me|X|>200 OK|{"activity":2,"demands":[2],"eligibility":3,"ended":false,"name":"X","round":2}
POST /v1/close|O|{"increment":10,"round":2,"ties":[]}>200 OK|{"closed":2,"ended":true}
GET /v1/results|O|>200 OK|{"bidders":[{"demands":[1],"eligibility":2,"name":"X"},{"demands":[1],"eligibility":2,"name":"Y"}],"ended":true,"round":2}
GET /v1/me/rounds/2|X|>200 OK|{"activity":1,"demands":[1],"eligibility":2,"round":2}
GET /v1/rounds/2||>200 OK|{"ended":true,"products":[{"clock":110,"demand":null,"name":"A","next":null,"posted":103,"start":100}],"round":2}
PUT /v1/me/bids|X|{"bids":[],"round":2}>409 Conflict|{"code":"ended","status":409}
PUT /v1/me/bids|X|{"bids":[],"round":1}>409 Conflict|{"code":"ended","status":409}
PUT /v1/me/bids|X|{"bids":[]}>422 Unprocessable Entity|{"code":"shape","status":422}
POST /v1/close|O|{"increment":10,"round":1,"ties":[]}>409 Conflict|{"code":"ended","status":409}
POST /v1/close|O|{"increments":[10],"round":2,"ties":[]}>422 Unprocessable Entity|{"code":"shape","status":422}"#;

/// Each request has two faults or more, of which the reply names the first.
const REFUSALS: &str = r#"DELETE /v1/none||>404 Not Found|{"code":"no_page","status":404}
DELETE /v1/me/bids||>405 Method Not Allowed|{"code":"method","status":405}
PUT /v1/me/bids||x>401 Unauthorized|{"code":"token","status":401}
PUT /v1/me/bids|O|x>403 Forbidden|{"code":"role","status":403}
PUT /v1/me/bids|O|{"bids":[]}>403 Forbidden|{"code":"role","status":403}
POST /v1/close|X|x>403 Forbidden|{"code":"role","status":403}
POST /v1/close|X|{"increments":[10],"round":1,"ties":[]}>403 Forbidden|{"code":"role","status":403}
PUT /v1/me/bids|X|x>400 Bad Request|{"code":"bad_json","status":400}
PUT /v1/me/bids|X|{"bids":[]}>422 Unprocessable Entity|{"code":"shape","status":422}
PUT /v1/me/bids|X|{"bids":[{"price":1,"product":1,"quantity":2}],"round":2}>409 Conflict|{"code":"wrong_round","round":1,"status":409}
PUT /v1/me/bids|X|{"bids":[{"price":1,"product":1,"quantity":2}],"round":1}>422 Unprocessable Entity|{"code":"unknown_product","place":0,"status":422}
PUT /v1/me/bids|X|{"bids":[{"price":101,"product":0,"quantity":3}],"round":1}>422 Unprocessable Entity|{"code":"price_range","place":0,"status":422}
POST /v1/close|O|{"increments":[10],"round":2,"ties":[]}>422 Unprocessable Entity|{"code":"shape","status":422}
POST /v1/close|O|{"increment":51,"round":2,"ties":[[0,1,5]]}>409 Conflict|{"code":"wrong_round","round":1,"status":409}
POST /v1/close|O|{"increment":51,"round":1,"ties":[[0,1,5]]}>422 Unprocessable Entity|{"code":"increment","status":422}
POST /v1/close|O|{"increment":10,"round":1,"ties":[[0,0,1],[0,0,2]]}>422 Unprocessable Entity|{"code":"tie_repeated","place":1,"status":422}
GET /v1/rounds/01||>404 Not Found|{"code":"no_round","status":404}
GET /v1/products||>200 OK|{"products":[{"cap":2,"name":"A","opening":100,"supply":2,"units":1}],"requirement":95,"version":1}"#;

/// Each request has one fault.
const FAULTS: &str = r#"GET /v1/me||>401 Unauthorized|{"code":"token","status":401}
GET /v1/me|O|>403 Forbidden|{"code":"role","status":403}
GET /v1/rounds/1||>404 Not Found|{"code":"no_round","status":404}
POST /v1/close|O|{"increment":0,"round":1,"ties":[]}>422 Unprocessable Entity|{"code":"increment","status":422}
POST /v1/close|O|{"increment":51,"round":1,"ties":[]}>422 Unprocessable Entity|{"code":"increment","status":422}
POST /v1/close|O|{"increment":10,"round":1,"ties":[[0,1,5]]}>422 Unprocessable Entity|{"code":"tie_range","place":0,"status":422}
PUT /v1/me/bids|X|{"bids":[{"price":101,"product":0,"quantity":1}],"round":1}>422 Unprocessable Entity|{"code":"price_range","place":0,"status":422}
PUT /v1/me/bids|X|{"bids":[{"price":100,"product":0,"quantity":3}],"round":1}>422 Unprocessable Entity|{"code":"over_cap","place":0,"status":422}
PUT /v1/me/bids|X|{"bids":[{"price":100,"product":0,"quantity":1},{"price":100,"product":0,"quantity":2}],"round":1}>422 Unprocessable Entity|{"code":"price_order","place":1,"status":422}
PUT /v1/me/bids|X|{"bids":[{"price":100,"product":0,"quantity":2}],"round":1}>200 OK|{"accepted":true,"bids":1,"round":1}
PUT /v1/me/bids|Y|{"bids":[{"price":100,"product":0,"quantity":1}],"round":1}>200 OK|{"accepted":true,"bids":1,"round":1}
POST /v1/close|O|{"increment":10,"round":1,"ties":[]}>200 OK|{"closed":1,"ended":false}
PUT /v1/me/bids|X|{"bids":[{"price":103,"product":0,"quantity":1},{"price":105,"product":0,"quantity":2}],"round":2}>422 Unprocessable Entity|{"code":"mixed_direction","place":1,"status":422}
PUT /v1/me/bids|X|{"bids":[{"price":105,"product":0,"quantity":2}],"round":2}>422 Unprocessable Entity|{"code":"keep_price","place":0,"status":422}"#;

/// A sheet whose requested activity is above its bidder's eligibility.
const ACTIVE: &str =
    r#"PUT /v1/me/bids|X|{"bids":[{"price":100,"product":0,"quantity":4},{"price":100,"product":1,"quantity":1}],"round":1}>422 Unprocessable Entity|{"code":"over_activity","status":422}"#;

/// A round that can't be closed at its demand still has its sheets, and can be closed once it has
/// less.
const PRICE_LIMIT: &str =
    r#"PUT /v1/me/bids|X|{"bids":[{"price":1000000000000,"product":0,"quantity":2}],"round":1}>200 OK|{"accepted":true,"bids":1,"round":1}
PUT /v1/me/bids|Y|{"bids":[{"price":1000000000000,"product":0,"quantity":1}],"round":1}>200 OK|{"accepted":true,"bids":1,"round":1}
POST /v1/close|O|{"increment":1,"round":1,"ties":[[0,1,5]]}>422 Unprocessable Entity|{"code":"tie_range","place":0,"status":422}
POST /v1/close|O|{"increment":1,"round":1,"ties":[]}>422 Unprocessable Entity|{"code":"price_limit","place":0,"status":422}
GET /v1/status||>200 OK|{"ended":false,"round":1,"version":1}
GET /v1/me/bids|X|>200 OK|{"bids":[{"price":1000000000000,"product":0,"quantity":2}],"round":1}
GET /v1/me/bids|Y|>200 OK|{"bids":[{"price":1000000000000,"product":0,"quantity":1}],"round":1}
PUT /v1/me/bids|X|{"bids":[{"price":1000000000000,"product":0,"quantity":1}],"round":1}>200 OK|{"accepted":true,"bids":1,"round":1}
POST /v1/close|O|{"increment":1,"round":1,"ties":[]}>200 OK|{"closed":1,"ended":true}"#;

/// A closing has an increment for each product.
const VERSION_2: &str =
    r#"POST /v1/close|O|{"increment":10,"round":1,"ties":[]}>422 Unprocessable Entity|{"code":"shape","status":422}
POST /v1/close|O|{"increments":[10],"round":1,"ties":[]}>422 Unprocessable Entity|{"code":"increment","status":422}
POST /v1/close|O|{"increments":[10,20,30],"round":1,"ties":[]}>422 Unprocessable Entity|{"code":"increment","status":422}
POST /v1/close|O|{"increments":[10,51],"round":1,"ties":[]}>422 Unprocessable Entity|{"code":"increment","status":422}
POST /v1/close|O|{"increments":[10,20],"round":1,"ties":[]}>200 OK|{"closed":1,"ended":true}
GET /v1/status||>200 OK|{"ended":true,"round":1,"version":2}"#;

/// The set-ups of auctions, and the requests that are sent to each.
const AUCTIONS: &[(&str, &str)] = &[
    (ONE_PRODUCT, DROP_IN_PART),
    (ONE_PRODUCT, REFUSALS),
    (ONE_PRODUCT, FAULTS),
    (ACTIVITY_LIMIT, ACTIVE),
    (AT_THE_HIGHEST, PRICE_LIMIT),
    (GRANULES_AND_INCREMENTS, VERSION_2),
];

#[test]
fn requests_are_answered_in_turn(rt: HostRuntime) {
    for row in AUCTIONS {
        on_front(&rt, rt.alloc(), row.0, |front| {
            send_rows(&rt, rt.alloc(), front, row.1)
        });
    }
}

/// Bodies with one item too many. A sheet has at most 8,192 bids, and a closing at most 16,384
/// tie-breaking numbers. All items of a body are equal.
const TOO_MANY: &[Hostile<'static>] = &[
    (
        "bids",
        &[
            (
                b"PUT /v1/me/bids HTTP/1.1\r\nauthorization: Bearer XXXXXXXXXXXXXXXX\r\ncontent-length: 319547\r\n\r\n",
                1,
            ),
            (br#"{"bids":[{"price":100,"product":0,"quantity":1}"#, 1),
            (br#",{"price":100,"product":0,"quantity":1}"#, 8_192),
            (br#"],"round":1}"#, 1),
        ],
        Some(319_639),
        (
            "422 Unprocessable Entity",
            r#"{"code":"too_many","status":422}"#,
        ),
        NO_SHEET,
    ),
    (
        "tie-breaking numbers",
        &[
            (
                b"POST /v1/close HTTP/1.1\r\nauthorization: Bearer OPERATOROPERATOR\r\ncontent-length: 131115\r\n\r\n",
                1,
            ),
            (br#"{"increment":10,"round":1,"ties":[[0,1,5]"#, 1),
            (b",[0,1,5]", 16_384),
            (b"]}", 1),
        ],
        Some(131_206),
        (
            "422 Unprocessable Entity",
            r#"{"code":"too_many_ties","status":422}"#,
        ),
        NO_SHEET,
    ),
];

#[test]
fn a_body_has_at_most_so_many_items(rt: HostRuntime) {
    are_reported(&rt, rt.alloc(), TOO_MANY);
}

/// Texts, and the codes of the replies to them.
const RUN: &[(&str, Code)] = &[
    ("GET /v1/status HTTP/1.1\r\n\r\n", Code::Done),
    ("GET /v1/status", Code::CutShort),
];

/// The texts of rows.
fn texts_of(alloc: Global, rows: &[(&str, Code)]) -> Option<Items<Text>> {
    let mut texts = Items::new(alloc);
    for row in rows {
        let text = Text::from_slice(alloc, row.0.as_bytes()).ok()?;
        texts.push(text).ok()?;
    }
    Some(texts)
}

/// Asserts the codes of replies.
fn have_codes(rt: &impl Abort, replies: &[Reply], rows: &[(&str, Code)]) {
    assert_is(rt, replies.len(), rows.len());
    for place in 0..rows.len() {
        if let Some(reply) = replies.get(place) {
            assert_is_at(rt, rows[place].0, reply.code(), rows[place].1);
        }
    }
}

/// The replies of a run to texts.
fn replies_of(alloc: Global, texts: &[Text]) -> Option<Replies> {
    let setup = setup_of(alloc, ONE_PRODUCT)?;
    run(alloc, setup, Plain, texts).ok()
}

/// Asserts the codes of the replies of a run to the texts of rows.
fn run_has_codes(rt: &impl Abort, alloc: Global, rows: &[(&str, Code)]) {
    let texts = made_at(rt, "texts", texts_of(alloc, rows));
    let replies = made_at(rt, "replies", replies_of(alloc, texts.as_slice()));
    have_codes(rt, replies.as_slice(), rows);
}

#[test]
fn a_run_gives_a_reply_to_each_text(rt: HostRuntime) {
    run_has_codes(&rt, rt.alloc(), RUN);
}
