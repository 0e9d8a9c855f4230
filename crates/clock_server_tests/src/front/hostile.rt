//! Truncated and malicious texts. Over whole bytes, a stream, and a connection, the replies are
//! equal.
use super::heads::{BAD_HEAD, BAD_LENGTH, CODING, CUT_SHORT, LONG_HEAD};
use super::hubs::{bytes_of, connected, fed, finished, on_hub};
use super::requests::{Reported, reply_with};
use crate::comparing::{assert_is_at, assert_reads_at, made_at};
use crate::front::example::on_one_product;
use crate::repeated::{Piece, repeated};
use clock_device::{ListSink, ListSource, Text};
use clock_fixtures::{BIDS_OF_X, NO_SHEET, PUT, SHEET};
use clock_front::{Front, Hub, serve_stream};
use clock_processor::Plain;
use std::alloc::Global;
use std::process::Abort;

/// The reply to a text that comes over a stream.
fn by_stream(alloc: Global, front: &mut Front<Plain>, text: &[u8]) -> Option<Text> {
    let mut source = ListSource::new(text, 100, None);
    let mut sink = ListSink::new(alloc, 1024, 100, None).ok()?;
    let _answer = serve_stream(alloc, front, &mut source, &mut sink);
    let written = Text::from_slice(alloc, sink.bytes()).ok();
    drop(sink);
    written
}

/// The reply to a text as whole bytes, or over a stream.
fn by_front(alloc: Global, front: &mut Front<Plain>, is_whole: bool, text: &[u8]) -> Option<Text> {
    if is_whole {
        return bytes_of(alloc, front.answer(text)).ok();
    }
    by_stream(alloc, front, text)
}

/// The reply to a text that comes over a connection, in single bytes that then end.
fn by_hub(alloc: Global, hub: &mut Hub<Plain>, text: &[u8]) -> Option<Text> {
    let conn = connected(hub).ok()?;
    for byte in text {
        if let Some(reply) = fed(alloc, hub, conn, &[*byte]).ok()? {
            return Some(reply);
        }
    }
    finished(alloc, hub, conn).ok()
}

/// A text with its name and its length, the reply to it, and the end of the page of X's bids then.
type Case<'a> = (&'a str, &'a [u8], &'a str, &'a str);

/// Asserts the reply to a text.
fn is_reply(rt: &impl Abort, way: &str, case: &Case<'_>, reply: Option<Text>) {
    let reply = made_at(rt, (case.0, case.1.len(), way), reply);
    assert_reads_at(rt, (case.0, case.1.len(), way), reply.as_slice(), case.2);
}

/// Asserts the end of the page of X's bids after a text.
fn ends_with(rt: &impl Abort, way: &str, case: &Case<'_>, bids: Option<Text>) {
    let bids = made_at(rt, (case.0, case.1.len(), way), bids);
    let is_end = bids.as_slice().ends_with(case.3.as_bytes());
    assert_is_at(rt, (case.0, case.1.len(), way), is_end, true);
}

/// Asserts the replies of a front to a text and to X's request for its bids.
fn are_by_front(
    rt: &impl Abort,
    alloc: Global,
    front: &mut Front<Plain>,
    is_whole: bool,
    case: &Case<'_>,
) {
    let way = if is_whole { "whole" } else { "stream" };
    is_reply(rt, way, case, by_front(alloc, front, is_whole, case.1));
    let asked = BIDS_OF_X.as_bytes();
    ends_with(rt, way, case, by_front(alloc, front, is_whole, asked));
}

/// Asserts the replies of a hub to a text and to X's request for its bids.
fn are_by_hub(rt: &impl Abort, alloc: Global, hub: &mut Hub<Plain>, case: &Case<'_>) {
    is_reply(rt, "connection", case, by_hub(alloc, hub, case.1));
    let asked = BIDS_OF_X.as_bytes();
    ends_with(rt, "connection", case, by_hub(alloc, hub, asked));
}

/// Asserts the reply to a text by a new front, and the end of the page of X's bids then.
fn is_reported_by(rt: &impl Abort, alloc: Global, is_whole: bool, case: &Case<'_>) {
    on_one_product(rt, alloc, |front| {
        are_by_front(rt, alloc, front, is_whole, case)
    })
}

/// Asserts the reply to a text, and the end of the page of X's bids then. The text and the request
/// for the page come as whole bytes, over a stream, and over a connection.
fn is_reported(rt: &impl Abort, alloc: Global, case: &Case<'_>) {
    is_reported_by(rt, alloc, true, case);
    is_reported_by(rt, alloc, false, case);
    on_hub(rt, alloc, |hub| are_by_hub(rt, alloc, hub, case))
}

/// The name of a text, its pieces, and its length if a limit depends on it; the reply, and the end
/// of the page of X's bids then.
pub(super) type Hostile<'a> = (
    &'a str,
    &'a [Piece<'a>],
    Option<usize>,
    Reported<'a>,
    &'a str,
);

/// Asserts what a row says.
fn row_is_reported(rt: &impl Abort, alloc: Global, row: &Hostile<'_>) {
    let text = made_at(rt, row.0, repeated(alloc, row.1));
    assert_is_at(rt, row.0, text.len(), row.2.unwrap_or(text.len()));
    let reply = made_at(rt, row.0, reply_with(alloc, row.3.0, row.3.1));
    is_reported(rt, alloc, &(row.0, text.as_slice(), reply.as_str(), row.4));
}

/// Asserts what each row says.
pub(super) fn are_reported(rt: &impl Abort, alloc: Global, rows: &[Hostile<'_>]) {
    for row in rows {
        row_is_reported(rt, alloc, row);
    }
}

/// The first lines of a request to submit X's sheet, before its other header lines.
const HEAD: Piece<'static> = (
    b"PUT /v1/me/bids HTTP/1.1\r\nauthorization: Bearer XXXXXXXXXXXXXXXX\r\n",
    1,
);

/// A sheet without bids.
const EMPTY: Piece<'static> = (b"{\"bids\":[],\"round\":1}", 1);

const TOKEN: Reported<'static> = ("401 Unauthorized", r#"{"code":"token","status":401}"#);

const BAD_JSON: Reported<'static> = ("400 Bad Request", r#"{"code":"bad_json","status":400}"#);

const SHAPE: Reported<'static> = (
    "422 Unprocessable Entity",
    r#"{"code":"shape","status":422}"#,
);

/// Requests that begin with [`HEAD`], with faults in their other header lines or in their bodies.
const MALICIOUS: &[Hostile<'static>] = &[
    (
        "a byte 0 in a line",
        &[HEAD, (b"content-length: 21\r\na: b\0\r\n\r\n", 1), EMPTY],
        None,
        BAD_HEAD,
        NO_SHEET,
    ),
    (
        "coded",
        &[
            HEAD,
            (
                b"transfer-encoding: chunked\r\ncontent-length: x\r\n\r\n",
                1,
            ),
            EMPTY,
        ],
        None,
        CODING,
        NO_SHEET,
    ),
    (
        "two lengths",
        &[
            HEAD,
            (b"content-length: 21\r\ncontent-length: 21\r\n\r\n", 1),
            EMPTY,
        ],
        None,
        BAD_LENGTH,
        NO_SHEET,
    ),
    (
        "two tokens",
        &[
            HEAD,
            (
                b"authorization: Bearer XXXXXXXXXXXXXXXX\r\ncontent-length: 21\r\n\r\n",
                1,
            ),
            EMPTY,
        ],
        None,
        TOKEN,
        NO_SHEET,
    ),
    (
        "a byte that is no text",
        &[
            HEAD,
            (
                b"content-length: 29\r\n\r\n{\"bids\":[],\"round\":1,\"x\":\"\xff\"}",
                1,
            ),
        ],
        None,
        BAD_JSON,
        NO_SHEET,
    ),
    (
        "a part of a block",
        &[
            HEAD,
            (
                b"content-length: 61\r\n\r\n{\"bids\":[{\"price\":100,\"product\":0,\"quantity\":1.0}],\"round\":1}",
                1,
            ),
        ],
        None,
        SHAPE,
        NO_SHEET,
    ),
    (
        "a negative quantity",
        &[
            HEAD,
            (
                b"content-length: 60\r\n\r\n{\"bids\":[{\"price\":100,\"product\":0,\"quantity\":-1}],\"round\":1}",
                1,
            ),
        ],
        None,
        SHAPE,
        NO_SHEET,
    ),
];

#[test]
fn malicious_texts_are_refused(rt: HostRuntime) {
    are_reported(&rt, rt.alloc(), MALICIOUS);
}

#[test]
fn each_beginning_of_a_request_is_cut_short(rt: HostRuntime) {
    for count in 0..147 {
        let text = PUT.as_bytes().get(..count).unwrap_or(b"more");
        let case: Case<'_> = ("beginning", text, clock_fixtures::CUT_SHORT, NO_SHEET);
        is_reported(&rt, rt.alloc(), &case);
    }
}

/// The reply to [`PUT`].
const ACCEPTED: Reported<'static> = ("200 OK", r#"{"accepted":true,"bids":1,"round":1}"#);

/// Long texts. What follows a request is ignored, and spaces are a head that is too long from the
/// limit on.
const LONG: &[Hostile<'static>] = &[
    (
        "after a request",
        &[
            HEAD,
            (b"content-length: 59\r\n\r\n", 1),
            (
                br#"{"bids":[{"price":100,"product":0,"quantity":2}],"round":1}"#,
                1,
            ),
            (b"x", 1_000),
        ],
        Some(1_147),
        ACCEPTED,
        SHEET,
    ),
    (
        "spaces",
        &[(b" ", 16_383)],
        Some(16_383),
        CUT_SHORT,
        NO_SHEET,
    ),
    (
        "too many spaces",
        &[(b" ", 16_384)],
        Some(16_384),
        LONG_HEAD,
        NO_SHEET,
    ),
];

#[test]
fn long_texts_are_answered_by_their_beginning(rt: HostRuntime) {
    are_reported(&rt, rt.alloc(), LONG);
}

/// A request whose sheet of 2,000 bytes is a thousand nested lists.
const NESTED: &[Hostile<'static>] = &[(
    "nested",
    &[
        HEAD,
        (b"content-length: 2000\r\n\r\n", 1),
        (b"[", 1_000),
        (b"]", 1_000),
    ],
    None,
    BAD_JSON,
    NO_SHEET,
)];

#[test]
fn deep_nesting_is_no_json(rt: HostRuntime) {
    are_reported(&rt, rt.alloc(), NESTED);
}
