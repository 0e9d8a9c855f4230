//! Replies to heads at a limit or above it, and to texts that are no head.
use super::hostile::{Hostile, are_reported};
use super::requests::Reported;
use clock_fixtures::NO_SHEET;

/// The reply to a head whose path has no page.
const NO_PAGE: Reported<'static> = ("404 Not Found", r#"{"code":"no_page","status":404}"#);

/// The reply to a head that is too long.
pub const LONG_HEAD: Reported<'static> = (
    "431 Request Header Fields Too Large",
    r#"{"code":"long_head","status":431}"#,
);

/// The reply to a text whose head has no valid form.
pub const BAD_HEAD: Reported<'static> = ("400 Bad Request", r#"{"code":"bad_head","status":400}"#);

/// The reply to a head from which no single body length follows.
pub const BAD_LENGTH: Reported<'static> = (
    "400 Bad Request",
    r#"{"code":"bad_length","status":400}"#,
);

/// The reply to a text that has ended too soon.
pub const CUT_SHORT: Reported<'static> = (
    "400 Bad Request",
    r#"{"code":"cut_short","status":400}"#,
);

const LONG_BODY: Reported<'static> = (
    "413 Payload Too Large",
    r#"{"code":"long_body","status":413}"#,
);

/// The reply to a head whose body has another coding.
pub const CODING: Reported<'static> = ("501 Not Implemented", r#"{"code":"coding","status":501}"#);

/// Requests and the replies to them. If a request has two faults, the reply names the first.
const TEXTS: &[Hostile<'static>] = &[
    (
        "length with a sign",
        &[(b"GET /v1/none HTTP/1.1\r\ncontent-length: +5\r\n\r\n", 1)],
        None,
        BAD_LENGTH,
        NO_SHEET,
    ),
    (
        "body of one byte too many",
        &[(
            b"GET /v1/none HTTP/1.1\r\ncontent-length: 1048577\r\n\r\n",
            1,
        )],
        None,
        LONG_BODY,
        NO_SHEET,
    ),
    (
        "longest body",
        &[(
            b"GET /v1/none HTTP/1.1\r\ncontent-length: 1048576\r\n\r\n",
            1,
        )],
        None,
        CUT_SHORT,
        NO_SHEET,
    ),
    (
        "coding",
        &[(
            b"GET /v1/none HTTP/1.1\r\ntransfer-encoding: chunked\r\n\r\n",
            1,
        )],
        None,
        CODING,
        NO_SHEET,
    ),
    (
        "coding, and a bad line",
        &[(
            b"GET /v1/none HTTP/1.1\r\ntransfer-encoding: chunked\r\na : b\r\n\r\n",
            1,
        )],
        None,
        BAD_HEAD,
        NO_SHEET,
    ),
    (
        "coding after a bad length",
        &[(
            b"GET /v1/none HTTP/1.1\r\ncontent-length: x\r\ntransfer-encoding: chunked\r\n\r\n",
            1,
        )],
        None,
        CODING,
        NO_SHEET,
    ),
    (
        "two lengths",
        &[(
            b"GET /v1/none HTTP/1.1\r\ncontent-length: 1048577\r\ncontent-length: 1048577\r\n\r\n",
            1,
        )],
        None,
        BAD_LENGTH,
        NO_SHEET,
    ),
    (
        "space before a colon",
        &[(b"GET /v1/none HTTP/1.1\r\na : b\r\n\r\n", 1)],
        None,
        BAD_HEAD,
        NO_SHEET,
    ),
    (
        "no page",
        &[(b"GET /v1/none HTTP/1.1\r\na: b\r\n\r\n", 1)],
        None,
        NO_PAGE,
        NO_SHEET,
    ),
    (
        "line feed only",
        &[(b"GET /v1/status HTTP/1.1\r\na: b\nc: d\r\n\r\n", 1)],
        None,
        BAD_HEAD,
        NO_SHEET,
    ),
];

#[test]
fn header_lines_are_answered_by_their_faults(rt: HostRuntime) {
    are_reported(&rt, rt.alloc(), TEXTS);
}

/// Heads of at most 64 lines and at most 16,384 bytes, with the number of bytes.
const WITHIN: &[Hostile<'static>] = &[
    (
        "64 lines",
        &[(b"GET / HTTP/1.1\r\n", 1), (b"a: b\r\n", 64), (b"\r\n", 1)],
        Some(402),
        NO_PAGE,
        NO_SHEET,
    ),
    (
        "longest head",
        &[
            (b"GET / HTTP/1.1\r\na: ", 1),
            (b"x", 16_361),
            (b"\r\n\r\n", 1),
        ],
        Some(16_384),
        NO_PAGE,
        NO_SHEET,
    ),
];

/// Heads above these limits. The last has not ended yet.
const BEYOND: &[Hostile<'static>] = &[
    (
        "65 lines",
        &[(b"GET / HTTP/1.1\r\n", 1), (b"a: b\r\n", 65), (b"\r\n", 1)],
        Some(408),
        LONG_HEAD,
        NO_SHEET,
    ),
    (
        "65 lines after an empty one",
        &[
            (b"\nGET / HTTP/1.1\r\n", 1),
            (b"a: b\r\n", 65),
            (b"\r\n", 1),
        ],
        Some(409),
        LONG_HEAD,
        NO_SHEET,
    ),
    (
        "one byte too many",
        &[
            (b"GET / HTTP/1.1\r\na: ", 1),
            (b"x", 16_362),
            (b"\r\n\r\n", 1),
        ],
        Some(16_385),
        LONG_HEAD,
        NO_SHEET,
    ),
    (
        "no end",
        &[(b"GET / HTTP/1.1\r\na: ", 1), (b"x", 16_365)],
        Some(16_384),
        LONG_HEAD,
        NO_SHEET,
    ),
];

#[test]
fn a_head_has_at_most_64_lines_and_16384_bytes(rt: HostRuntime) {
    are_reported(&rt, rt.alloc(), WITHIN);
}

#[test]
fn a_longer_head_is_refused(rt: HostRuntime) {
    are_reported(&rt, rt.alloc(), BEYOND);
}
