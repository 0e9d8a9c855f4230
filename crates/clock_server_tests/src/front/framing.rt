//! Framing of texts, whole and in pieces.
ghost use Rattle.std.specs.Prelude.{◌≤◌, length};
ghost use Rattle.clock_http.specs.Shown.{Knows};

use crate::comparing::{assert_is_at, made_at};
use crate::front::example::on_one_product;
use clock_api::Code;
use clock_front::{Framing, Front, frame};
use clock_http::Progress;
use clock_processor::Plain;
use std::alloc::Global;
use std::process::Abort;

/// The parts of a request: its method, its path, its token, and its body.
type Parts<'a> = (&'a [u8], &'a [u8], Option<&'a [u8]>, &'a [u8]);

/// The framing of a text: a request of these parts, or one that needs more, or the code that
/// refuses it.
type Framed<'a> = Result<Option<Parts<'a>>, Code>;

/// The framing of a request without a token and a body.
const BARE: Framed<'static> = Ok(Some((b"GET", b"/", None, b"")));

/// The framing of a request with a line end for a body, of one with a token and a body, and of one
/// with spaces around its token.
const WITH_LINE: Framed<'static> = Ok(Some((b"GET", b"/", None, b"\n")));

const WITH_BOTH: Framed<'static> = Ok(Some((b"PUT", b"/v1/me/bids", Some(b"abc"), b"{} ")));

const WITH_TOKEN: Framed<'static> = Ok(Some((b"GET", b"/", Some(b"a bc"), b"")));

/// Texts, by their framing.
const TEXTS: &[(Framed<'static>, &[&[u8]])] = &[
    (Ok(None), UNDECIDED),
    (BARE, BARE_TEXTS),
    (
        WITH_LINE,
        &[b"GET / HTTP/1.1\r\nContent-Length: \t 0001 \r\n\r\n\nx"],
    ),
    (
        WITH_BOTH,
        &[
            b"PUT /v1/me/bids?x HTTP/1.1\r\nauthorization: Bearer abc\r\ncontent-length: 3\r\n\r\n{} and more",
        ],
    ),
    (
        WITH_TOKEN,
        &[b"GET / HTTP/1.1\r\nAuthorization:\tbEARER   a bc \r\n\r\n"],
    ),
    (Err(Code::BadHead), BAD_HEADS),
    (Err(Code::BadLength), BAD_LENGTHS),
    (Err(Code::LongBody), LONG_BODIES),
    (Err(Code::Coding), CODINGS),
];

const UNDECIDED: &[&[u8]] = &[
    b"",
    b"\r",
    b"\n\n",
    b"GET / HTTP/1.1\n\n",
    b"GET / HTTP/1.1\r\n\r",
    b"GET / HTTP/1.1\r\ncontent-length: 2\r\n\r\n1",
    b"GET / HTTP/1.1\r\ncontent-length: 01048576\r\n\r\n",
];

const BARE_TEXTS: &[&[u8]] = &[
    b"GET / HTTP/1.0\r\n\r\n",
    b"GET / HTTP/1.1\r\nauthorization: Bearer\tabc\r\n\r\n",
    b"GET / HTTP/1.1\r\nauthorization: Bearer \r\n\r\n",
    b"GET / HTTP/1.1\r\nauthorization: Basic abc\r\n\r\n",
    b"GET / HTTP/1.1\r\nauthorization: Bearer abc\r\nauthorization: Bearer abc\r\n\r\n",
];

const BAD_HEADS: &[&[u8]] = &[
    b"\r\n\r\n",
    b"\r\nGET / HTTP/1.1\r\n\r\n",
    b"\nGET / HTTP/1.1\r\n\r\n",
    b"GET / HTTP/1.1\r\na: b\nc: d\r\n\r\n",
    b"GET / HTTP/1.1\na: b\r\n\r\n",
    b"GET  / HTTP/1.1\r\n\r\n",
    b"GET / HTTP/1.2\r\n\r\n",
    b"GET / HTTP/1.1 \r\n\r\n",
    b"GET / HTTP/1.1\r\na : b\r\n\r\n",
    b"GET / HTTP/1.1\r\na: b\r\n c\r\n\r\n",
    b"GET / HTTP/1.1\r\n: b\r\n\r\n",
];

const BAD_LENGTHS: &[&[u8]] = &[
    b"GET / HTTP/1.1\r\ncontent-length: +5\r\n\r\n",
    b"GET / HTTP/1.1\r\ncontent-length:\r\n\r\n",
    b"GET / HTTP/1.1\r\ncontent-length: 5 5\r\n\r\n",
    b"GET / HTTP/1.1\r\ncontent-length: 0x5\r\n\r\n",
    b"GET / HTTP/1.1\r\ncontent-length: 1\r\nCONTENT-LENGTH: 1\r\n\r\n",
];

const LONG_BODIES: &[&[u8]] = &[
    b"GET / HTTP/1.1\r\ncontent-length: 1048577\r\n\r\n",
    b"GET / HTTP/1.1\r\ncontent-length: 18446744073709551617\r\n\r\n",
];

const CODINGS: &[&[u8]] = &[
    b"GET / HTTP/1.1\r\nTransfer-Encoding: chunked\r\ncontent-length: x\r\n\r\n",
    b"GET / HTTP/1.1\r\ntransfer-encoding:\r\n\r\n",
];

/// A request with the token of X, and the head of another one after it.
const STATUS: &str =
    "GET /v1/status HTTP/1.1\r\nauthorization: Bearer XXXXXXXXXXXXXXXX\r\ncontent-length: 3\r\n\r\n{} GET /";

/// The framing of a text, in its parts.
fn framed(text: &[u8]) -> Framed<'_> {
    match frame(text) {
        Framing::NeedMore => Ok(None),
        Framing::Refused(code) => Err(code),
        Framing::Whole { head, body } => Ok(Some((head.method, head.path, head.token, body))),
    }
}

/// Asserts the framing of texts.
fn are_framed(rt: &impl Abort, texts: &[&[u8]], expected: &Framed<'_>) {
    for text in texts {
        assert_is_at(rt, *text, framed(text), *expected);
    }
}

#[test]
fn a_text_is_a_request_or_refused_or_needs_more(rt: HostRuntime) {
    for row in TEXTS {
        are_framed(&rt, row.1, &row.0);
    }
}

/// The progress of a text that comes in two pieces.
fn known_in_two(text: &[u8], count: usize) -> Progress
    requires { count ≤ length text.now }
    ensures { Knows text.now result }
{
    Progress::new().advance(&text[..count]).advance(text)
}

/// The reply to a text that comes in two pieces.
fn answer_in_two(
    alloc: Global,
    front: &mut Front<Plain>,
    text: &[u8],
    count: usize,
) -> Option<String>
    requires { count ≤ length text.now }
{
    let progress = known_in_two(text, count);
    if progress.needs_more() {
        return None;
    }
    let reply = front.respond(progress.framing(text)).reply;
    String::from_utf8_lossy(alloc, reply.bytes()).ok()
}

/// Asserts that the reply ends with a page, wherever a text is cut in two.
fn is_answered_in_two(
    rt: &impl Abort,
    alloc: Global,
    front: &mut Front<Plain>,
    text: &[u8],
    page: &str,
) {
    for count in 0..text.len() {
        let reply = made_at(rt, count, answer_in_two(alloc, front, text, count));
        let has_page = reply.as_str().ends_with(page);
        assert_is_at(rt, count, has_page, true);
    }
}

#[test]
fn a_text_in_pieces_is_answered_as_the_text(rt: HostRuntime) {
    let page = r#"{"ended":false,"round":1,"version":1}"#;
    on_one_product(&rt, rt.alloc(), |front| {
        is_answered_in_two(&rt, rt.alloc(), front, STATUS.as_bytes(), page)
    });
}
