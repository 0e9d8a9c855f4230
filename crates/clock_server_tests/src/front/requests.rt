//! Requests as rows of text, and their replies.
//!
//! A table is one text, and each of its lines is a row. A row of a request has three fields with
//! `|` between them: the request line without its version, the owner of the token, and the body.
//! The owner is the letter of a bidder, `O` for the operator, `N` for a token that no one has, or
//! nothing for no token. A row may also have the reply: `>`, the status, `|`, and the page.
//!
//! ```text
//! GET /v1/me/bids|Y|>200 OK|{"bids":null,"round":1}
//! ```
use crate::comparing::{assert_is_at, made_at};
use clock_front::Front;
use clock_processor::Plain;
use clock_setup::{Setup, read_setup};
use std::alloc::Global;
use std::process::Abort;

/// Reads the set-up of a document.
pub(super) fn setup_of(alloc: Global, document: &str) -> Option<Setup> {
    read_setup(alloc, document.as_bytes()).ok()
}

/// The header line of the token that a row names.
fn token_line(who: &str) -> &'static str {
    match who {
        "V" => "authorization: Bearer VVVVVVVVVVVVVVVV\r\n",
        "W" => "authorization: Bearer WWWWWWWWWWWWWWWW\r\n",
        "X" => "authorization: Bearer XXXXXXXXXXXXXXXX\r\n",
        "Y" => "authorization: Bearer YYYYYYYYYYYYYYYY\r\n",
        "O" => "authorization: Bearer OPERATOROPERATOR\r\n",
        "N" => "authorization: Bearer NNNNNNNNNNNNNNNN\r\n",
        _ => "",
    }
}

/// The text of a request.
pub(super) fn text_of(alloc: Global, line: &str, who: &str, body: &str) -> Option<String> {
    let token = token_line(who);
    format!(in alloc;
        "{line} HTTP/1.1\r\n{token}content-length: {}\r\n\r\n{body}",
        body.len()
    )
    .ok()
}

/// The text of the request of a row, from its line, the owner of its token, and its body.
pub(super) fn request_of(alloc: Global, row: &str) -> Option<String> {
    let (line, rest) = row.split_once('|')?;
    let (who, body) = rest.split_once('|')?;
    text_of(alloc, line, who, body)
}

/// The bytes of the reply to a text.
pub(super) fn reply_of(alloc: Global, front: &mut Front<Plain>, text: &str) -> Option<String> {
    let reply = front.answer(text.as_bytes());
    String::from_utf8_lossy(alloc, reply.bytes()).ok()
}

/// The header lines that only some statuses have, before all others and after them.
fn lines_of(status: &str) -> (&'static str, &'static str) {
    match status {
        "405 Method Not Allowed" => ("allow: GET, PUT\r\n", ""),
        "401 Unauthorized" => ("", "www-authenticate: Bearer\r\n"),
        _ => ("", ""),
    }
}

/// The bytes of a reply with a status and a page.
pub(super) fn reply_with(alloc: Global, status: &str, page: &str) -> Option<String> {
    let (first, last) = lines_of(status);
    format!(in alloc;
        "HTTP/1.1 {status}\r\n{first}connection: close\r\ncontent-length: {}\r\ncontent-type: application/json\r\n{last}\r\n{page}",
        page.len()
    )
    .ok()
}

/// The status line of a reply without its version, and its page.
pub(super) type Reported<'a> = (&'a str, &'a str);

/// Compares the reply to the text of a row with the one expected.
pub(super) fn compare(
    rt: &impl Abort,
    alloc: Global,
    front: &mut Front<Plain>,
    row: &str,
    text: &str,
    reported: Reported<'_>,
) {
    let reply = made_at(rt, row, reply_of(alloc, front, text));
    let expected = made_at(rt, row, reply_with(alloc, reported.0, reported.1));
    assert_is_at(rt, row, reply.as_str(), expected.as_str());
}
