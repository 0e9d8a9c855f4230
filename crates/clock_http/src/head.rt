//! Heads of requests (RFC 9112, section 2.1): where one ends, how its lines end, and its parts.
//!
//! ```text
//! HTTP-message = start-line CRLF *( field-line CRLF ) CRLF [ message-body ]
//! ```

ghost use Rattle.std.specs.Prelude.{◌≡◌, ◌≤◌, ◌+◌, ◌-◌, length, false, IfOk, drop, option_map};
ghost use Rattle.httparse.specs.Spans.{IsWithin, span_bytes};
ghost use Rattle.clock_http.specs.Scans.{line_ends as count_of_line_ends};
ghost use Rattle.clock_http.specs.Scans.{is_loose as is_loose_text, head_length as length_of_head};
ghost use Rattle.clock_http.specs.inside.HeadParts.{path_of_target, head_with_length};
ghost use Rattle.clock_http.specs.Shown.{IsHeadWithin};
ghost use Rattle.clock_http.specs.inside.HeadFields.{shown_read};

use crate::headers::fields_of;
use clock_api::Code;
use httparse::Status;
use httparse::spans::{EMPTY_HEADER_SPAN, HeaderSpan, Span, parse_request};
use memchr::memchr;

/// Returns the length of the head of `text`, with its empty line. Requires that no empty line
/// begins before `start`. Looks only at CRs, since an empty line begins with one.
pub(crate) fn head_length(text: &[u8], start: usize) -> Option<usize>
    requires within { start ≤ length text.now }
    requires none { length_of_head text.now
        ≡ option_map (λ n. start + n) (length_of_head (drop start text.now)) }
    ensures { result ≡ length_of_head text.now }
{
    let mut from = start;
    'returns: while let Some(ahead) = memchr(b'\r', &text[from..]) {
        let i = from + ahead;
        if text[i..].starts_with(b"\r\n\r\n") {
            return Some(i + 4);
        }
        from = i + 1;
    }
    None
}

/// How the lines of a head end.
#[derive(Clone, Copy)]
struct LineEnds {
    /// The number of lines that end with CR LF.
    count: usize,
    /// Whether the bytes begin with a CR, or have an LF with no CR before it. RFC 9112 lets a
    /// server accept such an LF as the end of a line; this server does not.
    loose: bool,
}

/// Returns how the lines of `text` end.
fn line_ends(text: &[u8]) -> LineEnds
    ensures count { result.count ≡ count_of_line_ends text.now }
    ensures loose { result.loose ≡ is_loose_text text.now }
{
    let mut count = 0;
    let mut loose = text.first() == Some(&b'\r');
    let mut from = 0;
    'lines: while let Some(ahead) = memchr(b'\n', &text[from..]) {
        if text[from..from + ahead].ends_with(b"\r") {
            count += 1;
        } else {
            loose = true;
        }
        from += ahead + 1;
    }
    LineEnds { count, loose }
}

/// The most header lines of a head.
const LINE_LIMIT: usize = 64;

/// A number of header lines that most heads do not exceed. All spans are initialized before the
/// parser runs, so it gets a short array for such heads.
const FEW_LINES: usize = 8;

/// The parts of a whole head, as spans of its text, and the lengths of the head and its body.
#[derive(Clone, Copy, Debug)]
pub struct EndedHead {
    /// The method.
    pub method: Span,
    /// The target up to the first `?`.
    pub path: Span,
    /// What follows `Bearer` in the `authorization` line, if there is exactly one such line.
    pub token: Option<Span>,
    /// The number of bytes of the head, with its empty line.
    pub length: usize,
    /// The number of bytes of the body: the value of `content-length`, or 0 without such a line.
    pub body: usize,
}

/// Returns the path of a target: its bytes before the first `?`.
fn path_of(text: &[u8], mut target: Span) -> Span
    requires { IsWithin (length text.now) target }
    ensures shown { span_bytes text.now result ≡ path_of_target (span_bytes text.now target) }
    ensures within { IsWithin (length text.now) result }
{
    if let Some(length) = target.of(text).iter().position(|b| *b == b'?') {
        target.end = target.start + length;
    }
    target
}

/// Reads a head whose lines all end with CR LF. Requires a span for each header line. Errors, in
/// this order: `BadHead`, and those of [`Fields::body_length`].
fn read_parts(bytes: &[u8], spans: &mut [HeaderSpan]) -> Result<EndedHead, Code>
    requires room { count_of_line_ends bytes.now - 2 ≤ length spans.old }
    requires few { count_of_line_ends bytes.now ≤ LINE_LIMIT + 2 }
    requires tight { is_loose_text bytes.now ≡ false }
    ensures shown { shown_read bytes.now result ≡ head_with_length bytes.now }
    ensures within { IfOk result (IsHeadWithin (length bytes.now)) }
    ensures all { IfOk result (λ head. head.length ≡ length bytes.now) }
{
    let found = match parse_request(bytes, spans) {
        Ok(Status::Complete(found)) if found.len == bytes.len() => found,
        _ => return Err(Code::BadHead),
    };
    let fields = fields_of(bytes, &spans[..found.headers]);
    let body = fields.body_length(bytes)?;
    Ok(EndedHead {
        method: found.method,
        path: path_of(bytes, found.path),
        token: fields.token(bytes),
        length: bytes.len(),
        body,
    })
}

/// Reads a whole head. Errors, in this order: `LongHead` if it has more than 64 header lines,
/// `BadHead` if it is not of the grammar of HTTP, and those of [`Fields::body_length`]. Parses the
/// head once.
pub(crate) fn read_head(bytes: &[u8]) -> Result<EndedHead, Code>
    ensures shown { shown_read bytes.now result ≡ head_with_length bytes.now }
    ensures within { IfOk result (IsHeadWithin (length bytes.now)) }
    ensures all { IfOk result (λ head. head.length ≡ length bytes.now) }
{
    let ends = line_ends(bytes);
    if ends.count > LINE_LIMIT + 2 {
        return Err(Code::LongHead);
    }
    if ends.loose {
        return Err(Code::BadHead);
    }
    if ends.count <= FEW_LINES + 2 {
        return read_parts(bytes, &mut [EMPTY_HEADER_SPAN; FEW_LINES]);
    }
    read_parts(bytes, &mut [EMPTY_HEADER_SPAN; LINE_LIMIT])
}
