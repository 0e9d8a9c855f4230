ghost use Rattle.std.specs.Prelude.{◌≡◌, ◌≤◌, ◌<◌, [], ℕ, List, length, take, None, codes};
ghost use Rattle.clock_http.specs.Scans.{head_length as length_of_head};
ghost use Rattle.clock_api.specs.Bytes.{same_bytes};
ghost use Rattle.clock_http.specs.Shown.{Knows, KnowsOfStart, IsFramed, IsHeadWithin, shown_ended};
ghost use Rattle.clock_http.specs.Shown.{shown_head, shown_progress, IsProgressWithin};
ghost use Rattle.clock_http.specs.inside.Followed.{Waits};
ghost use Rattle.clock_http.specs.Framing as spec;

use crate::head::{EndedHead, head_length, read_head};
use clock_api::Code;

/// The most bytes of a head, with its empty line.
const HEAD_LIMIT: usize = 16_384;

/// What is known of a text that may still grow. It borrows nothing, so it can be stored with the
/// bytes.
#[derive(Clone, Copy, Debug)]
pub enum Progress {
    /// No head has ended in the text, which has this number of bytes.
    Unended(usize),
    /// The head has ended, and its body is not whole.
    Waiting(EndedHead),
    /// The request is whole.
    Complete(EndedHead),
    /// The text is refused.
    Refused(Code),
}

/// The parts of a request's head that this server uses, as slices of the request's text.
#[derive(Clone, Copy, Debug)]
pub struct Head<'a> {
    /// The method, with its case.
    pub method: &'a [u8],
    /// The target up to the first `?`.
    pub path: &'a [u8],
    /// What follows `Bearer` in the `authorization` line, if there is exactly one such line.
    pub token: Option<&'a [u8]>,
}

/// What the bytes that have arrived so far are.
#[derive(Clone, Copy, Debug)]
pub enum Framing<'a> {
    /// Neither a whole request nor refused.
    NeedMore,
    /// A request with its body. Bytes after the body are ignored.
    Whole { head: Head<'a>, body: &'a [u8] },
    /// Not a request, whatever follows.
    Refused(Code),
}

impl Head<'_> {
    /// Returns whether the method is `PUT`. Methods are case-sensitive.
    pub fn is_put(&self) -> bool
        ensures { result ≡ same_bytes (codes "PUT") self.now.method.now }
    {
        self.method == b"PUT".as_slice()
    }
}

/// Returns the parts of a whole head as slices of `text`.
pub(crate) fn head_in(text: &[u8], head: EndedHead) -> Head<'_>
    requires { IsHeadWithin (length text.now) head }
    ensures { shown_head result ≡ shown_ended text.now head }
{
    Head {
        method: head.method.of(text),
        path: head.path.of(text),
        token: head.token.map(|span| span.of(text)),
    }
}

/// Returns what is known of a text of `count` bytes whose head has ended: whether its body is
/// whole.
fn with_body(head: EndedHead, count: usize) -> Progress
    requires { IsHeadWithin count head }
    ensures shown { (text : List ℕ) → shown_progress text result
        ≡ spec.known_with_body count (shown_ended text head) head.length head.body }
    ensures within { IsProgressWithin count result }
{
    if count - head.length < head.body {
        Progress::Waiting(head)
    } else {
        Progress::Complete(head)
    }
}

/// Returns what is known of a text. Requires that no head ends in its first `looked_at` bytes.
fn read_on(text: &[u8], looked_at: usize) -> Progress
    requires within { looked_at ≤ length text.now }
    requires short { looked_at < spec.head_limit }
    requires unended { length_of_head (take looked_at text.now) ≡ None }
    ensures { Knows text.now result }
{
    let limit = text.len().min(HEAD_LIMIT);
    // an empty line has four bytes, so one may have begun in the last three
    match head_length(&text[..limit], looked_at.saturating_sub(3)) {
        Some(length) => match read_head(&text[..length]) {
            Ok(head) => with_body(head, text.len()),
            Err(fault) => Progress::Refused(fault),
        },
        None if text.len() < HEAD_LIMIT => Progress::Unended(text.len()),
        None => Progress::Refused(Code::LongHead),
    }
}

impl Progress {
    /// Returns what is known of an empty text.
    pub fn new() -> Progress
        ensures { Knows [] result }
    {
        Progress::Unended(0)
    }

    /// Returns what is known of `text`. Requires that this is known of a prefix of it. What was
    /// searched before is not searched again: until the head ends, the search begins three bytes
    /// before the new bytes; afterward only the length of the text counts. A head is read once,
    /// when it has ended.
    pub fn advance(self, text: &[u8]) -> Progress
        requires { KnowsOfStart text.now self }
        ensures { Knows text.now result }
    {
        match self {
            Progress::Unended(looked_at) => read_on(text, looked_at),
            Progress::Waiting(head) => with_body(head, text.len()),
            decided => decided,
        }
    }

    /// Returns the length of head and body that a waiting text must reach, and 0 if the text waits
    /// for no body. A shorter text still waits.
    pub(crate) fn awaited(&self) -> usize
        ensures { (text : List ℕ) → KnowsOfStart text self.now → length text < result
            → Waits text self.now }
    {
        match self {
            Progress::Waiting(head) => head.length.saturating_add(head.body),
            _ => 0,
        }
    }

    /// Returns whether a text of this progress needs more bytes: it is neither a whole request nor
    /// refused.
    pub fn needs_more(self) -> bool
        ensures { (text : List ℕ) → Knows text self → result ≡ spec.needs_more text }
    {
        matches!(self, Progress::Unended(_) | Progress::Waiting(_))
    }

    /// Returns what `text` is. Requires that this is what is known of it. Allocates nothing; all
    /// slices are of `text`.
    pub fn framing(self, text: &[u8]) -> Framing<'_>
        requires { Knows text.now self }
        ensures { IsFramed text.now result }
    {
        match self {
            Progress::Unended(_) | Progress::Waiting(_) => Framing::NeedMore,
            Progress::Complete(head) => Framing::Whole {
                head: head_in(text, head),
                body: &text[head.length..head.length + head.body],
            },
            Progress::Refused(fault) => Framing::Refused(fault),
        }
    }
}

/// Returns what `text` is. Allocates nothing; all slices are of `text`. Further bytes do not change
/// a decision.
///
/// A text is undecided until its head ends with CR LF CR LF, and then until its body is whole.
/// Errors, in this order:
///
/// - `LongHead`: no head ends in the first 16,384 bytes, or it has more than 64 header lines;
/// - `BadHead`: the head is not of the grammar of HTTP;
/// - `Coding`: there is a `transfer-encoding` line;
/// - `BadLength`: there are several `content-length` lines, or its value is not digits only;
/// - `LongBody`: the body has more than 1,048,576 bytes.
pub fn frame(text: &[u8]) -> Framing<'_>
    ensures { IsFramed text.now result }
{
    Progress::new().advance(text).framing(text)
}
