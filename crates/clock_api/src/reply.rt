ghost use Rattle.std.specs.Prelude.{◌≡◌, ◌+◌, ◌≤◌, ◌++◌, ℕ, drop, length, codes, IfOk, IfErr};
ghost use Rattle.clock_api.specs.Replies.{allow_line, challenge_line, reply_bytes};
ghost use Rattle.clock_api.specs.inside.ReplyLines.{first_lines, page_lines};

use crate::code::Code;
use crate::routes::Page;
use clock_device::{Bounded, NoMemory, Text};
use itoa::Buffer;
use std::alloc::Global;
use std::marker::Model;

/// The most bytes of a reply's head. A page is written after this much space, and its head is then
/// written into the space.
const MOST_HEAD: usize = 256;

/// The space for a head: zeros.
pub const HEADROOM: &[u8] = &[0; MOST_HEAD];

/// The most bytes of each part of a head that depends on the code or the page. A reason phrase has
/// up to 31.
const LONGEST_PIECE: usize = 31;

/// The error that memory for a page of `page` bytes was refused, or that a machine cannot count its
/// bytes. Only [`text_with_room`] makes one, so a `NoRoom` proves that this much was requested. In
/// contracts, it is this number of bytes.
#[derive(Debug, Drop)]
pub struct NoRoom {
    page: u128,
}

impl Model for NoRoom {
    ghost Value = { ℕ };

    ghost view = { λ refused. refused.page };
}

impl From<NoRoom> for NoMemory {
    fn from(_refused: NoRoom) -> NoMemory {
        NoMemory
    }
}

/// Returns a text that begins with `head` and has capacity for `page` more bytes. A reply allocates
/// no other memory. May return [`NoRoom`].
pub fn text_with_room(alloc: Global, head: &[u8], page: u128) -> Result<Bounded<u8>, NoRoom>
    ensures head { IfOk result (λ text. text.items ≡ head.now) }
    ensures room { IfOk result (λ text. page ≤ text.room) }
    ensures refused { IfErr result (λ refused. refused ≡ page) }
{
    let Ok(bytes) = usize::try_from(page.saturating_add(head.len() as u128)) else {
        return Err(NoRoom { page });
    };
    let Ok(mut text) = Text::with_capacity(alloc, bytes) else {
        return Err(NoRoom { page });
    };
    text.extend_from_slice(head);
    Ok(text)
}

/// The bytes of a text from index `start` on.
#[derive(Drop)]
struct TextFrom {
    text: Text,
    start: usize,
    ghost within: { start ≤ length text },
}

/// The bytes of a reply: constant, or written for it.
#[derive(Drop)]
enum ReplyBytes {
    Constant(&'static [u8]),
    Written(TextFrom),
}

/// The reply to a request: a code, and the bytes that the client gets.
#[derive(Drop)]
pub struct Reply {
    code: Code,
    inner: ReplyBytes,
}

impl Model for Reply {
    ghost use Rattle.clock_api.specs.{Replies.{Answer}, ShownReply.{shown_bytes}};

    ghost Value = { Answer };

    ghost view = { λ r. record { code = r.code; bytes = shown_bytes r.inner } };
}

/// Returns the `allow` line, which lists the methods of the page `allowed`. Empty without such a
/// page.
fn allow_bytes(allowed: Option<Page>) -> &'static [u8]
    ensures bytes { result.now ≡ allow_line allowed }
    ensures short { length result.now ≤ LONGEST_PIECE }
{
    match allowed {
        None => b"",
        Some(Page::Bids) => b"allow: GET, PUT\r\n",
        Some(Page::Close) => b"allow: POST\r\n",
        Some(_) => b"allow: GET\r\n",
    }
}

/// Returns the last lines of a head: if the code is `Token`, the line that asks for a token; then
/// the empty line.
fn last_lines(code: Code) -> &'static [u8]
    ensures bytes { result.now ≡ challenge_line code ++ codes "\r\n" }
    ensures short { length result.now ≤ LONGEST_PIECE }
{
    if code == Code::Token {
        b"www-authenticate: Bearer\r\n\r\n"
    } else {
        b"\r\n"
    }
}

/// Overwrites the bytes before index `end` with `piece`, and returns the index at which they begin.
/// Requires that they fit.
fn put_before(text: &mut Text, end: usize, piece: &[u8]) -> usize
    requires room { length piece.now ≤ end }
    requires within { end ≤ length text.old }
    ensures start { result + length piece.now ≡ end }
    ensures same_length { length text.new ≡ length text.old }
    ensures put { drop result text.new ≡ piece.now ++ drop end text.old }
{
    let start = end - piece.len();
    text[start..end].copy_from_slice(piece);
    start
}

/// Writes the last lines of a head, those about the page, before the page. Returns the index at
/// which they begin. A head is written from its end to its start, since its length is only known at
/// the end.
fn put_page_lines(text: &mut Text, code: Code) -> usize
    requires { MOST_HEAD ≤ length text.old }
    ensures room { MOST_HEAD ≤ result + 120 }
    ensures within { result ≤ length text.new }
    ensures put { drop result text.new ≡ page_lines code (drop MOST_HEAD text.old) }
{
    let page = text.len() - MOST_HEAD;
    let mut count = Buffer::new();
    let last = put_before(text, MOST_HEAD, last_lines(code));
    let kind = put_before(text, last, b"\r\ncontent-type: application/json\r\n");
    let length = put_before(text, kind, count.format(page).as_bytes());
    put_before(text, length, b"connection: close\r\ncontent-length: ")
}

/// Writes the first lines of a head before index `lines`, where the others begin. Returns the index
/// at which they begin.
fn put_first_lines(text: &mut Text, lines: usize, code: Code, allowed: Option<Page>) -> usize
    requires room { MOST_HEAD ≤ lines + 120 }
    requires within { lines ≤ length text.old }
    ensures within { result ≤ length text.new }
    ensures put { drop result text.new ≡ first_lines code allowed (drop lines text.old) }
{
    let mut number = Buffer::new();
    let allow = put_before(text, lines, allow_bytes(allowed));
    let end = put_before(text, allow, b"\r\n");
    let words = put_before(text, end, code.reason().as_bytes());
    let space = put_before(text, words, b" ");
    let status = put_before(text, space, number.format(code.status()).as_bytes());
    put_before(text, status, b"HTTP/1.1 ")
}

impl Reply {
    /// Makes a reply of constant bytes. Allocates nothing.
    pub fn constant(code: Code, bytes: &'static [u8]) -> Reply
        ensures { result ≡ record { code = code; bytes = bytes.now } }
    {
        Reply {
            code,
            inner: ReplyBytes::Constant(bytes),
        }
    }

    /// Makes the reply whose page follows the space for its head in `text`. `allowed` is the page
    /// whose methods the reply lists. Requires at least [`HEADROOM`] in `text`. Allocates nothing.
    pub fn written(code: Code, allowed: Option<Page>, mut text: Text) -> Reply
        requires { MOST_HEAD ≤ length text }
        ensures { result
            ≡ record { code = code; bytes = reply_bytes code allowed (drop MOST_HEAD text) } }
    {
        let lines = put_page_lines(&mut text, code);
        let start = put_first_lines(&mut text, lines, code, allowed);
        Reply {
            code,
            inner: ReplyBytes::Written(TextFrom { text, start }),
        }
    }

    /// Returns the code.
    pub fn code(&self) -> Code
        ensures { result ≡ self.now.code }
    {
        self.code
    }

    /// Returns the bytes of the reply, from the status line to the end of the page.
    pub fn bytes(&self) -> &[u8]
        ensures { result.now ≡ self.now.bytes }
    {
        match &self.inner {
            ReplyBytes::Constant(bytes) => bytes,
            ReplyBytes::Written(written) => &written.text.as_slice()[written.start..],
        }
    }
}
