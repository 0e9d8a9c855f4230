//! What the header lines of a head say of the length of its body and of its sender.
//!
//! ```text
//! field-line     = field-name ":" OWS field-value OWS    (RFC 9112, section 5; names of any case)
//! Content-Length = 1*DIGIT                               (RFC 9110, section 8.6)
//! credentials    = "Bearer" 1*SP b64token                (RFC 6750, section 2.1; here any bytes)
//! ```

ghost use Rattle.std.specs.Prelude.{◌≡◌, ◌+◌, ◌≤◌, ◌<◌, ◌++◌, ℕ, List, [], ◌∷◌, length, map, drop};
ghost use Rattle.std.specs.Prelude.{All, IfSome, option_map};
ghost use Rattle.httparse.specs.Spans.{IsHeaderWithin, IsWithin, header_bytes, span_bytes};
ghost use Rattle.clock_http.specs.HeaderLines as lines;
ghost use Rattle.clock_http.specs.Shown.{IsSomeWithin};
ghost use Rattle.clock_http.specs.inside.HeadFields.{Pairs, AreLinesOf, AreFieldsOf};

use crate::decimal::{is_number, number};
use clock_api::Code;
use httparse::spans::{HeaderSpan, Span};

/// The most bytes of a body.
pub const MOST_BODY: usize = 1_048_576;

/// The word before a token, and the first space after it. Letters of any case match.
const BEARER: &[u8] = b"bearer ";

/// The header lines of one name: their number, and the value of the last one.
#[derive(Clone, Copy, Default)]
pub(crate) struct HeaderLines {
    count: usize,
    value: Span,
}

/// The header lines that this server reads, by name.
#[derive(Clone, Copy, Default)]
pub(crate) struct Fields {
    coding: HeaderLines,
    length: HeaderLines,
    authorization: HeaderLines,
}

impl HeaderLines {
    /// Counts a header line if its name is `wanted`, in letters of any case, and notes its value.
    fn add(&mut self, wanted: &[u8], name: &[u8], value: Span)
        requires { self.old.count < usize.MAX }
        ensures lines { (text : List ℕ) (pairs : Pairs) → AreLinesOf text wanted.now pairs self.old
            → IsWithin (length text) value → AreLinesOf text wanted.now
            (pairs ++ (name.now, span_bytes text value) ∷ []) self.new }
        ensures few { self.new.count ≤ self.old.count + 1 }
    {
        if name.eq_ignore_ascii_case(wanted) {
            self.count += 1;
            self.value = value;
        }
    }
}

/// Returns the header lines that this server reads, by one pass over all.
pub(crate) fn fields_of(text: &[u8], headers: &[HeaderSpan]) -> Fields
    requires { All (IsHeaderWithin (length text.now)) headers.now }
    ensures { AreFieldsOf text.now (map (header_bytes text.now) headers.now) result }
{
    let mut fields = Fields::default();
    for header in headers {
        let name = header.name.of(text);
        let value = header.value;
        fields.coding.add(b"transfer-encoding", name, value);
        fields.length.add(b"content-length", name, value);
        fields.authorization.add(b"authorization", name, value);
    }
    fields
}

/// Returns the length that `value` writes. Errors, in this order: `BadLength` if it is not one or
/// more digits, `LongBody` if it is above [`MOST_BODY`].
fn parse_length(value: &[u8]) -> Result<usize, Code>
    ensures { result ≡ lines.within_limit (lines.length_from (value.now ∷ [])) }
{
    if !is_number(value) {
        return Err(Code::BadLength);
    }
    match number(value) {
        Some(length) if length <= MOST_BODY as u64 => Ok(length as usize),
        _ => Err(Code::LongBody),
    }
}

/// Returns the number of spaces with which `text` begins.
fn leading_spaces(text: &[u8]) -> usize
    ensures within { result ≤ length text.now }
    ensures rest { drop result text.now ≡ lines.skip_spaces text.now }
{
    text.iter().position(|b| *b != b' ').unwrap_or(text.len())
}

/// Returns where the token begins in a value: after the word `Bearer` and spaces. `None` if the
/// value does not begin with `Bearer` and a space.
fn token_start(value: &[u8]) -> Option<usize>
    ensures within { IfSome result (λ start. start ≤ length value.now) }
    ensures shown { option_map (λ start. drop start value.now) result ≡ lines.bearer value.now }
{
    let (word, rest) = value.split_at_checked(BEARER.len())?;
    if word.eq_ignore_ascii_case(BEARER) {
        Some(BEARER.len() + leading_spaces(rest))
    } else {
        None
    }
}

impl Fields {
    /// Returns the length of the body, 0 without a `content-length` line. Errors, in this order:
    /// `Coding` if there is a `transfer-encoding` line, `BadLength` if there are several
    /// `content-length` lines or its value is not digits only, `LongBody` if it is above
    /// [`MOST_BODY`].
    pub(crate) fn body_length(&self, text: &[u8]) -> Result<usize, Code>
        requires { (pairs : Pairs) × AreFieldsOf text.now pairs self.now }
        ensures { (pairs : Pairs) → AreFieldsOf text.now pairs self.now
            → result ≡ lines.body_length pairs }
    {
        if self.coding.count > 0 {
            return Err(Code::Coding);
        }
        match self.length.count {
            0 => Ok(0),
            1 => parse_length(self.length.value.of(text)),
            _ => Err(Code::BadLength),
        }
    }

    /// Returns where the token is, if there is exactly one `authorization` line and it has one.
    pub(crate) fn token(&self, text: &[u8]) -> Option<Span>
        requires { (pairs : Pairs) × AreFieldsOf text.now pairs self.now }
        ensures shown { (pairs : Pairs) → AreFieldsOf text.now pairs self.now
            → option_map (span_bytes text.now) result ≡ lines.token_of pairs }
        ensures within { IsSomeWithin (length text.now) result }
    {
        if self.authorization.count != 1 {
            return None;
        }
        let mut token = self.authorization.value;
        token.start += token_start(token.of(text))?;
        Some(token)
    }
}
