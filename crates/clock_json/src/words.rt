//! Reads the lexemes of a text: white space, commas, quoted words, numbers, and empty lists.
//!
//! Plain text ends at a quote, a backslash, or a control character. Its end is searched in sixteen
//! bytes at once.
ghost use Rattle.std.specs.Prelude.{◌≡◌, ◌∷◌, ◌<◌, ◌^◌, ◌||◌, ◌+◌, ◌≤◌, ℕ, true, false, None};
ghost use Rattle.std.specs.Prelude.{IsTrue, drop, length, get_or, decimal, IfSome, IfOk, map};
ghost use Rattle.std.specs.{Str.{IsUtf8}, List.{prefix_len}, Simd.Lanes.{mask_l}};
ghost use Rattle.json.specs.Lex.{lex, between, token, class, begins_colon};
ghost use Rattle.json.specs.Lex.{after_value as past_value, punctuate};
ghost use Rattle.json.specs.{Token.{number, string}, Run.{is_stop, is_plain}};
ghost use Rattle.json.specs.Word.{is_operator, is_space as is_blank_byte};
ghost use Rattle.json.specs.Align.{is_blank as is_blank_class};
ghost use Rattle.serde_json.specs.Read.{read};
ghost use Rattle.clock_json.specs.{Left.{left}, inside.Quotes.{IsQuoted}};

use crate::digits::digits_up_to;
use crate::scan::{Expected, ScanStop};
use std::simd::prelude::*;

/// Returns whether `bytes` has this byte at index `at`.
#[inline(always)]
pub(crate) fn is_at(bytes: &[u8], at: usize, byte: u8) -> bool
    ensures { IsTrue result → (at < length bytes.now) × (get_or bytes.now at 0 ≡ byte) }
{
    at < bytes.len() && bytes[at] == byte
}

#[inline(always)]
fn is_space(byte: u8) -> bool
    ensures { result ≡ is_blank_class (class byte) }
{
    byte == b' ' || (byte == b'\t') | (byte == b'\n') | (byte == b'\r')
}

/// Returns the index after the white space at `start`.
#[inline(always)]
pub(crate) fn after_space(bytes: &[u8], start: usize) -> usize
    ensures { lex between (drop result bytes.now) ≡ lex between (drop start bytes.now) }
{
    let mut at = start;
    'space: while at < bytes.len() {
        if !is_space(bytes[at]) {
            break;
        }
        at += 1;
    }
    at
}

/// Returns whether a text has only white space, and so is no JSON. If the first byte is white
/// space, the loop visits all bytes, since a loop with an early end is slow.
pub fn is_blank(bytes: &[u8]) -> bool
    ensures { IsTrue result → read bytes.now ≡ None }
{
    if !bytes.is_empty() && !is_space(bytes[0]) {
        return false;
    }
    let mut has_other = false;
    for byte in bytes {
        has_other |= !is_space(*byte);
    }
    !has_other
}

/// Returns the text that `bytes` are, if they can be JSON: they are UTF-8, and not all white space.
pub(crate) fn text_of(bytes: &[u8]) -> Option<&str>
    ensures same { IfSome result (λ text. text.now ≡ bytes.now) }
    ensures utf8 { IfSome result (λ _. IsUtf8 bytes.now) }
{
    if is_blank(bytes) {
        return None;
    }
    match simdutf8::basic::from_utf8(bytes) {
        Ok(text) => Some(text),
        Err(_) => None,
    }
}

/// Returns whether a key is `word`.
#[inline(always)]
pub fn is_key(key: &[u8], word: &str) -> bool
    ensures { IsTrue result → key.now ≡ word.now }
{
    key == word.as_bytes()
}

/// Reads the comma that may follow a value. Returns what may come next, and its index. Mostly the
/// comma is right there.
#[inline(always)]
pub(crate) fn after_value(bytes: &[u8], start: usize) -> (Expected, usize)
    ensures { left result.0 (drop result.1 bytes.now)
        ≡ punctuate past_value (lex between (drop start bytes.now)) }
{
    if is_at(bytes, start, b',') {
        return (Expected::AfterComma, start + 1);
    }
    let at = after_space(bytes, start);
    if is_at(bytes, at, b',') {
        (Expected::AfterComma, at + 1)
    } else {
        (Expected::AfterValue, at)
    }
}

/// Returns a bit for each of these bytes: whether plain text ends there.
#[inline(always)]
fn stops(bytes: u8x16) -> u64
    ensures { result ≡ mask_l (map is_stop bytes) }
{
    (bytes.simd_eq(u8x16::splat(b'"'))
        | bytes.simd_eq(u8x16::splat(b'\\'))
        | bytes.simd_lt(u8x16::splat(b' '))).to_bitmask()
}

/// Returns the index after the plain text at `start`. Visits one byte at a time.
#[inline(never)]
fn plain_end_slowly(bytes: &[u8], start: usize) -> usize
    requires { start ≤ length bytes.now }
    ensures { result ≡ start + prefix_len is_plain (drop start bytes.now) }
{
    let mut end = start;
    'text: while end < bytes.len()
        && bytes[end] != b'"'
        && bytes[end] != b'\\'
        && bytes[end] >= b' '
    {
        end += 1;
    }
    end
}

/// Returns the index after the plain text at `start`.
#[inline(always)]
fn plain_end(bytes: &[u8], start: usize) -> usize
    requires { start ≤ length bytes.now }
    ensures { result ≡ start + prefix_len is_plain (drop start bytes.now) }
{
    let mut end = start;
    'text: while bytes.len() - end >= 16 {
        let found = stops(u8x16::from_slice(&bytes[end..]));
        if found != 0 {
            return end + found.trailing_zeros() as usize;
        }
        end += 16;
    }
    plain_end_slowly(bytes, end)
}

/// Returns the bytes between a quote at `at` and the next quote, and the index after that quote.
/// There is no escape among them.
#[inline(always)]
pub(crate) fn quoted(bytes: &[u8], at: usize) -> Result<(&[u8], usize), ScanStop>
    ensures lexes { IfOk result (λ r. lex between (drop at bytes.now)
        ≡ token (string r.0.now) ∷ lex between (drop r.1 bytes.now)) }
    ensures quotes { IfOk result (λ r. (last : ℕ) × (r.1 ≡ last + 1)
        × IsQuoted bytes.now at last r.0.now) }
{
    if !is_at(bytes, at, b'"') {
        return Err(ScanStop::Unusual);
    }
    let start = at + 1;
    let end = plain_end(bytes, start);
    if !is_at(bytes, end, b'"') {
        return Err(ScanStop::Unusual);
    }
    Ok((&bytes[start..end], end + 1))
}

/// Like [`quoted`], for a text. Quotes are ASCII characters, so what they enclose is a text.
#[inline(always)]
pub(crate) fn quoted_text(text: &str, at: usize) -> Result<(&str, usize), ScanStop>
    ensures { IfOk result (λ r. lex between (drop at text.now)
        ≡ token (string r.0.now) ∷ lex between (drop r.1 text.now)) }
{
    let (_, end) = quoted(text.as_bytes(), at)?;
    Ok((&text[at + 1..end - 1], end))
}

/// Returns whether the byte after a quoted text shows that it is a text, not a key.
#[inline(always)]
pub(crate) fn ends_text(bytes: &[u8], at: usize) -> bool
    ensures { IsTrue result → begins_colon (lex between (drop at bytes.now)) ≡ false }
{
    at < bytes.len() && (bytes[at] == b',') | (bytes[at] == b'}') | (bytes[at] == b']')
}

/// Returns whether a byte ends the word or number before it.
#[inline(always)]
pub(crate) fn ends_word(byte: u8) -> bool
    ensures { result ≡ true → (is_operator byte || is_blank_byte byte) ≡ true }
{
    matches!(byte, b',' | b'}' | b']' | b' ' | b'\n' | b'\r' | b'\t')
}

/// Reads a number below 10^19 without leading zeros. Returns it, and the index after it. Not
/// inlined: in a caller, LLVM would store the number in memory while its digits are read.
#[inline(never)]
pub(crate) fn decimal_at(bytes: &[u8], at: usize) -> Option<(u64, usize)>
    ensures small { IfSome result (λ r. r.0 < 2 ^ 64) }
    ensures value { IfSome result (λ r. lex between (drop at bytes.now)
        ≡ token (number (decimal r.0)) ∷ lex between (drop r.1 bytes.now)) }
{
    let left = bytes.len().checked_sub(at)?.min(19);
    let (n, end) = digits_up_to(bytes, at, at + left)?;
    if end == bytes.len() || !ends_word(bytes[end]) {
        return None;
    }
    Some((n, end))
}
