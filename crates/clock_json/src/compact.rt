//! Parts of lists as most programs write them: without white space. Such a part is read several
//! bytes at a time.
ghost use Rattle.std.specs.Prelude.{◌≡◌, ◌+◌, ◌≤◌, ◌<◌, ◌^◌, ◌∷◌, ◌++◌, length, take, drop};
ghost use Rattle.std.specs.Prelude.{decimal, IsTrue, IfSome};
ghost use Rattle.json.specs.Token.{begin_array, end_array, number};
ghost use Rattle.json.specs.Lex.{lex, between, token, comma};
ghost use Rattle.serde_json.specs.Data.{Data};
ghost use Rattle.clock_json.specs.Compact.{IsCompactValue};

use crate::digits::{digits_up_to, number_and_comma};
use crate::words::is_at;

/// Returns whether `bytes` has these eight bytes at index `at`.
#[inline(always)]
fn has_eight(bytes: &[u8], at: usize, word: &[u8; 8]) -> bool
    requires { at + 8 ≤ length bytes.now }
    ensures { IsTrue result → take 8 (drop at bytes.now) ≡ word.now }
{
    let Ok(there) = <[u8; 8]>::try_from(&bytes[at..at + 8]) else {
        return false;
    };
    u64::from_le_bytes(there) == u64::from_le_bytes(*word)
}

/// Returns whether `bytes` has at least `count` bytes from index `at` on.
#[inline(always)]
pub fn has_room(bytes: &[u8], at: usize, count: usize) -> bool
    ensures { IsTrue result → at + count ≤ length bytes.now }
{
    count <= bytes.len() && at <= bytes.len() - count
}

/// Returns whether `bytes` has these four bytes at index `at`.
#[inline(always)]
fn has_four(bytes: &[u8], at: usize, word: &[u8; 4]) -> bool
    requires { at + 4 ≤ length bytes.now }
    ensures { IsTrue result → take 4 (drop at bytes.now) ≡ word.now }
{
    let Ok(there) = <[u8; 4]>::try_from(&bytes[at..at + 4]) else {
        return false;
    };
    u32::from_le_bytes(there) == u32::from_le_bytes(*word)
}

/// Returns whether `bytes` has eight bytes at index `at`, and four others `part` bytes later.
/// Requires that `bytes` is long enough for both.
#[inline(always)]
pub fn has_both(bytes: &[u8], at: usize, first: &[u8; 8], part: usize, second: &[u8; 4]) -> bool
    requires first { at + 8 ≤ length bytes.now }
    requires second { at + part + 4 ≤ length bytes.now }
    ensures { IsTrue result → drop at bytes.now ≡ take part (first.now ++ drop (at + 8) bytes.now)
        ++ (second.now ++ drop (at + part + 4) bytes.now) }
{
    has_eight(bytes, at, first) && has_four(bytes, at + part, second)
}

/// Reads a part of a list, if it is written without white space.
pub trait CompactPart {
    /// The type of a part.
    type Part: Drop;

    /// The JSON value of a part.
    ghost shown: { Self.Part → Data };

    /// Reads the part at an index. Returns the part, and the index after it, where there is another
    /// byte. `None` says nothing about the text.
    fn compact_at(bytes: &[u8], start: usize) -> Option<(Self::Part, usize)>
        ensures order { IfSome result (λ r. (start < r.1) × (r.1 < length bytes.now)) }
        ensures value { IfSome result (λ r. IsCompactValue bytes.now start (shown r.0) r.1) };
}

/// A list of three numbers.
#[derive(Clone, Copy)]
pub struct CompactTriple {
    /// The first number.
    pub first: u64,
    /// The second number.
    pub second: u64,
    /// The third number.
    pub third: u64,
}

/// The most bytes of the third number, and of the bracket and the comma after it.
const MOST_THIRD: usize = 18;

/// Reads the third number of a list at an index, and the bracket and the comma after it. Returns
/// the number, and the index after the comma.
#[inline(always)]
fn third_at(bytes: &[u8], start: usize) -> Option<(u64, usize)>
    ensures small { IfSome result (λ r. r.0 < 2 ^ 64) }
    ensures value { IfSome result (λ r. lex between (drop start bytes.now)
        ≡ token (number (decimal r.0)) ∷ token end_array ∷ comma
        ∷ lex between (drop r.1 bytes.now)) }
{
    if !has_room(bytes, start, MOST_THIRD) {
        return None;
    }
    let (number, end) = digits_up_to(bytes, start, start + 16)?;
    let ends = (bytes[end] == b']') & (bytes[end + 1] == b',');
    ends.then_some((number, end + 2))
}

/// Reads a list of three numbers and a comma at an index. Returns the numbers, and the index after
/// the comma.
#[inline(always)]
pub(crate) fn compact_triple_at(bytes: &[u8], start: usize) -> Option<(CompactTriple, usize)>
    ensures small { IfSome result (λ r. (r.0.first < 2 ^ 64) × (r.0.second < 2 ^ 64)
        × (r.0.third < 2 ^ 64)) }
    ensures value { IfSome result (λ r. lex between (drop start bytes.now) ≡ token begin_array
        ∷ token (number (decimal r.0.first)) ∷ comma ∷ token (number (decimal r.0.second)) ∷ comma
        ∷ token (number (decimal r.0.third)) ∷ token end_array ∷ comma
        ∷ lex between (drop r.1 bytes.now)) }
{
    if !is_at(bytes, start, b'[') {
        return None;
    }
    let (first, behind_first) = number_and_comma(bytes, start + 1)?;
    let (second, behind_second) = number_and_comma(bytes, behind_first)?;
    let (third, end) = third_at(bytes, behind_second)?;
    let triple = CompactTriple {
        first,
        second,
        third,
    };
    Some((triple, end))
}
