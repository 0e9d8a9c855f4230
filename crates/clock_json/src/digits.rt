//! Reads numbers that have only digits, sixteen digits at a time, and lists of such numbers with
//! only a comma between two of them.
ghost use Rattle.std.specs.Prelude.{◌≡◌, ◌+◌, ◌≤◌, ◌<◌, ◌^◌, ◌∷◌, drop, get_or, length, take};
ghost use Rattle.std.specs.Prelude.{IfSome, decimal};
ghost use Rattle.std.specs.Str.Parse.{AllDigits, digits_value};
ghost use Rattle.json.specs.{Token.{number}, Lex.{lex, between, token, comma}};
ghost use Rattle.clock_json.specs.{Digits.{IsNumberUpTo}, inside.Digits.{AreDigits}};

use crate::compact::has_room;
use std::simd::prelude::*;

/// Returns how many of the next sixteen bytes are digits, before the first other byte.
#[inline(always)]
fn digits_ahead(bytes: &[u8], at: usize) -> usize
    requires { at + 16 ≤ length bytes.now }
    ensures most { result ≤ 16 }
    ensures digits { AreDigits bytes.now at result }
{
    let others = (u8x16::from_slice(&bytes[at..]) - u8x16::splat(b'0'))
        .simd_gt(u8x16::splat(9))
        .to_bitmask();
    if others == 0 {
        16
    } else {
        others.trailing_zeros() as usize
    }
}

/// The weight of each of eight digits. After the eighth digit, the weight is 0.
const WEIGHTS: [u32; 16] = [
    10_000_000, 1_000_000, 100_000, 10_000, 1_000, 100, 10, 1, 0, 0, 0, 0, 0, 0, 0, 0,
];

/// Returns the number that the first `count` of eight bytes write. The loop visits all eight, with
/// their weights: the processor mostly mispredicts a loop that ends with the digits.
#[inline(always)]
fn value_of(bytes: &[u8], at: usize, count: usize) -> u64
    requires room { at + 16 ≤ length bytes.now }
    requires most { count ≤ 8 }
    requires digits { AreDigits bytes.now at count }
    ensures digits { AllDigits 10 (take count (drop at bytes.now)) }
    ensures value { result ≡ digits_value 10 (take count (drop at bytes.now)) }
    ensures small { result < 2 ^ 32 }
{
    // the same vector as in `digits_ahead`: LLVM then loads the bytes once
    let digits = (u8x16::from_slice(&bytes[at..]) - u8x16::splat(b'0')).to_array();
    let mut value = 0u32;
    for i in 0..8 {
        let digit = digits[i] as u32;
        value += digit * WEIGHTS[8 - count + i];
    }
    value as u64
}

/// Returns the digit at an index, if there is one.
#[inline(always)]
fn digit_at(bytes: &[u8], at: usize) -> Option<u64>
    requires { at < length bytes.now }
    ensures { IfSome result (λ digit. (digit ≤ 9) × (get_or bytes.now at 0 ≡ digit + 48)) }
{
    let digit = (bytes[at] as u64).wrapping_sub(48);
    if digit > 9 {
        return None;
    }
    Some(digit)
}

/// Reads a number without leading zeros at index `start`, which ends before index `stop` or there.
/// Returns the number, and the index after it. Requires that `stop` is within `bytes`, and at most
/// nineteen bytes after `start`.
#[inline(always)]
pub fn digits_up_to(bytes: &[u8], start: usize, stop: usize) -> Option<(u64, usize)>
    requires order { start ≤ stop }
    requires few { stop ≤ start + 19 }
    requires within { stop ≤ length bytes.now }
    ensures { IfSome result (IsNumberUpTo bytes.now start stop) }
{
    let mut end = start;
    let mut value = 0u64;
    'digits: while end < stop {
        let Some(digit) = digit_at(bytes, end) else {
            break;
        };
        value = value * 10 + digit;
        end += 1;
    }
    if end == start || (bytes[start] == b'0') & (end - start != 1) {
        return None;
    }
    Some((value, end))
}

/// Reads a number of one digit at index `at`, if `mark` follows it. Requires that `bytes` has two
/// bytes there.
#[inline(always)]
pub fn digit_before(bytes: &[u8], at: usize, mark: u8) -> Option<u64>
    requires { at + 2 ≤ length bytes.now }
    ensures number { IfSome result (λ n. IsNumberUpTo bytes.now at (at + 1) (n, at + 1)) }
    ensures mark { IfSome result (λ _. get_or bytes.now (at + 1) 0 ≡ mark) }
{
    let digit = digit_at(bytes, at)?;
    if bytes[at + 1] != mark {
        return None;
    }
    Some(digit)
}

/// Reads a number of at most sixteen digits that `behind` bytes follow.
#[inline(never)]
fn long_digits_at(bytes: &[u8], start: usize, behind: usize) -> Option<(u64, usize)>
    requires { start + 16 ≤ length bytes.now }
    ensures number { IfSome result (IsNumberUpTo bytes.now start (start + 16)) }
    ensures room { IfSome result (λ r. r.1 + behind ≤ length bytes.now) }
{
    if !has_room(bytes, start + 16, behind) {
        return None;
    }
    digits_up_to(bytes, start, start + 16)
}

/// Reads a number of at most sixteen digits at index `start`, if at least `behind` bytes follow it.
/// Returns the number, and the index after it. It is fast if the count of digits varies, and is at
/// most eight. Requires that `bytes` has sixteen bytes there, and `behind` after the first eight.
#[inline(always)]
pub fn uneven_digits_at(bytes: &[u8], start: usize, behind: usize) -> Option<(u64, usize)>
    requires most { start + 16 ≤ length bytes.now }
    requires behind { start + 8 + behind ≤ length bytes.now }
    ensures number { IfSome result (IsNumberUpTo bytes.now start (start + 16)) }
    ensures room { IfSome result (λ r. r.1 + behind ≤ length bytes.now) }
{
    let count = digits_ahead(bytes, start);
    if count == 0 || count > 8 || bytes[start] == b'0' {
        return long_digits_at(bytes, start, behind);
    }
    Some((value_of(bytes, start, count), start + count))
}

/// The most bytes of a number and of the comma right after it.
const MOST_NUMBER: usize = 17;

/// Reads a number and the comma right after it. Returns the number, and the index after the comma.
/// A single digit takes few steps.
#[inline(always)]
pub(crate) fn number_and_comma(bytes: &[u8], at: usize) -> Option<(u64, usize)>
    ensures order { IfSome result (λ r. (at < r.1) × (r.1 ≤ length bytes.now)) }
    ensures small { IfSome result (λ r. r.0 < 2 ^ 64) }
    ensures value { IfSome result (λ r. lex between (drop at bytes.now)
        ≡ token (number (decimal r.0)) ∷ comma ∷ lex between (drop r.1 bytes.now)) }
{
    if !has_room(bytes, at, MOST_NUMBER) {
        return None;
    }
    if let Some(n) = digit_before(bytes, at, b',') {
        return Some((n, at + 2));
    }
    let (n, end) = digits_up_to(bytes, at, at + 16)?;
    (bytes[end] == b',').then_some((n, end + 1))
}
