//! Reads a bid as most programs write it: without white space, and with its keys in order of their
//! bytes. Compares several bytes at once.
ghost use Rattle.std.specs.Prelude.{◌≡◌, ◌+◌, ◌≤◌, ◌<◌, ◌^◌, ◌∷◌, IfSome, decimal, drop, length};
ghost use Rattle.json.specs.{Token.{end_object, number}, Lex.{lex, between, token}};
ghost use Rattle.clock_bodies.specs.QuickBodies.{bid_data};

use crate::put_body::BidReader;
use clock_bids::Bid;
use clock_json::{CompactPart, digit_before, digits_up_to, has_both, has_room, uneven_digits_at};

/// The most bytes of a compact bid with a price of eight digits, and one more.
const MOST_BYTES: usize = 50;

/// The most bytes of a compact bid after its price, and one more: two numbers of four digits, and
/// the rest.
const MOST_AFTER: usize = 33;

/// Reads the last number of a bid at an index, and the brace after it. Returns the number, and the
/// index after the brace. Most are a single digit.
#[inline(always)]
fn last_number(bytes: &[u8], start: usize) -> Option<(u64, usize)>
    requires { start + 6 ≤ length bytes.now }
    ensures small { IfSome result (λ r. r.0 < 2 ^ 64) }
    ensures order { IfSome result (λ r. (start < r.1) × (r.1 < length bytes.now)) }
    ensures value { IfSome result (λ r. lex between (drop start bytes.now)
        ≡ token (number (decimal r.0)) ∷ token end_object ∷ lex between (drop r.1 bytes.now)) }
{
    if let Some(digit) = digit_before(bytes, start, b'}') {
        return Some((digit, start + 2));
    }
    let (number, end) = digits_up_to(bytes, start, start + 4)?;
    (bytes[end] == b'}').then_some((number, end + 1))
}

/// Several bytes at a time: its members in order of their keys, without white space.
impl CompactPart for BidReader {
    type Part = Bid;

    ghost shown = { bid_data };

    #[inline(always)]
    fn compact_at(bytes: &[u8], start: usize) -> Option<(Bid, usize)> {
        if !has_room(bytes, start, MOST_BYTES) {
            return None;
        }
        if !has_both(bytes, start, b"{\"price\"", 5, b"ce\":") {
            return None;
        }
        let (price, after_price) = uneven_digits_at(bytes, start + 9, MOST_AFTER)?;
        if !has_both(bytes, after_price, b",\"produc", 7, b"ct\":") {
            return None;
        }
        let (product, after_product) = digits_up_to(bytes, after_price + 11, after_price + 15)?;
        if !has_both(bytes, after_product, b",\"quanti", 8, b"ty\":") {
            return None;
        }
        let (quantity, end) = last_number(bytes, after_product + 12)?;
        let bid = Bid {
            product,
            quantity,
            price,
        };
        Some((bid, end))
    }
}
