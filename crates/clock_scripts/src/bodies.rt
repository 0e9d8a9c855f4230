//! Writes the bodies of requests as compact JSON. In an array, a comma is written before each item,
//! and the first comma is then overwritten by the bracket.

ghost use Rattle.std.specs.Prelude.{◌≡◌, ◌++◌, ℕ, List, codes, decimal, length, OnOk};
ghost use Rattle.serde_json.specs.Written.{compact_text};
ghost use Rattle.clock_bids.specs.declared.sheet.Bid.{Bid};
ghost use Rattle.clock_views.specs.{Values.{whole, list_of}, inside.Values.{Adds}};
ghost use Rattle.clock_scripts.specs.RequestTexts.{tie_value, written_put, written_close};
ghost use Rattle.clock_scripts.specs.Sincere.{bid_for};
ghost use Rattle.clock_scripts.specs.inside.Arrays.{array_ended, with_comma};
ghost use Rattle.clock_scripts.specs.inside.Bodies.{bid_text, bids_text};

use clock_bids::Bid;
use clock_device::{NoMemory, put_before};
use clock_order::Tie;
use clock_replays::Closing;
use clock_terms::Increments;
use itoa::{Buffer, write_digits};

/// Appends a label, such as `{"bids":`.
#[inline(always)]
pub(crate) fn push_label(text: &mut Vec<u8>, label: &[u8]) -> Result<(), NoMemory>
    ensures { OnOk result (Adds label.now text.old.items text.new.items) }
{
    Ok(text.extend_from_slice(label)?)
}

/// Appends a label, such as `,"round":`, and a number.
#[inline(always)]
pub(crate) fn push_number(text: &mut Vec<u8>, label: &[u8], number: u64) -> Result<(), NoMemory>
    ensures { OnOk result (Adds (label.now ++ decimal number) text.old.items text.new.items) }
{
    let mut buffer = Buffer::new();
    push_label(text, label)?;
    push_label(text, buffer.format(number).as_bytes())
}

/// Ends the array whose items begin at index `start`.
fn end_array(text: &mut Vec<u8>, start: usize) -> Result<(), NoMemory>
    ensures { OnOk result (text.new.items ≡ array_ended start text.old.items) }
{
    if start < text.len() {
        text[start] = b'[';
    } else {
        push_label(text, b"[")?;
    }
    push_label(text, b"]")
}

/// Appends an array of numbers.
fn push_numbers(text: &mut Vec<u8>, numbers: &[u64]) -> Result<(), NoMemory>
    ensures { OnOk result
        (Adds (compact_text (list_of whole numbers.now)) text.old.items text.new.items) }
{
    let start = text.len();
    for number in numbers {
        push_number(text, b",", *number)?;
    }
    end_array(text, start)
}

/// Appends an array of tie-breaking numbers.
fn push_ties(text: &mut Vec<u8>, ties: &[Tie]) -> Result<(), NoMemory>
    ensures { OnOk result
        (Adds (compact_text (list_of tie_value ties.now)) text.old.items text.new.items) }
{
    let start = text.len();
    for tie in ties {
        push_tie(text, tie)?;
    }
    end_array(text, start)
}

/// The most bytes of a tie-breaking number and the comma before it: three numbers of 20 digits, and
/// the rest.
const TIE_ROOM: usize = 65;

/// Appends a tie-breaking number with a comma before it. Writes it into an array from its end to
/// its start, and copies it once.
fn push_tie(text: &mut Vec<u8>, tie: &Tie) -> Result<(), NoMemory>
    ensures { OnOk result (Adds (with_comma tie_value tie.now) text.old.items text.new.items) }
{
    let mut line = [0; TIE_ROOM];
    let end = put_before(&mut line, TIE_ROOM, b"]");
    let number_at = write_digits(tie.number, &mut line, end);
    let behind_product = put_before(&mut line, number_at, b",");
    let product_at = write_digits(tie.product, &mut line, behind_product);
    let behind_bidder = put_before(&mut line, product_at, b",");
    let bidder_at = write_digits(tie.bidder, &mut line, behind_bidder);
    let start = put_before(&mut line, bidder_at, b",[");
    push_label(text, &line[start..])
}

/// Appends the body of a closing.
pub(crate) fn push_closing(
    text: &mut Vec<u8>,
    round: u64,
    closing: &Closing,
) -> Result<(), NoMemory>
    ensures { OnOk result (Adds (written_close round closing.now.increments closing.now.ties)
        text.old.items text.new.items) }
{
    match &closing.increments {
        Increments::Single(increment) => push_number(text, b"{\"increment\":", *increment)?,
        Increments::PerProduct(increments) => {
            push_label(text, b"{\"increments\":")?;
            push_numbers(text, increments.as_slice())?;
        }
    }
    push_number(text, b",\"round\":", round)?;
    push_label(text, b",\"ties\":")?;
    push_ties(text, closing.ties.as_slice())?;
    push_label(text, b"}")
}

/// The most bytes of a bid and the comma before it: three numbers of 20 digits, and the rest.
const BID_ROOM: usize = 94;

/// Appends a bid. Writes it into an array from its end to its start, and copies it once.
pub(crate) fn push_bid(
    text: &mut Vec<u8>,
    product: u64,
    quantity: u64,
    price: u64,
) -> Result<(), NoMemory>
    ensures { OnOk result
        (Adds (bid_text (bid_for product quantity price)) text.old.items text.new.items) }
{
    let mut line = [0; BID_ROOM];
    let end = put_before(&mut line, BID_ROOM, b"}");
    let quantity_at = write_digits(quantity, &mut line, end);
    let behind_product = put_before(&mut line, quantity_at, b",\"quantity\":");
    let product_at = write_digits(product, &mut line, behind_product);
    let behind_price = put_before(&mut line, product_at, b",\"product\":");
    let price_at = write_digits(price, &mut line, behind_price);
    let start = put_before(&mut line, price_at, b",{\"price\":");
    push_label(text, &line[start..])
}

/// Ends the body of a sheet whose bids begin at index `start`.
pub(crate) fn end_sheet(text: &mut Vec<u8>, start: usize, round: u64) -> Result<(), NoMemory>
    ensures { (old begun : List ℕ) (bids : List Bid) → Adds (codes "{\"bids\":") old begun
        → start ≡ length begun → Adds (bids_text bids) begun text.old.items
        → OnOk result (Adds (written_put round bids) old text.new.items) }
{
    end_array(text, start)?;
    push_number(text, b",\"round\":", round)?;
    push_label(text, b"}")
}

/// Appends the body of a sheet.
pub(crate) fn push_sheet(text: &mut Vec<u8>, round: u64, bids: &[Bid]) -> Result<(), NoMemory>
    ensures { OnOk result (Adds (written_put round bids.now) text.old.items text.new.items) }
{
    push_label(text, b"{\"bids\":")?;
    let start = text.len();
    for bid in bids {
        push_bid(text, bid.product, bid.quantity, bid.price)?;
    }
    end_sheet(text, start, round)
}
