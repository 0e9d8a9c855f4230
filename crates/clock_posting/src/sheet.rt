ghost use Rattle.std.specs.Prelude.{◌≡◌, ◌≤◌, ◌+◌, ◌++◌, IfOk, codes, drop, length};
ghost use Rattle.clock_device.specs.{Buffers.{Puts, output}, Decimal.{number_or_dash}};
ghost use Rattle.clock_posting.specs.SheetText.{sheet_text, line_text};

use clock_device::{Buffer, Items, NoMemory, Sink, Text, TextSink, put_before};
use clock_money::Price;
use clock_terms::{Product, Setup};
use itoa::write_digits;
use std::alloc::Global;

/// A product's line of the round results. Prices are in whole dollars. It names no bidder.
#[derive(Clone, Copy, Debug)]
pub struct Line {
    /// The start-of-round price.
    pub start: Price,
    /// The clock price.
    pub clock: Price,
    /// The posted price, from the start-of-round price to the clock price.
    pub posted: Price,
    /// The aggregate demand, in blocks, if it exceeds the supply.
    pub demand: Option<u64>,
    /// The clock price of the next round, if the auction continues.
    pub next: Option<u64>,
}

/// Lines of the round results, one per product in the order of the set-up.
pub type Lines = Items<Line>;

/// The results of a round, for everyone.
#[derive(Drop)]
pub struct RoundSheet {
    /// The round, from 1.
    pub round: u64,
    /// Whether the auction ends with this round.
    pub ended: bool,
    /// One line per product, in the order of the set-up.
    pub lines: Lines,
}

impl RoundSheet {
    /// Copies the round results.
    pub fn copy(&self, alloc: Global) -> Result<RoundSheet, NoMemory>
        ensures { IfOk result (λ copy. copy ≡ self.now) }
    {
        Ok(RoundSheet {
            round: self.round,
            ended: self.ended,
            lines: self.lines.copy(alloc)?,
        })
    }
}

/// The round results as text: `round N`, then for each product
/// `NAME START CLOCK POSTED DEMAND NEXT`, with `-` for no demand or no next clock price. Fields are
/// separated by one space, numbers are decimal, and each line ends with a line feed:
///
/// ```text
/// round 1
/// A 100 100 100 - 110
/// B 100 100 100 3 110
/// ```
pub fn sheet_lines(alloc: Global, setup: &Setup, sheet: &RoundSheet) -> Result<Text, NoMemory>
    requires { length sheet.now.lines ≡ length setup.now.products }
    ensures { IfOk result (λ text. text ≡ sheet_text setup.now.products sheet.now) }
{
    let mut buffer = Buffer::new(alloc)?;
    let mut sink = TextSink::new(alloc);
    write_sheet(&mut sink, &mut buffer, setup, sheet);
    sink.finish(&mut buffer)
}

/// Writes the lines of [`sheet_lines`]. Allocates nothing.
pub fn write_sheet<W: Sink>(sink: &mut W, buffer: &mut Buffer, setup: &Setup, sheet: &RoundSheet)
    requires { length sheet.now.lines ≡ length setup.now.products }
    ensures { Puts (output (W.report sink.old) buffer.old) (output (W.report sink.new) buffer.new)
        (sheet_text setup.now.products sheet.now) }
{
    let products = setup.products.as_slice();
    buffer.put(sink, b"round ");
    buffer.put_number(sink, sheet.round);
    buffer.put(sink, b"\n");
    for (i, line) in sheet.lines.iter().enumerate() {
        write_line(sink, buffer, &products[i], line);
    }
}

/// The most bytes that the numbers of a line take: five numbers of 20 digits, each after a space,
/// and a line feed.
const NUMBERS_ROOM: usize = 106;

/// Writes a space and a number, or a dash for `None`, so that they end before index `end`. Returns
/// the index at which they begin.
#[inline(always)]
fn put_field(bytes: &mut [u8], end: usize, number: Option<u64>) -> usize
    requires room { 21 ≤ end }
    requires within { end ≤ length bytes.old }
    ensures start { end ≤ result + 21 }
    ensures order { result ≤ end }
    ensures same_length { length bytes.new ≡ length bytes.old }
    ensures put { drop result bytes.new
        ≡ codes " " ++ (number_or_dash number ++ drop end bytes.old) }
{
    let start = match number {
        Some(number) => write_digits(number, bytes, end),
        None => put_before(bytes, end, b"-"),
    };
    put_before(bytes, start, b" ")
}

/// Writes the line of a product.
fn write_line<W: Sink>(sink: &mut W, buffer: &mut Buffer, product: &Product, line: &Line)
    ensures { Puts (output (W.report sink.old) buffer.old) (output (W.report sink.new) buffer.new)
        (line_text product.now line.now) }
{
    let mut numbers = [0; NUMBERS_ROOM];
    let end = put_before(&mut numbers, NUMBERS_ROOM, b"\n");
    let next = put_field(&mut numbers, end, line.next);
    let demand = put_field(&mut numbers, next, line.demand);
    let posted = put_field(&mut numbers, demand, Some(line.posted.get()));
    let clock = put_field(&mut numbers, posted, Some(line.clock.get()));
    let start = put_field(&mut numbers, clock, Some(line.start.get()));
    buffer.put(sink, product.name.as_slice());
    buffer.put(sink, &numbers[start..]);
}
