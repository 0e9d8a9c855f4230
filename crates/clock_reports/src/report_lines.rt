//! The texts of reports: of a rehearsal, of an auction that has ended, and of an audit.

ghost use Rattle.std.specs.Prelude.{◌≡◌, ◌≤◌, ◌++◌, ◌||◌, [], All, IfOk, length, decimal, codes};
ghost use Rattle.std.specs.Prelude.{if◌then◌else◌, is_err, true, zip};
ghost use Rattle.std.specs.List.{flat_map};
ghost use Rattle.clock_device.specs.{Buffers.{Puts, output}, Streams.{WritesText}};
ghost use Rattle.clock_terms.specs.Limits.{most_products};
ghost use Rattle.clock_house.specs.House.{state_in};
ghost use Rattle.clock_reports.specs.Writers.{WriterFields, new_writer, none_held};
ghost use Rattle.clock_reports.specs.ReportText as words;
ghost use Rattle.clock_reports.specs.FinalReport as rules;

use crate::report::{Report, sheet_at};
use clock_device::{Buffer, Failed, NoMemory, Sink, Text, TextSink};
use clock_house::House;
use clock_posting::{Line, RoundSheet, write_sheet};
use clock_terms::{Bidder, Grid, Row, Setup};
use std::alloc::Global;
use std::marker::Model;

/// Returns the text of a report. May return `NoMemory`.
///
/// The lines of each round's results come first, by rising round. Then there is a line `won NAME
/// DEMAND .. PAY` for each bidder: its processed demand for each product, and the sum of demand
/// times last posted price, in whole dollars. Fields are separated by one space, numbers are in
/// decimal, and each line ends with a line feed:
///
/// ```text
/// round 1 A 100 100 100 - -
/// won X 1 100
/// won Y 1 100
/// ```
pub fn report_text(alloc: Global, report: &Report) -> Result<Text, NoMemory>
    ensures { IfOk result (λ text. text ≡ words.report_text report.now) }
{
    let mut writer = ReportWriter::new(alloc, &report.setup)?;
    let mut sink = TextSink::new(alloc);
    write_sheets(&mut sink, &mut writer.buffer, report);
    write_report_wins(
        &mut sink,
        &mut writer.buffer,
        writer.none.as_slice(),
        report,
    );
    sink.finish(&mut writer.buffer)
}

/// Returns the price of a bidder's demands at the posted prices, in whole dollars. Requires a line
/// for each product. Allocates nothing.
fn payment(lines: &[Line], demands: &Row) -> u64
    requires each { length demands.now ≡ length lines.now }
    requires few { length lines.now ≤ most_products }
    ensures { result ≡ words.payment lines.now demands.now }
{
    let mut total: u64 = 0;
    let mut held = demands.held();
    'held: while let Some(one) = held.next() {
        total += lines[one.product].posted.get() * one.demand;
    }
    total
}

/// Returns the text of `products` demands of 0, each followed by a space. May return `NoMemory`.
fn none_held_text(alloc: Global, products: usize) -> Result<Text, NoMemory>
    ensures { IfOk result (λ text. text ≡ none_held products) }
{
    let mut text = Text::from_vec(Vec::with_capacity(alloc, products.saturating_mul(2))?);
    for _product in 0..products {
        text.extend_from_slice(b"0 ")?;
    }
    Ok(text)
}

/// Writes the demand for each product, each followed by a space. Visits only positive demands.
/// Demands of 0 are copied from `none`, which is the text of a row of them.
fn write_demands<W: Sink>(sink: &mut W, buffer: &mut Buffer, none: &[u8], demands: &Row)
    requires { none.now ≡ none_held (length demands.now) }
    ensures { Puts (output (W.report sink.old) buffer.old) (output (W.report sink.new) buffer.new)
        (flat_map (λ demand. decimal demand ++ codes " ") demands.now) }
{
    let products = demands.len();
    let mut held = demands.held();
    let mut from = 0;
    'held: while let Some(one) = held.next() {
        buffer.put(sink, &none[..2 * (one.product - from)]);
        buffer.put_number(sink, one.demand);
        buffer.put(sink, b" ");
        from = one.product + 1;
    }
    buffer.put(sink, &none[..2 * (products - from)]);
}

/// Writes the line of a bidder. Requires a line and a demand for each product, and that `none` is
/// the text of a row of demands of 0.
fn write_win<W: Sink>(
    sink: &mut W,
    buffer: &mut Buffer,
    none: &[u8],
    lines: &[Line],
    bidder: &Bidder,
    demands: &Row,
)
    requires none { none.now ≡ none_held (length demands.now) }
    requires each { length demands.now ≡ length lines.now }
    requires few { length lines.now ≤ most_products }
    ensures { Puts (output (W.report sink.old) buffer.old) (output (W.report sink.new) buffer.new)
        (words.won_text lines.now (bidder.now, demands.now)) }
{
    buffer.put(sink, b"won ");
    buffer.put(sink, bidder.name.as_slice());
    buffer.put(sink, b" ");
    write_demands(sink, buffer, none, demands);
    buffer.put_number(sink, payment(lines, demands));
    buffer.put(sink, b"\n");
}

/// Writes the line of each bidder. Requires a line for each product, a row of the grid for each
/// bidder, and that `none` is the text of a row of demands of 0.
fn write_wins<W: Sink>(
    sink: &mut W,
    buffer: &mut Buffer,
    none: &[u8],
    lines: &[Line],
    setup: &Setup,
    grid: &Grid,
)
    requires none { none.now ≡ none_held (length setup.now.products) }
    requires lines { length lines.now ≡ length setup.now.products }
    requires bidders { length grid.now ≡ length setup.now.bidders }
    requires rows { All (λ demands. length demands ≡ length setup.now.products) grid.now }
    ensures { Puts (output (W.report sink.old) buffer.old) (output (W.report sink.new) buffer.new)
        (flat_map (words.won_text lines.now) (zip setup.now.bidders grid.now)) }
{
    for (number, bidder) in setup.bidders.iter().enumerate() {
        write_win(sink, buffer, none, lines, bidder, grid.row(number));
    }
}

/// Writes the line of each bidder of a report. Requires that `none` is the text of a row of demands
/// of 0.
fn write_report_wins<W: Sink>(sink: &mut W, buffer: &mut Buffer, none: &[u8], report: &Report)
    requires { none.now ≡ none_held (length report.now.setup.products) }
    ensures { Puts (output (W.report sink.old) buffer.old) (output (W.report sink.new) buffer.new)
        (words.wins_text report.now) }
{
    let sheets = report.sheets.as_slice();
    let lines = sheets[sheets.len() - 1].lines.as_slice();
    write_wins(sink, buffer, none, lines, &report.setup, &report.grid);
}

/// Writes the line of each bidder of a report, if the auction has ended. Requires that `none` is
/// the text of a row of demands of 0.
fn write_end<W: Sink>(sink: &mut W, buffer: &mut Buffer, none: &[u8], report: &Report)
    requires { none.now ≡ none_held (length report.now.setup.products) }
    ensures { Puts (output (W.report sink.old) buffer.old) (output (W.report sink.new) buffer.new)
        (if words.sheets_have_ended report.now.sheets then words.wins_text report.now else []) }
{
    let sheets = report.sheets.as_slice();
    if sheets[sheets.len() - 1].ended {
        write_report_wins(sink, buffer, none, report);
    }
}

/// Writes the lines of all rounds of a report.
fn write_sheets<W: Sink>(sink: &mut W, buffer: &mut Buffer, report: &Report)
    ensures { Puts (output (W.report sink.old) buffer.old) (output (W.report sink.new) buffer.new)
        (words.rounds_text report.now) }
{
    for sheet in report.sheets.as_slice() {
        write_sheet(sink, buffer, &report.setup, sheet);
    }
}

/// A digest in 64 hexadecimal digits.
pub type Digits = [u8; 64];

/// Returns the text of an audit. Requires a digest for each round. May return `NoMemory`.
///
/// The lines of each round's results come first, by rising round, each followed by a line `closed
/// ROUND DIGEST` with the digest after its closing. If the auction has ended, the lines of the
/// bidders come next, as in [`report_text`]:
///
/// ```text
/// round 1 A 100 100 100 - -
/// closed 1 5be1a2c4..
/// won X 1 100
/// won Y 1 100
/// ```
pub fn audit_text(alloc: Global, report: &Report, digests: &[Digits]) -> Result<Text, NoMemory>
    requires { length report.now.sheets ≤ length digests.now }
    ensures { IfOk result (λ text. text ≡ words.audit_text report.now digests.now) }
{
    let mut writer = ReportWriter::new(alloc, &report.setup)?;
    let mut sink = TextSink::new(alloc);
    write_audited(&mut sink, &mut writer.buffer, report, digests);
    write_end(
        &mut sink,
        &mut writer.buffer,
        writer.none.as_slice(),
        report,
    );
    sink.finish(&mut writer.buffer)
}

/// Writes the lines of a round, and the digest after its closing.
fn write_audited_round<W: Sink>(
    sink: &mut W,
    buffer: &mut Buffer,
    setup: &Setup,
    sheet: &RoundSheet,
    digest: &Digits,
)
    requires { length sheet.now.lines ≡ length setup.now.products }
    ensures { Puts (output (W.report sink.old) buffer.old) (output (W.report sink.new) buffer.new)
        (words.audited_round setup.now.products (sheet.now, digest.now)) }
{
    write_sheet(sink, buffer, setup, sheet);
    buffer.put(sink, b"closed ");
    buffer.put_number(sink, sheet.round);
    buffer.put(sink, b" ");
    buffer.put(sink, digest);
    buffer.put(sink, b"\n");
}

/// Writes the lines of all rounds of a report, each with the digest after its closing. Requires a
/// digest for each round.
fn write_audited<W: Sink>(sink: &mut W, buffer: &mut Buffer, report: &Report, digests: &[Digits])
    requires { length report.now.sheets ≤ length digests.now }
    ensures { Puts (output (W.report sink.old) buffer.old) (output (W.report sink.new) buffer.new)
        (flat_map (words.audited_round report.now.setup.products)
        (zip report.now.sheets digests.now)) }
{
    for (index, sheet) in report.sheets.iter().enumerate() {
        write_audited_round(sink, buffer, &report.setup, sheet, &digests[index]);
    }
}

/// Writes the lines of all closed rounds of an auction.
fn write_rounds<P, W: Sink>(sink: &mut W, buffer: &mut Buffer, house: &House<P>)
    ensures { Puts (output (W.report sink.old) buffer.old) (output (W.report sink.new) buffer.new)
        (words.rounds_text (rules.report_of house.now.setup house.now.closed)) }
{
    for round in 0..house.closed_rounds() {
        write_sheet(sink, buffer, house.setup(), sheet_at(house, round));
    }
}

/// What reports are written with. Its memory is allocated when it is made.
///
/// In contracts, it is its buffer, and the text of a demand of 0 for each product.
#[derive(Drop)]
pub struct ReportWriter {
    buffer: Buffer,
    none: Text,
}

impl Model for ReportWriter {
    ghost Value = { WriterFields };

    ghost view = { λ w. record { buffer = w.buffer; none = w.none } };
}

impl ReportWriter {
    /// Makes a writer for reports of an auction. May return `NoMemory`.
    pub fn new(alloc: Global, setup: &Setup) -> Result<ReportWriter, NoMemory>
        ensures { IfOk result (λ writer. writer ≡ new_writer (length setup.now.products)) }
    {
        Ok(ReportWriter {
            buffer: Buffer::new(alloc)?,
            none: none_held_text(alloc, setup.products.as_slice().len())?,
        })
    }

    /// Writes the text of the report of an auction, or a prefix of it if a write fails. Requires
    /// that the auction has ended, and a writer for it that has written nothing. Allocates nothing.
    pub fn write<P, W: Sink>(&mut self, sink: &mut W, house: &House<P>) -> Result<(), Failed>
        requires ended { (state_in house.now).ended ≡ true }
        requires fresh { self.old ≡ new_writer (length house.now.setup.products) }
        ensures bytes { WritesText (W.report sink.old).taken (W.report sink.new).taken
            (words.report_text (rules.report_of house.now.setup house.now.closed)) result }
        ensures failed { (W.report sink.new).has_failed
            ≡ ((W.report sink.old).has_failed || is_err result) }
    {
        write_rounds(sink, &mut self.buffer, house);
        write_last(sink, &mut self.buffer, self.none.as_slice(), house);
        self.buffer.finish(sink)
    }
}

/// Writes the line of each bidder in an auction that has ended. Requires that `none` is the text
/// of a row of demands of 0.
fn write_last<P, W: Sink>(sink: &mut W, buffer: &mut Buffer, none: &[u8], house: &House<P>)
    requires ended { (state_in house.now).ended ≡ true }
    requires none { none.now ≡ none_held (length house.now.setup.products) }
    ensures { Puts (output (W.report sink.old) buffer.old) (output (W.report sink.new) buffer.new)
        (words.wins_text (rules.report_of house.now.setup house.now.closed)) }
{
    house.law_of_house();
    let last = sheet_at(house, house.closed_rounds() - 1);
    write_wins(
        sink,
        buffer,
        none,
        last.lines.as_slice(),
        house.setup(),
        house.demands(),
    );
}
