//! The report of an auction so far: its round results, and the processed demands after its last
//! closed round.

ghost use Rattle.std.specs.Prelude.{◌≡◌, ◌<◌, ◌≤◌, Some, length, map, reverse, slice_get, All};
ghost use Rattle.std.specs.Prelude.{IfOk};
ghost use Rattle.clock_reports.specs.Reports.{IsPricedLine, IsReport, ReportFields};
ghost use Rattle.clock_reports.specs.FinalReport as rules;

use clock_device::{Items, NoMemory};
use clock_house::House;
use clock_posting::{Line, RoundSheet};
use clock_terms::{Grid, Setup};
use std::alloc::Global;
use std::marker::Model;

/// The round results of closed rounds, in order from round 1.
pub type RoundSheets = Items<RoundSheet>;

/// The outcome of an auction so far, of a rehearsal or an audit. There is at least one closed
/// round. Each round's results have a line for each product, with prices from 1 to 10^12 dollars.
/// The demands are a grid of the set-up.
#[derive(Drop)]
pub struct Report {
    /// The set-up of the auction.
    pub setup: Setup,
    /// The round results of the closed rounds.
    pub sheets: RoundSheets,
    /// The processed demands after the last closed round. At the end, each bidder has won these
    /// blocks.
    pub grid: Grid,
}

impl Model for Report {
    ghost Value = { ReportFields };

    ghost view = { λ r. record { setup = r.setup; sheets = r.sheets; grid = r.grid } };

    ghost invariant = { λ r.
        IsReport (record { setup = r.setup; sheets = r.sheets; grid = r.grid }) };
}

/// Gives its caller a law: the prices in the lines are from 1 to 10^12 dollars.
fn law_of_prices(lines: &[Line])
    ensures { All IsPricedLine lines.now }
{
    for line in lines {
        prove!(line.start.get() >= 1 && line.clock.get() >= 1 && line.posted.get() >= 1);
    }
}

/// Returns the results of a closed round, by its index from 0. Requires a closed round.
pub(crate) fn sheet_at<P>(house: &House<P>, round: u64) -> &RoundSheet
    requires { round < length house.now.closed }
    ensures is { slice_get
        (map (λ closed. closed.sheet) (reverse house.now.closed)) round ≡ Some result.now }
    ensures lines { length result.now.lines ≡ length house.now.setup.products }
{
    house.law_of_house();
    house.sheet(round + 1).unwrap()
}

/// Returns the round results of all closed rounds, in order. May return `NoMemory`.
fn sheets_of<P>(alloc: Global, house: &House<P>) -> Result<RoundSheets, NoMemory>
    ensures same { IfOk result
        (λ sheets. sheets ≡ map (λ closed. closed.sheet) (reverse house.now.closed)) }
    ensures priced { IfOk result (All (λ sheet. All IsPricedLine sheet.lines)) }
{
    let mut sheets = RoundSheets::new(alloc);
    for round in 0..house.closed_rounds() {
        let sheet = sheet_at(house, round);
        law_of_prices(sheet.lines.as_slice());
        sheets.push(sheet.copy(alloc)?)?;
    }
    Ok(sheets)
}

/// Returns the report of an auction so far. Requires at least one closed round. May return
/// `NoMemory`.
pub fn report_so_far<P>(alloc: Global, house: &House<P>) -> Result<Report, NoMemory>
    requires { 1 ≤ length house.now.closed }
    ensures { IfOk result (λ report. report ≡ rules.report_of house.now.setup house.now.closed) }
{
    house.law_of_house();
    // The set-up is copied last, so that the least is freed if memory runs out.
    let grid = house.demands().copy(alloc)?;
    let sheets = sheets_of(alloc, house)?;
    Ok(Report {
        setup: house.setup().copy(alloc)?,
        sheets,
        grid,
    })
}
