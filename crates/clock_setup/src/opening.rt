ghost use Rattle.std.specs.Prelude.{◌≡◌, ◌≢◌, None, Ok, length, All, IfOk, IfErr};
ghost use Rattle.serde_json.specs.View.{view};
ghost use Rattle.clock_terms.specs.{Demands.{IsGrid}, Eligibility.{activity}};
ghost use Rattle.clock_terms.specs.Faults.{IsFirstFault, IsRefusal, first_fault};
ghost use Rattle.clock_terms.specs.Limits.{IsProduct, IsRow, IsWithin, least_increment};
ghost use Rattle.clock_terms.specs.Limits.{most_increment};
ghost use Rattle.clock_setup.specs.OpeningDocument.{document_opening, has_counts, opening_of};
ghost use Rattle.clock_setup.specs.OpeningDocument.{opening_with, row_checks};
ghost use Rattle.clock_setup.specs.inside.OpeningData.{short_rows_in};
ghost use Rattle.clock_setup.specs.declared.opening.OpeningFault.TheVariants as faults;

use crate::document::setup_of;
use crate::fault::SetupFault;
use crate::opening_scan::scanned_opening;
use clock_device::NoMemory;
use clock_json::tree::{RowReader, each_at, has_members, number_at, read_value};
use clock_json::{ShortRows, push, short_rows, with_room};
use clock_money::{LEAST_INCREMENT, MOST_INCREMENT};
use clock_terms::{Bidder, Grid, Row, Setup, is_within};
use serde_json::Value;
use std::alloc::Global;
use thiserror::Error;

/// An opening: what the closing of round 1 needs, in one document. It has a set-up, each bidder's
/// demands at the opening prices, and the increment. No demand is above its product's cap, and no
/// bidder's activity above its eligibility.
#[derive(Drop)]
pub struct Opening {
    /// The set-up in the document.
    pub setup: Setup,
    /// A row for each bidder, and in it the demand for each product, in blocks.
    pub grid: Grid,
    /// The increment of the closing, 1 to 50 percent.
    pub increment: u64,
}

/// Why an opening document is refused. A document with several faults has the first in this order,
/// bidder by bidder for demands and activity.
#[derive(Clone, Copy, Debug, PartialEq, Eq, Error)]
pub enum OpeningFault {
    /// The bytes are no JSON value.
    #[error("not a JSON value")]
    NotJson,
    /// The document has another shape. Whether there is a row for each bidder, and in it a number
    /// for each product, is checked only after the set-up.
    #[error("not of the shape of an opening")]
    Shape,
    /// The value under `setup` is no set-up. Its fault is never `NoMemory`.
    #[error("the set-up is refused")]
    Setup(SetupFault),
    /// A bidder's demand for a product is above the cap: the bidder's number, and its first such
    /// product.
    #[error("a demand is above the cap")]
    Demand(u64, u64),
    /// The activity of a bidder's demands, all within the caps, is above its eligibility.
    #[error("an activity is above the eligibility")]
    Activity(u64),
    /// The increment is not 1 to 50 percent.
    #[error("the increment is outside its limits")]
    Increment,
    /// Out of memory. Replaces any other result.
    #[error("out of memory")]
    NoMemory,
}

impl From<NoMemory> for OpeningFault {
    ghost from_gives = { λ _ fault. fault ≡ faults.NoMemory };

    fn from(_refused: NoMemory) -> OpeningFault {
        OpeningFault::NoMemory
    }
}

/// Whether there is a row for each bidder, and in each row a number for each product.
fn has_counts(setup: &Setup, demands: &ShortRows) -> bool
    ensures { result ≡ has_counts setup.now demands.now }
{
    let width = setup.products.len();
    demands.len() == setup.bidders.len() && demands.iter().all(|row| row.len() == width)
}

/// Returns a bidder's row, or the first fault of its demands and activity. Requires a demand for
/// each product. May return `NoMemory`, which then replaces any other result.
///
/// Adds all demands, also those of 0: a branch around the addition would often be mispredicted.
fn row_within(
    alloc: Global,
    setup: &Setup,
    number: u64,
    bidder: &Bidder,
    demands: &[u16],
) -> Result<Row, OpeningFault>
    requires { length demands.now ≡ length setup.now.products }
    ensures same { IfOk result (λ row. row ≡ demands.now) }
    ensures row { IfOk result (IsRow setup.now.products) }
    ensures ok { IfOk result
        (λ _. first_fault (row_checks setup.now.products number (bidder.now, demands.now)) ≡ None) }
    ensures err { IfErr result (IsFirstFault OpeningFault.NoMemory
        (first_fault (row_checks setup.now.products number (bidder.now, demands.now)))) }
    ensures nested { IfErr result (λ fault. fault ≢ OpeningFault.Setup SetupFault.NoMemory) }
{
    let products = setup.products.as_slice();
    let mut units = 0u64;
    for (product, demand) in demands.iter().enumerate() {
        let blocks = *demand as u64;
        if blocks > products[product].cap {
            return Err(OpeningFault::Demand(number, product as u64));
        }
        units += products[product].units * blocks;
    }
    if units > bidder.eligibility {
        return Err(OpeningFault::Activity(number));
    }
    Ok(Row::of(alloc, setup, demands)?)
}

/// Returns the grid of an opening, or the first fault of the checks after the set-up. May return
/// `NoMemory`, which then replaces any other result.
fn opening_grid(
    alloc: Global,
    setup: &Setup,
    demands: &ShortRows,
    increment: u64,
) -> Result<Grid, OpeningFault>
    ensures ok { IfOk result (λ grid. opening_with setup.now demands.now increment
        ≡ Ok (record { setup = setup.now; grid = grid; increment = increment })) }
    ensures grid { IfOk result (IsGrid (length setup.now.bidders) (length setup.now.products)) }
    ensures increment { IfOk result (λ _. IsWithin least_increment most_increment increment) }
    ensures err { IfErr result
        (IsRefusal OpeningFault.NoMemory (opening_with setup.now demands.now increment)) }
    ensures nested { IfErr result (λ fault. fault ≢ OpeningFault.Setup SetupFault.NoMemory) }
{
    let bidders = setup.bidders.as_slice();
    if !has_counts(setup, demands) {
        return Err(OpeningFault::Shape);
    }
    let mut rows = with_room(alloc, bidders.len())?;
    for (number, bidder) in bidders.iter().enumerate() {
        let row = row_within(alloc, setup, number as u64, bidder, &demands[number])?;
        push(&mut rows, row)?;
    }
    if !is_within(LEAST_INCREMENT, MOST_INCREMENT, increment) {
        drop(rows);
        return Err(OpeningFault::Increment);
    }
    Ok(Grid::of_rows(alloc, setup, rows)?)
}

/// Returns the opening with this set-up, or the first fault of the checks after the set-up. May
/// return `NoMemory`, which then replaces any other result.
fn judged(
    alloc: Global,
    setup: Setup,
    demands: ShortRows,
    increment: u64,
) -> Result<Opening, OpeningFault>
    // Holds of every set-up. The caller's proof uses it.
    ensures limits { All IsProduct setup.products }
    ensures ok { IfOk result (λ opening. opening_with setup demands increment ≡ Ok opening) }
    ensures grid { IfOk result (λ opening. IsGrid (length opening.setup.bidders)
        (length opening.setup.products) opening.grid) }
    ensures increment { IfOk result
        (λ opening. IsWithin least_increment most_increment opening.increment) }
    ensures err { IfErr result
        (IsRefusal OpeningFault.NoMemory (opening_with setup demands increment)) }
    ensures nested { IfErr result (λ fault. fault ≢ OpeningFault.Setup SetupFault.NoMemory) }
{
    let grid = opening_grid(alloc, &setup, &demands, increment);
    drop(demands);
    match grid {
        Ok(grid) => Ok(Opening {
            setup,
            grid,
            increment,
        }),
        Err(fault) => {
            drop(setup);
            Err(fault)
        }
    }
}

/// Returns the demands that a JSON value has as an opening, as 16-bit numbers: a higher one becomes
/// 65,535, which is above every cap too. `None` if they have another shape. May return `NoMemory`.
fn demands_in(alloc: Global, value: &Value) -> Result<Option<ShortRows>, NoMemory>
    ensures { IfOk result (λ demands. demands ≡ short_rows_in (view value.now)) }
{
    let Some(rows) = each_at(alloc, value, "demands", &RowReader)? else {
        return Ok(None);
    };
    let demands = short_rows(alloc, rows.as_slice());
    drop(rows);
    Ok(Some(demands?))
}

/// Returns the opening that a JSON value means, or its first fault. May return `NoMemory`, which
/// then replaces any other result.
#[tactic(auto, using(crate::proofs::OpeningLaws::opening_shape), unfolding(crate::specs::OpeningShape::opening_parts))]
fn opening_in(alloc: Global, value: &Value) -> Result<Opening, OpeningFault>
    ensures ok { IfOk result (λ opening. opening_of (view value.now) ≡ Ok opening) }
    ensures grid { IfOk result (λ opening. IsGrid (length opening.setup.bidders)
        (length opening.setup.products) opening.grid) }
    ensures increment { IfOk result
        (λ opening. IsWithin least_increment most_increment opening.increment) }
    ensures err { IfErr result (IsRefusal OpeningFault.NoMemory (opening_of (view value.now))) }
    ensures nested { IfErr result (λ fault. fault ≢ OpeningFault.Setup SetupFault.NoMemory) }
{
    let (Some(setup), Some(increment)) = (value.get("setup"), number_at(value, "increment")) else {
        return Err(OpeningFault::Shape);
    };
    if !has_members(value, 3) {
        return Err(OpeningFault::Shape);
    }
    let Some(demands) = demands_in(alloc, value)? else {
        return Err(OpeningFault::Shape);
    };
    match setup_of(alloc, setup) {
        Ok(setup) => judged(alloc, setup, demands, increment),
        Err(SetupFault::NoMemory) => {
            drop(demands);
            Err(OpeningFault::NoMemory)
        }
        Err(fault) => {
            drop(demands);
            Err(OpeningFault::Setup(fault))
        }
    }
}

/// Reads an opening document: returns the opening, or the document's first fault.
///
/// The document is `{"demands":[[N,..],..],"increment":N,"setup":SETUP}`: a row for each bidder, in
/// it a number of blocks for each product, and a set-up as [`read_setup`](crate::read_setup) reads
/// it. Errors, in this order: the cases of [`OpeningFault`]. May return `NoMemory`, which then
/// replaces any other result.
#[tactic(auto, unfolding(crate::specs::OpeningDocument::document_opening))]
pub fn read_opening(alloc: Global, bytes: &[u8]) -> Result<Opening, OpeningFault>
    ensures ok { IfOk result (λ opening. document_opening bytes.now ≡ Ok opening) }
    ensures grid { IfOk result (λ opening. IsGrid (length opening.setup.bidders)
        (length opening.setup.products) opening.grid) }
    ensures increment { IfOk result
        (λ opening. IsWithin least_increment most_increment opening.increment) }
    ensures err { IfErr result (IsRefusal OpeningFault.NoMemory (document_opening bytes.now)) }
    ensures nested { IfErr result (λ fault. fault ≢ OpeningFault.Setup SetupFault.NoMemory) }
{
    if let Some(opening) = scanned_opening(alloc, bytes)? {
        return Ok(opening);
    }
    let value = read_value(alloc, bytes)?.ok_or(OpeningFault::NotJson)?;
    let opening = opening_in(alloc, &value);
    drop(value);
    opening
}
