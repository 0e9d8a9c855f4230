//! Reads an opening by bytes, without a tree of values, if all its checks pass. Its demands are
//! read in one pass, and only the positive ones are stored. Any other document is left to the tree.
ghost use Rattle.std.specs.Prelude.{◌≡◌, ◌≤◌, ◌<◌, ℕ, All, EachIndex, slice_index, None, Ok};
ghost use Rattle.std.specs.Prelude.{IfOk, IfSome, IsTrue, OnOk, length, true, zip};
ghost use Rattle.clock_json.specs.Reading.{ReadsValue, rows};
ghost use Rattle.clock_terms.specs.{Demands.{IsGrid}, Eligibility.{activity}};
ghost use Rattle.clock_terms.specs.Faults.{first_fault, in_turn};
ghost use Rattle.clock_terms.specs.Limits.{IsProduct, IsRow, IsWithin, cap_of, least_increment};
ghost use Rattle.clock_terms.specs.Limits.{most_increment, most_products};
ghost use Rattle.clock_setup.specs.OpeningDocument.{document_opening, has_counts, opening_with};
ghost use Rattle.clock_setup.specs.OpeningDocument.{row_checks};
ghost use Rattle.clock_setup.specs.inside.OpeningData.{scanned_data, found_opening};

use crate::opening::Opening;
use crate::setup_scan::NestedSetup;
use clock_device::NoMemory;
use clock_json::{
    PartReader, Scan, ScanStop, ScannedMembers, is_key, push, scanned_text, with_room,
};
use clock_money::{LEAST_INCREMENT, MOST_INCREMENT};
use clock_terms::{
    Bidder, Grid, MOST_BIDDERS, MOST_PRODUCTS, PackedRow, Product, Row, Setup, is_within,
};
use std::alloc::Global;

/// Returns a row with demands that were read. Declines demands above 1,000 blocks, and more of them
/// than the products of a set-up, with `Unusual`. Frees the packed row before the next one is read:
/// packed rows of all bidders would need half as much memory as their rows.
fn row_of(alloc: Global, demands: &[u64]) -> Result<Row, ScanStop>
    ensures { IfOk result (λ row. row ≡ demands.now) }
{
    let Some(packed) = PackedRow::of_list(alloc, demands)? else {
        return Err(ScanStop::Unusual);
    };
    let row = Row::of_packed(alloc, &packed)?;
    Ok(row)
}

/// Reads the demands of all bidders.
fn demand_rows(alloc: Global, scan: &mut Scan<'_>) -> Result<Vec<Row>, ScanStop>
    ensures value { IfOk result (λ list. ReadsValue 2 scan.old (rows list.items) scan.new) }
    ensures shorter { OnOk result (length scan.new < length scan.old) }
{
    scan.opens(b'[')?;
    // memory for a whole set-up at once, since a list that grows is copied
    let mut list = with_room(alloc, MOST_BIDDERS as usize)?;
    let mut demands = with_room(alloc, MOST_PRODUCTS as usize)?;
    'items: while !scan.closes(b']') {
        demands.clear();
        scan.numbers_after(&mut demands)?;
        let row = row_of(alloc, demands.as_slice())?;
        push(&mut list, row)?;
    }
    Ok(list)
}

/// What was found so far of an opening that is read by bytes. Such an opening has no escape in a
/// text, only digits in a number, and no demand above 1,000.
#[derive(Default, Drop)]
struct FoundOpening {
    demands: Option<Vec<Row>>,
    nested: Option<NestedSetup>,
    increment: Option<u64>,
}

impl<'v> ScannedMembers<'v> for FoundOpening {
    type Whole = (NestedSetup, Vec<Row>, u64);

    ghost levels = { 3 };

    ghost fields = { found_opening };

    ghost shown = { scanned_data };

    fn nothing() -> FoundOpening {
        FoundOpening::default()
    }

    fn read(&mut self, alloc: Global, key: &[u8], scan: &mut Scan<'v>) -> Result<(), ScanStop> {
        match key {
            _ if is_key(key, "demands") => self.demands = Some(demand_rows(alloc, scan)?),
            _ if is_key(key, "setup") => self.nested = Some(NestedSetup::part(alloc, scan)?),
            _ if is_key(key, "increment") => self.increment = Some(scan.number()?),
            _ => return Err(ScanStop::Unusual),
        }
        Ok(())
    }

    fn whole(self) -> Option<(NestedSetup, Vec<Row>, u64)> {
        match (self.nested, self.demands, self.increment) {
            (Some(nested), Some(demands), Some(increment)) => Some((nested, demands, increment)),
            _ => None,
        }
    }
}

/// Whether there is a row for each bidder, and in each row a number for each product.
fn has_counts(setup: &Setup, demands: &[Row]) -> bool
    ensures { result ≡ has_counts setup.now demands.now }
{
    let width = setup.products.len();
    demands.len() == setup.bidders.len() && demands.iter().all(|row| row.len() == width)
}

/// Returns the activity of a row, in bidding units, or `None` if a demand is above its product's
/// cap. Visits only positive demands, and each once: both checks read the same product.
fn capped_activity(products: &[Product], row: &Row) -> Option<u64>
    requires limits { All IsProduct products.now }
    requires product_count { length products.now ≤ most_products }
    requires each { length row.now ≡ length products.now }
    ensures capped { IfSome result (λ _. EachIndex row.now
        (λ product. slice_index row.now product ≤ cap_of products.now product)) }
    ensures exact { IfSome result (λ units. units ≡ activity products.now row.now) }
{
    let mut total = 0u64;
    let mut held = row.held();
    'held: while let Some(one) = held.next() {
        if one.demand > products[one.product].cap {
            return None;
        }
        total += products[one.product].units * one.demand;
    }
    Some(total)
}

/// Whether a bidder's demands and its activity pass all checks.
fn is_accepted(products: &[Product], bidder: &Bidder, row: &Row) -> bool
    requires limits { All IsProduct products.now }
    requires product_count { length products.now ≤ most_products }
    requires each { length row.now ≡ length products.now }
    ensures row { IsTrue result → IsRow products.now row.now }
    ensures passed { IsTrue result → (number : ℕ)
        → first_fault (row_checks products.now number (bidder.now, row.now)) ≡ None }
{
    match capped_activity(products, row) {
        Some(units) => units <= bidder.eligibility,
        None => false,
    }
}

/// Whether the demands of all bidders pass the checks after the set-up.
fn are_accepted(setup: &Setup, demands: &[Row]) -> bool
    ensures counts { IsTrue result → has_counts setup.now demands.now ≡ true }
    ensures rows { IsTrue result → All (IsRow setup.now.products) demands.now }
    ensures passed { IsTrue result → first_fault
        (in_turn (row_checks setup.now.products) 0 (zip setup.now.bidders demands.now)) ≡ None }
{
    let products = setup.products.as_slice();
    let bidders = setup.bidders.as_slice();
    if !has_counts(setup, demands) {
        return false;
    }
    for (number, bidder) in bidders.iter().enumerate() {
        if !is_accepted(products, bidder, &demands[number]) {
            return false;
        }
    }
    true
}

/// Returns the grid of an opening, if the checks after the set-up pass.
fn accepted_grid(
    alloc: Global,
    setup: &Setup,
    demands: Vec<Row>,
    increment: u64,
) -> Result<Option<Grid>, NoMemory>
    ensures ok { IfOk result (λ grid. IfSome grid (λ grid.
        opening_with setup.now demands.items increment
        ≡ Ok (record { setup = setup.now; grid = grid; increment = increment }))) }
    ensures grid { IfOk result (λ grid. IfSome grid
        (IsGrid (length setup.now.bidders) (length setup.now.products))) }
    ensures increment { IfOk result (λ grid. IfSome grid
        (λ _. IsWithin least_increment most_increment increment)) }
{
    if !is_within(LEAST_INCREMENT, MOST_INCREMENT, increment)
        || !are_accepted(setup, demands.as_slice())
    {
        // each `drop` of this file keeps the proof small: at a scope's end each field is proved
        drop(demands);
        return Ok(None);
    }
    let grid = Grid::of_rows(alloc, setup, demands)?;
    Ok(Some(grid))
}

/// Returns the opening with this set-up, if the checks after the set-up pass.
fn accepted(
    alloc: Global,
    setup: Setup,
    demands: Vec<Row>,
    increment: u64,
) -> Result<Option<Opening>, NoMemory>
    ensures ok { IfOk result (λ opening. IfSome opening (λ opening.
        opening_with setup demands.items increment ≡ Ok opening)) }
    ensures grid { IfOk result (λ opening. IfSome opening (λ opening.
        IsGrid (length opening.setup.bidders) (length opening.setup.products) opening.grid)) }
    ensures increment { IfOk result (λ opening. IfSome opening (λ opening.
        IsWithin least_increment most_increment opening.increment)) }
{
    match accepted_grid(alloc, &setup, demands, increment) {
        Ok(Some(grid)) => Ok(Some(Opening {
            setup,
            grid,
            increment,
        })),
        Ok(None) => {
            drop(setup);
            Ok(None)
        }
        Err(refused) => {
            drop(setup);
            Err(refused)
        }
    }
}

/// Returns the opening that a document means, if it was read by bytes and has no fault. No result
/// says nothing about the document. May return `NoMemory`.
pub(crate) fn scanned_opening(alloc: Global, bytes: &[u8]) -> Result<Option<Opening>, NoMemory>
    ensures ok { IfOk result (λ opening. IfSome opening (λ opening.
        document_opening bytes.now ≡ Ok opening)) }
    ensures grid { IfOk result (λ opening. IfSome opening (λ opening.
        IsGrid (length opening.setup.bidders) (length opening.setup.products) opening.grid)) }
    ensures increment { IfOk result (λ opening. IfSome opening (λ opening.
        IsWithin least_increment most_increment opening.increment)) }
{
    let Some((nested, demands, increment)) = scanned_text::<FoundOpening>(alloc, bytes)? else {
        return Ok(None);
    };
    accepted(alloc, nested.setup, demands, increment)
}
