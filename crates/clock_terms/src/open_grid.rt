ghost use Rattle.std.specs.Prelude.{◌≡◌, ℕ, ◌≤◌, ◌<◌, List, length, All, IfOk, slice_index};
ghost use Rattle.std.specs.Prelude.{slice_set};
ghost use Rattle.clock_terms.specs.Limits.{most_supply};
ghost use Rattle.clock_terms.specs.declared.change.Kind.TheVariants.{Reduction};
ghost use Rattle.clock_terms.specs.Demands.{changed_demand, demand_at, row_of, total_of};
ghost use Rattle.clock_terms.specs.Demands.{with_demand};
ghost use Rattle.clock_terms.specs.inside.Demands.{AreCells, AreFirstCells, IsGridWithTotals};
ghost use Rattle.clock_terms.specs.inside.Demands.{rows_shown};

use crate::change::Kind;
use crate::grid::{Amounts, Grid};
use crate::row::Row;
use clock_device::{Items, NoMemory};
use std::alloc::Global;
use std::marker::Model;

/// The fewest changes for which an open grid has cells. To fill the cells of the largest grid, and
/// to read them at the end, can cost more than fewer changes in rows.
const MANY_CHANGES: usize = 1 << 18;

/// The demands of an auction during bid processing: those of a [`Grid`], for many changes.
///
/// In contracts, an open grid is the list of its rows. It also stores the aggregate demand for each
/// product.
#[derive(Drop)]
pub struct OpenGrid {
    rows: OpenRows,
    totals: Amounts,
}

impl Model for OpenGrid {
    ghost Value = { List (List ℕ) };

    ghost view = { λ a. a.rows };

    ghost invariant = { λ a. IsGridWithTotals a.rows a.totals };
}

/// The rows of an open grid. In contracts, it is their list.
///
/// A change in a [`Row`] can move all of its later entries. So if many changes are expected, all
/// demands of each bidder are in a list of cells, of two bytes each. The rows then have the demands
/// before the changes, and get those of the cells at the end.
#[derive(Drop)]
struct OpenRows {
    rows: Vec<Row>,
    cells: Vec<Items<u16>>,
}

impl Model for OpenRows {
    ghost Value = { List (List ℕ) };

    ghost view = { λ a. rows_shown a.rows.items a.cells.items };

    ghost invariant = { λ a. AreCells a.rows.items a.cells.items };
}

/// Returns a list of cells for each row of a grid, or none if few changes are expected.
fn cells_of(alloc: Global, grid: &Grid, changes: usize) -> Result<Vec<Items<u16>>, NoMemory>
    ensures { IfOk result (λ cells. AreFirstCells grid.now cells.items) }
{
    if changes < MANY_CHANGES {
        return Ok(Vec::new(alloc));
    }
    let mut cells = Vec::with_capacity(alloc, grid.rows.len())?;
    for row in grid.rows.as_slice() {
        cells.push(row.cells(alloc)?)?;
    }
    Ok(cells)
}

/// Increases or reduces one demand of a list of cells by `amount` blocks. Requires a product of the
/// list, and a new demand of at most 1,000 blocks.
fn change_cell(cells: &mut Items<u16>, product: usize, kind: Kind, amount: u64)
    requires product { product < length cells.old }
    requires small { changed_demand kind (slice_index cells.old product) amount ≤ most_supply }
    ensures { cells.new ≡ slice_set cells.old product
        (changed_demand kind (slice_index cells.old product) amount) }
{
    let before = cells[product] as u64;
    cells.set(product, kind.after(before, amount) as u16);
}

impl OpenRows {
    /// Increases or reduces one demand by `amount` blocks, and changes no other. Requires a bidder
    /// and a product of its row, and a new demand of at most 1,000 blocks. Allocates nothing.
    fn change(&mut self, bidder: usize, product: usize, kind: Kind, amount: u64)
        requires bidder { bidder < length self.old }
        requires product { product < length (row_of self.old bidder) }
        requires small { changed_demand kind
            (demand_at self.old bidder product) amount ≤ most_supply }
        ensures { self.new ≡ with_demand self.old bidder product
            (changed_demand kind (demand_at self.old bidder product) amount) }
    {
        if self.cells.is_empty() {
            self.rows[bidder].change(product, kind, amount);
        } else {
            change_cell(&mut self.cells[bidder], product, kind, amount);
        }
    }

    /// Returns the rows. Requires demands of at most 1,000 blocks. Allocates nothing.
    fn into_rows(self) -> Vec<Row>
        requires { All (λ row. All (λ demand. demand ≤ most_supply) row) self }
        ensures { result.items ≡ self }
    {
        let OpenRows { mut rows, cells } = self;
        for bidder in 0..cells.len() {
            rows[bidder].overwrite(cells[bidder].as_slice());
        }
        rows
    }
}

impl OpenGrid {
    /// Makes an open grid of a grid, which it moves. May return `NoMemory`.
    ///
    /// `changes` is how many changes are expected, and decides only how much memory is allocated
    /// and how long a change takes.
    pub fn of(alloc: Global, grid: Grid, changes: usize) -> Result<OpenGrid, NoMemory>
        ensures { IfOk result (λ made. made ≡ grid) }
    {
        let cells = cells_of(alloc, &grid, changes)?;
        let Grid { rows, totals } = grid;
        let rows = OpenRows { rows, cells };
        Ok(OpenGrid { rows, totals })
    }

    /// Returns the aggregate demand for a product, in blocks. Requires a product of the grid. Takes
    /// constant time.
    pub fn total(&self, product: usize) -> u64
        requires { All (λ row. product < length row) self.now }
        ensures { result ≡ total_of self.now product }
    {
        self.totals[product]
    }

    /// Increases or reduces one demand by `amount` blocks, and changes no other. Requires a bidder
    /// and a product of the grid, a reduction by at most the demand, and a new demand of at most
    /// 1,000 blocks. Allocates nothing.
    pub fn change(&mut self, bidder: usize, product: usize, kind: Kind, amount: u64)
        requires bidder { bidder < length self.old }
        requires product { All (λ row. product < length row) self.old }
        requires held { kind ≡ Reduction → amount ≤ demand_at self.old bidder product }
        requires small { changed_demand kind
            (demand_at self.old bidder product) amount ≤ most_supply }
        ensures { self.new ≡ with_demand self.old bidder product
            (changed_demand kind (demand_at self.old bidder product) amount) }
    {
        let total = self.total(product);
        self.rows.change(bidder, product, kind, amount);
        self.totals.set(product, kind.after(total, amount));
    }

    /// Returns the grid with the demands of this one, which it moves. Allocates nothing.
    pub fn into_grid(self) -> Grid
        ensures { result ≡ self }
    {
        let OpenGrid { rows, totals } = self;
        let rows = rows.into_rows();
        Grid { rows, totals }
    }
}
