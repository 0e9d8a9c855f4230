ghost use Rattle.std.specs.Prelude.{◌≡◌, ℕ, List, ◌+◌, ◌*◌, ◌≤◌, ◌<◌, length, All, IfOk};
ghost use Rattle.std.specs.Prelude.{slice_index};
ghost use Rattle.clock_terms.specs.Limits.{IsRow, most_bidders, most_supply};
ghost use Rattle.clock_terms.specs.Demands.{total_of, demand_at, row_of};
ghost use Rattle.clock_terms.specs.Demands.{with_demand, no_demands};
ghost use Rattle.clock_terms.specs.inside.Demands.{IsGridWithTotals};

use crate::row::Row;
use crate::setup::Setup;
use clock_device::{Items, NoMemory};
use std::alloc::Global;
use std::marker::Model;

/// A list of blocks or bidding units: one number for each product, bidder, or request.
pub type Amounts = Items<u64>;

/// The demands of an auction: a row for each bidder, and in it the demand for each product, in
/// blocks, at most 1,000.
///
/// In contracts, a grid is the list of its rows. It also stores the aggregate demand for each
/// product.
#[derive(Drop)]
pub struct Grid {
    pub(crate) rows: Vec<Row>,
    pub(crate) totals: Amounts,
}

impl Model for Grid {
    ghost Value = { List (List ℕ) };

    ghost view = { λ a. a.rows.items };

    ghost invariant = { λ a. IsGridWithTotals a.rows.items a.totals };
}

/// Adds each demand of `row` to the total of its product. Requires a total for each product, and
/// totals small enough that none overflows.
fn add_row(totals: &mut Amounts, row: &Row)
    requires each { length row.now ≡ length totals.old }
    requires small { All (λ total. total ≤ most_bidders * most_supply) totals.old }
    ensures each { length totals.new ≡ length totals.old }
    ensures added { (product : ℕ) → product < length totals.old → slice_index totals.new product
        ≡ slice_index totals.old product + slice_index row.now product }
{
    let mut held = row.held();
    'held: while let Some(one) = held.next() {
        totals.set(one.product, totals[one.product] + one.demand);
    }
}

impl Grid {
    /// Makes a grid of `rows`, which it moves. Requires a row for each bidder of the set-up, and in
    /// each a demand for each product, none above its cap. May return `NoMemory`.
    pub fn of_rows(alloc: Global, setup: &Setup, rows: Vec<Row>) -> Result<Grid, NoMemory>
        requires bidders { length rows.items ≡ length setup.now.bidders }
        requires rows { All (IsRow setup.now.products) rows.items }
        ensures { IfOk result (λ grid. grid ≡ rows.items) }
    {
        let mut totals = Amounts::zeros(alloc, setup.products.len())?;
        for row in rows.as_slice() {
            add_row(&mut totals, row);
        }
        Ok(Grid { rows, totals })
    }

    /// Returns the grid of a set-up in which every demand is 0. May return `NoMemory`.
    pub fn zero(alloc: Global, setup: &Setup) -> Result<Grid, NoMemory>
        ensures { IfOk result
            (λ grid. grid ≡ no_demands (length setup.now.bidders) (length setup.now.products)) }
    {
        let products = setup.products.len();
        let mut rows = Vec::new(alloc);
        for _bidder in 0..setup.bidders.len() {
            rows.push(Row::zeros(alloc, products)?)?;
        }
        Grid::of_rows(alloc, setup, rows)
    }

    /// Returns an equal grid. May return `NoMemory`.
    pub fn copy(&self, alloc: Global) -> Result<Grid, NoMemory>
        ensures { IfOk result (λ copy. copy ≡ self.now) }
    {
        self.copy_over(alloc, None)
    }

    /// Like [`Grid::copy`], but reuses the memory of `old` as far as it suffices. May return
    /// `NoMemory`.
    pub fn copy_over(&self, alloc: Global, old: Option<Grid>) -> Result<Grid, NoMemory>
        ensures { IfOk result (λ copy. copy ≡ self.now) }
    {
        let mut old = old.map_or(Vec::new(alloc), |old| old.rows).into_iter();
        let mut rows = Vec::with_capacity(alloc, self.rows.len())?;
        for row in self.rows.as_slice() {
            rows.push(row.copy_over(alloc, old.next())?)?;
        }
        let totals = self.totals.copy(alloc)?;
        Ok(Grid { rows, totals })
    }

    /// Returns a bidder's demand for a product, in blocks. Requires a bidder and a product of the
    /// grid.
    pub fn get(&self, bidder: usize, product: usize) -> u64
        requires bidder { bidder < length self.now }
        requires product { All (λ row. product < length row) self.now }
        ensures { result ≡ demand_at self.now bidder product }
    {
        self.rows[bidder].get(product)
    }

    /// Returns a bidder's demands, one for each product. Requires a bidder of the grid.
    pub fn row(&self, bidder: usize) -> &Row
        requires { bidder < length self.now }
        ensures { result.now ≡ row_of self.now bidder }
    {
        &self.rows[bidder]
    }

    /// Returns the aggregate demand for a product, in blocks. Requires a product of the grid. Takes
    /// constant time: the grid stores all totals.
    pub fn total(&self, product: usize) -> u64
        requires { All (λ row. product < length row) self.now }
        ensures { result ≡ total_of self.now product }
    {
        self.totals[product]
    }

    /// Sets one demand, and changes no other. Requires a bidder and a product of the grid, and a
    /// demand of at most 1,000 blocks. Allocates nothing.
    pub fn set(&mut self, bidder: usize, product: usize, demand: u64)
        requires bidder { bidder < length self.old }
        requires product { All (λ row. product < length row) self.old }
        requires small { demand ≤ most_supply }
        ensures { self.new ≡ with_demand self.old bidder product demand }
    {
        let total = self.total(product);
        let row = &mut self.rows[bidder];
        let before = row.get(product);
        row.set(product, demand);
        self.totals.set(product, total - before + demand);
    }
}
