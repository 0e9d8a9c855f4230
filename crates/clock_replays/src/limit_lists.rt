//! The limits of a sincere script, packed, since a bidder has none for most products.
ghost use Rattle.std.specs.Prelude.{◌≡◌, ℕ, ◌<◌, ◌≤◌, List, [], ◌++◌, ◌∷◌, length, replicate};
ghost use Rattle.std.specs.Prelude.{slice_index, IfOk, OnOk};
ghost use Rattle.std.specs.List.{AllWithin};
ghost use Rattle.clock_terms.specs.Demands.{row_of};
ghost use Rattle.clock_replays.specs.{EndedRows.{rows_from}, PackedLimits.{limits_of}};
ghost use Rattle.clock_replays.specs.inside.PackedLimits.{ArePacked, IsPlaceOf, packed_limits};
ghost use Rattle.clock_json.specs.Reading.{rows, ReadsValue};

use clock_device::NoMemory;
use clock_json::{Scan, ScanStop};
use clock_terms::Amounts;
use std::alloc::Global;
use std::marker::Model;

/// The limits for `count` products. Only products with limits have a row: `products` has their
/// numbers, rising; `prices` has all rows, one after the other; `ends` has the index at which each
/// ends.
#[derive(Drop)]
struct LimitRows {
    count: usize,
    products: Vec<u32>,
    ends: Vec<u32>,
    prices: Vec<u64>,
}

/// Returns a product's number or an index in four bytes. Returns `NoMemory` from 2^32 on.
fn short_of(number: usize) -> Result<u32, NoMemory>
    ensures { IfOk result (λ short. short ≡ number) }
{
    u32::try_from(number).map_err(|_| NoMemory)
}

impl LimitRows {
    /// Creates limits for no products. Allocates nothing.
    fn new(alloc: Global) -> LimitRows
        ensures none { packed_limits result ≡ [] }
        ensures packed { ArePacked result }
    {
        LimitRows {
            count: 0,
            products: Vec::new(alloc),
            ends: Vec::new(alloc),
            prices: Vec::new(alloc),
        }
    }

    /// Copies the limits into memory of exactly their size. May return `NoMemory`.
    fn lists(&self, alloc: Global) -> Result<LimitLists, NoMemory>
        requires { ArePacked self.now }
        ensures { IfOk result (λ lists. lists ≡ packed_limits self.now) }
    {
        let rows = LimitRows {
            count: self.count,
            products: Vec::from_slice(alloc, self.products.as_slice())?,
            ends: Vec::from_slice(alloc, self.ends.as_slice())?,
            prices: Vec::from_slice(alloc, self.prices.as_slice())?,
        };
        Ok(LimitLists { rows })
    }

    /// Adds `count` products without limits. Returns `NoMemory` if there are too many products to
    /// count.
    fn push_empty(&mut self, count: usize) -> Result<(), NoMemory>
        requires { ArePacked self.old }
        ensures limits { OnOk result
            (packed_limits self.new ≡ packed_limits self.old ++ replicate count []) }
        ensures packed { OnOk result (ArePacked self.new) }
    {
        self.count = self.count.checked_add(count).ok_or(NoMemory)?;
        Ok(())
    }

    /// Adds the limits for the next product. May return `NoMemory`, also for more products or
    /// prices than four bytes can count.
    fn push(&mut self, limits: &[u64]) -> Result<(), NoMemory>
        requires { ArePacked self.old }
        ensures limits { OnOk result
            (packed_limits self.new ≡ packed_limits self.old ++ limits.now ∷ []) }
        ensures packed { OnOk result (ArePacked self.new) }
    {
        if limits.is_empty() {
            return self.push_empty(1);
        }
        let product = short_of(self.count)?;
        self.prices.extend_from_slice(limits)?;
        let end = short_of(self.prices.as_slice().len())?;
        self.ends.push(end)?;
        self.products.push(product)?;
        self.count += 1;
        Ok(())
    }

    /// Returns the index of the first row that is not for a lower product, or the number of rows.
    /// Searches from index `from` if the row before it is for a lower product, otherwise from the
    /// first.
    #[inline(always)]
    fn place_of(&self, product: usize, from: usize) -> usize
        requires { ArePacked self.now }
        ensures place { IsPlaceOf self.now.products.items product result }
        ensures first { result < length self.now.products.items
            → product ≤ slice_index self.now.products.items result }
    {
        let products = self.products.as_slice();
        let mut place = from;
        if place > products.len() || place > 0 && products[place - 1] as usize >= product {
            place = 0;
        }
        'lesser: while place < products.len() && (products[place] as usize) < product {
            place += 1;
        }
        place
    }
}

/// For each product a list of prices, in whole dollars: block k, from 0, is wanted up to price k.
///
/// In contracts, it is the list of these lists, however it is packed. A bidder has limits for few
/// products, and only these have a row.
#[derive(Drop)]
pub struct LimitLists {
    rows: LimitRows,
}

impl Model for LimitLists {
    ghost Value = { List (List ℕ) };

    ghost view = { λ a. limits_of a.rows.count a.rows.products.items
        (rows_from 0 a.rows.ends.items a.rows.prices.items) };

    ghost invariant = { λ a. ArePacked a.rows };
}

impl LimitLists {
    /// Packs these lists, one for each product. May return `NoMemory`.
    pub fn from_lists(alloc: Global, lists: &[Amounts]) -> Result<LimitLists, NoMemory>
        ensures { IfOk result (λ limits. limits ≡ lists.now) }
    {
        let mut rows = LimitRows::new(alloc);
        for list in lists {
            rows.push(list.as_slice())?;
        }
        rows.lists(alloc)
    }

    /// Returns the number of products.
    pub fn count(&self) -> usize
        ensures { result ≡ length self.now }
    {
        self.rows.count
    }

    /// Returns the first product from `product` on that has limits, or the number of products if
    /// there is none. `from` is as in [`LimitLists::list`].
    #[inline(always)]
    pub fn next_limited(&self, product: usize, from: &mut usize) -> usize
        requires { product ≤ length self.now }
        ensures least { product ≤ result }
        ensures within { result ≤ length self.now }
        ensures passed { AllWithin (λ limits. limits ≡ []) self.now product result }
    {
        let rows = &self.rows;
        let place = rows.place_of(product, *from);
        *from = place;
        let products = rows.products.as_slice();
        if place < products.len() {
            products[place] as usize
        } else {
            rows.count
        }
    }

    /// Returns the limits for `product`. Requires a product of these lists. Start with 0 in `from`,
    /// and pass it again for the next product: this is fast for rising products. The number does
    /// not change the result.
    #[inline(always)]
    pub fn list(&self, product: usize, from: &mut usize) -> &[u64]
        requires { product < length self.now }
        ensures { result.now ≡ row_of self.now product }
    {
        let rows = &self.rows;
        let place = rows.place_of(product, *from);
        *from = place;
        let products = rows.products.as_slice();
        if place == products.len() || products[place] as usize != product {
            return &[];
        }
        // a row begins where the one before it ends
        let ends = rows.ends.as_slice();
        let start = if place == 0 {
            0
        } else {
            ends[place - 1] as usize
        };
        &rows.prices.as_slice()[start..ends[place] as usize]
    }
}

/// Reads the next lists of limits. Most are empty; all empty lists that follow another are read at
/// once.
pub(crate) fn limit_lists(alloc: Global, scan: &mut Scan<'_>) -> Result<LimitLists, ScanStop>
    ensures value { IfOk result (λ limits. ReadsValue 2 scan.old (rows limits) scan.new) }
    ensures shorter { OnOk result (length scan.new < length scan.old) }
{
    scan.opens(b'[')?;
    let mut limits = LimitRows::new(alloc);
    let mut row = Vec::new(alloc);
    'items: while !scan.closes(b']') {
        row.clear();
        scan.numbers_after(&mut row)?;
        limits.push(row.as_slice())?;
        let empty = scan.empty_arrays();
        limits.push_empty(empty)?;
    }
    Ok(limits.lists(alloc)?)
}
