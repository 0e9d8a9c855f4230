ghost use Rattle.std.specs.Prelude.{◌≡◌, ◌≤◌, ◌<◌, ◌+◌, ℕ, List, length, replicate, IfOk};
ghost use Rattle.std.specs.Prelude.{slice_index, slice_set, vec_capacity, drop, unwrap_or};
ghost use Rattle.std.specs.Prelude.{option_map, All, IfSome};
ghost use Rattle.std.specs.List.{AllWithin};
ghost use Rattle.clock_terms.specs.{Demands.{changed_demand}, HeldDemands.{demands_of, next_of}};
ghost use Rattle.clock_terms.specs.inside.Rows.{IsPackedRow, ArePositiveDemands, IsPackedWalk};
ghost use Rattle.clock_terms.specs.Limits.{IsRow, most_products, most_supply};
ghost use Rattle.clock_terms.specs.Walks.{Walk};

use crate::change::Kind;
use crate::held_list::{
    GROUP_SIZE, PositiveDemand, demand_at, find_starts, hold_all, is_at, place_in_group, store,
    write_held,
};
use crate::limits::MOST_PRODUCTS;
use crate::setup::Setup;
use clock_device::{Items, NoMemory};
use std::alloc::Global;
use std::marker::Model;

/// A bidder's demands, one for each product, in blocks, each at most 1,000. In contracts, a row is
/// the list of its demands.
///
/// Most bidders have demand for few products. So a row stores only the positive demands, by rising
/// product, and for each group of 16 products the index at which their entries start. It has
/// capacity for all products, so that a change allocates nothing.
#[derive(Drop)]
pub struct Row {
    count: usize,
    held: Vec<PositiveDemand>,
    starts: Vec<u16>,
}

impl Model for Row {
    ghost Value = { List ℕ };

    ghost view = { λ r. demands_of r.count r.held.items };

    ghost invariant = { λ r. IsPackedRow r.count r.held.items r.starts.items
        (vec_capacity r.held) };
}

impl Row {
    /// Returns a row of `products` demands of 0. Requires at most the products of a set-up. May
    /// return `NoMemory`.
    pub fn zeros(alloc: Global, products: usize) -> Result<Row, NoMemory>
        requires { products ≤ most_products }
        ensures { IfOk result (λ row. row ≡ replicate products 0) }
    {
        Ok(Row {
            count: products,
            held: Vec::with_capacity(alloc, products)?,
            starts: vec![in alloc; 0; products / GROUP_SIZE + 1]?,
        })
    }

    /// Returns a row with these demands. Requires one for each product of the set-up, none above
    /// its cap. May return `NoMemory`.
    pub fn of(alloc: Global, setup: &Setup, demands: &[u16]) -> Result<Row, NoMemory>
        requires { IsRow setup.now.products demands.now }
        ensures { IfOk result (λ row. row ≡ demands.now) }
    {
        let count = setup.products.len();
        let mut room = vec![in alloc; PositiveDemand::default(); count]?;
        let packed = write_held(&mut room, demands);
        // A second allocation with the capacity of all products: what is never written is never
        // touched.
        let mut held = Vec::with_capacity(alloc, count)?;
        held.extend_from_slice(&room[..packed])?;
        let mut starts = vec![in alloc; 0; count / GROUP_SIZE + 1]?;
        find_starts(&mut starts, held.as_slice());
        Ok(Row {
            count,
            held,
            starts,
        })
    }

    /// Returns a row with the demands of a packed one. May return `NoMemory`.
    pub fn of_packed(alloc: Global, packed: &PackedRow) -> Result<Row, NoMemory>
        ensures { IfOk result (λ row. row ≡ packed.now) }
    {
        let count = packed.count;
        let mut held = Vec::with_capacity(alloc, count)?;
        held.extend_from_slice(packed.held.as_slice())?;
        let mut starts = vec![in alloc; 0; count / GROUP_SIZE + 1]?;
        find_starts(&mut starts, held.as_slice());
        Ok(Row {
            count,
            held,
            starts,
        })
    }

    /// Returns an equal row, and reuses the memory of `old` as far as it suffices. May return
    /// `NoMemory`.
    pub(crate) fn copy_over(&self, alloc: Global, old: Option<Row>) -> Result<Row, NoMemory>
        ensures { IfOk result (λ copy. copy ≡ self.now) }
    {
        let (mut held, mut starts) = match old {
            Some(old) => (old.held, old.starts),
            None => (Vec::new(alloc), Vec::new(alloc)),
        };
        held.clear();
        held.reserve(self.count)?;
        held.extend_from_slice(self.held.as_slice())?;
        starts.clear();
        starts.extend_from_slice(self.starts.as_slice())?;
        Ok(Row {
            count: self.count,
            held,
            starts,
        })
    }

    /// Returns the number of demands, one for each product.
    pub fn len(&self) -> usize
        ensures is { result ≡ length self.now }
        ensures few { result ≤ most_products }
    {
        self.count
    }

    /// Returns the demand for a product, in blocks. Requires a product of the row.
    pub fn get(&self, product: usize) -> u64
        requires { product < length self.now }
        ensures is { result ≡ slice_index self.now product }
        ensures small { result ≤ most_supply }
    {
        self.find(&mut 0, product)
    }

    /// Like [`Row::get`], but looks first at index `near`, where the previous search ended, and at
    /// the next index. Fast for products in rising order. `near` may be any number; start with 0.
    #[inline(always)]
    pub fn get_near(&self, near: &mut usize, product: usize) -> u64
        requires { product < length self.now }
        ensures is { result ≡ slice_index self.now product }
        ensures small { result ≤ most_supply }
    {
        let held = self.held.as_slice();
        if is_at(held, *near, product) {
            return held[*near].demand as u64;
        }
        let next = near.wrapping_add(1);
        if is_at(held, next, product) {
            *near = next;
            return held[next].demand as u64;
        }
        self.find(near, product)
    }

    /// Like [`Row::get`], but searches only from the start of the product's group, and stores in
    /// `near` where it ended.
    #[inline(never)]
    fn find(&self, near: &mut usize, product: usize) -> u64
        requires { product < length self.now }
        ensures is { result ≡ slice_index self.now product }
        ensures small { result ≤ most_supply }
    {
        let held = self.held.as_slice();
        let place = place_in_group(held, self.starts[product / GROUP_SIZE] as usize, product);
        let (Ok(at) | Err(at)) = place;
        *near = at;
        demand_at(held, place, product)
    }

    /// Sets the demand for a product, in blocks, and changes no other. Requires a product of the
    /// row, and a demand of at most 1,000 blocks. Allocates nothing.
    pub(crate) fn set(&mut self, product: usize, demand: u64)
        requires product { product < length self.old }
        requires small { demand ≤ most_supply }
        ensures { self.new ≡ slice_set self.old product demand }
    {
        let start = self.starts[product / GROUP_SIZE] as usize;
        let place = place_in_group(self.held.as_slice(), start, product);
        let entry = PositiveDemand {
            product: product as u16,
            demand: demand as u16,
        };
        store(&mut self.held, &mut self.starts, place, entry);
    }

    /// Increases or reduces the demand for a product by `amount` blocks, and changes no other.
    /// Requires a product of the row, and a new demand of at most 1,000 blocks. Allocates nothing.
    pub(crate) fn change(&mut self, product: usize, kind: Kind, amount: u64)
        requires product { product < length self.old }
        requires small { changed_demand kind (slice_index self.old product) amount ≤ most_supply }
        ensures { self.new ≡ slice_set self.old product
            (changed_demand kind (slice_index self.old product) amount) }
    {
        let before = self.get(product);
        self.set(product, kind.after(before, amount));
    }

    /// Returns all demands, in two bytes each. May return `NoMemory`.
    pub(crate) fn cells(&self, alloc: Global) -> Result<Items<u16>, NoMemory>
        ensures { IfOk result (λ cells. cells ≡ self.now) }
    {
        let mut cells = Items::from_vec(vec![in alloc; 0u16; self.count]?);
        let mut held = self.held();
        'held: while let Some(one) = held.next() {
            cells.set(one.product, one.demand as u16);
        }
        Ok(cells)
    }

    /// Replaces all demands. Requires one for each product of the row, none above 1,000 blocks.
    /// Allocates nothing.
    pub(crate) fn overwrite(&mut self, demands: &[u16])
        requires width { length demands.now ≡ length self.old }
        requires small { All (λ demand. demand ≤ most_supply) demands.now }
        ensures { self.new ≡ demands.now }
    {
        self.held
            .resize(self.count, PositiveDemand::default())
            .unwrap();
        let packed = write_held(&mut self.held, demands);
        self.held.truncate(packed);
        find_starts(&mut self.starts, self.held.as_slice());
    }

    /// Returns a packed copy of the demands, for a closed round. May return `NoMemory`.
    pub fn packed(&self, alloc: Global) -> Result<PackedRow, NoMemory>
        ensures { IfOk result (λ packed. packed ≡ self.now) }
    {
        Ok(PackedRow {
            count: self.count,
            held: Vec::from_slice(alloc, self.held.as_slice())?,
        })
    }

    /// Returns an iterator over the products with positive demand.
    #[inline(always)]
    pub fn held(&self) -> PositiveDemands<'_>
        ensures row { result.demands ≡ self.now }
        ensures passed { AllWithin (λ demand. demand ≡ 0) self.now 0 result.from }
    {
        PositiveDemands::of(self.count, self.held.as_slice())
    }
}

/// A bidder's demands after a closed round, packed. They never change again, so memory is allocated
/// only for the positive ones. In contracts, a packed row is the list of its demands, one for each
/// product.
#[derive(Drop)]
pub struct PackedRow {
    count: usize,
    held: Vec<PositiveDemand>,
}

impl Model for PackedRow {
    ghost Value = { List ℕ };

    ghost view = { λ r. demands_of r.count r.held.items };

    ghost invariant = { λ r. ArePositiveDemands 0 r.held.items r.count
        × (r.count ≤ most_products) };
}

impl PackedRow {
    /// Packs demands, one for each product. Returns `None` if there are more than the products of a
    /// set-up, or if one is above 1,000 blocks. May return `NoMemory`.
    pub fn of_list(alloc: Global, demands: &[u64]) -> Result<Option<PackedRow>, NoMemory>
        ensures { IfOk result (λ row. IfSome row (λ row. row ≡ demands.now)) }
    {
        let count = demands.len();
        if count as u64 > MOST_PRODUCTS {
            return Ok(None);
        }
        let mut room = Vec::with_capacity(alloc, count)?;
        if !hold_all(&mut room, demands)? {
            return Ok(None);
        }
        // A second allocation of exactly the size that is needed.
        let held = Vec::from_slice(alloc, room.as_slice())?;
        Ok(Some(PackedRow { count, held }))
    }

    /// Returns the number of demands, one for each product.
    pub fn len(&self) -> usize
        ensures is { result ≡ length self.now }
        ensures few { result ≤ most_products }
    {
        self.count
    }

    /// Returns the demand for a product, in blocks. Requires a product of the row. Searches from
    /// the start of the row; to read many demands, use [`PackedRow::held`].
    pub fn get(&self, product: usize) -> u64
        requires { product < length self.now }
        ensures { result ≡ slice_index self.now product }
    {
        let held = self.held.as_slice();
        demand_at(held, place_in_group(held, 0, product), product)
    }

    /// Returns an iterator over the products with positive demand.
    #[inline(always)]
    pub fn held(&self) -> PositiveDemands<'_>
        ensures row { result.demands ≡ self.now }
        ensures passed { AllWithin (λ demand. demand ≡ 0) self.now 0 result.from }
    {
        PositiveDemands::of(self.count, self.held.as_slice())
    }
}

/// A product with positive demand.
#[derive(Clone, Copy)]
pub struct ProductDemand {
    /// The product's number in the set-up, from 0.
    pub product: usize,
    /// The demand, from 1 to 1,000 blocks.
    pub demand: u64,
}

/// An iterator over the positive demands of a row, by rising product. In contracts, it is the row's
/// demands and a product: the demands from this product on are still to be visited.
#[derive(Drop)]
pub struct PositiveDemands<'a> {
    count: usize,
    held: &'a [PositiveDemand],
    given: usize,
}

impl<'a> Model for PositiveDemands<'a> {
    ghost Value = { Walk };

    ghost view = { λ h. record {
      demands = demands_of h.count h.held.now;
      from = next_of h.count (drop h.given h.held.now);
    } };

    ghost invariant = { λ h. IsPackedWalk h.count h.held.now h.given };
}

impl<'a> PositiveDemands<'a> {
    /// Starts an iterator over the entries `held` of a row with `count` products. Requires entries
    /// by rising product.
    #[inline(always)]
    fn of(count: usize, held: &'a [PositiveDemand]) -> PositiveDemands<'a>
        requires { IsPackedWalk count held.now 0 }
        ensures { result
            ≡ record { demands = demands_of count held.now; from = next_of count held.now } }
    {
        PositiveDemands {
            count,
            held,
            given: 0,
        }
    }

    /// Returns the number of products of the row.
    pub fn products(&self) -> usize
        ensures { result ≡ length self.now.demands }
    {
        self.count
    }

    /// Returns the next product with positive demand, by rising number, and that demand. `None` if
    /// there is no further one.
    #[inline(always)]
    pub fn next(&mut self) -> Option<ProductDemand>
        ensures row { self.new.demands ≡ self.old.demands }
        ensures least { IfSome result (λ held. self.old.from ≤ held.product) }
        ensures within { IfSome result (λ held. held.product < length self.old.demands) }
        ensures demand { IfSome result
            (λ held. held.demand ≡ slice_index self.old.demands held.product) }
        ensures held { IfSome result (λ held. 0 < held.demand) }
        ensures small { IfSome result (λ held. held.demand ≤ most_supply) }
        ensures passed { AllWithin (λ demand. demand ≡ 0) self.old.demands self.old.from
            (unwrap_or (option_map (λ held. held.product) result) (length self.old.demands)) }
        ensures given { IfSome result (λ held. held.product < self.new.from) }
        ensures ahead { IfSome result (λ held.
            AllWithin (λ demand. demand ≡ 0) self.old.demands (held.product + 1) self.new.from) }
    {
        let one = self.held.get(self.given)?;
        self.given += 1;
        Some(ProductDemand {
            product: one.product as usize,
            demand: one.demand as u64,
        })
    }
}
