ghost use Rattle.std.specs.Prelude.{◌≡◌, ◌+◌, ◌*◌, ◌<◌, ◌≤◌, ℕ, Some, None, length, map, take};
ghost use Rattle.std.specs.Prelude.{slice_index_or, All, Err, OnOk, OnSome, IfOk, IfErr};
ghost use Rattle.std.specs.Option.{option_copied};
ghost use Rattle.clock_terms.specs.Limits.{IsRow, most_supply, most_units, public_setup};
ghost use Rattle.clock_terms.specs.Faults.{first_fault, IsFirstFault};
ghost use Rattle.clock_terms.specs.Eligibility as eligibilities;
ghost use Rattle.clock_bids.specs.{Holding.{holding_of}, inside.Parts.{checks_of_bids}};
ghost use Rattle.clock_bids.specs.Sheet.{IsGoodSheet, asked_demands, most_bids, sheet_fault};
ghost use Rattle.clock_bids.specs.inside.Chains.{bid_at, checks_by_last, last_bids, quantity_of};
ghost use Rattle.clock_bids.specs.inside.LastBids.{AreLastPlaces, IsTableBefore};

use crate::maintained::{Judged, judge_maintained, next_from};
use crate::sheet::{Bid, BidFault, Own, Sheet};
use crate::sheet_changes::first_held;
use clock_device::{Items, NoMemory};
use clock_terms::{PricePair, Prices, Product, Row, Setup};
use std::alloc::Global;

/// The most bids of a sheet.
const MOST_BIDS: usize = 8192;

/// Checks the bids of a sheet for a round: returns the sheet, or its first fault.
///
/// Requires the prices of the round, one pair for each product, and in `own` a demand for each
/// product, at most its cap.
///
/// Errors, in this order: [`BidFault::TooMany`], which needs no memory; bid by bid, the first of
/// [`BidFault`] from `UnknownProduct` to `KeepPrice`; [`BidFault::OverActivity`]. May return
/// `NoMemory`, which then replaces any other result but `TooMany`.
///
/// Takes one pass over the bids. Only a sheet that returns to an earlier product needs a table with
/// an entry for each product. The rules are the FCC's for simple bids in Auction 105; several bids
/// for one product, a chain, are our own.
pub fn check_sheet(
    alloc: Global,
    setup: &Setup,
    prices: &Prices,
    own: Own,
    bids: &[Bid],
) -> Result<Sheet, BidFault>
    requires prices { length prices.now ≡ length setup.now.products }
    requires demands { IsRow setup.now.products own.demands.now }
    ensures bids { IfOk result (λ sheet. sheet ≡ bids.now) }
    ensures good { OnOk result (IsGoodSheet (public_setup setup.now) own.entry.round prices.now
        (holding_of own.entry) bids.now) }
    ensures fault { IfErr result (IsFirstFault BidFault.NoMemory (sheet_fault
        (public_setup setup.now) own.entry.round prices.now (holding_of own.entry) bids.now)) }
    ensures many { most_bids < length bids.now → result ≡ Err BidFault.TooMany }
{
    check_bids(alloc, setup, prices, own, bids)?;
    Ok(Sheet {
        bids: Items::from_slice(alloc, bids)?,
    })
}

/// Like [`check_sheet`], but moves `bids` instead of copying them.
///
/// From round 2, requested activity may be above eligibility, up to the activity limit. Bid
/// processing nevertheless leaves processed activity within eligibility.
pub fn take_sheet(
    alloc: Global,
    setup: &Setup,
    prices: &Prices,
    own: Own,
    bids: Items<Bid>,
) -> Result<Sheet, BidFault>
    requires prices { length prices.now ≡ length setup.now.products }
    requires demands { IsRow setup.now.products own.demands.now }
    ensures bids { IfOk result (λ sheet. sheet ≡ bids) }
    ensures good { OnOk result (IsGoodSheet (public_setup setup.now) own.entry.round prices.now
        (holding_of own.entry) bids) }
    ensures fault { IfErr result (IsFirstFault BidFault.NoMemory (sheet_fault
        (public_setup setup.now) own.entry.round prices.now (holding_of own.entry) bids)) }
    ensures many { most_bids < length bids → result ≡ Err BidFault.TooMany }
{
    match check_bids(alloc, setup, prices, own, bids.as_slice()) {
        Ok(()) => Ok(Sheet { bids }),
        Err(fault) => Err(fault),
    }
}

/// Checks the bids of a sheet like [`check_sheet`], but returns no copy of them.
fn check_bids(
    alloc: Global,
    setup: &Setup,
    prices: &Prices,
    own: Own,
    bids: &[Bid],
) -> Result<(), BidFault>
    requires prices { length prices.now ≡ length setup.now.products }
    requires demands { IsRow setup.now.products own.demands.now }
    ensures good { OnOk result (IsGoodSheet (public_setup setup.now) own.entry.round prices.now
        (holding_of own.entry) bids.now) }
    ensures fault { IfErr result (IsFirstFault BidFault.NoMemory (sheet_fault
        (public_setup setup.now) own.entry.round prices.now (holding_of own.entry) bids.now)) }
    ensures many { most_bids < length bids.now → result ≡ Err BidFault.TooMany }
{
    if bids.len() > MOST_BIDS {
        return Err(BidFault::TooMany);
    }
    let taken = judge(alloc, setup, prices.as_slice(), own.demands, bids)?;
    let limit = match own.round {
        1 => own.eligibility as u128,
        _ => own.eligibility as u128 * setup.limit as u128 / 100,
    };
    if taken as u128 > limit {
        return Err(BidFault::OverActivity);
    }
    Ok(())
}

/// Checks each bid against the last earlier bid for its product, and returns the requested activity
/// in bidding units. May return `NoMemory`, which then replaces any other result.
///
/// Most sheets list products in rising order: a bid for a higher product than all before it has no
/// earlier bid. Most of these maintain demand, and [`judge_maintained`] checks them. Most other
/// bids directly follow a bid for their product. The table of last bids is made for any other bid,
/// and nothing is allocated before. The last earlier bid is enough: since the earlier ones passed,
/// their prices rise and their quantities move in one direction.
fn judge(
    alloc: Global,
    setup: &Setup,
    prices: &[PricePair],
    demands: &Row,
    bids: &[Bid],
) -> Result<u64, BidFault>
    requires prices { length prices.now ≡ length setup.now.products }
    requires demands { IsRow setup.now.products demands.now }
    requires few { length bids.now ≤ most_bids }
    ensures ok { OnOk result
        (first_fault (checks_of_bids setup.now.products prices.now demands.now bids.now) ≡ None) }
    ensures taken { IfOk result (λ taken. taken ≡ eligibilities.activity setup.now.products
        (asked_demands (length setup.now.products) bids.now)) }
    ensures fault { IfErr result (IsFirstFault BidFault.NoMemory
        (first_fault (checks_of_bids setup.now.products prices.now demands.now bids.now))) }
{
    let products = setup.products.as_slice();
    let mut near = 0;
    let mut held = demands.held();
    let mut next = first_held(&mut held, products.len());
    let mut judged = Judged {
        count: 0,
        least: 0,
        taken: 0,
    };
    let mut table = LastPlaces {
        placed: 0,
        places: Vec::new(alloc),
    };
    'bids: while judged.count < bids.len() {
        let i = judged.count;
        let bid = &bids[i];
        let mut least = judged.least;
        let last = if bid.product >= least {
            // The highest number wraps to 0. No product has it, so `bid_fault` refuses the bid.
            least = bid.product.wrapping_add(1);
            None
        } else {
            earlier_bid(alloc, &mut table, bids, products.len(), i, bid.product)?
        };
        if let Some(fault) = bid_fault(products, prices, demands, &mut near, last, i as u64, bid) {
            return Err(fault);
        }
        let units = products[bid.product as usize].units;
        let after = Judged {
            count: i + 1,
            least,
            taken: taken_with(judged.taken, units, last, bid.quantity),
        };
        next = next_from(&mut held, next, least, products.len());
        judged = judge_maintained(setup, prices, &mut held, &mut next, bids, after);
    }
    Ok(judged.taken)
}

/// Returns the activity when `quantity` blocks, of `units` bidding units each, replace those of the
/// last bid for a product, if there is one.
pub(crate) fn taken_with(taken: u64, units: u64, last: Option<&Bid>, quantity: u64) -> u64
    requires units { units ≤ most_units }
    requires quantity { quantity ≤ most_supply }
    requires taken { taken ≤ most_units * most_supply * most_bids }
    requires held { units * quantity_of (option_copied last) ≤ taken }
    ensures exact { result + units * quantity_of (option_copied last.entry)
        ≡ taken + units * quantity }
    ensures most { result ≤ taken + most_units * most_supply }
{
    let more = taken + units * quantity;
    match last {
        Some(last) => more - units * last.quantity,
        None => more,
    }
}

/// Returns the bid at index `place - 1` if it is for `product`. It is then the last bid for it
/// before `place`.
fn bid_before(bids: &[Bid], place: usize, product: u64) -> Option<&Bid>
    ensures { (products : ℕ) → All (λ bid. bid.product < products) (take place bids.now)
        → OnSome result (option_copied result
        ≡ slice_index_or (last_bids products (take place bids.now)) product None) }
{
    let before = bids.get(place.checked_sub(1)?)?;
    (before.product == product).then_some(before)
}

/// For each product the index of its last bid among the first `placed` bids of a sheet, counted
/// from 1, or 0 if there is none. Not allocated if `placed` is 0.
#[derive(Drop)]
struct LastPlaces {
    placed: usize,
    places: Vec<u16>,
}

/// Returns the last bid for `product` before index `place`, if there is one. May return `NoMemory`.
///
/// Marked as cold so that LLVM leaves in registers what bids for rising products need.
#[cold]
fn earlier_bid<'a>(
    alloc: Global,
    table: &mut LastPlaces,
    bids: &'a [Bid],
    products: usize,
    place: usize,
    product: u64,
) -> Result<Option<&'a Bid>, NoMemory>
    requires few { length bids.now ≤ most_bids }
    requires place { place ≤ length bids.now }
    requires known { All (λ bid. bid.product < products) (take place bids.now) }
    requires table { IsTableBefore products bids.now place
        table.old.placed table.old.places.items }
    ensures last { IfOk result (λ last. option_copied last
        ≡ slice_index_or (last_bids products (take place bids.now)) product None) }
    ensures table { OnOk result (IsTableBefore products bids.now place
        table.new.placed table.new.places.items) }
{
    if let Some(before) = bid_before(bids, place, product) {
        return Ok(Some(before));
    }
    table.add(alloc, bids, products, place)?;
    Ok(last_bid(bids, table.places.as_slice(), product))
}

impl LastPlaces {
    /// Adds the bids before index `place`. May return `NoMemory`.
    fn add(
        &mut self,
        alloc: Global,
        bids: &[Bid],
        products: usize,
        place: usize,
    ) -> Result<(), NoMemory>
        requires few { length bids.now ≤ most_bids }
        requires place { place ≤ length bids.now }
        requires known { All (λ bid. bid.product < products) (take place bids.now) }
        requires table { IsTableBefore products bids.now place
            self.old.placed self.old.places.items }
        ensures placed { OnOk result (self.new.placed ≡ place) }
        ensures places { OnOk result (AreLastPlaces products bids.now place self.new.places.items) }
    {
        if self.placed == 0 {
            self.places = vec![in alloc; 0; products]?;
        }
        for i in self.placed..place {
            self.places[bids[i].product as usize] = i as u16 + 1;
        }
        self.placed = place;
        Ok(())
    }
}

/// Returns the last bid for a product from such a table, if there is one.
fn last_bid<'a>(bids: &'a [Bid], places: &[u16], product: u64) -> Option<&'a Bid>
    ensures { option_copied result
        ≡ slice_index_or (map (bid_at bids.entry.now) places.now) product None }
{
    let place = *places.get(product as usize)?;
    bids.get((place as usize).checked_sub(1)?)
}

/// Returns the first fault of bid number `place`, given the last earlier bid for its product.
/// `near` makes the look-up of processed demands fast for rising products, as in [`Row::get_near`].
fn bid_fault(
    products: &[Product],
    prices: &[PricePair],
    demands: &Row,
    near: &mut usize,
    last: Option<&Bid>,
    place: u64,
    bid: &Bid,
) -> Option<BidFault>
    requires prices { length prices.now ≡ length products.now }
    requires demands { IsRow products.now demands.now }
    ensures { result ≡ first_fault (checks_by_last products.now prices.now demands.now
        (option_copied last.entry) place bid.now) }
{
    if bid.product >= products.len() as u64 {
        return Some(BidFault::UnknownProduct(place));
    }
    let product = bid.product as usize;
    let pair = prices[product];
    if bid.price < pair.start.get() || pair.clock.get() < bid.price {
        return Some(BidFault::PriceRange(place));
    }
    if bid.quantity > products[product].cap {
        return Some(BidFault::OverCap(place));
    }
    let held = demands.get_near(near, product);
    let Some(last) = last else {
        let maintained_below = bid.quantity == held && bid.price != pair.clock.get();
        return maintained_below.then_some(BidFault::KeepPrice(place));
    };
    if last.price >= bid.price {
        return Some(BidFault::PriceOrder(place));
    }
    let goes_on = if held < last.quantity {
        last.quantity < bid.quantity
    } else {
        bid.quantity < last.quantity
    };
    (!goes_on).then_some(BidFault::MixedDirection(place))
}
