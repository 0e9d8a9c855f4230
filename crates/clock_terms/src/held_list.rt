ghost use Rattle.std.specs.Prelude.{◌≡◌, ℕ, ◌+◌, ◌≤◌, ◌<◌, [], slice_index_or, length, take, All};
ghost use Rattle.std.specs.Prelude.{IfOk, OnOk, IfErr, insert, remove, vec_capacity, IsTrue};
ghost use Rattle.clock_terms.specs.HeldDemands.{demand_for, demands_of};
ghost use Rattle.clock_terms.specs.Limits.{most_products, most_supply};
ghost use Rattle.clock_terms.specs.inside.Rows.{ArePositiveDemands, AreStarts, IsStart, IsStored};
ghost use Rattle.clock_terms.specs.inside.Rows.{IsAtIndex, BelongsAtIndex};

use crate::limits::MOST_SUPPLY;
use clock_device::NoMemory;

/// The number of products in a group. A search for a product starts at the first entry of its
/// group.
pub(crate) const GROUP_SIZE: usize = 16;

/// An entry of a row: a product, and a positive demand for it in blocks.
#[derive(Clone, Copy, Default)]
pub(crate) struct PositiveDemand {
    pub(crate) product: u16,
    pub(crate) demand: u16,
}

/// Returns the index of the first entry at or after `from` whose product is at least `product`, or
/// the number of entries if there is none. Requires that all entries before `from` are for lower
/// products.
fn first_from(held: &[PositiveDemand], from: usize, product: usize) -> usize
    requires { IsStart held.now product from }
    ensures start { IsStart held.now product result }
    ensures first { (d : PositiveDemand) → result < length held.now
        → product ≤ (slice_index_or held.now result d).product }
{
    for place in from..held.len() {
        if held[place].product as usize >= product {
            return place;
        }
    }
    held.len()
}

/// Whether the entry at index `place` is there and is for `product`.
#[inline(always)]
pub(crate) fn is_at(held: &[PositiveDemand], place: usize, product: usize) -> bool
    ensures { IsTrue result → (place < length held.now)
        × ((d : PositiveDemand) → (slice_index_or held.now place d).product ≡ product) }
{
    held.get(place)
        .is_some_and(|one| one.product as usize == product)
}

/// Finds the entry for `product`: `Ok` with its index, or `Err` with the index at which it would be
/// inserted.
///
/// Requires entries by rising product, and that all before index `start` are for lower products:
/// `start` is the start of the product's group, or 0. Tries one guess before it searches: if all
/// products of the group have entries, the index is `start` plus the product's position in its
/// group.
pub(crate) fn place_in_group(
    held: &[PositiveDemand],
    start: usize,
    product: usize,
) -> Result<usize, usize>
    requires order { (count : ℕ) × ArePositiveDemands 0 held.now count }
    requires start { IsStart held.now product start }
    ensures stands { IfOk result (λ place. IsAtIndex held.now product place) }
    ensures lacks { IfErr result (λ place. BelongsAtIndex held.now product place) }
{
    let likely = start.wrapping_add(product % GROUP_SIZE);
    if is_at(held, likely, product) {
        return Ok(likely);
    }
    let place = first_from(held, start, product);
    if place < held.len() && held[place].product as usize == product {
        Ok(place)
    } else {
        Err(place)
    }
}

/// Returns the demand for `product`, in blocks, whose entry was searched with the result `place`.
pub(crate) fn demand_at(held: &[PositiveDemand], place: Result<usize, usize>, product: usize) -> u64
    requires held { (count : ℕ) × ArePositiveDemands 0 held.now count }
    requires stands { IfOk place (λ place. IsAtIndex held.now product place) }
    requires lacks { IfErr place (λ place. BelongsAtIndex held.now product place) }
    ensures is { result ≡ demand_for held.now product }
    ensures small { result ≤ most_supply }
{
    match place {
        Ok(place) => held[place].demand as u64,
        Err(_) => 0,
    }
}

/// Inserts an entry at index `place`, and moves the starts of all later groups up by one. Requires
/// that `place` is where its product would be, and capacity for one more entry. Allocates nothing.
fn put_in(held: &mut Vec<PositiveDemand>, starts: &mut Vec<u16>, place: usize, one: PositiveDemand)
    requires place { BelongsAtIndex held.old.items one.product place }
    requires starts { AreStarts held.old.items starts.old.items }
    requires few { length held.old.items < most_products }
    requires room { length held.old.items < vec_capacity held.old }
    ensures put { held.new.items ≡ insert held.old.items place one }
    ensures room { vec_capacity held.old ≤ vec_capacity held.new }
    ensures starts { AreStarts held.new.items starts.new.items }
    ensures groups { length starts.new.items ≡ length starts.old.items }
{
    held.insert(place, one).unwrap();
    let from = one.product as usize / GROUP_SIZE + 1;
    // A slice: its address stays in a register while the loop writes.
    let starts = starts.as_mut_slice();
    for group in from..starts.len() {
        starts[group] += 1;
    }
}

/// Removes the entry for `product` at index `place`, and moves the starts of all later groups down
/// by one.
fn take_out(held: &mut Vec<PositiveDemand>, starts: &mut Vec<u16>, place: usize, product: usize)
    requires order { (count : ℕ) × ArePositiveDemands 0 held.old.items count }
    requires place { IsAtIndex held.old.items product place }
    requires starts { AreStarts held.old.items starts.old.items }
    ensures taken { held.new.items ≡ remove held.old.items place }
    ensures room { vec_capacity held.old ≤ vec_capacity held.new }
    ensures starts { AreStarts held.new.items starts.new.items }
    ensures groups { length starts.new.items ≡ length starts.old.items }
{
    held.remove(place);
    let from = product / GROUP_SIZE + 1;
    let starts = starts.as_mut_slice();
    for group in from..starts.len() {
        starts[group] -= 1;
    }
}

/// Stores a demand whose product was searched with the result `place`: replaces, inserts, or
/// removes an entry. A demand of 0 has no entry. Allocates nothing.
pub(crate) fn store(
    held: &mut Vec<PositiveDemand>,
    starts: &mut Vec<u16>,
    place: Result<usize, usize>,
    one: PositiveDemand,
)
    requires stands { IfOk place (λ place. IsAtIndex held.old.items one.product place) }
    requires lacks { IfErr place (λ place. BelongsAtIndex held.old.items one.product place) }
    requires starts { AreStarts held.old.items starts.old.items }
    requires room { (count : ℕ) × ArePositiveDemands 0 held.old.items count × (one.product < count)
        × (count ≤ most_products) × (count ≤ vec_capacity held.old) }
    requires small { one.demand ≤ most_supply }
    ensures order { (count : ℕ) → ArePositiveDemands 0 held.old.items count → one.product < count
        → ArePositiveDemands 0 held.new.items count }
    ensures stored { IsStored held.old.items held.new.items one.product one.demand }
    ensures room { vec_capacity held.old ≤ vec_capacity held.new }
    ensures starts { AreStarts held.new.items starts.new.items }
    ensures groups { length starts.new.items ≡ length starts.old.items }
{
    match place {
        Ok(place) if one.demand > 0 => held[place] = one,
        Ok(place) => take_out(held, starts, place, one.product as usize),
        Err(place) if one.demand > 0 => put_in(held, starts, place, one),
        Err(_) => {}
    }
}

/// Writes the positive demands of `demands`, whose products count from 0, to the start of `room`,
/// and returns their number.
///
/// Writes every demand to the next index, and advances only past positive ones: a branch around the
/// write would often be mispredicted.
pub(crate) fn write_held(room: &mut [PositiveDemand], demands: &[u16]) -> usize
    requires room { length room.old ≡ length demands.now }
    requires few { length demands.now ≤ most_products }
    requires small { All (λ demand. demand ≤ most_supply) demands.now }
    ensures length { length room.new ≡ length room.old }
    ensures count { result ≤ length demands.now }
    ensures order { ArePositiveDemands 0 (take result room.new) (length demands.now) }
    ensures demands { demands_of (length demands.now) (take result room.new) ≡ demands.now }
{
    let mut kept = 0;
    for (product, demand) in demands.iter().enumerate() {
        room[kept] = PositiveDemand {
            product: product as u16,
            demand: *demand,
        };
        if *demand > 0 {
            kept += 1;
        }
    }
    kept
}

/// Appends an entry for a product, if its demand is positive. Requires entries for lower products.
#[inline(always)]
fn hold(held: &mut Vec<PositiveDemand>, product: usize, demand: u64) -> Result<(), NoMemory>
    requires order { ArePositiveDemands 0 held.old.items product }
    requires few { product < most_products }
    requires small { demand ≤ most_supply }
    ensures order { OnOk result (ArePositiveDemands 0 held.new.items (product + 1)) }
    ensures here { OnOk result (demand_for held.new.items product ≡ demand) }
    ensures others { OnOk result ((other : ℕ) → other < product
        → demand_for held.new.items other ≡ demand_for held.old.items other) }
{
    if demand == 0 {
        return Ok(());
    }
    held.push(PositiveDemand {
        product: product as u16,
        demand: demand as u16,
    })?;
    Ok(())
}

/// Appends the positive demands of `demands`, whose products count from 0, to an empty list.
/// Returns whether all demands are at most 1,000 blocks, and stops at the first that is not.
pub(crate) fn hold_all(held: &mut Vec<PositiveDemand>, demands: &[u64]) -> Result<bool, NoMemory>
    requires empty { held.old.items ≡ [] }
    requires few { length demands.now ≤ most_products }
    ensures order { IfOk result (λ all. IsTrue all
        → ArePositiveDemands 0 held.new.items (length demands.now)) }
    ensures demands { IfOk result (λ all. IsTrue all
        → demands_of (length demands.now) held.new.items ≡ demands.now) }
{
    for (product, demand) in demands.iter().enumerate() {
        if *demand > MOST_SUPPLY {
            return Ok(false);
        }
        hold(held, product, *demand)?;
    }
    Ok(true)
}

/// Finds for each group the index at which its entries start.
pub(crate) fn find_starts(starts: &mut Vec<u16>, held: &[PositiveDemand])
    requires order { (count : ℕ) × ArePositiveDemands 0 held.now count × (count ≤ most_products) }
    requires few { length starts.old.items ≤ most_products }
    ensures starts { AreStarts held.now starts.new.items }
    ensures groups { length starts.new.items ≡ length starts.old.items }
{
    let mut start = 0;
    for group in 0..starts.len() {
        start = first_from(held, start, group * GROUP_SIZE);
        starts[group] = start as u16;
    }
}
