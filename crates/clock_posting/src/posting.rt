ghost use Rattle.std.specs.Prelude.{◌≡◌, ◌<◌, ◌≤◌, ℕ, if◌then◌else◌, None, length, map, max};
ghost use Rattle.std.specs.Prelude.{◌&&◌, nat_lt, slice_index, All, Any};
ghost use Rattle.std.specs.{Prelude.{IfOk, IfErr, IfSome}, List.{range_with_len}};
ghost use Rattle.clock_terms.specs.{Demands.{IsGrid}, Faults.{IsFirstFault}};
ghost use Rattle.clock_terms.specs.{Increments.{AreIncrements}, Prices.{opening_prices}};
ghost use Rattle.clock_posting.specs.PostedPrice.{IsWithinPrices, is_applied_reduction};
ghost use Rattle.clock_posting.specs.PostedPrice.{is_reduction, posted_prices};
ghost use Rattle.clock_posting.specs.inside.Parts.{least_price};
ghost use Rattle.clock_posting.specs.inside.RoundEnd.{FitsTogether, HasClocksOf, IsPostingOf};
ghost use Rattle.clock_posting.specs.inside.RoundEnd.{limit_of, line_of, lines_of, next_of};
ghost use Rattle.clock_posting.specs.Posting as rules;
ghost use Rattle.clock_posting.specs.declared.posting.PostFault.TheVariants as faults;

use crate::sheet::{Line, Lines, RoundSheet};
use clock_device::{Items, NoMemory};
use clock_money::{Price, clock_price};
use clock_processor::Settled;
use clock_terms::{
    Change, Changes, Grid, Increments, Kind, OpeningPrices, PricePair, Prices, Product, Setup,
};
use std::alloc::Global;
use thiserror::Error;

/// Why a closing posts nothing.
#[derive(Clone, Copy, Debug, PartialEq, Eq, Error)]
pub enum PostFault {
    /// The auction would continue, and the next clock price of this product, the first such, would
    /// be above the highest price.
    #[error("the next clock price of product {0} would be too high")]
    PriceLimit(u64),
    /// Out of memory. May replace any other result.
    #[error("out of memory")]
    NoMemory,
}

impl From<NoMemory> for PostFault {
    ghost from_gives = { λ _ fault. fault ≡ faults.NoMemory };

    fn from(_none: NoMemory) -> PostFault {
        PostFault::NoMemory
    }
}

/// What the closing of a round posts.
#[derive(Drop)]
pub struct Posting {
    /// The round results.
    pub sheet: RoundSheet,
    /// The prices of the next round, or `None` if the auction has ended.
    pub next: Option<Prices>,
}

/// Posts round 1, in which the quantities bid become the demands. The opening price of each product
/// is its start-of-round, clock, and posted price, which is our own rule.
///
/// The auction ends if no product's aggregate demand exceeds its supply. Otherwise each product has
/// a next clock price: its posted price plus the increment, rounded up to a multiple of its
/// granule. These are the FCC's procedures for Auction 105, except for the rounding. `grid` has one
/// row per bidder, in blocks. Requires increments from 1 to 50 percent, one for all products or one
/// for each.
///
/// Errors: [`PostFault::PriceLimit`], if the auction would continue and a next clock price would be
/// too high; it names the first such product. May return `NoMemory`, which then replaces any other
/// result.
pub fn post_first(
    alloc: Global,
    setup: &Setup,
    grid: &Grid,
    increments: &Increments,
) -> Result<Posting, PostFault>
    requires increments { AreIncrements (length setup.now.products) increments.now }
    requires grid { IsGrid (length setup.now.bidders) (length setup.now.products) grid.now }
    ensures ok { let products = setup.now.products in let posted = rules.opening_posted products in
        IfOk result
        (rules.IsPosting 1 products (opening_prices products) grid.now posted increments.now) }
    ensures lines { IfOk result
        (λ posting. length posting.sheet.lines ≡ length setup.now.products) }
    ensures err { let products = setup.now.products in let posted = rules.opening_posted products in
        IfErr result (IsFirstFault PostFault.NoMemory
        (rules.post_fault (rules.price_limit_fault products grid.now posted increments.now))) }
    ensures laws { IfOk result rules.IsConsistent }
{
    let products = setup.products.as_slice();
    let prices = Prices::opening(alloc, setup)?;
    let posted = least_prices(alloc, products, prices.as_slice(), grid)?;
    RoundEnd {
        products,
        round: 1,
        prices: prices.as_slice(),
        grid,
        posted: posted.as_slice(),
        increments,
    }
    .posting(alloc)
}

/// Posts a later round, from its prices, its requests, and what bid processing made of them. A
/// product's posted price is its clock price if it has excess demand. Otherwise it is the highest
/// price of its reductions that were applied at least in part, or its start-of-round price if there
/// are none. The rule without excess demand is our own.
///
/// End, next prices, and errors are those of [`post_first`]. Requires round 2 or later; a pair of
/// prices per product, the start-of-round price not above the clock price; requests for these
/// products at these prices; and for each request what is left of it.
pub fn post(
    alloc: Global,
    setup: &Setup,
    round: u64,
    prices: &Prices,
    changes: &Changes,
    settled: &Settled,
    increments: &Increments,
) -> Result<Posting, PostFault>
    requires later { 2 ≤ round }
    requires increments { AreIncrements (length setup.now.products) increments.now }
    requires grid { IsGrid (length setup.now.bidders) (length setup.now.products) settled.now.grid }
    requires prices { length prices.now ≡ length setup.now.products }
    requires ordered { All (λ pair. pair.start ≤ pair.clock) prices.now }
    requires changes { All (IsWithinPrices prices.now) changes.now }
    requires left { length settled.now.left ≡ length changes.now }
    ensures ok { let products = setup.now.products in let end = settled.now in
        let posted = posted_prices products prices.now changes.now end.left end.grid in
        IfOk result (rules.IsPosting round products prices.now end.grid posted increments.now) }
    ensures err { let products = setup.now.products in let end = settled.now in
        let posted = posted_prices products prices.now changes.now end.left end.grid in
        IfErr result (IsFirstFault PostFault.NoMemory
        (rules.post_fault (rules.price_limit_fault products end.grid posted increments.now))) }
    ensures laws { IfOk result rules.IsConsistent }
    // If the auction continues, some posted price is a clock price. So prices rise, and it must
    // end.
    ensures clock { IfOk result
        (λ posting. IfSome posting.next (λ _. Any rules.IsAtClock posting.sheet.lines)) }
{
    let products = setup.products.as_slice();
    let posted = posted_prices(
        alloc,
        products,
        prices.as_slice(),
        changes.as_slice(),
        settled.left(),
        settled.grid(),
    )?;
    RoundEnd {
        products,
        round,
        prices: prices.as_slice(),
        grid: settled.grid(),
        posted: posted.as_slice(),
        increments,
    }
    .posting(alloc)
}

/// The least that each product's posted price can be: the clock price with excess demand, the
/// start-of-round price without.
fn least_prices(
    alloc: Global,
    products: &[Product],
    prices: &[PricePair],
    grid: &Grid,
) -> Result<Items<Price>, NoMemory>
    requires rows { All (λ row. length row ≡ length products.now) grid.now }
    requires prices { length prices.now ≡ length products.now }
    ensures { IfOk result (λ least. least ≡ map (least_price products.now prices.now grid.now)
        (range_with_len 0 (length products.now))) }
{
    let mut least = Items::with_capacity(alloc, products.len())?;
    for (i, product) in products.iter().enumerate() {
        let pair = prices[i];
        let excess = grid.total(i) > product.supply;
        least.push(if excess { pair.clock } else { pair.start });
    }
    Ok(least.into_items())
}

/// The posted price of each product in a later round.
fn posted_prices(
    alloc: Global,
    products: &[Product],
    prices: &[PricePair],
    changes: &[Change],
    left: &[u64],
    grid: &Grid,
) -> Result<Items<Price>, NoMemory>
    requires rows { All (λ row. length row ≡ length products.now) grid.now }
    requires prices { length prices.now ≡ length products.now }
    requires changes { All (IsWithinPrices prices.now) changes.now }
    requires left { length left.now ≡ length changes.now }
    ensures { IfOk result
        (λ posted. posted ≡ posted_prices products.now prices.now changes.now left.now grid.now) }
{
    let mut posted = least_prices(alloc, products, prices, grid)?;
    for (i, change) in changes.iter().enumerate() {
        note(&mut posted, prices, change, left[i]);
    }
    Ok(posted)
}

/// Raises the posted price of a request's product to the request's price, if it is a reduction that
/// was applied at least in part. `left` is what is left of the request, in blocks.
fn note(posted: &mut Items<Price>, prices: &[PricePair], change: &Change, left: u64)
    requires lengths { length posted.old ≡ length prices.now }
    requires priced { IsWithinPrices prices.now change.now }
    ensures lengths { length posted.new ≡ length posted.old }
    ensures price { (p : ℕ) → p < length posted.old
        → slice_index posted.new p ≡ (if is_applied_reduction p change.now left
        then max (slice_index posted.old p) change.now.price else slice_index posted.old p) }
{
    let product = change.product as usize;
    if is_applied(change, left) {
        let pair = prices[product];
        prove!(pair.start.get() <= change.price && change.price <= pair.clock.get());
        let price = Price::new(change.price).unwrap();
        if posted.as_slice()[product].get() < price.get() {
            posted.set(product, price);
        }
    }
}

/// Whether a request is a reduction that was applied at least in part.
fn is_applied(change: &Change, left: u64) -> bool
    ensures { result ≡ (is_reduction change.now.kind && nat_lt left change.now.amount) }
{
    match change.kind {
        Kind::Reduction => left < change.amount,
        Kind::Increase => false,
    }
}

/// The input of a posting.
#[derive(Drop)]
struct RoundEnd<'a> {
    products: &'a [Product],
    /// The round, from 1.
    round: u64,
    prices: &'a [PricePair],
    /// The demands after the round, one row per bidder, in blocks.
    grid: &'a Grid,
    posted: &'a [Price],
    increments: &'a Increments,
}

impl RoundEnd<'_> {
    /// Computes the round results and the prices of the next round.
    fn posting(&self, alloc: Global) -> Result<Posting, PostFault>
        requires { FitsTogether self.now }
        ensures ok { IfOk result (IsPostingOf self.now) }
        ensures lines { IfOk result
            (λ posting. length posting.sheet.lines ≡ length self.now.products.now) }
        ensures err { IfErr result
            (IsFirstFault PostFault.NoMemory (rules.post_fault (limit_of self.now))) }
        ensures laws { IfOk result rules.IsConsistent }
    {
        let next = self.prices_after(alloc)?;
        let lines = self.lines(alloc, &next)?;
        let sheet = RoundSheet {
            round: self.round,
            ended: next.is_none(),
            lines,
        };
        Ok(Posting { sheet, next })
    }

    /// The prices of the next round, `None` if the auction has ended, or as error the first product
    /// whose next clock price would be too high.
    #[tactic(auto, using(clock_terms::proofs::IncrementLaws::increment_there))]
    fn prices_after(&self, alloc: Global) -> Result<Option<Prices>, PostFault>
        requires { FitsTogether self.now }
        ensures ok { IfOk result (λ next. next ≡ next_of self.now) }
        ensures clocks { IfOk result (λ next. IfSome next (HasClocksOf self.now)) }
        ensures rising { IfOk result (λ next. IfSome next (All rules.IsRising)) }
        ensures possible { IfOk result (λ _. limit_of self.now ≡ None) }
        ensures err { IfErr result
            (IsFirstFault PostFault.NoMemory (rules.post_fault (limit_of self.now))) }
    {
        if has_ended(self.products, self.grid) {
            return Ok(None);
        }
        let mut next = Prices::with_capacity(alloc, self.products.len())?;
        for product in 0..self.products.len() {
            let start = self.posted[product];
            let percent = self.increments.at(product);
            let Some(clock) = clock_price(start, percent, self.products[product].granule) else {
                return Err(PostFault::PriceLimit(product as u64));
            };
            next.push(PricePair { start, clock });
        }
        Ok(Some(next.into_items()))
    }

    /// The lines of the round results. Requires the prices of the next round.
    fn lines(&self, alloc: Global, next: &Option<Prices>) -> Result<Lines, NoMemory>
        requires end { FitsTogether self.now }
        requires next { next.now ≡ next_of self.now }
        requires clocks { IfSome next.now (HasClocksOf self.now) }
        ensures count { IfOk result (λ lines. length lines ≡ length self.now.products.now) }
        ensures exact { IfOk result (λ lines. lines ≡ lines_of self.now) }
    {
        // Every closed round stores its lines, so their memory is no larger than they need.
        let mut lines = Lines::with_capacity(alloc, self.products.len())?;
        for product in 0..self.products.len() {
            lines.push(self.line(product, next));
        }
        Ok(lines.into_items())
    }

    /// The line of a product. Requires the prices of the next round.
    fn line(&self, product: usize, next: &Option<Prices>) -> Line
        requires end { FitsTogether self.now }
        requires product { product < length self.now.products.now }
        requires next { next.now ≡ next_of self.now }
        requires clocks { IfSome next.now (HasClocksOf self.now) }
        ensures { result ≡ line_of self.now product }
    {
        let pair = self.prices[product];
        let total = self.grid.total(product);
        let supply = self.products[product].supply;
        Line {
            start: pair.start,
            clock: pair.clock,
            posted: self.posted[product],
            demand: (total > supply).then_some(total),
            next: self.next_at(product, next),
        }
    }

    /// The clock price of a product in the next round, or `None` if the auction has ended.
    fn next_at(&self, product: usize, next: &Option<Prices>) -> Option<u64>
        requires product { product < length self.now.products.now }
        requires next { next.now ≡ next_of self.now }
        requires clocks { IfSome next.now (HasClocksOf self.now) }
        ensures { result ≡ (if rules.has_ended self.now.products.now self.now.grid.now then None
            else rules.next_clock self.now.products.now self.now.increments.now
            self.now.posted.now product) }
    {
        Some(next.as_ref()?.as_slice()[product].clock.get())
    }
}

/// Whether no product has excess demand.
fn has_ended(products: &[Product], grid: &Grid) -> bool
    requires { All (λ row. length row ≡ length products.now) grid.now }
    ensures { result ≡ rules.has_ended products.now grid.now }
{
    for (i, product) in products.iter().enumerate() {
        if grid.total(i) > product.supply {
            return false;
        }
    }
    true
}
