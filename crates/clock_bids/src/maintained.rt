//! Checks bids that maintain demand, which most bids of a later round do.
ghost use Rattle.std.specs.Prelude.{◌≡◌, ◌≤◌, IsTrue, length};
ghost use Rattle.clock_terms.specs.Limits.{IsRow};
ghost use Rattle.clock_bids.specs.Sheet.{most_bids};
ghost use Rattle.clock_bids.specs.inside.Judged.{AreJudgedBelow, HasDemand};

use crate::check::taken_with;
use crate::sheet::Bid;
use crate::sheet_changes::first_held;
use clock_terms::{PositiveDemands, PricePair, ProductDemand, Setup};

/// The first `count` bids of a sheet, which have no fault. They are for products below `least`, and
/// request `taken` bidding units.
#[derive(Clone, Copy)]
pub(crate) struct Judged {
    pub(crate) count: usize,
    pub(crate) least: u64,
    pub(crate) taken: u64,
}

/// Returns the next product from `least` on with processed demand, and that demand. If there is
/// none, returns the number of products as the product. `next` is the product visited last.
#[inline(always)]
pub(crate) fn next_from(
    held: &mut PositiveDemands<'_>,
    next: ProductDemand,
    least: u64,
    products: usize,
) -> ProductDemand
    requires products { products ≡ length held.old.demands }
    requires next { HasDemand held.old.demands next }
    ensures row { held.new.demands ≡ held.old.demands }
    ensures next { HasDemand held.new.demands result }
{
    if next.product as u64 >= least {
        return next;
    }
    'passed: while let Some(one) = held.next() {
        if one.product as u64 >= least {
            return one;
        }
    }
    ProductDemand {
        product: products,
        demand: 0,
    }
}

/// Checks the next bids while each is for the next product with processed demand, and maintains
/// that demand at the clock price. Such a bid has no fault.
///
/// A loop of its own, with few values, since most bids are such.
#[inline(always)]
pub(crate) fn judge_maintained(
    setup: &Setup,
    prices: &[PricePair],
    held: &mut PositiveDemands<'_>,
    next: &mut ProductDemand,
    bids: &[Bid],
    before: Judged,
) -> Judged
    requires few { length bids.now ≤ most_bids }
    requires prices { length prices.now ≡ length setup.now.products }
    requires demands { IsRow setup.now.products held.old.demands }
    requires next { HasDemand held.old.demands next.old }
    requires judged { AreJudgedBelow setup.now.products prices.now held.old.demands bids.now
        before.count before.least before.taken }
    ensures row { held.new.demands ≡ held.old.demands }
    ensures next { HasDemand held.new.demands next.new }
    ensures judged { AreJudgedBelow setup.now.products prices.now held.old.demands bids.now
        result.count result.least result.taken }
    ensures more { before.count ≤ result.count }
{
    let products = setup.products.as_slice();
    let mut judged = before;
    for i in before.count..bids.len() {
        let bid = &bids[i];
        if next.product >= products.len()
            || bid.product != next.product as u64
            || bid.product < judged.least
            || bid.quantity != next.demand
            || !is_at_clock(&prices[next.product], bid.price)
        {
            return judged;
        }
        let units = products[next.product].units;
        judged = Judged {
            count: i + 1,
            least: bid.product + 1,
            taken: taken_with(judged.taken, units, None, bid.quantity),
        };
        *next = first_held(held, products.len());
    }
    judged
}

/// Returns whether a price is the clock price, and not below the start-of-round price.
#[inline(always)]
fn is_at_clock(pair: &PricePair, price: u64) -> bool
    ensures clock { IsTrue result → price ≡ pair.now.clock }
    ensures start { IsTrue result → pair.now.start ≤ price }
{
    price == pair.clock.get() && pair.start.get() <= price
}
