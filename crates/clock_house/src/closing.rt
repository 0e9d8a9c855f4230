//! What a closing leaves: the next prices, demands, and eligibilities, and no sheet in force.
ghost use Rattle.std.specs.Prelude.{◌≡◌, ◌≤◌, None, length, map, unwrap_or};
ghost use Rattle.std.specs.List.{range_with_len};
ghost use Rattle.clock_closing.specs.Results.{AreConsistent};
ghost use Rattle.clock_house.specs.Laws.{most_rounds};
ghost use Rattle.clock_house.specs.PublicState.{state_after};

use clock_bids::Sheet;
use clock_closing::{ClosedRound, Prepared, Slip};
use clock_device::Items;
use clock_posting::RoundSheet;
use clock_terms::{Amounts, Grid, Prices};
use std::mem::replace;

/// The round that a prepared closing adds, the prices of the next round, if there is one, and the
/// demands.
pub(crate) fn parts_of(prepared: Prepared) -> (ClosedRound, Option<Prices>, Grid)
    ensures closed { result.0 ≡ prepared.closed }
    ensures consistent { AreConsistent
        (record { closed = result.0; next = result.1; demands = result.2 }) }
{
    let made = prepared.results;
    (made.closed, made.next, made.demands)
}

/// The number of the current round after a closed one.
pub(crate) fn round_after(sheet: &RoundSheet) -> u64
    requires { sheet.now.round ≤ most_rounds }
    ensures { result ≡ (state_after sheet.now).round }
{
    if sheet.ended {
        sheet.round
    } else {
        sheet.round + 1
    }
}

/// Sets the prices to the next ones, if there are any.
pub(crate) fn take_prices(prices: &mut Prices, next: Option<Prices>)
    ensures { prices.new ≡ unwrap_or next prices.old }
{
    if let Some(next) = next {
        *prices = next;
    }
}

/// Sets the demands to the next ones. The memory of the old ones can be reused.
pub(crate) fn take_demands(demands: &mut Grid, old: &mut Option<Grid>, next: Grid)
    ensures { demands.new ≡ next }
{
    *old = Some(replace(demands, next));
}

/// Sets the eligibilities to those of the bidder results, one per bidder, and leaves no sheet in
/// force.
pub(crate) fn take_slips(
    eligibilities: &mut Amounts,
    sheets: &mut Items<Option<Sheet>>,
    slips: &[Slip],
)
    requires eligibilities { length slips.now ≡ length eligibilities.old }
    requires sheets { length slips.now ≡ length sheets.old }
    ensures eligibilities { eligibilities.new ≡ map (λ slip. slip.eligibility) slips.now }
    ensures sheets { sheets.new ≡ map (λ bidder. None) (range_with_len 0 (length sheets.old)) }
{
    for bidder in 0..slips.len() {
        eligibilities.set(bidder, slips[bidder].eligibility);
        sheets.set(bidder, None);
    }
}
