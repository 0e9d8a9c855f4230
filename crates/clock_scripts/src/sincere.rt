//! Writes the sheets of sincere bidders.

ghost use Rattle.std.specs.Prelude.{◌≡◌, ◌≤◌, ◌<◌, [], All, false, length, take, reverse, OnOk};
ghost use Rattle.clock_house.specs.House.{state_in, holding_in};
ghost use Rattle.clock_views.specs.inside.Values.{Adds};
ghost use Rattle.clock_replays.specs.Replays.{IsLimits, NeverRises};
ghost use Rattle.clock_scripts.specs.{RequestTexts.{written_put}, Sincere.{sincere_sheet}};
ghost use Rattle.clock_scripts.specs.inside.Bodies.{bids_text};
ghost use Rattle.clock_scripts.specs.inside.SincereSheets.{first_sheet, later_sheet};
ghost use Rattle.clock_scripts.specs.Sincere as rules;
ghost use Rattle.clock_scripts.specs.inside.Blocks as one_by_one;

use crate::bodies::{end_sheet, push_bid, push_label};
use crate::prefixes::BidPrefixes;
use clock_device::NoMemory;
use clock_house::House;
use clock_replays::LimitLists;
use clock_terms::{PricePair, Row};

/// Returns the price at which a block leaves, if it leaves below the clock price.
fn leaving_price(pair: &PricePair, limit: u64) -> Option<u64>
    ensures { result ≡ rules.leaving_price pair.now limit }
{
    (limit < pair.clock.get()).then_some(pair.start.get().max(limit))
}

/// Returns the price at which the last of `blocks` blocks leaves, if it leaves.
#[inline(always)]
fn last_leaving(pair: &PricePair, limits: &[u64], blocks: usize) -> Option<u64>
    requires { blocks ≤ length limits.now }
    ensures { result ≡ one_by_one.last_leaving pair.now (reverse (take blocks limits.now)) }
{
    if blocks == 0 {
        return None;
    }
    leaving_price(pair, limits[blocks - 1])
}

/// Appends the bids of a later round for a product with a demand of `held` blocks: one for each
/// different price at which a block leaves, in rising order. If none leaves, appends the bid that
/// maintains the demand. Blocks after the last limit stay.
fn push_held(
    text: &mut Vec<u8>,
    product: u64,
    pair: &PricePair,
    held: u64,
    limits: &[u64],
    prefixes: &mut BidPrefixes,
) -> Result<(), NoMemory>
    requires falls { NeverRises limits.now }
    requires some { 0 < held }
    ensures { OnOk result (Adds (bids_text (rules.later_bids product pair.now held limits.now))
        text.old.items text.new.items) }
{
    let blocks = (held as usize).min(limits.len());
    let Some(_first) = last_leaving(pair, limits, blocks) else {
        return prefixes.push_bid(text, product, held, pair.clock.get());
    };
    let past = held - blocks as u64;
    for block in (0..blocks).rev() {
        let Some(price) = leaving_price(pair, limits[block]) else {
            continue;
        };
        if last_leaving(pair, limits, block) == Some(price) {
            continue;
        }
        push_bid(text, product, past + block as u64, price)?;
    }
    Ok(())
}

/// Appends the bid of the first round for a product, if a block is wanted.
#[inline(always)]
fn push_wanted(
    text: &mut Vec<u8>,
    product: u64,
    pair: &PricePair,
    limits: &[u64],
    prefixes: &mut BidPrefixes,
) -> Result<(), NoMemory>
    ensures { OnOk result (Adds (bids_text (rules.opening_bids product pair.now limits.now))
        text.old.items text.new.items) }
{
    let price = pair.start.get();
    let wanted = limits.iter().filter(|limit| price <= **limit).count() as u64;
    if wanted == 0 {
        return Ok(());
    }
    prefixes.push_bid(text, product, wanted, price)
}

/// Appends the bids of the first round. The loop visits only products with limits, which are few.
fn push_first(
    text: &mut Vec<u8>,
    prices: &[PricePair],
    limits: &LimitLists,
    prefixes: &mut BidPrefixes,
) -> Result<(), NoMemory>
    requires { length limits.now ≡ length prices.now }
    ensures { OnOk result
        (Adds (bids_text (first_sheet prices.now limits.now)) text.old.items text.new.items) }
{
    let mut from = 0;
    let mut product = limits.next_limited(0, &mut from);
    'limited: while product < prices.len() {
        let list = limits.list(product, &mut from);
        push_wanted(text, product as u64, &prices[product], list, prefixes)?;
        product = limits.next_limited(product + 1, &mut from);
    }
    Ok(())
}

/// Appends the bids of a later round. The loop visits only products with demand, which are few.
#[inline(never)]
fn push_later(
    text: &mut Vec<u8>,
    prices: &[PricePair],
    demands: &Row,
    limits: &LimitLists,
    prefixes: &mut BidPrefixes,
) -> Result<(), NoMemory>
    requires held { length demands.now ≡ length prices.now }
    requires each { length limits.now ≡ length prices.now }
    requires falls { All NeverRises limits.now }
    ensures { OnOk result (Adds (bids_text (later_sheet prices.now demands.now limits.now))
        text.old.items text.new.items) }
{
    let mut from = 0;
    let mut held = demands.held();
    'held: while let Some(one) = held.next() {
        let pair = &prices[one.product];
        let list = limits.list(one.product, &mut from);
        push_held(text, one.product as u64, pair, one.demand, list, prefixes)?;
    }
    Ok(())
}

/// Appends the body of the sheet that a sincere bidder submits.
pub(crate) fn push_sincere<P>(
    text: &mut Vec<u8>,
    house: &House<P>,
    bidder: u32,
    limits: &LimitLists,
    prefixes: &mut BidPrefixes,
) -> Result<(), NoMemory>
    requires known { bidder < length house.now.setup.bidders }
    requires going { (state_in house.now).ended ≡ false }
    requires limits { IsLimits house.now.setup.products limits.now }
    ensures { OnOk result (Adds (written_put (state_in house.now).round
        (sincere_sheet (state_in house.now).round (state_in house.now).prices
        (holding_in house.now bidder).demands limits.now)) text.old.items text.new.items) }
{
    house.law_of_house();
    let prices = house.prices().as_slice();
    let own = house.own(bidder);
    push_label(text, b"{\"bids\":")?;
    let start = text.len();
    if own.round == 1 {
        push_first(text, prices, limits, prefixes)?;
    } else {
        push_later(text, prices, own.demands, limits, prefixes)?;
    }
    end_sheet(text, start, own.round)
}
