//! Auctions as data: steps that submit, close, or check what an auction shows.

ghost use Rattle.std.specs.Prelude.{◌<◌, length, IsTrue};

use crate::comparing::{assert_has, assert_is_at};
use crate::settle::push_demands;
use crate::setups::setup_in;
use crate::views::{Page, page_of};
use clock_bids::{Bid, Own};
use clock_device::Text;
use clock_house::{CloseFault, House, PutFault};
use clock_order::Tie;
use clock_posting::sheet_lines;
use clock_processor::{Plain, Processor};
use clock_queue::Woken;
use clock_setup::Amounts;
use clock_terms::{Increments, PackedRow};
use std::alloc::Global;
use std::process::Abort;

/// A bid: product, quantity, and price.
macro_rules! bid {
    ($product:expr, $quantity:expr, $price:expr) => {
        clock_bids::Bid {
            product: $product,
            quantity: $quantity,
            price: $price,
        }
    };
}

/// The bids of a sheet.
macro_rules! bids {
    ($(($product:expr, $quantity:expr, $price:expr)),*) => {
        &[$($crate::auction::bid!($product, $quantity, $price)),*]
    };
}

/// Tie-breaking numbers: the bidder, the product, and the number of each.
macro_rules! ties {
    ($(($bidder:expr, $product:expr, $number:expr)),*) => {
        &[$(clock_order::Tie { bidder: $bidder, product: $product, number: $number }),*]
    };
}

pub(crate) use bid;
pub(crate) use bids;
pub(crate) use ties;

/// A sheet of one bid: the bidder and the bid.
pub type Single = (u32, Bid);

/// The first bidders of the set-up.
pub const X: u32 = 0;

pub const Y: u32 = 1;

pub const Z: u32 = 2;

/// The increment of a closing, in percent: one for all products, or one for each.
#[derive(Clone, Copy)]
pub enum Rise<'a> {
    By(u64),
    Each(&'a [u64]),
}

/// A step of an auction: a command, or a check of what the auction shows.
#[derive(Clone, Copy)]
pub enum Step<'a> {
    /// A bidder submits a sheet for the current round.
    Put(u32, &'a [Bid]),
    /// Bidders submit sheets of one bid for the current round, one after the other.
    PutEach(&'a [Single]),
    /// A bidder's sheet for a round is refused.
    RefusedPut(u32, u64, &'a [Bid], PutFault),
    /// The current round is closed.
    Close(Rise<'a>, &'a [Tie]),
    /// A closing of a round is refused.
    RefusedClose(u64, Rise<'a>, &'a [Tie], CloseFault),
    /// A closed round has these lines, one for each product.
    Lines(u64, &'a [u8]),
    /// Bidders have these eligibilities, and these demands, row by row.
    Hold(&'a [u64], &'a [u64]),
    /// A bidder's results of a round: activity, eligibility, and demands.
    Slip(u32, u64, u64, u64, &'a [u64]),
    /// A bidder has a sheet of these bids in force, or none.
    InForce(u32, Option<&'a [Bid]>),
    /// The current round, and whether the auction has ended.
    Stands(u64, bool),
    /// A page of the auction is this text.
    Reads(Page, &'a str),
}

/// A case: what it shows, its set-up document, and its steps.
pub type Play<'a> = (&'a str, &'a str, &'a [Step<'a>]);

/// The step of a failure: what its case shows, and the step's number.
type At<'a> = (&'a str, usize);

/// Runs the steps of each case on an auction of its own: once with the rescanned list and once with
/// the event queue.
pub fn play_all(rt: &impl Abort, alloc: Global, plays: &[Play]) {
    for play in plays {
        play_with(rt, alloc, Plain, play);
        play_with(rt, alloc, Woken, play);
    }
}

/// Makes an auction of a set-up document with this processor.
fn house_of<P: Processor + Drop>(alloc: Global, document: &str, processor: P) -> Option<House<P>> {
    let Some(setup) = setup_in(alloc, document) else {
        return None;
    };
    House::new(alloc, setup, processor).ok()
}

/// Runs the steps of a case on an auction with this processor.
fn play_with<P: Processor + Drop>(rt: &impl Abort, alloc: Global, processor: P, play: &Play) {
    let &(shows, document, steps) = play;
    match house_of(alloc, document, processor) {
        Some(mut house) => {
            take_all(rt, alloc, &mut house, shows, steps);
            drop(house);
        }
        None => assert_is_at(rt, shows, "no auction", "an auction"),
    }
}

/// Runs the steps one after the other.
fn take_all<P: Processor>(
    rt: &impl Abort,
    alloc: Global,
    house: &mut House<P>,
    shows: &str,
    steps: &[Step],
) {
    for (number, step) in steps.iter().enumerate() {
        take(rt, alloc, house, (shows, number), step);
    }
}

/// Runs one step.
fn take<P: Processor>(rt: &impl Abort, alloc: Global, house: &mut House<P>, at: At, step: &Step) {
    match *step {
        Step::Put(bidder, bids) => {
            let round = house.round();
            put(rt, house, at, round, (bidder, bids), Ok(()))
        }
        Step::PutEach(sheets) => put_each(rt, house, at, sheets),
        Step::RefusedPut(bidder, round, bids, fault) => {
            put(rt, house, at, round, (bidder, bids), Err(fault))
        }
        Step::Close(rise, ties) => {
            let round = house.round();
            close(rt, alloc, house, at, (round, rise, ties), Ok(()))
        }
        Step::RefusedClose(round, rise, ties, fault) => {
            close(rt, alloc, house, at, (round, rise, ties), Err(fault))
        }
        _ => see(rt, alloc, house, at, step),
    }
}

/// Checks what a step shows of the auction, if it is a check.
fn see<P: Processor>(rt: &impl Abort, alloc: Global, house: &House<P>, at: At, step: &Step) {
    match *step {
        Step::Lines(round, lines) => assert_has(rt, at, lines_of(alloc, house, round), lines),
        Step::Reads(page, text) => {
            assert_has(rt, at, page_of(alloc, house, page), text.as_bytes())
        }
        Step::Stands(round, ended) => see_round(rt, house, at, round, ended),
        _ => see_bidders(rt, alloc, house, at, step),
    }
}

/// Checks what a step shows of bidders, if it is such a check.
fn see_bidders<P: Processor>(
    rt: &impl Abort,
    alloc: Global,
    house: &House<P>,
    at: At,
    step: &Step,
) {
    match *step {
        Step::Hold(eligibilities, demands) => {
            see_eligible(rt, house, at, eligibilities);
            let held = demands_held(alloc, house, eligibilities.len());
            assert_has(rt, at, held, demands)
        }
        Step::Slip(bidder, round, activity, eligibility, demands) => {
            let shown = slip_shown(house, bidder, round, demands);
            assert_is_at(rt, at, shown, Some((round, activity, eligibility, true)))
        }
        Step::InForce(bidder, bids) => assert_is_at(rt, at, bids_of(house, bidder), Some(bids)),
        _ => assert_is_at(rt, at, "no check", "a check"),
    }
}

/// Whether the auction has this bidder.
pub fn has_bidder<P: Processor>(house: &House<P>, bidder: u32) -> bool
    ensures { IsTrue result → bidder < length house.now.setup.bidders }
{
    (bidder as usize) < house.setup().bidders.as_slice().len()
}

/// Submits a sheet of these bids.
fn put_bids<P: Processor>(
    rt: &impl Abort,
    house: &mut House<P>,
    bidder: u32,
    round: u64,
    bids: &[Bid],
) -> Result<(), PutFault> {
    assert!(rt; has_bidder(house, bidder));
    house.put_sheet(bidder, round, bids)
}

/// Submits a sheet and asserts the answer.
fn put<P: Processor>(
    rt: &impl Abort,
    house: &mut House<P>,
    at: At,
    round: u64,
    sheet: (u32, &[Bid]),
    expected: Result<(), PutFault>,
) {
    let answer = put_bids(rt, house, sheet.0, round, sheet.1);
    assert_is_at(rt, at, answer, expected);
}

/// Submits sheets of one bid for the current round.
fn put_each<P: Processor>(rt: &impl Abort, house: &mut House<P>, at: At, sheets: &[Single]) {
    for &(bidder, bid) in sheets {
        let round = house.round();
        put(rt, house, at, round, (bidder, &[bid]), Ok(()));
    }
}

/// The increments of a closing.
fn increments_of(alloc: Global, rise: Rise) -> Option<Increments> {
    match rise {
        Rise::By(percent) => Some(Increments::Single(percent)),
        Rise::Each(percents) => match Amounts::from_slice(alloc, percents) {
            Ok(amounts) => Some(Increments::PerProduct(amounts)),
            Err(_) => None,
        },
    }
}

/// The answer of an auction to a closing. `None` if out of memory.
fn answer_of<P: Processor>(
    alloc: Global,
    house: &mut House<P>,
    closing: (u64, Rise, &[Tie]),
) -> Option<Result<(), CloseFault>> {
    let Some(increments) = increments_of(alloc, closing.1) else {
        return None;
    };
    let answer = house.close(closing.0, &increments, closing.2);
    drop(increments);
    Some(answer)
}

/// Closes a round and asserts the answer.
fn close<P: Processor>(
    rt: &impl Abort,
    alloc: Global,
    house: &mut House<P>,
    at: At,
    closing: (u64, Rise, &[Tie]),
    expected: Result<(), CloseFault>,
) {
    let answer = answer_of(alloc, house, closing);
    assert_is_at(rt, at, answer, Some(expected));
}

/// The lines of a closed round.
fn lines_of<P: Processor>(alloc: Global, house: &House<P>, round: u64) -> Option<Text> {
    match house.sheet(round) {
        Some(sheet) => sheet_lines(alloc, house.setup(), sheet).ok(),
        None => None,
    }
}

/// The eligibility and the demands of a bidder, if there is a bidder of this number.
fn own_of<P: Processor>(house: &House<P>, bidder: usize) -> Option<Own<'_>> {
    let Ok(bidder) = u32::try_from(bidder) else {
        return None;
    };
    if has_bidder(house, bidder) {
        Some(house.own(bidder))
    } else {
        None
    }
}

/// The eligibility of a bidder, if there is a bidder of this number.
fn eligibility_of<P: Processor>(house: &House<P>, bidder: usize) -> Option<u64> {
    match own_of(house, bidder) {
        Some(own) => Some(own.eligibility),
        None => None,
    }
}

/// The processed demands of the first bidders, row by row.
fn demands_held<P: Processor>(alloc: Global, house: &House<P>, bidders: usize) -> Option<Amounts> {
    let mut all = Amounts::new(alloc);
    for bidder in 0..bidders {
        let Some(own) = own_of(house, bidder) else {
            return None;
        };
        if push_demands(&mut all, own.demands).is_err() {
            return None;
        }
    }
    Some(all)
}

/// Asserts the eligibilities of bidders, from the first.
fn see_eligible<P: Processor>(rt: &impl Abort, house: &House<P>, at: At, eligibilities: &[u64]) {
    for (bidder, eligibility) in eligibilities.iter().enumerate() {
        assert_is_at(rt, at, eligibility_of(house, bidder), Some(*eligibility));
    }
}

/// Whether a packed row has these numbers.
fn is_packed(row: &PackedRow, numbers: &[u64]) -> bool {
    if row.len() != numbers.len() {
        return false;
    }
    for (product, number) in numbers.iter().enumerate() {
        if row.get(product) != *number {
            return false;
        }
    }
    true
}

/// A bidder's results of a round: round, activity, eligibility, and whether it has these demands.
fn slip_shown<P: Processor>(
    house: &House<P>,
    bidder: u32,
    round: u64,
    demands: &[u64],
) -> Option<(u64, u64, u64, bool)> {
    if !has_bidder(house, bidder) {
        return None;
    }
    let Some(slip) = house.slip(bidder, round) else {
        return None;
    };
    let is_packed = is_packed(&slip.demands, demands);
    Some((slip.round, slip.activity, slip.eligibility, is_packed))
}

/// A bidder's sheet in force, if there is a bidder of this number.
fn bids_of<P: Processor>(house: &House<P>, bidder: u32) -> Option<Option<&[Bid]>> {
    if !has_bidder(house, bidder) {
        return None;
    }
    match house.bids(bidder) {
        Some(sheet) => Some(Some(sheet.bids())),
        None => Some(None),
    }
}

/// Asserts the current round and whether the auction has ended, and that no later round is closed.
fn see_round<P: Processor>(rt: &impl Abort, house: &House<P>, at: At, round: u64, ended: bool) {
    let stands = (house.round(), house.ended());
    let closed = (house.sheet(0).is_some(), house.sheet(round).is_some());
    assert_is_at(rt, at, (stands, closed), ((round, ended), (false, ended)));
}
