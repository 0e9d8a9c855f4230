//! The pages of an auction in its current state.

use crate::auction::{X, has_bidder};
use clock_device::Text;
use clock_house::House;
use clock_processor::Processor;
use clock_views::{account_page, bids_page, results_page, sheet_page, slip_page};
use std::alloc::Global;

/// A page of an auction. A bidder's page is X's.
#[derive(Clone, Copy)]
pub enum Page {
    Account,
    Bids,
    /// The bidder results of a round.
    Slip(u64),
    /// The round results of a round.
    Sheet(u64),
    Results,
}

/// The page of X's bidder results of a closed round.
fn slip_of<P: Processor>(alloc: Global, house: &House<P>, round: u64) -> Option<Text> {
    if !has_bidder(house, X) {
        return None;
    }
    match house.slip(X, round) {
        Some(slip) => slip_page(alloc, slip).ok(),
        None => None,
    }
}

/// The page of the round results of a closed round.
fn sheet_of<P: Processor>(alloc: Global, house: &House<P>, round: u64) -> Option<Text> {
    match house.sheet(round) {
        Some(sheet) => sheet_page(alloc, house.setup(), sheet).ok(),
        None => None,
    }
}

/// A page of an auction in its current state, if there is one.
pub fn page_of<P: Processor>(alloc: Global, house: &House<P>, page: Page) -> Option<Text> {
    if !has_bidder(house, X) {
        return None;
    }
    match page {
        Page::Account => account_page(alloc, house.setup(), X, house.own(X), house.ended()).ok(),
        Page::Bids => bids_page(alloc, house.round(), house.bids(X)).ok(),
        Page::Slip(round) => slip_of(alloc, house, round),
        Page::Sheet(round) => sheet_of(alloc, house, round),
        Page::Results => results_page(alloc, house).ok(),
    }
}
