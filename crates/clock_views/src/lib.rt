//! Writes the pages of an auction as compact JSON.
//!
//! | page | who sees it |
//! |---|---|
//! | [`status_page`], [`products_page`], [`sheet_page`] | everyone |
//! | [`account_page`], [`bids_page`], [`accepted_page`], [`slip_page`] | a bidder, its own |
//! | [`closed_page`], [`results_page`] | the operator |
//! | [`refusal_page`] | who sent the refused request |
//!
//! The contract of a page names its JSON value (specs/). The page is the compact text of this
//! value. For a page without arrays, the contract also has the bytes.
//!
//! Each page is written into memory that is reserved once. How much depends only on the shape of
//! the page. No tree of values is built. `headed_status` and others write the page after the head
//! of a reply.
#![tactic(auto)]

// The public surface: a name of another crate that callers of these pages need.
pub use clock_api::Code;

mod capacities;
mod pages;
mod pieces;
mod refusal;

pub use pages::{
    accepted_page, account_page, bids_page, closed_page, headed_accepted, headed_account,
    headed_bidder_results, headed_bids, headed_closed, headed_results, headed_round_results,
    headed_status, products_page, results_page, sheet_page, slip_page, status_page,
};
pub use pieces::Headed;
pub use refusal::{Refusal, headed_refusal, refusal_page};
