//! The closing of a round: its bids are processed, and give the round results, the bidder results,
//! and the prices of the next round.
//!
//! An [`OpenRound`] is the whole input of a closing, and [`OpenRound::close`] computes it. It does
//! not depend on earlier rounds, or on who submitted which sheet when.
#![tactic(auto)]

mod closed_round;
mod fault;
mod open_round;

pub use closed_round::{ClosedRound, Prepared, Results, Slip, Slips};
pub use fault::CloseFault;
pub use open_round::OpenRound;
