//! Rehearsals: auctions with scripted bidders.
//!
//! [`simulate`] plays a [`Replay`]. It sends each sheet and closing to the front as the bytes of a
//! live request, so a scripted bidder takes the same path as a live one.
#![tactic(auto)]

// The public surface: names of other crates that callers of a replay need.
pub use clock_replays::{Replay, ScriptFault, read_replay};
pub use clock_reports::{Report, report_text};
pub use clock_scripts::SimFault;

mod rounds;
mod simulation;

pub use simulation::{PlayedReplay, play_replay, simulate, simulate_with};
