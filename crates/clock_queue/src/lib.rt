//! Bid processing by an event queue: after an application, it tests only requests that may have
//! room because of it.
#![tactic(auto)]

mod costs;
mod lines;
mod queue;
mod woken;

pub use queue::{law_of_tests, settle_by_queue};
pub use woken::{Reads, Requests, Woken};
