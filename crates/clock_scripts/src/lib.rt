//! Writes the requests of scripted bidders and their operator, as live ones would send them.
#![tactic(auto)]

mod bodies;
mod fault;
mod prefixes;
mod requests;
mod sincere;

pub use fault::SimFault;
pub use prefixes::BidPrefixes;
pub use requests::{Written, write_close, write_put};
