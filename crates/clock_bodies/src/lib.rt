//! The bodies of the requests that submit a sheet or close a round: what they mean as JSON, and
//! their first faults.
#![tactic(auto)]

mod body;
mod close_body;
mod compact_bid;
mod put_body;

pub use body::BodyFault;
pub use close_body::{
    CloseBody, FoundClose, ScannedClose, TieReader, increments_of, is_of_version, read_close,
};
pub use put_body::{BidReader, PutBody, read_put};
