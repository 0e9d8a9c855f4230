//! Replay documents, which describe a rehearsal: a set-up, a script for each bidder, and the
//! closings in order. What a document means, and its first fault.
#![tactic(auto)]

mod first_version;
mod limit_lists;
mod read;
mod replay;

pub use first_version::law_of_first_version;
pub use limit_lists::LimitLists;
pub use read::read_replay;
pub use replay::{BidList, Closing, Closings, Replay, Script, ScriptFault, Scripts, SheetList};
