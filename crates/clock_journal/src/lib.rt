//! A journal of request texts, which survives a crash.
#![tactic(auto)]

mod durable;
mod format;
mod journal;
mod mirror;
mod reading;
mod recovery;

pub use durable::{Durable, FileDisk};
pub use format::{Link, MOST_TEXT, digest_of};
pub use journal::{EndedJournal, Journal, NewJournal, law_of_journals};
pub use mirror::{LevelFault, Mirror, law_of_mirrors, level};
pub use reading::recover_from;
pub use recovery::{JournalFault, Machine, Record, Recovered, TakeError, recover};
