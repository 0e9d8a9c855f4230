//! The commands that name files: `serve`, an auction on a port of this machine; `journal`, the
//! texts of a journal; and `audit`, an auction counted again.
#![tactic(auto)]

mod audit;
mod document;
mod files;
mod journal_text;
mod serving;

pub use audit::{Recount, audit_of, tell_audit};
pub use document::{ReadAuction, front_in, read_auction};
pub use journal_text::{list_texts, tell_texts};
pub use serving::{mirrored, serve, serve_fault, serve_read, server_fault};
