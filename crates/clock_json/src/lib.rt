//! Reads JSON texts (RFC 8259) in two ways, which agree.
//!
//! - By bytes, without a tree of values, if the text has the expected shape. The result is then
//!   what `serde_json` reads. No result says nothing about the text.
//! - By the tree of `serde_json` ([`tree`]), which decides every text.
#![tactic(auto)]

mod compact;
mod digits;
mod parts;
mod room;
mod rows;
mod scan;
pub mod tree;
mod words;

pub use compact::{CompactPart, CompactTriple, has_both, has_room};
pub use digits::{digit_before, digits_up_to, uneven_digits_at};
pub use parts::{PartReader, ScannedMembers, scanned_parts, scanned_text};
pub use room::{push, with_room};
pub use rows::{ShortRows, short_rows};
pub use scan::{Scan, ScanStop};
pub use words::{is_blank, is_key};
