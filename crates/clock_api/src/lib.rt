//! What a client of the auction sees: its pages, the codes of its replies, and their bytes.
//!
//! - [`Routes`] finds the [`Page`] of a path.
//! - A [`Code`] is the result of a request.
//! - A [`Reply`] is a [`Code`] and the bytes that a client gets.
#![tactic(auto)]

mod code;
mod reply;
mod routes;

pub use code::Code;
pub use reply::{HEADROOM, NoRoom, Reply, text_with_room};
pub use routes::{Page, Routes, last_segment};
