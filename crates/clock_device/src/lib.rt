//! Lists, input and output of bytes, and the out-of-memory error: the base of all other crates of
//! the auction.
#![tactic(auto)]

mod buffer;
mod decimal;
mod items;
mod memory;
mod stream;
mod text_sink;

pub use buffer::Buffer;
pub use decimal::{put_before, write_number};
pub use items::{Bounded, Items, NoMemory, Text};
pub use memory::{ListSink, ListSource};
pub use stream::{Failed, FromReader, Sink, Source, Stop, ToWriter, room_for_read, write_all};
pub use text_sink::TextSink;
