//! The program's command line: its arguments and help, its faults and the line that reports each,
//! reading a document, and what `prices` and `opening` answer to it.
#![tactic(auto)]

mod commands;
mod fault;
mod help;
mod input;
mod prices;
mod words;

pub use fault::{Fault, write_fault};
pub use input::read_all;
pub use prices::{opening_answer, prices_answer, setup_in};
pub use words::{Asked, Job, NamedFiles, Serving, read_words};
