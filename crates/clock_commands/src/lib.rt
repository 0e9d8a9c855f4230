//! The commands that read one document and print one text. They use a source and two sinks, so that
//! contracts see all bytes.
#![tactic(auto)]

// The public surface: a name of another crate that callers of a command need.
pub use clock_console::Fault;

mod answer;
mod run;

pub use run::{command, parsed_command, show_fault};
