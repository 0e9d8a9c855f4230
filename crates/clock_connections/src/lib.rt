//! Requests while they arrive, before it is known whose they are.
//!
//! [`Connections`] has the bytes so far of each open connection, an [`Event`] says what happens
//! next, and [`read_request`] reads one request from a source, no further than necessary.
#![tactic(auto)]

mod arrival;
mod connections;

pub use arrival::{RequestReadError, law_of_arrivals, read_request};
pub use connections::{Conn, Connections, Event, HubFault};
