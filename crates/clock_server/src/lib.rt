//! A server: it logs accepted texts in a journal before it replies, and resumes from the journal.
//!
//! [`serve_all`] accepts the connections of an [`Acceptor`] one after the other, serves one request
//! on each with a front, and sends each reply to an [`Outlet`]. [`PortAcceptor`] is the acceptor of
//! a port; clock_server_tests has one in memory. A [`RequestLog`] logs the accepted texts: a
//! journal, one that announces closed rounds ([`Announced`]), or [`NoLog`], which logs nothing.
//!
//! [`ReplayedAuction`] takes the texts of a file. [`serve_from`] resumes a journal with it, listens
//! for connections ([`Listen`]), and serves them. [`serve_on`] serves a port without a journal.
#![tactic(auto)]

mod acceptor;
mod generation;
mod laws;
mod request_log;
mod serving;

pub use acceptor::{Acceptor, Connection, Listen, Outlet, PortAcceptor, accept_on};
pub use generation::{
    ReplayedAuction, ServerFault, law_of_generations, law_of_mirrored_generations, serve_from,
    take_text,
};
pub use laws::{law_gets_change_nothing, law_of_served_requests, law_reported_bytes};
pub use request_log::{Announced, Announcer, NoLog, RequestLog};
pub use serving::{ServeFault, serve_all, serve_on};
