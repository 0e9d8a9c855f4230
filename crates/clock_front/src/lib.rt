//! An auction that answers requests: who sent each, what it changes, and the bytes of its reply.
//!
//! [`Front::answer`] answers one request, and [`run`] a list of them. [`Hub`] takes requests that
//! arrive in pieces over several connections at once, and [`run_events`] takes a list of such
//! pieces. [`serve_stream`] reads one request from a source, and writes the reply to a sink.
//! clock_http decides where a request ends, by its bytes only.
#![tactic(auto)]

// The public surface: names of other crates that callers of a front or a hub need.
pub use clock_api::Reply;
pub use clock_bodies::{BodyFault, CloseBody, PutBody, read_close, read_put};
pub use clock_connections::{Conn, Event, HubFault};
pub use clock_http::{Framing, Head, frame};

mod front;
mod hub;
mod runs;
mod stream;

pub use front::{AnswerError, Effect, Front, Response, no_memory_reply};
pub use hub::{Fed, Hub};
pub use runs::{EventReplies, EventReply, Replies, run, run_events};
pub use stream::{StreamFault, serve_stream};
