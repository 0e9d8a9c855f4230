//! Requests, hubs, and streams, from their bytes to those of their replies.
mod answers;
mod bodies;
mod endless;
mod events;
pub(crate) mod example;
mod framing;
mod heads;
mod hostile;
mod hubs;
mod isolation;
mod pieces;
mod requests;
mod routes;
mod streams;
