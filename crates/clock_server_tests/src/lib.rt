//! Tests of the front: requests by their bytes, whole, in pieces, and over connections. Tests of
//! the loop of a server: over connections in memory ([`MemoryAcceptor`]), over loopback, and over a
//! disk on which it crashes at each call. Both are in one crate since they make and free the same
//! fronts, and each crate proves at length how it frees one.
#![tactic(auto)]

#[cfg(test)]
mod comparing;
#[cfg(test)]
mod front;
mod memory_acceptor;
#[cfg(test)]
mod repeated;
#[cfg(test)]
mod server;

pub use memory_acceptor::{Client, Closed, MemoryAcceptor};
