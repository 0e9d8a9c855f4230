ghost use Rattle.std.specs.Prelude.{◌≡◌, ◌++◌, ℕ, List, [], Some, IfOk, IfErr, IfSome, OnErr, OnOk};
ghost use Rattle.std.specs.Prelude.{OnSome, false, is_some, IsSome};
ghost use Rattle.clock_http.specs.{Framing.{needs_more}, Shown.{IsFramed}};
ghost use Rattle.clock_connections.specs.declared.connections.HubFault.TheVariants as faults;
ghost use Rattle.clock_connections.specs.Connections.{open_text, ConnectionFields, IsConnected};
ghost use Rattle.clock_connections.specs.Connections.{IsConnectFault, IsGone, IsTaken};
ghost use Rattle.clock_connections.specs.Connections.{OpenConnection};

use clock_device::{NoMemory, Text};
use clock_http::{Arriving, Framing};
use slab::Slab;
use std::alloc::Global;
use std::marker::Model;
use thiserror::Error;

/// The most connections that are open at once.
const MOST_CONNECTIONS: usize = 256;

/// The identifier of a connection. No two connections of these `Connections` have the same one.
#[derive(Clone, Copy, Debug, PartialEq, Eq)]
pub struct Conn {
    slot: usize,
    serial: u64,
}

/// An open connection: its serial number, and the bytes of its request so far.
#[derive(Drop)]
pub(crate) struct Partial {
    serial: u64,
    text: Arriving,
}

impl Model for Partial {
    ghost Value = { OpenConnection };

    ghost view = { λ p. record { serial = p.serial; text = p.text } };
}

/// Why a connection was not opened, or a piece not appended. Nothing has changed.
///
/// - `Full`: 256 connections are open, or all serial numbers are used.
/// - `NoMemory`: out of memory.
/// - `Unknown`: the connection is not open: it was never opened here, or its request was answered.
#[derive(Clone, Copy, Debug, PartialEq, Eq, Error)]
pub enum HubFault {
    #[error("no more connections")]
    Full,
    #[error("out of memory")]
    NoMemory,
    #[error("no such connection")]
    Unknown,
}

impl From<NoMemory> for HubFault {
    ghost from_gives = { λ _ fault. fault ≡ faults.NoMemory };

    fn from(_e: NoMemory) -> HubFault {
        HubFault::NoMemory
    }
}

/// The open connections, each with the bytes of its request so far.
#[derive(Drop)]
pub struct Connections {
    alloc: Global,
    slab: Slab<Partial>,
    next: u64,
}

impl Model for Connections {
    ghost Value = { ConnectionFields };

    ghost view = { λ c. record { slots = c.slab.slots; next = c.next } };
}

impl Connections {
    /// Creates a value without connections. Allocates nothing.
    pub fn new(alloc: Global) -> Connections
        ensures { result ≡ record { slots = []; next = 0 } }
    {
        Connections {
            alloc,
            slab: Slab::new(alloc),
            next: 0,
        }
    }

    /// Opens a connection with the next serial number and without bytes. Errors: `Full`, or
    /// `NoMemory`; then nothing has changed.
    pub fn connect(&mut self) -> Result<Conn, HubFault>
        ensures connected { IfOk result (IsConnected self.old self.new) }
        ensures fault { IfErr result (IsConnectFault self.old) }
        ensures still { OnErr result (self.new ≡ self.old) }
    {
        if self.slab.len() >= MOST_CONNECTIONS || self.next == u64::MAX {
            return Err(HubFault::Full);
        }
        let serial = self.next;
        let text = Arriving::new(self.alloc);
        let partial = Partial { serial, text };
        let slot = self.slab.insert(partial).or(Err(HubFault::NoMemory))?;
        self.next += 1;
        Ok(Conn { slot, serial })
    }

    /// Returns whether a connection is open.
    #[inline(always)]
    pub fn stands(&self, conn: Conn) -> bool
        ensures { result ≡ is_some (open_text self.now conn) }
    {
        self.slab
            .get(conn.slot)
            .is_some_and(|partial| partial.serial == conn.serial)
    }

    /// Appends `piece` to the connection's request, all of it or nothing, and returns whether the
    /// request needs more bytes. Requires an open connection. May return `NoMemory`; then nothing
    /// has changed.
    #[inline(always)]
    pub fn take(&mut self, conn: Conn, piece: &[u8]) -> Result<bool, NoMemory>
        requires { IsSome (open_text self.old conn) }
        ensures taken { (text : List ℕ) → open_text self.old conn ≡ Some text
            → OnOk result (IsTaken self.old self.new conn (text ++ piece.now)) }
        ensures short { (text : List ℕ) → open_text self.old conn ≡ Some text
            → IfOk result (λ short. short ≡ needs_more (text ++ piece.now)) }
        ensures err { OnErr result (self.new ≡ self.old) }
    {
        self.slab[conn.slot].text.take(piece)
    }

    /// Returns the framing of the connection's bytes followed by `piece`, if the bytes are exactly
    /// a head and `piece` has its whole body. Otherwise returns `None`. Requires an open
    /// connection. Appends nothing.
    pub fn framing_with<'a>(&'a self, conn: Conn, piece: &'a [u8]) -> Option<Framing<'a>>
        requires { IsSome (open_text self.now conn) }
        ensures is { (text : List ℕ) → open_text self.now conn ≡ Some text
            → IfSome result (IsFramed (text ++ piece.now)) }
        ensures whole { (text : List ℕ) → open_text self.now conn ≡ Some text
            → OnSome result (needs_more (text ++ piece.now) ≡ false) }
    {
        self.slab[conn.slot].text.framing_with(piece)
    }

    /// Closes a connection and returns the bytes of its request. Requires an open connection.
    pub fn remove(&mut self, conn: Conn) -> Arriving
        requires { IsSome (open_text self.old conn) }
        ensures text { open_text self.old conn ≡ Some result }
        ensures gone { IsGone self.old self.new conn }
    {
        self.slab.remove(conn.slot).text
    }
}

/// An event on a connection. Connections are numbered from 0 in the order of their `Connect`
/// events, and refused ones count.
///
/// - `Connect`: a client connects. Refused if 256 connections are open.
/// - `Piece`: bytes of a connection's request.
/// - `Finish`: the end of a connection's input.
///
/// A piece or an end has no effect if the connection was refused, its request was answered, or it
/// has not connected yet.
#[derive(Drop)]
pub enum Event {
    Connect,
    Piece(u64, Text),
    Finish(u64),
}
