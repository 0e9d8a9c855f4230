ghost use Rattle.std.specs.Prelude.{◌≡◌, ◌≤◌, ◌+◌, [], ◌∷◌, drop, length, map, IfOk, MatchBool};
ghost use Rattle.std.specs.Prelude.{IsSome, None, Some, false, if◌then◌else◌};
ghost use Rattle.clock_device.specs.{Reports.{unread, unused}, SourceState.{source_report}};
ghost use Rattle.clock_device.specs.SinkState.{sink_report};
ghost use Rattle.clock_server.specs.{Exchanges.{Exchange, Offer}, Keeping.{GrowsBy}};
ghost use Rattle.clock_server_tests.specs.MemoryAcceptor.{MemoryAcceptorState};

use clock_device::{Bounded, Failed, Items, ListSink, ListSource, NoMemory, Stop};
use clock_journal::Recovered;
use clock_server::{Acceptor, Connection, Listen};
use std::alloc::Global;
use std::marker::Model;

/// A client of a connection in memory: what it sends, and what it takes.
///
/// It sends its bytes, one read gives at most a number of them, and at one read they stop. It takes
/// a number of bytes in all, one write at most a number of them, and one write fails. A read and a
/// write are of one byte at least, and are counted from 0.
#[derive(Clone, Copy)]
pub struct Client<'a> {
    pub bytes: &'a [u8],
    pub read: usize,
    pub read_stop: Option<(u64, Stop)>,
    pub room: usize,
    pub write: usize,
    pub write_stop: Option<u64>,
}

/// A connection in memory that was closed. Contracts see the bytes that were read and sent on it.
#[derive(Drop)]
pub struct Closed<'a> {
    offered: &'a [u8],
    source: ListSource<'a>,
    sink: ListSink,
}

impl<'a> Model for Closed<'a> {
    ghost Value = { Exchange };

    ghost view = { λ c. record {
      reading = record { before = unread (Some c.offered.now); after = source_report c.source };
      writing = record { before = unused (Some []); after = sink_report c.sink };
      logged = None;
    } };
}

impl<'a> Closed<'a> {
    /// The bytes that were written on it.
    pub fn written(&self) -> &[u8]
        ensures { Some result.now ≡ self.now.writing.after.taken }
    {
        self.sink.bytes()
    }
}

/// Connections in memory: one for each of these clients, in order. If none is left, accepting one
/// fails. Contracts see the bytes of the clients that are still to come.
#[derive(Drop)]
pub struct MemoryAcceptor<'a> {
    alloc: Global,
    clients: &'a [Client<'a>],
    next: usize,
    is_open: bool,
    offered: &'a [u8],
    closed: Bounded<Closed<'a>>,
    has_failed: bool,
}

impl<'a> Model for MemoryAcceptor<'a> {
    ghost Value = { MemoryAcceptorState };

    ghost view = { λ l. record {
      coming = map (λ client. client.bytes.now) (drop l.next l.clients.now);
      offer = if l.is_open then Some (record {
        source = unread (Some l.offered.now);
        sink = unused (Some []);
      }) else None;
      closed = l.closed.items;
      has_failed = l.has_failed;
    } };

    ghost invariant = { λ l. (l.next ≤ length l.clients.now)
        × (length l.clients.now ≤ l.next + l.closed.room)
        × MatchBool l.is_open (length l.clients.now + 1 ≤ l.next + l.closed.room) (Unit {0}) };
}

impl<'a> MemoryAcceptor<'a> {
    /// Makes the connections of these clients, of which none has been accepted.
    pub fn new(alloc: Global, clients: &'a [Client<'a>]) -> Result<MemoryAcceptor<'a>, NoMemory>
        ensures { IfOk result (λ listed. listed ≡ record {
          coming = map (λ client. client.bytes.now) clients.now;
          offer = None;
          closed = [];
          has_failed = false;
        }) }
    {
        Ok(MemoryAcceptor {
            alloc,
            clients,
            next: 0,
            is_open: false,
            offered: &[],
            closed: Items::with_capacity(alloc, clients.len())?,
            has_failed: false,
        })
    }

    /// The connections that were closed, in order.
    pub fn closed(&self) -> &[Closed<'a>]
        ensures { result.now ≡ self.now.closed }
    {
        self.closed.as_slice()
    }
}

/// Listening for connections in memory has no fault.
#[derive(Clone, Copy, Debug, PartialEq, Eq)]
pub struct NoFault;

impl Listen for MemoryAcceptor<'_> {
    type Fault = NoFault;

    fn listen(&mut self, _recovered: Recovered) -> Result<(), NoFault> {
        Ok(())
    }
}

impl<'a> Acceptor for MemoryAcceptor<'a> {
    type Reader = ListSource<'a>;

    type Writer = ListSink;

    ghost coming = { λ listed. Some listed.coming };

    ghost offer = { λ listed. listed.offer };

    ghost closed = { λ listed. Some listed.closed };

    ghost has_failed = { λ listed. listed.has_failed };

    fn accept(&mut self) -> Result<Connection<ListSource<'a>, ListSink>, Failed> {
        let Some(client) = self.clients.get(self.next) else {
            self.has_failed = true;
            return Err(Failed);
        };
        let write = client.write.max(1);
        let Ok(sink) = ListSink::new(self.alloc, client.room, write, client.write_stop) else {
            self.has_failed = true;
            return Err(Failed);
        };
        self.next += 1;
        self.is_open = true;
        self.offered = client.bytes;
        Ok(Connection {
            source: ListSource::new(client.bytes, client.read.max(1), client.read_stop),
            sink,
        })
    }

    fn close(&mut self, connection: Connection<ListSource<'a>, ListSink>)
        requires { IsSome self.old.offer }
        ensures open { self.new.offer ≡ None }
        ensures coming { self.new.coming ≡ self.old.coming }
        ensures failed { self.new.has_failed ≡ self.old.has_failed }
        ensures closed { (given : Offer) → self.old.offer ≡ Some given
            → GrowsBy (Some self.old.closed) (Some self.new.closed) (record {
              reading = record {
                before = given.source;
                after = source_report connection.entry.source;
              };
              writing = record { before = given.sink; after = sink_report connection.entry.sink };
              logged = None;
            } ∷ []) }
    {
        self.is_open = false;
        self.closed.push(Closed {
            offered: self.offered,
            source: connection.source,
            sink: connection.sink,
        });
    }
}
