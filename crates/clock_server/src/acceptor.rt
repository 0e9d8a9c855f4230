ghost use Rattle.std.specs.Prelude.{◌≡◌, ◌||◌, ◌∷◌, [], if◌then◌else◌, ℕ, Bool, List, Option};
ghost use Rattle.std.specs.Prelude.{IfOk, IsSome, OnErr, is_err, false, Some, None};
ghost use Rattle.clock_device.specs.Reports.{IsUnread, IsUnused, SinkReport, unread, unused};
ghost use Rattle.clock_journal.specs.Logged.{JournalState};
ghost use Rattle.clock_server.specs.Keeping.{GrowsBy};
ghost use Rattle.clock_server.specs.Exchanges.{Came, Exchange, Offer, Sends};

use crate::request_log::RequestLog;
use clock_device::{Failed, FromReader, Sink, Source, ToWriter, write_all};
use clock_journal::Recovered;
use std::net::{TcpListener, TcpStream};

/// The receiver of the reply on one connection, sent in a single call.
///
/// In contracts, an outlet shows what was written, and the journal when the first byte was sent. It
/// shows no journal before that, and need not show it then. None can, since a [`RequestLog`] has no
/// call that reads: this binds only the caller, which is proved for every outlet.
pub trait Outlet {
    ghost report: { Self → SinkReport };

    ghost logged: { Self → Option JournalState };

    /// Sends a reply, or a prefix of it if a write fails. `log` has what is logged at that time.
    ///
    /// Requires that nothing was sent yet.
    fn reply<K: RequestLog>(&mut self, log: &K, bytes: &[u8])
        requires { IsUnused (report self.old) }
        ensures { Sends (record { before = report self.old; after = report self.new })
            (logged self.new) bytes.now (K.journal log.now) };
}

/// Any sink is an outlet, and does not show the journal.
impl<W: Sink> Outlet for W {
    ghost report = { λ sink. W.report sink };

    ghost logged = { λ sink. None };

    fn reply<K: RequestLog>(&mut self, _log: &K, bytes: &[u8]) {
        // a failed write ends only this connection
        let _fault = write_all(self, bytes);
    }
}

/// An accepted connection: where its request comes from, and where its reply goes.
#[derive(Drop)]
pub struct Connection<R, W> {
    pub source: R,
    pub sink: W,
}

/// A source of connections, one after the other, each closed before the next.
///
/// In contracts, an acceptor shows the bytes of the connections still to come, and what was read
/// and sent on each closed one; `None` of `coming` or `closed` means that it does not. No two
/// connections are open at once, so each source and sink belongs to one.
pub trait Acceptor {
    type Reader: Source;

    type Writer: Outlet;

    ghost coming: { Self → Option (List (List ℕ)) };

    /// What the open connection had when it was accepted, if one is open.
    ghost offer: { Self → Option Offer };

    ghost closed: { Self → Option (List Exchange) };

    /// Whether accepting a connection has failed.
    ghost has_failed: { Self → Bool };

    /// Accepts the next connection, and waits for it without a limit. At `Err`, no connection is
    /// open, and none of those to come is lost.
    ///
    /// Requires that no connection is open.
    fn accept(&mut self) -> Result<Connection<Self::Reader, Self::Writer>, Failed>
        requires { offer self.old ≡ None }
        ensures open { IfOk result (λ one. offer self.new ≡ Some (record {
          source = Self.Reader.report one.source;
          sink = Self.Writer.report one.sink;
        })) }
        ensures unread { IfOk result (λ one. IsUnread (Self.Reader.report one.source)) }
        ensures unused { IfOk result (λ one. IsUnused (Self.Writer.report one.sink)) }
        ensures unlogged { IfOk result (λ one. Self.Writer.logged one.sink ≡ None) }
        ensures came { IfOk result (λ one. Came (coming self.old) (coming self.new)
            ((Self.Reader.report one.source).left ∷ [])) }
        ensures still { OnErr result (coming self.new ≡ coming self.old) }
        ensures none { OnErr result (offer self.new ≡ None) }
        ensures closed { closed self.new ≡ closed self.old }
        ensures failed { has_failed self.new ≡ (has_failed self.old || is_err result) };

    /// Closes the open connection.
    fn close(&mut self, connection: Connection<Self::Reader, Self::Writer>)
        requires { IsSome (offer self.old) }
        ensures open { offer self.new ≡ None }
        ensures coming { coming self.new ≡ coming self.old }
        ensures failed { has_failed self.new ≡ has_failed self.old }
        ensures closed { (given : Offer) → offer self.old ≡ Some given
            → GrowsBy (closed self.old) (closed self.new) (record {
              reading = record {
                before = given.source;
                after = Self.Reader.report connection.source;
              };
              writing = record { before = given.sink; after = Self.Writer.report connection.sink };
              logged = Self.Writer.logged connection.sink;
            } ∷ []) };
}

/// A source of connections that begins to listen when a journal was resumed, such as a port.
pub trait Listen: Acceptor {
    /// Why it does not listen.
    type Fault;

    /// Begins to listen, and accepts no connection. `recovered` is what the journal had.
    ///
    /// Requires that no connection is open. At `Err`, it does not listen; accept no connection.
    fn listen(&mut self, recovered: Recovered) -> Result<(), Self::Fault>
        requires { Self.offer self.old ≡ None }
        ensures open { Self.offer self.new ≡ None }
        ensures coming { Self.coming self.new ≡ Self.coming self.old }
        ensures closed { Self.closed self.new ≡ Self.closed self.old }
        ensures failed { Self.has_failed self.new ≡ Self.has_failed self.old };
}

/// Accepts the next connection of a port.
pub fn accept_on(
    listener: &TcpListener,
) -> Result<Connection<FromReader<TcpStream>, ToWriter<TcpStream>>, Failed>
    ensures source { IfOk result
        (λ one. ⟦<FromReader<TcpStream> as Source>⟧.report one.source ≡ unread None) }
    ensures sink { IfOk result
        (λ one. ⟦<ToWriter<TcpStream> as Sink>⟧.report one.sink ≡ unused None) }
{
    let Ok((stream, _peer)) = listener.accept() else {
        return Err(Failed);
    };
    let Ok(reader) = stream.try_clone() else {
        return Err(Failed);
    };
    let (source, sink) = (FromReader::new(reader), ToWriter::new(stream));
    Ok(Connection { source, sink })
}

/// The connections of a TCP port. In contracts, it shows no bytes, since sockets show none.
#[derive(Drop)]
pub struct PortAcceptor<'a> {
    listener: &'a TcpListener,
    is_open: bool,
    has_failed: bool,
}

impl<'a> PortAcceptor<'a> {
    /// Returns the port's connections, before the first is accepted.
    pub fn new(listener: &'a TcpListener) -> PortAcceptor<'a>
        ensures open { ⟦<PortAcceptor<'a> as Acceptor>⟧.offer result ≡ None }
        ensures closed { ⟦<PortAcceptor<'a> as Acceptor>⟧.closed result ≡ None }
        ensures unfailed { ⟦<PortAcceptor<'a> as Acceptor>⟧.has_failed result ≡ false }
    {
        PortAcceptor {
            listener,
            is_open: false,
            has_failed: false,
        }
    }
}

impl Acceptor for PortAcceptor<'_> {
    type Reader = FromReader<TcpStream>;

    type Writer = ToWriter<TcpStream>;

    ghost coming = { λ listening. None };

    ghost offer = { λ listening. if listening.is_open then Some (record {
      source = unread None;
      sink = unused None;
    }) else None };

    ghost closed = { λ listening. None };

    ghost has_failed = { λ listening. listening.has_failed };

    fn accept(&mut self) -> Result<Connection<FromReader<TcpStream>, ToWriter<TcpStream>>, Failed> {
        let Ok(one) = accept_on(self.listener) else {
            self.has_failed = true;
            return Err(Failed);
        };
        self.is_open = true;
        Ok(one)
    }

    fn close(&mut self, connection: Connection<FromReader<TcpStream>, ToWriter<TcpStream>>)
        ensures open { self.new.is_open ≡ false }
        ensures failed { self.new.has_failed ≡ self.old.has_failed }
    {
        self.is_open = false;
        drop(connection);
    }
}
