ghost use Rattle.std.specs.Prelude.{◌≡◌, ℕ, true, List, [], Some, IfOk, IfErr, OnErr, OnOk, IsSome};
ghost use Rattle.clock_front.specs.Fronts.{IsCutShort};
ghost use Rattle.clock_front.specs.Hubs.{HubFields, IsFedBy, IsFeedFault, IsAnswered};
ghost use Rattle.clock_front.specs.Hubs.{IsFinishFault};
ghost use Rattle.clock_front.specs.inside.Hubs.{hub_of};
ghost use Rattle.clock_http.specs.Framing.{needs_more};
ghost use Rattle.clock_connections.specs.declared.connections.HubFault.TheVariants as faults;
ghost use Rattle.clock_connections.specs.inside.Waiting.{AllNeedMore};
ghost use Rattle.clock_connections.specs.Connections.{open_text, IsConnected, IsConnectFault};

use crate::front::Front;
use clock_api::Reply;
use clock_connections::{Conn, Connections, HubFault};
use clock_processor::Processor;
use std::alloc::Global;
use std::marker::Model;

/// What a piece of a request led to.
#[derive(Drop)]
pub enum Fed {
    /// The request is incomplete, and its connection is still open.
    More,
    /// The request was answered, and its connection is gone.
    Reply(Reply),
}

/// A front whose requests arrive in pieces, over up to 256 connections at once.
///
/// In contracts, a hub is the house of its front, and its open connections with the bytes that came
/// over each. A connection carries one request, and is gone with its reply, even if that is out of
/// memory.
#[derive(Drop)]
pub struct Hub<P> {
    front: Front<P>,
    connections: Connections,
}

impl<P> Model for Hub<P> {
    ghost Value = { HubFields };

    ghost view = { λ h. record { house = h.front; connections = h.connections } };

    ghost invariant = { λ h. AllNeedMore h.connections };
}

/// Answers the request of a connection, and removes the connection. Requires an open connection.
#[inline(never)]
fn complete<P: Processor>(front: &mut Front<P>, connections: &mut Connections, conn: Conn) -> Reply
    requires { IsSome (open_text connections.old conn) }
    ensures answered { (text : List ℕ) → open_text connections.old conn ≡ Some text → IsAnswered
        (hub_of front.old connections.old) (hub_of front.new connections.new) conn text result }
    ensures cut_short { (text : List ℕ) → open_text connections.old conn ≡ Some text
        → needs_more text ≡ true → IsCutShort result }
{
    let request = connections.remove(conn);
    front.answer_framed(request.framing())
}

impl<P: Processor> Hub<P> {
    /// Creates a hub without connections. Allocates nothing.
    pub fn new(alloc: Global, front: Front<P>) -> Hub<P>
        ensures { result ≡ record { house = front; connections = record { slots = []; next = 0 } } }
    {
        Hub {
            front,
            connections: Connections::new(alloc),
        }
    }

    /// Opens a connection, whose handle no earlier connection had.
    ///
    /// Errors, in this order: `Full`, if 256 connections are open or all serial numbers are used
    /// up; `NoMemory`. After an error nothing has changed.
    pub fn connect(&mut self) -> Result<Conn, HubFault>
        ensures connected { IfOk result (IsConnected self.old.connections self.new.connections) }
        ensures front { self.new.house ≡ self.old.house }
        ensures fault { IfErr result (IsConnectFault self.old.connections) }
        ensures still { OnErr result (self.new ≡ self.old) }
    {
        self.connections.connect()
    }

    /// Appends a piece to the request of a connection, and answers it if it is now complete.
    /// Requires an open connection. Errors: `NoMemory`, and then nothing has changed.
    #[inline(always)]
    fn feed_on(&mut self, conn: Conn, piece: &[u8]) -> Result<Fed, HubFault>
        requires { IsSome (open_text self.old.connections conn) }
        ensures fed { IfOk result (IsFedBy self.old self.new conn piece.now) }
        ensures fault { IfErr result (λ fault. fault ≡ faults.NoMemory) }
        ensures still { OnErr result (self.new ≡ self.old) }
    {
        if self.connections.take(conn, piece)? {
            return Ok(Fed::More);
        }
        Ok(Fed::Reply(complete(&mut self.front, &mut self.connections, conn)))
    }

    /// Like `feed_on`, but for a piece that is not one byte. If only the head has come and the
    /// piece has the whole body, the request is answered without a copy of the piece. This is a
    /// function of its own so that [`Hub::feed`] stays cheap for single bytes.
    #[inline(never)]
    fn feed_piece(&mut self, conn: Conn, piece: &[u8]) -> Result<Fed, HubFault>
        requires { IsSome (open_text self.old.connections conn) }
        ensures fed { IfOk result (IsFedBy self.old self.new conn piece.now) }
        ensures fault { IfErr result (λ fault. fault ≡ faults.NoMemory) }
        ensures still { OnErr result (self.new ≡ self.old) }
    {
        if let Some(framing) = self.connections.framing_with(conn, piece) {
            let reply = self.front.answer_framed(framing);
            let _answered = self.connections.remove(conn);
            return Ok(Fed::Reply(reply));
        }
        self.feed_on(conn, piece)
    }

    /// Appends a piece to the request of a connection, and answers it like [`Front::answer`] if it
    /// is now complete.
    ///
    /// Errors, in this order: `Unknown`, if the connection is not open; `NoMemory`. After an error
    /// nothing has changed, and the piece can be fed again.
    #[inline(always)]
    pub fn feed(&mut self, conn: Conn, piece: &[u8]) -> Result<Fed, HubFault>
        ensures fed { IfOk result (IsFedBy self.old self.new conn piece.now) }
        ensures stood { OnOk result (IsSome (open_text self.old.connections conn)) }
        ensures fault { IfErr result (IsFeedFault (open_text self.old.connections conn)) }
        ensures still { OnErr result (self.new ≡ self.old) }
    {
        if !self.connections.stands(conn) {
            return Err(HubFault::Unknown);
        }
        match piece {
            [_] => self.feed_on(conn, piece),
            _ => self.feed_piece(conn, piece),
        }
    }

    /// Ends the input of a connection, and returns the reply: its request was cut short, or it
    /// would have been answered before.
    ///
    /// Errors: `Unknown`, if the connection is not open.
    pub fn finish(&mut self, conn: Conn) -> Result<Reply, HubFault>
        ensures answered { (text : List ℕ) → open_text self.old.connections conn ≡ Some text
            → IfOk result (IsAnswered self.old self.new conn text) }
        ensures cut_short { IfOk result IsCutShort }
        ensures stood { OnOk result (IsSome (open_text self.old.connections conn)) }
        ensures fault { IfErr result (IsFinishFault (open_text self.old.connections conn)) }
        ensures still { OnErr result (self.new ≡ self.old) }
    {
        if !self.connections.stands(conn) {
            return Err(HubFault::Unknown);
        }
        Ok(complete(&mut self.front, &mut self.connections, conn))
    }

    /// The front that answers the requests.
    pub fn front(&self) -> &Front<P>
        ensures { result.now ≡ self.now.house }
    {
        &self.front
    }
}
