ghost use Rattle.std.specs.Prelude.{◌≡◌, ◌↔◌, List, IfErr, OnOk, None, false, true};
ghost use Rattle.clock_device.specs.Reports.{IsUnread, IsUnused};
ghost use Rattle.clock_server.specs.Keeping.{GrowsBy, no_journal};
ghost use Rattle.clock_server.specs.Exchanges.{Came, Exchange, bytes_given};
ghost use Rattle.clock_server.specs.Serving.{EndsServing};
ghost use Rattle.clock_server.specs.inside.Served.{EndsTaken};

use crate::acceptor::{Acceptor, Connection, Outlet, PortAcceptor};
use crate::request_log::{NoLog, RequestLog};
use clock_connections::{RequestReadError, read_request};
use clock_device::{Failed, Source};
use clock_front::{Effect, Front, Response, no_memory_reply};
use clock_processor::Processor;
use std::alloc::Global;
use std::net::TcpListener;
use thiserror::Error;

/// Why not all connections were served. Those before the fault were.
///
/// - `Accept`: a connection could not be accepted.
/// - `Journal`: the text of the last connection could not be logged. That connection got no reply.
///   Do not use the front and the log afterward.
#[derive(Clone, Copy, Debug, PartialEq, Eq, Error)]
pub enum ServeFault {
    #[error("a connection could not be accepted")]
    Accept,
    #[error("a text could not be logged")]
    Journal,
}

/// Reads one request, answers it, logs it if it changed the auction, and sends the reply. Returns
/// what the request changed. If memory for the request ran out, the reply says so. If reading
/// failed, or the text could not be logged, nothing is sent.
fn serve_one<P: Processor, K: RequestLog, R: Source, W: Outlet>(
    alloc: Global,
    front: &mut Front<P>,
    log: &mut K,
    one: &mut Connection<R, W>,
) -> Result<Effect, Failed>
    requires unread { IsUnread (R.report one.old.source) }
    requires unused { IsUnused (W.report one.old.sink) }
    requires unlogged { W.logged one.old.sink ≡ None }
    requires unfailed { (K.journal log.old).has_failed ≡ false }
    ensures served { EndsTaken (record {
      reading = record { before = R.report one.old.source; after = R.report one.new.source };
      writing = record { before = W.report one.old.sink; after = W.report one.new.sink };
      logged = W.logged one.new.sink;
    }) (K.journal log.old) (K.journal log.new) front.old front.new result }
    ensures unfailed { OnOk result ((K.journal log.new).has_failed ≡ false) }
    ensures rounds { K.rounds log.new ≡ K.rounds log.old }
    ensures setup { front.new.setup ≡ front.old.setup }
{
    let response = match read_request(alloc, &mut one.source) {
        Ok(request) => {
            let response = front.respond(request.framing());
            if response.effect != Effect::Nothing {
                log.log(request.as_slice())?;
            }
            response
        }
        Err(RequestReadError::Memory) => Response {
            reply: no_memory_reply(),
            effect: Effect::Nothing,
        },
        Err(RequestReadError::Read) => return Ok(Effect::Nothing),
    };
    one.sink.reply(log, response.reply.bytes());
    Ok(response.effect)
}

/// Serves `count` connections, one after the other, with one request each. If reading or writing
/// fails, only that connection ends.
///
/// Requires a log whose journal has not failed, and connections of which none is open and none
/// has failed.
///
/// Errors: [`ServeFault::Accept`] or [`ServeFault::Journal`], at the first connection with this
/// fault. Waits for each connection, and for each client, without a limit.
pub fn serve_all<P: Processor, K: RequestLog, C: Acceptor>(
    alloc: Global,
    front: &mut Front<P>,
    log: &mut K,
    connections: &mut C,
    count: u64,
) -> Result<(), ServeFault>
    requires unfailed { (K.journal log.old).has_failed ≡ false }
    requires closed { C.offer connections.old ≡ None }
    requires taken { C.has_failed connections.old ≡ false }
    ensures served { (exchanges : List Exchange)
        × GrowsBy (C.closed connections.old) (C.closed connections.new) exchanges
        × Came (C.coming connections.old) (C.coming connections.new) (bytes_given exchanges)
        × EndsServing count exchanges (K.rounds log.old) (K.rounds log.new) (K.journal log.old)
        (K.journal log.new) front.old front.new result }
    ensures closed { C.offer connections.new ≡ None }
    ensures taken { OnOk result (C.has_failed connections.new ≡ false) }
    ensures refused { IfErr result
        (λ fault. (C.has_failed connections.new ≡ true) ↔ (fault ≡ ServeFault.Accept)) }
    ensures setup { front.new.setup ≡ front.old.setup }
{
    for _connection in 0..count {
        let Ok(mut one) = connections.accept() else {
            return Err(ServeFault::Accept);
        };
        let served = serve_one(alloc, front, log, &mut one);
        connections.close(one);
        let Ok(changed) = served else {
            return Err(ServeFault::Journal);
        };
        if let Effect::Closing(round) = changed {
            log.round_closed(round);
        }
    }
    Ok(())
}

/// Like [`serve_all`], for the connections of a port, and logs nothing.
pub fn serve_on<P: Processor>(
    alloc: Global,
    front: &mut Front<P>,
    listener: &TcpListener,
    connections: u64,
) -> Result<(), ServeFault>
    ensures served { (exchanges : List Exchange) × EndsServing connections exchanges None None
        no_journal no_journal front.old front.new result }
    ensures setup { front.new.setup ≡ front.old.setup }
{
    let mut port = PortAcceptor::new(listener);
    serve_all(alloc, front, &mut NoLog, &mut port, connections)
}
