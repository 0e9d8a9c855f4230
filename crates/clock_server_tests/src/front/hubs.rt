//! Calls of a hub, with results that tests compare.
use crate::comparing::made_at;
use crate::front::example::opened;
use clock_device::{NoMemory, Text};
use clock_fixtures::ONE_PRODUCT;
use clock_front::{Conn, Fed, Hub, HubFault, Reply};
use clock_processor::Plain;
use std::alloc::Global;
use std::process::Abort;

/// Calls `act` on a hub for one product, without connections. Only here do the tests drop a hub.
pub(super) fn on_hub<T, F: FnOnce(&mut Hub<Plain>) -> T>(
    rt: &impl Abort,
    alloc: Global,
    act: F,
) -> T
    requires { F.IsAlwaysCallable act }
{
    let front = made_at(rt, ONE_PRODUCT, opened(alloc, ONE_PRODUCT).ok());
    let mut hub = Hub::new(alloc, front);
    let done = act(&mut hub);
    drop(hub);
    done
}

/// Opens one more connection.
pub(super) fn connected(hub: &mut Hub<Plain>) -> Result<Conn, HubFault> {
    hub.connect()
}

/// The bytes of a reply.
pub(super) fn bytes_of(alloc: Global, reply: Reply) -> Result<Text, NoMemory> {
    let bytes = Text::from_slice(alloc, reply.bytes());
    drop(reply);
    bytes
}

/// The reply to the request that a piece completes, or `None` if more is needed.
pub(super) fn fed(
    alloc: Global,
    hub: &mut Hub<Plain>,
    conn: Conn,
    piece: &[u8],
) -> Result<Option<Text>, HubFault> {
    match hub.feed(conn, piece)? {
        Fed::More => Ok(None),
        Fed::Reply(reply) => Ok(Some(bytes_of(alloc, reply)?)),
    }
}

/// The reply to a request whose input ends.
pub(super) fn finished(alloc: Global, hub: &mut Hub<Plain>, conn: Conn) -> Result<Text, HubFault> {
    let reply = hub.finish(conn)?;
    Ok(bytes_of(alloc, reply)?)
}
