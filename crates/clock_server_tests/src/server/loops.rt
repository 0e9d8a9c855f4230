//! The loop of a server over connections in memory: what is written on each, if one fails, and if a
//! request can't be logged.
ghost use Rattle.std.specs.Prelude.{◌≡◌, IfSome, false};

use crate::comparing::{assert_is, assert_is_at, assert_reads_at, made_at};
use crate::front::example::on_one_product;
use crate::memory_acceptor::{Client, Closed, MemoryAcceptor};
use clock_device::{ListSource, Stop};
use clock_fixtures::{ACCEPTED, CUT_SHORT, Count, FIRST_ROUND, MemoryDisk, PUT, STATUS};
use clock_front::Front;
use clock_journal::{Journal, NewJournal};
use clock_processor::Plain;
use clock_server::{NoLog, RequestLog, ServeFault, serve_all};
use std::alloc::Global;
use std::process::Abort;

/// What a client does: the text that it sends, the read that stops, and why, and the write that
/// fails.
pub(super) type Sent<'a> = (&'a str, Option<(u64, Stop)>, Option<u64>);

/// Clients that send texts in small pieces, and take their replies in small pieces.
pub(super) fn clients<'a>(alloc: Global, sent: &[Sent<'a>]) -> Option<Vec<Client<'a>>> {
    let mut clients = Vec::new(alloc);
    for &(text, read_stop, write_stop) in sent {
        let client = Client {
            bytes: text.as_bytes(),
            read: 7,
            read_stop,
            room: 1024,
            write: 9,
            write_stop,
        };
        clients.push(client).ok()?;
    }
    Some(clients)
}

/// A sheet, a part of one, a connection that fails at its second read, a client that takes 18 bytes
/// of its reply, and a request for the status.
const FIVE: &[Sent<'static>] = &[
    (PUT, None, None),
    ("PUT /v1/me", None, None),
    (PUT, Some((1, Stop::Failed)), None),
    (STATUS, None, Some(2)),
    (STATUS, None, None),
];

/// The bytes that were written on a connection, if it was accepted.
fn written_on<'a>(connections: &'a [Closed<'_>], place: usize) -> &'a [u8] {
    match connections.get(place) {
        Some(closed) => closed.written(),
        None => b"no connection",
    }
}

/// Asserts what was written on each connection.
pub(super) fn assert_written(rt: &impl Abort, connections: &[Closed<'_>], written: &[&str]) {
    assert_is(rt, connections.len(), written.len());
    for place in 0..written.len() {
        assert_reads_at(rt, place, written_on(connections, place), written[place]);
    }
}

/// The number of syncs that succeed if there is a journal, the result of the loop, and what is
/// written on each connection that was accepted.
type Loop<'a> = (Option<u64>, Result<(), ServeFault>, &'a [&'a str]);

/// Serves clients. Compares the result, and what is written on each connection that was accepted.
fn compare<K: RequestLog>(
    rt: &impl Abort,
    alloc: Global,
    front: &mut Front<Plain>,
    log: &mut K,
    clients: &[Client<'_>],
    row: &Loop<'_>,
)
    requires { (K.journal log.old).has_failed ≡ false }
{
    let mut listed = MemoryAcceptor::new(alloc, clients).expect(rt, "connections");
    let end = serve_all(alloc, front, log, &mut listed, 5);
    assert_is_at(rt, row.0, end, row.1);
    assert_written(rt, listed.closed(), row.2);
    drop(listed);
}

/// Returns the journal on a new disk of which only the first `syncs` syncs succeed, if its start
/// succeeds. `bytes` are those of the disk: none.
fn started(alloc: Global, syncs: u64, bytes: &[u8]) -> Option<Journal<MemoryDisk>>
    ensures { IfSome result (λ journal. journal.has_failed ≡ false) }
{
    let disk = MemoryDisk::new(alloc, 4096, syncs);
    let mut source = ListSource::new(bytes, 1, None);
    match NewJournal::new(disk, [7; 32]).resume(
        alloc,
        &mut Count(0),
        &mut source,
        |_recovered| {},
    ) {
        Ok((journal, _recovered)) => Some(journal),
        Err((_fault, ended)) => {
            drop(ended);
            None
        }
    }
}

/// Compares like [`compare`], with a journal of which only the first `syncs` syncs succeed.
fn compare_logged(
    rt: &impl Abort,
    alloc: Global,
    front: &mut Front<Plain>,
    syncs: u64,
    clients: &[Client<'_>],
    row: &Loop<'_>,
) {
    let mut length = 0;
    if let Some(mut journal) = started(alloc, syncs, b"") {
        compare(rt, alloc, front, &mut journal, clients, row);
        length = journal.disk().bytes().len();
        drop(journal);
    }
    assert_is_at(rt, row.0, length, 56 + 40 + PUT.len());
}

/// Compares like [`compare`], without a journal if the row has no syncs.
fn compare_either(rt: &impl Abort, alloc: Global, front: &mut Front<Plain>, row: &Loop<'_>) {
    let clients = made_at(rt, row.0, clients(alloc, FIVE));
    let clients = clients.as_slice();
    match row.0 {
        None => compare(rt, alloc, front, &mut NoLog, clients, row),
        Some(syncs) => compare_logged(rt, alloc, front, syncs, clients, row),
    }
}

/// What is written if no sync fails.
const WRITTEN: &[&str] = &[ACCEPTED, CUT_SHORT, "", "HTTP/1.1 200 OK\r\nc", FIRST_ROUND];

/// If the sync of the first request fails, its client gets no reply, and no other connection is
/// accepted. A start syncs three times: before and after it truncates the file, and after the head.
const LOOPS: &[Loop<'static>] = &[
    (None, Ok(()), WRITTEN),
    (Some(4), Ok(()), WRITTEN),
    (Some(3), Err(ServeFault::Journal), &[""]),
];

#[test]
fn each_connection_gets_its_own_reply_once_it_is_logged(rt: HostRuntime) {
    for row in LOOPS {
        on_one_product(&rt, rt.alloc(), |front| {
            compare_either(&rt, rt.alloc(), front, row)
        });
    }
}
