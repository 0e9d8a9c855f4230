//! A server over crashes. It runs on a disk of which each call in turn is the first to fail, and is
//! started again on each file that a crash at some moment may have left.
ghost use Rattle.std.specs.Prelude.{◌≡◌, [], IfOk, None, false};
ghost use Rattle.clock_front.specs.Fronts.{StandsForTexts};

use super::crash_disk::{CrashDisk, Passed};
use super::loops::{Sent, assert_written, clients};
use crate::comparing::{assert_is, assert_is_at, made_at};
use crate::memory_acceptor::{MemoryAcceptor, NoFault};
use clock_device::ListSource;
use clock_fixtures::{ACCEPTED, BIDS_OF_X, FIRST_ROUND, NO_BIDS, ONE_PRODUCT, PUT, STATUS};
use clock_front::Front;
use clock_journal::{EndedJournal, Link, NewJournal, Recovered};
use clock_processor::Plain;
use clock_server::{Announcer, ReplayedAuction, ServeFault, ServerFault, serve_from};
use clock_setup::{SetupFault, read_setup};
use std::alloc::Global;
use std::process::Abort;

const DIGEST: Link = [7; 32];

/// The operator's closing of round 1, of 123 bytes. X's two blocks are the whole supply, so the
/// auction ends.
const CLOSE: &str = "POST /v1/close HTTP/1.1\r\nauthorization: Bearer OPERATOROPERATOR\r\n\
    content-length: 36\r\n\r\n{\"increment\":10,\"round\":1,\"ties\":[]}";

const CLOSED: &str = "HTTP/1.1 200 OK\r\nconnection: close\r\n\
    content-length: 25\r\ncontent-type: application/json\r\n\r\n{\"closed\":1,\"ended\":true}";

/// The reply to [`BIDS_OF_X`] while its sheet is in force.
const BIDS: &str = "HTTP/1.1 200 OK\r\nconnection: close\r\n\
    content-length: 59\r\ncontent-type: application/json\r\n\r\n\
    {\"bids\":[{\"price\":100,\"product\":0,\"quantity\":2}],\"round\":1}";

/// The status after the end.
const ENDED: &str = "HTTP/1.1 200 OK\r\nconnection: close\r\n\
    content-length: 36\r\ncontent-type: application/json\r\n\r\n{\"ended\":true,\"round\":1,\"version\":1}";

/// The reply to [`PUT`] after the end.
const AFTER_THE_END: &str = "HTTP/1.1 409 Conflict\r\nconnection: close\r\n\
    content-length: 29\r\ncontent-type: application/json\r\n\r\n{\"code\":\"ended\",\"status\":409}";

/// An auction of one product, without texts.
fn auction(alloc: Global) -> Result<ReplayedAuction<Plain>, SetupFault>
    ensures { IfOk result (λ auction. StandsForTexts [] auction.front) }
{
    let setup = read_setup(alloc, ONE_PRODUCT.as_bytes())?;
    let front = Front::new(alloc, setup, Plain)?;
    Ok(ReplayedAuction { front })
}

const SERVED: &str = "served";

const NOT_STARTED: &str = "not started";

const NOT_LOGGED: &str = "not logged";

/// How a generation ended, by its result.
fn ended_by(end: Result<(), ServerFault<NoFault>>) -> &'static str {
    match end {
        Ok(()) => SERVED,
        Err(ServerFault::Start(_)) => NOT_STARTED,
        Err(ServerFault::Listen(_)) => "not listening",
        Err(ServerFault::Serve(ServeFault::Accept)) => "not accepted",
        Err(ServerFault::Serve(ServeFault::Journal)) => NOT_LOGGED,
    }
}

/// Announces nothing.
#[derive(Drop)]
struct Silent;

impl Announcer for Silent {
    fn round_closed(&mut self, _round: u64, _digest: &Link) {}
}

/// A journal on such a disk, before it is resumed, and after.
type New<'a, R> = NewJournal<CrashDisk<'a, R>>;

type Ended<'a, R> = EndedJournal<CrashDisk<'a, R>>;

/// Runs one generation of a server on a file. Returns how it ended, or `None` if memory runs out.
fn generation<'a, R: Abort>(
    alloc: Global,
    journal: New<'a, R>,
    file: &[u8],
    listed: &mut MemoryAcceptor<'_>,
    count: u64,
) -> Option<(&'static str, Ended<'a, R>)>
    requires unfailed { journal.has_failed ≡ false }
    requires closed { listed.old.offer ≡ None }
    requires taken { listed.old.has_failed ≡ false }
{
    let Ok(mut auction) = auction(alloc) else {
        drop(journal);
        return None;
    };
    let source = ListSource::new(file, 7, None);
    let tell = |_recovered: Recovered| {};
    let (end, ended, _source) = serve_from(
        alloc,
        &mut auction,
        journal,
        Silent,
        source,
        tell,
        listed,
        count,
    );
    drop(auction);
    Some((ended_by(end), ended))
}

/// What a run must show: its row, how it ends, what it writes to each client that it accepts, and
/// two files. Each crash leaves the first of these or more of the file, and if the second is not
/// empty, a prefix of it.
type Run<'a> = (usize, &'a str, &'a [&'a str], &'a [u8], &'a [u8]);

/// Asserts that bytes begin with these.
fn assert_begins(rt: &impl Abort, row: usize, bytes: &[u8], first: &[u8]) {
    assert_is_at(rt, row, bytes.get(..first.len()), Some(first));
}

/// Asserts what each crash of a run leaves.
fn assert_left(rt: &impl Abort, moments: &[Passed], run: &Run<'_>) {
    for passed in moments {
        assert_begins(rt, run.0, passed.synced.as_slice(), run.3);
        if !run.4.is_empty() {
            assert_begins(rt, run.0, run.4, passed.synced.as_slice());
            assert_begins(rt, run.0, run.4, passed.written.as_slice());
        }
    }
}

/// Runs a server for these clients on a file. Compares how it ends, and what it writes.
fn serve<'a, R: Abort>(
    rt: &R,
    alloc: Global,
    journal: New<'a, R>,
    file: &[u8],
    sent: &[Sent<'_>],
    run: &Run<'_>,
) -> Ended<'a, R>
    requires { journal.has_failed ≡ false }
{
    let clients = made_at(rt, run.0, clients(alloc, sent));
    let mut listed = MemoryAcceptor::new(alloc, clients.as_slice()).expect(rt, "connections");
    let made = generation(alloc, journal, file, &mut listed, sent.len() as u64);
    let (end, ended) = made_at(rt, run.0, made);
    assert_is_at(rt, run.0, end, run.1);
    assert_written(rt, listed.closed(), run.2);
    drop(listed);
    ended
}

/// Runs a server for these clients on a file, and a disk of which only the first `calls` calls
/// succeed. Compares how it ends, what it writes, and what crashes leave. Returns the file then.
fn run_server<R: Abort>(
    rt: &R,
    alloc: Global,
    file: &[u8],
    calls: u64,
    sent: &[Sent<'_>],
    run: &Run<'_>,
) -> Vec<u8> {
    let journal = NewJournal::new(CrashDisk::new(rt, alloc, file, calls), DIGEST);
    let ended = serve(rt, alloc, journal, file, sent, run);
    assert_left(rt, ended.disk().moments(), run);
    let bytes = ended.disk().bytes().to_vec(alloc).ok();
    drop(ended);
    made_at(rt, run.0, bytes)
}

/// The file's length up to the end of its texts, the replies of a server that starts on them, and
/// the length of the file after it.
type Restart = (usize, &'static [&'static str], usize);

/// The restart on a file of this length. A file has a head of 56 bytes, and records of 40 bytes and
/// the text.
fn restart_of(length: usize) -> Restart {
    match length {
        0..243 => (0, &[NO_BIDS, FIRST_ROUND, ACCEPTED], 243),
        243..406 => (243, &[BIDS, FIRST_ROUND, ACCEPTED], 430),
        _ => (406, &[NO_BIDS, ENDED, AFTER_THE_END], 406),
    }
}

/// The clients after a restart.
const AFTER_RESTART: &[Sent<'static>] = &[
    (BIDS_OF_X, None, None),
    (STATUS, None, None),
    (PUT, None, None),
];

/// Starts a server on the first bytes of a file, which a crash may have left. Compares what it
/// replies and logs, and what crashes during its start leave.
fn restart<R: Abort>(rt: &R, alloc: Global, file: &[u8], length: usize) {
    let (end, replies, then) = restart_of(length);
    let file = made_at(rt, length, file.get(..length));
    let texts = made_at(rt, length, file.get(..end));
    let run: Run<'_> = (length, SERVED, replies, texts, b"");
    let bytes = run_server(rt, alloc, file, 100, AFTER_RESTART, &run);
    assert_is_at(rt, length, bytes.len(), then);
}

/// How a server ends on an empty file if this number of calls of its disk succeed, and what it
/// writes to each client that it accepts. A start makes four calls, and each text three.
fn first_run(calls: u64) -> (&'static str, &'static [&'static str]) {
    match calls {
        0..4 => (NOT_STARTED, &[]),
        4..7 => (NOT_LOGGED, &[""]),
        7..10 => (NOT_LOGGED, &[ACCEPTED, ""]),
        _ => (SERVED, &[ACCEPTED, CLOSED]),
    }
}

/// The clients of the first run.
const FIRST: &[Sent<'static>] = &[(PUT, None, None), (CLOSE, None, None)];

/// Runs a server until a call of its disk fails. Compares how it ends and what it writes, and
/// asserts that a crash at each moment leaves a prefix of `whole`. Returns the file.
fn crash_at<R: Abort>(rt: &R, alloc: Global, calls: u64, whole: &[u8]) -> Vec<u8> {
    let (ended, replies) = first_run(calls);
    let run: Run<'_> = (calls as usize, ended, replies, b"", whole);
    run_server(rt, alloc, b"", calls, FIRST, &run)
}

/// Runs a server until each call of its disk in turn is the first to fail.
fn crash_at_each_call<R: Abort>(rt: &R, alloc: Global, whole: &[u8]) {
    for calls in 0..11 {
        drop(crash_at(rt, alloc, calls, whole));
    }
}

/// Starts a server on each prefix of the file: these are all files that a crash at some moment
/// left.
fn restart_on_each_prefix<R: Abort>(rt: &R, alloc: Global, file: &[u8]) {
    for length in 0..407 {
        restart(rt, alloc, file, length);
    }
}

/// Runs a server that crashes, and then others on what is left.
fn crash_and_restart<R: Abort>(rt: &R, alloc: Global) {
    let file = crash_at(rt, alloc, 100, b"");
    assert_is(rt, file.len(), 406);
    crash_at_each_call(rt, alloc, file.as_slice());
    restart_on_each_prefix(rt, alloc, file.as_slice());
}

#[test]
fn a_server_resumes_after_a_crash_at_each_call(rt: HostRuntime) {
    assert_is(&rt, (PUT.len(), CLOSE.len()), (147, 123));
    crash_and_restart(&rt, rt.alloc());
}
