//! One bidder's replies in two runs in which it sees the same, if each request comes over a
//! connection of its own, in single bytes.
use super::{
    BY_W, BY_Y, PUBLIC, Run, Sent, V_X_AND_W, X_AND_Y, document_of, reported_x, requests_of,
};
use crate::comparing::{assert_is_at, made_at};
use crate::front::events::{connected, piece};
use crate::front::requests::{request_of, setup_of};
use clock_front::{Event, EventReplies, EventReply, Reply, run_events};
use clock_processor::Plain;
use std::alloc::Global;
use std::process::Abort;

/// The most bytes of a request of these runs.
const LONGEST: usize = 200;

/// The order in which the bytes of a run's requests come. In each order, the requests are complete
/// in their own order: each last byte comes after those before.
///
/// - [`APART`]: one request after the other.
/// - [`IN_TURN`]: a byte of each in turn, and then the last byte of each.
/// - [`LAST_FIRST`]: all bytes but the last of each, from the last request to the first, and then
///   the last byte of each.
type Way<'a> = &'a str;

const APART: Way<'static> = "apart";

const IN_TURN: Way<'static> = "in turn";

const LAST_FIRST: Way<'static> = "last first";

/// The bytes of a text that come.
#[derive(Clone, Copy)]
enum Part {
    All,
    AllButLast,
    Last,
    /// The byte at an index, unless it is the last.
    At(usize),
}

/// The first index of a part of a text of `count` bytes, and the one after it.
fn places_of(part: Part, count: usize) -> (usize, usize) {
    let last = count.saturating_sub(1);
    match part {
        Part::All => (0, count),
        Part::AllButLast => (0, last),
        Part::Last => (last, count),
        Part::At(place) => (place, last.min(place.saturating_add(1))),
    }
}

/// The bytes of a part of a text.
fn part_of(text: &[u8], part: Part) -> &[u8] {
    let (first, end) = places_of(part, text.len());
    text.get(first..end).unwrap_or(b"")
}

/// Adds a piece for each byte.
fn push_bytes(alloc: Global, events: &mut Vec<Event>, number: u64, bytes: &[u8]) -> Option<()> {
    for byte in bytes {
        events.push(piece(alloc, number, &[*byte])?).ok()?;
    }
    Some(())
}

/// Adds the bytes of a part of a request.
fn push_part(
    alloc: Global,
    events: &mut Vec<Event>,
    number: usize,
    row: &str,
    part: Part,
) -> Option<()> {
    let text = request_of(alloc, row)?;
    let bytes = part_of(text.as_str().as_bytes(), part);
    push_bytes(alloc, events, number as u64, bytes)
}

/// Adds a part of each request, from the first to the last or from the last to the first.
fn push_parts(
    alloc: Global,
    events: &mut Vec<Event>,
    requests: &[Sent],
    part: Part,
    is_backwards: bool,
) -> Option<()> {
    let count = requests.len();
    for turn in 0..count {
        let number = if is_backwards { count - 1 - turn } else { turn };
        push_part(alloc, events, number, requests[number].0, part)?;
    }
    Some(())
}

/// Adds a byte of each request in turn, except the last bytes.
fn push_in_turn(alloc: Global, events: &mut Vec<Event>, requests: &[Sent]) -> Option<()> {
    for place in 0..LONGEST {
        push_parts(alloc, events, requests, Part::At(place), false)?;
    }
    Some(())
}

/// Adds the bytes of the requests in this order.
fn push_requests(
    alloc: Global,
    events: &mut Vec<Event>,
    requests: &[Sent],
    way: Way<'_>,
) -> Option<()> {
    match way {
        APART => return push_parts(alloc, events, requests, Part::All, false),
        IN_TURN => push_in_turn(alloc, events, requests)?,
        _ => push_parts(alloc, events, requests, Part::AllButLast, true)?,
    }
    push_parts(alloc, events, requests, Part::Last, false)
}

/// The events of the connections of a run.
fn events_of(alloc: Global, requests: &[Sent], way: Way<'_>) -> Option<Vec<Event>> {
    let mut events = connected(alloc, requests.len())?;
    push_requests(alloc, &mut events, requests, way)?;
    Some(events)
}

/// The replies to events, in an auction with these bidders.
fn replies_to(alloc: Global, bidders: &str, events: &[Event]) -> Option<EventReplies> {
    let document = document_of(alloc, PUBLIC, bidders).ok()?;
    let setup = setup_of(alloc, document.as_str())?;
    run_events(alloc, setup, Plain, events).ok()
}

/// Adds a reply to a text.
fn push_reply(alloc: Global, reported: &mut String, reply: &Reply) -> Option<()> {
    let reply = String::from_utf8_lossy(alloc, reply.bytes()).ok()?;
    reported.push_str(reply.as_str()).ok()
}

/// The replies to X's own requests.
fn own_replies(alloc: Global, requests: &[Sent], replies: &[EventReply]) -> Option<String> {
    let mut reported = String::new(alloc);
    for one in replies {
        if let Some((_, true)) = requests.get(one.number as usize) {
            push_reply(alloc, &mut reported, &one.reply)?;
        }
    }
    Some(reported)
}

/// X's replies in a run whose bytes come in this order.
fn reported_in_pieces(rt: &impl Abort, alloc: Global, run: &Run<'_>, way: Way<'_>) -> String {
    let at = (run.0, way);
    let requests = made_at(rt, at, requests_of(alloc, run.1));
    let events = made_at(rt, at, events_of(alloc, requests.as_slice(), way));
    let replies = made_at(rt, at, replies_to(alloc, run.0, events.as_slice()));
    drop(events);
    let reported = own_replies(alloc, requests.as_slice(), replies.as_slice());
    drop(replies);
    made_at(rt, at, reported)
}

/// Runs in which X sees the same. The bytes of each come in each order.
const RUNS: &[Run<'static>] = &[(X_AND_Y, BY_Y), (V_X_AND_W, BY_W)];

const WAYS: &[Way<'static>] = &[APART, IN_TURN, LAST_FIRST];

/// Asserts that X's replies are those to whole requests, in whatever order the bytes come.
fn is_reported_as_whole(rt: &impl Abort, alloc: Global, run: &Run<'_>, whole: &str) {
    for way in WAYS {
        let reported = reported_in_pieces(rt, alloc, run, way);
        assert_is_at(rt, (run.0, *way), reported.as_str(), whole);
    }
}

#[test]
fn rivals_show_in_no_reply_to_pieces(rt: HostRuntime) {
    let whole = reported_x(&rt, rt.alloc(), PUBLIC, &(X_AND_Y, BY_Y));
    for run in RUNS {
        is_reported_as_whole(&rt, rt.alloc(), run, whole.as_str());
    }
}
