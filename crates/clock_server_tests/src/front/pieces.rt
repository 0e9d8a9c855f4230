//! Requests in pieces over connections that are open at once.
use super::events::{connected, piece, push_byte};
use super::hubs;
use super::hubs::{fed, finished, on_hub};
use super::requests::setup_of;
use crate::comparing::{assert_is, assert_is_at, assert_reads_at, made_at};
use clock_device::Text;
use clock_fixtures::{
    ACCEPTED, BIDS_OF_Y, CUT_SHORT, FIRST_ROUND, NO_BIDS, ONE_PRODUCT, PUT, STATUS,
};
use clock_front::{Conn, Event, EventReplies, EventReply, Hub, HubFault, run_events};
use clock_processor::Plain;
use std::alloc::Global;
use std::process::Abort;

/// The texts of three connections.
const TEXTS: [&str; 3] = [PUT, STATUS, "PUT /v1/me"];

/// The replies with the numbers of their connections: to [`TEXTS`], and to Y's request for its
/// bids, which comes as one piece.
const IN_ORDER_OF_COMPLETION: &[(u64, &str)] = &[
    (1, FIRST_ROUND),
    (0, ACCEPTED),
    (2, CUT_SHORT),
    (3, NO_BIDS),
];

/// Adds the byte of each text at an index, in turn.
fn push_bytes(alloc: Global, events: &mut Vec<Event>, place: usize) -> Option<()> {
    for (number, text) in TEXTS.iter().enumerate() {
        push_byte(alloc, events, number as u64, text.as_bytes(), place)?;
    }
    Some(())
}

/// Adds the texts of three connections, one byte at a time in turn, and the end of the last one.
/// Then Y requests its bids.
fn push_all(alloc: Global, events: &mut Vec<Event>) -> Option<()> {
    for place in 0..PUT.len() {
        push_bytes(alloc, events, place)?;
    }
    events.push(Event::Finish(2)).ok()?;
    events.push(Event::Connect).ok()?;
    events.push(piece(alloc, 3, BIDS_OF_Y.as_bytes())?).ok()?;
    Some(())
}

/// The events of these connections.
fn in_single_bytes(alloc: Global) -> Option<Vec<Event>> {
    let mut events = connected(alloc, 3)?;
    push_all(alloc, &mut events)?;
    Some(events)
}

/// The replies to events.
fn replies_to(alloc: Global, events: &[Event]) -> Option<EventReplies> {
    let setup = setup_of(alloc, ONE_PRODUCT)?;
    run_events(alloc, setup, Plain, events).ok()
}

/// Asserts a reply and the number of its connection.
fn is_reply(rt: &impl Abort, one: &EventReply, expected: &(u64, &str)) {
    assert_is_at(rt, expected.0, one.number, expected.0);
    assert_reads_at(rt, expected.0, one.reply.bytes(), expected.1);
}

/// Asserts the replies and their order.
fn are_reported(rt: &impl Abort, replies: &[EventReply], expected: &[(u64, &str)]) {
    assert_is(rt, replies.len(), expected.len());
    for place in 0..expected.len() {
        if let Some(one) = replies.get(place) {
            is_reply(rt, one, &expected[place]);
        }
    }
}

/// Asserts that the three connections get their replies in the order of completion.
fn are_reported_in_order(rt: &impl Abort, alloc: Global) {
    let events = made_at(rt, "events", in_single_bytes(alloc));
    let replies = made_at(rt, "replies", replies_to(alloc, events.as_slice()));
    drop(events);
    are_reported(rt, replies.as_slice(), IN_ORDER_OF_COMPLETION);
    drop(replies);
}

#[test]
fn three_connections_in_single_bytes(rt: HostRuntime) {
    are_reported_in_order(&rt, rt.alloc());
}

/// Opens `count` connections more.
fn connect_all(hub: &mut Hub<Plain>, count: usize) -> Result<(), HubFault> {
    for _ in 0..count {
        hubs::connected(hub)?;
    }
    Ok(())
}

/// Asserts that `count` connections can be open, and no further one.
fn is_full_at(rt: &impl Abort, hub: &mut Hub<Plain>, count: usize) {
    assert_is(rt, connect_all(hub, count), Ok(()));
    assert_is(rt, hubs::connected(hub), Err(HubFault::Full));
}

#[test]
fn no_more_than_256_stand(rt: HostRuntime) {
    on_hub(&rt, rt.alloc(), |hub| is_full_at(&rt, hub, 256));
}

/// The words of a fault for a connection that does not exist.
const UNKNOWN: &str = "no such connection";

/// A connection, what happens to it, and the result. It gets a text, or its input ends; the result
/// is empty if more is needed.
type Step<'a> = (usize, &'a str, &'a str);

/// Steps in order.
const STEPS: &[Step<'static>] = &[
    (0, "connect", ""),
    (0, STATUS, FIRST_ROUND),
    (0, STATUS, UNKNOWN),
    (1, "connect", ""),
    (1, "", ""),
    (1, "GET", ""),
    (1, "end", CUT_SHORT),
    (1, "end", UNKNOWN),
    (2, "connect", ""),
    (1, STATUS, UNKNOWN),
    (2, STATUS, FIRST_ROUND),
];

/// The words of a fault.
fn words_of(alloc: Global, fault: HubFault) -> Option<Text> {
    let words = format!(in alloc; "{fault}").ok()?;
    Text::from_slice(alloc, words.as_str().as_bytes()).ok()
}

/// The result for a connection whose input ends.
fn reported_at_end(alloc: Global, hub: &mut Hub<Plain>, conn: Conn) -> Option<Text> {
    match finished(alloc, hub, conn) {
        Ok(reply) => Some(reply),
        Err(fault) => words_of(alloc, fault),
    }
}

/// The result for a connection that gets a text.
fn reported_of(alloc: Global, hub: &mut Hub<Plain>, conn: Conn, text: &str) -> Option<Text> {
    match fed(alloc, hub, conn, text.as_bytes()) {
        Ok(Some(reply)) => Some(reply),
        Ok(None) => Some(Text::new(alloc)),
        Err(fault) => words_of(alloc, fault),
    }
}

/// The result for a connection at a step.
fn reported(alloc: Global, hub: &mut Hub<Plain>, conn: Conn, text: &str) -> Option<Text> {
    match text {
        "end" => reported_at_end(alloc, hub, conn),
        text => reported_of(alloc, hub, conn, text),
    }
}

/// Asserts the result of a step.
fn is_reported(
    rt: &impl Abort,
    alloc: Global,
    hub: &mut Hub<Plain>,
    conn: Conn,
    text: &str,
    expected: &str,
) {
    let reported = made_at(rt, text, reported(alloc, hub, conn, text));
    assert_reads_at(rt, text, reported.as_slice(), expected);
}

/// Runs a step.
fn take_step(
    rt: &impl Abort,
    alloc: Global,
    hub: &mut Hub<Plain>,
    conns: &mut Vec<Conn>,
    step: &Step<'_>,
) {
    match conns.as_slice().get(step.0) {
        None => {
            let conn = made_at(rt, step, hubs::connected(hub).ok());
            made_at(rt, step, conns.push(conn).ok());
        }
        Some(conn) => is_reported(rt, alloc, hub, *conn, step.1, step.2),
    }
}

/// Runs all steps.
fn take_steps(rt: &impl Abort, alloc: Global, hub: &mut Hub<Plain>) {
    let mut conns = Vec::new(alloc);
    for step in STEPS {
        take_step(rt, alloc, hub, &mut conns, step);
    }
}

#[test]
fn a_connection_is_gone_with_its_reply(rt: HostRuntime) {
    on_hub(&rt, rt.alloc(), |hub| take_steps(&rt, rt.alloc(), hub));
}
