//! One request over one stream, whose reads and writes move few bytes, fail, or are interrupted.
ghost use Rattle.std.specs.Prelude.{◌≤◌};

use super::requests::reply_of;
use crate::comparing::{assert_is_at, made_at};
use crate::front::example::on_one_product;
use clock_api::Code;
use clock_device::{ListSink, ListSource, Stop};
use clock_fixtures::{ACCEPTED, BIDS_OF_X, NO_SHEET, PUT, SHEET};
use clock_front::{Front, StreamFault, serve_stream};
use clock_processor::Plain;
use std::alloc::Global;
use std::process::Abort;

/// A text that is served by reads and writes of at most `piece` bytes, one of which may stop: the
/// code, what is written, and whether X's sheet is in force then.
#[derive(Drop)]
struct Row<'a> {
    text: &'a [u8],
    piece: usize,
    read: Option<(u64, Stop)>,
    write: Option<u64>,
    answer: Result<Code, StreamFault>,
    written: &'a [u8],
    has_sheet: bool,
    ghost some: { 1 ≤ piece },
}

/// Whether X's sheet is in force, by the page of its bids, which shows this sheet or none.
fn has_sheet(alloc: Global, front: &mut Front<Plain>) -> Option<bool> {
    let reply = reply_of(alloc, front, BIDS_OF_X)?;
    let has_sheet = reply.as_str().ends_with(SHEET);
    if has_sheet || reply.as_str().ends_with(NO_SHEET) {
        Some(has_sheet)
    } else {
        None
    }
}

/// Serves the text of a row and compares the result.
fn served_as(rt: &impl Abort, alloc: Global, front: &mut Front<Plain>, row: &Row<'_>) {
    let at = (row.piece, row.read, row.write);
    let mut source = ListSource::new(row.text, row.piece, row.read);
    let sink = ListSink::new(alloc, 1024, row.piece, row.write);
    let mut sink = made_at(rt, at, sink.ok());
    let answer = serve_stream(alloc, front, &mut source, &mut sink);
    assert_is_at(rt, at, (answer, sink.bytes()), (row.answer, row.written));
    drop(sink);
    assert_is_at(rt, at, has_sheet(alloc, front), Some(row.has_sheet));
}

/// Serves the text of a row by a front made for it, and compares the result.
fn compare(rt: &impl Abort, alloc: Global, row: &Row<'_>) {
    on_one_product(rt, alloc, |front| served_as(rt, alloc, front, row));
}

/// The row of a sheet that is accepted, by reads of at most `piece` bytes.
fn put(piece: usize, read: Option<(u64, Stop)>) -> Row<'static>
    requires { 1 ≤ piece }
{
    Row {
        text: PUT.as_bytes(),
        piece,
        read,
        write: None,
        answer: Ok(Code::Done),
        written: ACCEPTED.as_bytes(),
        has_sheet: true,
    }
}

/// The row of a sheet of which a read fails, so that nothing happens.
fn unread(piece: usize, read: u64) -> Row<'static>
    requires { 1 ≤ piece }
{
    Row {
        text: PUT.as_bytes(),
        piece,
        read: Some((read, Stop::Failed)),
        write: None,
        answer: Err(StreamFault::Read),
        written: b"",
        has_sheet: false,
    }
}

/// The row of a sheet of whose reply a write of one byte fails. The sheet is in force.
fn unwritten(write: usize) -> Row<'static> {
    Row {
        text: PUT.as_bytes(),
        piece: 1,
        read: None,
        write: Some(write as u64),
        answer: Err(StreamFault::Write(Code::Done)),
        written: ACCEPTED.as_bytes().get(..write).unwrap_or(b"more"),
        has_sheet: true,
    }
}

/// In single bytes the request is complete by read 146, so read 147 is never made.
#[test]
fn no_read_is_made_once_the_request_is_decided(rt: HostRuntime) {
    compare(&rt, rt.alloc(), &put(1024, None));
    compare(&rt, rt.alloc(), &put(1, Some((147, Stop::Failed))));
}

#[test]
fn a_failed_read_changes_nothing(rt: HostRuntime) {
    compare(&rt, rt.alloc(), &unread(100, 1));
    for read in 0..147 {
        compare(&rt, rt.alloc(), &unread(1, read));
    }
}

#[test]
fn an_interrupted_read_is_tried_again(rt: HostRuntime) {
    for read in 0..147 {
        compare(&rt, rt.alloc(), &put(1, Some((read, Stop::Interrupted))));
    }
}

#[test]
fn a_failed_write_leaves_the_sheet_in_force(rt: HostRuntime) {
    for write in 0..ACCEPTED.len() {
        compare(&rt, rt.alloc(), &unwritten(write));
    }
}
