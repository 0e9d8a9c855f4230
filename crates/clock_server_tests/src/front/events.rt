//! Pieces of one byte, as events.
use clock_device::Text;
use clock_front::Event;
use std::alloc::Global;

/// Events that open `count` connections.
pub(super) fn connected(alloc: Global, count: usize) -> Option<Vec<Event>> {
    let mut events = Vec::new(alloc);
    for _ in 0..count {
        events.push(Event::Connect).ok()?;
    }
    Some(events)
}

/// An event that brings a piece of a connection's request.
pub(super) fn piece(alloc: Global, number: u64, bytes: &[u8]) -> Option<Event> {
    Some(Event::Piece(number, Text::from_slice(alloc, bytes).ok()?))
}

/// Adds an event for the byte of a text at an index, if it has one.
pub(super) fn push_byte(
    alloc: Global,
    events: &mut Vec<Event>,
    number: u64,
    text: &[u8],
    place: usize,
) -> Option<()> {
    if let Some(byte) = text.get(place) {
        events.push(piece(alloc, number, &[*byte])?).ok()?;
    }
    Some(())
}
