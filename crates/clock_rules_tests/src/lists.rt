//! Lists, sources, and sinks: each call once, on bytes in memory, and on std's readers and writers.
use crate::comparing::{assert_has, assert_is, assert_is_at};
use clock_device::{
    Failed, FromReader, Items, ListSink, ListSource, NoMemory, Sink, Source, Stop, Text, ToWriter,
};
use std::alloc::Global;
use std::io;
use std::io::{ErrorKind, Read, Write};
use std::process::Abort;

/// A list whose numbers were added one by one and together.
fn three(alloc: Global) -> Option<Items<u64>> {
    let mut list = Items::new(alloc);
    if list.push(3u64).is_err() || list.extend_from_slice(&[4, 5]).is_err() {
        return None;
    }
    Some(list)
}

/// A copy of a list.
fn copied(alloc: Global) -> Option<Items<u64>> {
    match three(alloc) {
        Some(list) => list.copy(alloc).ok(),
        None => None,
    }
}

/// A list of the items of a vector.
fn taken(alloc: Global) -> Option<Items<u64>> {
    match vec![in alloc; 7, 8] {
        Ok(numbers) => Some(Items::from_vec(numbers)),
        Err(_) => None,
    }
}

/// A list of three numbers, allocated before they are added.
fn in_room(alloc: Global) -> Option<Items<u64>> {
    let Ok(mut list) = Items::with_capacity(alloc, 3) else {
        return None;
    };
    list.push(3);
    list.extend_from_slice(&[4, 5]);
    Some(list.into_items())
}

/// A text that ends in a number, and then has numbers or dashes.
fn dashed(alloc: Global, number: u64, numbers: &[Option<u64>]) -> Option<Text> {
    let Ok(mut text) = Text::from_slice(alloc, b"round ") else {
        return None;
    };
    if text.push_number(number).is_err() {
        return None;
    }
    for number in numbers {
        if text.push_or_dash(*number).is_err() {
            return None;
        }
    }
    Some(text)
}

/// A text in which a byte is replaced.
fn cut(alloc: Global) -> Option<Text> {
    let Ok(mut text) = Text::from_slice(alloc, b"cat") else {
        return None;
    };
    text.set(1, b'u');
    Some(text)
}

#[test]
fn lists_grow_and_change(rt: HostRuntime) {
    let alloc = rt.alloc();
    assert_has(&rt, "three", three(alloc), &[3, 4, 5]);
    assert_has(&rt, "copied", copied(alloc), &[3, 4, 5]);
    assert_has(&rt, "zeros", Items::zeros(alloc, 2).ok(), &[0, 0]);
    assert_has(&rt, "taken", taken(alloc), &[7, 8]);
    assert_has(&rt, "in_room", in_room(alloc), &[3, 4, 5]);
}

/// The highest number.
const MOST: u64 = 18_446_744_073_709_551_615;

/// Numbers and dashes after the highest number, and the texts.
const DASHED: &[(&[Option<u64>], &[u8])] = &[
    (&[], b"round 18446744073709551615"),
    (&[None, Some(0)], b"round 18446744073709551615-0"),
];

#[test]
fn numbers_and_dashes_are_written(rt: HostRuntime) {
    for row in DASHED {
        assert_has(&rt, row.0, dashed(rt.alloc(), MOST, row.0), row.1);
    }
    assert_has(&rt, "cut", cut(rt.alloc()), b"cut");
}

/// The sum of numbers.
fn sum_of(numbers: &[u64]) -> u64 {
    let mut sum = 0u64;
    for number in numbers {
        sum = sum.saturating_add(*number);
    }
    sum
}

/// What the calls of a list return: its length, whether it is empty, an item, and the sum of all.
fn read_list(list: &Items<u64>) -> (usize, bool, Option<u64>, u64) {
    let second = if list.len() > 1 { Some(list[1]) } else { None };
    (list.len(), list.is_empty(), second, sum_of(list))
}

/// What the calls of a list of three numbers return.
fn read_three(alloc: Global) -> Option<(usize, bool, Option<u64>, u64)> {
    match in_room(alloc) {
        Some(list) => Some(read_list(&list)),
        None => None,
    }
}

/// What the calls of an empty list return.
fn read_none(alloc: Global) -> (usize, bool, Option<u64>, u64) {
    read_list(&Items::new(alloc))
}

#[test]
fn a_list_is_read_as_a_slice(rt: HostRuntime) {
    assert_is(&rt, read_three(rt.alloc()), Some((3, false, Some(4), 12)));
    assert_is(&rt, read_none(rt.alloc()), (0, true, None, 0));
}

/// A read into four bytes: its most bytes, the answer, and the four bytes then.
type Given<'a> = (usize, Result<usize, Stop>, &'a [u8]);

/// Asserts what the reads of a source return, one after the other.
fn gives<S: Source>(rt: &impl Abort, source: &mut S, reads: &[Given]) {
    let mut buffer = *b"----";
    for row in reads {
        let answer = source.read(&mut buffer[..row.0.min(4)]);
        assert_is(rt, (answer, buffer.as_slice()), (row.1, row.2));
    }
}

/// A write of bytes, and its answer.
type Taken<'a> = (&'a [u8], Result<usize, Failed>);

/// Asserts what the writes to a sink return, one after the other.
fn takes<S: Sink>(rt: &impl Abort, sink: &mut S, writes: &[Taken]) {
    for row in writes {
        assert_is_at(rt, row.0, sink.write(row.0), row.1);
    }
}

/// Reads of `hello`, at most two bytes each.
const IN_PIECES: &[Given<'static>] = &[
    (4, Ok(2), b"he--"),
    (1, Ok(1), b"le--"),
    (4, Ok(2), b"lo--"),
    (4, Ok(0), b"lo--"),
    (4, Ok(0), b"lo--"),
];

#[test]
fn a_list_source_gives_its_bytes_in_pieces(rt: HostRuntime) {
    gives(&rt, &mut ListSource::new(b"hello", 2, None), IN_PIECES);
}

/// Reads of `hello` of which the second is interrupted, or fails.
const INTERRUPTED: &[Given<'static>] = &[
    (4, Ok(4), b"hell"),
    (4, Err(Stop::Interrupted), b"hell"),
    (4, Ok(1), b"oell"),
];

const FAILED: &[Given<'static>] = &[
    (4, Ok(4), b"hell"),
    (4, Err(Stop::Failed), b"hell"),
    (4, Ok(1), b"oell"),
];

/// How the second read stops, and the reads.
const STOPPED: &[(Stop, &[Given])] = &[(Stop::Interrupted, INTERRUPTED), (Stop::Failed, FAILED)];

#[test]
fn a_list_source_stops_at_one_read(rt: HostRuntime) {
    for row in STOPPED {
        let mut source = ListSource::new(b"hello", 4, Some((1, row.0)));
        gives(&rt, &mut source, row.1);
    }
}

/// Writes to a sink of three bytes that takes at most two a write.
const UNTIL_FULL: &[Taken<'static>] = &[
    (b"hello", Ok(2)),
    (b"", Err(Failed)),
    (b"llo", Ok(1)),
    (b"lo", Err(Failed)),
];

/// Asserts what the writes to a list's sink return, and the bytes it has then.
fn comes_to(rt: &impl Abort, sink: Result<ListSink, NoMemory>, writes: &[Taken], expected: &[u8]) {
    match sink {
        Ok(mut sink) => {
            takes(rt, &mut sink, writes);
            assert_is(rt, sink.bytes(), expected);
        }
        Err(_) => assert_is(rt, b"no sink".as_slice(), expected),
    }
}

#[test]
fn a_list_sink_takes_pieces_until_it_is_full(rt: HostRuntime) {
    let sink = ListSink::new(rt.alloc(), 3, 2, None);
    comes_to(&rt, sink, UNTIL_FULL, b"hel");
}

/// Writes of which the first fails.
const AFTER_ONE: &[Taken<'static>] = &[(b"hello", Err(Failed)), (b"hello", Ok(5))];

#[test]
fn a_list_sink_fails_at_one_write(rt: HostRuntime) {
    let sink = ListSink::new(rt.alloc(), 8, 8, Some(0));
    comes_to(&rt, sink, AFTER_ONE, b"hello");
}

/// A reader and a writer that count their calls: a read gives one byte, the count, and a write
/// takes as much as the count.
#[derive(Drop)]
struct Counter {
    calls: u8,
    /// Whether the first read is interrupted and the third fails.
    is_flaky: bool,
}

/// A counter without calls.
fn counting(is_flaky: bool) -> Counter {
    Counter { calls: 0, is_flaky }
}

impl Read for Counter {
    fn read(&mut self, buffer: &mut [u8]) -> io::Result<usize> {
        self.calls = self.calls.saturating_add(1);
        match if self.is_flaky { self.calls } else { 0 } {
            1 => Err(io::Error::from(ErrorKind::Interrupted)),
            3 => Err(io::Error::from(ErrorKind::Other)),
            _ => match buffer.first_mut() {
                Some(first) => {
                    *first = self.calls;
                    Ok(1)
                }
                None => Ok(0),
            },
        }
    }
}

impl Write for Counter {
    fn write(&mut self, bytes: &[u8]) -> io::Result<usize> {
        self.calls = self.calls.saturating_add(1);
        Ok(bytes.len().min(usize::from(self.calls)))
    }

    fn flush(&mut self) -> io::Result<()> {
        Ok(())
    }
}

/// Reads of the flaky reader.
const FLAKY: &[Given<'static>] = &[
    (2, Err(Stop::Interrupted), b"----"),
    (2, Ok(1), b"\x02---"),
    (2, Err(Stop::Failed), b"\x02---"),
];

#[test]
fn a_reader_is_interrupted_or_fails(rt: HostRuntime) {
    gives(&rt, &mut FromReader::new(counting(true)), FLAKY);
}

/// Reads of the reader, each of which is one call.
const EACH_READ: &[Given<'static>] = &[
    (1, Ok(1), b"\x01---"),
    (1, Ok(1), b"\x02---"),
    (1, Ok(1), b"\x03---"),
    (1, Ok(1), b"\x04---"),
    (1, Ok(1), b"\x05---"),
    (1, Ok(1), b"\x06---"),
    (1, Ok(1), b"\x07---"),
    (1, Ok(1), b"\x08---"),
];

/// Writes to the writer, each of which is one call.
const EACH_WRITE: &[Taken<'static>] = &[
    (b"12345678", Ok(1)),
    (b"12345678", Ok(2)),
    (b"12345678", Ok(3)),
    (b"12345678", Ok(4)),
    (b"12345678", Ok(5)),
    (b"12345678", Ok(6)),
    (b"12345678", Ok(7)),
    (b"12345678", Ok(8)),
];

#[test]
fn each_call_is_one_call_of_the_reader_or_writer_below(rt: HostRuntime) {
    gives(&rt, &mut FromReader::new(counting(false)), EACH_READ);
    takes(&rt, &mut ToWriter::new(counting(false)), EACH_WRITE);
}

/// Reads of `hi`.
const HI: &[Given<'static>] = &[(3, Ok(2), b"hi--"), (3, Ok(0), b"hi--")];

/// Writes to a vector.
const TO_VECTOR: &[Taken<'static>] = &[(b"hi", Ok(2)), (b"", Err(Failed))];

#[test]
fn a_slice_is_read_and_a_vector_written(rt: HostRuntime) {
    gives(&rt, &mut FromReader::new(b"hi".as_slice()), HI);
    takes(&rt, &mut ToWriter::new(Vec::new(rt.alloc())), TO_VECTOR);
}
