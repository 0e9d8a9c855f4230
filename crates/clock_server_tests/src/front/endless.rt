//! Sources that never end.
ghost use Rattle.std.specs.Prelude.{None, false};

use crate::comparing::{assert_is_at, assert_reads_at, made_at};
use crate::front::example::on_one_product;
use clock_api::Code;
use clock_device::{ListSink, Source, Stop};
use clock_fixtures::LONG_HEAD;
use clock_front::{Front, StreamFault, serve_stream};
use clock_processor::Plain;
use std::alloc::Global;
use std::process::Abort;

/// A source that never ends: each read gives a space, or each is interrupted.
#[derive(Drop)]
struct Endless {
    is_interrupted: bool,
    calls: u64,
    interruptions: u64,
}

impl Source for Endless {
    ghost report = { λ source. record {
      left = None;
      calls = source.calls;
      interruptions = source.interruptions;
      has_failed = false;
    } };

    fn read(&mut self, buffer: &mut [u8]) -> Result<usize, Stop> {
        self.calls = self.calls.saturating_add(1);
        if self.is_interrupted {
            self.interruptions = self.interruptions.saturating_add(1);
            return Err(Stop::Interrupted);
        }
        if buffer.is_empty() {
            return Ok(0);
        }
        buffer[0] = b' ';
        Ok(1)
    }
}

/// Whether the reads of a source are interrupted, the result, the bytes that are written, and the
/// number of reads.
type Served<'a> = (bool, Result<Code, StreamFault>, &'a str, u64);

/// Serves a source that never ends. Asserts the result, the bytes that are written, and the number
/// of reads.
fn is_served(rt: &impl Abort, alloc: Global, front: &mut Front<Plain>, row: &Served<'_>) {
    let mut source = Endless {
        is_interrupted: row.0,
        calls: 0,
        interruptions: 0,
    };
    let mut sink = made_at(rt, row.0, ListSink::new(alloc, 1024, 1024, None).ok());
    let served = serve_stream(alloc, front, &mut source, &mut sink);
    assert_is_at(rt, row.0, served, row.1);
    assert_reads_at(rt, row.0, sink.bytes(), row.2);
    drop(sink);
    assert_is_at(rt, row.0, source.calls, row.3);
}

/// With spaces the head of a source is too long, and interruptions use up all reads.
const SERVED: &[Served<'static>] = &[
    (false, Ok(Code::LongHead), LONG_HEAD, 16_384),
    (true, Err(StreamFault::Read), "", 2_000_000),
];

#[test]
fn a_source_without_end_is_served(rt: HostRuntime) {
    for row in SERVED {
        on_one_product(&rt, rt.alloc(), |front| {
            is_served(&rt, rt.alloc(), front, row)
        });
    }
}
