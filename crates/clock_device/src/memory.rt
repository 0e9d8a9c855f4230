ghost use Rattle.std.specs.Prelude.{◌≡◌, ◌≤◌, ◌||◌, ◌++◌, length, take, drop, IfOk, OnErr, Some};
ghost use Rattle.std.specs.Prelude.{vec_len, vec_capacity, is_err};
ghost use Rattle.std.specs.{Result.{result_ok}, Io.{ReadsAtMost}};
ghost use Rattle.std.specs.Io.KnownBytes.{ReadConsumes, WriteAppends};
ghost use Rattle.clock_device.specs.Calls.{count_after, interruptions_after, is_failed_read};
ghost use Rattle.clock_device.specs.Streams.{CountsTaken};
ghost use Rattle.clock_device.specs.SourceState.{SourceState, after_read, new_source, read_answer};
ghost use Rattle.clock_device.specs.SourceState.{source_report};
ghost use Rattle.clock_device.specs.SinkState.{SinkState, after_write, new_sink, sink_report};
ghost use Rattle.clock_device.specs.SinkState.{write_count};

use crate::items::NoMemory;
use crate::stream::{Failed, Sink, Source, Stop};
use std::alloc::Global;
use std::marker::Model;

/// A [`Source`] of bytes in memory, for tests. A read returns at most `piece` bytes. `stop` is the
/// index of a read, from 0, that stops instead, and how.
#[derive(Drop)]
pub struct ListSource<'a> {
    left: &'a [u8],
    piece: usize,
    stop: Option<(u64, Stop)>,
    calls: u64,
    interruptions: u64,
    has_failed: bool,
}

impl<'a> Model for ListSource<'a> {
    ghost Value = { SourceState };

    ghost view = { λ s. record {
      left = s.left.now;
      piece = s.piece;
      stop = s.stop;
      calls = s.calls;
      interruptions = s.interruptions;
      has_failed = s.has_failed;
    } };

    ghost invariant = { λ s. 1 ≤ s.piece };
}

impl<'a> ListSource<'a> {
    /// Makes a source of these bytes, without reads so far. Requires `piece` above 0.
    pub fn new(bytes: &'a [u8], piece: usize, stop: Option<(u64, Stop)>) -> ListSource<'a>
        requires { 1 ≤ piece }
        ensures { result ≡ new_source bytes.now piece stop }
    {
        ListSource {
            left: bytes,
            piece,
            stop,
            calls: 0,
            interruptions: 0,
            has_failed: false,
        }
    }
}

impl Source for ListSource<'_> {
    ghost report = { λ source. source_report source };

    /// Stops only at the read that `stop` names. Leaves the buffer unchanged after the bytes that
    /// it returns.
    fn read(&mut self, buffer: &mut [u8]) -> Result<usize, Stop>
        ensures within { ReadsAtMost result buffer.new }
        ensures bytes { ReadConsumes (Some self.old.left) (Some self.new.left) result buffer.new }
        ensures counted { self.new.calls ≡ count_after self.old.calls }
        ensures interrupted { self.new.interruptions
            ≡ interruptions_after self.old.interruptions result }
        ensures failed { self.new.has_failed ≡ (self.old.has_failed || is_failed_read result) }

        ensures answer { result ≡ read_answer self.old (length buffer.old) }
        ensures state { self.new ≡ after_read self.old result }
        ensures ok { IfOk result (λ n. buffer.new ≡ take n self.old.left ++ drop n buffer.old) }
        ensures err { OnErr result (buffer.new ≡ buffer.old) }
    {
        let call = self.calls;
        self.calls = call.saturating_add(1);
        match self.stop {
            Some((at, Stop::Interrupted)) if at == call => {
                self.interruptions = self.interruptions.saturating_add(1);
                Err(Stop::Interrupted)
            }
            Some((at, Stop::Failed)) if at == call => {
                self.has_failed = true;
                Err(Stop::Failed)
            }
            _ => {
                let count = self.piece.min(buffer.len()).min(self.left.len());
                buffer[..count].copy_from_slice(&self.left[..count]);
                self.left = &self.left[count..];
                Ok(count)
            }
        }
    }
}

/// A [`Sink`] in memory, for tests. It accepts `room` bytes in all, and at most `piece` bytes a
/// write. `stop` is the index of a write, from 0, that fails.
#[derive(Drop)]
pub struct ListSink {
    taken: Vec<u8>,
    room: usize,
    piece: usize,
    stop: Option<u64>,
    calls: u64,
    has_failed: bool,
}

impl Model for ListSink {
    ghost Value = { SinkState };

    ghost view = { λ s. record {
      taken = s.taken.items;
      room = s.room;
      piece = s.piece;
      stop = s.stop;
      calls = s.calls;
      has_failed = s.has_failed;
    } };

    ghost invariant = { λ s. (vec_len s.taken ≤ s.room)
        × (s.room ≤ vec_capacity s.taken) × (1 ≤ s.piece) };
}

impl ListSink {
    /// Makes an empty sink, without writes so far. Requires `piece` above 0. May return `NoMemory`;
    /// its writes allocate nothing.
    pub fn new(
        alloc: Global,
        room: usize,
        piece: usize,
        stop: Option<u64>,
    ) -> Result<ListSink, NoMemory>
        requires { 1 ≤ piece }
        ensures { IfOk result (λ sink. sink ≡ new_sink room piece stop) }
    {
        Ok(ListSink {
            taken: Vec::with_capacity(alloc, room)?,
            room,
            piece,
            stop,
            calls: 0,
            has_failed: false,
        })
    }

    /// Returns the bytes written to it.
    pub fn bytes(&self) -> &[u8]
        ensures { result.now ≡ self.now.taken }
    {
        self.taken.as_slice()
    }
}

impl Sink for ListSink {
    ghost report = { λ sink. sink_report sink };

    /// Fails at the write that `stop` names, if the sink is full, and if `bytes` is empty.
    fn write(&mut self, bytes: &[u8]) -> Result<usize, Failed>
        ensures within { CountsTaken result bytes.now }
        ensures bytes { WriteAppends (Some self.old.taken) (Some self.new.taken) result bytes.now }
        ensures counted { self.new.calls ≡ count_after self.old.calls }
        ensures failed { self.new.has_failed ≡ (self.old.has_failed || is_err result) }

        ensures answer { result_ok result ≡ write_count self.old (length bytes.now) }
        ensures state { self.new ≡ after_write self.old bytes.now }
    {
        let is_stopped = self.stop == Some(self.calls);
        self.calls = self.calls.saturating_add(1);
        let free = self.room - self.taken.len();
        let count = self.piece.min(free).min(bytes.len());
        if is_stopped || count == 0 || self.taken.extend_from_slice(&bytes[..count]).is_err() {
            self.has_failed = true;
            return Err(Failed);
        }
        Ok(count)
    }
}
