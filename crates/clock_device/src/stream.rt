ghost use Rattle.std.specs.Prelude.{◌≡◌, ◌≤◌, ◌||◌, length, vec_len, IfOk, OnErr, is_err};
ghost use Rattle.std.specs.Io.{ReadsAtMost, KnownBytes.{ReadConsumes, WriteAppends}};
ghost use Rattle.clock_device.specs.Calls.{count_after, interruptions_after, is_failed_read};
ghost use Rattle.clock_device.specs.Streams.{CountsTaken, WritesText};
ghost use Rattle.clock_device.specs.Reports.{SinkReport, SourceReport, IsUnread, IsUnused, unread};
ghost use Rattle.clock_device.specs.Reports.{unused};

use crate::items::NoMemory;
use std::alloc::Global;
use std::io::{ErrorKind, Read, Write};
use thiserror::Error;

/// Why a read returned no bytes. The source still has all of them.
#[derive(Clone, Copy, Debug, PartialEq, Eq, Error)]
pub enum Stop {
    /// A signal arrived before any byte. The read may be retried.
    #[error("interrupted")]
    Interrupted,
    /// The source failed.
    #[error("the read failed")]
    Failed,
}

/// The error of a write that wrote no byte: the sink failed, was interrupted, or is full, or there
/// was no byte to write.
#[derive(Clone, Copy, Debug, PartialEq, Eq, Error)]
#[error("the write failed")]
pub struct Failed;

/// A source of bytes.
///
/// In contracts, a source reports the bytes still to be read, if it knows them; the numbers of
/// reads and of interrupted reads, which stay at the greatest `u64`; and whether a read has failed.
pub trait Source {
    ghost report: { Self → SourceReport };

    /// Reads the next bytes into the start of the buffer, and returns their number. For a nonempty
    /// buffer this is 0 exactly if no byte is left. The rest of the buffer may have any content.
    fn read(&mut self, buffer: &mut [u8]) -> Result<usize, Stop>
        ensures within { ReadsAtMost result buffer.new }
        ensures bytes { ReadConsumes (report self.old).left
            (report self.new).left result buffer.new }
        ensures counted { (report self.new).calls ≡ count_after (report self.old).calls }
        ensures interrupted { (report self.new).interruptions
            ≡ interruptions_after (report self.old).interruptions result }
        ensures failed { (report self.new).has_failed
            ≡ ((report self.old).has_failed || is_failed_read result) };
}

/// Allocates a buffer of `size` bytes. May return `NoMemory`.
pub fn room_for_read(alloc: Global, size: usize) -> Result<Vec<u8>, NoMemory>
    ensures { IfOk result (λ room. vec_len room ≡ size) }
{
    Ok(vec![in alloc; 0; size]?)
}

/// A sink of bytes.
///
/// In contracts, a sink reports the bytes written to it, if it knows them; the number of writes,
/// which stays at the greatest `u64`; and whether a write has failed.
pub trait Sink {
    ghost report: { Self → SinkReport };

    /// Writes some of the bytes, from their start and at least one, and returns their number.
    fn write(&mut self, bytes: &[u8]) -> Result<usize, Failed>
        ensures within { CountsTaken result bytes.now }
        ensures bytes { WriteAppends (report self.old).taken
            (report self.new).taken result bytes.now }
        ensures counted { (report self.new).calls ≡ count_after (report self.old).calls }
        ensures failed { (report self.new).has_failed
            ≡ ((report self.old).has_failed || is_err result) };
}

/// Writes all bytes, or a prefix of them if a write fails. Makes no write if there are none.
pub fn write_all<W: Sink>(sink: &mut W, bytes: &[u8]) -> Result<(), Failed>
    ensures bytes { WritesText (W.report sink.old).taken
        (W.report sink.new).taken bytes.now result }
    ensures tried { OnErr result (1 ≤ length bytes.now) }
    ensures failed { (W.report sink.new).has_failed
        ≡ ((W.report sink.old).has_failed || is_err result) }
{
    let mut done = 0;
    while done < bytes.len() {
        done += sink.write(&bytes[done..])?;
    }
    Ok(())
}

/// A [`Source`] that reads from a reader of std.
///
/// It reports the bytes that the reader reports: a slice or a list knows them, a file or a socket
/// does not.
#[derive(Drop)]
pub struct FromReader<R> {
    reader: R,
    calls: u64,
    interruptions: u64,
    has_failed: bool,
}

impl<R: Read> FromReader<R> {
    /// Makes a source of a reader, without reads so far.
    pub fn new(reader: R) -> FromReader<R>
        ensures report { ⟦<FromReader<R> as Source>⟧.report result ≡ unread (R.remaining reader) }
        ensures unread { IsUnread (⟦<FromReader<R> as Source>⟧.report result) }
    {
        FromReader {
            reader,
            calls: 0,
            interruptions: 0,
            has_failed: false,
        }
    }
}

impl<R: Read> Source for FromReader<R> {
    ghost report = { λ source. record {
      left = R.remaining source.reader;
      calls = source.calls;
      interruptions = source.interruptions;
      has_failed = source.has_failed;
    } };

    fn read(&mut self, buffer: &mut [u8]) -> Result<usize, Stop> {
        self.calls = self.calls.saturating_add(1);
        match self.reader.read(buffer) {
            Ok(count) => Ok(count),
            Err(error) if error.kind() == ErrorKind::Interrupted => {
                self.interruptions = self.interruptions.saturating_add(1);
                Err(Stop::Interrupted)
            }
            Err(_) => {
                self.has_failed = true;
                Err(Stop::Failed)
            }
        }
    }
}

/// A [`Sink`] that writes to a writer of std.
///
/// It reports the bytes that the writer reports: a `Vec` knows them, a file or a socket does not.
#[derive(Drop)]
pub struct ToWriter<W> {
    writer: W,
    calls: u64,
    has_failed: bool,
}

impl<W: Write> ToWriter<W> {
    /// Makes a sink of a writer, without writes so far.
    pub fn new(writer: W) -> ToWriter<W>
        ensures report { ⟦<ToWriter<W> as Sink>⟧.report result ≡ unused (W.contents writer) }
        ensures unused { IsUnused (⟦<ToWriter<W> as Sink>⟧.report result) }
    {
        ToWriter {
            writer,
            calls: 0,
            has_failed: false,
        }
    }
}

impl<W: Write> Sink for ToWriter<W> {
    ghost report = { λ sink. record {
      taken = W.contents sink.writer;
      calls = sink.calls;
      has_failed = sink.has_failed;
    } };

    /// Fails also if the writer is interrupted or accepts no byte.
    fn write(&mut self, bytes: &[u8]) -> Result<usize, Failed> {
        self.calls = self.calls.saturating_add(1);
        match self.writer.write(bytes) {
            Ok(count) if count > 0 => Ok(count),
            _ => {
                self.has_failed = true;
                Err(Failed)
            }
        }
    }
}
