ghost use Rattle.std.specs.Prelude.{◌≡◌, ◌≤◌, ◌+◌, ◌++◌, [], List, ℕ, IfOk, decimal, length, take};
ghost use Rattle.std.specs.Prelude.{false};
ghost use Rattle.clock_device.specs.Buffers.{BufferFields, IsPut, IsPutIf, IsWrittenOut, Puts};
ghost use Rattle.clock_device.specs.{Buffers.{output}, Reports.{SinkReport}};

use crate::decimal::put_before;
use crate::items::NoMemory;
use crate::stream::{Failed, Sink, room_for_read, write_all};
use itoa::Buffer as Digits;
use std::alloc::Global;
use std::marker::Model;

/// How many bytes are collected before they are written.
const PIECE: usize = 16_384;

/// Bytes that are collected, and written to a sink in pieces, so that a long text is never in
/// memory as a whole. Its memory is allocated when it is made.
///
/// A failed write is remembered, and nothing is written after it. [`Buffer::finish`] returns it.
///
/// In contracts, a buffer is the bytes that wait, and whether a write has failed.
#[derive(Drop)]
pub struct Buffer {
    /// A piece. Its first bytes wait.
    bytes: Vec<u8>,
    /// How many bytes wait.
    used: usize,
    has_failed: bool,
}

impl Model for Buffer {
    ghost use Rattle.std.specs.Prelude.{take, vec_len, ◌≡◌, ◌≤◌};
    ghost use Rattle.clock_device.specs.Buffers.{BufferFields};

    ghost Value = { BufferFields };

    ghost view = { λ b.
        record { waiting = take b.used b.bytes.items; has_failed = b.has_failed } };

    ghost invariant = { λ b. (vec_len b.bytes ≡ 16384) × (b.used ≤ 16384) };
}

impl Buffer {
    /// Makes an empty buffer. May return `NoMemory`.
    pub fn new(alloc: Global) -> Result<Buffer, NoMemory>
        ensures { IfOk result (λ buffer. buffer ≡ record { waiting = []; has_failed = false }) }
    {
        Ok(Buffer {
            bytes: room_for_read(alloc, PIECE)?,
            used: 0,
            has_failed: false,
        })
    }

    /// Appends bytes. If there is no room for them, writes to `sink` what was collected before.
    /// Allocates nothing.
    #[inline(always)]
    pub fn put<W: Sink>(&mut self, sink: &mut W, bytes: &[u8])
        ensures { Puts (output (W.report sink.old) self.old)
            (output (W.report sink.new) self.new) bytes.now }
    {
        if bytes.len() <= PIECE - self.used {
            self.used = copied_in(&mut self.bytes, self.used, bytes);
        } else {
            self.put_beyond(sink, bytes);
        }
    }

    /// Appends a number in decimal, like [`Buffer::put`].
    pub fn put_number<W: Sink>(&mut self, sink: &mut W, number: u64)
        ensures { Puts (output (W.report sink.old) self.old)
            (output (W.report sink.new) self.new) (decimal number) }
    {
        self.put(sink, Digits::new().format(number).as_bytes());
    }

    /// Appends bytes for which there is no room. They are collected, unless they are longer than a
    /// piece.
    #[inline(never)]
    fn put_beyond<W: Sink>(&mut self, sink: &mut W, bytes: &[u8])
        ensures { Puts (output (W.report sink.old) self.old)
            (output (W.report sink.new) self.new) bytes.now }
    {
        self.flush(sink);
        if bytes.len() <= PIECE {
            self.used = copied_in(&mut self.bytes, 0, bytes);
        } else {
            self.has_failed = write_unless(self.has_failed, sink, bytes);
        }
    }

    /// Writes what was collected, unless a write has failed before. Nothing waits then.
    fn flush<W: Sink>(&mut self, sink: &mut W)
        ensures put { (start : SinkReport) → (text : List ℕ)
            → IsPut start (output (W.report sink.old) self.old) text
            → IsPut start (output (W.report sink.new) self.new) text }
        ensures none { self.new.waiting ≡ [] }
    {
        self.has_failed = write_unless(self.has_failed, sink, &self.bytes[..self.used]);
        self.used = 0;
    }

    /// Writes what was collected. Returns `Failed` if a write has failed, now or before.
    pub fn finish<W: Sink>(&mut self, sink: &mut W) -> Result<(), Failed>
        ensures written { (start : SinkReport) → (text : List ℕ)
            → IsPut start (output (W.report sink.old) self.old) text
            → IsWrittenOut start (W.report sink.new) text result }
    {
        self.flush(sink);
        if self.has_failed {
            return Err(Failed);
        }
        Ok(())
    }
}

/// Copies bytes to index `used`, and returns the index after them. Requires that they fit.
#[inline(always)]
fn copied_in(all: &mut [u8], used: usize, bytes: &[u8]) -> usize
    requires { used + length bytes.now ≤ length all.old }
    ensures end { result ≡ used + length bytes.now }
    ensures same_length { length all.new ≡ length all.old }
    ensures copied { take result all.new ≡ take used all.old ++ bytes.now }
{
    let end = used + bytes.len();
    put_before(all, end, bytes);
    end
}

/// Writes bytes, unless a write has failed before. Returns whether a write has failed, now or
/// before.
fn write_unless<W: Sink>(has_failed: bool, sink: &mut W, bytes: &[u8]) -> bool
    ensures { (start : SinkReport) → (text : List ℕ)
        → IsPutIf has_failed start (W.report sink.old) bytes.now text
        → IsPutIf result start (W.report sink.new) [] text }
{
    if has_failed {
        return true;
    }
    write_all(sink, bytes).is_err()
}
