ghost use Rattle.std.specs.Prelude.{◌≡◌, ◌++◌, ◌+◌, ◌≤◌, ◌||◌, decimal, drop, length, take, OnOk};
ghost use Rattle.std.specs.Prelude.{OnErr, is_err};
ghost use Rattle.clock_device.specs.{Decimal.{number_or_dash}, Streams.{WritesText}};

use crate::items::{Bounded, Items, NoMemory};
use crate::stream::{Failed, Sink, write_all};
use itoa::Buffer;

impl Items<u8> {
    /// Appends `number` in decimal. May return `NoMemory`; then nothing was appended.
    pub fn push_number(&mut self, number: u64) -> Result<(), NoMemory>
        ensures ok { OnOk result (self.new ≡ self.old ++ decimal number) }
        ensures err { OnErr result (self.new ≡ self.old) }
    {
        let mut buffer = Buffer::new();
        self.extend_from_slice(buffer.format(number).as_bytes())
    }

    /// Appends `number` in decimal, or a dash for `None`. May return `NoMemory`; then nothing was
    /// appended.
    pub fn push_or_dash(&mut self, number: Option<u64>) -> Result<(), NoMemory>
        ensures ok { OnOk result (self.new ≡ self.old ++ number_or_dash number) }
        ensures err { OnErr result (self.new ≡ self.old) }
    {
        match number {
            Some(number) => self.push_number(number),
            None => self.push(b'-'),
        }
    }
}

impl Bounded<u8> {
    /// Appends `number` in decimal: 20 digits at most. Requires capacity for 20 more bytes.
    pub fn push_number(&mut self, number: u64)
        requires { 20 ≤ self.old.room }
        ensures items { self.new.items ≡ self.old.items ++ decimal number }
        ensures room { self.old.room ≤ self.new.room + 20 }
    {
        self.extend_from_slice(Buffer::new().format(number).as_bytes());
    }
}

/// Writes `number` in decimal, or a prefix of its digits if a write fails.
pub fn write_number<W: Sink>(sink: &mut W, number: u64) -> Result<(), Failed>
    ensures bytes { WritesText (W.report sink.old).taken (W.report sink.new).taken
        (decimal number) result }
    ensures failed { (W.report sink.new).has_failed
        ≡ ((W.report sink.old).has_failed || is_err result) }
{
    write_all(sink, Buffer::new().format(number).as_bytes())
}

/// Overwrites the bytes before index `end` with `piece`, and returns the index at which they begin.
/// Requires that they fit.
///
/// A text of several pieces is so written from its end to its start, and then copied at once. To
/// append each piece by itself would cost a call and a check of capacity for each.
#[inline(always)]
pub fn put_before(bytes: &mut [u8], end: usize, piece: &[u8]) -> usize
    requires room { length piece.now ≤ end }
    requires within { end ≤ length bytes.old }
    ensures start { result + length piece.now ≡ end }
    ensures same_length { length bytes.new ≡ length bytes.old }
    ensures ahead { take result bytes.new ≡ take result bytes.old }
    ensures put { drop result bytes.new ≡ piece.now ++ drop end bytes.old }
{
    let start = end - piece.len();
    bytes[start..end].copy_from_slice(piece);
    start
}
