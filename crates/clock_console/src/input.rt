ghost use Rattle.std.specs.Prelude.{◌≤◌};
ghost use Rattle.clock_device.specs.Reports.{IsUnread};
ghost use Rattle.clock_console.specs.Input.{most_document_reads, IsReadingOf};

use crate::fault::Fault;
use clock_device::{Source, Stop, Text, room_for_read};
use std::alloc::Global;

/// The most bytes of input.
const MOST_BYTES: usize = 67_108_864;

/// The most reads.
const MOST_READS: u64 = 100_000_000;

/// The most bytes that one read may return.
const PIECE: usize = 65_536;

/// Reads the whole input. Retries interrupted reads. Errors: `Input` if a read failed or too many
/// were made, `LongInput` if there are more than 67,108,864 bytes. May return `Memory`.
pub fn read_all<R: Source>(alloc: Global, reader: &mut R) -> Result<Text, Fault>
    requires { IsUnread (R.report reader.old) }
    ensures reading { IsReadingOf
        (record { before = R.report reader.old; after = R.report reader.new }) result }
    ensures calls { (R.report reader.new).calls ≤ most_document_reads }
{
    let mut piece = room_for_read(alloc, PIECE)?;
    let mut document = Text::new(alloc);
    for _call in 0..MOST_READS {
        let free = MOST_BYTES - document.as_slice().len();
        let asked = piece.len().min(free + 1);
        let part = &mut piece.as_mut_slice()[..asked];
        let count = match reader.read(part) {
            Ok(count) => count,
            Err(Stop::Interrupted) => continue,
            Err(Stop::Failed) => return Err(Fault::Input),
        };
        if count > free {
            return Err(Fault::LongInput);
        }
        if count == 0 {
            return Ok(document);
        }
        document.extend_from_slice(&part[..count])?;
    }
    Err(Fault::Input)
}
