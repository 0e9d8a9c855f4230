ghost use Rattle.std.specs.Prelude.{◌≡◌, ◌≤◌, ◌<◌, [], length, Err, OnOk, IfErr};
ghost use Rattle.clock_device.specs.Reports.{IsUnread};
ghost use Rattle.clock_connections.specs.Arrivals.{most_piece, most_request_reads};
ghost use Rattle.clock_connections.specs.Arrivals.{EndsArrival, HasArrived, StopsWhenDecided};
ghost use Rattle.clock_connections.specs.declared.arrival.RequestReadError.TheVariants as unread;

use clock_device::{NoMemory, Source, Stop, room_for_read};
use clock_http::Arriving;
use std::alloc::Global;

/// The most reads for one request.
const MOST_READS: u64 = 2_000_000;

/// The most bytes that one read may return.
const PIECE: usize = 16_384;

/// Why no request was read.
#[derive(Clone, Copy, Debug, PartialEq, Eq)]
pub enum RequestReadError {
    /// A read failed, or the limit of reads was reached.
    Read,
    /// Out of memory for the bytes.
    Memory,
}

impl From<NoMemory> for RequestReadError {
    ghost from_gives = { λ _ fault. fault ≡ unread.Memory };

    fn from(_refused: NoMemory) -> RequestReadError {
        RequestReadError::Memory
    }
}

/// Reads until the bytes are a whole request or refused, or the input ends, and appends them to
/// `request`, which is empty. Each read has `piece` as its buffer. Retries interrupted reads; makes
/// 2,000,000 reads at most. Errors: those of [`read_request`].
fn read_into<R: Source>(
    source: &mut R,
    piece: &mut [u8],
    request: &mut Arriving,
) -> Result<(), RequestReadError>
    requires unread { IsUnread (R.report source.old) }
    requires some { 0 < length piece.old }
    requires short { length piece.old ≤ most_piece }
    requires empty { request.old ≡ [] }
    ensures arrived { OnOk result (HasArrived
        (record { before = R.report source.old; after = R.report source.new }) request.new) }
    ensures unread { IfErr result (λ why. EndsArrival
        (record { before = R.report source.old; after = R.report source.new }) (Err why)) }
    ensures calls { (R.report source.new).calls ≤ most_request_reads }
{
    for _read in 0..MOST_READS {
        let count = match source.read(piece) {
            Ok(count) => count,
            Err(Stop::Interrupted) => continue,
            Err(Stop::Failed) => return Err(RequestReadError::Read),
        };
        let short = request.take(&piece[..count])?;
        if count == 0 || !short {
            return Ok(());
        }
    }
    Err(RequestReadError::Read)
}

/// Reads until the bytes are a whole request or refused, or the input ends. Retries interrupted
/// reads; makes 2,000,000 reads at most. Requires a source without earlier reads. Errors: `Read`.
/// May return `Memory`, also after some reads.
pub fn read_request<R: Source>(alloc: Global, source: &mut R) -> Result<Arriving, RequestReadError>
    requires { IsUnread (R.report source.old) }
    ensures arrival { EndsArrival
        (record { before = R.report source.old; after = R.report source.new }) result }
    ensures calls { (R.report source.new).calls ≤ most_request_reads }
{
    let mut piece = room_for_read(alloc, PIECE)?;
    let mut request = Arriving::new(alloc);
    let done = read_into(source, piece.as_mut_slice(), &mut request);
    drop(piece);
    match done {
        Ok(()) => Ok(request),
        Err(why) => {
            drop(request);
            Err(why)
        }
    }
}

/// A law, which does nothing when it runs: if the bytes read were decided, and a read has failed
/// since, no result of [`read_request`] is right. So it does not read on when they are decided.
pub fn law_of_arrivals()
    ensures { StopsWhenDecided }
{}
