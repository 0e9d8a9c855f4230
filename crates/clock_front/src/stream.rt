ghost use Rattle.std.specs.Prelude.{◌≡◌, ◌≤◌, ℕ, List};
ghost use Rattle.clock_device.specs.Reports.{IsUnread, IsUnused};
ghost use Rattle.clock_connections.specs.Arrivals.{most_request_reads};
ghost use Rattle.clock_front.specs.{Fronts.{StandsForTexts}, Streamed.{HasServed, IsServed}};
ghost use Rattle.clock_front.specs.inside.Streamed.{IsNextAnswer};

use crate::front::{Front, no_memory_reply};
use clock_api::{Code, Reply};
use clock_connections::{RequestReadError, read_request};
use clock_device::{Sink, Source, write_all};
use clock_processor::Processor;
use std::alloc::Global;
use thiserror::Error;

/// Why a stream was not served.
///
/// `Read`: a read failed, or 2,000,000 reads did not bring a whole request. Nothing was answered or
/// written.
///
/// `Write`: a write failed, was interrupted, or wrote no byte. The request took effect as the code
/// says, and a prefix of its reply may have been written.
#[derive(Clone, Copy, Debug, PartialEq, Eq, Error)]
pub enum StreamFault {
    #[error("the request could not be read")]
    Read,
    #[error("the reply could not be written")]
    Write(Code),
}

/// Reads one request and answers it. `None` if it could not be read, and then nothing has changed.
fn answer_next<P: Processor, R: Source>(
    alloc: Global,
    front: &mut Front<P>,
    source: &mut R,
) -> Option<Reply>
    requires { IsUnread (R.report source.old) }
    ensures answer { IsNextAnswer
        (record { before = R.report source.old; after = R.report source.new })
        front.old front.new result }
    ensures calls { (R.report source.new).calls ≤ most_request_reads }
    ensures setup { front.new.setup ≡ front.old.setup }
{
    match read_request(alloc, source) {
        Ok(request) => Some(front.answer_framed(request.framing())),
        Err(RequestReadError::Memory) => Some(no_memory_reply()),
        Err(RequestReadError::Read) => None,
    }
}

/// Reads one request, answers it, and writes the reply. The code says what the request did.
///
/// Reads stop when the bytes decide what the request is. An interrupted read is repeated, and there
/// are at most 2,000,000 reads. If the input ends before, the reply is [`Code::CutShort`]. If there
/// is no memory for the bytes, it is that of [`Code::Memory`], and nothing has changed.
pub fn serve_stream<P: Processor, R: Source, W: Sink>(
    alloc: Global,
    front: &mut Front<P>,
    source: &mut R,
    sink: &mut W,
) -> Result<Code, StreamFault>
    requires unread { IsUnread (R.report source.old) }
    requires unused { IsUnused (W.report sink.old) }
    ensures served { IsServed (record { before = R.report source.old; after = R.report source.new })
        (record { before = W.report sink.old; after = W.report sink.new })
        front.old front.new result }
    ensures stands { (texts : List (List ℕ)) → StandsForTexts texts front.old
        → HasServed 1 texts front.new }
    ensures calls { (R.report source.new).calls ≤ most_request_reads }
    ensures setup { front.new.setup ≡ front.old.setup }
{
    match answer_next(alloc, front, source) {
        Some(reply) => {
            let code = reply.code();
            let written = write_all(sink, reply.bytes());
            drop(reply);
            match written {
                Ok(()) => Ok(code),
                Err(_) => Err(StreamFault::Write(code)),
            }
        }
        None => Err(StreamFault::Read),
    }
}
