ghost use Rattle.std.specs.Prelude.{◌≢◌, ◌≤◌, ℕ, List, IfOk, IfSome, length, map};
ghost use Rattle.clap.specs.Words.{kind_of};
ghost use Rattle.clock_device.specs.Reports.{IsUnread, IsUnused};
ghost use Rattle.clock_console.specs.Words.{IsAsked, IsJob, IsParsing, job_of};
ghost use Rattle.clock_console.specs.FaultLines.{fault_line};
ghost use Rattle.clock_console.specs.Input.{most_document_reads};
ghost use Rattle.clock_commands.specs.Run.{ComesTo, IsRunOf, Shows, ShowsSome};

use crate::answer::answer;
use clap::Error;
use clap::error::ErrorKind;
use clock_console::{Asked, Fault, Job, read_all, read_words, write_fault};
use clock_device::{Sink, Source, write_all};
use std::alloc::Global;

/// The message for the commands `serve`, `journal`, and `audit`, which use files and ports instead
/// of streams.
static NOT_HERE: &str =
    "error: `serve`, `journal` and `audit` are done by the program itself, and not over streams\n";

/// Runs the command that the program's arguments name, with a document from `reader`, and returns
/// the exit status:
///
/// - 0: `writer` has the whole answer, and `faults` has nothing.
/// - 1: a fault. Its line is on `faults`, and `writer` has nothing, unless its own write failed.
/// - 2: the arguments are refused, ask for help, or name a command that is not done here. The
///   message is on `faults`; nothing was read or written. The program's `main` does `serve`,
///   `journal`, and `audit`.
///
/// Requires streams without earlier calls. Reads at most 67,108,864 bytes, and one more to find
/// that there are more, in at most 100,000,000 reads. A message that cannot be written does not
/// change the status.
pub fn command<R: Source, W: Sink, F: Sink>(
    alloc: Global,
    words: &[&str],
    reader: &mut R,
    writer: &mut W,
    faults: &mut F,
) -> u8
    requires unread { IsUnread (R.report reader.old) }
    requires unwritten { IsUnused (W.report writer.old) }
    requires unshown { IsUnused (F.report faults.old) }
    ensures ending { ComesTo (job_of (map (λ word. word.now) words.entry.now))
        (record { before = R.report reader.old; after = R.report reader.new })
        (record { before = W.report writer.old; after = W.report writer.new })
        (record { before = F.report faults.old; after = F.report faults.new }) result }
    ensures reads { (R.report reader.new).calls ≤ most_document_reads }
{
    parsed_command(alloc, read_words(alloc, words), reader, writer, faults)
}

/// Like [`command`], for arguments that [`read_words`] parsed.
pub fn parsed_command<R: Source, W: Sink, F: Sink>(
    alloc: Global,
    parsed: Result<Option<Asked<'_>>, Error>,
    reader: &mut R,
    writer: &mut W,
    faults: &mut F,
) -> u8
    requires limits { IfOk parsed (λ asked. IfSome asked IsAsked) }
    requires unread { IsUnread (R.report reader.old) }
    requires unwritten { IsUnused (W.report writer.old) }
    requires unshown { IsUnused (F.report faults.old) }
    ensures ending { (words : List (List ℕ)) → IsParsing words parsed.entry → ComesTo (job_of words)
        (record { before = R.report reader.old; after = R.report reader.new })
        (record { before = W.report writer.old; after = W.report writer.new })
        (record { before = F.report faults.old; after = F.report faults.new }) result }
    ensures reads { (R.report reader.new).calls ≤ most_document_reads }
{
    match parsed {
        Ok(Some(Asked::Job(job))) => match run(alloc, job, reader, writer) {
            Ok(()) => 0,
            Err(fault) => {
                show_fault(fault, faults);
                1
            }
        },
        Ok(_) => {
            show_message(NOT_HERE, faults);
            2
        }
        Err(error) => match usage_of(alloc, error) {
            Some(usage) => {
                show_message(&usage, faults);
                drop(usage);
                2
            }
            None => {
                show_fault(Fault::Memory, faults);
                1
            }
        },
    }
}

/// Writes a message, or a prefix of it if a write fails.
fn show_message<F: Sink>(message: &str, faults: &mut F)
    requires { IsUnused (F.report faults.old) }
    ensures { ShowsSome (record { before = F.report faults.old; after = F.report faults.new }) }
{
    let _ = write_all(faults, some_message(message).as_bytes());
}

/// Returns a message, or a line in place of an empty one.
fn some_message(message: &str) -> &str
    ensures { 1 ≤ length result.now }
{
    if message.is_empty() {
        return "error\n";
    }
    message
}

/// Returns clap's message for refused arguments, or `None` if out of memory.
fn usage_of(alloc: Global, error: Error) -> Option<String>
    ensures { IfSome result (λ usage. kind_of error ≢ ErrorKind.OutOfMemory) }
{
    if error.kind() == ErrorKind::OutOfMemory {
        return None;
    }
    error.to_string(alloc).ok()
}

/// Reads the document, and prints the job's answer to it.
fn run<R: Source, W: Sink>(
    alloc: Global,
    job: Job,
    reader: &mut R,
    writer: &mut W,
) -> Result<(), Fault>
    requires job { IsJob job }
    requires unread { IsUnread (R.report reader.old) }
    requires unwritten { IsUnused (W.report writer.old) }
    ensures run { IsRunOf job (record { before = R.report reader.old; after = R.report reader.new })
        (record { before = W.report writer.old; after = W.report writer.new }) result }
    ensures reads { (R.report reader.new).calls ≤ most_document_reads }
{
    let document = read_all(alloc, reader)?;
    let answer = answer(alloc, job, document)?;
    answer.write(writer).or(Err(Fault::Output))
}

/// Writes the line of a fault, or a prefix of it if a write fails.
pub fn show_fault<F: Sink>(fault: Fault, faults: &mut F)
    requires { IsUnused (F.report faults.old) }
    ensures { Shows (record { before = F.report faults.old; after = F.report faults.new })
        (fault_line fault) }
{
    let _ = write_fault(faults, fault);
}
