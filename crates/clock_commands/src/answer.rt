ghost use Rattle.std.specs.Prelude.{◌≡◌, ◌||◌, Ok, Err, IfOk, IfErr, is_err};
ghost use Rattle.clock_device.specs.Streams.{WritesText};
ghost use Rattle.clock_terms.specs.Faults.{IsRefusal};
ghost use Rattle.clock_commands.specs.{Answers.{answer_to}, inside.Answered.{text_of_answer}};
ghost use Rattle.clock_console.specs.Words.{IsJob};

use clock_console::{Fault, Job, opening_answer, prices_answer};
use clock_device::{Failed, Sink, Text, write_all};
use clock_replays::read_replay;
use clock_scripts::SimFault;
use clock_sim::{PlayedReplay, play_replay};
use std::alloc::Global;

/// What a job prints.
#[derive(Drop)]
pub(crate) enum JobAnswer {
    Text(Text),
    Report(PlayedReplay),
}

impl JobAnswer {
    /// Writes the answer, or a prefix of it if a write fails. Allocates nothing.
    pub(crate) fn write<W: Sink>(self, sink: &mut W) -> Result<(), Failed>
        ensures bytes { WritesText (W.report sink.old).taken (W.report sink.new).taken
            (text_of_answer self) result }
        ensures failed { (W.report sink.new).has_failed
            ≡ ((W.report sink.old).has_failed || is_err result) }
    {
        match self {
            JobAnswer::Text(text) => write_all(sink, text.as_slice()),
            JobAnswer::Report(played) => played.write(sink),
        }
    }
}

/// Returns what a job prints for a document, or the document's fault. Requires an increment within
/// its limits. May return `Memory`, which then replaces any other result.
pub(crate) fn answer(alloc: Global, job: Job, document: Text) -> Result<JobAnswer, Fault>
    requires { IsJob job }
    ensures ok { IfOk result (λ answer. answer_to job document ≡ Ok (text_of_answer answer)) }
    ensures err { IfErr result (IsRefusal Fault.Memory (answer_to job document)) }
{
    match job {
        Job::Prices(increment) => text_answer(prices_answer(alloc, increment, document.as_slice())),
        Job::Opening => text_answer(opening_answer(alloc, document.as_slice())),
        Job::Replay => replay_answer(alloc, document),
    }
}

/// Returns an answer that is a text.
fn text_answer(text: Result<Text, Fault>) -> Result<JobAnswer, Fault>
    ensures ok { IfOk result (λ answer. text ≡ Ok (text_of_answer answer)) }
    ensures err { IfErr result (λ fault. text ≡ Err fault) }
{
    Ok(JobAnswer::Text(text?))
}

/// Returns the report of a replay document, or its fault. Frees the document before the auction is
/// played.
fn replay_answer(alloc: Global, document: Text) -> Result<JobAnswer, Fault>
    ensures ok { IfOk result
        (λ answer. answer_to Job.Replay document ≡ Ok (text_of_answer answer)) }
    ensures err { IfErr result (IsRefusal Fault.Memory (answer_to Job.Replay document)) }
{
    let read = read_replay(alloc, document.as_slice());
    drop(document);
    match play_replay(alloc, read?) {
        Ok(played) => Ok(JobAnswer::Report(played)),
        Err(SimFault::NoMemory) => Err(Fault::Memory),
        Err(fault) => Err(Fault::Simulation(fault)),
    }
}
