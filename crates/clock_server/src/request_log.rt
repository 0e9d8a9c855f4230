ghost use Rattle.std.specs.Prelude.{◌≡◌, ◌<◌, ◌≤◌, ◌⊎◌, [], ◌∷◌, List, Option, ℕ, None, OnOk};
ghost use Rattle.std.specs.Prelude.{OnErr};
ghost use Rattle.std.specs.Prelude.{length, true, false};
ghost use Rattle.clock_journal.specs.{Crash.{LeavesOneMore}, Format.{most_text}};
ghost use Rattle.clock_journal.specs.Logged.{IsAppended, JournalState};
ghost use Rattle.clock_server.specs.Keeping.{GrowsBy, no_journal};

use clock_device::Failed;
use clock_journal::{Durable, EndedJournal, Journal, Link, MOST_TEXT};

/// What logs the accepted texts of an auction before they get their reply.
///
/// In contracts, a log is its journal, and the rounds that `round_closed` was called for, if it
/// reveals them.
pub trait RequestLog {
    ghost journal: { Self → JournalState };

    ghost rounds: { Self → Option (List ℕ) } = { λ log. None };

    /// Logs a text that changed the auction. At `Ok`, it is in the journal, if there is one, and on
    /// the disk.
    ///
    /// Requires a text that is not empty, and a journal that has not failed.
    ///
    /// At `Err`, a call of the disk failed, or the text is too long for a journal. All that was on
    /// the disk still is. Send no reply, and use neither the log nor the front that accepted the
    /// text again.
    fn log(&mut self, text: &[u8]) -> Result<(), Failed>
        requires some { 1 ≤ length text.now }
        requires unfailed { (journal self.old).has_failed ≡ false }
        ensures logged { OnOk result (IsAppended text.now (journal self.old) (journal self.new)) }
        ensures moments { LeavesOneMore text.now (journal self.old) (journal self.new) }
        ensures on_disk { OnErr result ((journal self.new).synced ≡ (journal self.old).synced) }
        ensures ok { OnOk result ((journal self.new).has_failed ≡ false) }
        ensures err { OnErr result
            (((journal self.new).has_failed ≡ true) ⊎ (most_text < length text.now)) }
        ensures rounds { rounds self.new ≡ rounds self.old };

    /// Is called after each closing of a round, and after its reply.
    fn round_closed(&mut self, round: u64)
        ensures logged { journal self.new ≡ journal self.old }
        ensures rounds { GrowsBy (rounds self.old) (rounds self.new) (round ∷ []) };
}

impl<D: Durable> RequestLog for Journal<D> {
    ghost journal = { λ journal. journal };

    fn log(&mut self, text: &[u8]) -> Result<(), Failed> {
        if text.len() > MOST_TEXT {
            return Err(Failed);
        }
        self.append(text)
    }

    fn round_closed(&mut self, _round: u64) {}
}

/// Announces closed rounds.
pub trait Announcer {
    /// Announces a closed round, after the reply to its closing. `digest` is that of the closing
    /// and of all texts before it.
    fn round_closed(&mut self, round: u64, digest: &Link);
}

/// A journal that announces each closed round.
#[derive(Drop)]
pub struct Announced<D: Durable, A> {
    pub journal: Journal<D>,
    pub announcer: A,
}

impl<D: Durable + Drop, A: Drop> Announced<D, A> {
    /// Ends the journal, and frees what announces.
    pub fn end(self) -> EndedJournal<D>
        ensures { result ≡ self.journal }
    {
        self.journal.end()
    }
}

impl<D: Durable, A: Announcer> RequestLog for Announced<D, A> {
    ghost journal = { λ log. log.journal };

    fn log(&mut self, text: &[u8]) -> Result<(), Failed> {
        self.journal.log(text)
    }

    fn round_closed(&mut self, round: u64) {
        self.announcer.round_closed(round, self.journal.chain());
    }
}

/// Logs nothing.
#[derive(Drop)]
pub struct NoLog;

impl RequestLog for NoLog {
    ghost journal = { λ log. no_journal };

    fn log(&mut self, _text: &[u8]) -> Result<(), Failed> {
        Ok(())
    }

    fn round_closed(&mut self, _round: u64) {}
}
