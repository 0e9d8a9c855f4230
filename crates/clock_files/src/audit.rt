//! `audit`: an auction that is counted again, from its set-up document and its journal only.
ghost use Rattle.std.specs.Prelude.{◌≡◌, [], List, ℕ, IfOk, IfErr};
ghost use Rattle.clock_terms.specs.Limits.{SetupFields};
ghost use Rattle.clock_journal.specs.Sources.{HasBytes};
ghost use Rattle.clock_server.specs.Keeping.{IsRefused};
ghost use Rattle.clock_files.specs.Audits.{IsAuditOf, IsRecounted, IsAuditFault, audited};

use crate::document::front_in;
use crate::files::{digits_of, file_bytes, journal_source, tell_all};
use clock_console::{Fault, NamedFiles};
use clock_device::{NoMemory, Sink, Source, Text};
use clock_front::{Effect, Front};
use clock_journal::{Link, Machine, Record, Recovered, TakeError, digest_of, recover_from};
use clock_queue::Woken;
use clock_reports::{Digits, audit_text, report_so_far};
use clock_server::take_text;
use std::alloc::Global;
use std::fs::File;
use std::rt::Files;

/// Prints the rounds of a journal.
pub fn tell_audit<R>(rt: &R, out: &mut impl Sink, named: &NamedFiles) -> Result<(), Fault>
where
    R: Files<File = File> + Print + Alloc<A = Global>,
{
    let document = file_bytes(rt, named.setup)?;
    let first = digest_of(document.as_slice());
    let front = front_in(rt.alloc(), document)?;
    let digests = Vec::new(rt.alloc());
    let mut recount = Recount { front, digests };
    let made = match journal_source(rt, named.journal) {
        Ok(mut source) => audit_of(rt.alloc(), &mut recount, &first, &mut source),
        Err(fault) => Err(fault),
    };
    drop(recount);
    let (text, recovered) = made?;
    tell_all(rt, out, text.as_slice(), recovered)
}

/// An auction that takes the texts of a journal, and the digest of each closing.
#[derive(Drop)]
pub struct Recount {
    front: Front<Woken>,
    digests: Vec<Digits>,
}

impl Machine for Recount {
    ghost Rules = { SetupFields };

    ghost rules = { λ recount. recount.front.setup };

    ghost stands_for = { λ recount first texts. IsRecounted first texts recount.front
        recount.digests.items };

    ghost refuses = { λ setup texts text. IsRefused setup texts text };

    fn take(&mut self, text: &[u8], at: &Record) -> Result<(), TakeError> {
        if let Effect::Closing(_) = take_text(&mut self.front, text)? {
            let digits = digits_of(&at.digest);
            self.digests.push(digits).or(Err(TakeError::NoMemory))?;
        }
        Ok(())
    }
}

/// Returns the lines of the closed rounds in a journal, each with the digest of its closing, and if
/// the auction has ended, what each bidder won. `first` is the digest of the set-up document, and
/// `source` has the journal, of which at most one record is in memory. Returns what was recovered,
/// too. Requires a recount without texts.
pub fn audit_of<S: Source>(
    alloc: Global,
    recount: &mut Recount,
    first: &Link,
    source: &mut S,
) -> Result<(Text, Recovered), Fault>
    requires { IsRecounted first.now [] recount.old.front recount.old.digests.items }
    ensures ok { IfOk result (λ audit. (bytes : List ℕ)
        × HasBytes (S.report source.old).left bytes
        × IsAuditOf recount.old.front.setup first.now bytes audit.0 audit.1) }
    ensures err { IfErr result (λ fault. (bytes : List ℕ)
        × HasBytes (S.report source.old).left bytes
        × IsAuditFault recount.old.front.setup first.now bytes (S.report source.old)
        (S.report source.new) fault) }
{
    let recovered = recover_from(alloc, recount, first, source)?;
    let text = rounds_of(alloc, recount)?;
    Ok((text, recovered))
}

/// Returns the lines of the closed rounds. `recount` has taken all texts.
fn rounds_of(alloc: Global, recount: &Recount) -> Result<Text, NoMemory>
    requires { (first : List ℕ) × (texts : List (List ℕ))
        × IsRecounted first texts recount.now.front recount.now.digests.items }
    ensures { (first : List ℕ) (texts : List (List ℕ))
        → IsRecounted first texts recount.now.front recount.now.digests.items
        → IfOk result (λ text. text ≡ audited recount.now.front.setup first texts) }
{
    let house = recount.front.house();
    if house.closed_rounds() == 0 {
        return Ok(Text::new(alloc));
    }
    let report = report_so_far(alloc, house)?;
    audit_text(alloc, &report, recount.digests.as_slice())
}
