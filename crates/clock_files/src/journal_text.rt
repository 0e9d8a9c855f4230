//! `journal`: the texts of a journal.
ghost use Rattle.std.specs.Prelude.{◌≡◌, ◌++◌, [], List, ℕ, IfErr, IfOk, OnOk};
ghost use Rattle.clock_journal.specs.Sources.{HasBytes};
ghost use Rattle.clock_files.specs.Listings.{IsFaultOf, IsListingOf, IsShown, IsUnlisted};
ghost use Rattle.clock_files.specs.Listings.{digest_line, listing_text, spaced, text_listed};
ghost use Rattle.clock_files.specs.inside.Listed.{IsListed, IsPrinted};

use crate::files::{AnyText, digits_of, file_bytes, journal_source, tell_journal};
use clock_console::{Fault, NamedFiles};
use clock_device::{Failed, NoMemory, Sink, Source, Text, write_all};
use clock_journal::{
    JournalFault, Link, Machine, Record, Recovered, TakeError, digest_of, recover_from,
};
use std::alloc::Global;
use std::fs::File;
use std::rt::Files;

/// How many bytes of lines are collected before they are written.
const PIECE: usize = 65_536;

/// Prints the texts of a journal, or nothing if it has a fault. Reads the file twice, and opens it
/// for both before it reads.
pub fn tell_texts<R>(rt: &R, out: impl Sink + Drop, named: &NamedFiles) -> Result<(), Fault>
where
    R: Files<File = File> + Print + Alloc<A = Global>,
{
    let first = digest_of(file_bytes(rt, named.setup)?.as_slice());
    let mut source = journal_source(rt, named.journal)?;
    let mut again = journal_source(rt, named.journal)?;
    let (out, listed) = list_texts(rt.alloc(), &first, &mut source, &mut again, out);
    drop(out);
    tell_journal(rt, listed?)
}

/// A listing of texts, of which the last lines are not written yet. It takes any text, and lists
/// the first `most` of them: `count` so far, with the last digest `chain`.
#[derive(Drop)]
struct Listing<W> {
    alloc: Global,
    out: W,
    lines: Text,
    most: u64,
    count: u64,
    chain: Link,
    has_failed: bool,
}

impl<W: Sink> Machine for Listing<W> {
    ghost Rules = { ℕ };

    ghost rules = { λ listing. listing.most };

    ghost stands_for = { λ listing first texts.
        IsListed first texts (W.report listing.out).taken listing.lines listing.most listing.count
        listing.chain };

    ghost refuses = { λ rules texts text. ⊥ };

    /// Returns `NoMemory` also if a write failed.
    fn take(&mut self, text: &[u8], at: &Record) -> Result<(), TakeError> {
        if self.count >= self.most {
            return Ok(());
        }
        push_text(&mut self.lines, text, at).or(Err(TakeError::NoMemory))?;
        self.chain = at.digest;
        self.count += 1;
        match write_full(self.alloc, &mut self.out, &mut self.lines) {
            Ok(()) => Ok(()),
            Err(Failed) => {
                self.has_failed = true;
                Err(TakeError::NoMemory)
            }
        }
    }
}

impl<W: Sink> Listing<W> {
    /// Lists the first texts of a source. Errors: `Journal` if it has other texts than those with
    /// the last digest `last`, or cannot be read; `Memory`; `Output`.
    fn list<S: Source>(&mut self, first: &Link, last: &Link, source: &mut S) -> Result<(), Fault>
        ensures ok { OnOk result (IsListed first.now [] (W.report self.old.out).taken self.old.lines
            self.old.most self.old.count self.old.chain → IsPrinted first.now self.old.most last.now
            (W.report self.new.out).taken) }
        ensures err { IfErr result IsUnlisted }
    {
        if let Err(fault) = recover_from(self.alloc, self, first, source) {
            return Err(unlisted(fault, self.has_failed));
        }
        if self.count != self.most || self.chain != *last {
            return Err(Fault::Journal);
        }
        match write_lines(self.alloc, &mut self.out, &mut self.lines) {
            Ok(()) => Ok(()),
            Err(Failed) => Err(Fault::Output),
        }
    }
}

/// Returns the fault of texts that were not listed.
fn unlisted(fault: JournalFault, has_failed: bool) -> Fault
    ensures { IsUnlisted result }
{
    match fault {
        JournalFault::NoMemory if has_failed => Fault::Output,
        JournalFault::NoMemory => Fault::Memory,
        _ => Fault::Journal,
    }
}

/// Writes the lines if they are many.
fn write_full<W: Sink>(alloc: Global, out: &mut W, lines: &mut Text) -> Result<(), Failed>
    ensures { OnOk result ((text : List ℕ)
        → IsShown (W.report out.old).taken lines.old text
        → IsShown (W.report out.new).taken lines.new text) }
{
    if lines.len() < PIECE {
        return Ok(());
    }
    write_lines(alloc, out, lines)
}

/// Writes all lines.
fn write_lines<W: Sink>(alloc: Global, out: &mut W, lines: &mut Text) -> Result<(), Failed>
    ensures shown { OnOk result ((text : List ℕ)
        → IsShown (W.report out.old).taken lines.old text
        → IsShown (W.report out.new).taken lines.new text) }
    ensures none { OnOk result (lines.new ≡ []) }
{
    write_all(out, lines.as_slice())?;
    *lines = Text::new(alloc);
    Ok(())
}

/// Appends the line of a record, and its text as it is.
fn push_text(shown: &mut Text, text: &[u8], at: &Record) -> Result<(), NoMemory>
    ensures { OnOk result (shown.new ≡ shown.old ++ text_listed at.now text.now) }
{
    shown.extend_from_slice(b"text ")?;
    push_spaced(shown, at.number)?;
    push_spaced(shown, at.place as u64)?;
    push_spaced(shown, text.len() as u64)?;
    push_digits(shown, &at.digest)?;
    shown.extend_from_slice(text)?;
    shown.push(b'\n')
}

/// Appends a number and a space.
fn push_spaced(text: &mut Text, number: u64) -> Result<(), NoMemory>
    ensures { OnOk result (text.new ≡ text.old ++ spaced number) }
{
    text.push_number(number)?;
    text.push(b' ')
}

/// Appends a digest and a line feed.
fn push_digits(text: &mut Text, digest: &Link) -> Result<(), NoMemory>
    ensures { OnOk result (text.new ≡ text.old ++ digest_line digest.now) }
{
    text.extend_from_slice(digits_of(digest).as_slice())?;
    text.push(b'\n')
}

/// Lists the first texts of a source's journal, whose number and last digest were recovered.
fn print_texts<S: Source, W: Sink + Drop>(
    alloc: Global,
    first: &Link,
    recovered: &Recovered,
    source: &mut S,
    out: W,
) -> (W, Result<(), Fault>)
    ensures ok { OnOk result.1 (IsShown (W.report out).taken [] []
        → IsPrinted first.now recovered.now.texts recovered.now.chain
        (W.report result.0).taken) }
    ensures err { IfErr result.1 IsUnlisted }
{
    let lines = match first_line(alloc, first) {
        Ok(lines) => lines,
        Err(_) => return (out, Err(Fault::Memory)),
    };
    let (most, count, chain) = (recovered.texts, 0, *first);
    let has_failed = false;
    let mut listing = Listing {
        alloc,
        out,
        lines,
        most,
        count,
        chain,
        has_failed,
    };
    let listed = listing.list(first, &recovered.chain, source);
    let Listing { out, .. } = listing;
    (out, listed)
}

/// Returns the line of the set-up document's digest.
fn first_line(alloc: Global, first: &Link) -> Result<Text, NoMemory>
    ensures { IfOk result (λ text. text ≡ listing_text first.now []) }
{
    let mut text = Text::new(alloc);
    text.extend_from_slice(b"setup ")?;
    push_digits(&mut text, first)?;
    Ok(text)
}

/// Writes the line of the set-up document's digest, and for each text of a journal the line
/// `text NUMBER PLACE LENGTH DIGEST`, its bytes, and a line feed. Returns what was recovered, too.
///
/// Reads the journal twice, and has at most one record in memory: `source` to find its faults,
/// before anything is written, and `again` to list the texts that were found, and none after them.
/// Errors: as [`recover_from`] for `source`; then `Memory`, `Output`, and `Journal` if `again`
/// cannot be read, or does not begin with these texts.
pub fn list_texts<S: Source, T: Source, W: Sink + Drop>(
    alloc: Global,
    first: &Link,
    source: &mut S,
    again: &mut T,
    out: W,
) -> (W, Result<Recovered, Fault>)
    ensures ok { IfOk result.1 (λ recovered. (bytes : List ℕ)
        × HasBytes (S.report source.old).left bytes
        × IsListingOf first.now bytes (W.report out).taken (W.report result.0).taken recovered) }
    ensures err { IfErr result.1 (λ fault. (bytes : List ℕ)
        × HasBytes (S.report source.old).left bytes
        × IsFaultOf first.now bytes (S.report source.old) (S.report source.new)
        (W.report out).taken (W.report result.0).taken fault) }
{
    let recovered = match recover_from(alloc, &mut AnyText, first, source) {
        Ok(recovered) => recovered,
        Err(fault) => return (out, Err(Fault::from(fault))),
    };
    let (out, listed) = print_texts(alloc, first, &recovered, again, out);
    match listed {
        Ok(()) => (out, Ok(recovered)),
        Err(fault) => (out, Err(fault)),
    }
}
