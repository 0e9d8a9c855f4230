ghost use Rattle.std.specs.Prelude.{◌≡◌, [], List, ℕ, IfOk, OnOk, OnErr, Some, false, is_err};
ghost use Rattle.std.specs.Prelude.{MatchResult};
ghost use Rattle.clock_journal.specs.Format.{Fits, link};
ghost use Rattle.clock_journal.specs.Logged.{HasTexts, IsAppended, JournalState};
ghost use Rattle.clock_journal.specs.Crash.{LeavesOneMore};
ghost use Rattle.clock_journal.specs.{Chain.{ChainBinds, JournalsBind}, Recovering.{AreTextsOf}};
ghost use Rattle.clock_journal.specs.Laws.{EveryFront, ReadsBack, WhateverFollows};
ghost use Rattle.clock_journal.specs.Resuming.{DoesNotResume, LeavesWhatWas, Resumes};
ghost use Rattle.clock_journal.specs.Sources.{HasBytes};

use crate::durable::Durable;
use crate::format::{Link, front_of, head_of, link_of};
use crate::reading::recover_first;
use crate::recovery::{JournalFault, Machine, Recovered};
use clock_device::{Failed, Source};
use std::alloc::Global;
use std::marker::Model;

/// A journal on a disk. Only [`NewJournal::resume`] makes one.
///
/// In contracts, a journal is what contracts see of its disk, and the digest of its last text.
#[derive(Drop)]
pub struct Journal<D: Durable> {
    disk: D,
    chain: Link,
}

impl<D: Durable> Model for Journal<D> {
    ghost Value = { JournalState };

    ghost view = { λ j. record {
      written = D.written j.disk;
      synced = D.synced j.disk;
      has_failed = D.has_failed j.disk;
      moments = D.moments j.disk;
      chain = j.chain;
    } };
}

/// The disk of a journal that is not resumed yet. No text can be appended to it.
///
/// In contracts, it is a journal whose last digest is that of the set-up document.
#[derive(Drop)]
pub struct NewJournal<D: Durable> {
    journal: Journal<D>,
}

impl<D: Durable> Model for NewJournal<D> {
    ghost Value = { JournalState };

    ghost view = { λ new. new.journal };
}

/// A journal to which no text is appended any more, or one that was not resumed.
#[derive(Drop)]
pub struct EndedJournal<D: Durable> {
    journal: Journal<D>,
}

impl<D: Durable> Model for EndedJournal<D> {
    ghost Value = { JournalState };

    ghost view = { λ ended. ended.journal };
}

impl<D: Durable> EndedJournal<D> {
    /// Returns the disk of the journal.
    pub fn disk(&self) -> &D
        ensures written { D.written result.now ≡ self.now.written }
        ensures synced { D.synced result.now ≡ self.now.synced }
        ensures failed { D.has_failed result.now ≡ self.now.has_failed }
    {
        self.journal.disk()
    }
}

impl<D: Durable> NewJournal<D> {
    /// Wraps a disk as the journal of the set-up document with this digest. Makes no call of it.
    pub fn new(disk: D, digest: Link) -> NewJournal<D>
        ensures written { result.written ≡ D.written disk }
        ensures synced { result.synced ≡ D.synced disk }
        ensures moments { result.moments ≡ D.moments disk }
        ensures failed { result.has_failed ≡ D.has_failed disk }
        ensures chain { result.chain ≡ digest }
    {
        let chain = digest;
        let journal = Journal { disk, chain };
        NewJournal { journal }
    }

    /// Replays a source with `machine`, like [`recover_from`](crate::recover_from). The source has
    /// all bytes of the disk, and is read record by record. Continues the journal there: syncs the
    /// file, and truncates what is torn. On an empty file, or one with a torn head, it begins the
    /// journal. Calls `tell` before the disk is changed.
    ///
    /// All is said of the bytes that the source has. If it reports them, they are `bytes`.
    ///
    /// - `Ok`: the machine took all texts of the file, and refuses none of them. If `bytes` are all
    ///   bytes of the disk, it has these texts.
    /// - `Err`: on what a crash left of a journal with no text that the machine refuses, it fails
    ///   only if memory runs out, a call of the disk fails, or the source cannot be read. At
    ///   `Failed`, a call of the disk failed; at any other fault, the disk is unchanged. At
    ///   `Unread`, a read failed, or was interrupted too often, or there are 2^64 bytes or more.
    /// - If a crash before this call leaves the journal of some texts, or a file that begins with
    ///   it, so does a crash at any moment of the call, also at `Err`.
    ///
    /// Requires a machine without texts, and a disk of which no call has failed. Errors, in this
    /// order: as [`recover_from`](crate::recover_from); `Failed`. Do not use the machine after an
    /// `Err`.
    pub fn resume<M: Machine, S: Source, F: FnOnce(Recovered)>(
        self,
        alloc: Global,
        machine: &mut M,
        source: &mut S,
        tell: F,
    ) -> Result<(Journal<D>, Recovered), (JournalFault, EndedJournal<D>)>
        requires fresh { M.stands_for machine.old self.chain [] }
        requires unfailed { self.has_failed ≡ false }
        requires callable { F.IsAlwaysCallable tell }
        ensures resumed { (bytes : List ℕ) × HasBytes (S.report source.old).left bytes
            × MatchResult result
            (λ made. Resumes (M.refuses (M.rules machine.old)) (M.stands_for machine.new self.chain)
            bytes self made.0 made.1)
            (λ ended. DoesNotResume (M.refuses (M.rules machine.old))
            (M.stands_for machine.new self.chain) bytes self ended.1 (S.report source.old)
            (S.report source.new) ended.0) }
        ensures chain { IfOk result (λ made. made.0.chain ≡ made.1.chain) }
        ensures unfailed { IfOk result (λ made. made.0.has_failed ≡ false) }
        ensures rules { M.rules machine.new ≡ M.rules machine.old }
    {
        let mut journal = self.journal;
        let recovered = match recover_first(alloc, machine, &journal.chain, source) {
            Ok(recovered) => recovered,
            Err(fault) => return Err((fault, EndedJournal { journal })),
        };
        tell(recovered);
        match journal.start(&recovered) {
            Ok(()) => Ok((journal, recovered)),
            Err(Failed) => Err((JournalFault::Failed, EndedJournal { journal })),
        }
    }
}

impl<D: Durable> Journal<D> {
    /// Continues the journal of a file, of which this was recovered, after its last text. The
    /// journal has only its disk, and the digest of its set-up document.
    fn start(&mut self, recovered: &Recovered) -> Result<(), Failed>
        requires unfailed { self.old.has_failed ≡ false }
        ensures ok { OnOk result ((bytes : List ℕ) (texts : List (List ℕ))
            → AreTextsOf self.old.chain bytes texts recovered.now
            → self.old.written ≡ Some bytes → HasTexts self.old.chain texts self.new) }
        ensures leaves { (bytes : List ℕ) (texts : List (List ℕ))
            → AreTextsOf self.old.chain bytes texts recovered.now
            → LeavesWhatWas bytes self.old self.new }
        ensures chain { OnOk result (self.new.chain ≡ recovered.now.chain) }
        ensures failed { self.new.has_failed ≡ is_err result }
    {
        // only synced bytes survive a crash during the truncation
        self.disk.sync()?;
        self.disk.cut(recovered.end)?;
        if recovered.end == 0 {
            let head = head_of(&self.chain);
            self.disk.append(&head)?;
            self.disk.sync()?;
        }
        self.chain = recovered.chain;
        Ok(())
    }

    /// Appends a text. At `Ok`, it is on the disk and survives a crash. At `Err`, it may be there
    /// or not, and all that was on the disk still is.
    ///
    /// Requires a text of 1 to [`MOST_TEXT`](crate::MOST_TEXT) bytes, and no earlier `Err`: a
    /// failed sync that is repeated may report success. Writes twice, syncs once, and allocates
    /// nothing.
    pub fn append(&mut self, text: &[u8]) -> Result<(), Failed>
        requires fits { Fits text.now }
        requires unfailed { self.old.has_failed ≡ false }
        ensures logged { OnOk result (IsAppended text.now self.old self.new) }
        ensures moments { LeavesOneMore text.now self.old self.new }
        ensures on_disk { OnErr result (self.new.synced ≡ self.old.synced) }
        ensures link { OnOk result (self.new.chain ≡ link self.old.chain text.now) }
        ensures failed { self.new.has_failed ≡ is_err result }
    {
        let digest = link_of(&self.chain, text);
        self.disk.append(&front_of(text.len(), &digest))?;
        self.disk.append(text)?;
        self.chain = digest;
        self.disk.sync()
    }

    /// Returns the digest of the last text, or of the set-up document if there is none.
    pub fn chain(&self) -> &Link
        ensures { result.now ≡ self.now.chain }
    {
        &self.chain
    }

    /// Returns the disk of the journal.
    pub fn disk(&self) -> &D
        ensures written { D.written result.now ≡ self.now.written }
        ensures synced { D.synced result.now ≡ self.now.synced }
        ensures failed { D.has_failed result.now ≡ self.now.has_failed }
    {
        &self.disk
    }

    /// Ends the journal: no text can be appended to it any more.
    pub fn end(self) -> EndedJournal<D>
        ensures { result ≡ self }
    {
        EndedJournal { journal: self }
    }
}

/// Laws of all journals. The call does nothing.
///
/// `as_many`, `any`: two journals with the same last digest are the same, or two different messages
/// that were hashed for them have the same digest. For journals of different lengths, `any` has a
/// third case: the set-up document of the shorter one begins with 32 bytes that are a digest of the
/// other journal.
///
/// `every_front`: a prefix of a file has the first of its texts. `whatever_follows`: what is read
/// of a file begins with the texts of every journal that the file begins with.
pub fn law_of_journals()
    ensures as_many { ChainBinds }
    ensures any { JournalsBind }
    ensures every_front { EveryFront }
    ensures whatever_follows { WhateverFollows }
    ensures read_back { ReadsBack }
{}
