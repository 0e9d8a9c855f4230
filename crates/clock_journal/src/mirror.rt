//! Two disks that are one, so that the loss of either loses nothing.
ghost use Rattle.std.specs.Prelude.{◌≡◌, ◌≤◌, ◌||◌, IfErr, IfOk, OnErr, OnOk, None, Some, false};
ghost use Rattle.std.specs.Prelude.{is_err, length, option_map, take};
ghost use Rattle.clock_device.specs.Streams.{WritesText};
ghost use Rattle.clock_journal.specs.Disks.{CutsTo, Passes};
ghost use Rattle.clock_journal.specs.Mirrors.{AreAlike, IsCommon, IsPrefix, MirrorState};
ghost use Rattle.clock_journal.specs.Mirrors.{MirrorsKeep, RestUnder, RunUnder, RunsTo, StartsKeep};
ghost use Rattle.clock_journal.specs.Mirrors.{joined, longer, shorter, state_of};
ghost use Rattle.clock_journal.specs.Levels.{AreSeen, Bytes, IsNotLevel};
ghost use Rattle.clock_journal.specs.inside.Leveling.{AreCopied, Differ, HaveEnds, IsCopying};

use crate::durable::Durable;
use crate::reading::fill;
use clock_device::{Failed, Source};
use std::marker::Model;

/// Two disks with the same bytes. Each call is made on the first, and then on the second; the first
/// `Err` ends it.
///
/// In contracts, a mirror is its two disks. As a disk, it has written what the first has written,
/// which is never less than the second. It has synced what the second has synced, which is never
/// more than the first.
#[derive(Drop)]
pub struct Mirror<A: Durable, B: Durable> {
    first: A,
    second: B,
}

impl<A: Durable, B: Durable> Model for Mirror<A, B> {
    ghost Value = { MirrorState };

    ghost view = { λ m. record {
      first = state_of A.Durable m.first;
      second = state_of B.Durable m.second;
    } };

    ghost invariant = { λ m. A.has_failed m.first ≡ false → B.has_failed m.second ≡ false
        → AreAlike (state_of A.Durable m.first) (state_of B.Durable m.second) };
}

impl<A: Durable, B: Durable> Mirror<A, B> {
    /// Makes one disk of two that [`level`] has brought to the same bytes.
    pub fn new(first: A, second: B) -> Mirror<A, B>
        requires alike { AreAlike (state_of A.Durable first) (state_of B.Durable second) }
        ensures first { result.first ≡ state_of A.Durable first }
        ensures second { result.second ≡ state_of B.Durable second }
    {
        Mirror { first, second }
    }
}

impl<A: Durable, B: Durable> Durable for Mirror<A, B> {
    ghost written = { λ mirror. mirror.first.written };

    ghost synced = { λ mirror. mirror.second.synced };

    ghost has_failed = { λ mirror. mirror.first.has_failed || mirror.second.has_failed };

    ghost moments = { λ mirror. mirror.first.moments };

    fn append(&mut self, bytes: &[u8]) -> Result<(), Failed>
        requires unfailed { (self.old.first.has_failed || self.old.second.has_failed) ≡ false }
        ensures unseen { self.old.first.written ≡ None → self.new.first.written ≡ None }
        ensures written { WritesText self.old.first.written self.new.first.written bytes.now
            result }
        ensures synced { self.new.second.synced ≡ self.old.second.synced }
        ensures moments { Passes self.old.first.moments self.new.first.moments
            self.old.second.synced self.new.first.written }
        ensures failed { (self.new.first.has_failed || self.new.second.has_failed)
            ≡ is_err result }
        ensures under { RunUnder
            (record { synced = self.old.second.synced; written = self.new.first.written })
            self.old self.new }
        ensures rest { RestUnder self.old self.new }
    {
        self.first.append(bytes)?;
        self.second.append(bytes)
    }

    fn sync(&mut self) -> Result<(), Failed>
        requires unfailed { (self.old.first.has_failed || self.old.second.has_failed) ≡ false }
        ensures written { self.new.first.written ≡ self.old.first.written }
        ensures ok { OnOk result (self.new.second.synced ≡ self.old.first.written) }
        ensures err { OnErr result (self.new.second.synced ≡ self.old.second.synced) }
        ensures moments { Passes self.old.first.moments self.new.first.moments
            self.old.second.synced self.old.first.written }
        ensures failed { (self.new.first.has_failed || self.new.second.has_failed)
            ≡ is_err result }
        ensures under { RunUnder (joined self.old) self.old self.new }
        ensures rest { RestUnder self.old self.new }
    {
        self.first.sync()?;
        self.second.sync()
    }

    fn cut(&mut self, place: usize) -> Result<(), Failed>
        requires synced { self.old.second.synced ≡ self.old.first.written }
        requires unfailed { (self.old.first.has_failed || self.old.second.has_failed) ≡ false }
        ensures written { CutsTo self.old.first.written self.new.first.written place result }
        ensures synced { OnOk result (self.new.second.synced ≡ self.new.first.written) }
        ensures moments { Passes self.old.first.moments self.new.first.moments
            (option_map (take place) self.old.second.synced) self.old.first.written }
        ensures failed { (self.new.first.has_failed || self.new.second.has_failed)
            ≡ is_err result }
        ensures under { RunUnder (record {
          synced = option_map (take place) self.old.second.synced;
          written = self.old.first.written;
        }) self.old self.new }
        ensures rest { OnOk result (RestUnder self.old self.new) }
    {
        self.first.cut(place)?;
        self.second.cut(place)
    }
}

/// How many bytes of a file are compared and copied at once.
const PIECE: usize = 4096;

/// Why two files are no mirror.
///
/// - `Differs`: neither is a prefix of the other, and at this byte they differ.
/// - `Failed`: a call of a disk failed, or a source could not be read.
#[derive(Clone, Copy, Debug, PartialEq, Eq)]
pub enum LevelFault {
    Differs(usize),
    Failed,
}

/// How many bytes of two pieces were read.
#[derive(Clone, Copy)]
struct Counts {
    here: usize,
    there: usize,
}

/// Returns how many bytes two files have in common at their start.
fn common_of(one: &[u8], other: &[u8]) -> usize
    ensures { IsCommon one.now other.now result }
{
    let most = one.len().min(other.len());
    for place in 0..most {
        if one[place] != other[place] {
            return place;
        }
    }
    most
}

/// Reads two sources piece by piece until one has no byte left. The last pieces are in `here` and
/// `there`; all before them are the same in both.
///
/// Requires pieces of one length, at least 1. Errors, at whichever comes first: `Differs`;
/// `Failed`.
fn compare<S: Source, T: Source>(
    one: &mut S,
    other: &mut T,
    here: &mut [u8],
    there: &mut [u8],
) -> Result<Counts, LevelFault>
    requires alike { length here.old ≡ length there.old }
    requires some { 1 ≤ length here.old }
    ensures ok { IfOk result (λ counts. HaveEnds (S.report one.old).left (S.report one.new).left
        (T.report other.old).left (T.report other.new).left (take counts.here here.new)
        (take counts.there there.new)) }
    ensures within { IfOk result (λ counts. (counts.here ≤ length here.new)
        × (counts.there ≤ length there.new)) }
    ensures err { IfErr result (Differ (S.report one.old).left (T.report other.old).left) }
{
    let mut place: usize = 0;
    loop {
        let Ok(count) = fill(one, here) else {
            return Err(LevelFault::Failed);
        };
        let Ok(limit) = fill(other, there) else {
            return Err(LevelFault::Failed);
        };
        let common = common_of(&here[..count], &there[..limit]);
        if common > usize::MAX - place {
            return Err(LevelFault::Failed);
        }
        if common < count.min(limit) {
            return Err(LevelFault::Differs(place + common));
        }
        if count < here.len() || limit < there.len() {
            let (here, there) = (count, limit);
            return Ok(Counts { here, there });
        }
        place += common;
    }
}

/// Appends what a disk lacks, perhaps nothing: `missing`, and all that a source has. Syncs it.
fn extend<D: Durable, S: Source>(disk: &mut D, missing: &[u8], source: &mut S) -> Result<(), Failed>
    requires unfailed { D.has_failed disk.old ≡ false }
    ensures unseen { D.written disk.old ≡ None → D.written disk.new ≡ None }
    ensures ok { OnOk result (AreCopied (S.report source.old).left missing.now
        (D.written disk.old) (D.written disk.new)) }
    ensures synced { OnOk result (D.synced disk.new ≡ D.written disk.new) }
    ensures unfailed { OnOk result (D.has_failed disk.new ≡ false) }
    ensures moments { IsCopying (S.report source.old).left missing.now
        (state_of D.Durable disk.old) (state_of D.Durable disk.new) }
{
    disk.append(missing)?;
    let mut piece = [0; PIECE];
    let mut copied: usize = 0;
    loop {
        let count = fill(source, &mut piece)?;
        disk.append(&piece[..count])?;
        if count < PIECE {
            return disk.sync();
        }
        if count > usize::MAX - copied {
            return Err(Failed);
        }
        copied += count;
    }
}

/// Brings the shorter of two files up to the longer one, and syncs both. `one` and `other` are
/// sources of all bytes of the two disks, which are read piece by piece.
///
/// For the bytes of the two sources, `one` and `other`:
///
/// - At `Ok`, both disks have the longer file, all of it synced. So [`Mirror::new`] takes them.
/// - At each moment of the call, also at `Err`, a disk has its old bytes, and perhaps a prefix of
///   what the other file has in addition.
///
/// Requires that no call of the disks has failed. Errors, at whichever comes first: `Differs`, with
/// both disks unchanged; `Failed`.
pub fn level<A: Durable, B: Durable, S: Source, T: Source>(
    first: &mut A,
    second: &mut B,
    one: &mut S,
    other: &mut T,
) -> Result<(), LevelFault>
    requires first { A.has_failed first.old ≡ false }
    requires second { B.has_failed second.old ≡ false }
    requires bytes { AreSeen (A.written first.old) (B.written second.old) (S.report one.old).left
        (T.report other.old).left }
    ensures alike { OnOk result (AreAlike (state_of A.Durable first.new)
        (state_of B.Durable second.new)) }
    ensures unfailed { OnOk result ((A.has_failed first.new ≡ false)
        × (B.has_failed second.new ≡ false)) }
    ensures bytes { (bytes : Bytes (S.report one.old).left (T.report other.old).left)
        × OnOk result (IsPrefix (shorter bytes.one bytes.other) (longer bytes.one bytes.other)
        × (A.written first.old ≡ Some bytes.one
        → A.written first.new ≡ Some (longer bytes.one bytes.other)))
        × IfErr result (IsNotLevel bytes.one bytes.other (first.new ≡ first.old)
        (second.new ≡ second.old))
        × RunsTo bytes.one (longer bytes.one bytes.other) (state_of A.Durable first.old)
        (state_of A.Durable first.new)
        × RunsTo bytes.other (longer bytes.one bytes.other) (state_of B.Durable second.old)
        (state_of B.Durable second.new) }
{
    let (mut here, mut there) = ([0; PIECE], [0; PIECE]);
    let counts = match compare(one, other, &mut here, &mut there) {
        Ok(counts) => counts,
        Err(fault) => return Err(fault),
    };
    let common = counts.here.min(counts.there);
    let Ok(()) = extend(first, &there[common..counts.there], other) else {
        return Err(LevelFault::Failed);
    };
    let Ok(()) = extend(second, &here[common..counts.here], one) else {
        return Err(LevelFault::Failed);
    };
    Ok(())
}

/// Laws of mirrors. The call does nothing.
///
/// - `keep`: a crash may leave any prefix of one file, also nothing, and of the other what a disk
///   leaves. The longer of the two is then a file that a crash of one disk leaves, and the other is
///   its prefix.
/// - `starts`: so it is again if a crash comes while [`level`] copies the longer file, and the copy
///   is lost.
pub fn law_of_mirrors()
    ensures keep { MirrorsKeep }
    ensures starts { StartsKeep }
{}
