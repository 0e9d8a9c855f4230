//! Journals in memory and in a file: each prefix, damaged bytes, and appending after a restart.

ghost use Rattle.std.specs.Prelude.{◌≡◌, IfSome, IsTrue, false};

use crate::comparing::{assert_is, assert_is_at};
use clock_device::{ListSource, Stop};
use clock_fixtures::{Count, MemoryDisk};
use clock_journal::{
    Durable, EndedJournal, FileDisk, Journal, JournalFault, Link, NewJournal, recover,
};
use std::alloc::Global;
use std::fs::{self, File, OpenOptions};
use std::io::Write;
use std::process::Abort;

const SETUP: Link = [7; 32];

const OTHER: Link = [8; 32];

/// The number of requests that a journal is resumed with, and where they end.
fn taken(bytes: &[u8], setup: &Link) -> Result<(u64, usize), JournalFault> {
    let mut count = Count(0);
    match recover(&mut count, setup, bytes) {
        Ok(recovered) => Ok((count.0, recovered.end)),
        Err(fault) => Err(fault),
    }
}

/// Resumes the journal of these bytes, which are all bytes of a disk, or begins it. Reads at most
/// `piece` bytes at a time.
fn begun<D: Durable + Drop>(
    alloc: Global,
    disk: D,
    bytes: &[u8],
    piece: usize,
) -> Option<Journal<D>>
    requires { D.has_failed disk ≡ false }
    ensures { IfSome result (λ journal. journal.has_failed ≡ false) }
{
    let mut source = ListSource::new(bytes, piece.max(1), None);
    match NewJournal::new(disk, SETUP).resume(alloc, &mut Count(0), &mut source, |_recovered| {}) {
        Ok((journal, _recovered)) => Some(journal),
        Err((_fault, ended)) => {
            drop(ended);
            None
        }
    }
}

/// Appends two requests, of 5 and 3 bytes. Returns whether both were appended.
fn takes_two<D: Durable>(journal: &mut Journal<D>) -> bool
    requires { journal.old.has_failed ≡ false }
    ensures { IsTrue result → journal.new.has_failed ≡ false }
{
    journal.append(b"first").is_ok() && journal.append(b"two").is_ok()
}

/// The bytes of a journal, or none if a request was not appended.
fn bytes_if(alloc: Global, journal: &Journal<MemoryDisk>, is_taken: bool) -> Vec<u8> {
    let bytes = if is_taken {
        journal.disk().bytes()
    } else {
        b""
    };
    match bytes.to_vec(alloc) {
        Ok(bytes) => bytes,
        Err(_) => Vec::new(alloc),
    }
}

/// The bytes of a journal of three requests of 5, 3, and 4 bytes on a disk of `room` bytes: 56 of
/// the head, and 45, 43, and 44 of records. None if a request was not appended.
fn file(alloc: Global, room: usize) -> Vec<u8> {
    let Some(mut journal) = begun(alloc, MemoryDisk::new(alloc, room, 100), b"", 1) else {
        return Vec::new(alloc);
    };
    let is_taken = takes_two(&mut journal) && journal.append(b"last").is_ok();
    let bytes = bytes_if(alloc, &journal, is_taken);
    drop(journal);
    bytes
}

#[test]
fn a_journal_is_read(rt: HostRuntime) {
    let bytes = file(rt.alloc(), 1000);
    assert_is(&rt, bytes.len(), 188);
    assert_is(&rt, taken(&bytes, &SETUP), Ok((3, 188)));
    assert_is(&rt, taken(&bytes, &OTHER), Err(JournalFault::Setup));
}

#[test]
fn a_file_of_another_kind_is_reported(rt: HostRuntime) {
    let other = b"clock_auction jourmal 1\n";
    assert_is(&rt, taken(other, &SETUP), Err(JournalFault::Unknown));
    assert_is(&rt, taken(b"", &SETUP), Ok((0, 0)));
}

/// The number of requests in a prefix of the file, and where they end.
fn whole_in(length: usize) -> (u64, usize) {
    match length {
        0..56 => (0, 0),
        56..101 => (0, 56),
        101..144 => (1, 101),
        144..188 => (2, 144),
        _ => (3, 188),
    }
}

/// Asserts how each prefix of the file is read.
fn fronts_are_read(rt: &impl Abort, bytes: &[u8]) {
    for length in 0..=188usize {
        let front = bytes.get(..length).unwrap_or(b"a shorter file");
        assert_is_at(rt, length, taken(front, &SETUP), Ok(whole_in(length)));
    }
}

#[test]
fn each_front_is_read(rt: HostRuntime) {
    let bytes = file(rt.alloc(), 1000);
    fronts_are_read(&rt, bytes.as_slice());
}

/// The expected result if the byte at `place` is damaged.
fn reported_at(place: usize) -> Result<(u64, usize), JournalFault> {
    match place {
        0..24 => Err(JournalFault::Unknown),
        24..56 => Err(JournalFault::Setup),
        56..101 => Err(JournalFault::Damaged(56)),
        101..144 => Err(JournalFault::Damaged(101)),
        144..152 => Err(JournalFault::Damaged(144)),
        // the last record, with nothing after it, counts as torn
        _ => Ok((2, 144)),
    }
}

/// Flips a bit of the byte at `place`.
fn turn(bytes: &mut [u8], place: usize) {
    if let Some(byte) = bytes.get_mut(place) {
        *byte ^= 1;
    }
}

/// Asserts the result for each damaged byte of the file.
fn damage_is_reported(rt: &impl Abort, bytes: &mut [u8]) {
    for place in 0..188usize {
        turn(bytes, place);
        assert_is_at(rt, place, taken(bytes, &SETUP), reported_at(place));
        turn(bytes, place);
    }
}

#[test]
fn each_damaged_byte_is_reported(rt: HostRuntime) {
    let mut bytes = file(rt.alloc(), 1000);
    damage_is_reported(&rt, bytes.as_mut_slice());
}

/// Bytes of a disk, and the bytes that a journal of three requests has on it.
const ROOMS: &[(usize, usize)] = &[(188, 188), (187, 0), (55, 0)];

#[test]
fn a_full_disk_is_reported(rt: HostRuntime) {
    for row in ROOMS {
        assert_is_at(&rt, row.0, file(rt.alloc(), row.0).len(), row.1);
    }
}

/// Resumes a journal of these bytes on a disk of its own, and appends a request. Reads at most
/// `piece` bytes at a time. None if it is not appended.
fn resumed(alloc: Global, bytes: &[u8], piece: usize) -> Vec<u8> {
    let mut disk = MemoryDisk::new(alloc, 1000, 100);
    if disk.append(bytes).is_err() {
        return Vec::new(alloc);
    }
    let Some(mut journal) = begun(alloc, disk, bytes, piece) else {
        return Vec::new(alloc);
    };
    let is_taken = journal.append(b"more").is_ok();
    let bytes = bytes_if(alloc, &journal, is_taken);
    drop(journal);
    bytes
}

/// The number of requests after a prefix of the file is resumed and appended to, and where they
/// end.
fn whole_after(length: usize) -> (u64, usize) {
    match length {
        0..101 => (1, 100),
        101..144 => (2, 145),
        144..188 => (3, 188),
        _ => (4, 232),
    }
}

/// Asserts that each prefix of the file is resumed and appended to.
fn fronts_go_on(rt: &impl Abort, alloc: Global, bytes: &[u8], piece: usize) {
    for length in 0..=188usize {
        let front = bytes.get(..length).unwrap_or(b"a shorter file");
        let more = resumed(alloc, front, piece);
        assert_is_at(rt, length, taken(&more, &SETUP), Ok(whole_after(length)));
    }
}

/// Bytes of a read: one, few, or all of the file.
const PIECES: &[usize] = &[1, 7, 188];

#[test]
fn each_front_goes_on(rt: HostRuntime) {
    let bytes = file(rt.alloc(), 1000);
    for piece in PIECES {
        fronts_go_on(&rt, rt.alloc(), bytes.as_slice(), *piece);
    }
}

/// A journal on a disk in memory that was not resumed, and why.
type NotResumed = (JournalFault, EndedJournal<MemoryDisk>);

/// Resumes a journal of these bytes on a disk of its own. The read with this index, from 0, fails.
/// `None` if it is resumed all the same.
fn not_resumed(alloc: Global, bytes: &[u8], read: u64) -> Option<NotResumed> {
    let mut disk = MemoryDisk::new(alloc, 1000, 100);
    if disk.append(bytes).is_err() {
        return None;
    }
    let mut source = ListSource::new(bytes, 7, Some((read, Stop::Failed)));
    match NewJournal::new(disk, SETUP).resume(alloc, &mut Count(0), &mut source, |_recovered| {}) {
        Ok((journal, _recovered)) => {
            drop(journal);
            None
        }
        Err(ended) => Some(ended),
    }
}

/// Asserts that a source that fails at this read is reported, and the disk unchanged.
fn failed_read_changes_nothing(rt: &impl Abort, alloc: Global, bytes: &[u8], read: u64) {
    match not_resumed(alloc, bytes, read) {
        Some((fault, ended)) => {
            assert_is_at(rt, read, fault, JournalFault::Unread);
            assert_is_at(rt, read, ended.disk().bytes(), bytes);
            drop(ended);
        }
        None => assert_is_at(rt, read, "not resumed", "resumed"),
    }
}

/// The file is read in 30 reads: 8 for the head, 7 for each record, and one that finds the end.
#[test]
fn each_failed_read_is_reported(rt: HostRuntime) {
    let bytes = file(rt.alloc(), 1000);
    for read in 0..30 {
        failed_read_changes_nothing(&rt, rt.alloc(), bytes.as_slice(), read);
    }
}

const PATH: &str = "clock_journal.trial";

/// Opens a file of the system for appending.
fn opened(rt: &HostRuntime) -> Option<File> {
    let mut how = OpenOptions::new();
    how.read(true).append(true).create(true);
    how.open(rt, PATH).ok()
}

/// Begins a journal in a file and appends two requests. Returns whether it did.
fn is_written(alloc: Global, file: Option<File>) -> bool {
    let Some(file) = file else {
        return false;
    };
    let Some(mut journal) = begun(alloc, FileDisk::new(file), b"", 1) else {
        return false;
    };
    let is_taken = takes_two(&mut journal);
    drop(journal);
    is_taken
}

/// The requests that the file is resumed with, and where they end. `None` if it cannot be read.
fn found(rt: &HostRuntime) -> Option<Result<(u64, usize), JournalFault>> {
    match fs::read(rt, PATH) {
        Ok(bytes) => Some(taken(&bytes, &SETUP)),
        Err(_) => None,
    }
}

/// The two requests of the file.
const TWO: Option<Result<(u64, usize), JournalFault>> = Some(Ok((2, 144)));

/// Locks a file. Returns whether it did.
fn locks(file: &Option<File>) -> bool {
    match file {
        Some(file) => file.try_lock().is_ok(),
        None => false,
    }
}

/// Whether a file is locked, and whether it is locked again when it is opened a second time.
fn is_locked(rt: &HostRuntime) -> (bool, bool) {
    let file = opened(rt);
    let again = opened(rt);
    (locks(&file), locks(&again))
}

/// Writes a prefix of a third record to the file. Returns whether it did.
fn tears(file: Option<File>) -> bool {
    match file {
        Some(mut file) => file
            .write_all(b"\0\0\0\x05\0\0\0\x05 and a front of more")
            .is_ok(),
        None => false,
    }
}

/// The length of a file, if it can be read.
fn length_of(file: &File) -> Option<u64> {
    match file.metadata() {
        Ok(data) => Some(data.len()),
        Err(_) => None,
    }
}

/// Cuts a prefix of a third record off the file. Returns the length of the file then.
fn cuts(file: Option<File>) -> Option<u64> {
    match file {
        Some(file) if file.set_len(144).is_ok() && file.sync_all().is_ok() => length_of(&file),
        _ => None,
    }
}

#[test]
fn a_file_is_taken_over(rt: HostRuntime) {
    let _ = fs::remove_file(&rt, PATH);
    assert_is_at(&rt, "written", is_written(rt.alloc(), opened(&rt)), true);
    assert_is_at(&rt, "written", found(&rt), TWO);
    assert_is_at(&rt, "locked", is_locked(&rt), (true, false));
    assert_is_at(&rt, "torn", tears(opened(&rt)), true);
    assert_is_at(&rt, "torn", found(&rt), TWO);
    assert_is_at(&rt, "cut", cuts(opened(&rt)), Some(144));
    assert_is_at(&rt, "cut", found(&rt), TWO);
    assert_is_at(&rt, "removed", fs::remove_file(&rt, PATH).is_ok(), true);
}
