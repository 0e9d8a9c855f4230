//! Reading files, and the line of a journal.
ghost use Rattle.std.specs.Prelude.{◌≡◌};
ghost use Rattle.hex.specs.Hex.{encode_lower};

use clock_console::{Fault, read_all};
use clock_device::{FromReader, Sink, Text, write_all};
use clock_journal::{Link, Machine, Record, Recovered, TakeError};
use clock_reports::Digits;
use hex::encode_to_slice;
use std::alloc::Global;
use std::fs::{File, TryLockError};
use std::io::{self, BufReader, Seek, SeekFrom};
use std::os::fd::AsRawFd;
use std::rt::Files;

/// How many bytes of a journal the program reads at once.
const PIECE: usize = 65_536;

/// The number of standard output among the files of the process.
const STANDARD_OUTPUT: i32 = 1;

/// Reads all bytes of a file.
pub(crate) fn file_bytes<R: Files + Alloc<A = Global>>(rt: &R, path: &str) -> Result<Text, Fault> {
    match File::open(rt, path) {
        Ok(file) => read_all(rt.alloc(), &mut FromReader::new(file)),
        Err(error) if error.kind() == io::ErrorKind::OutOfMemory => Err(Fault::Memory),
        Err(_) => Err(Fault::File),
    }
}

/// A file that is read in pieces.
pub(crate) type FileSource = FromReader<BufReader<File>>;

/// Opens a journal, and changes nothing in it. Refuses a device, since it may never end.
pub(crate) fn journal_source<R>(rt: &R, path: &str) -> Result<FileSource, Fault>
where
    R: Files<File = File> + Alloc<A = Global>,
{
    let file = File::open(rt, path).or(Err(Fault::Journal))?;
    if !is_regular(&file) {
        return Err(Fault::Journal);
    }
    source_of(rt.alloc(), file)
}

/// Returns a file from its start on as a source.
pub(crate) fn source_of(alloc: Global, mut file: File) -> Result<FileSource, Fault> {
    file.seek(SeekFrom::Start(0)).or(Err(Fault::Journal))?;
    let reader = BufReader::with_capacity(alloc, PIECE, file).or(Err(Fault::Memory))?;
    Ok(FromReader::new(reader))
}

/// Returns whether a file is a regular one. A device may never end.
fn is_regular(file: &File) -> bool {
    matches!(file.metadata(), Ok(metadata) if metadata.is_file())
}

/// Locks a file. Refuses a device, and a file that has the number of standard output, which was
/// closed when the program began: the program would print into the journal.
pub(crate) fn lock(file: &File) -> Result<(), Fault> {
    if file.as_raw_fd() == STANDARD_OUTPUT {
        return Err(Fault::Output);
    }
    // before the lock, so that a device is never reported as busy
    if !is_regular(file) {
        return Err(Fault::Journal);
    }
    match file.try_lock() {
        Ok(()) => Ok(()),
        Err(TryLockError::WouldBlock) => Err(Fault::JournalBusy),
        Err(TryLockError::Error(_)) => Err(Fault::Journal),
    }
}

/// Returns the number of bytes of a file.
pub(crate) fn length_of(file: &File) -> Result<usize, Fault> {
    let metadata = file.metadata().or(Err(Fault::Journal))?;
    Ok(metadata.len() as usize)
}

/// Returns the same open file once more: both have one place from which they read, and one lock.
pub(crate) fn reopened(file: &File) -> Result<File, Fault> {
    file.try_clone().or(Err(Fault::Journal))
}

/// A machine that takes any text: with it, [`recover_from`](clock_journal::recover_from) finds the
/// faults of a journal that need no auction.
#[derive(Drop)]
pub(crate) struct AnyText;

impl Machine for AnyText {
    ghost rules = { λ any. tt };

    ghost stands_for = { λ any digest texts. Unit {0} };

    ghost refuses = { λ rules texts text. ⊥ };

    fn take(&mut self, _text: &[u8], _at: &Record) -> Result<(), TakeError> {
        Ok(())
    }
}

/// Prints a text that was made of a journal, and then the line of the journal.
pub(crate) fn tell_all<R: Print>(
    rt: &R,
    out: &mut impl Sink,
    text: &[u8],
    recovered: Recovered,
) -> Result<(), Fault> {
    write_all(out, text).or(Err(Fault::Output))?;
    tell_journal(rt, recovered)
}

/// Prints the number of texts in a journal, and the digest of the last.
pub(crate) fn tell_journal<R: Print>(rt: &R, recovered: Recovered) -> Result<(), Fault> {
    let texts = recovered.texts;
    let digits = digits_of(&recovered.chain);
    let digest = digits.escape_ascii();
    println!(rt; "journal {texts} {digest}").or(Err(Fault::Output))
}

/// Returns a digest in 64 lowercase hexadecimal digits.
pub(crate) fn digits_of(digest: &Link) -> Digits
    ensures { result ≡ encode_lower digest.now }
{
    let mut digits = [0; 64];
    encode_to_slice(digest.as_slice(), &mut digits).unwrap();
    digits
}
