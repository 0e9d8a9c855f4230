//! `serve`: an auction on a port of this machine.
ghost use Rattle.std.specs.Prelude.{◌≡◌, ◌⊎◌, ◌||◌, if◌then◌else◌, List, ℕ, Err, IfOk, false, true};
ghost use Rattle.std.specs.Prelude.{None, Some};
ghost use Rattle.clock_device.specs.Reports.{unread, unused};
ghost use Rattle.clock_journal.specs.{Levels.{AreSeen, Bytes}, Mirrors.{longer}};
ghost use Rattle.clock_journal.specs.Sources.{HasBytes, IsUnreadable};
ghost use Rattle.clock_server.specs.Keeping.{GrowsBy};
ghost use Rattle.clock_server.specs.Exchanges.{Came, Exchange, bytes_given};
ghost use Rattle.clock_server.specs.Generations.{EndsGeneration};
ghost use Rattle.clock_files.specs.Serving.{IsReadFrom, of_server, of_serving};

use crate::document::{ReadAuction, read_auction};
use crate::files::{
    AnyText, FileSource, digits_of, file_bytes, length_of, lock, reopened, source_of, tell_journal,
};
use clock_console::{Fault, Serving};
use clock_device::{Failed, FromReader, Source, ToWriter};
use clock_journal::{
    Durable, EndedJournal, FileDisk, JournalFault, Link, Mirror, NewJournal, Recovered, level,
    recover_from,
};
use clock_server::{
    Acceptor, Announcer, Connection, Listen, ServeFault, ServerFault, accept_on, serve_from,
    serve_on,
};
use std::alloc::Global;
use std::fs::{File, OpenOptions};
use std::net::{Ipv4Addr, Net, TcpListener, TcpStream};
use std::os::unix::fs::OpenOptionsExt;
use std::rt::Files;

/// Serves the auction of a set-up: replays its journal, if one is named, listens on 127.0.0.1, and
/// serves `serving.connections` connections, one after the other. The first fault ends it.
pub fn serve<R>(rt: &R, serving: &Serving) -> Result<(), Fault>
where
    R: Files<File = File>
        + Print
        + Eprint
        + Net<Listener = TcpListener, Stream = TcpStream>
        + Alloc<A = Global>,
{
    let document = file_bytes(rt, serving.setup)?;
    let read = read_auction(rt.alloc(), document)?;
    match (serving.journal, serving.mirror) {
        (None, None) => serve_unlogged(rt, read, serving),
        (Some(path), None) => serve_logged(rt, read, serving, path),
        (Some(path), Some(second)) => serve_mirrored(rt, read, serving, path, second),
        // a mirror is the second file of a journal
        (None, Some(_)) => Err(Fault::Journal),
    }
}

/// Opens the file of a journal. A new file can be read only by its owner.
fn opened<R: Files<File = File>>(rt: &R, path: &str) -> Result<File, Fault> {
    let mut how = OpenOptions::new();
    how.read(true).append(true).create(true).mode(0o600);
    how.open(rt, path).or(Err(Fault::Journal))
}

/// Opens and locks the file of a journal. Returns its disk, and the file once more, to be read.
fn locked<R>(rt: &R, path: &str) -> Result<(FileDisk<File>, File), Fault>
where
    R: Files<File = File>,
    ensures { IfOk result
        (λ locked. ⟦<FileDisk<File> as Durable>⟧.has_failed locked.0 ≡ false) }
{
    let file = opened(rt, path)?;
    lock(&file)?;
    let again = reopened(&file)?;
    Ok((FileDisk::new(file), again))
}

/// Serves with the journal in a file.
fn serve_logged<R>(rt: &R, read: ReadAuction, serving: &Serving, path: &str) -> Result<(), Fault>
where
    R: Files<File = File>
        + Print
        + Eprint
        + Net<Listener = TcpListener, Stream = TcpStream>
        + Alloc<A = Global>,
{
    match locked(rt, path) {
        Ok((disk, file)) => serve_disk(rt, read, serving, disk, file),
        Err(fault) => {
            drop(read);
            Err(fault)
        }
    }
}

/// Serves with the journal in two files.
fn serve_mirrored<R>(
    rt: &R,
    read: ReadAuction,
    serving: &Serving,
    path: &str,
    second_path: &str,
) -> Result<(), Fault>
where
    R: Files<File = File>
        + Print
        + Eprint
        + Net<Listener = TcpListener, Stream = TcpStream>
        + Alloc<A = Global>,
{
    match locked_mirror(rt, &read.digest, path, second_path) {
        Ok((disk, file)) => serve_disk(rt, read, serving, disk, file),
        Err(fault) => {
            drop(read);
            Err(fault)
        }
    }
}

/// Opens and locks the two files of a journal, and makes one disk of them. Returns the first file,
/// too, which has all bytes of the disk.
fn locked_mirror<R>(
    rt: &R,
    digest: &Link,
    path: &str,
    second_path: &str,
) -> Result<(Mirror<FileDisk<File>, FileDisk<File>>, File), Fault>
where
    R: Files<File = File> + Alloc<A = Global>,
    ensures { IfOk result
        (λ made. (made.0.first.has_failed || made.0.second.has_failed) ≡ false) }
{
    let (first, file) = locked(rt, path)?;
    let (second, second_file) = locked(rt, second_path)?;
    check_longer(rt.alloc(), digest, &file, &second_file)?;
    let mut one = source_of(rt.alloc(), reopened(&file)?)?;
    let mut other = source_of(rt.alloc(), second_file)?;
    let disk = mirrored(first, second, &mut one, &mut other)?;
    Ok((disk, file))
}

/// Checks that the longer of two files is a journal of the set-up document with this digest, so
/// that a file of another auction is refused before a disk is changed. Errors: as [`recover_from`].
fn check_longer(alloc: Global, digest: &Link, one: &File, other: &File) -> Result<(), Fault> {
    let is_second = length_of(one)? < length_of(other)?;
    let longer = if is_second { other } else { one };
    let mut source = source_of(alloc, reopened(longer)?)?;
    recover_from(alloc, &mut AnyText, digest, &mut source)?;
    Ok(())
}

/// Makes one disk of two, of which `one` and `other` are sources of all bytes. It has then those of
/// the longer file.
///
/// Requires that no call of the disks has failed. Errors: as [`level`].
pub fn mirrored<A: Durable + Drop, B: Durable + Drop, S: Source, T: Source>(
    first: A,
    second: B,
    one: &mut S,
    other: &mut T,
) -> Result<Mirror<A, B>, Fault>
    requires first { A.has_failed first ≡ false }
    requires second { B.has_failed second ≡ false }
    requires bytes { AreSeen (A.written first) (B.written second) (S.report one.old).left
        (T.report other.old).left }
    ensures bytes { IfOk result (λ disk.
        (bytes : Bytes (S.report one.old).left (T.report other.old).left)
        × (A.written first ≡ Some bytes.one
        → disk.first.written ≡ Some (longer bytes.one bytes.other))) }
    ensures unfailed { IfOk result
        (λ disk. (disk.first.has_failed || disk.second.has_failed) ≡ false) }
{
    let (mut first, mut second) = (first, second);
    level(&mut first, &mut second, one, other)?;
    Ok(Mirror::new(first, second))
}

/// Serves with a journal on a disk, of which `file` has all bytes.
fn serve_disk<R, D: Durable + Drop>(
    rt: &R,
    read: ReadAuction,
    serving: &Serving,
    disk: D,
    file: File,
) -> Result<(), Fault>
where
    R: Files<File = File>
        + Print
        + Eprint
        + Net<Listener = TcpListener, Stream = TcpStream>
        + Alloc<A = Global>,
    requires { D.has_failed disk ≡ false }
{
    let (length, source) = match begun(rt.alloc(), file) {
        Ok(begun) => begun,
        Err(fault) => {
            drop(disk);
            drop(read);
            return Err(fault);
        }
    };
    // reports bytes after the last text, which will be truncated
    let tell = |recovered: Recovered| {
        let end = recovered.end;
        if end < length {
            let cut = length - end;
            // only the operator reads it: the auction continues if it cannot be printed
            let _unprinted = eprintln!(rt; "cut {cut} bytes at {end}");
        }
    };
    let journal = NewJournal::new(disk, read.digest);
    let announcer = Printed { rt };
    let mut port = JournalPort::new(rt, serving);
    let count = serving.connections;
    let alloc = rt.alloc();
    let (served, ended, left) = serve_read(
        alloc, read, journal, announcer, source, tell, &mut port, count,
    );
    drop(ended);
    drop(left);
    match served {
        Ok(()) => Ok(()),
        Err(fault) => Err(server_fault(fault)),
    }
}

/// Returns the length of a file, and its bytes as a source.
fn begun(alloc: Global, file: File) -> Result<(usize, FileSource), Fault> {
    let length = length_of(&file)?;
    Ok((length, source_of(alloc, file)?))
}

/// Serves the auction of a set-up document with [`serve_from`], and with the journal of the same
/// document. `source` has all bytes of its disk. Returns the source, too, if the journal could not
/// be resumed.
///
/// Requires a journal with the digest of the document, that has not failed, and connections of
/// which none is open and none has failed. Errors: as [`serve_from`].
pub fn serve_read<D, S, A, C, F>(
    alloc: Global,
    read: ReadAuction,
    journal: NewJournal<D>,
    announcer: A,
    source: S,
    tell: F,
    connections: &mut C,
    count: u64,
) -> (
    Result<(), ServerFault<C::Fault>>,
    EndedJournal<D>,
    Option<S>,
)
where
    D: Durable + Drop,
    S: Source + Drop,
    A: Announcer + Drop,
    C: Listen,
    F: FnOnce(Recovered),
    requires digest { journal.chain ≡ read.digest }
    requires unfailed { journal.has_failed ≡ false }
    requires callable { F.IsAlwaysCallable tell }
    requires closed { C.offer connections.old ≡ None }
    requires taken { C.has_failed connections.old ≡ false }
    ensures read { ∥ ((document : List ℕ)
        × IsReadFrom document read.auction.front.setup journal.chain) ∥₁ }
    ensures generation { (exchanges : List Exchange) × (bytes : List ℕ)
        × HasBytes (S.report source).left bytes
        × GrowsBy (C.closed connections.old) (C.closed connections.new) exchanges
        × Came (C.coming connections.old) (C.coming connections.new) (bytes_given exchanges)
        × EndsGeneration read.auction.front.setup count exchanges bytes journal result.1 result.0
        × (result.0 ≡ Err (ServerFault.Start JournalFault.Unread) → (unread : S)
        × (result.2 ≡ Some unread) × IsUnreadable (S.report source) (S.report unread) bytes) }
    ensures closed { C.offer connections.new ≡ None }
    ensures taken { result.0 ≡ Err (ServerFault.Serve ServeFault.Accept)
        → C.has_failed connections.new ≡ true }
{
    let mut auction = read.auction;
    let served = serve_from(
        alloc,
        &mut auction,
        journal,
        announcer,
        source,
        tell,
        connections,
        count,
    );
    drop(auction);
    served
}

/// Puts the name of a file on the disk: syncs its folder.
fn sync_folder<R: Files<File = File>>(rt: &R, path: &str) -> Result<(), Fault> {
    let folder = match path.rfind('/') {
        Some(0) => "/",
        Some(end) => &path[..end],
        None => ".",
    };
    let folder = File::open(rt, folder).or(Err(Fault::Journal))?;
    folder.sync_all().or(Err(Fault::Journal))
}

/// Serves without a journal.
fn serve_unlogged<R>(rt: &R, read: ReadAuction, serving: &Serving) -> Result<(), Fault>
where
    R: Print + Net<Listener = TcpListener, Stream = TcpStream> + Alloc<A = Global>,
{
    let mut auction = read.auction;
    let served = match listen(rt, serving.port) {
        Ok(listener) => {
            let front = &mut auction.front;
            serve_on(rt.alloc(), front, &listener, serving.connections).map_err(serve_fault)
        }
        Err(fault) => Err(fault),
    };
    drop(auction);
    served
}

/// Listens on the port, and prints that.
fn listen<R>(rt: &R, port: u16) -> Result<TcpListener, Fault>
where
    R: Print + Net<Listener = TcpListener, Stream = TcpStream>,
{
    let listener = TcpListener::bind(rt, (Ipv4Addr::LOCALHOST, port)).or(Err(Fault::Bind))?;
    println!(rt; "ready {port}").or(Err(Fault::Output))?;
    Ok(listener)
}

/// Returns the fault of a server that ended before it served all connections.
pub fn serve_fault(fault: ServeFault) -> Fault
    ensures { result ≡ of_serving fault }
{
    match fault {
        ServeFault::Accept => Fault::Accept,
        ServeFault::Journal => Fault::Journal,
    }
}

/// Returns the fault of a server with a journal.
pub fn server_fault(fault: ServerFault<Fault>) -> Fault
    ensures { result ≡ of_server fault }
{
    match fault {
        ServerFault::Start(why) => Fault::from(why),
        ServerFault::Listen(why) => why,
        ServerFault::Serve(why) => serve_fault(why),
    }
}

/// Prints each closing with its digest. Contracts do not see what is printed.
#[derive(Drop)]
struct Printed<'a, R> {
    rt: &'a R,
}

impl<R: Print> Announcer for Printed<'_, R> {
    /// The reply was written before, so a reader of the output cannot delay it.
    fn round_closed(&mut self, round: u64, digest: &Link) {
        let digits = digits_of(digest);
        let digest = digits.escape_ascii();
        let _unprinted = println!(self.rt; "closed {round} {digest}");
    }
}

/// The port of a server with a journal. It listens once the journal is resumed. In contracts, it
/// shows no bytes, since sockets show none.
#[derive(Drop)]
struct JournalPort<'a, R> {
    rt: &'a R,
    serving: &'a Serving<'a>,
    listener: Option<TcpListener>,
    is_open: bool,
    has_failed: bool,
}

impl<'a, R> JournalPort<'a, R> {
    /// Returns the port, which does not listen yet.
    fn new(rt: &'a R, serving: &'a Serving<'a>) -> JournalPort<'a, R>
        ensures open { result.is_open ≡ false }
        ensures unfailed { result.has_failed ≡ false }
    {
        JournalPort {
            rt,
            serving,
            listener: None,
            is_open: false,
            has_failed: false,
        }
    }
}

impl<R> Acceptor for JournalPort<'_, R> {
    type Reader = FromReader<TcpStream>;

    type Writer = ToWriter<TcpStream>;

    ghost coming = { λ port. None };

    ghost offer = { λ port. if port.is_open then Some (record {
      source = unread None;
      sink = unused None;
    }) else None };

    ghost closed = { λ port. None };

    ghost has_failed = { λ port. port.has_failed };

    /// Fails if the port does not listen yet.
    fn accept(&mut self) -> Result<Connection<FromReader<TcpStream>, ToWriter<TcpStream>>, Failed> {
        let Some(listener) = &self.listener else {
            self.has_failed = true;
            return Err(Failed);
        };
        let Ok(one) = accept_on(listener) else {
            self.has_failed = true;
            return Err(Failed);
        };
        self.is_open = true;
        Ok(one)
    }

    fn close(&mut self, connection: Connection<FromReader<TcpStream>, ToWriter<TcpStream>>)
        ensures open { self.new.is_open ≡ false }
        ensures failed { self.new.has_failed ≡ self.old.has_failed }
    {
        self.is_open = false;
        drop(connection);
    }
}

impl<R> Listen for JournalPort<'_, R>
where
    R: Files<File = File> + Print + Net<Listener = TcpListener, Stream = TcpStream>,
{
    type Fault = Fault;

    /// Syncs the folders of the journal's files, prints the line of the journal, listens, and
    /// prints that.
    fn listen(&mut self, recovered: Recovered) -> Result<(), Fault> {
        if let Some(path) = self.serving.journal {
            sync_folder(self.rt, path)?;
        }
        if let Some(path) = self.serving.mirror {
            sync_folder(self.rt, path)?;
        }
        tell_journal(self.rt, recovered)?;
        self.listener = Some(listen(self.rt, self.serving.port)?);
        Ok(())
    }
}
