ghost use Rattle.std.specs.Prelude.{◌≡◌, ◌+◌, ◌≤◌, ◌++◌, ℕ, List, [], false, length, take, IfOk};
ghost use Rattle.std.specs.Prelude.{IfSome, OnErr, OnOk, OnSome};
ghost use Rattle.clock_http.specs.{Framing.{needs_more}, Shown.{IsFramed}};
ghost use Rattle.clock_http.specs.inside.Followed.{IsFollowed};

use crate::progress::{Framing, Progress, head_in};
use clock_device::NoMemory;
use std::alloc::Global;
use std::marker::Model;

/// The bytes of a request that have arrived so far, and what is known of them, so that no byte is
/// searched twice.
///
/// In contracts, an `Arriving` is the list of these bytes.
#[derive(Drop)]
pub struct Arriving {
    /// The bytes, followed by zeros that later bytes overwrite.
    room: Vec<u8>,
    count: usize,
    progress: Progress,
    /// A text of fewer bytes than this fits, and only waits for more of its body, whatever its
    /// further bytes are.
    next_check: usize,
}

impl Model for Arriving {
    ghost Value = { List ℕ };

    ghost view = { λ a. take a.count a.room.items };

    ghost invariant = { λ a. IsFollowed a.room.items a.count a.progress a.next_check };
}

/// Appends zeros within the capacity, up to one byte less than `awaited`. Returns a length: each
/// shorter text fits among these bytes, and still lacks a byte of those awaited. Allocates nothing.
fn make_places(room: &mut Vec<u8>, awaited: usize) -> usize
    ensures appended { (zeros : List ℕ) × (room.new.items ≡ room.old.items ++ zeros) }
    ensures placed { result ≤ length room.new.items + 1 }
    ensures below { result ≤ awaited }
{
    let places = room.capacity().min(awaited.saturating_sub(1));
    if places <= room.len() || room.resize(places, 0).is_err() {
        return 0;
    }
    places + 1
}

/// Appends `piece`, all of it or nothing. If `awaited` allows, it first reserves three times the
/// bytes so far, but none beyond `awaited`. May return `NoMemory`. A single byte is pushed, which
/// costs less than a copy.
fn append(room: &mut Vec<u8>, piece: &[u8], awaited: usize) -> Result<(), NoMemory>
    ensures ok { OnOk result (room.new.items ≡ room.old.items ++ piece.now) }
    ensures err { OnErr result (room.new.items ≡ room.old.items) }
{
    let missing = awaited.saturating_sub(room.len());
    let further = missing.min(room.len().saturating_mul(3));
    if piece.len() < further {
        room.reserve_exact(further)?;
    }
    match piece {
        [byte] => room.push(*byte)?,
        _ => room.extend_from_slice(piece)?,
    }
    Ok(())
}

/// Overwrites the bytes from `place` on with `piece`.
fn write_at(room: &mut Vec<u8>, place: usize, piece: &[u8])
    requires { place + length piece.now ≤ length room.old.items }
    ensures written { take (place + length piece.now) room.new.items
        ≡ take place room.old.items ++ piece.now }
    ensures size { length room.new.items ≡ length room.old.items }
{
    room[place..place + piece.len()].copy_from_slice(piece);
}

impl Arriving {
    /// Creates an empty buffer. Allocates nothing.
    pub fn new(alloc: Global) -> Arriving
        ensures { result ≡ [] }
    {
        Arriving {
            room: Vec::new(alloc),
            count: 0,
            progress: Progress::new(),
            next_check: 0,
        }
    }

    /// Appends `piece`, all of it or nothing, and returns whether the request still needs more
    /// bytes. While more of a body is awaited, only the number of bytes is checked. May return
    /// `NoMemory`; then nothing was appended.
    #[inline(always)]
    pub fn take(&mut self, piece: &[u8]) -> Result<bool, NoMemory>
        ensures ok { OnOk result (self.new ≡ self.old ++ piece.now) }
        ensures short { IfOk result (λ short. short ≡ needs_more self.new) }
        ensures err { OnErr result (self.new ≡ self.old) }
    {
        let place = self.count;
        match piece {
            [byte] if place + 1 < self.next_check => {
                self.room[place] = *byte;
                self.count = place + 1;
                Ok(true)
            }
            _ => self.take_piece(piece),
        }
    }

    /// Like [`Arriving::take`], for more than one byte, or if the byte has no zero to overwrite.
    /// Not inlined, so that the path for a single byte stays short.
    #[inline(never)]
    fn take_piece(&mut self, piece: &[u8]) -> Result<bool, NoMemory>
        ensures ok { OnOk result (self.new ≡ self.old ++ piece.now) }
        ensures short { IfOk result (λ short. short ≡ needs_more self.new) }
        ensures err { OnErr result (self.new ≡ self.old) }
    {
        if piece.len() < self.next_check.saturating_sub(self.count) {
            write_at(&mut self.room, self.count, piece);
            self.count += piece.len();
            return Ok(true);
        }
        self.next_check = 0;
        self.room.truncate(self.count);
        append(&mut self.room, piece, self.progress.awaited())?;
        self.count = self.room.len();
        self.progress = self.progress.advance(self.room.as_slice());
        self.next_check = make_places(&mut self.room, self.progress.awaited());
        Ok(self.progress.needs_more())
    }

    /// Returns the framing of the bytes: incomplete, a request, or refused. Allocates nothing.
    pub fn framing(&self) -> Framing<'_>
        ensures { IsFramed self.now result }
    {
        self.progress.framing(self.as_slice())
    }

    /// Returns the framing of the bytes followed by `piece`, if the bytes are exactly a head and
    /// `piece` has its whole body. Otherwise returns `None`. The body then needs no copy.
    pub fn framing_with<'a>(&'a self, piece: &'a [u8]) -> Option<Framing<'a>>
        ensures is { IfSome result (IsFramed (self.now ++ piece.now)) }
        ensures whole { OnSome result (needs_more (self.now ++ piece.now) ≡ false) }
    {
        match self.progress {
            Progress::Waiting(head) if head.length == self.count && head.body <= piece.len() => {
                Some(Framing::Whole {
                    head: head_in(self.as_slice(), head),
                    body: &piece[..head.body],
                })
            }
            _ => None,
        }
    }

    /// Returns the bytes.
    pub fn as_slice(&self) -> &[u8]
        ensures { result.now ≡ self.now }
    {
        &self.room[..self.count]
    }
}
