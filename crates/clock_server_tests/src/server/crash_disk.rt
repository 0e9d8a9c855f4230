//! A disk in memory that remembers what a crash at each moment could have left.
ghost use Rattle.std.specs.Prelude.{◌≡◌, ◌++◌, ◌∷◌, [], Some, false};
ghost use Rattle.clock_server_tests.specs.inside.Moments.{newest_first};

use clock_device::Failed;
use clock_journal::Durable;
use std::alloc::Global;
use std::process::Abort;

/// What was synced, and what was written, at one moment.
#[derive(Drop)]
pub(super) struct Passed {
    pub(super) synced: Vec<u8>,
    pub(super) written: Vec<u8>,
}

/// A disk in memory. Its first `calls` calls succeed, and all later ones fail. An append that fails
/// writes half of its bytes; any other call that fails changes nothing.
///
/// Ends the process if memory runs out, since a moment that is not remembered could not be
/// revealed.
#[derive(Drop)]
pub(super) struct CrashDisk<'a, R> {
    rt: &'a R,
    alloc: Global,
    bytes: Vec<u8>,
    synced: Vec<u8>,
    moments: Vec<Passed>,
    calls: u64,
    has_failed: bool,
}

/// Returns a copy of bytes.
fn copy<R: Abort>(rt: &R, alloc: Global, bytes: &[u8]) -> Vec<u8>
    ensures { result.items ≡ bytes.now }
{
    bytes.to_vec(alloc).expect(rt, "a copy")
}

/// Appends a moment.
fn push<R: Abort>(rt: &R, moments: &mut Vec<Passed>, passed: Passed)
    ensures { moments.new.items ≡ moments.old.items ++ passed ∷ [] }
{
    moments.push(passed).expect(rt, "a moment");
}

/// Remembers a moment.
fn remember<R: Abort>(
    rt: &R,
    alloc: Global,
    moments: &mut Vec<Passed>,
    synced: &[u8],
    written: &[u8],
)
    ensures { newest_first
        (λ p. record { synced = Some p.synced.items; written = Some p.written.items })
        moments.new.items []
        ≡ record { synced = Some synced.now; written = Some written.now } ∷ newest_first
        (λ p. record { synced = Some p.synced.items; written = Some p.written.items })
        moments.old.items [] }
{
    let passed = Passed {
        synced: copy(rt, alloc, synced),
        written: copy(rt, alloc, written),
    };
    push(rt, moments, passed);
}

impl<'a, R: Abort> CrashDisk<'a, R> {
    /// Creates a disk that has this file.
    pub(super) fn new(rt: &'a R, alloc: Global, file: &[u8], calls: u64) -> CrashDisk<'a, R>
        ensures written { result.bytes.items ≡ file.now }
        ensures synced { result.synced.items ≡ file.now }
        ensures unfailed { result.has_failed ≡ false }
    {
        CrashDisk {
            rt,
            alloc,
            bytes: copy(rt, alloc, file),
            synced: copy(rt, alloc, file),
            moments: Vec::new(alloc),
            calls,
            has_failed: false,
        }
    }

    /// Returns all moments that have passed, the oldest first.
    pub(super) fn moments(&self) -> &[Passed] {
        self.moments.as_slice()
    }

    /// Returns all bytes of the file.
    pub(super) fn bytes(&self) -> &[u8] {
        self.bytes.as_slice()
    }
}

impl<R: Abort> Durable for CrashDisk<'_, R> {
    ghost written = { λ disk. Some disk.bytes.items };

    ghost synced = { λ disk. Some disk.synced.items };

    ghost has_failed = { λ disk. disk.has_failed };

    ghost moments = { λ disk. Some (newest_first
        (λ p. record { synced = Some p.synced.items; written = Some p.written.items })
        disk.moments.items []) };

    fn append(&mut self, bytes: &[u8]) -> Result<(), Failed> {
        let works = self.calls > 0;
        let count = if works { bytes.len() } else { bytes.len() / 2 };
        self.bytes
            .extend_from_slice(&bytes[..count])
            .expect(self.rt, "an append");
        remember(
            self.rt,
            self.alloc,
            &mut self.moments,
            &self.synced,
            &self.bytes,
        );
        if !works {
            self.has_failed = true;
            return Err(Failed);
        }
        self.calls -= 1;
        Ok(())
    }

    fn sync(&mut self) -> Result<(), Failed> {
        remember(
            self.rt,
            self.alloc,
            &mut self.moments,
            &self.synced,
            &self.bytes,
        );
        if self.calls == 0 {
            self.has_failed = true;
            return Err(Failed);
        }
        self.calls -= 1;
        self.synced = copy(self.rt, self.alloc, &self.bytes);
        Ok(())
    }

    fn cut(&mut self, place: usize) -> Result<(), Failed> {
        let mut synced = copy(self.rt, self.alloc, &self.synced);
        synced.truncate(place);
        remember(self.rt, self.alloc, &mut self.moments, &synced, &self.bytes);
        if self.calls == 0 {
            self.has_failed = true;
            return Err(Failed);
        }
        self.calls -= 1;
        self.bytes.truncate(place);
        self.synced = copy(self.rt, self.alloc, &self.bytes);
        Ok(())
    }
}
