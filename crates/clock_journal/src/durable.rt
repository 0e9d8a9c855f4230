ghost use Rattle.std.specs.Prelude.{◌≡◌, ◌||◌, Bool, List, Option, ℕ, OnOk, OnErr, is_err};
ghost use Rattle.std.specs.Prelude.{None, false, option_map, take};
ghost use Rattle.clock_device.specs.Streams.{WritesText};
ghost use Rattle.clock_journal.specs.Disks.{CutsTo, Moment, Passes};

use clock_device::Failed;
use std::fs::OpenFile;
use std::io::Write;

/// A file that can be appended to, truncated, and synced.
///
/// Make no call after one that failed.
///
/// In contracts, a disk is its bytes, those that are synced, and whether a call has failed. A crash
/// leaves all that is synced, and a prefix of what was appended since. If the disk reveals its
/// `moments`, these are all states that a crash could find, the last one first.
pub trait Durable {
    ghost written: { Self → Option (List ℕ) };

    ghost synced: { Self → Option (List ℕ) };

    ghost has_failed: { Self → Bool };

    ghost moments: { Self → Option (List Moment) } = { λ disk. None };

    /// Appends `bytes`, or a prefix of them at `Err`.
    ///
    /// Requires that no call has failed.
    fn append(&mut self, bytes: &[u8]) -> Result<(), Failed>
        requires unfailed { has_failed self.old ≡ false }
        ensures unseen { written self.old ≡ None → written self.new ≡ None }
        ensures written { WritesText (written self.old) (written self.new) bytes.now result }
        ensures synced { synced self.new ≡ synced self.old }
        ensures moments { Passes (moments self.old) (moments self.new) (synced self.old)
            (written self.new) }
        ensures failed { has_failed self.new ≡ (has_failed self.old || is_err result) };

    /// Puts all bytes of the file on the disk. At `Err`, a crash may leave any prefix of those that
    /// were not synced before.
    ///
    /// Requires that no call has failed: a failed sync that is repeated may report success.
    fn sync(&mut self) -> Result<(), Failed>
        requires unfailed { has_failed self.old ≡ false }
        ensures written { written self.new ≡ written self.old }
        ensures ok { OnOk result (synced self.new ≡ written self.old) }
        ensures err { OnErr result (synced self.new ≡ synced self.old) }
        ensures moments { Passes (moments self.old) (moments self.new) (synced self.old)
            (written self.old) }
        ensures failed { has_failed self.new ≡ (has_failed self.old || is_err result) };

    /// Truncates the file to `place` bytes, and syncs it. A shorter file is unchanged. At `Err`,
    /// the file is truncated or unchanged.
    ///
    /// Requires a synced file, so that a crash leaves these bytes, and that no call has failed.
    fn cut(&mut self, place: usize) -> Result<(), Failed>
        requires synced { synced self.old ≡ written self.old }
        requires unfailed { has_failed self.old ≡ false }
        ensures written { CutsTo (written self.old) (written self.new) place result }
        ensures synced { OnOk result (synced self.new ≡ written self.new) }
        ensures moments { Passes (moments self.old) (moments self.new)
            (option_map (take place) (synced self.old)) (written self.old) }
        ensures failed { has_failed self.new ≡ (has_failed self.old || is_err result) };
}

/// A file of the system, opened for appending. Contracts do not see its bytes.
#[derive(Drop)]
pub struct FileDisk<F> {
    file: F,
    has_failed: bool,
}

impl<F: Write + OpenFile> FileDisk<F> {
    /// Wraps a file.
    pub fn new(file: F) -> FileDisk<F>
        ensures { ⟦<FileDisk<F> as Durable>⟧.has_failed result ≡ false }
    {
        let has_failed = false;
        FileDisk { file, has_failed }
    }
}

impl<F: Write + OpenFile> Durable for FileDisk<F> {
    ghost written = { λ disk. None };

    ghost synced = { λ disk. None };

    ghost has_failed = { λ disk. disk.has_failed };

    fn append(&mut self, bytes: &[u8]) -> Result<(), Failed> {
        let done = self.file.write_all(bytes).or(Err(Failed));
        self.has_failed = self.has_failed || done.is_err();
        done
    }

    fn sync(&mut self) -> Result<(), Failed> {
        let done = self.file.sync_data().or(Err(Failed));
        self.has_failed = self.has_failed || done.is_err();
        done
    }

    fn cut(&mut self, place: usize) -> Result<(), Failed> {
        let Ok(metadata) = self.file.metadata() else {
            self.has_failed = true;
            return Err(Failed);
        };
        // a place past the end would make the file longer
        let length = metadata.len().min(place as u64);
        if self.file.set_len(length).is_err() || self.file.sync_all().is_err() {
            self.has_failed = true;
            return Err(Failed);
        }
        Ok(())
    }
}
