ghost use Rattle.std.specs.Prelude.{◌≡◌, [], None, Some, false};

use clock_device::Failed;
use clock_journal::Durable;
use std::alloc::Global;

/// A disk in memory, for tests. It has space for `room` bytes. Its first `syncs` syncs succeed, and
/// all later ones fail.
#[derive(Drop)]
pub struct MemoryDisk {
    alloc: Global,
    bytes: Vec<u8>,
    synced: Vec<u8>,
    room: usize,
    syncs: u64,
    has_failed: bool,
}

impl MemoryDisk {
    /// Creates an empty disk. Allocates nothing.
    pub fn new(alloc: Global, room: usize, syncs: u64) -> MemoryDisk
        ensures bytes { result.bytes.items ≡ [] }
        ensures synced { result.synced.items ≡ [] }
        ensures unfailed { result.has_failed ≡ false }
    {
        MemoryDisk {
            alloc,
            bytes: Vec::new(alloc),
            synced: Vec::new(alloc),
            room,
            syncs,
            has_failed: false,
        }
    }

    /// Returns the bytes on the disk.
    pub fn bytes(&self) -> &[u8]
        ensures { result.now ≡ self.now.bytes.items }
    {
        self.bytes.as_slice()
    }
}

impl Durable for MemoryDisk {
    ghost written = { λ disk. Some disk.bytes.items };

    ghost synced = { λ disk. Some disk.synced.items };

    ghost has_failed = { λ disk. disk.has_failed };

    fn append(&mut self, bytes: &[u8]) -> Result<(), Failed> {
        let free = self.room.saturating_sub(self.bytes.len());
        let count = free.min(bytes.len());
        if self.bytes.extend_from_slice(&bytes[..count]).is_err() || count < bytes.len() {
            self.has_failed = true;
            return Err(Failed);
        }
        Ok(())
    }

    fn sync(&mut self) -> Result<(), Failed> {
        if self.syncs == 0 {
            self.has_failed = true;
            return Err(Failed);
        }
        self.syncs -= 1;
        let Ok(copy) = self.bytes.to_vec(self.alloc) else {
            self.has_failed = true;
            return Err(Failed);
        };
        self.synced = copy;
        Ok(())
    }

    fn cut(&mut self, place: usize) -> Result<(), Failed> {
        self.bytes.truncate(place);
        self.sync()
    }
}
