ghost use Rattle.std.specs.Prelude.{◌≡◌, ℕ, List, Some, [], IfOk};
ghost use Rattle.clock_device.specs.{Buffers.{IsPut, output}, Reports.{unused}};

use crate::buffer::Buffer;
use crate::items::{NoMemory, Text};
use crate::stream::{Failed, Sink};
use std::alloc::Global;
use std::marker::Model;

/// A [`Sink`] that appends to a text. A write fails if it is out of memory.
///
/// In contracts, it is what a sink reports.
#[derive(Drop)]
pub struct TextSink {
    text: Text,
    calls: u64,
    has_failed: bool,
}

impl Model for TextSink {
    ghost use Rattle.std.specs.Prelude.{Some};
    ghost use Rattle.clock_device.specs.Reports.{SinkReport};

    ghost Value = { SinkReport };

    ghost view = { λ s.
        record { taken = Some s.text; calls = s.calls; has_failed = s.has_failed } };
}

impl TextSink {
    /// Makes a sink with an empty text. Allocates nothing.
    pub fn new(alloc: Global) -> TextSink
        ensures { result ≡ unused (Some []) }
    {
        TextSink {
            text: Text::new(alloc),
            calls: 0,
            has_failed: false,
        }
    }

    /// Writes what `buffer` collected, and returns the whole text. Returns `NoMemory` if a write
    /// has failed, now or before.
    pub fn finish(mut self, buffer: &mut Buffer) -> Result<Text, NoMemory>
        ensures { (text : List ℕ) → IsPut (unused (Some [])) (output self buffer.old) text
            → IfOk result (λ whole. whole ≡ text) }
    {
        match buffer.finish(&mut self) {
            Ok(()) => {
                let TextSink { text, .. } = self;
                Ok(text)
            }
            Err(Failed) => Err(NoMemory),
        }
    }
}

impl Sink for TextSink {
    ghost report = { λ sink. sink };

    /// Fails also if `bytes` is empty.
    fn write(&mut self, bytes: &[u8]) -> Result<usize, Failed> {
        self.calls = self.calls.saturating_add(1);
        if bytes.is_empty() || self.text.extend_from_slice(bytes).is_err() {
            self.has_failed = true;
            return Err(Failed);
        }
        Ok(bytes.len())
    }
}
