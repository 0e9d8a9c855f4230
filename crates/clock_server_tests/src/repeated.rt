//! Long texts, in which pieces are repeated.
use clock_device::Text;
use std::alloc::Global;

/// A piece of a text, and the number of its repetitions.
pub(crate) type Piece<'a> = (&'a [u8], usize);

/// Adds a piece `count` times.
fn push_times(text: &mut Text, piece: &[u8], count: usize) -> Option<()> {
    for _ in 0..count {
        text.extend_from_slice(piece).ok()?;
    }
    Some(())
}

/// The text of these pieces.
pub(crate) fn repeated(alloc: Global, pieces: &[Piece<'_>]) -> Option<Text> {
    let mut text = Text::new(alloc);
    for &(piece, count) in pieces {
        push_times(&mut text, piece, count)?;
    }
    Some(text)
}
