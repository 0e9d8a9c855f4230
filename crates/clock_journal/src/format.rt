//! The bytes of a journal: digests, its head, and its records.

ghost use Rattle.std.specs.Prelude.{◌≡◌, ◌≤◌, ◌++◌, Some, None, if◌then◌else◌, length};
ghost use Rattle.clock_journal.specs.Format.{document_digest, head, link, mark, mark_length};
ghost use Rattle.clock_journal.specs.Format.{most_text};
ghost use Rattle.clock_journal.specs.Reading.{is_marked, marked_length, next};
ghost use Rattle.clock_journal.specs.inside.Shown.{IsRecord, shown};

use sha2::{Digest, Sha256};

/// The digest of a text and of all before it.
pub type Link = [u8; 32];

/// Returns the digest of a text. `chain` is the digest before it.
#[tactic(auto, unfolding(crate::specs::Format::link))]
pub(crate) fn link_of(chain: &Link, text: &[u8]) -> Link
    ensures { result ≡ link chain.now text.now }
{
    let mut hasher = Sha256::new();
    hasher.update(chain.as_slice());
    hasher.update(text);
    hasher.finalize()
}

/// Returns the digest of a set-up document, which is in the head of its journal.
pub fn digest_of(document: &[u8]) -> Link
    ensures { result ≡ document_digest document.now }
{
    Sha256::digest(document)
}

/// The length of a journal's head.
pub(crate) const HEAD_LENGTH: usize = 56;

/// How many bytes of the head are the same in every journal.
pub(crate) const KIND_LENGTH: usize = 24;

/// The first bytes of every journal.
pub(crate) const KIND: &[u8; KIND_LENGTH] = b"clock_auction journal 1\n";

/// Returns the head of a journal, for the set-up document with this digest.
#[tactic(auto, unfolding(crate::specs::Format::head))]
pub(crate) fn head_of(digest: &Link) -> [u8; HEAD_LENGTH]
    ensures { result ≡ head digest.now }
{
    let mut bytes = [0; HEAD_LENGTH];
    bytes[..KIND_LENGTH].copy_from_slice(KIND);
    bytes[KIND_LENGTH..].copy_from_slice(digest);
    bytes
}

/// The length of the longest text.
pub const MOST_TEXT: usize = 16_777_215;

/// The bytes of a record that have the length of its text, twice.
const MARK_LENGTH: usize = 8;

/// The bytes of a record before its text: the length twice, and the digest.
pub(crate) const BEFORE_TEXT: usize = 40;

/// What bytes of a journal begin with.
///
/// - `Ended`: there are none.
/// - `Torn`: a record that is not complete, or the last one with a wrong digest.
/// - `Damaged`: what no crash leaves.
/// - `Whole`: the record of this text, with this digest.
pub(crate) enum Next<'a> {
    Ended,
    Torn,
    Damaged,
    Whole(&'a [u8], Link),
}

/// Returns the bytes of a record before its text of `count` bytes.
#[tactic(auto, unfolding(crate::specs::Format::mark))]
pub(crate) fn front_of(count: usize, digest: &Link) -> [u8; BEFORE_TEXT]
    requires { count ≤ most_text }
    ensures { result ≡ mark count ++ digest.now }
{
    let length = (count as u32).to_be_bytes();
    let mut front = [0; BEFORE_TEXT];
    front[..4].copy_from_slice(&length);
    front[4..MARK_LENGTH].copy_from_slice(&length);
    front[MARK_LENGTH..].copy_from_slice(digest);
    front
}

/// Returns the length of a text by the mark at the start of its record, if the mark is right.
#[tactic(auto, unfolding(crate::specs::Reading::is_marked, crate::specs::Reading::marked_length))]
pub(crate) fn length_of_text(bytes: &[u8]) -> Option<usize>
    requires { mark_length ≤ length bytes.now }
    ensures { result ≡ if is_marked bytes.now then Some (marked_length bytes.now) else None }
{
    let mut length = [0; 4];
    length.copy_from_slice(&bytes[..4]);
    let count = u32::from_be_bytes(length) as usize;
    if bytes[..4] != bytes[4..MARK_LENGTH] || count < 1 || count > MOST_TEXT {
        return None;
    }
    Some(count)
}

/// Finds what `bytes` begin with. `chain` is the digest of the text before them. Hashes one text.
#[tactic(auto, unfolding(crate::specs::Reading::next, crate::specs::Reading::is_marked, crate::specs::Reading::marked_length))]
pub(crate) fn next_record<'a>(chain: &Link, bytes: &'a [u8]) -> Next<'a>
    ensures next { shown result ≡ next chain.now bytes.now }
    ensures record { IsRecord chain.now bytes.now result }
{
    if bytes.is_empty() {
        return Next::Ended;
    }
    if bytes.len() < MARK_LENGTH {
        return Next::Torn;
    }
    let Some(count) = length_of_text(bytes) else {
        return Next::Damaged;
    };
    if bytes.len() < BEFORE_TEXT + count {
        return Next::Torn;
    }
    let text = &bytes[BEFORE_TEXT..BEFORE_TEXT + count];
    let digest = link_of(chain, text);
    if bytes[MARK_LENGTH..BEFORE_TEXT] == digest[..] {
        Next::Whole(text, digest)
    } else if bytes.len() == BEFORE_TEXT + count {
        Next::Torn
    } else {
        Next::Damaged
    }
}
