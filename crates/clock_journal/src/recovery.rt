//! Recovery: a machine takes the texts of a file, one after the other.

ghost use Rattle.std.specs.Prelude.{◌≡◌, [], ◌∷◌, List, ℕ, Err, IfErr, IfOk, OnOk, reverse};
ghost use Rattle.std.specs.Prelude.{MatchBool};
ghost use Rattle.clock_journal.specs.Crash.{IsPartOfHead};
ghost use Rattle.clock_journal.specs.Recovering.{AreTextsOf, IsFound, record_at};
ghost use Rattle.clock_journal.specs.Resuming.{NoneRefused};
ghost use Rattle.clock_journal.specs.inside.Pieces.{HasWholeHead, IsOtherHead};

use crate::format::{
    BEFORE_TEXT, HEAD_LENGTH, KIND, KIND_LENGTH, Link, Next, head_of, next_record,
};

/// Why a machine did not take a text: it would change nothing, or the machine is out of memory. Do
/// not use the machine afterward.
#[derive(Clone, Copy, Debug, PartialEq, Eq)]
pub enum TakeError {
    Refused,
    NoMemory,
}

/// The record of a text in a file.
#[derive(Clone, Copy, Debug, PartialEq, Eq)]
pub struct Record {
    /// The text's number in the file, from 1.
    pub number: u64,
    /// The byte of the file at which the record begins.
    pub place: usize,
    /// The digest of the text and of all before it.
    pub digest: Link,
}

/// What takes the texts of a journal, in order.
///
/// In contracts, a machine stands for the texts that it took, the newest first: the first texts in
/// the journal of the set-up document whose digest is the first argument.
pub trait Machine {
    /// What decides whether it refuses a text. No text changes it.
    ghost Rules: { Type 0 } = { Unit {0} };

    ghost rules: { Self → Self.Rules };

    ghost stands_for: { Self → List ℕ → List (List ℕ) → Type 0 };

    /// By these rules, a machine that took these texts refuses this one.
    ghost refuses: { Self.Rules → List (List ℕ) → List ℕ → Type 0 };

    /// Takes the next text, whose record is `at`. It takes no text that it refuses.
    ///
    /// At `Err`, it has taken part of the text, or nothing. Do not use it again.
    fn take(&mut self, text: &[u8], at: &Record) -> Result<(), TakeError>
        ensures taken { OnOk result ((digest : List ℕ) (past : List (List ℕ))
            → stands_for self.old digest past → at.now ≡ record_at digest past text.now
            → stands_for self.new digest (text.now ∷ past)) }
        ensures accepted { OnOk result ((digest : List ℕ) (past : List (List ℕ))
            → stands_for self.old digest past → refuses (rules self.old) past text.now → ⊥) }
        ensures refused { (digest : List ℕ) (past : List (List ℕ))
            → result ≡ Err TakeError.Refused → stands_for self.old digest past
            → refuses (rules self.old) past text.now }
        ensures rules { rules self.new ≡ rules self.old };
}

/// What a file has, if its journal can be continued.
#[derive(Clone, Copy, Debug, PartialEq, Eq)]
pub struct Recovered {
    /// The digest of its last text, or of the set-up document.
    pub chain: Link,
    /// Where its last record ends. What follows is torn, and will be truncated. If the file has no
    /// whole head, `end` is 0.
    pub end: usize,
    /// The number of its texts.
    pub texts: u64,
}

/// Why the journal in a file cannot be continued.
///
/// - `Unknown`: the file is no journal.
/// - `Setup`: it is the journal of another set-up.
/// - `Damaged`: at this place it has what no crash leaves.
/// - `Refused`: the machine refuses the text whose record begins at this place.
/// - `NoMemory`: the machine is out of memory.
/// - `Failed`: a call of the disk failed, after all texts were taken. Only
///   [`NewJournal::resume`](crate::NewJournal::resume) returns it.
/// - `Unread`: the source could not be read: a read failed, was interrupted too often, or went
///   beyond 2^64 bytes. Only `resume` and [`recover_from`](crate::recover_from) return it.
#[derive(Clone, Copy, Debug, PartialEq, Eq)]
pub enum JournalFault {
    Unknown,
    Setup,
    Damaged(usize),
    Refused(usize),
    NoMemory,
    Failed,
    Unread,
}

/// Gives a machine all texts of a file, in order, each with its record. `digest` is that of the
/// set-up document. If the file begins with the journal of some texts, the machine takes these
/// first, and `Damaged` names no place before their end: by `whatever_follows` of
/// [`law_of_journals`](crate::law_of_journals), a file has one list of texts only.
///
/// So what a crash left of a journal is not damaged, and the machine takes every text that was on
/// the disk. If the machine had no text before, it stands for these texts, and no text that it
/// takes is one that it refuses.
///
/// Errors, in this order: `Unknown`, `Setup`, with an unchanged machine; then, of the first record
/// that is not taken, `Damaged`, `Refused`, or `NoMemory`. It then has taken all texts before that
/// record: do not use it again. Hashes each text once, and allocates nothing.
pub fn recover<M: Machine>(
    machine: &mut M,
    digest: &Link,
    bytes: &[u8],
) -> Result<Recovered, JournalFault>
    ensures ok { IfOk result (λ recovered. (texts : List (List ℕ))
        × AreTextsOf digest.now bytes.now texts recovered
        × (M.stands_for machine.old digest.now []
        → M.stands_for machine.new digest.now (reverse texts)
        × NoneRefused (M.refuses (M.rules machine.old)) [] texts)) }
    ensures err { IfErr result (IsFound (λ past text. M.stands_for machine.old digest.now []
        → M.refuses (M.rules machine.old) past text) digest.now bytes.now) }
    ensures rules { M.rules machine.new ≡ M.rules machine.old }
{
    let mut chain = *digest;
    let mut texts: u64 = 0;
    if !has_head(digest, bytes)? {
        let end = 0;
        return Ok(Recovered { chain, end, texts });
    }
    let mut rest = &bytes[HEAD_LENGTH..];
    loop {
        let end = bytes.len() - rest.len();
        match next_record(&chain, rest) {
            Next::Ended | Next::Torn => return Ok(Recovered { chain, end, texts }),
            Next::Damaged => return Err(JournalFault::Damaged(end)),
            Next::Whole(text, digest) => {
                let number = texts + 1;
                let record = Record {
                    number,
                    place: end,
                    digest,
                };
                match machine.take(text, &record) {
                    Ok(()) => {
                        chain = digest;
                        texts = number;
                        rest = &rest[BEFORE_TEXT + text.len()..];
                    }
                    Err(TakeError::Refused) => return Err(JournalFault::Refused(end)),
                    Err(TakeError::NoMemory) => return Err(JournalFault::NoMemory),
                }
            }
        }
    }
}

/// Returns whether a file has the whole head of the journal of the set-up document with this
/// digest. If not, it is a shorter prefix of it. Errors, in this order: `Unknown`, `Setup`.
pub(crate) fn has_head(digest: &Link, bytes: &[u8]) -> Result<bool, JournalFault>
    ensures ok { IfOk result (λ is_whole. MatchBool is_whole (HasWholeHead digest.now bytes.now)
        (IsPartOfHead digest.now bytes.now)) }
    ensures err { IfErr result (IsOtherHead digest.now bytes.now) }
{
    let head = head_of(digest);
    if bytes.len() < HEAD_LENGTH {
        if bytes[..] == head[..bytes.len()] {
            return Ok(false);
        }
        return Err(JournalFault::Unknown);
    }
    if bytes[..KIND_LENGTH] != KIND[..] {
        return Err(JournalFault::Unknown);
    }
    if bytes[..HEAD_LENGTH] != head[..] {
        return Err(JournalFault::Setup);
    }
    Ok(true)
}
