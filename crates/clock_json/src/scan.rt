//! Reads a text from its start to its end, one mark or value at a time.
ghost use Rattle.std.specs.Prelude.{◌≡◌, ◌∷◌, ◌++◌, [], ◌<◌, ℕ, List, drop, length, map, replicate};
ghost use Rattle.std.specs.Prelude.{IsTrue, IfSome, IfNone, IfOk, OnOk, true, false};
ghost use Rattle.std.specs.Bool.{MatchBool};
ghost use Rattle.json.specs.Token.{Token, key as key_token, tokens_code};
ghost use Rattle.json.specs.Lex.{may_begin, may_close, tokens};
ghost use Rattle.serde_json.specs.Data.{null, string};
ghost use Rattle.clock_json.specs.Left.{left, place_of};
ghost use Rattle.clock_json.specs.Marks.{opening_mark, closing_mark};
ghost use Rattle.clock_json.specs.Reading.{whole_number, numbers, rows, ReadsValue, ReadsAll};
ghost use Rattle.clock_json.specs.declared.scan.ScanStop.TheVariants as stops;

use crate::compact::{CompactPart, CompactTriple, compact_triple_at, has_room};
use crate::digits::number_and_comma;
use crate::room::push;
use crate::rows::{ShortRows, short_row};
use crate::words::{
    after_space, after_value, decimal_at, ends_text, ends_word, is_at, is_key, quoted, quoted_text,
};
use clock_device::{Items, NoMemory};
use std::alloc::Global;
use std::marker::Model;

/// Why a text could not be read.
#[derive(Clone, Copy, Debug, PartialEq, Eq)]
pub enum ScanStop {
    /// The text does not have the expected shape. It may still be valid.
    Unusual,
    /// An allocation failed.
    NoMemory,
}

impl From<NoMemory> for ScanStop {
    ghost from_gives = { λ _ stop. stop ≡ stops.NoMemory };

    fn from(_refused: NoMemory) -> ScanStop {
        ScanStop::NoMemory
    }
}

/// What may come next.
#[derive(Clone, Copy, Drop)]
pub(crate) enum Expected {
    Fresh,
    AfterValue,
    AfterComma,
}

impl Expected {
    /// Returns whether a value or a key may begin here.
    #[inline(always)]
    pub(crate) fn may_begin(self) -> bool
        ensures { result ≡ may_begin (place_of self) }
    {
        matches!(self, Expected::Fresh | Expected::AfterComma)
    }

    /// Returns whether a comma was read last, so that no bracket and no brace may close here.
    #[inline(always)]
    pub(crate) fn is_after_comma(self) -> bool
        ensures comma { IsTrue result → self ≡ Expected.AfterComma }
        ensures others { result ≡ false → may_close (place_of self) ≡ true }
    {
        matches!(self, Expected::AfterComma)
    }
}

/// A text that is being read. In contracts, it is the list of the tokens not read yet.
///
/// A call that returns an error may leave it at any token. `closes` or `null` that returns false,
/// and `compact_triple` that returns `None`, leave it unchanged.
#[derive(Drop)]
pub struct Scan<'a> {
    text: &'a str,
    bytes: &'a [u8],
    at: usize,
    expected: Expected,
}

impl<'a> Model for Scan<'a> {
    ghost Value = { List Token };

    ghost coded = { tokens_code };

    ghost view = { λ s. left s.expected (drop s.at s.bytes.now) };

    ghost invariant = { λ s. s.text.now ≡ s.bytes.now };
}

impl<'a> Scan<'a> {
    /// Reads a text from its first byte on.
    pub fn new(text: &'a str) -> Scan<'a>
        ensures { result ≡ tokens text.now }
    {
        Scan {
            text,
            bytes: text.as_bytes(),
            at: 0,
            expected: Expected::Fresh,
        }
    }

    /// Returns how many bytes are left.
    pub fn bytes_left(&self) -> usize {
        self.bytes.len().saturating_sub(self.at)
    }

    /// Reads a mark that opens, `[` or `{`.
    #[inline(always)]
    pub fn opens(&mut self, mark: u8) -> Result<(), ScanStop>
        ensures { OnOk result (IfSome (opening_mark mark) (λ token. self.old ≡ token ∷ self.new)) }
    {
        let at = after_space(self.bytes, self.at);
        if !self.expected.may_begin() || !is_at(self.bytes, at, mark) {
            return Err(ScanStop::Unusual);
        }
        (self.expected, self.at) = (Expected::Fresh, at + 1);
        Ok(())
    }

    /// Reads a mark that closes, `]` or `}`, if it comes next.
    #[inline(always)]
    pub fn closes(&mut self, mark: u8) -> bool
        ensures { MatchBool result (IfSome (closing_mark mark)
            (λ token. self.old ≡ token ∷ self.new)) (self.new ≡ self.old) }
    {
        if self.expected.is_after_comma() {
            return false;
        }
        let at = after_space(self.bytes, self.at);
        if !is_at(self.bytes, at, mark) {
            return false;
        }
        (self.expected, self.at) = after_value(self.bytes, at + 1);
        true
    }

    /// Reads a key without escapes, and its colon.
    #[inline(always)]
    pub fn key(&mut self) -> Result<&'a [u8], ScanStop>
        ensures { IfOk result (λ key. self.old ≡ key_token key.now ∷ self.new) }
    {
        let at = after_space(self.bytes, self.at);
        if !self.expected.may_begin() {
            return Err(ScanStop::Unusual);
        }
        let (key, at) = quoted(self.bytes, at)?;
        let at = after_space(self.bytes, at);
        if !is_at(self.bytes, at, b':') {
            return Err(ScanStop::Unusual);
        }
        (self.expected, self.at) = (Expected::Fresh, at + 1);
        Ok(key)
    }

    /// Reads a number below 10^19 that has only digits.
    #[inline(always)]
    pub fn number(&mut self) -> Result<u64, ScanStop>
        ensures value { IfOk result (λ n. ReadsValue 0 self.old (whole_number n) self.new) }
        ensures shorter { OnOk result (length self.new < length self.old) }
    {
        let at = after_space(self.bytes, self.at);
        if !self.expected.may_begin() {
            return Err(ScanStop::Unusual);
        }
        let (n, at) = decimal_at(self.bytes, at).ok_or(ScanStop::Unusual)?;
        (self.expected, self.at) = after_value(self.bytes, at);
        Ok(n)
    }

    /// Reads the next parts of a list, up to the first that `R` does not read, and appends them to
    /// `list`. May stop with `NoMemory`.
    #[inline(never)]
    pub fn compact_parts<R: CompactPart>(
        &mut self,
        list: Vec<R::Part>,
    ) -> Result<Vec<R::Part>, ScanStop>
        ensures { IfOk result (λ all. (row : List R.Part) × (all.items ≡ list.items ++ row)
            × ReadsAll 1 self.old (map R.shown row) self.new) }
    {
        let mut all = list;
        let bytes = self.bytes;
        let mut at = self.at;
        let mut expected = self.expected;
        if !expected.may_begin() {
            return Ok(all);
        }
        'parts: while let Some((part, end)) = R::compact_at(bytes, at) {
            push(&mut all, part)?;
            if bytes[end] != b',' {
                (self.expected, self.at) = after_value(bytes, end);
                return Ok(all);
            }
            (expected, at) = (Expected::AfterComma, end + 1);
        }
        (self.expected, self.at) = (expected, at);
        Ok(all)
    }

    /// Reads a list of three numbers without white space, if a comma follows it.
    #[inline(always)]
    pub fn compact_triple(&mut self) -> Option<CompactTriple>
        ensures value { IfSome result (λ triple. ReadsValue 1 self.old
            (numbers (triple.first ∷ triple.second ∷ triple.third ∷ [])) self.new) }
        ensures shorter { IfSome result (λ _. length self.new < length self.old) }
        ensures same { IfNone result (self.new ≡ self.old) }
    {
        if !self.expected.may_begin() {
            return None;
        }
        let (triple, at) = compact_triple_at(self.bytes, self.at)?;
        (self.expected, self.at) = (Expected::AfterComma, at);
        Some(triple)
    }

    /// Reads a list of numbers below 10^19 that have only digits.
    pub fn numbers(&mut self, alloc: Global) -> Result<Items<u64>, ScanStop>
        ensures value { IfOk result (λ list. ReadsValue 1 self.old (numbers list) self.new) }
        ensures shorter { OnOk result (length self.new < length self.old) }
    {
        let mut list = Vec::new(alloc);
        self.numbers_after(&mut list)?;
        Ok(Items::from_vec(list))
    }

    /// Like [`Scan::numbers`], but appends the numbers to `list`.
    pub fn numbers_after(&mut self, list: &mut Vec<u64>) -> Result<(), ScanStop>
        ensures value { OnOk result ((row : List ℕ) × (list.new.items ≡ list.old.items ++ row)
            × ReadsValue 1 self.old (numbers row) self.new) }
        ensures shorter { OnOk result (length self.new < length self.old) }
    {
        self.opens(b'[')?;
        'items: while !self.closes(b']') {
            let next = self.number()?;
            push(list, next)?;
            self.further_numbers(list)?;
        }
        Ok(())
    }

    /// Reads the next numbers while a comma is right after each, and appends them to `list`.
    #[inline(never)]
    fn further_numbers(&mut self, list: &mut Vec<u64>) -> Result<(), ScanStop>
        ensures { OnOk result ((row : List ℕ) × (list.new.items ≡ list.old.items ++ row)
            × ReadsAll 0 self.old (map whole_number row) self.new) }
    {
        if !self.expected.is_after_comma() {
            return Ok(());
        }
        let bytes = self.bytes;
        let mut at = self.at;
        'numbers: while let Some((n, end)) = number_and_comma(bytes, at) {
            push(list, n)?;
            at = end;
        }
        self.at = at;
        Ok(())
    }

    /// Reads a list of lists of numbers up to 65,535.
    pub fn short_rows(&mut self, alloc: Global) -> Result<ShortRows, ScanStop>
        ensures value { IfOk result (λ list. ReadsValue 2 self.old (rows list) self.new) }
        ensures shorter { OnOk result (length self.new < length self.old) }
    {
        self.opens(b'[')?;
        let mut rows = Items::new(alloc);
        let mut list = Vec::new(alloc);
        'items: while !self.closes(b']') {
            list.clear();
            self.numbers_after(&mut list)?;
            let (row, is_same) = short_row(alloc, list.as_slice())?;
            if !is_same {
                return Err(ScanStop::Unusual);
            }
            rows.push(row)?;
        }
        Ok(rows)
    }

    /// Reads the next empty lists while a comma is right after each, if a comma was read last.
    /// Returns how many there were.
    #[inline(always)]
    pub fn empty_arrays(&mut self) -> usize
        ensures { ReadsAll 1 self.old (replicate result (numbers [])) self.new }
    {
        if !self.expected.is_after_comma() {
            return 0;
        }
        let bytes = self.bytes;
        let mut at = self.at;
        let mut count = 0usize;
        'lists: while has_room(bytes, at, 3)
            && (bytes[at] == b'[') & (bytes[at + 1] == b']') & (bytes[at + 2] == b',')
        {
            at += 3;
            count += 1;
        }
        self.at = at;
        count
    }

    /// Reads the word `null`, if it comes next.
    #[inline(always)]
    pub fn null(&mut self) -> bool
        ensures { MatchBool result (ReadsValue 0 self.old null self.new) (self.new ≡ self.old) }
    {
        let at = after_space(self.bytes, self.at);
        if !self.expected.may_begin()
            || !has_room(self.bytes, at, 5)
            || !is_key(&self.bytes[at..at + 4], "null")
            || !ends_word(self.bytes[at + 4])
        {
            return false;
        }
        (self.expected, self.at) = after_value(self.bytes, at + 4);
        true
    }

    /// Reads a text without escapes.
    #[inline(always)]
    pub fn text(&mut self) -> Result<&'a str, ScanStop>
        ensures value { IfOk result (λ text. ReadsValue 0 self.old (string text.now) self.new) }
        ensures shorter { OnOk result (length self.new < length self.old) }
    {
        let at = after_space(self.bytes, self.at);
        if !self.expected.may_begin() {
            return Err(ScanStop::Unusual);
        }
        let (text, at) = quoted_text(self.text, at)?;
        if !ends_text(self.bytes, after_space(self.bytes, at)) {
            return Err(ScanStop::Unusual);
        }
        (self.expected, self.at) = after_value(self.bytes, at);
        Ok(text)
    }

    /// Returns whether nothing follows.
    #[inline(always)]
    pub fn ends(&self) -> bool
        ensures { IsTrue result → self.now ≡ [] }
    {
        !self.expected.may_begin() && after_space(self.bytes, self.at) >= self.bytes.len()
    }
}
