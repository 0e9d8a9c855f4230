//! Reads a JSON value from bytes, and numbers, texts, and lists from its members. `Value::get`
//! returns a member itself.

ghost use Rattle.std.specs.Prelude.{◌≡◌, Option, option_and_then, option_map, IfOk};
ghost use Rattle.serde_json.specs.{View.{view, items_view}, Data.{Data}};
ghost use Rattle.clock_json.specs.Tree as members;

use crate::words::is_blank;
use clock_device::{Items, NoMemory};
use serde_json::Value;
use std::alloc::Global;

/// Returns the member `key`, if it is a whole number from 0 to 2^64 - 1.
pub fn number_at(value: &Value, key: &str) -> Option<u64>
    ensures { result ≡ members.number_at key.now (view value.now) }
{
    value.get(key).and_then(Value::as_u64)
}

/// Returns the member `key`, if it is a text.
pub fn text_at<'v>(value: &'v Value, key: &str) -> Option<&'v str>
    ensures { option_map (λ text. text.now) result ≡ members.text_at key.now (view value.now) }
{
    value.get(key).and_then(Value::as_str)
}

/// Returns whether a value is an object of `count` members.
pub fn has_members(value: &Value, count: usize) -> bool
    ensures { result ≡ members.has_members count (view value.now) }
{
    match value.as_object() {
        Some(members) => members.len() == count,
        None => false,
    }
}

/// Reads a value as a part of a document.
pub trait ValueReader<'v> {
    /// The type of a part.
    type Part: Drop;

    /// The part that a value means.
    ghost meaning: { Self → Data → Option Self.Part };

    /// Reads the value. Returns `None` if it does not have the expected shape.
    fn part_of(&self, alloc: Global, value: &'v Value) -> Result<Option<Self::Part>, NoMemory>
        ensures { IfOk result (λ part. part ≡ meaning self.now (view value.now)) };
}

/// Like [`ValueReader`], for parts that allocate nothing.
pub trait PlainReader<'v> {
    /// The type of a part.
    type Part: Drop;

    /// The part that a value means.
    ghost meaning: { Self → Data → Option Self.Part };

    /// Reads the value. Returns `None` if it does not have the expected shape.
    fn plain_part(&self, value: &'v Value) -> Option<Self::Part>
        ensures { result ≡ meaning self.now (view value.now) };
}

impl<'v, R: PlainReader<'v>> ValueReader<'v> for R {
    type Part = R::Part;

    ghost meaning = { R.meaning };

    fn part_of(&self, _alloc: Global, value: &'v Value) -> Result<Option<R::Part>, NoMemory> {
        Ok(self.plain_part(value))
    }
}

/// Reads each item, in order. Returns `None` if one does not have the expected shape.
pub fn each_of<'v, R: ValueReader<'v>>(
    alloc: Global,
    reader: &R,
    items: &'v [Value],
) -> Result<Option<Items<R::Part>>, NoMemory>
    ensures { IfOk result
        (λ parts. parts ≡ members.each (R.meaning reader.now) (items_view items.now)) }
{
    let mut parts = Items::new(alloc);
    for item in items {
        match reader.part_of(alloc, item)? {
            Some(part) => parts.push(part)?,
            None => return Ok(None),
        }
    }
    Ok(Some(parts))
}

/// Reads each item of the list `key`, in order. Returns `None` if there is no such list, or if an
/// item does not have the expected shape.
pub fn each_at<'v, R: ValueReader<'v>>(
    alloc: Global,
    value: &'v Value,
    key: &str,
    reader: &R,
) -> Result<Option<Items<R::Part>>, NoMemory>
    ensures { IfOk result (λ parts. parts ≡ option_and_then (members.each (R.meaning reader.now))
        (members.items_at key.now (view value.now))) }
{
    match value.get(key).and_then(Value::as_array) {
        Some(items) => each_of(alloc, reader, items.as_slice()),
        None => Ok(None),
    }
}

/// Reads a whole number from 0 to 2^64 - 1.
#[derive(Drop)]
pub struct NumberReader;

impl<'v> PlainReader<'v> for NumberReader {
    type Part = u64;

    ghost meaning = { λ _. members.number_from };

    fn plain_part(&self, value: &'v Value) -> Option<u64> {
        value.as_u64()
    }
}

/// Reads a list of whole numbers.
#[derive(Drop)]
pub struct RowReader;

#[tactic(auto, unfolding(crate::specs::Tree::numbers_from))]
impl<'v> ValueReader<'v> for RowReader {
    type Part = Items<u64>;

    ghost meaning = { λ _. members.numbers_from };

    fn part_of(&self, alloc: Global, value: &'v Value) -> Result<Option<Items<u64>>, NoMemory> {
        match value.as_array() {
            Some(items) => each_of(alloc, &NumberReader, items.as_slice()),
            None => Ok(None),
        }
    }
}

/// Reads bytes as a JSON value (RFC 8259). Returns `None` if they are none.
#[tactic(auto, unfolding(crate::specs::Tree::json))]
pub fn read_value(alloc: Global, bytes: &[u8]) -> Result<Option<Value>, NoMemory>
    ensures { IfOk result (λ value. option_map view value ≡ members.json bytes.now) }
{
    // skips the reader for white space: it would compute the index of an error that nobody sees
    if is_blank(bytes) {
        return Ok(None);
    }
    match Value::from_slice(alloc, bytes) {
        Ok(value) => Ok(Some(value)),
        Err(error) if error.is_memory() => Err(NoMemory),
        Err(_) => Ok(None),
    }
}
