//! Reads lists of parts, a part that is a whole text, and objects of known keys in any order.
ghost use Rattle.std.specs.Prelude.{◌≡◌, ◌<◌, ◌≤◌, ℕ, suc, length, map, Some, IfSome, OnSome, IfOk};
ghost use Rattle.std.specs.Prelude.{OnOk};
ghost use Rattle.std.specs.Str.{IsUtf8};
ghost use Rattle.serde_json.specs.{Data.{Data, array, no_members, object}, Read.{read}};
ghost use Rattle.clock_json.specs.Reading.{items_in, ReadsValue, Fields, found_members};
ghost use Rattle.clock_json.specs.Members.{ReadsField};

use crate::room::with_room;
use crate::scan::{Scan, ScanStop};
use crate::words::text_of;
use clock_device::{Items, NoMemory};
use std::alloc::Global;

/// Reads a part of a text, if it has the expected shape.
pub trait PartReader<'v> {
    /// The type of a part.
    type Part: Drop;

    /// How deep the part nests.
    ghost levels: { ℕ };

    /// The JSON value of a part.
    ghost shown: { Self.Part → Data };

    /// Reads the next part.
    fn part(alloc: Global, scan: &mut Scan<'v>) -> Result<Self::Part, ScanStop>
        ensures value { IfOk result (λ part. ReadsValue levels scan.old (shown part) scan.new) }
        ensures shorter { OnOk result (length scan.new < length scan.old) };
}

/// Reads the next list of parts. Reserves memory for `room` of them at once.
pub fn scanned_parts<'v, R: PartReader<'v>>(
    alloc: Global,
    scan: &mut Scan<'v>,
    room: usize,
) -> Result<Items<R::Part>, ScanStop>
    ensures value { IfOk result (λ parts.
        ReadsValue (suc R.levels) scan.old (array (items_in (map R.shown parts))) scan.new) }
    ensures shorter { OnOk result (length scan.new < length scan.old) }
{
    scan.opens(b'[')?;
    let mut parts = Items::from_vec(with_room(alloc, room)?);
    'items: while !scan.closes(b']') {
        let next = R::part(alloc, scan)?;
        parts.push(next)?;
    }
    Ok(parts)
}

/// Reads a whole text as a part. Returns `None` if it does not have the expected shape.
pub fn scanned_text<'v, R: PartReader<'v>>(
    alloc: Global,
    bytes: &'v [u8],
) -> Result<Option<R::Part>, NoMemory>
    requires { R.levels ≤ 127 }
    ensures text { IfOk result (λ part. OnSome part (IsUtf8 bytes.now)) }
    ensures value { IfOk result
        (λ part. IfSome part (λ part. read bytes.now ≡ Some (R.shown part))) }
{
    let Some(text) = text_of(bytes) else {
        return Ok(None);
    };
    let mut scan = Scan::new(text);
    match R::part(alloc, &mut scan) {
        Ok(part) if scan.ends() => Ok(Some(part)),
        Err(ScanStop::NoMemory) => Err(NoMemory),
        _ => Ok(None),
    }
}

/// The members of an object that were read so far. When all were read, the object is a part.
pub trait ScannedMembers<'v>: Sized + Drop {
    /// The type of a whole object.
    type Whole: Drop;

    /// How deep the values of the members nest.
    ghost levels: { ℕ };

    /// The keys, each with the JSON value that was read.
    ghost fields: { Self → Fields };

    /// The JSON value of a whole object.
    ghost shown: { Self.Whole → Data };

    /// Returns an object of which nothing was read.
    fn nothing() -> Self
        ensures { found_members (fields result) ≡ no_members };

    /// Reads the next value, which is that of `key`, if the object has this key.
    fn read(&mut self, alloc: Global, key: &[u8], scan: &mut Scan<'v>) -> Result<(), ScanStop>
        ensures value { OnOk result
            (ReadsField levels key.now scan.old (fields self.old) scan.new (fields self.new)) }
        ensures shorter { OnOk result (length scan.new < length scan.old) };

    /// Returns the object, if all of it was read.
    fn whole(self) -> Option<Self::Whole>
        ensures { IfSome result (λ whole. object (found_members (fields self)) ≡ shown whole) };
}

impl<'v, M: ScannedMembers<'v>> PartReader<'v> for M {
    type Part = M::Whole;

    ghost levels = { suc M.levels };

    ghost shown = { M.shown };

    fn part(alloc: Global, scan: &mut Scan<'v>) -> Result<M::Whole, ScanStop> {
        scan.opens(b'{')?;
        let mut found = M::nothing();
        'members: while !scan.closes(b'}') {
            let key = scan.key()?;
            found.read(alloc, key, scan)?;
        }
        found.whole().ok_or(ScanStop::Unusual)
    }
}
