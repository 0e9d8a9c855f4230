ghost use Rattle.std.specs.Prelude.{◌≡◌, ◌≢◌, ◌<◌, Ok, Err, IfOk, IfErr, OnOk, length};
ghost use Rattle.clock_json.specs.Reading.{ReadsValue};
ghost use Rattle.serde_json.specs.View.{view};
ghost use Rattle.clock_bodies.specs.CloseBodies as bodies;
ghost use Rattle.clock_bodies.specs.QuickBodies.{tie_data};
ghost use Rattle.clock_bodies.specs.QuickClosings.{close_data, close_fields, scanned_data};

use crate::body::{Body, BodyFault, read_body};
use clock_device::{Items, NoMemory};
use clock_json::tree::{NumberReader, PlainReader, each_at, has_members, number_at};
use clock_json::{PartReader, Scan, ScanStop, ScannedMembers, is_key, scanned_parts};
use clock_order::Tie;
use clock_terms::Increments;
use serde_json::Value;
use std::alloc::Global;

/// The body of a closing: `{"increment":N,"round":N,"ties":[[BIDDER,PRODUCT,NUMBER],..]}`, or with
/// `"increments":[N,..]` instead of `"increment":N`. Reading it checks neither the numbers nor
/// which of the two the set-up requires.
#[derive(Drop)]
pub struct CloseBody {
    /// The round to close.
    pub round: u64,
    /// The increments, in percent.
    pub increments: Increments,
    /// The tie-breaking numbers, in the order given.
    pub ties: Items<Tie>,
}

/// Reads a tie-breaking number, from a JSON value or byte by byte.
#[derive(Drop)]
pub struct TieReader;

/// From a value: a list of a bidder, a product, and a number.
impl<'v> PlainReader<'v> for TieReader {
    type Part = Tie;

    ghost meaning = { λ _. bodies.tie_in };

    fn plain_part(&self, value: &'v Value) -> Option<Tie> {
        let items = value.as_array()?.as_slice();
        if items.len() != 3 {
            return None;
        }
        Some(Tie {
            bidder: items[0].as_u64()?,
            product: items[1].as_u64()?,
            number: items[2].as_u64()?,
        })
    }
}

/// Byte by byte: a list of three numbers, each written in digits only.
impl<'v> PartReader<'v> for TieReader {
    type Part = Tie;

    ghost levels = { 1 };

    ghost shown = { tie_data };

    #[inline(always)]
    fn part(_alloc: Global, scan: &mut Scan<'v>) -> Result<Tie, ScanStop> {
        if let Some(tie) = scan.compact_triple() {
            return Ok(Tie {
                bidder: tie.first,
                product: tie.second,
                number: tie.third,
            });
        }
        spaced_tie(scan)
    }
}

/// Reads the next tie-breaking number: three numbers, which may have white space around them.
#[inline(never)]
fn spaced_tie(scan: &mut Scan<'_>) -> Result<Tie, ScanStop>
    ensures value { IfOk result (λ tie. ReadsValue 1 scan.old (tie_data tie) scan.new) }
    ensures shorter { OnOk result (length scan.new < length scan.old) }
{
    scan.opens(b'[')?;
    let bidder = scan.number()?;
    let product = scan.number()?;
    let number = scan.number()?;
    if !scan.closes(b']') {
        return Err(ScanStop::Unusual);
    }
    Ok(Tie {
        bidder,
        product,
        number,
    })
}

/// Returns the increments of a closing: the number under `increment`, or the list under
/// `increments`. `None` if there is neither. May return `NoMemory`.
pub fn increments_of(alloc: Global, value: &Value) -> Result<Option<Increments>, NoMemory>
    ensures { IfOk result (λ increments. increments ≡ bodies.increments_of (view value.now)) }
{
    if let Some(increment) = number_at(value, "increment") {
        return Ok(Some(Increments::Single(increment)));
    }
    let listed = each_at(alloc, value, "increments", &NumberReader)?;
    Ok(listed.map(Increments::PerProduct))
}

#[tactic(auto, unfolding(crate::specs::CloseBodies::close_of))]
impl Body for CloseBody {
    ghost meaning = { bodies.close_of };

    fn of_value(alloc: Global, value: &Value) -> Result<Option<CloseBody>, NoMemory> {
        let (Some(round), Some(increments), Some(ties)) = (
            number_at(value, "round"),
            increments_of(alloc, value)?,
            each_at(alloc, value, "ties", &TieReader)?,
        ) else {
            return Ok(None);
        };
        Ok(has_members(value, 3).then_some(CloseBody {
            round,
            increments,
            ties,
        }))
    }
}

/// Reads the body of a closing. Numbers are whole and below 2^64. Errors, in this order: `NotJson`,
/// `Shape`. May return `NoMemory`, which then replaces any other result.
#[tactic(auto, unfolding(crate::specs::CloseBodies::close_body))]
pub fn read_close(alloc: Global, bytes: &[u8]) -> Result<CloseBody, BodyFault>
    ensures ok { IfOk result (λ body. bodies.close_body bytes.now ≡ Ok body) }
    ensures err { IfErr result (λ fault. fault ≢ BodyFault.NoMemory
        → bodies.close_body bytes.now ≡ Err fault) }
{
    read_body::<CloseBody>(alloc, bytes)
}

/// Returns whether increments have the form of the set-up's version: one for all products in
/// version 1, otherwise one for each.
pub fn is_of_version(version: u64, increments: &Increments) -> bool
    ensures { result ≡ bodies.is_of_version version increments.now }
{
    (version == 1) == matches!(increments, Increments::Single(_))
}

/// The members of a closing that were found so far.
#[derive(Default, Drop)]
pub struct FoundClose {
    increment: Option<u64>,
    increments: Option<Items<u64>>,
    round: Option<u64>,
    ties: Option<Items<Tie>>,
}

/// A closing that was read, with or without its round.
#[derive(Drop)]
pub struct ScannedClose {
    /// The round to close, if the closing names it.
    pub round: Option<u64>,
    /// The increments, in percent.
    pub increments: Increments,
    /// The tie-breaking numbers, in the order given.
    pub ties: Items<Tie>,
}

impl<'v> ScannedMembers<'v> for FoundClose {
    type Whole = ScannedClose;

    ghost levels = { 2 };

    ghost fields = { close_fields };

    ghost shown = { scanned_data };

    fn nothing() -> FoundClose {
        FoundClose::default()
    }

    fn read(&mut self, alloc: Global, key: &[u8], scan: &mut Scan<'v>) -> Result<(), ScanStop> {
        if is_key(key, "ties") {
            // reserves no memory: each closing of a long document would reserve it
            self.ties = Some(scanned_parts::<TieReader>(alloc, scan, 0)?);
        } else if is_key(key, "increments") {
            self.increments = Some(scan.numbers(alloc)?);
        } else if is_key(key, "increment") {
            self.increment = Some(scan.number()?);
        } else if is_key(key, "round") {
            self.round = Some(scan.number()?);
        } else {
            return Err(ScanStop::Unusual);
        }
        Ok(())
    }

    fn whole(self) -> Option<ScannedClose> {
        let increments = match (self.increment, self.increments) {
            (Some(increment), None) => Increments::Single(increment),
            (None, Some(increments)) => Increments::PerProduct(increments),
            _ => return None,
        };
        Some(ScannedClose {
            round: self.round,
            increments,
            ties: self.ties?,
        })
    }
}

/// As the body of a request, a closing must name its round.
impl<'v> PartReader<'v> for CloseBody {
    type Part = CloseBody;

    ghost levels = { 3 };

    ghost shown = { close_data };

    fn part(alloc: Global, scan: &mut Scan<'v>) -> Result<CloseBody, ScanStop> {
        let close = FoundClose::part(alloc, scan)?;
        Ok(CloseBody {
            round: close.round.ok_or(ScanStop::Unusual)?,
            increments: close.increments,
            ties: close.ties,
        })
    }
}
