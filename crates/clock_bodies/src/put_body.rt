ghost use Rattle.std.specs.Prelude.{◌≡◌, ◌≢◌, ◌<◌, Ok, Err, IfOk, IfErr, OnOk, length};
ghost use Rattle.clock_json.specs.Reading.{ReadsValue};
ghost use Rattle.clock_bodies.specs.Bodies as bodies;
ghost use Rattle.clock_bodies.specs.QuickBodies.{bid_fields, bid_data};
ghost use Rattle.clock_bodies.specs.inside.QuickBodies.{bids_data, put_fields, put_data};

use crate::body::{Body, BodyFault, read_body};
use clock_bids::Bid;
use clock_device::{Items, NoMemory};
use clock_json::tree::{PlainReader, each_at, has_members, number_at};
use clock_json::{PartReader, Scan, ScanStop, ScannedMembers, is_key, push, with_room};
use serde_json::Value;
use std::alloc::Global;

/// The body of a sheet: `{"bids":[{"price":N,"product":N,"quantity":N},..],"round":N}`.
#[derive(Drop)]
pub struct PutBody {
    /// The round of the sheet.
    pub round: u64,
    /// The bids, in the order given.
    pub bids: Items<Bid>,
}

/// Reads a bid: from a JSON value, byte by byte, or several bytes at a time.
#[derive(Drop)]
pub struct BidReader;

/// From a value: an object of price, product, and quantity, whole numbers below 2^64.
#[tactic(auto, unfolding(crate::specs::Bodies::bid_of))]
impl<'v> PlainReader<'v> for BidReader {
    type Part = Bid;

    ghost meaning = { λ _. bodies.bid_of };

    fn plain_part(&self, value: &'v Value) -> Option<Bid> {
        let bid = Bid {
            price: number_at(value, "price")?,
            product: number_at(value, "product")?,
            quantity: number_at(value, "quantity")?,
        };
        has_members(value, 3).then_some(bid)
    }
}

/// Byte by byte: its members, if no key has an escape and each number is written in digits only.
impl<'v> PartReader<'v> for BidReader {
    type Part = Bid;

    ghost levels = { 1 };

    ghost shown = { bid_data };

    #[inline(never)]
    fn part(alloc: Global, scan: &mut Scan<'v>) -> Result<Bid, ScanStop> {
        FoundBid::part(alloc, scan)
    }
}

#[tactic(auto, unfolding(crate::specs::Bodies::put_of))]
impl Body for PutBody {
    ghost meaning = { bodies.put_of };

    fn of_value(alloc: Global, value: &Value) -> Result<Option<PutBody>, NoMemory> {
        let (Some(round), Some(bids)) = (
            number_at(value, "round"),
            each_at(alloc, value, "bids", &BidReader)?,
        ) else {
            return Ok(None);
        };
        Ok(has_members(value, 2).then_some(PutBody { round, bids }))
    }
}

/// Reads the body of a sheet. Numbers are whole and below 2^64. Errors, in this order: `NotJson`,
/// `Shape`. May return `NoMemory`, which then replaces any other result.
#[tactic(auto, unfolding(crate::specs::Bodies::put_body))]
pub fn read_put(alloc: Global, bytes: &[u8]) -> Result<PutBody, BodyFault>
    ensures ok { IfOk result (λ body. bodies.put_body bytes.now ≡ Ok body) }
    ensures err { IfErr result (λ fault. fault ≢ BodyFault.NoMemory
        → bodies.put_body bytes.now ≡ Err fault) }
{
    read_body::<FoundPut>(alloc, bytes)
}

/// The least number of bytes of a bid with its comma.
const LEAST_BID: usize = 37;

/// The most bids for which memory is reserved before they are read: one more than a sheet may have.
/// A sheet in force retains its list, so white space in its text must not enlarge that.
const MOST_AHEAD: usize = 8_193;

/// The members of a bid that were found so far.
#[derive(Clone, Copy, Default)]
struct FoundBid {
    price: Option<u64>,
    product: Option<u64>,
    quantity: Option<u64>,
}

impl<'v> ScannedMembers<'v> for FoundBid {
    type Whole = Bid;

    ghost levels = { 0 };

    ghost fields = { bid_fields };

    ghost shown = { bid_data };

    #[inline(always)]
    fn nothing() -> FoundBid {
        FoundBid::default()
    }

    #[inline(always)]
    fn read(&mut self, _alloc: Global, key: &[u8], scan: &mut Scan<'v>) -> Result<(), ScanStop> {
        let number = Some(scan.number()?);
        if is_key(key, "price") {
            self.price = number;
        } else if is_key(key, "product") {
            self.product = number;
        } else if is_key(key, "quantity") {
            self.quantity = number;
        } else {
            return Err(ScanStop::Unusual);
        }
        Ok(())
    }

    #[inline(always)]
    fn whole(self) -> Option<Bid> {
        Some(Bid {
            product: self.product?,
            quantity: self.quantity?,
            price: self.price?,
        })
    }
}

/// Reads the next list of bids. Reserves memory once, for the most bids that the rest of the text
/// can have.
#[inline(never)]
fn bids(alloc: Global, scan: &mut Scan<'_>) -> Result<Items<Bid>, ScanStop>
    ensures value { IfOk result (λ bids. ReadsValue 2 scan.old (bids_data bids) scan.new) }
    ensures shorter { OnOk result (length scan.new < length scan.old) }
{
    scan.opens(b'[')?;
    let empty = with_room(alloc, MOST_AHEAD.min(scan.bytes_left() / LEAST_BID))?;
    let mut list = scan.compact_parts::<BidReader>(empty)?;
    'items: while !scan.closes(b']') {
        let next = BidReader::part(alloc, scan)?;
        push(&mut list, next)?;
        list = scan.compact_parts::<BidReader>(list)?;
    }
    Ok(Items::from_vec(list))
}

/// The members of a sheet that were found so far.
#[derive(Default, Drop)]
struct FoundPut {
    round: Option<u64>,
    bids: Option<Items<Bid>>,
}

impl<'v> ScannedMembers<'v> for FoundPut {
    type Whole = PutBody;

    ghost levels = { 2 };

    ghost fields = { put_fields };

    ghost shown = { put_data };

    fn nothing() -> FoundPut {
        FoundPut::default()
    }

    fn read(&mut self, alloc: Global, key: &[u8], scan: &mut Scan<'v>) -> Result<(), ScanStop> {
        if is_key(key, "round") {
            self.round = Some(scan.number()?);
        } else if is_key(key, "bids") {
            self.bids = Some(bids(alloc, scan)?);
        } else {
            return Err(ScanStop::Unusual);
        }
        Ok(())
    }

    fn whole(self) -> Option<PutBody> {
        Some(PutBody {
            round: self.round?,
            bids: self.bids?,
        })
    }
}
