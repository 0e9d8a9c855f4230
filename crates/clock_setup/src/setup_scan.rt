//! Reads a set-up by bytes, without a tree of values, if no text has an escape and each number has
//! only digits.
ghost use Rattle.std.specs.Prelude.{◌≡◌, ◌<◌, length, Ok, IfSome, IfOk, OnOk};
ghost use Rattle.clock_json.specs.Reading.{ReadsValue, whole_number};
ghost use Rattle.clock_terms.specs.Limits.{IsWithin, first_limit, latest_version};
ghost use Rattle.clock_setup.specs.SetupData.{added, product_data, products_data, bidder_data};
ghost use Rattle.clock_setup.specs.SetupData.{setup_data};
ghost use Rattle.clock_setup.specs.SetupDocument.{setup_of};
ghost use Rattle.clock_setup.specs.inside.FoundEntries.{NotesField, found_product, found_bidder};
ghost use Rattle.clock_setup.specs.inside.FoundSetup.{found_setup};

use crate::document::within_limits;
use crate::fault::SetupFault;
use crate::setup_tree::{
    BidderEntry, ProductEntry, ScannedSetup, SetupEntries, VersionedProduct, VersionedProducts,
};
use clock_device::Items;
use clock_json::{PartReader, Scan, ScanStop, ScannedMembers, is_key, scanned_parts};
use clock_terms::{FIRST_GRANULE, FIRST_LIMIT, Setup};
use std::alloc::Global;

/// The values found so far of a product.
#[derive(Clone, Copy, Default)]
struct FoundProduct<'v> {
    cap: Option<u64>,
    granule: Option<u64>,
    name: Option<&'v str>,
    opening: Option<u64>,
    supply: Option<u64>,
    units: Option<u64>,
}

impl<'v> FoundProduct<'v> {
    /// Notes the number that was read under `key`, if a product has a number there.
    fn note(&mut self, key: &[u8], number: u64) -> Result<(), ScanStop>
        ensures { OnOk result (NotesField key.now (whole_number number)
            (found_product self.old) (found_product self.new)) }
    {
        match key {
            _ if is_key(key, "cap") => self.cap = Some(number),
            _ if is_key(key, "opening") => self.opening = Some(number),
            _ if is_key(key, "supply") => self.supply = Some(number),
            _ if is_key(key, "units") => self.units = Some(number),
            _ if is_key(key, "granule") => self.granule = Some(number),
            _ => return Err(ScanStop::Unusual),
        }
        Ok(())
    }
}

impl<'v> ScannedMembers<'v> for FoundProduct<'v> {
    type Whole = VersionedProduct<'v>;

    ghost levels = { 0 };

    ghost fields = { found_product };

    ghost shown = { λ product. product_data product.version product.entry };

    fn nothing() -> FoundProduct<'v> {
        FoundProduct::default()
    }

    fn read(&mut self, _alloc: Global, key: &[u8], scan: &mut Scan<'v>) -> Result<(), ScanStop> {
        if is_key(key, "name") {
            self.name = Some(scan.text()?);
            return Ok(());
        }
        let number = scan.number()?;
        self.note(key, number)
    }

    fn whole(self) -> Option<VersionedProduct<'v>> {
        let (version, granule) = match self.granule {
            None => (1, FIRST_GRANULE),
            Some(granule) => (2, granule),
        };
        let entry = ProductEntry {
            name: self.name?,
            units: self.units?,
            supply: self.supply?,
            cap: self.cap?,
            opening: self.opening?,
            granule,
        };
        Some(VersionedProduct { version, entry })
    }
}

/// Reads a list of products that all have the keys of one version.
fn products<'v>(alloc: Global, scan: &mut Scan<'v>) -> Result<VersionedProducts<'v>, ScanStop>
    ensures value { IfOk result
        (λ list. ReadsValue 2 scan.old (products_data list.version list.entries) scan.new) }
    ensures shorter { OnOk result (length scan.new < length scan.old) }
{
    scan.opens(b'[')?;
    let mut version = 0;
    let mut entries = Items::new(alloc);
    'items: while !scan.closes(b']') {
        let next = FoundProduct::part(alloc, scan)?;
        if version != 0 && version != next.version {
            drop(entries);
            return Err(ScanStop::Unusual);
        }
        version = next.version;
        entries.push(next.entry)?;
    }
    Ok(VersionedProducts { version, entries })
}

/// The values found so far of a bidder.
#[derive(Clone, Copy, Default)]
struct FoundBidder<'v> {
    eligibility: Option<u64>,
    name: Option<&'v str>,
    token: Option<&'v str>,
}

impl<'v> ScannedMembers<'v> for FoundBidder<'v> {
    type Whole = BidderEntry<'v>;

    ghost levels = { 0 };

    ghost fields = { found_bidder };

    ghost shown = { bidder_data };

    fn nothing() -> FoundBidder<'v> {
        FoundBidder::default()
    }

    fn read(&mut self, _alloc: Global, key: &[u8], scan: &mut Scan<'v>) -> Result<(), ScanStop> {
        match key {
            _ if is_key(key, "name") => self.name = Some(scan.text()?),
            _ if is_key(key, "token") => self.token = Some(scan.text()?),
            _ if is_key(key, "eligibility") => self.eligibility = Some(scan.number()?),
            _ => return Err(ScanStop::Unusual),
        }
        Ok(())
    }

    fn whole(self) -> Option<BidderEntry<'v>> {
        Some(BidderEntry {
            name: self.name?,
            token: self.token?,
            eligibility: self.eligibility?,
        })
    }
}

/// Returns the activity limit of a set-up of `version`, under whose key `found` was found. `None`
/// if the version is unknown, or does not go with what was found.
fn limit_in(version: u64, found: Option<u64>) -> Option<u64>
    ensures known { IfSome result (λ _. IsWithin 1 latest_version version) }
    ensures found { IfSome result (λ limit. added version limit ≡ found) }
    ensures first { IfSome result (λ limit. version ≡ 1 → limit ≡ first_limit) }
{
    match (version, found) {
        (1, None) => Some(FIRST_LIMIT),
        (2, Some(limit)) => Some(limit),
        _ => None,
    }
}

/// The values found so far of a set-up.
#[derive(Default, Drop)]
pub(crate) struct FoundSetup<'v> {
    bidders: Option<Items<BidderEntry<'v>>>,
    limit: Option<u64>,
    operator: Option<&'v str>,
    products: Option<VersionedProducts<'v>>,
    requirement: Option<u64>,
    version: Option<u64>,
}

impl<'v> FoundSetup<'v> {
    /// Notes the number that was read under `key`, if a set-up has a number there.
    fn note(&mut self, key: &[u8], number: u64) -> Result<(), ScanStop>
        ensures { OnOk result (NotesField key.now (whole_number number)
            (found_setup self.old) (found_setup self.new)) }
    {
        match key {
            _ if is_key(key, "version") => self.version = Some(number),
            _ if is_key(key, "requirement") => self.requirement = Some(number),
            _ if is_key(key, "limit") => self.limit = Some(number),
            _ => return Err(ScanStop::Unusual),
        }
        Ok(())
    }
}

impl<'v> ScannedMembers<'v> for FoundSetup<'v> {
    type Whole = ScannedSetup<'v>;

    ghost levels = { 2 };

    ghost fields = { found_setup };

    ghost shown = { λ setup. setup_data setup.entries };

    fn nothing() -> FoundSetup<'v> {
        FoundSetup::default()
    }

    fn read(&mut self, alloc: Global, key: &[u8], scan: &mut Scan<'v>) -> Result<(), ScanStop> {
        if is_key(key, "products") {
            self.products = Some(products(alloc, scan)?);
            return Ok(());
        }
        if is_key(key, "bidders") {
            self.bidders = Some(scanned_parts::<FoundBidder>(alloc, scan, 0)?);
            return Ok(());
        }
        if is_key(key, "operator") {
            self.operator = Some(scan.text()?);
            return Ok(());
        }
        let number = scan.number()?;
        self.note(key, number)
    }

    fn whole(self) -> Option<ScannedSetup<'v>> {
        let (Some(version), Some(requirement), Some(operator)) = (
            self.version,
            self.requirement,
            self.operator,
        ) else {
            drop(self);
            return None;
        };
        let Some(limit) = limit_in(version, self.limit) else {
            drop(self);
            return None;
        };
        let (Some(products), Some(bidders)) = (self.products, self.bidders) else {
            return None;
        };
        if products.version != version {
            drop(products);
            drop(bidders);
            return None;
        }
        let entries = SetupEntries {
            version,
            limit,
            requirement,
            operator,
            products: products.entries,
            bidders,
        };
        Some(ScannedSetup { entries })
    }
}

/// A set-up inside another document, read by bytes and accepted.
#[derive(Drop)]
pub struct NestedSetup {
    /// The set-up, within its limits.
    pub setup: Setup,
    ghost accepted: { setup_of (setup_data setup) ≡ Ok setup },
}

/// Reads a set-up that is within its limits, with no escape in a text and only digits in each
/// number. Declines any other with `Unusual`; then the reader by tree decides what it means.
impl<'v> PartReader<'v> for NestedSetup {
    type Part = NestedSetup;

    ghost levels = { 3 };

    ghost shown = { λ nested. setup_data nested.setup };

    fn part(alloc: Global, scan: &mut Scan<'v>) -> Result<NestedSetup, ScanStop> {
        let scanned = FoundSetup::part(alloc, scan)?;
        let judged = within_limits(alloc, &scanned.entries);
        drop(scanned);
        match judged {
            Ok(setup) => Ok(NestedSetup { setup }),
            Err(SetupFault::NoMemory) => Err(ScanStop::NoMemory),
            Err(_) => Err(ScanStop::Unusual),
        }
    }
}
