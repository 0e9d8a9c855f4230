//! The entries of a set-up document: its values, of the right shape, before any limit is checked.
//! Reads them from a tree of values.
ghost use Rattle.std.specs.Prelude.{◌≡◌, ◌≤◌, All, IfOk};
ghost use Rattle.serde_json.specs.View.{view};
ghost use Rattle.clock_terms.specs.declared.setup.Product.{Product};
ghost use Rattle.clock_terms.specs.declared.setup.Bidder.{Bidder};
ghost use Rattle.clock_terms.specs.Limits.{IsWithin, IsOfFirstVersion, SetupFields, first_granule};
ghost use Rattle.clock_terms.specs.Limits.{latest_version};
ghost use Rattle.clock_json.specs.Tree as members;
ghost use Rattle.clock_setup.specs.SetupShape as shape;

use clock_device::{Items, NoMemory};
use clock_json::tree::{PlainReader, each_at, has_members, number_at, text_at};
use clock_terms::{FIRST_GRANULE, FIRST_LIMIT};
use serde_json::Value;
use std::alloc::Global;
use std::marker::Model;

/// A product as a document states it: it borrows the name, and its limits need not be checked. In
/// contracts, it is a product. Each field is that of a [`Product`](clock_terms::Product).
#[derive(Drop)]
pub struct ProductEntry<'v> {
    /// The name.
    pub name: &'v str,
    /// The bidding units of one block.
    pub units: u64,
    /// The number of blocks.
    pub supply: u64,
    /// The most blocks that one bidder may ask for.
    pub cap: u64,
    /// The price of a block in round 1, in whole dollars.
    pub opening: u64,
    /// The granule, in whole dollars.
    pub granule: u64,
}

impl<'v> Model for ProductEntry<'v> {
    ghost Value = { Product };

    ghost view = { λ e. record {
      name = e.name.now;
      units = e.units;
      supply = e.supply;
      cap = e.cap;
      opening = e.opening;
      granule = e.granule;
    } };
}

/// A product, and the version of documents whose keys it has.
#[derive(Drop)]
pub(crate) struct VersionedProduct<'v> {
    pub version: u64,
    pub entry: ProductEntry<'v>,
    ghost known: { IsWithin 1 latest_version version },
    ghost first_version: { version ≡ 1 → entry.granule ≡ first_granule },
}

/// Products that all have the keys of one version, which is 0 if there are no products.
#[derive(Drop)]
pub(crate) struct VersionedProducts<'v> {
    pub version: u64,
    pub entries: Items<ProductEntry<'v>>,
    ghost first_version: { version ≡ 1 → All (λ entry. entry.granule ≡ first_granule) entries },
}

/// A bidder as a document states it, before any limit is checked. In contracts, it is a bidder.
#[derive(Drop)]
pub(crate) struct BidderEntry<'v> {
    pub name: &'v str,
    pub token: &'v str,
    pub eligibility: u64,
}

impl<'v> Model for BidderEntry<'v> {
    ghost Value = { Bidder };

    ghost view = { λ e.
        record { name = e.name.now; token = e.token.now; eligibility = e.eligibility } };
}

/// A set-up document of the right shape, before any limit is checked. In contracts, it is the
/// fields of a set-up.
#[derive(Drop)]
pub(crate) struct SetupEntries<'v> {
    pub version: u64,
    pub limit: u64,
    pub requirement: u64,
    pub operator: &'v str,
    pub products: Items<ProductEntry<'v>>,
    pub bidders: Items<BidderEntry<'v>>,
}

impl<'v> Model for SetupEntries<'v> {
    ghost Value = { SetupFields };

    ghost view = { λ e. record {
      version = e.version;
      limit = e.limit;
      requirement = e.requirement;
      operator = e.operator.now;
      products = e.products;
      bidders = e.bidders;
    } };
}

/// The entries of a set-up document of version 1 or 2 that was read by bytes.
#[derive(Drop)]
pub(crate) struct ScannedSetup<'v> {
    pub entries: SetupEntries<'v>,
    ghost version: { IsWithin 1 latest_version entries.version },
    ghost first_version: { entries.version ≡ 1 → IsOfFirstVersion entries },
}

/// Returns the number under `key`, which version 2 added, or `in_first` in version 1.
fn added_number(value: &Value, version: u64, in_first: u64, key: &str) -> Option<u64>
    ensures { result ≡ shape.added_number version in_first key.now (view value.now) }
{
    if version == 1 {
        Some(in_first)
    } else {
        number_at(value, key)
    }
}

/// Whether an object has exactly the keys of its version: `in_first`, and from version 2 one more.
fn has_keys(value: &Value, version: u64, in_first: usize) -> bool
    requires { in_first ≤ 5 }
    ensures { result ≡ members.has_members (shape.key_count version in_first) (view value.now) }
{
    let count = if version == 1 { in_first } else { in_first + 1 };
    has_members(value, count)
}

/// Reads products with the keys of `version`.
#[derive(Drop)]
struct ProductReader {
    version: u64,
}

#[tactic(auto, unfolding(crate::specs::SetupShape::product_of))]
impl<'v> PlainReader<'v> for ProductReader {
    type Part = ProductEntry<'v>;

    ghost meaning = { λ reader. shape.product_of reader.version };

    fn plain_part(&self, value: &'v Value) -> Option<ProductEntry<'v>> {
        let product = ProductEntry {
            name: text_at(value, "name")?,
            units: number_at(value, "units")?,
            supply: number_at(value, "supply")?,
            cap: number_at(value, "cap")?,
            opening: number_at(value, "opening")?,
            granule: added_number(value, self.version, FIRST_GRANULE, "granule")?,
        };
        has_keys(value, self.version, 5).then_some(product)
    }
}

/// Reads bidders.
#[derive(Drop)]
struct BidderReader;

#[tactic(auto, unfolding(crate::specs::SetupShape::bidder_of))]
impl<'v> PlainReader<'v> for BidderReader {
    type Part = BidderEntry<'v>;

    ghost meaning = { λ _. shape.bidder_of };

    fn plain_part(&self, value: &'v Value) -> Option<BidderEntry<'v>> {
        let bidder = BidderEntry {
            name: text_at(value, "name")?,
            token: text_at(value, "token")?,
            eligibility: number_at(value, "eligibility")?,
        };
        has_members(value, 3).then_some(bidder)
    }
}

/// Returns the entries of a set-up document, or `None` if its shape is wrong. May return
/// `NoMemory`.
#[tactic(auto, unfolding(crate::specs::SetupShape::fields_from))]
pub(crate) fn entries_of(alloc: Global, value: &Value) -> Result<Option<SetupEntries<'_>>, NoMemory>
    ensures { IfOk result (λ entries. entries ≡ shape.fields_from (view value.now)) }
{
    let Some(version) = number_at(value, "version") else {
        return Ok(None);
    };
    let (Some(limit), Some(requirement), Some(operator)) = (
        added_number(value, version, FIRST_LIMIT, "limit"),
        number_at(value, "requirement"),
        text_at(value, "operator"),
    ) else {
        return Ok(None);
    };
    if !has_keys(value, version, 5) {
        return Ok(None);
    }
    let Some(products) = each_at(alloc, value, "products", &ProductReader { version })? else {
        return Ok(None);
    };
    let bidders = match each_at(alloc, value, "bidders", &BidderReader) {
        Ok(Some(bidders)) => bidders,
        Ok(None) => {
            drop(products);
            return Ok(None);
        }
        Err(refused) => {
            drop(products);
            return Err(refused);
        }
    };
    Ok(Some(SetupEntries {
        version,
        limit,
        requirement,
        operator,
        products,
        bidders,
    }))
}
