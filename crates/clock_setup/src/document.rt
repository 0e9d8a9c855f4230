ghost use Rattle.std.specs.Prelude.{◌≡◌, codes, None, Some, Ok, All, IfOk, IfErr, IfSome, OnOk};
ghost use Rattle.serde_json.specs.View.{view};
ghost use Rattle.clock_terms.specs.Faults.{IsFirstFault, IsRefusal, first_fault};
ghost use Rattle.clock_terms.specs.Limits.{SetupFields, IsOfFirstVersion, IsProduct, IsSetup};
ghost use Rattle.clock_terms.specs.Limits.{IsWithin};
ghost use Rattle.clock_terms.specs.Limits.{latest_version};
ghost use Rattle.clock_json.specs.Tree.{number_at};
ghost use Rattle.clock_setup.specs.SetupShape.{fields_from};
ghost use Rattle.clock_setup.specs.inside.SetupDocument.{distinct_checks};
ghost use Rattle.clock_setup.specs.SetupDocument as document;

use crate::fault::{Place, SetupFault};
use crate::setup_checks::{
    check_all, check_each, copied_all, has_distinct_names, has_distinct_tokens, is_token,
};
use crate::setup_scan::FoundSetup;
use crate::setup_tree::{ProductEntry, SetupEntries, entries_of};
use clock_device::{Items, NoMemory, Text};
use clock_json::scanned_text;
use clock_json::tree::{number_at, read_value};
use clock_terms::{
    LATEST_VERSION, LEAST_LIMIT, LEAST_REQUIREMENT, MOST_BIDDERS, MOST_LIMIT, MOST_PRODUCTS,
    MOST_REQUIREMENT, Setup, is_within,
};
use serde_json::Value;
use std::alloc::Global;

/// Checks that names and then tokens are distinct. May return `NoMemory`, which then replaces any
/// other result.
#[tactic(auto, unfolding(crate::specs::inside::SetupDocument::distinct_checks))]
fn check_distinct(alloc: Global, entries: &SetupEntries) -> Result<(), SetupFault>
    ensures ok { OnOk result (first_fault (distinct_checks entries.now) ≡ None) }
    ensures err { IfErr result
        (IsFirstFault SetupFault.NoMemory (first_fault (distinct_checks entries.now))) }
{
    let products = entries.products.as_slice();
    let bidders = entries.bidders.as_slice();
    if !has_distinct_names(alloc, products)? || !has_distinct_names(alloc, bidders)? {
        return Err(SetupFault::DuplicateName);
    }
    if !has_distinct_tokens(alloc, entries.operator, bidders)? {
        return Err(SetupFault::DuplicateToken);
    }
    Ok(())
}

/// Returns the first fault of the limits of a document's entries. May return `NoMemory`, which then
/// replaces any other result.
fn check_limits(alloc: Global, entries: &SetupEntries) -> Result<(), SetupFault>
    requires version { IsWithin 1 latest_version entries.now.version }
    requires first_version { entries.now.version ≡ 1 → IsOfFirstVersion entries.now }
    ensures within { OnOk result (IsSetup entries.now) }
    ensures ok { OnOk result (first_fault (document.setup_checks entries.now) ≡ None) }
    ensures err { IfErr result
        (IsFirstFault SetupFault.NoMemory (first_fault (document.setup_checks entries.now))) }
{
    let requirement = is_within(LEAST_REQUIREMENT, MOST_REQUIREMENT, entries.requirement);
    let limit = is_within(LEAST_LIMIT, MOST_LIMIT, entries.limit);
    check_each(&[
        (Place::Requirement, requirement),
        (Place::Limit, limit),
        (Place::Operator, is_token(entries.operator)),
    ])?;
    check_all(Place::Products, MOST_PRODUCTS, &entries.products)?;
    check_all(Place::Bidders, MOST_BIDDERS, &entries.bidders)?;
    check_distinct(alloc, entries)?;
    Ok(())
}

/// Returns the set-up of entries that are within its limits. May return `NoMemory`.
fn copied(alloc: Global, entries: &SetupEntries) -> Result<Setup, NoMemory>
    requires { IsSetup entries.now }
    ensures { IfOk result (λ setup. setup ≡ entries.now) }
{
    let products = copied_all(alloc, &entries.products)?;
    let bidders = copied_all(alloc, &entries.bidders)?;
    let operator = Text::from_slice(alloc, entries.operator.as_bytes())?;
    Ok(Setup {
        version: entries.version,
        limit: entries.limit,
        requirement: entries.requirement,
        operator,
        products,
        bidders,
    })
}

/// Returns the set-up of a document's entries, or the first fault of its limits. May return
/// `NoMemory`, which then replaces any other result.
pub(crate) fn within_limits(alloc: Global, entries: &SetupEntries) -> Result<Setup, SetupFault>
    requires version { IsWithin 1 latest_version entries.now.version }
    requires first_version { entries.now.version ≡ 1 → IsOfFirstVersion entries.now }
    ensures same { IfOk result (λ setup. setup ≡ entries.now) }
    ensures ok { IfOk result (λ _. first_fault (document.setup_checks entries.now) ≡ None) }
    ensures err { IfErr result
        (IsFirstFault SetupFault.NoMemory (first_fault (document.setup_checks entries.now))) }
{
    check_limits(alloc, entries)?;
    Ok(copied(alloc, entries)?)
}

/// Reads a set-up document as [`read_setup`] does, but returns only the products, whose names it
/// borrows from the document. Returns `None` if the document cannot be read by bytes. Errors: the
/// first fault of its limits. May return `NoMemory`, which then replaces any other result.
pub fn scanned_products(
    alloc: Global,
    bytes: &[u8],
) -> Result<Option<Items<ProductEntry<'_>>>, SetupFault>
    ensures ok { IfOk result (λ found. IfSome found (λ products. (setup : SetupFields)
        × (document.document_setup bytes.now ≡ Ok setup) × (setup.products ≡ products))) }
    ensures limits { IfOk result (λ found. IfSome found (All IsProduct)) }
    ensures err { IfErr result (IsRefusal SetupFault.NoMemory (document.document_setup bytes.now)) }
{
    let Some(scanned) = scanned_text::<FoundSetup>(alloc, bytes)? else {
        return Ok(None);
    };
    match check_limits(alloc, &scanned.entries) {
        Ok(()) => Ok(Some(scanned.entries.products)),
        Err(fault) => {
            drop(scanned);
            Err(fault)
        }
    }
}

/// Reads a set-up document: returns its set-up, or its first fault.
///
/// A document is one JSON value (RFC 8259), with keys in any order and any white space. Its objects
/// have exactly these keys, and its numbers are whole numbers below 2^64:
///
/// - set-up: in version 2 with `"limit":N`,
///   `{"version":V,"requirement":R,"operator":T,"products":[PRODUCT,..],"bidders":[BIDDER,..]}`
/// - product: in version 2 with `"granule":N`,
///   `{"name":T,"units":N,"supply":N,"cap":N,"opening":N}`
/// - bidder: `{"name":T,"token":T,"eligibility":N}`
///
/// Version 1 means an activity limit of 100 percent and granules of one dollar.
///
/// Errors, in this order: the cases of [`SetupFault`]; [`Place`] has the limits. May return
/// `NoMemory`, which then replaces any other result. Takes time and memory in proportion to the
/// length of the document. A tree of values is made only if the document cannot be read by bytes.
#[tactic(auto, using(clock_json::proofs::JsonLaws::json_value), unfolding(crate::specs::SetupDocument::document_setup))]
pub fn read_setup(alloc: Global, bytes: &[u8]) -> Result<Setup, SetupFault>
    ensures ok { IfOk result (λ setup. document.document_setup bytes.now ≡ Ok setup) }
    ensures err { IfErr result (IsRefusal SetupFault.NoMemory (document.document_setup bytes.now)) }
{
    if let Some(scanned) = scanned_text::<FoundSetup>(alloc, bytes)? {
        let judged = within_limits(alloc, &scanned.entries);
        drop(scanned);
        return judged;
    }
    let value = read_value(alloc, bytes)?.ok_or(SetupFault::NotJson)?;
    let judged = setup_of(alloc, &value);
    drop(value);
    judged
}

/// Returns the set-up that a JSON value means, or its first fault, as [`read_setup`] does for a
/// text with this value. Never returns `NotJson`. May return `NoMemory`, which then replaces any
/// other result.
#[tactic(auto, using(crate::proofs::LimitLaws::accepted), unfolding(crate::specs::SetupDocument::setup_of))]
pub fn setup_of(alloc: Global, value: &Value) -> Result<Setup, SetupFault>
    ensures ok { IfOk result (λ setup. document.setup_of (view value.now) ≡ Ok setup) }
    ensures err { IfErr result
        (IsRefusal SetupFault.NoMemory (document.setup_of (view value.now))) }
    // The checks refuse nothing that is within the limits: every set-up that the type allows is
    // accepted.
    ensures accepts { (setup : SetupFields) → number_at (codes "version") (view value.now)
        ≡ Some setup.version → fields_from (view value.now) ≡ Some setup → IsSetup setup
        → document.setup_of (view value.now) ≡ Ok setup }
{
    let version = number_at(value, "version").ok_or(SetupFault::Shape)?;
    if !is_within(1, LATEST_VERSION, version) {
        return Err(SetupFault::Version);
    }
    let entries = entries_of(alloc, value)?.ok_or(SetupFault::Shape)?;
    let judged = within_limits(alloc, &entries);
    drop(entries);
    judged
}
