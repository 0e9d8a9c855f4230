ghost use Rattle.std.specs.Prelude.{◌≡◌, ◌∷◌, ℕ, List, Bool, true, false, map, None, IfOk, IfErr};
ghost use Rattle.std.specs.Prelude.{All, OnOk};
ghost use Rattle.std.specs.List.{list_all};
ghost use Rattle.clock_terms.specs.Limits as limits;
ghost use Rattle.clock_terms.specs.Faults.{first_fault, in_turn};
ghost use Rattle.clock_setup.specs.declared.fault.SetupFault.{SetupFault};
ghost use Rattle.clock_setup.specs.SetupDocument.{product_checks, bidder_checks};
ghost use Rattle.clock_setup.specs.inside.SetupDocument.{counted_checks, range_check};

use crate::fault::{Place, SetupFault};
use crate::setup_tree::{BidderEntry, ProductEntry};
use clock_device::{Items, NoMemory, Text};
use clock_money::{MOST_GRANULE, Price};
use clock_terms::{
    Bidder, LONGEST_NAME, LONGEST_TOKEN, MOST_ELIGIBILITY, MOST_SUPPLY, MOST_UNITS, Product,
    SHORTEST_TOKEN, is_within,
};
use std::alloc::Global;
use std::collections::HashSet;

/// Whether a name has 1 to 32 letters, digits, dashes, and underscores.
fn is_name(name: &str) -> bool
    ensures { result ≡ limits.is_name name.now }
{
    let text = name.as_bytes();
    let fits = text.iter().all(|byte| byte.is_ascii_alphanumeric() || matches!(byte, b'-' | b'_'));
    is_within(1, LONGEST_NAME, name.len() as u64) && fits
}

/// Whether a token has 16 to 64 letters and digits.
pub(crate) fn is_token(token: &str) -> bool
    ensures { result ≡ limits.is_token token.now }
{
    let text = token.as_bytes();
    let fits = text.iter().all(|byte| byte.is_ascii_alphanumeric());
    is_within(SHORTEST_TOKEN, LONGEST_TOKEN, token.len() as u64) && fits
}

/// Returns the range fault of `place` unless the value there passes.
fn check(passes: bool, place: Place) -> Result<(), SetupFault>
    ensures ok { OnOk result (passes ≡ true) }
    ensures err { IfErr result (λ fault. (passes ≡ false) × (fault ≡ SetupFault.Range place)) }
{
    passes.then_some(()).ok_or(SetupFault::Range(place))
}

/// Returns the range fault of the first place whose value does not pass.
#[inline(always)]
pub(crate) fn check_each(tests: &[(Place, bool)]) -> Result<(), SetupFault>
    ensures ok { OnOk result (first_fault (in_turn range_check 0 tests.now) ≡ None) }
    ensures err { IfErr result
        (λ fault. first_fault (in_turn range_check 0 tests.now) ≡ Some fault) }
{
    for test in tests {
        check(test.1, test.0)?;
    }
    Ok(())
}

/// An entry of a document, a product or a bidder, with limits for each of its values.
pub(crate) trait LimitedEntry {
    /// The value of an entry that is within its limits.
    type Whole: Drop;

    /// The checks of the entry with a number, in order.
    ghost checks: { ℕ → Self → List (SetupFault × Bool) };

    /// The entry is within its limits.
    ghost fits: { Self → Type 0 };

    /// In contracts, an entry within its limits is this value.
    ghost shown: { Self → Self.Whole };

    /// The bytes of the entry's name.
    ghost text: { Self → List ℕ };

    /// Returns the entry's name.
    fn name(&self) -> &str
        ensures { result.now ≡ text self.now };

    /// Returns the first fault of entry number `i`.
    fn check(&self, i: u64) -> Result<(), SetupFault>
        ensures ok { OnOk result (first_fault (checks i self.now) ≡ None) }
        ensures err { IfErr result (λ fault. first_fault (checks i self.now) ≡ Some fault) };

    /// Returns the value of an entry within its limits. May return `NoMemory`.
    fn copied(&self, alloc: Global) -> Result<Self::Whole, NoMemory>
        requires { fits self.now }
        ensures { IfOk result (λ whole. whole ≡ shown self.now) };
}

#[tactic(auto, unfolding(crate::specs::SetupDocument::product_checks))]
impl<'v> LimitedEntry for ProductEntry<'v> {
    type Whole = Product;

    ghost checks = { product_checks };

    ghost fits = { limits.IsProduct };

    ghost shown = { λ entry. entry };

    ghost text = { λ product. product.name };

    fn name(&self) -> &str {
        self.name
    }

    fn check(&self, i: u64) -> Result<(), SetupFault> {
        check_each(&[
            (Place::Name(i), is_name(self.name)),
            (Place::Units(i), is_within(1, MOST_UNITS, self.units)),
            (Place::Supply(i), is_within(1, MOST_SUPPLY, self.supply)),
            (Place::Cap(i), is_within(1, self.supply, self.cap)),
            (
                Place::Opening(i),
                is_within(1, Price::HIGHEST, self.opening),
            ),
            (Place::Granule(i), is_within(1, MOST_GRANULE, self.granule)),
        ])
    }

    fn copied(&self, alloc: Global) -> Result<Product, NoMemory> {
        let opening = Price::new(self.opening).unwrap();
        Ok(Product {
            name: Text::from_slice(alloc, self.name.as_bytes())?,
            units: self.units,
            supply: self.supply,
            cap: self.cap,
            opening,
            granule: self.granule,
        })
    }
}

#[tactic(auto, unfolding(crate::specs::SetupDocument::bidder_checks))]
impl<'v> LimitedEntry for BidderEntry<'v> {
    type Whole = Bidder;

    ghost checks = { bidder_checks };

    ghost fits = { limits.IsBidder };

    ghost shown = { λ entry. entry };

    ghost text = { λ bidder. bidder.name };

    fn name(&self) -> &str {
        self.name
    }

    fn check(&self, i: u64) -> Result<(), SetupFault> {
        check_each(&[
            (Place::BidderName(i), is_name(self.name)),
            (Place::Token(i), is_token(self.token)),
            (Place::Eligibility(i), self.eligibility <= MOST_ELIGIBILITY),
        ])
    }

    fn copied(&self, alloc: Global) -> Result<Bidder, NoMemory> {
        Ok(Bidder {
            name: Text::from_slice(alloc, self.name.as_bytes())?,
            token: Text::from_slice(alloc, self.token.as_bytes())?,
            eligibility: self.eligibility,
        })
    }
}

/// Returns the first fault of a list of entries. Errors, in this order: a fault of `place` if there
/// is no entry or more than `most`; the first fault of each entry in turn.
pub(crate) fn check_all<E: LimitedEntry>(
    place: Place,
    most: u64,
    entries: &[E],
) -> Result<(), SetupFault>
    ensures ok { OnOk result
        (first_fault (counted_checks (SetupFault.Range place) most E.checks entries.now) ≡ None) }
    ensures err { IfErr result (λ fault.
        first_fault (counted_checks (SetupFault.Range place) most E.checks entries.now)
        ≡ Some fault) }
{
    check(is_within(1, most, entries.len() as u64), place)?;
    for (i, entry) in entries.iter().enumerate() {
        entry.check(i as u64)?;
    }
    Ok(())
}

/// Returns the values of entries that are within their limits. May return `NoMemory`.
pub(crate) fn copied_all<E: LimitedEntry>(
    alloc: Global,
    entries: &[E],
) -> Result<Items<E::Whole>, NoMemory>
    requires { All E.fits entries.now }
    ensures { IfOk result (λ wholes. wholes ≡ map E.shown entries.now) }
{
    let mut wholes = Items::with_capacity(alloc, entries.len())?;
    for entry in entries {
        let whole = entry.copied(alloc)?;
        wholes.push(whole);
    }
    Ok(wholes.into_items())
}

/// Whether no two texts are equal. May return `NoMemory`.
fn is_distinct(alloc: Global, texts: &[&str]) -> Result<bool, NoMemory>
    ensures { IfOk result
        (λ distinct. distinct ≡ limits.is_distinct (map (λ text. text.now) texts.now)) }
{
    // Collecting into a set would retry a failed allocation with a smaller one, so the capacity is
    // allocated here.
    let mut seen = HashSet::with_capacity(alloc, texts.len())?;
    seen.extend(texts.iter().copied())?;
    Ok(seen.len() == texts.len())
}

/// Whether no two entries have the same name. May return `NoMemory`.
pub(crate) fn has_distinct_names<E: LimitedEntry>(
    alloc: Global,
    entries: &[E],
) -> Result<bool, NoMemory>
    ensures { IfOk result (λ distinct. distinct ≡ limits.is_distinct (map E.text entries.now)) }
{
    let mut names = Items::with_capacity(alloc, entries.len())?;
    for entry in entries {
        names.push(entry.name());
    }
    let distinct = is_distinct(alloc, names.as_slice());
    drop(names);
    distinct
}

/// Whether no two bidders, and no bidder and the operator, have the same token. May return
/// `NoMemory`.
pub(crate) fn has_distinct_tokens(
    alloc: Global,
    operator: &str,
    bidders: &[BidderEntry<'_>],
) -> Result<bool, NoMemory>
    ensures { IfOk result (λ distinct. distinct
        ≡ limits.is_distinct (operator.now ∷ map (λ bidder. bidder.token) bidders.now)) }
{
    let mut tokens = Items::with_capacity(alloc, bidders.len() + 1)?;
    tokens.push(operator);
    for bidder in bidders {
        tokens.push(bidder.token);
    }
    let distinct = is_distinct(alloc, tokens.as_slice());
    drop(tokens);
    distinct
}
