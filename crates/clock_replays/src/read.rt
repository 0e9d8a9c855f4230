//! Reading replay documents: byte by byte, if no text has an escape and each number is written in
//! digits only, and otherwise by a tree of JSON values, which decides every text.
ghost use Rattle.std.specs.Prelude.{◌≡◌, ◌≢◌, ◌&&◌, Ok, IfOk, IfErr, true, Some, length, nat_le};
ghost use Rattle.std.specs.List.{list_all};
ghost use Rattle.serde_json.specs.View.{view};
ghost use Rattle.clock_terms.specs.{Faults.{IsRefusal, first_fault, unless}, Limits.{IsSetup}};
ghost use Rattle.clock_replays.specs.Replays.{IsReplay, ReplayFields};
ghost use Rattle.clock_replays.specs.ReplayDocument.{document_replay, replay_of};
ghost use Rattle.clock_replays.specs.ReplayChecks as rules;
ghost use Rattle.clock_replays.specs.ReplayShape as shape;
ghost use Rattle.clock_replays.specs.inside.PartData.{sheet_data, found_script, script_data};
ghost use Rattle.clock_replays.specs.inside.PartData.{closing_data};
ghost use Rattle.clock_replays.specs.inside.ReplayData.{found_replay, found_data};

use crate::limit_lists::{LimitLists, limit_lists};
use crate::replay::{BidList, Closing, Closings, Replay, Script, ScriptFault, Scripts, SheetList};
use clock_bodies::{BidReader, FoundClose, TieReader, increments_of, is_of_version};
use clock_device::NoMemory;
use clock_json::tree::{
    RowReader, ValueReader, each_at, each_of, has_members, read_value, text_at,
};
use clock_json::{PartReader, Scan, ScanStop, ScannedMembers, is_key, scanned_parts, scanned_text};
use clock_setup::{NestedSetup, SetupFault, setup_of};
use clock_terms::{Product, Setup};
use serde_json::Value;
use std::alloc::Global;

/// Reads a sheet of a literal script: a list of bids, or `null` for no sheet.
#[derive(Drop)]
struct SheetReader;

impl<'v> PartReader<'v> for SheetReader {
    type Part = Option<BidList>;

    ghost levels = { 2 };

    ghost shown = { sheet_data };

    fn part(alloc: Global, scan: &mut Scan<'v>) -> Result<Option<BidList>, ScanStop> {
        if scan.null() {
            return Ok(None);
        }
        Ok(Some(scanned_parts::<BidReader>(alloc, scan, 0)?))
    }
}

#[tactic(auto, unfolding(crate::specs::ReplayShape::sheet_of))]
impl<'v> ValueReader<'v> for SheetReader {
    type Part = Option<BidList>;

    ghost meaning = { λ _. shape.sheet_of };

    fn part_of(
        &self,
        alloc: Global,
        value: &'v Value,
    ) -> Result<Option<Option<BidList>>, NoMemory> {
        if value.is_null() {
            return Ok(Some(None));
        }
        let Some(items) = value.as_array() else {
            return Ok(None);
        };
        Ok(each_of(alloc, &BidReader, items.as_slice())?.map(Some))
    }
}

/// The members of a script that were found so far.
#[derive(Default, Drop)]
struct FoundScript<'v> {
    kind: Option<&'v str>,
    limits: Option<LimitLists>,
    sheets: Option<SheetList>,
}

impl<'v> ScannedMembers<'v> for FoundScript<'v> {
    type Whole = Script;

    ghost levels = { 3 };

    ghost fields = { found_script };

    ghost shown = { script_data };

    fn nothing() -> FoundScript<'v> {
        FoundScript::default()
    }

    fn read(&mut self, alloc: Global, key: &[u8], scan: &mut Scan<'v>) -> Result<(), ScanStop> {
        match key {
            _ if is_key(key, "limits") => self.limits = Some(limit_lists(alloc, scan)?),
            _ if is_key(key, "sheets") => self.sheets = Some(scanned_parts::<SheetReader>(
                alloc, scan, 0,
            )?),
            _ if is_key(key, "kind") => self.kind = Some(scan.text()?),
            _ => return Err(ScanStop::Unusual),
        }
        Ok(())
    }

    fn whole(self) -> Option<Script> {
        match (self.kind?, self.limits, self.sheets) {
            ("literal", None, Some(sheets)) => Some(Script::Literal(sheets)),
            ("sincere", Some(limits), None) => Some(Script::Sincere(limits)),
            _ => None,
        }
    }
}

/// Reads a script by its kind.
#[derive(Drop)]
struct ScriptReader;

#[tactic(auto, unfolding(crate::specs::ReplayShape::script_of))]
impl<'v> ValueReader<'v> for ScriptReader {
    type Part = Script;

    ghost meaning = { λ _. shape.script_of };

    fn part_of(&self, alloc: Global, value: &'v Value) -> Result<Option<Script>, NoMemory> {
        match text_at(value, "kind") {
            Some("literal") if has_members(value, 2) => {
                Ok(each_at(alloc, value, "sheets", &SheetReader)?.map(Script::Literal))
            }
            Some("sincere") if has_members(value, 2) => {
                let Some(lists) = each_at(alloc, value, "limits", &RowReader)? else {
                    return Ok(None);
                };
                let limits = LimitLists::from_lists(alloc, lists.as_slice())?;
                Ok(Some(Script::Sincere(limits)))
            }
            _ => Ok(None),
        }
    }
}

/// Reads how a round is closed: a closing that does not name its round.
#[derive(Drop)]
struct ClosingReader;

impl<'v> PartReader<'v> for ClosingReader {
    type Part = Closing;

    ghost levels = { 3 };

    ghost shown = { closing_data };

    fn part(alloc: Global, scan: &mut Scan<'v>) -> Result<Closing, ScanStop> {
        let close = FoundClose::part(alloc, scan)?;
        if close.round.is_some() {
            return Err(ScanStop::Unusual);
        }
        Ok(Closing {
            increments: close.increments,
            ties: close.ties,
        })
    }
}

#[tactic(auto, unfolding(crate::specs::ReplayShape::closing_from))]
impl<'v> ValueReader<'v> for ClosingReader {
    type Part = Closing;

    ghost meaning = { λ _. shape.closing_from };

    fn part_of(&self, alloc: Global, value: &'v Value) -> Result<Option<Closing>, NoMemory> {
        let Some(increments) = increments_of(alloc, value)? else {
            return Ok(None);
        };
        let Some(ties) = each_at(alloc, value, "ties", &TieReader)? else {
            return Ok(None);
        };
        Ok(has_members(value, 2).then_some(Closing { increments, ties }))
    }
}

/// The members of a replay document that were found so far.
#[derive(Default, Drop)]
struct FoundReplay {
    closings: Option<Closings>,
    scripts: Option<Scripts>,
    nested: Option<NestedSetup>,
}

impl<'v> ScannedMembers<'v> for FoundReplay {
    type Whole = (NestedSetup, Scripts, Closings);

    ghost levels = { 5 };

    ghost fields = { found_replay };

    ghost shown = { found_data };

    fn nothing() -> FoundReplay {
        FoundReplay::default()
    }

    fn read(&mut self, alloc: Global, key: &[u8], scan: &mut Scan<'v>) -> Result<(), ScanStop> {
        match key {
            _ if is_key(key, "scripts") => self.scripts = Some(scanned_parts::<FoundScript>(
                alloc, scan, 0,
            )?),
            _ if is_key(key, "closings") => self.closings = Some(scanned_parts::<ClosingReader>(
                alloc, scan, 0,
            )?),
            _ if is_key(key, "setup") => self.nested = Some(NestedSetup::part(alloc, scan)?),
            _ => return Err(ScanStop::Unusual),
        }
        Ok(())
    }

    fn whole(self) -> Option<(NestedSetup, Scripts, Closings)> {
        Some((self.nested?, self.scripts?, self.closings?))
    }
}

/// Returns whether each closing has the form of the set-up's version.
fn are_of_version(version: u64, closings: &[Closing]) -> bool
    ensures { result ≡ rules.are_of_version version closings.now }
{
    closings
        .iter()
        .all(|closing| is_of_version(version, &closing.increments))
}

/// Returns whether each sincere script has `count` lists of limits.
fn have_lists(count: usize, scripts: &[Script]) -> bool
    ensures { result ≡ list_all (rules.has_lists count) scripts.now }
{
    scripts.iter().all(|script| match script {
        Script::Literal(_) => true,
        Script::Sincere(limits) => limits.count() == count,
    })
}

/// Returns whether limits never rise, and their number is at most the product's cap.
fn are_limits(product: &Product, limits: &[u64]) -> bool
    ensures { result
        ≡ (nat_le (length limits.now) product.now.cap && rules.never_rises limits.now) }
{
    limits.len() as u64 <= product.cap && limits.is_sorted_by(|earlier, later| later <= earlier)
}

/// Returns the first fault of a bidder's script: the first product whose limits rise or are too
/// many. Requires that a sincere script has a list for each product.
#[tactic(auto, unfolding(crate::specs::ReplayChecks::script_checks))]
fn script_fault(bidder: u64, products: &[Product], script: &Script) -> Option<ScriptFault>
    requires { rules.has_lists (length products.now) script.now ≡ true }
    ensures fault { result ≡ first_fault (rules.script_checks products.now bidder script.now) }
    ensures nested { result ≢ Some (ScriptFault.Setup SetupFault.NoMemory) }
{
    let Script::Sincere(limits) = script else {
        return None;
    };
    // A product without limits has no fault, and most have none.
    let mut from = 0;
    let mut product = limits.next_limited(0, &mut from);
    'limited: while product < limits.count() {
        if !are_limits(&products[product], limits.list(product, &mut from)) {
            return Some(ScriptFault::Limits(bidder, product as u64));
        }
        product = limits.next_limited(product + 1, &mut from);
    }
    None
}

/// Returns the first fault of a replay document that has its shape and a valid set-up.
#[tactic(auto, unfolding(crate::specs::ReplayChecks::replay_checks))]
fn replay_fault(setup: &Setup, scripts: &[Script], closings: &[Closing]) -> Option<ScriptFault>
    ensures fault { result ≡ first_fault (rules.replay_checks
        (record { setup = setup.now; scripts = scripts.now; closings = closings.now })) }
    // for the caller, which makes no other call that states this
    ensures limits { IsSetup setup.now }
    ensures nested { result ≢ Some (ScriptFault.Setup SetupFault.NoMemory) }
{
    let products = setup.products.as_slice();
    if !are_of_version(setup.version, closings) {
        return Some(ScriptFault::Shape);
    }
    if scripts.len() != setup.bidders.as_slice().len() {
        return Some(ScriptFault::Scripts);
    }
    if !have_lists(products.len(), scripts) {
        return Some(ScriptFault::Shape);
    }
    for (bidder, script) in scripts.iter().enumerate() {
        if let Some(fault) = script_fault(bidder as u64, products, script) {
            return Some(fault);
        }
    }
    None
}

/// Makes the replay of these parts, or returns the first fault of the checks after those of the
/// set-up.
fn judged(setup: Setup, scripts: Scripts, closings: Closings) -> Result<Replay, ScriptFault>
    ensures ok { let all : ReplayFields = record {
      setup = setup;
      scripts = scripts;
      closings = closings;
    } in
        IfOk result (λ replay. unless (first_fault (rules.replay_checks all)) all ≡ Ok replay) }
    ensures err { let all : ReplayFields = record {
      setup = setup;
      scripts = scripts;
      closings = closings;
    } in
        IfErr result
        (IsRefusal ScriptFault.NoMemory (unless (first_fault (rules.replay_checks all)) all)) }
    ensures nested { IfErr result (λ fault. fault ≢ ScriptFault.Setup SetupFault.NoMemory) }
{
    match replay_fault(&setup, scripts.as_slice(), closings.as_slice()) {
        Some(fault) => Err(fault),
        None => Ok(Replay {
            setup,
            scripts,
            closings,
        }),
    }
}

/// Returns the replay that a JSON value means, or its first fault. May return `NoMemory`, which
/// then replaces any other result.
fn replay_in(alloc: Global, value: &Value) -> Result<Replay, ScriptFault>
    ensures ok { IfOk result (λ replay. replay_of (view value.now) ≡ Ok replay) }
    ensures err { IfErr result (IsRefusal ScriptFault.NoMemory (replay_of (view value.now))) }
    ensures nested { IfErr result (λ fault. fault ≢ ScriptFault.Setup SetupFault.NoMemory) }
{
    let nested = value.get("setup").ok_or(ScriptFault::Shape)?;
    let scripts = each_at(alloc, value, "scripts", &ScriptReader)?.ok_or(ScriptFault::Shape)?;
    let closings = each_at(alloc, value, "closings", &ClosingReader)?.ok_or(ScriptFault::Shape)?;
    if !has_members(value, 3) {
        return Err(ScriptFault::Shape);
    }
    match setup_of(alloc, nested) {
        Ok(setup) => judged(setup, scripts, closings),
        Err(SetupFault::NoMemory) => Err(ScriptFault::NoMemory),
        Err(fault) => Err(ScriptFault::Setup(fault)),
    }
}

/// Reads a replay document. Errors: the first fault, in the order of [`ScriptFault`]. May return
/// `NoMemory`, which then replaces any other result.
///
/// The document is `{"closings":[CLOSING,..],"scripts":[SCRIPT,..],"setup":SETUP}`:
///
/// - SETUP is as [`read_setup`](clock_setup::read_setup) reads it.
/// - There is a SCRIPT for each bidder. It is `{"kind":"literal","sheets":[SHEET,..]}` or
///   `{"kind":"sincere","limits":[[N,..],..]}`.
/// - A SHEET is null or a list of bids `{"price":N,"product":N,"quantity":N}`.
/// - A list of limits is for a product. It never rises, and is no longer than the product's cap.
/// - A CLOSING is `{"increment":N,"ties":[[B,P,N],..]}`, in version 2 with `"increments":[N,..]`
///   instead of `"increment"`.
#[tactic(auto, unfolding(crate::specs::ReplayDocument::document_replay))]
pub fn read_replay(alloc: Global, bytes: &[u8]) -> Result<Replay, ScriptFault>
    ensures ok { IfOk result (λ replay. document_replay bytes.now ≡ Ok replay) }
    ensures replay { IfOk result IsReplay }
    ensures err { IfErr result (IsRefusal ScriptFault.NoMemory (document_replay bytes.now)) }
    ensures nested { IfErr result (λ fault. fault ≢ ScriptFault.Setup SetupFault.NoMemory) }
{
    if let Some((nested, scripts, closings)) = scanned_text::<FoundReplay>(alloc, bytes)? {
        return judged(nested.setup, scripts, closings);
    }
    let value = read_value(alloc, bytes)?.ok_or(ScriptFault::NotJson)?;
    replay_in(alloc, &value)
}
