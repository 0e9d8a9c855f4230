//! The pages that everyone may see, which depend only on the public part of a set-up, the pages of
//! a bidder, and those of the operator.

ghost use Rattle.std.specs.Prelude.{◌≡◌, ◌<◌, ◌≤◌, ◌+◌, length, option_copied, IfOk};
ghost use Rattle.clock_terms.specs.Limits.{IsName, IsRow, public_setup};
ghost use Rattle.clock_house.specs.History.{bidder_at};
ghost use Rattle.clock_views.specs.PublicPages.{status_value, status_bytes, round_results_value};
ghost use Rattle.clock_views.specs.PublicPages.{products_value, product_value, line_value};
ghost use Rattle.clock_views.specs.PublicPages.{from_version_2 as number_from_version_2};
ghost use Rattle.clock_views.specs.BidderPages.{account_value, bids_value, accepted_value};
ghost use Rattle.clock_views.specs.BidderPages.{accepted_bytes, bidder_results_value};
ghost use Rattle.clock_views.specs.OperatorPages.{closed_value, closed_bytes, results_value};
ghost use Rattle.clock_views.specs.{Rooms.{IsHeaded, most_text}, Values.{IsPage}};
ghost use Rattle.clock_views.specs.inside.Rooms.{room_of_line, room_of_product};
ghost use Rattle.clock_views.specs.inside.Values.{Adds, item_text};

use crate::capacities::{
    ACCEPTED, ACCOUNT, BID, BIDS, CLOSED, DEMAND, LINE, NO_BIDS, PRODUCT, PRODUCTS, RESULT,
    RESULTS, SHEET, SLIP, STATUS,
};
use crate::pieces::{
    Headed, push_comma_if, push_demands, push_name, push_number, push_number_if,
    push_number_or_null, push_truth,
};
use clock_api::text_with_room;
use clock_bids::{Own, Sheet};
use clock_closing::Slip;
use clock_device::{Bounded, NoMemory, Text};
use clock_house::House;
use clock_posting::{Line, RoundSheet};
use clock_terms::{Product, Setup, units_held};
use std::alloc::Global;

/// Writes the status: the current round, and whether the auction has ended.
///
/// ```text
/// {"ended":false,"round":1,"version":1}
/// ```
#[tactic(auto, using(crate::proofs::Texts::status_in_bytes))]
pub fn status_page(alloc: Global, setup: &Setup, round: u64, ended: bool) -> Result<Text, NoMemory>
    ensures value { IfOk result (IsPage (status_value (public_setup setup.now) round ended)) }
    ensures bytes { IfOk result (λ text. text ≡ status_bytes (public_setup setup.now) round ended) }
{
    Ok(headed_status(alloc, b"", setup, round, ended)?)
}

/// Like [`status_page`], after the head of a reply.
pub fn headed_status(alloc: Global, head: &[u8], setup: &Setup, round: u64, ended: bool) -> Headed
    ensures { IsHeaded head.now (status_value (public_setup setup.now) round ended) result }
{
    let mut text = text_with_room(alloc, head, STATUS)?;
    push_truth(&mut text, b"{\"ended\":", ended);
    push_number(&mut text, b",\"round\":", round);
    push_number(&mut text, b",\"version\":", setup.version);
    text.extend_from_slice(b"}");
    Ok(text.into_items())
}

/// Appends a product of a set-up of `version`, after a comma if it is not the first.
fn push_product(text: &mut Bounded<u8>, later: bool, version: u64, product: &Product)
    requires name { IsName product.now.name }
    requires room { room_of_product ≤ text.old.room }
    ensures adds { Adds
        (item_text later (product_value version product.now)) text.old.items text.new.items }
    ensures room { text.old.room ≤ text.new.room + room_of_product }
{
    let granule = from_version_2(version, product.granule);
    push_comma_if(text, later);
    push_number(text, b"{\"cap\":", product.cap);
    push_number_if(text, b",\"granule\":", granule);
    push_name(text, b",\"name\":", product.name.as_slice());
    push_number(text, b",\"opening\":", product.opening.get());
    push_number(text, b",\"supply\":", product.supply);
    push_number(text, b",\"units\":", product.units);
    text.extend_from_slice(b"}");
}

/// Writes the products in order of the set-up, and the activity requirement. From version 2 of the
/// set-up document on, the page also has the activity limit and the granules.
///
/// ```text
/// {"products":[{"cap":2,"name":"A","opening":100,"supply":2,"units":1}],"requirement":95,"version":1}
/// ```
pub fn products_page(alloc: Global, setup: &Setup) -> Result<Text, NoMemory>
    ensures { IfOk result (IsPage (products_value (public_setup setup.now))) }
{
    let products = setup.products.as_slice();
    let mut text = text_with_room(alloc, b"", PRODUCTS + PRODUCT * products.len() as u128)?;
    let limit = from_version_2(setup.version, setup.limit);
    text.extend_from_slice(b"{");
    push_number_if(&mut text, b"\"limit\":", limit);
    push_comma_if(&mut text, limit.is_some());
    text.extend_from_slice(b"\"products\":[");
    for (i, product) in products.iter().enumerate() {
        push_product(&mut text, i > 0, setup.version, product);
    }
    push_number(&mut text, b"],\"requirement\":", setup.requirement);
    push_number(&mut text, b",\"version\":", setup.version);
    text.extend_from_slice(b"}");
    Ok(text.into_items())
}

/// Appends the results of a round for one product, after a comma if it is not the first.
fn push_line(text: &mut Bounded<u8>, later: bool, product: &Product, line: &Line)
    requires name { IsName product.now.name }
    requires room { room_of_line ≤ text.old.room }
    ensures adds { Adds
        (item_text later (line_value product.now line.now)) text.old.items text.new.items }
    ensures room { text.old.room ≤ text.new.room + room_of_line }
{
    push_comma_if(text, later);
    push_number(text, b"{\"clock\":", line.clock.get());
    push_number_or_null(text, b",\"demand\":", line.demand);
    push_name(text, b",\"name\":", product.name.as_slice());
    push_number_or_null(text, b",\"next\":", line.next);
    push_number(text, b",\"posted\":", line.posted.get());
    push_number(text, b",\"start\":", line.start.get());
    text.extend_from_slice(b"}");
}

/// Writes the results of a closed round by product. Requires a line for each product of the set-up.
///
/// ```text
/// {"ended":true,"products":[{"clock":110,"demand":null,"name":"A","next":null,"posted":103,"start":100}],"round":2}
/// ```
pub fn sheet_page(alloc: Global, setup: &Setup, sheet: &RoundSheet) -> Result<Text, NoMemory>
    requires { length sheet.now.lines ≡ length setup.now.products }
    ensures { IfOk result (IsPage (round_results_value (public_setup setup.now) sheet.now)) }
{
    Ok(headed_round_results(alloc, b"", setup, sheet)?)
}

/// Like [`sheet_page`], after the head of a reply.
pub fn headed_round_results(alloc: Global, head: &[u8], setup: &Setup, sheet: &RoundSheet) -> Headed
    requires { length sheet.now.lines ≡ length setup.now.products }
    ensures { IsHeaded head.now (round_results_value (public_setup setup.now) sheet.now) result }
{
    let mut text = text_with_room(alloc, head, SHEET + LINE * sheet.lines.len() as u128)?;
    push_truth(&mut text, b"{\"ended\":", sheet.ended);
    text.extend_from_slice(b",\"products\":[");
    for (i, line) in sheet.lines.iter().enumerate() {
        let product = &setup.products[i];
        push_line(&mut text, i > 0, product, line);
    }
    push_number(&mut text, b"],\"round\":", sheet.round);
    text.extend_from_slice(b"}");
    Ok(text.into_items())
}

/// Returns a number that set-up documents have from version 2 on.
fn from_version_2(version: u64, number: u64) -> Option<u64>
    ensures { result ≡ number_from_version_2 version number }
{
    if version >= 2 { Some(number) } else { None }
}

/// Writes the account of a bidder before the current round. Requires a bidder of the set-up, and a
/// demand for each product, at most its cap.
///
/// ```text
/// {"activity":2,"demands":[2],"eligibility":3,"ended":false,"name":"X","round":2}
/// ```
pub fn account_page(
    alloc: Global,
    setup: &Setup,
    bidder: u32,
    own: Own,
    ended: bool,
) -> Result<Text, NoMemory>
    requires bidder { bidder < length setup.now.bidders }
    requires row { IsRow setup.now.products own.demands.now }
    ensures { IfOk result
        (IsPage (account_value setup.now.products (bidder_at setup.now bidder).name own.entry.round
        (record { eligibility = own.entry.eligibility; demands = own.entry.demands.now }) ended)) }
{
    Ok(headed_account(alloc, b"", setup, bidder, own, ended)?)
}

/// Like [`account_page`], after the head of a reply.
pub fn headed_account(
    alloc: Global,
    head: &[u8],
    setup: &Setup,
    bidder: u32,
    own: Own,
    ended: bool,
) -> Headed
    requires bidder { bidder < length setup.now.bidders }
    requires row { IsRow setup.now.products own.demands.now }
    ensures { IsHeaded head.now (account_value setup.now.products (bidder_at setup.now bidder).name
        own.entry.round (record {
          eligibility = own.entry.eligibility;
          demands = own.entry.demands.now;
        }) ended) result }
{
    let activity = units_held(setup.products.as_slice(), own.demands);
    let mut text = text_with_room(alloc, head, ACCOUNT + DEMAND * own.demands.len() as u128)?;
    push_number(&mut text, b"{\"activity\":", activity);
    push_demands(&mut text, b",\"demands\":", own.demands.held());
    push_number(&mut text, b",\"eligibility\":", own.eligibility);
    push_truth(&mut text, b",\"ended\":", ended);
    push_name(&mut text, b",\"name\":", name_of(setup, bidder));
    push_number(&mut text, b",\"round\":", own.round);
    text.extend_from_slice(b"}");
    Ok(text.into_items())
}

/// Returns the name of a bidder. Requires a bidder of the set-up.
pub(crate) fn name_of(setup: &Setup, bidder: u32) -> &[u8]
    requires { bidder < length setup.now.bidders }
    ensures value { result.now ≡ (bidder_at setup.now bidder).name }
    ensures name { IsName result.now }
{
    setup.bidders.as_slice()[bidder as usize].name.as_slice()
}

/// Writes a bidder's sheet in force, or null if it has none, and the current round.
///
/// ```text
/// {"bids":[{"price":100,"product":0,"quantity":2}],"round":1}
/// ```
pub fn bids_page(alloc: Global, round: u64, sheet: Option<&Sheet>) -> Result<Text, NoMemory>
    ensures { IfOk result (IsPage (bids_value round (option_copied sheet.entry))) }
{
    Ok(headed_bids(alloc, b"", round, sheet)?)
}

/// Like [`bids_page`], after the head of a reply.
pub fn headed_bids(alloc: Global, head: &[u8], round: u64, sheet: Option<&Sheet>) -> Headed
    ensures { IsHeaded head.now (bids_value round (option_copied sheet.entry)) result }
{
    let Some(sheet) = sheet else {
        let mut text = text_with_room(alloc, head, NO_BIDS)?;
        push_number(&mut text, b"{\"bids\":null,\"round\":", round);
        text.extend_from_slice(b"}");
        return Ok(text.into_items());
    };
    let bids = sheet.bids();
    let mut text = text_with_room(alloc, head, BIDS + BID * bids.len() as u128)?;
    text.extend_from_slice(b"{\"bids\":[");
    for (i, bid) in bids.iter().enumerate() {
        push_comma_if(&mut text, i > 0);
        push_number(&mut text, b"{\"price\":", bid.price);
        push_number(&mut text, b",\"product\":", bid.product);
        push_number(&mut text, b",\"quantity\":", bid.quantity);
        text.extend_from_slice(b"}");
    }
    push_number(&mut text, b"],\"round\":", round);
    text.extend_from_slice(b"}");
    Ok(text.into_items())
}

/// Writes the reply to an accepted sheet: the number of its bids, and the current round.
///
/// ```text
/// {"accepted":true,"bids":1,"round":1}
/// ```
#[tactic(auto, using(crate::proofs::Texts::accepted_in_bytes))]
pub fn accepted_page(alloc: Global, round: u64, bids: u64) -> Result<Text, NoMemory>
    ensures value { IfOk result (IsPage (accepted_value round bids)) }
    ensures bytes { IfOk result (λ text. text ≡ accepted_bytes round bids) }
{
    Ok(headed_accepted(alloc, b"", round, bids)?)
}

/// Like [`accepted_page`], after the head of a reply.
pub fn headed_accepted(alloc: Global, head: &[u8], round: u64, bids: u64) -> Headed
    ensures { IsHeaded head.now (accepted_value round bids) result }
{
    let mut text = text_with_room(alloc, head, ACCEPTED)?;
    push_number(&mut text, b"{\"accepted\":true,\"bids\":", bids);
    push_number(&mut text, b",\"round\":", round);
    text.extend_from_slice(b"}");
    Ok(text.into_items())
}

/// Writes a bidder's result of a closed round: its activity, its processed demands, and its
/// eligibility for the next round.
///
/// ```text
/// {"activity":1,"demands":[1],"eligibility":2,"round":2}
/// ```
pub fn slip_page(alloc: Global, slip: &Slip) -> Result<Text, NoMemory>
    ensures { IfOk result (IsPage (bidder_results_value slip.now)) }
{
    Ok(headed_bidder_results(alloc, b"", slip)?)
}

/// Like [`slip_page`], after the head of a reply.
pub fn headed_bidder_results(alloc: Global, head: &[u8], slip: &Slip) -> Headed
    ensures { IsHeaded head.now (bidder_results_value slip.now) result }
{
    let mut text = text_with_room(alloc, head, SLIP + DEMAND * slip.demands.len() as u128)?;
    push_number(&mut text, b"{\"activity\":", slip.activity);
    push_demands(&mut text, b",\"demands\":", slip.demands.held());
    push_number(&mut text, b",\"eligibility\":", slip.eligibility);
    push_number(&mut text, b",\"round\":", slip.round);
    text.extend_from_slice(b"}");
    Ok(text.into_items())
}

/// Writes the reply to an accepted closing: the closed round, and whether the auction ends with it.
///
/// ```text
/// {"closed":1,"ended":false}
/// ```
#[tactic(auto, using(crate::proofs::Texts::closed_in_bytes))]
pub fn closed_page(alloc: Global, round: u64, ended: bool) -> Result<Text, NoMemory>
    ensures value { IfOk result (IsPage (closed_value round ended)) }
    ensures bytes { IfOk result (λ text. text ≡ closed_bytes round ended) }
{
    Ok(headed_closed(alloc, b"", round, ended)?)
}

/// Like [`closed_page`], after the head of a reply.
pub fn headed_closed(alloc: Global, head: &[u8], round: u64, ended: bool) -> Headed
    ensures { IsHeaded head.now (closed_value round ended) result }
{
    let mut text = text_with_room(alloc, head, CLOSED)?;
    push_number(&mut text, b"{\"closed\":", round);
    push_truth(&mut text, b",\"ended\":", ended);
    text.extend_from_slice(b"}");
    Ok(text.into_items())
}

/// Writes the demands, the eligibility, and the name of each bidder in order of the set-up, whether
/// the auction has ended, and the current round. At the end, the demands are what each bidder won.
///
/// ```text
/// {"bidders":[{"demands":[1],"eligibility":2,"name":"X"}],"ended":true,"round":2}
/// ```
pub fn results_page<P>(alloc: Global, house: &House<P>) -> Result<Text, NoMemory>
    ensures { IfOk result (IsPage (results_value house.now)) }
{
    Ok(headed_results(alloc, b"", house)?)
}

/// Returns the most bytes of the page of the results.
fn results_capacity<P>(house: &House<P>) -> u128
    ensures { result ≡ most_text (results_value house.now) }
{
    let mut capacity = RESULTS;
    for bidder in 0..bidder_count(house.setup()) {
        capacity += RESULT + DEMAND * house.own(bidder).demands.len() as u128;
    }
    capacity
}

/// Like [`results_page`], after the head of a reply.
pub fn headed_results<P>(alloc: Global, head: &[u8], house: &House<P>) -> Headed
    ensures { IsHeaded head.now (results_value house.now) result }
{
    let mut text = text_with_room(alloc, head, results_capacity(house))?;
    text.extend_from_slice(b"{\"bidders\":[");
    for bidder in 0..bidder_count(house.setup()) {
        let own = house.own(bidder);
        push_comma_if(&mut text, bidder > 0);
        push_demands(&mut text, b"{\"demands\":", own.demands.held());
        push_number(&mut text, b",\"eligibility\":", own.eligibility);
        push_name(&mut text, b",\"name\":", name_of(house.setup(), bidder));
        text.extend_from_slice(b"}");
    }
    push_truth(&mut text, b"],\"ended\":", house.ended());
    push_number(&mut text, b",\"round\":", house.round());
    text.extend_from_slice(b"}");
    Ok(text.into_items())
}

/// Returns how many bidders a set-up has.
fn bidder_count(setup: &Setup) -> u32
    ensures { result ≡ length setup.now.bidders }
{
    setup.bidders.as_slice().len() as u32
}
