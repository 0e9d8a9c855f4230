ghost use Rattle.std.specs.Prelude.{◌≡◌, ◌≤◌, ◌+◌, ◌++◌, Ok, All, length, drop, IfOk, IfErr};
ghost use Rattle.std.specs.Prelude.{OnOk, codes, decimal};
ghost use Rattle.clock_device.specs.Decimal.{number_or_dash};
ghost use Rattle.clock_terms.specs.{Demands.{IsGrid}, Faults.{IsRefusal}, Increments.{IsIncrement}};
ghost use Rattle.clock_terms.specs.Limits.{IsProduct, IsWithin, most_granule};
ghost use Rattle.clock_money.specs.Price.{raise};
ghost use Rattle.clock_setup.specs.OpeningDocument.{document_opening};
ghost use Rattle.clock_setup.specs.SetupDocument.{document_setup};
ghost use Rattle.clock_console.specs.Prices.{first_round, opening_lines_of, prices_of, read_in};
ghost use Rattle.clock_console.specs.PriceLines.{price_lines};

use crate::fault::Fault;
use clock_device::{NoMemory, Text, put_before};
use clock_money::{Price, clock_price};
use clock_posting::{PostFault, post_first, sheet_lines};
use clock_setup::{Opening, ProductEntry, read_opening, read_setup, scanned_products};
use clock_terms::{Increments, Product, Setup};
use itoa::write_digits;
use std::alloc::Global;

/// Reads a set-up document. Errors: its first fault. May return `Memory`, which then replaces any
/// other result.
pub fn setup_in(alloc: Global, document: &[u8]) -> Result<Setup, Fault>
    ensures ok { IfOk result (λ setup. document_setup document.now ≡ Ok setup) }
    ensures err { IfErr result (IsRefusal Fault.Memory (read_in (document_setup document.now))) }
{
    Ok(read_setup(alloc, document)?)
}

/// Returns the price lines of some products, with clock prices at `increment` percent. May return
/// `NoMemory`.
fn prices_text(alloc: Global, products: &[Product], increment: u64) -> Result<Text, NoMemory>
    requires increment { IsIncrement increment }
    requires limits { All IsProduct products.now }
    ensures { IfOk result (λ text. text ≡ price_lines increment products.now) }
{
    let mut text = Text::new(alloc);
    for product in products {
        let name = product.name.as_slice();
        push_line(&mut text, name, product.opening, product.granule, increment)?;
    }
    Ok(text)
}

/// Like [`prices_text`], for products that borrow their names from the document.
fn entries_text(
    alloc: Global,
    products: &[ProductEntry<'_>],
    increment: u64,
) -> Result<Text, NoMemory>
    requires increment { IsIncrement increment }
    requires limits { All IsProduct products.now }
    ensures { IfOk result (λ text. text ≡ price_lines increment products.now) }
{
    let mut text = Text::new(alloc);
    for product in products {
        let name = product.name.as_bytes();
        let opening = Price::new(product.opening).unwrap();
        push_line(&mut text, name, opening, product.granule, increment)?;
    }
    Ok(text)
}

/// The most bytes that the numbers of a price line take: two numbers of 20 digits, each after a
/// space, and a line feed.
const NUMBERS_ROOM: usize = 43;

/// Writes a price, or a dash for `None`, so that it ends before index `end`. Returns the index at
/// which it begins.
#[inline(always)]
fn put_or_dash(bytes: &mut [u8], end: usize, price: Option<Price>) -> usize
    requires room { 20 ≤ end }
    requires within { end ≤ length bytes.old }
    ensures start { end ≤ result + 20 }
    ensures order { result ≤ end }
    ensures same_length { length bytes.new ≡ length bytes.old }
    ensures put { drop result bytes.new ≡ number_or_dash price ++ drop end bytes.old }
{
    match price {
        Some(price) => write_digits(price.get(), bytes, end),
        None => put_before(bytes, end, b"-"),
    }
}

/// Appends the price line of a product. Writes what follows the name into an array from its end to
/// its start, and copies it once. May return `NoMemory`; then part of the line may be appended.
fn push_line(
    text: &mut Text,
    name: &[u8],
    opening: Price,
    granule: u64,
    increment: u64,
) -> Result<(), NoMemory>
    requires increment { IsIncrement increment }
    requires granule { IsWithin 1 most_granule granule }
    ensures { OnOk result (text.new ≡ text.old ++ (name.now ++ codes " " ++ decimal opening
        ++ codes " " ++ number_or_dash (raise opening increment granule) ++ codes "\n")) }
{
    let clock = clock_price(opening, increment, granule);
    let mut numbers = [0; NUMBERS_ROOM];
    let end = put_before(&mut numbers, NUMBERS_ROOM, b"\n");
    let clock_at = put_or_dash(&mut numbers, end, clock);
    let behind_opening = put_before(&mut numbers, clock_at, b" ");
    let opening_at = put_or_dash(&mut numbers, behind_opening, Some(opening));
    let start = put_before(&mut numbers, opening_at, b" ");
    text.extend_from_slice(name)?;
    text.extend_from_slice(&numbers[start..])
}

/// Returns the opening price and the clock price of round 2 of each product of a set-up document,
/// or the document's fault. May return `Memory`, which then replaces any other result. Makes no
/// set-up of a document that is read by bytes: an allocation for each name and token would take a
/// fifth of the time.
pub fn prices_answer(alloc: Global, increment: u64, document: &[u8]) -> Result<Text, Fault>
    requires { IsIncrement increment }
    ensures ok { IfOk result
        (λ text. prices_of increment (document_setup document.now) ≡ Ok text) }
    ensures err { IfErr result
        (IsRefusal Fault.Memory (prices_of increment (document_setup document.now))) }
{
    if let Some(products) = scanned_products(alloc, document)? {
        let text = entries_text(alloc, products.as_slice(), increment);
        drop(products);
        return Ok(text?);
    }
    let setup = setup_in(alloc, document)?;
    let text = prices_text(alloc, setup.products.as_slice(), increment);
    drop(setup);
    Ok(text?)
}

/// Returns the lines of round 1, or as an error the first product without a possible next clock
/// price.
fn first_lines(alloc: Global, opening: &Opening) -> Result<Text, Fault>
    requires increment { IsIncrement opening.now.increment }
    requires grid { IsGrid (length opening.now.setup.bidders)
        (length opening.now.setup.products) opening.now.grid }
    ensures ok { IfOk result (λ text. first_round opening.now ≡ Ok text) }
    ensures err { IfErr result (IsRefusal Fault.Memory (first_round opening.now)) }
{
    let increments = Increments::Single(opening.increment);
    let posted = post_first(alloc, &opening.setup, &opening.grid, &increments);
    drop(increments);
    match posted {
        Ok(posting) => {
            let lines = sheet_lines(alloc, &opening.setup, &posting.sheet);
            drop(posting);
            Ok(lines?)
        }
        Err(PostFault::PriceLimit(product)) => Err(Fault::PriceLimit(product)),
        Err(PostFault::NoMemory) => Err(Fault::Memory),
    }
}

/// Returns the round results of round 1 for the demands of an opening document, or its fault. May
/// return `Memory`, which then replaces any other result.
pub fn opening_answer(alloc: Global, document: &[u8]) -> Result<Text, Fault>
    ensures ok { IfOk result
        (λ text. opening_lines_of (document_opening document.now) ≡ Ok text) }
    ensures err { IfErr result
        (IsRefusal Fault.Memory (opening_lines_of (document_opening document.now))) }
{
    let opening = read_opening(alloc, document)?;
    let lines = first_lines(alloc, &opening);
    drop(opening);
    lines
}
