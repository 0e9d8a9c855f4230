//! The texts of bids before their quantities. Most bids keep a demand at the clock price, so the
//! text of a product and a price serves many bidders, and is made once.

ghost use Rattle.std.specs.Prelude.{◌≡◌, ◌==◌, ◌&&◌, ◌<◌, OnOk};
ghost use Rattle.clock_views.specs.inside.Values.{Adds};
ghost use Rattle.clock_scripts.specs.Sincere.{bid_for};
ghost use Rattle.clock_scripts.specs.inside.{Bodies.{bid_text}, Prefixes.{PrefixFields, IsPrefix}};

use crate::bodies::push_bid;
use clock_device::{NoMemory, put_before};
use itoa::write_digits;
use std::alloc::Global;
use std::marker::Model;

/// The size of the array of a prefix: two numbers of 20 digits and the rest are 73 bytes, and a
/// quantity of one digit and a brace follow.
const ROOM: usize = 80;

/// The text of a bid for a product at a price before its quantity, with a comma before it.
///
/// It is in an array of a fixed size, which is copied whole. That is faster than to copy `length`
/// bytes.
#[derive(Drop)]
struct BidPrefix {
    product: u64,
    price: u64,
    text: [u8; ROOM],
    length: usize,
}

impl Model for BidPrefix {
    ghost Value = { PrefixFields };

    ghost view = { λ p. record { product = p.product; price = p.price } };

    ghost invariant = { λ p. IsPrefix p.product p.price p.text p.length };
}

impl BidPrefix {
    /// Makes the text for a product at a price. Writes it into an array from its end to its start.
    #[inline(always)]
    fn new(product: u64, price: u64) -> BidPrefix
        ensures product { result.product ≡ product }
        ensures price { result.price ≡ price }
    {
        let mut line = [0; 2 * ROOM];
        let behind_product = put_before(&mut line, ROOM, b",\"quantity\":");
        let product_at = write_digits(product, &mut line, behind_product);
        let behind_price = put_before(&mut line, product_at, b",\"product\":");
        let price_at = write_digits(price, &mut line, behind_price);
        let start = put_before(&mut line, price_at, b",{\"price\":");
        let mut text = [0; ROOM];
        text.copy_from_slice(&line[start..start + ROOM]);
        BidPrefix {
            product,
            price,
            text,
            length: ROOM - start,
        }
    }

    /// Returns whether the text is for a product at a price.
    #[inline(always)]
    fn is_for(&self, product: u64, price: u64) -> bool
        ensures { result ≡ (self.now.product == product && self.now.price == price) }
    {
        self.product == product && self.price == price
    }

    /// Appends a bid for a quantity of one digit.
    #[inline(always)]
    fn push_bid(&self, text: &mut Vec<u8>, quantity: u64) -> Result<(), NoMemory>
        requires { quantity < 10 }
        ensures { OnOk result (Adds (bid_text (bid_for self.now.product quantity self.now.price))
            text.old.items text.new.items) }
    {
        let end = text.len() + self.length;
        text.extend_from_slice(&self.text)?;
        text[end] = b'0' + quantity as u8;
        text[end + 1] = b'}';
        text.truncate(end + 2);
        Ok(())
    }
}

/// For each product the text of a bid before its quantity, at the price that was last asked for.
#[derive(Drop)]
pub struct BidPrefixes {
    list: Vec<BidPrefix>,
}

impl BidPrefixes {
    /// No text yet. Allocates nothing.
    pub fn new(alloc: Global) -> BidPrefixes {
        BidPrefixes {
            list: Vec::new(alloc),
        }
    }

    /// Makes the list long enough for a product. May return `NoMemory`.
    #[cold]
    fn reach(&mut self, product: u64) -> Result<(), NoMemory> {
        for blank in self.list.len() as u64..product {
            self.list.push(BidPrefix::new(blank, 0))?;
        }
        Ok(self.list.push(BidPrefix::new(product, 0))?)
    }

    /// Appends a bid as [`push_bid`] does, from the text for its product and price.
    #[inline(always)]
    pub(crate) fn push_bid(
        &mut self,
        text: &mut Vec<u8>,
        product: u64,
        quantity: u64,
        price: u64,
    ) -> Result<(), NoMemory>
        ensures { OnOk result
            (Adds (bid_text (bid_for product quantity price)) text.old.items text.new.items) }
    {
        if quantity < 10 {
            if let Some(prefix) = self.list.get(product as usize) {
                if prefix.is_for(product, price) {
                    return prefix.push_bid(text, quantity);
                }
            }
        }
        self.push_first_bid(text, product, quantity, price)
    }

    /// Like [`BidPrefixes::push_bid`], for the first bid at a price: makes the text for later ones.
    #[inline(never)]
    fn push_first_bid(
        &mut self,
        text: &mut Vec<u8>,
        product: u64,
        quantity: u64,
        price: u64,
    ) -> Result<(), NoMemory>
        ensures { OnOk result
            (Adds (bid_text (bid_for product quantity price)) text.old.items text.new.items) }
    {
        if quantity < 10 {
            if product >= self.list.len() as u64 {
                self.reach(product)?;
            }
            if let Some(kept) = self.list.get_mut(product as usize) {
                *kept = BidPrefix::new(product, price);
                return kept.push_bid(text, quantity);
            }
        }
        push_bid(text, product, quantity, price)
    }
}
