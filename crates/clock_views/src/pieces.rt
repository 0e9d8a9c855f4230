//! Appends parts of compact JSON to a text. The text has capacity for each part.

ghost use Rattle.std.specs.Prelude.{◌≡◌, ◌≤◌, ◌+◌, ◌-◌, ◌*◌, ◌++◌, ℕ, List, decimal, drop, length};
ghost use Rattle.std.specs.Prelude.{nat_lt};
ghost use Rattle.std.specs.List.{AllWithin};
ghost use Rattle.serde_json.specs.{Data.{string}, Written.{compact_text, comma_if}};
ghost use Rattle.clock_terms.specs.Limits.{IsName};
ghost use Rattle.clock_views.specs.Values.{whole, whole_or_null, list_of, number_if, true_or_false};
ghost use Rattle.clock_views.specs.inside.Rooms.{room_of_number, room_of_name, room_of_truth};
ghost use Rattle.clock_views.specs.inside.Rooms.{room_of_item, room_of_array};
ghost use Rattle.clock_views.specs.inside.Values.{rest_text, Adds};

use clock_api::NoRoom;
use clock_device::{Bounded, Text};
use clock_terms::PositiveDemands;

/// A head and the page after it, or the size of the page for which an allocation failed.
pub type Headed = Result<Text, NoRoom>;

/// Appends a label, such as `,"round":`, and a number.
pub(crate) fn push_number(text: &mut Bounded<u8>, label: &[u8], number: u64)
    requires { length label.now + room_of_number ≤ text.old.room }
    ensures adds { Adds (label.now ++ decimal number) text.old.items text.new.items }
    ensures room { text.old.room ≤ text.new.room + (length label.now + room_of_number) }
{
    text.extend_from_slice(label);
    text.push_number(number);
}

/// Appends a label and a number, if there is a number.
pub(crate) fn push_number_if(text: &mut Bounded<u8>, label: &[u8], number: Option<u64>)
    requires { length label.now + room_of_number ≤ text.old.room }
    ensures adds { Adds (number_if label.now number) text.old.items text.new.items }
    ensures room { text.old.room ≤ text.new.room + (length label.now + room_of_number) }
{
    if let Some(number) = number {
        push_number(text, label, number);
    }
}

/// Appends a label and a number, or null if there is no number.
pub(crate) fn push_number_or_null(text: &mut Bounded<u8>, label: &[u8], number: Option<u64>)
    requires { length label.now + room_of_number ≤ text.old.room }
    ensures adds { Adds
        (label.now ++ compact_text (whole_or_null number)) text.old.items text.new.items }
    ensures room { text.old.room ≤ text.new.room + (length label.now + room_of_number) }
{
    text.extend_from_slice(label);
    match number {
        Some(number) => text.push_number(number),
        None => text.extend_from_slice(b"null"),
    }
}

/// Appends a label and a truth value.
pub(crate) fn push_truth(text: &mut Bounded<u8>, label: &[u8], truth: bool)
    requires { length label.now + room_of_truth ≤ text.old.room }
    ensures adds { Adds (label.now ++ true_or_false truth) text.old.items text.new.items }
    ensures room { text.old.room ≤ text.new.room + (length label.now + room_of_truth) }
{
    text.extend_from_slice(label);
    let word = if truth { "true" } else { "false" };
    text.extend_from_slice(word.as_bytes());
}

/// Appends a label and a name in quotes. A name has no character that JSON escapes.
pub(crate) fn push_name(text: &mut Bounded<u8>, label: &[u8], name: &[u8])
    requires name { IsName name.now }
    requires room { length label.now + room_of_name ≤ text.old.room }
    ensures adds { Adds
        (label.now ++ compact_text (string name.now)) text.old.items text.new.items }
    ensures room { text.old.room ≤ text.new.room + (length label.now + room_of_name) }
{
    text.extend_from_slice(label);
    text.push(b'"');
    text.extend_from_slice(name);
    text.push(b'"');
}

/// Appends the comma before an item, if the item is not the first.
pub(crate) fn push_comma_if(text: &mut Bounded<u8>, later: bool)
    requires { 1 ≤ text.old.room }
    ensures adds { Adds (comma_if later) text.old.items text.new.items }
    ensures room { text.old.room ≤ text.new.room + 1 }
{
    if later {
        text.push(b',');
    }
}

/// Appends zeros as items of an array of demands, for the products `from..until`.
fn push_zeros(text: &mut Bounded<u8>, from: usize, until: usize)
    requires order { from ≤ until }
    requires room { room_of_item * (until - from) ≤ text.old.room }
    ensures adds { (row : List ℕ) → until ≤ length row → AllWithin (λ demand. demand
        ≡ 0) row from until → text.new.items ++ rest_text whole (nat_lt 0 until) (drop until row)
        ≡ text.old.items ++ rest_text whole (nat_lt 0 from) (drop from row) }
    ensures room { text.old.room ≤ text.new.room + room_of_item * (until - from) }
{
    for product in from..until {
        push_comma_if(text, product > 0);
        text.push_number(0);
    }
}

/// Appends a label and the array of a row's demands. The loop visits only demands above 0.
pub(crate) fn push_demands(text: &mut Bounded<u8>, label: &[u8], mut held: PositiveDemands<'_>)
    requires first { AllWithin (λ demand. demand ≡ 0) held.demands 0 held.from }
    requires room { length label.now
        + room_of_array room_of_item (length held.demands) ≤ text.old.room }
    ensures adds { Adds (label.now
        ++ compact_text (list_of whole held.entry.demands)) text.old.items text.new.items }
    ensures room { text.old.room ≤ text.new.room
        + (length label.now + room_of_array room_of_item (length held.entry.demands)) }
{
    let products = held.products();
    text.extend_from_slice(label);
    text.push(b'[');
    let mut from = 0;
    'held: while let Some(one) = held.next() {
        push_zeros(text, from, one.product);
        push_comma_if(text, one.product > 0);
        text.push_number(one.demand);
        from = one.product + 1;
    }
    push_zeros(text, from, products);
    text.push(b']');
}
