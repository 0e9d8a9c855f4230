//! A round, as the caller of a library plays it.

use crate::comparing::assert_is;
use clock_bids::Bid;
use clock_fixtures::ONE_PRODUCT;
use clock_house::House;
use clock_processor::Plain;
use clock_setup::read_setup;
use clock_terms::Increments;
use std::test::Fail;

/// A bid for the one product.
fn blocks(quantity: u64, price: u64) -> Bid {
    Bid {
        product: 0,
        quantity,
        price,
    }
}

/// Plays a round: the first bidder asks for two blocks, the second for one.
fn play(house: &mut House<Plain>) -> Option<()> {
    if house.setup().bidders.as_slice().len() != 2 {
        return None;
    }
    house.put_sheet(0, house.round(), &[blocks(2, 100)]).ok()?;
    house.put_sheet(1, house.round(), &[blocks(1, 100)]).ok()?;
    house
        .close(house.round(), &Increments::Single(10), &[])
        .ok()
}

/// Whether the auction has ended in round 1, the current round, and the first bidder's eligibility.
fn shown(house: &House<Plain>) -> Option<(bool, u64, u64)> {
    if house.setup().bidders.as_slice().len() != 2 {
        return None;
    }
    let sheet = house.sheet(1)?;
    Some((sheet.ended, house.round(), house.own(0).eligibility))
}

/// Plays a round, and returns what the auction shows then.
fn play_and_show(house: &mut House<Plain>) -> Option<(bool, u64, u64)> {
    play(house)?;
    shown(house)
}

#[test]
fn a_round_of_a_house(rt: HostRuntime) -> Result<(), Fail> {
    let setup = read_setup(rt.alloc(), ONE_PRODUCT.as_bytes())?;
    let mut house = House::new(rt.alloc(), setup, Plain)?;
    let shown = play_and_show(&mut house);
    drop(house);
    assert_is(&rt, shown, Some((false, 2, 3)));
    Ok(())
}
