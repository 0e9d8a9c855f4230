ghost use Rattle.std.specs.Prelude.{◌≡◌, ◌≤◌, length, OnSome, All, ℕ};
ghost use Rattle.clock_processor.specs.{Board.{IsBoard}, Requests.{IsRequest}};
ghost use Rattle.clock_processor.specs.inside.UnderWay.{IsUnderWay, SameButTests, progress_of};
ghost use Rattle.clock_processor.specs.Settling as settling;

use crate::board::Board;
use crate::processor::{Processor, Settled, amounts_of};
use clock_device::NoMemory;
use clock_terms::{Amounts, Change, Changes};
use std::alloc::Global;

/// The rescanned list: after each application, tests the admitted requests again from the first on.
#[derive(Clone, Copy, Debug, Default)]
pub struct Plain;

impl Processor for Plain {
    fn settle(&self, alloc: Global, board: Board, changes: &Changes) -> Result<Settled, NoMemory> {
        let mut board = board;
        let mut left = amounts_of(alloc, changes.as_slice())?;
        rescan(&mut board, changes.as_slice(), &mut left);
        Ok(board.end(left))
    }
}

/// Applies the first admitted request with room, or admits the next request if none has room, until
/// all are admitted and none has room.
fn rescan(board: &mut Board, changes: &[Change], left: &mut Amounts)
    requires { IsUnderWay board.old changes.now left.old 0 }
    ensures ended { (n : ℕ) × settling.Settles board.old.products board.old.eligibilities
        changes.now (progress_of board.old 0 left.old) (progress_of board.new n left.new) }
    ensures terms { (board.new.products ≡ board.old.products)
        × (board.new.eligibilities ≡ board.old.eligibilities) }
{
    let mut admitted: usize = 0;
    'rescan: loop {
        match first_with_room(board, changes, left.as_slice(), admitted) {
            Some(place) => {
                let change = &changes[place];
                let amount = left[place];
                let room = board.room(change, amount);
                board.apply(change, room);
                left.set(place, amount - room);
            }
            None if admitted < changes.len() => admitted += 1,
            None => return,
        }
    }
}

/// The index of the first admitted request with room.
fn first_with_room(
    board: &mut Board,
    changes: &[Change],
    left: &[u64],
    admitted: usize,
) -> Option<usize>
    requires admitted { admitted ≤ length changes.now }
    requires left { length left.now ≡ length changes.now }
    requires requests { All
        (IsRequest (length board.old.eligibilities) (length board.old.products)) changes.now }
    ensures found { result ≡ settling.first_with_room board.old.products board.old.eligibilities
        changes.now (progress_of board.old admitted left.now) }
    ensures same { SameButTests board.old board.new }
    ensures in_order { OnSome result
        (IsBoard board.new.products board.new.eligibilities board.new.grid) }
{
    for i in 0..admitted {
        if board.room(&changes[i], left[i]) > 0 {
            return Some(i);
        }
    }
    None
}
