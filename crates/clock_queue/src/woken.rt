//! The event queue as a processor, which gives the queue its requests in a form that counts each
//! read.

ghost use Rattle.std.specs.Prelude.{◌≡◌, ◌<◌, length, slice_index_or, IfOk};
ghost use Rattle.clock_processor.specs.{Board.{one_more}, Requests.{CanSettle}};
ghost use Rattle.clock_processor.specs.Settlement.{IsSettlement, IsProperEnd};
ghost use Rattle.clock_processor.specs.Settling.{no_change};
ghost use Rattle.clock_queue.specs.Bound.{IsWithinReads, IsWithinTests};

use crate::queue::settle_by_queue;
use clock_device::NoMemory;
use clock_processor::{Board, Processor, Settled};
use clock_terms::{Change, Changes};
use std::alloc::Global;
use std::marker::Model;

/// The event queue. It tests each request when it admits it, and at most two requests after each
/// application.
///
/// The two are the first request that waits for the product, and the first that waits for the
/// bidder and costs at most its unused eligibility. They are enough. Either all reductions of a
/// product have room or none has. A bidder's increase has room if a block of it costs at most the
/// unused eligibility, which the board returns when it applies a request.
#[derive(Clone, Copy, Debug, Default)]
pub struct Woken;

impl Processor for Woken {
    /// Processes the requests as [`Processor::settle`] says. Makes at most one test for each
    /// request, and at most two for each application. If no product and no bidder has two requests,
    /// an application causes at most one test.
    fn settle(&self, alloc: Global, board: Board, changes: &Changes) -> Result<Settled, NoMemory>
        requires { CanSettle board changes.now }
        ensures settlement { IfOk result (λ settled. IsSettlement board.entry changes.now settled) }
        ensures proper { IfOk result (λ settled. IsProperEnd board.entry changes.now settled) }
        ensures tests { IfOk result (λ settled. IsWithinTests changes.now settled) }
    {
        let (settled, _reads) = Woken::settle_counted(alloc, board, changes)?;
        Ok(settled)
    }
}

impl Woken {
    /// Processes the requests as [`Woken::settle`] does, and returns how often it read one.
    pub fn settle_counted(
        alloc: Global,
        board: Board,
        changes: &Changes,
    ) -> Result<(Settled, u64), NoMemory>
        requires { CanSettle board changes.now }
        ensures settlement { IfOk result
            (λ both. IsSettlement board.entry changes.now both.0) }
        ensures proper { IfOk result (λ both. IsProperEnd board.entry changes.now both.0) }
        ensures tests { IfOk result (λ both. IsWithinTests changes.now both.0) }
        ensures reads { IfOk result (λ both. IsWithinReads changes.now both.0 both.1) }
    {
        let (requests, mut reads) = Requests::counted(changes);
        let settled = settle_by_queue(alloc, board, &requests, &mut reads)?;
        Ok((settled, reads.count()))
    }
}

/// The requests in the order of processing. In contracts, it is their list.
///
/// The list has no other reader than [`Requests::read`], which counts. So the queue, which gets its
/// requests in this form, reads none without a count.
#[derive(Drop)]
pub struct Requests<'a> {
    list: &'a Changes,
}

impl<'a> Model for Requests<'a> {
    ghost use Rattle.std.specs.Prelude.{List};
    ghost use Rattle.clock_terms.specs.declared.change.Change.{Change};

    ghost Value = { List Change };

    ghost view = { λ r. r.list.now };
}

/// How often a request was read, up to the greatest `u64`. In contracts, it is this count.
///
/// Only this module makes one, and it returns none. So the queue has no second counter, by which it
/// could read without a count in the first.
#[derive(Drop)]
pub struct Reads {
    count: u64,
}

impl Model for Reads {
    ghost use Rattle.std.specs.Prelude.{ℕ};

    ghost Value = { ℕ };

    ghost view = { λ r. r.count };
}

impl Reads {
    /// How often a request was read.
    fn count(&self) -> u64
        ensures { result ≡ self.now }
    {
        self.count
    }
}

impl<'a> Requests<'a> {
    /// The requests of a list, and a counter at 0. Nothing else makes a counter.
    fn counted(changes: &'a Changes) -> (Requests<'a>, Reads)
        ensures list { result.0 ≡ changes.now }
        ensures none { result.1 ≡ 0 }
    {
        (Requests { list: changes }, Reads { count: 0 })
    }

    /// The number of requests.
    pub fn len(&self) -> usize
        ensures { result ≡ length self.now }
    {
        self.list.len()
    }

    /// The request with an index. Adds one to the counter.
    pub fn read(&self, place: usize, reads: &mut Reads) -> &Change
        requires { place < length self.now }
        ensures request { result.now ≡ slice_index_or self.now place no_change }
        ensures counted { reads.new ≡ one_more reads.old }
    {
        reads.count = reads.count.saturating_add(1);
        &self.list.as_slice()[place]
    }
}
