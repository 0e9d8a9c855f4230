ghost use Rattle.std.specs.Prelude.{◌≡◌, ◌+◌, ◌<◌, ◌≤◌, [], ◌∷◌, length, map, min, replicate};
ghost use Rattle.std.specs.Prelude.{IfOk, OnOk, All};
ghost use Rattle.clock_terms.specs.Limits.{most_units};
ghost use Rattle.clock_processor.specs.{Board.{IsBoard}, Requests.{CanSettle}};
ghost use Rattle.clock_processor.specs.Settlement.{IsSettlement, IsProperEnd};
ghost use Rattle.clock_queue.specs.Bound.{BoundsEachLine, IsWithinBlocks, IsWithinReads};
ghost use Rattle.clock_queue.specs.Bound.{IsWithinTests};
ghost use Rattle.clock_queue.specs.inside.Costs.{spent};
ghost use Rattle.clock_queue.specs.inside.Lines as lines;
ghost use Rattle.clock_queue.specs.inside.Queue.{GoesOn, HasWoken, HasWokenProduct, IsAppliedWhole};
ghost use Rattle.clock_queue.specs.inside.Queue.{HasSoundLines, IsTested, IsTracking};
ghost use Rattle.clock_queue.specs.inside.Queue.{StaysWithinReads, StaysWithinTests, after_test};
ghost use Rattle.clock_queue.specs.inside.Queue.{line_in, room_in};

use crate::lines::{Ready, WaitingLines, bidder_line, line_of, product_line, with_lines_for};
use crate::woken::{Reads, Requests};
use clock_device::NoMemory;
use clock_processor::{Board, Settled};
use clock_terms::{Amounts, Change, Kind, MOST_UNITS};
use std::alloc::Global;

/// Processes the requests as [`Woken`](crate::Woken) says, and counts how often it reads one: at
/// most three times for each request, and three times for each application. Requires a counter at
/// 0.
///
/// An application takes at least one block. So the number of blocks that all requests ask for
/// bounds the number of applications.
pub fn settle_by_queue(
    alloc: Global,
    board: Board,
    requests: &Requests,
    reads: &mut Reads,
) -> Result<Settled, NoMemory>
    requires can { CanSettle board requests.now }
    requires none { reads.old ≡ 0 }
    ensures settlement { IfOk result
        (λ settled. IsSettlement board.entry requests.now settled) }
    ensures proper { IfOk result (λ settled. IsProperEnd board.entry requests.now settled) }
    ensures tests { IfOk result (λ settled. IsWithinTests requests.now settled) }
    ensures blocks { IfOk result (λ settled. IsWithinBlocks requests.now settled) }
    ensures reads { IfOk result (λ settled. IsWithinReads requests.now settled reads.new) }
{
    let Lists { left, ready, lines } = match first_lists(alloc, requests, reads) {
        Ok(lists) => lists,
        Err(none) => {
            drop(board);
            return Err(none);
        }
    };
    let mut queue = Queue {
        board,
        left,
        admitted: 0,
        ready,
        lines,
    };
    match queue.settle_all(requests, reads) {
        Ok(()) => Ok(queue.board.end(queue.left)),
        Err(none) => {
            drop(queue);
            Err(none)
        }
    }
}

/// Proves two simpler bounds from that of [`Woken`](crate::Woken): for each application at most two
/// tests, and at most m, if no product and no bidder has more than m requests. Does nothing when it
/// runs: its contract is the law.
pub fn law_of_tests()
    ensures { BoundsEachLine }
{}

/// The lists of a [`Queue`].
#[derive(Drop)]
struct Lists {
    left: Amounts,
    ready: Ready,
    lines: WaitingLines,
}

/// The lists at the start of bid processing: nothing is applied, ready, or waiting. Reads each
/// request once.
fn first_lists(alloc: Global, requests: &Requests, reads: &mut Reads) -> Result<Lists, NoMemory>
    requires none { reads.old ≡ 0 }
    ensures left { IfOk result (λ lists. lists.left ≡ map (λ change. change.amount) requests.now) }
    ensures ready { IfOk result (λ lists. lists.ready ≡ []) }
    ensures empty { IfOk result
        (λ lists. lists.lines ≡ replicate (length lists.lines) lines.empty_line) }
    ensures enough { IfOk result
        (λ lists. All (lines.HasLines (length lists.lines)) requests.now) }
    ensures reads { OnOk result (reads.new ≤ length requests.now) }
{
    let (left, count) = amounts_and_lines(alloc, requests, reads)?;
    Ok(Lists {
        left,
        ready: Ready::new(alloc, requests.len())?,
        lines: WaitingLines::new(alloc, count)?,
    })
}

/// The amount of each request, and how many lines their bidders and products need. Reads each
/// request once.
fn amounts_and_lines(
    alloc: Global,
    requests: &Requests,
    reads: &mut Reads,
) -> Result<(Amounts, usize), NoMemory>
    requires none { reads.old ≡ 0 }
    ensures amounts { IfOk result
        (λ both. both.0 ≡ map (λ change. change.amount) requests.now) }
    ensures enough { IfOk result (λ both. All (lines.HasLines both.1) requests.now) }
    ensures reads { OnOk result (reads.new ≤ length requests.now) }
{
    let mut amounts = Amounts::with_capacity(alloc, requests.len())?;
    let mut count: usize = 0;
    for place in 0..requests.len() {
        let change = requests.read(place, reads);
        amounts.push(change.amount);
        count = with_lines_for(count, change);
    }
    Ok((amounts.into_items(), count))
}

/// The state of bid processing: the board, the blocks left of each request, and what waits.
#[derive(Drop)]
struct Queue<'a> {
    board: Board<'a>,
    left: Amounts,
    admitted: usize,
    ready: Ready,
    lines: WaitingLines,
}

impl<'a> Queue<'a> {
    /// Admits all requests, one after the other, and tests ready requests until none is left.
    fn settle_all(&mut self, requests: &Requests, reads: &mut Reads) -> Result<(), NoMemory>
        requires in_order { HasSoundLines requests.now self.old }
        requires tracked { IsTracking requests.now self.old self.old.ready }
        requires counts { StaysWithinTests requests.now self.old }
        requires reads { StaysWithinReads requests.now self.old reads.old }
        requires none { self.old.ready ≡ [] }
        requires first { self.old.admitted ≡ 0 }
        ensures goes_on { OnOk result (GoesOn requests.now self.old self.new) }
        ensures reads { OnOk result (StaysWithinReads requests.now self.new reads.new) }
        ensures none { OnOk result (self.new.ready ≡ []) }
        ensures admitted { OnOk result (self.new.admitted ≡ length requests.now) }
    {
        for _place in 0..requests.len() {
            self.settle_next(requests, reads)?;
        }
        Ok(())
    }

    /// Tests the next request and admits it, then tests ready requests until none is left. The next
    /// request never enters the heap, because most requests make no other one ready.
    fn settle_next(&mut self, requests: &Requests, reads: &mut Reads) -> Result<(), NoMemory>
        requires in_order { HasSoundLines requests.now self.old }
        requires tracked { IsTracking requests.now self.old self.old.ready }
        requires counts { StaysWithinTests requests.now self.old }
        requires reads { StaysWithinReads requests.now self.old reads.old }
        requires none { self.old.ready ≡ [] }
        requires more { self.old.admitted < length requests.now }
        ensures goes_on { OnOk result (GoesOn requests.now self.old self.new) }
        ensures reads { OnOk result (StaysWithinReads requests.now self.new reads.new) }
        ensures none { OnOk result (self.new.ready ≡ []) }
        ensures admitted { OnOk result (self.new.admitted ≡ self.old.admitted + 1) }
    {
        let place = self.admitted;
        self.test(requests, reads, place)?;
        self.admit(requests, reads)?;
        while let Some(place) = self.ready.pop() {
            self.test(requests, reads, place)?;
        }
        Ok(())
    }

    /// Tests a request, and applies it by its whole room if it has any. It is the first of the
    /// ready requests, or the next one to be admitted.
    fn test(&mut self, requests: &Requests, reads: &mut Reads, place: usize) -> Result<(), NoMemory>
        requires in_order { HasSoundLines requests.now self.old }
        requires tracked { IsTracking requests.now self.old (place ∷ self.old.ready) }
        requires within { place < length requests.now }
        requires reads { StaysWithinReads requests.now self.old reads.old }
        ensures tested { OnOk result (IsTested requests.now place self.old self.new) }
        ensures reads { OnOk result (StaysWithinReads requests.now self.new reads.new) }
    {
        let room = self.room(requests, reads, place);
        if room == 0 {
            return Ok(());
        }
        self.apply(requests, reads, place, room)?;
        Ok(())
    }

    /// Tests the room of a request.
    fn room(&mut self, requests: &Requests, reads: &mut Reads, place: usize) -> u64
        requires in_order { HasSoundLines requests.now self.old }
        requires within { place < length requests.now }
        requires reads { StaysWithinReads requests.now self.old reads.old }
        ensures room { result ≡ room_in requests.now self.old place }
        ensures counted { self.new ≡ after_test self.old }
        ensures is_board { IsBoard self.new.board.products self.new.board.eligibilities
            self.new.board.grid }
        ensures reads { StaysWithinReads requests.now self.new reads.new }
    {
        let change = requests.read(place, reads);
        let left = self.left.as_slice()[place];
        self.board.room(change, left)
    }

    /// Applies a request by its whole room. Makes ready the first request that waits for its
    /// product and the first that waits for its bidder, if they may have room now.
    fn apply(
        &mut self,
        requests: &Requests,
        reads: &mut Reads,
        place: usize,
        room: u64,
    ) -> Result<(), NoMemory>
        requires in_order { HasSoundLines requests.now self.old }
        requires tracked { IsTracking requests.now self.old (place ∷ self.old.ready) }
        requires within { place < length requests.now }
        requires is_board { IsBoard self.old.board.products self.old.board.eligibilities
            self.old.board.grid }
        requires room { room ≡ room_in requests.now self.old place }
        requires positive { 0 < room }
        requires reads { StaysWithinReads requests.now self.old reads.old }
        ensures applied { OnOk result (IsAppliedWhole requests.now place self.old self.new) }
        ensures reads { OnOk result (StaysWithinReads requests.now self.new reads.new) }
    {
        let change = requests.read(place, reads);
        let left = self.left.as_slice()[place];
        let unused = self.board.apply(change, room);
        self.left.set(place, left - room);
        self.wake_product(change, left - room)?;
        self.wake_bidder(change, unused)
    }

    /// Makes ready the first request that waits for the product of an applied request. `rest` is
    /// what is left of the applied request. A reduction with blocks left has used up the excess
    /// demand of its product, so no other reduction of the product has room.
    fn wake_product(&mut self, change: &Change, rest: u64) -> Result<(), NoMemory>
        requires line { lines.product_line change.now.product < length self.old.lines }
        requires places { All (λ place. place < length self.old.left)
            (line_in self.old (lines.product_line change.now.product)).places }
        ensures { OnOk result (HasWokenProduct change.now rest self.old self.new) }
    {
        if change.kind == Kind::Reduction && rest > 0 {
            return Ok(());
        }
        self.wake(product_line(change.product), 0)
    }

    /// Makes ready the first request that waits for the bidder of an applied request. `unused` is
    /// the bidder's unused eligibility, which the request's cost must not exceed.
    fn wake_bidder(&mut self, change: &Change, unused: u64) -> Result<(), NoMemory>
        requires line { lines.bidder_line change.now.bidder < length self.old.lines }
        requires places { All (λ place. place < length self.old.left)
            (line_in self.old (lines.bidder_line change.now.bidder)).places }
        ensures { OnOk result (HasWoken (lines.bidder_line change.now.bidder)
            (min unused most_units) self.old self.new) }
    {
        self.wake(bidder_line(change.bidder), unused.min(MOST_UNITS) as u32)
    }

    /// Makes ready the first request of a line that has blocks left and costs at most `limit`.
    fn wake(&mut self, line: usize, limit: u32) -> Result<(), NoMemory>
        requires line { line < length self.old.lines }
        requires limit { limit < spent }
        requires places { All (λ place. place < length self.old.left)
            (line_in self.old line).places }
        ensures { OnOk result (HasWoken line limit self.old self.new) }
    {
        if let Some(place) = self.lines.first_waiting(line, self.left.as_slice(), limit) {
            self.ready.add(place)?;
        }
        Ok(())
    }

    /// Admits the next request. Requires that it has no room. If it has blocks left, it waits in
    /// its line.
    fn admit(&mut self, requests: &Requests, reads: &mut Reads) -> Result<(), NoMemory>
        requires in_order { HasSoundLines requests.now self.old }
        requires tracked { IsTracking requests.now self.old self.old.ready }
        requires more { self.old.admitted < length requests.now }
        requires no_room { room_in requests.now self.old self.old.admitted ≡ 0 }
        requires reads { StaysWithinReads requests.now self.old reads.old }
        ensures in_order { OnOk result (HasSoundLines requests.now self.new) }
        ensures tracked { OnOk result (IsTracking requests.now self.new self.new.ready) }
        ensures same { OnOk result (self.new
            ≡ record self.old { admitted = self.old.admitted + 1; lines = self.new.lines }) }
        ensures reads { OnOk result (StaysWithinReads requests.now self.new reads.new) }
    {
        let place = self.admitted;
        prove!(place < requests.len());
        self.admitted += 1;
        if self.left.as_slice()[place] == 0 {
            return Ok(());
        }
        let change = requests.read(place, reads);
        let cost = cost_of(&self.board, change);
        self.lines.add(line_of(change), place, cost)?;
        Ok(())
    }
}

/// What a block of a request costs in its line: the product's bidding units if it is an increase,
/// nothing if it is a reduction.
fn cost_of(board: &Board, change: &Change) -> u32
    requires { change.now.product < length board.now.products }
    ensures { result ≡ lines.cost_of board.now.products change.now }
{
    match change.kind {
        Kind::Reduction => 0,
        Kind::Increase => board.units(change.product) as u32,
    }
}
