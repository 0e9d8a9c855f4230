//! The lines in which requests wait for room, and the indices of the requests to be tested next.

ghost use Rattle.std.specs.Prelude.{◌≡◌, ◌<◌, [], ◌∷◌, ◌++◌, ◌≤◌, ℕ, List, length, replicate, All};
ghost use Rattle.std.specs.Prelude.{IfOk, OnOk, slice_index_or, slice_set, IfSome, IfNone};
ghost use Rattle.std.specs.Prelude.{false};
ghost use Rattle.std.specs.{BinaryHeap.{heap_items}, List.Sorted.{IsPermutation}};
ghost use Rattle.clock_queue.specs.inside.Costs.{spent};
ghost use Rattle.clock_queue.specs.inside.Lines as lines;
ghost use Rattle.clock_queue.specs.inside.Ready as ready;

use crate::costs::Costs;
use clock_device::{Items, NoMemory};
use clock_terms::{Change, Kind};
use smallvec::SmallVec;
use std::alloc::Global;
use std::cmp::Reverse;
use std::collections::BinaryHeap;
use std::marker::Model;

/// A line of requests that wait for the same event, in the order of their admission. In contracts,
/// a line is the list of their indices and the list of their costs.
///
/// The cost of a request is what one block of it takes from the unused eligibility of its bidder. A
/// search spends the cost of each request that it meets with nothing left. Up to four requests are
/// stored without an allocation.
#[derive(Drop)]
pub(crate) struct Line {
    places: SmallVec<u32, 4>,
    costs: Costs,
}

impl Model for Line {
    ghost Value = { lines.LineFields };

    ghost view = { λ l. record { places = l.places.items; costs = l.costs } };

    ghost invariant = { λ l. length l.costs ≤ length l.places.items };
}

impl Line {
    /// An empty line. Allocates nothing.
    pub(crate) fn new(alloc: Global) -> Line
        ensures { result ≡ lines.empty_line }
    {
        Line {
            places: SmallVec::new(alloc),
            costs: Costs::new(alloc),
        }
    }

    /// A line of one request, the one with an index.
    fn with_one(alloc: Global, place: usize, cost: u32) -> Result<Line, NoMemory>
        ensures { IfOk result (λ line. line ≡ lines.with_waiting lines.empty_line place cost) }
    {
        let mut line = Line::new(alloc);
        match line.add(place, cost) {
            Ok(()) => Ok(line),
            Err(none) => {
                drop(line);
                Err(none)
            }
        }
    }

    /// Appends the request with an index. Also returns [`NoMemory`] for an index above 32 bits,
    /// which the requests of a round never reach.
    pub(crate) fn add(&mut self, place: usize, cost: u32) -> Result<(), NoMemory>
        ensures { OnOk result (self.new ≡ lines.with_waiting self.old place cost) }
    {
        let Ok(place) = u32::try_from(place) else {
            return Err(NoMemory);
        };
        self.places.push(place)?;
        self.costs.push(cost)?;
        Ok(())
    }

    /// The index of the first request that has blocks left and costs at most `limit`. `left` has
    /// the blocks that are left of each request.
    pub(crate) fn first_waiting(&mut self, left: &[u64], limit: u32) -> Option<usize>
        requires limit { limit < spent }
        requires places { All (λ place. place < length left.now) self.old.places }
        ensures spent { lines.IsSpent left.now self.old self.new }
        ensures found { IfSome result (lines.IsFirstWaiting left.now self.new limit) }
        ensures none { IfNone result (All (λ cost. limit < cost) self.new.costs) }
    {
        'spent: while let Some(at) = self.costs.first_within(limit) {
            let place = self.places[at] as usize;
            if left[place] > 0 {
                return Some(place);
            }
            self.costs.spend(at);
        }
        None
    }
}

/// The position of a line to which no request was ever added.
const NOWHERE: usize = usize::MAX;

/// The lines in which requests wait: for each product a line of reductions, for each bidder a line
/// of increases. In contracts, it is the list of all lines.
///
/// Most lines stay empty, so a line is made when its first request is added. `index` has the
/// position of each line in `lists`.
#[derive(Drop)]
pub(crate) struct WaitingLines {
    index: Vec<usize>,
    lists: Vec<Line>,
}

impl Model for WaitingLines {
    ghost Value = { List lines.LineFields };

    ghost view = { λ a. lines.lines_of a.index.items a.lists.items };

    ghost invariant = { λ a. lines.IsIndex a.index.items (length a.lists.items) };
}

impl WaitingLines {
    /// `count` empty lines.
    pub(crate) fn new(alloc: Global, count: usize) -> Result<WaitingLines, NoMemory>
        ensures { IfOk result (λ new. new ≡ replicate count lines.empty_line) }
    {
        Ok(WaitingLines {
            index: vec![in alloc; NOWHERE; count]?,
            lists: Vec::new(alloc),
        })
    }

    /// Appends the request with an index to a line.
    pub(crate) fn add(&mut self, line: usize, place: usize, cost: u32) -> Result<(), NoMemory>
        requires { line < length self.old }
        ensures { OnOk result (self.new ≡ slice_set self.old line
            (lines.with_waiting (slice_index_or self.old line lines.empty_line) place cost)) }
    {
        let at = self.index[line];
        if at < self.lists.len() {
            return self.lists[at].add(place, cost);
        }
        let first = Line::with_one(*self.lists.allocator(), place, cost)?;
        self.lists.push(first)?;
        let last = self.lists.len() - 1;
        self.index[line] = last;
        Ok(())
    }

    /// The index of the first request of a line that has blocks left and costs at most `limit`.
    pub(crate) fn first_waiting(&mut self, line: usize, left: &[u64], limit: u32) -> Option<usize>
        requires line { line < length self.old }
        requires limit { limit < spent }
        requires places { All (λ place. place < length left.now)
            (slice_index_or self.old line lines.empty_line).places }
        ensures others { self.new
            ≡ slice_set self.old line (slice_index_or self.new line lines.empty_line) }
        ensures spent { lines.IsSpent left.now (slice_index_or self.old line lines.empty_line)
            (slice_index_or self.new line lines.empty_line) }
        ensures found { IfSome result
            (lines.IsFirstWaiting left.now (slice_index_or self.new line lines.empty_line) limit) }
        ensures none { IfNone result
            (All (λ cost. limit < cost) (slice_index_or self.new line lines.empty_line).costs) }
    {
        let at = self.index[line];
        if at < self.lists.len() {
            return self.lists[at].first_waiting(left, limit);
        }
        None
    }
}

/// The number of the line of a product's reductions.
pub(crate) fn product_line(product: u32) -> usize
    ensures { result ≡ lines.product_line product }
{
    2 * product as usize
}

/// The number of the line of a bidder's increases.
pub(crate) fn bidder_line(bidder: u32) -> usize
    ensures { result ≡ lines.bidder_line bidder }
{
    2 * bidder as usize + 1
}

/// The number of the line in which a request waits: a reduction in that of its product, an increase
/// in that of its bidder.
pub(crate) fn line_of(change: &Change) -> usize
    ensures { result ≡ lines.line_of change.now }
{
    match change.kind {
        Kind::Reduction => product_line(change.product),
        Kind::Increase => bidder_line(change.bidder),
    }
}

/// The number of lines with those of a request among them: at least `count`.
pub(crate) fn with_lines_for(count: usize, change: &Change) -> usize
    ensures most { count ≤ result }
    ensures enough { lines.HasLines result change.now }
{
    let product = 2 * change.product as usize + 2;
    let bidder = 2 * change.bidder as usize + 2;
    count.max(product).max(bidder)
}

/// The indices of the requests to be tested next. In contracts, it is a list of them in any order.
///
/// A marked index is in the heap and is not added a second time, so the heap never has more entries
/// than there are requests.
#[derive(Drop)]
pub(crate) struct Ready {
    heap: BinaryHeap<Reverse<usize>>,
    marks: Items<bool>,
}

impl Model for Ready {
    ghost Value = { List ℕ };

    ghost view = { λ a. ready.places_of (heap_items a.heap) };

    ghost invariant = { λ a. ready.IsMarked (heap_items a.heap) a.marks };
}

impl Ready {
    /// No index yet, of `count` requests.
    pub(crate) fn new(alloc: Global, count: usize) -> Result<Ready, NoMemory>
        ensures { IfOk result (λ ready. ready ≡ []) }
    {
        Ok(Ready {
            heap: BinaryHeap::new(alloc),
            marks: Items::from_vec(vec![in alloc; false; count]?),
        })
    }

    /// Adds an index, unless it is marked.
    pub(crate) fn add(&mut self, place: usize) -> Result<(), NoMemory>
        ensures { OnOk result (ready.IsAdded self.old place self.new) }
    {
        if is_marked(&self.marks, place) {
            return Ok(());
        }
        self.heap.push(Reverse(place))?;
        mark(&mut self.marks, place, true);
        Ok(())
    }

    /// Removes the least index, and returns it.
    pub(crate) fn pop(&mut self) -> Option<usize>
        ensures taken { IfSome result (λ place. IsPermutation self.old (place ∷ self.new)) }
        ensures least { IfSome result (λ place. All (λ other. place ≤ other) self.new) }
        ensures none { IfNone result (self.old ≡ []) }
        ensures same { IfNone result (self.new ≡ []) }
    {
        let Reverse(place) = self.heap.pop()?;
        mark(&mut self.marks, place, false);
        Some(place)
    }
}

/// Whether an index is marked.
fn is_marked(marks: &Items<bool>, place: usize) -> bool
    ensures { result ≡ slice_index_or marks.now place false }
{
    place < marks.len() && marks.as_slice()[place]
}

/// Marks an index, or removes its mark.
fn mark(marks: &mut Items<bool>, place: usize, is_ready: bool)
    ensures { marks.new ≡ slice_set marks.old place is_ready }
{
    if place < marks.len() {
        marks.set(place, is_ready);
    }
}
