//! A list of costs that finds the first one within a limit without reading each.

ghost use Rattle.std.specs.Prelude.{◌≡◌, ◌<◌, ◌≤◌, ◌+◌, ◌*◌, [], ◌∷◌, ◌++◌, ℕ, List, length, All};
ghost use Rattle.std.specs.Prelude.{IfSome, IfNone, OnOk, OnErr, slice_index, slice_set};
ghost use Rattle.clock_queue.specs.inside.Costs.{AreAbove, AreFrom, HasBounds, IsFirstWithin};
ghost use Rattle.clock_queue.specs.inside.Costs.{spent, with_bound};

use clock_device::NoMemory;
use smallvec::SmallVec;
use std::alloc::Global;
use std::marker::Model;

/// The number of costs in a block, which share a bound.
const BLOCK: usize = 64;

/// A cost above every limit: `first_within` never finds it.
const SPENT: u32 = u32::MAX;

/// A list of costs, in bidding units of a block. In contracts, it is the list of the costs.
///
/// The costs form blocks of 64, each with a bound that no cost of the block is below. A search
/// skips a block if its bound is above the limit. It skips the first `passed` blocks in one step,
/// because all of their costs are spent. Up to four costs and the bound of the first block are
/// stored without an allocation.
#[derive(Drop)]
pub(crate) struct Costs {
    costs: SmallVec<u32, 4>,
    bounds: SmallVec<u32, 1>,
    passed: usize,
}

impl Model for Costs {
    ghost Value = { List ℕ };

    ghost view = { λ c. c.costs.items };

    ghost invariant = { λ c. HasBounds c.costs.items c.bounds.items c.passed };
}

impl Costs {
    /// An empty list. Allocates nothing.
    pub(crate) fn new(alloc: Global) -> Costs
        ensures { result ≡ [] }
    {
        Costs {
            costs: SmallVec::new(alloc),
            bounds: SmallVec::new(alloc),
            passed: 0,
        }
    }

    /// Appends a cost. On [`NoMemory`] the costs are as before.
    pub(crate) fn push(&mut self, cost: u32) -> Result<(), NoMemory>
        ensures ok { OnOk result (self.new ≡ self.old ++ cost ∷ []) }
        ensures err { OnErr result (self.new ≡ self.old) }
    {
        let block = self.costs.len() / BLOCK;
        make_bound(&mut self.bounds, block)?;
        self.costs.push(cost)?;
        self.bounds[block] = self.bounds[block].min(cost);
        self.passed = self.passed.min(block);
        Ok(())
    }

    /// Spends the cost at an index, so that no search finds it again.
    pub(crate) fn spend(&mut self, place: usize)
        requires { place < length self.old }
        ensures { self.new ≡ slice_set self.old place spent }
    {
        self.costs[place] = SPENT;
        let block = place / BLOCK;
        self.bounds[block] = least_in(self.costs.as_slice(), block);
        'passed: while self.passed < self.bounds.len() && self.bounds[self.passed] == SPENT {
            self.passed += 1;
        }
    }

    /// The index of the first cost that is at most `limit`.
    pub(crate) fn first_within(&self, limit: u32) -> Option<usize>
        requires { limit < spent }
        ensures found { IfSome result (IsFirstWithin self.now limit) }
        ensures none { IfNone result (All (λ cost. limit < cost) self.now) }
    {
        for block in self.passed..self.bounds.len() {
            if self.bounds[block] <= limit {
                if let Some(place) = first_in(self.costs.as_slice(), block, limit) {
                    return Some(place);
                }
            }
        }
        None
    }
}

/// Adds a bound for a block, unless it has one. It is `SPENT`, because the block is empty.
fn make_bound(bounds: &mut SmallVec<u32, 1>, block: usize) -> Result<(), NoMemory>
    ensures ok { OnOk result (bounds.new.items ≡ with_bound bounds.old.items block) }
    ensures err { OnErr result (bounds.new.items ≡ bounds.old.items) }
{
    if block == bounds.len() {
        bounds.push(SPENT)?;
    }
    Ok(())
}

/// The index of the first cost of a block that is at most `limit`.
fn first_in(costs: &[u32], block: usize, limit: u32) -> Option<usize>
    requires { BLOCK * block ≤ length costs.now }
    ensures within { IfSome result (λ place. (place < length costs.now)
        × (slice_index costs.now place ≤ limit)) }
    ensures before { IfSome result (λ place. AreAbove limit costs.now (BLOCK * block) place) }
    ensures none { IfNone result
        (AreAbove limit costs.now (BLOCK * block) (BLOCK * block + BLOCK)) }
{
    let from = BLOCK * block;
    for place in from..(from + BLOCK).min(costs.len()) {
        if costs[place] <= limit {
            return Some(place);
        }
    }
    None
}

/// The least cost of a block, or `SPENT` if the block is empty.
fn least_in(costs: &[u32], block: usize) -> u32
    requires { BLOCK * block ≤ length costs.now }
    ensures { AreFrom result costs.now (BLOCK * block) (BLOCK * block + BLOCK) }
{
    let from = BLOCK * block;
    let mut least = SPENT;
    for place in from..(from + BLOCK).min(costs.len()) {
        least = least.min(costs[place]);
    }
    least
}
