ghost use Rattle.std.specs.Prelude.{◌≡◌, ◌≢◌, ◌<◌, ◌≤◌, [], None, length, slice_index_or};
ghost use Rattle.std.specs.Prelude.{option_copied, IfOk, IfErr};
ghost use Rattle.clock_terms.specs.{Eligibility.{activity}, Faults.{IsRefusal}};
ghost use Rattle.clock_terms.specs.Increments.{AreIncrements};
ghost use Rattle.clock_terms.specs.Limits.{IsRow, public_setup};
ghost use Rattle.clock_bids.specs.{Holding.{holding_of}, Sheet.{asked_demands}};
ghost use Rattle.clock_order.specs.declared.ties.TieFault.TheVariants as tie_faults;
ghost use Rattle.clock_processor.specs.Board.{IsWithinEligibility};
ghost use Rattle.clock_closing.specs.OpenRound.{IsOpenRound, OpenRoundFields, bids_at, holding_at};
ghost use Rattle.clock_closing.specs.OpenRound.{open_at};
ghost use Rattle.clock_closing.specs.{Prepared.{Answers}, Results.{result_demands}};
ghost use Rattle.clock_closing.specs.inside.OpenRound.{eligibilities_of, grid_of};
ghost use Rattle.clock_closing.specs.inside.Postings.{AreRequests, ComesTo, IsRoundOf, posted_now};
ghost use Rattle.clock_closing.specs.Closing as rules;

use crate::closed_round::{ClosedRound, Prepared, Results, Slip, Slips};
use crate::fault::CloseFault;
use clock_bids::{Own, Sheet, asked_row, bids_of, with_changes_of};
use clock_device::NoMemory;
use clock_order::{Tie, Ties, ordered};
use clock_posting::{PostFault, Posting, post, post_first};
use clock_processor::{Board, Processor, Settled};
use clock_terms::{
    Amounts, Changes, Grid, Increments, Prices, Row, Setup, next_eligibility, units_held,
};
use std::alloc::Global;
use std::marker::Model;

/// An open round, with all that its closing depends on, after the FCC's procedures for Auction 105.
/// Bidders are within their limits, prices in order, and sheets pass the checks.
///
/// In contracts, it is the set-up, the state of the auction, each bidder's eligibility and demands,
/// and the sheets in force.
#[derive(Drop)]
pub struct OpenRound<'a> {
    /// The set-up of the auction.
    pub setup: &'a Setup,
    /// The current round, from 1.
    pub round: u64,
    /// The start-of-round price and clock price of each product, in whole dollars.
    pub prices: &'a Prices,
    /// The eligibility of each bidder, in bidding units.
    pub eligibilities: &'a Amounts,
    /// The processed demands before this round, one row per bidder, in blocks.
    pub demands: &'a Grid,
    /// The sheet in force of each bidder, if it has one.
    pub sheets: &'a [Option<Sheet>],
}

impl<'a> Model for OpenRound<'a> {
    ghost Value = { OpenRoundFields };

    ghost view = { λ r.
        open_at r.setup.now r.round r.prices.now r.eligibilities.now r.demands.now r.sheets.now };

    ghost invariant = { λ r. (length r.demands.now ≡ length r.eligibilities.now) × IsOpenRound
        (open_at r.setup.now r.round r.prices.now r.eligibilities.now r.demands.now r.sheets.now) };
}

impl<'a> OpenRound<'a> {
    /// Closes the round: processes the bids with `processor`, and computes the round results, the
    /// bidder results, and the next prices. An increment is a percentage from 1 to 50, one for all
    /// products or one for each. `old` may have a grid that is no longer needed. Its memory is then
    /// reused for the demands.
    ///
    /// Errors, in this order:
    /// - an increment is not 1 to 50, or there is not one for each product;
    /// - the first fault of the tie-breaking numbers;
    /// - the auction would continue, and a next clock price would be too high.
    ///
    /// May return `NoMemory`, which then replaces any other result.
    pub fn close<P: Processor>(
        &self,
        alloc: Global,
        processor: &P,
        increments: &Increments,
        ties: &[Tie],
        old: &mut Option<Grid>,
    ) -> Result<Prepared, CloseFault>
        ensures asked { IfOk result
            (λ prepared. (prepared.round ≡ self.now.before.public_state.round)
            × (prepared.increments ≡ increments.now) × (prepared.ties ≡ ties.now)) }
        ensures answer { Answers (rules.closing_now self.now increments.now ties.now) result }
        ensures memory { result ≢ Err (CloseFault.Tie tie_faults.NoMemory) }
    {
        let (increments, ties) = self.accepted(alloc, increments, ties)?;
        match self.results(alloc, processor, &increments, &ties, old) {
            Ok(results) => Ok(Prepared {
                round: self.round,
                increments,
                ties,
                results,
            }),
            Err(fault) => {
                // Calls keep the proof small: at the end, each part would be dropped by itself.
                drop(increments);
                drop(ties);
                Err(fault)
            }
        }
    }

    /// Returns copies of the increments and the tie-breaking numbers, or their first fault.
    fn accepted(
        &self,
        alloc: Global,
        increments: &Increments,
        ties: &[Tie],
    ) -> Result<(Increments, Ties), CloseFault>
        ensures copies { IfOk result (λ both. (both.0 ≡ increments.now) × (both.1 ≡ ties.now)) }
        ensures allowed { IfOk result
            (λ both. AreIncrements (length self.now.setup.products) both.0) }
        ensures produced { IfOk result (λ both. rules.closing_now self.now increments.now ties.now
            ≡ posted_now self.now both.0 both.1) }
        ensures refused { IfErr result (IsRefusal CloseFault.NoMemory
            (rules.closing_now self.now increments.now ties.now)) }
        ensures memory { result ≢ Err (CloseFault.Tie tie_faults.NoMemory) }
    {
        let setup = self.setup;
        if !increments.are_within(setup.products.as_slice().len()) {
            return Err(CloseFault::Increment);
        }
        let ties = Ties::new(alloc, setup, ties)?;
        Ok((copy_of(alloc, increments)?, ties))
    }

    /// Computes what the closing produces. In round 1 the quantities bid become the demands. In a
    /// later round all bidders' requests are processed in order. Requires allowed increments.
    fn results<P: Processor>(
        &self,
        alloc: Global,
        processor: &P,
        increments: &Increments,
        ties: &Ties,
        old: &mut Option<Grid>,
    ) -> Result<Results, CloseFault>
        requires { AreIncrements (length self.now.setup.products) increments.now }
        ensures { ComesTo (posted_now self.now increments.now ties.now) result }
    {
        if self.round == 1 {
            let grid = self.asked_grid(alloc)?;
            let posting = post_first(alloc, self.setup, &grid, increments);
            return self.with_slips(alloc, posting, grid);
        }
        let requests = self.requests(alloc, ties)?;
        let settled = self.settled(alloc, processor, &requests, old)?;
        let posting = post(
            alloc,
            self.setup,
            self.round,
            self.prices,
            &requests,
            &settled,
            increments,
        );
        drop(requests);
        self.with_slips(alloc, posting, settled.into_grid())
    }

    /// The requested demands, one row per bidder, in blocks. No sheet counts as an empty one.
    fn asked_grid(&self, alloc: Global) -> Result<Grid, NoMemory>
        ensures { IfOk result
            (λ grid. grid ≡ rules.asked_grid self.now.setup.products self.now.before) }
    {
        let mut rows = Vec::with_capacity(alloc, self.bidders() as usize)?;
        for bidder in 0..self.bidders() {
            rows.push(self.asked_row(alloc, bidder)?)?;
        }
        Grid::of_rows(alloc, self.setup, rows)
    }

    /// A bidder's requested demands, in blocks. Requires a bidder of the set-up.
    fn asked_row(&self, alloc: Global, bidder: u32) -> Result<Row, NoMemory>
        requires { bidder < length self.now.setup.bidders }
        ensures asked { IfOk result (λ row. row ≡ asked_demands (length self.now.setup.products)
            (bids_at self.now.before.sheets bidder)) }
        ensures row { IfOk result (IsRow self.now.setup.products) }
    {
        asked_row(alloc, self.setup, bids_of(self.sheet(bidder)))
    }

    /// Returns an empty list with room for a request for each bid in force, so that
    /// it rarely grows.
    fn no_requests(&self, alloc: Global) -> Result<Changes, NoMemory>
        ensures { IfOk result (λ none. none ≡ []) }
    {
        let mut count = 0usize;
        for sheet in self.sheets {
            count = count.saturating_add(bids_of(sheet.as_ref()).len());
        }
        Ok(Changes::from_vec(Vec::with_capacity(alloc, count)?))
    }

    /// All bidders' requests, in the order of processing. Requires round 2 or later.
    fn requests(&self, alloc: Global, ties: &Ties) -> Result<Changes, NoMemory>
        requires { 2 ≤ self.now.before.public_state.round }
        ensures ordered { IfOk result (λ list. list ≡ rules.requests self.now.before ties.now) }
        ensures all { IfOk result (AreRequests self.now.before) }
    {
        let mut changes = self.no_requests(alloc)?;
        for bidder in 0..self.bidders() {
            changes = with_changes_of(
                alloc,
                changes,
                self.setup,
                self.prices,
                self.own(bidder),
                bidder,
                self.sheet(bidder),
            )?;
        }
        ordered(alloc, changes, ties)
    }

    /// Processes these requests: the demands afterward, and what is left of each request. Reuses
    /// the memory of `old`, if there is one. Requires round 2 or later, and all bidders' requests.
    fn settled<P: Processor>(
        &self,
        alloc: Global,
        processor: &P,
        requests: &Changes,
        old: &mut Option<Grid>,
    ) -> Result<Settled, NoMemory>
        requires later { 2 ≤ self.now.before.public_state.round }
        requires requests { AreRequests self.now.before requests.now }
        ensures grid { IfOk result (λ settled. settled.grid ≡
            (rules.settlement self.now.setup.products self.now.before requests.now).grid) }
        ensures left { IfOk result (λ settled. settled.left ≡
            (rules.settlement self.now.setup.products self.now.before requests.now).left) }
        ensures within { IfOk result (λ settled. IsWithinEligibility self.now.setup.products
            (eligibilities_of self.now.before) settled.grid) }
        ensures each { IfOk result (λ settled. length settled.left ≡ length requests.now) }
    {
        let grid = self.grid(alloc, old)?;
        let count = requests.len();
        let board = Board::for_requests(alloc, self.setup, self.eligibilities, grid, count)?;
        processor.settle(alloc, board, requests)
    }

    /// A copy of the demands before the round, in the memory of `old`, if there is one.
    fn grid(&self, alloc: Global, old: &mut Option<Grid>) -> Result<Grid, NoMemory>
        ensures { IfOk result (λ grid. grid ≡ grid_of self.now.before) }
    {
        self.demands.copy_over(alloc, old.take())
    }

    /// Adds the bidder results to a posting of these demands, or returns its error. Requires
    /// demands within the eligibilities.
    fn with_slips(
        &self,
        alloc: Global,
        posting: Result<Posting, PostFault>,
        demands: Grid,
    ) -> Result<Results, CloseFault>
        requires { IsWithinEligibility self.now.setup.products
            (eligibilities_of self.now.before) demands }
        ensures { IsRoundOf self.now demands posting result }
    {
        let Posting { sheet, next } = posting?;
        let slips = self.slips(alloc, &demands)?;
        Ok(Results {
            closed: ClosedRound { sheet, slips },
            next,
            demands,
        })
    }

    /// The bidder results after a round with these demands, one per bidder. Requires demands within
    /// the eligibilities.
    fn slips(&self, alloc: Global, demands: &Grid) -> Result<Slips, NoMemory>
        requires { IsWithinEligibility self.now.setup.products
            (eligibilities_of self.now.before) demands.now }
        ensures slips { IfOk result (λ slips. slips ≡
            rules.slips_after (public_setup self.now.setup) self.now.before demands.now) }
        ensures demands { IfOk result (λ slips. demands.now ≡ result_demands slips) }
    {
        let mut slips = Vec::with_capacity(alloc, self.bidders() as usize)?;
        for bidder in 0..self.bidders() {
            slips.push(self.slip_after(alloc, bidder, demands.row(bidder as usize))?)?;
        }
        Ok(Slips::from_vec(slips))
    }

    /// A bidder's results after a round with these demands. Requires demands within its
    /// eligibility.
    fn slip_after(&self, alloc: Global, bidder: u32, demands: &Row) -> Result<Slip, NoMemory>
        requires bidder { bidder < length self.now.setup.bidders }
        requires row { IsRow self.now.setup.products demands.now }
        requires within { activity self.now.setup.products demands.now ≤
            (holding_at self.now.before.holdings bidder).eligibility }
        ensures { IfOk result (λ slip. slip
            ≡ rules.slip_after (public_setup self.now.setup) self.now.before.public_state.round
            (holding_at self.now.before.holdings bidder).eligibility demands.now) }
    {
        let setup = self.setup;
        let used = units_held(setup.products.as_slice(), demands);
        let held = self.own(bidder).eligibility;
        Ok(Slip {
            round: self.round,
            activity: used,
            eligibility: next_eligibility(held, used, setup.requirement),
            demands: demands.packed(alloc)?,
        })
    }

    /// A bidder's eligibility and demands before the round. Requires a bidder of the set-up.
    fn own(&self, bidder: u32) -> Own<'a>
        requires { bidder < length self.now.setup.bidders }
        ensures round { result.round ≡ self.now.before.public_state.round }
        ensures held { holding_of result ≡ holding_at self.now.before.holdings bidder }
    {
        Own {
            round: self.round,
            eligibility: self.eligibilities[bidder as usize],
            demands: self.demands.row(bidder as usize),
        }
    }

    /// A bidder's sheet in force, if it has one. Requires a bidder of the set-up.
    fn sheet(&self, bidder: u32) -> Option<&'a Sheet>
        requires { bidder < length self.now.setup.bidders }
        ensures { option_copied result ≡ slice_index_or self.now.before.sheets bidder None }
    {
        self.sheets[bidder as usize].as_ref()
    }

    /// The number of bidders.
    fn bidders(&self) -> u32
        ensures each { result ≡ length self.now.setup.bidders }
        ensures held { result ≡ length self.now.before.holdings }
    {
        self.sheets.len() as u32
    }
}

/// Copies increments.
fn copy_of(alloc: Global, increments: &Increments) -> Result<Increments, NoMemory>
    ensures { IfOk result (λ copy. copy ≡ increments.now) }
{
    match increments {
        Increments::Single(increment) => Ok(Increments::Single(*increment)),
        Increments::PerProduct(list) => Ok(Increments::PerProduct(list.copy(alloc)?)),
    }
}
