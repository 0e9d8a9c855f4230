//! The reply to a request, by its page and its sender. The page of a change is built before the
//! change.

ghost use Rattle.std.specs.Prelude.{◌≡◌, ◌≢◌, ◌<◌, ℕ, List, Ok, Err, length};
ghost use Rattle.std.specs.Prelude.{IfOk, IfErr, OnOk, OnErr};
ghost use Rattle.clock_api.specs.Routes.{page_of};
ghost use Rattle.clock_http.specs.Shown.{shown_head};
ghost use Rattle.clock_house.specs.House.{StandsForTheSame};
ghost use Rattle.clock_views.specs.Refusals.{bare};
ghost use Rattle.clock_bodies.specs.{Bodies.{put_body}, CloseBodies.{close_body, in_version}};
ghost use Rattle.clock_front.specs.declared.front.callers.Caller.TheVariants as who;
ghost use Rattle.clock_front.specs.declared.front.replies.AnswerError.TheVariants as unanswered;
ghost use Rattle.clock_front.specs.Outcomes.{answer_of, body_code, outcome, refused};
ghost use Rattle.clock_front.specs.Rooms.{NeedsRoom, refusal_room};
ghost use Rattle.clock_front.specs.Requests as asked;
ghost use Rattle.clock_front.specs.inside.{Callers.{IsKnown}, FixedPage.{IsProductsPage}};
ghost use Rattle.clock_front.specs.inside.Replies.{IsReplyWithoutChange, IsRightFor};
ghost use Rattle.clock_front.specs.inside.Changes.{change_asked};

use crate::front::FixedParts;
use crate::front::callers::Caller;
use crate::front::replies::{
    AnswerError, accepted, account, bare_refusal, bidder_results, bids, closed, products, refusal,
    results, round_results, status,
};
use crate::front::response::{Effect, Response, unchanged};
use clock_api::{Code, NoRoom, Page, Reply, last_segment};
use clock_bodies::{BodyFault, CloseBody, is_of_version, read_close, read_put};
use clock_closing::CloseFault;
use clock_house::{House, PutFault};
use clock_http::Head;
use clock_processor::Processor;
use clock_terms::Setup;
use clock_views::Refusal;
use std::alloc::Global;

/// Refuses a request. The refusal fails only if its page could not be allocated.
pub(crate) fn refusal_response(alloc: Global, why: Refusal) -> Result<Response, AnswerError>
    ensures response { IfOk result (λ response. response ≡ record {
      reply = answer_of (refused why);
      effect = Effect.Nothing;
    }) }
    ensures wanted { IfErr result (λ error. error ≡ unanswered.Room refusal_room) }
{
    match refusal(alloc, why, None) {
        Ok(reply) => Ok(unchanged(reply)),
        Err(room) => Err(AnswerError::Room(room)),
    }
}

/// Refuses a body for its fault. If the fault is `NoMemory`, this is an error. For any other fault,
/// the refusal fails only if its page could not be allocated.
fn refused_body(alloc: Global, fault: BodyFault) -> Result<Response, AnswerError>
    ensures response { IfOk result (λ response. response ≡ record {
      reply = answer_of (refused (bare (body_code fault)));
      effect = Effect.Nothing;
    }) }
    ensures known { OnOk result (fault ≢ BodyFault.NoMemory) }
    ensures wanted { fault ≢ BodyFault.NoMemory
        → IfErr result (λ why. why ≡ unanswered.Room refusal_room) }
{
    match fault {
        BodyFault::NotJson => refusal_response(alloc, Refusal::bare(Code::BadJson)),
        BodyFault::Shape => refusal_response(alloc, Refusal::bare(Code::Shape)),
        BodyFault::NoMemory => Err(AnswerError::Change),
    }
}

/// Submits the sheet in a body, or refuses it for its first fault. Requires a bidder of the set-up.
fn put_sheet<P: Processor>(
    alloc: Global,
    house: &mut House<P>,
    bidder: u32,
    body: &[u8],
) -> Result<Response, AnswerError>
    requires { bidder < length house.old.setup.bidders }
    ensures done { IfOk result
        (IsRightFor (who.Bidder bidder) (asked.put (put_body body.now)) house.old house.new) }
    ensures still { OnErr result (StandsForTheSame house.old house.new) }
{
    let sheet = match read_put(alloc, body) {
        Ok(sheet) => sheet,
        Err(fault) => return refused_body(alloc, fault),
    };
    let count = sheet.bids.as_slice().len() as u64;
    match house.prepare_sheet(bidder, sheet.round, sheet.bids) {
        Ok(prepared) => match accepted(alloc, sheet.round, count) {
            Ok(reply) => {
                house.commit_put(prepared);
                Ok(Response {
                    reply,
                    effect: Effect::Sheet,
                })
            }
            Err(room) => {
                drop(prepared);
                Err(AnswerError::Room(room))
            }
        },
        Err(PutFault::NoMemory) => Err(AnswerError::Change),
        Err(fault) => refusal_response(alloc, Refusal::from(fault)),
    }
}

/// Reads the closing in a body, by the version of the set-up. In version 1 a closing has one
/// increment for all products, in later versions one for each.
fn closing_of(alloc: Global, setup: &Setup, body: &[u8]) -> Result<CloseBody, BodyFault>
    ensures ok { IfOk result
        (λ closing. in_version setup.now.version (close_body body.now) ≡ Ok closing) }
    ensures err { IfErr result (λ fault. fault ≢ BodyFault.NoMemory
        → in_version setup.now.version (close_body body.now) ≡ Err fault) }
{
    let closing = read_close(alloc, body)?;
    if is_of_version(setup.version, &closing.increments) {
        Ok(closing)
    } else {
        Err(BodyFault::Shape)
    }
}

/// Closes the round as a body says, or refuses it for its first fault.
fn close_round<P: Processor>(
    alloc: Global,
    house: &mut House<P>,
    body: &[u8],
) -> Result<Response, AnswerError>
    ensures done { IfOk result
        (IsRightFor who.Operator (asked.close (close_body body.now)) house.old house.new) }
    ensures still { OnErr result (StandsForTheSame house.old house.new) }
{
    let closing = match closing_of(alloc, house.setup(), body) {
        Ok(closing) => closing,
        Err(fault) => return refused_body(alloc, fault),
    };
    let round = closing.round;
    let settled = house.prepare(round, &closing.increments, closing.ties.as_slice());
    drop(closing);
    match settled {
        Ok(settled) => match closed(alloc, round, settled.ended()) {
            Ok(reply) => {
                house.commit(settled);
                Ok(Response {
                    reply,
                    effect: Effect::Closing(round),
                })
            }
            Err(room) => {
                drop(settled);
                Err(AnswerError::Room(room))
            }
        },
        Err(CloseFault::NoMemory) => Err(AnswerError::Change),
        Err(why) => refusal_response(alloc, Refusal::from(why)),
    }
}

/// The change that a request asks for: none, a sheet of this bidder, or a closing.
enum Change {
    Nothing,
    Sheet(u32),
    Closing,
}

/// Returns the change that a request asks for whose path names `page`.
fn change_of(page: Option<Page>, caller: Caller, head: &Head<'_>) -> Change
    ensures { result ≡ change_asked page caller (shown_head head.now) }
{
    match (page, caller) {
        (Some(Page::Bids), Caller::Bidder(bidder)) if head.is_put() => Change::Sheet(bidder),
        (Some(Page::Close), Caller::Operator) if Page::Close.has_method(head.method) => {
            Change::Closing
        }
        (_, _) => Change::Nothing,
    }
}

/// The reply to a request that asks for no change: a page or a refusal. `page` is the one that its
/// path names. Refusals, in this order: no such page, no such method on this page, no valid token,
/// another role, then what the page itself refuses.
fn reply_without_change<P>(
    alloc: Global,
    house: &House<P>,
    base: &FixedParts,
    caller: Caller,
    head: &Head<'_>,
    page: Option<Page>,
) -> Result<Reply, NoRoom>
    requires page { IsProductsPage house.now.setup base.now.products }
    requires known { IsKnown (length house.now.setup.bidders) caller }
    ensures { (body : List ℕ) → IsReplyWithoutChange caller
        (asked.ask_by_route page (shown_head head.now) body) house.now result }
{
    let Some(page) = page else {
        return bare_refusal(alloc, Code::NoPage);
    };
    if !page.has_method(head.method) {
        return refusal(alloc, Refusal::bare(Code::Method), Some(page));
    }
    match (page, caller) {
        (Page::Status, _) => status(alloc, house),
        (Page::Products, _) => products(alloc, base.products.as_slice()),
        (Page::RoundResults, _) => round_results(alloc, house, last_segment(head.path)),
        (Page::Account, Caller::Bidder(bidder)) => account(alloc, house, bidder),
        (Page::Bids, Caller::Bidder(bidder)) => bids(alloc, house, bidder),
        (Page::BidderResults, Caller::Bidder(bidder)) => {
            bidder_results(alloc, house, bidder, last_segment(head.path))
        }
        (Page::Results, Caller::Operator) => results(alloc, house),
        (_, Caller::Nobody) => bare_refusal(alloc, Code::Token),
        (_, _) => bare_refusal(alloc, Code::Role),
    }
}

/// Answers a request: with a change if it is a bidder's sheet or the operator's closing, and with
/// a page or a refusal otherwise.
pub(crate) fn answer_request<P: Processor>(
    alloc: Global,
    house: &mut House<P>,
    base: &FixedParts,
    caller: Caller,
    head: &Head<'_>,
    body: &[u8],
) -> Result<Response, AnswerError>
    requires page { IsProductsPage house.old.setup base.now.products }
    requires known { IsKnown (length house.old.setup.bidders) caller }
    ensures done { IfOk result (IsRightFor caller (asked.ask_by_route (page_of head.now.path.now)
        (shown_head head.now) body.now) house.old house.new) }
    ensures wanted { IfErr result (NeedsRoom caller (asked.ask_by_route (page_of head.now.path.now)
        (shown_head head.now) body.now) (outcome house.old caller
        (asked.ask_by_route (page_of head.now.path.now) (shown_head head.now) body.now))) }
    ensures still { OnErr result (StandsForTheSame house.old house.new) }
{
    let page = base.routes.page_of(head.path);
    match change_of(page, caller, head) {
        Change::Sheet(bidder) => put_sheet(alloc, house, bidder, body),
        Change::Closing => close_round(alloc, house, body),
        Change::Nothing => match reply_without_change(alloc, house, base, caller, head, page) {
            Ok(reply) => Ok(unchanged(reply)),
            Err(room) => Err(AnswerError::Room(room)),
        },
    }
}
