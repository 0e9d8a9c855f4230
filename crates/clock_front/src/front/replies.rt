//! Replies that show the auction without a change, replies with constant bytes, and why a request
//! got no other reply than out of memory.

ghost use Rattle.std.specs.Prelude.{◌≡◌, ◌<◌, length, IfOk, IfErr, IsTrue};
ghost use Rattle.serde_json.specs.Data.{Data};
ghost use Rattle.clock_terms.specs.Limits.{SetupFields, public_setup};
ghost use Rattle.clock_views.specs.{PublicPages.{products_value}, RefusalPage.{refusal_value}};
ghost use Rattle.clock_views.specs.Rooms.{most_text};
ghost use Rattle.clock_views.specs.{BidderPages.{accepted_value}, OperatorPages.{closed_value}};
ghost use Rattle.clock_front.specs.declared.front.callers.Caller.TheVariants as who;
ghost use Rattle.clock_front.specs.declared.front.replies.AnswerError.TheVariants as unanswered;
ghost use Rattle.clock_front.specs.FixedReplies.{no_memory};
ghost use Rattle.clock_front.specs.{Outcomes.{answer_of, done, with_page}, Rooms.{refusal_room}};
ghost use Rattle.clock_front.specs.inside.FixedReplies.{is_bare, is_fixed, refusal_of};
ghost use Rattle.clock_front.specs.inside.FixedPage.{IsProductsPage, IsWritten};
ghost use Rattle.clock_front.specs.inside.Replies.{IsPageIn, IsReplyOrFailure};
ghost use Rattle.clock_front.specs.Requests as asked;

use clock_api::{Code, HEADROOM, NoRoom, Page, Reply, text_with_room};
use clock_device::Text;
use clock_house::House;
use clock_http::plain_number;
use clock_views::{
    Refusal, headed_accepted, headed_account, headed_bidder_results, headed_bids, headed_closed,
    headed_refusal, headed_results, headed_round_results, headed_status,
};
use std::alloc::Global;

/// Why a request is answered out of memory.
#[derive(Debug, Drop)]
pub enum AnswerError {
    /// The page of its reply could not be allocated.
    Room(NoRoom),
    /// The request asks for a change, and another allocation failed before that.
    Change,
}

impl From<NoRoom> for AnswerError {
    ghost from_gives = { λ refused why. why ≡ unanswered.Room refused };

    fn from(refused: NoRoom) -> AnswerError {
        AnswerError::Room(refused)
    }
}

/// Refuses a request with only a code. Requires a code whose reply is constant. Allocates nothing.
pub(crate) fn fixed_reply(code: Code) -> Reply
    requires { IsTrue (is_fixed code) }
    ensures { result ≡ refusal_of code }
{
    let bytes: &'static [u8] = match code {
        Code::LongHead => b"HTTP/1.1 431 Request Header Fields Too Large\r\nconnection: close\r\n\
            content-length: 33\r\ncontent-type: application/json\r\n\r\n{\"code\":\"long_head\",\"status\":431}",
        Code::BadHead => b"HTTP/1.1 400 Bad Request\r\nconnection: close\r\n\
            content-length: 32\r\ncontent-type: application/json\r\n\r\n{\"code\":\"bad_head\",\"status\":400}",
        Code::Coding => b"HTTP/1.1 501 Not Implemented\r\nconnection: close\r\n\
            content-length: 30\r\ncontent-type: application/json\r\n\r\n{\"code\":\"coding\",\"status\":501}",
        Code::BadLength => b"HTTP/1.1 400 Bad Request\r\nconnection: close\r\n\
            content-length: 34\r\ncontent-type: application/json\r\n\r\n{\"code\":\"bad_length\",\"status\":400}",
        Code::LongBody => b"HTTP/1.1 413 Payload Too Large\r\nconnection: close\r\n\
            content-length: 33\r\ncontent-type: application/json\r\n\r\n{\"code\":\"long_body\",\"status\":413}",
        Code::Memory => b"HTTP/1.1 503 Service Unavailable\r\nconnection: close\r\n\
            content-length: 30\r\ncontent-type: application/json\r\n\r\n{\"code\":\"memory\",\"status\":503}",
        _ => unreachable!(),
    };
    Reply::constant(code, bytes)
}

/// The out-of-memory reply. Allocates nothing.
pub fn no_memory_reply() -> Reply
    ensures { result ≡ no_memory }
{
    fixed_reply(Code::Memory)
}

/// Refuses a request. If the method is refused, `page` is the page whose methods the head lists.
pub(crate) fn refusal(alloc: Global, why: Refusal, page: Option<Page>) -> Result<Reply, NoRoom>
    ensures { IsPageIn (with_page why.code page (refusal_value why)) refusal_room result }
{
    let text = headed_refusal(alloc, HEADROOM, why)?;
    Ok(Reply::written(why.code, page, text))
}

/// Refuses a request with a code that shows no index and no round.
pub(crate) fn bare_refusal(alloc: Global, code: Code) -> Result<Reply, NoRoom>
    requires { IsTrue (is_bare code) }
    ensures { IsPageIn (refusal_of code) refusal_room result }
{
    refusal(alloc, Refusal::bare(code), None)
}

/// The reply with a page that was written after space for its head, or the failed allocation of
/// this page.
fn page_reply(page: Result<Text, NoRoom>) -> Result<Reply, NoRoom>
    requires { (value : Data) × IsWritten value page }
    ensures { (value : Data) → IsWritten value page
        → IsPageIn (answer_of (done value)) (most_text value) result }
{
    match page {
        Ok(text) => Ok(Reply::written(Code::Done, None, text)),
        Err(room) => Err(room),
    }
}

/// The page of the auction's status, for everyone.
pub(crate) fn status<P>(alloc: Global, house: &House<P>) -> Result<Reply, NoRoom>
    ensures { IsReplyOrFailure house.now who.Nobody asked.status result }
{
    page_reply(headed_status(alloc, HEADROOM, house.setup(), house.round(), house.ended()))
}

/// The page of products, for everyone, copied from `page`: it never changes.
pub(crate) fn products(alloc: Global, page: &[u8]) -> Result<Reply, NoRoom>
    ensures reply { IfOk result (λ reply. (setup : SetupFields) → IsProductsPage setup page.now
        → reply ≡ answer_of (done (products_value (public_setup setup)))) }
    ensures room { IfErr result (λ room. room ≡ length page.now) }
{
    let mut text = text_with_room(alloc, HEADROOM, page.len() as u128)?;
    text.extend_from_slice(page);
    Ok(Reply::written(Code::Done, None, text.into_items()))
}

/// The round results of the round whose number `segment` is, for everyone. If it is not closed, a
/// refusal.
pub(crate) fn round_results<P>(
    alloc: Global,
    house: &House<P>,
    segment: &[u8],
) -> Result<Reply, NoRoom>
    ensures { IsReplyOrFailure house.now who.Nobody (asked.round_results segment.now) result }
{
    let Some(round) = plain_number(segment) else {
        return bare_refusal(alloc, Code::NoRound);
    };
    let Some(sheet) = house.sheet(round) else {
        return bare_refusal(alloc, Code::NoRound);
    };
    page_reply(headed_round_results(alloc, HEADROOM, house.setup(), sheet))
}

/// A bidder's account. Requires a bidder of the set-up.
pub(crate) fn account<P>(alloc: Global, house: &House<P>, bidder: u32) -> Result<Reply, NoRoom>
    requires { bidder < length house.now.setup.bidders }
    ensures { IsReplyOrFailure house.now (who.Bidder bidder) asked.account result }
{
    let own = house.own(bidder);
    page_reply(headed_account(alloc, HEADROOM, house.setup(), bidder, own, house.ended()))
}

/// A bidder's sheet in force. Requires a bidder of the set-up.
pub(crate) fn bids<P>(alloc: Global, house: &House<P>, bidder: u32) -> Result<Reply, NoRoom>
    requires { bidder < length house.now.setup.bidders }
    ensures { IsReplyOrFailure house.now (who.Bidder bidder) asked.bids result }
{
    page_reply(headed_bids(alloc, HEADROOM, house.round(), house.bids(bidder)))
}

/// The page of an accepted sheet of this round with this number of bids.
pub(crate) fn accepted(alloc: Global, round: u64, bids: u64) -> Result<Reply, NoRoom>
    ensures { IfOk result (λ reply. reply ≡ answer_of (done (accepted_value round bids))) }
{
    page_reply(headed_accepted(alloc, HEADROOM, round, bids))
}

/// A bidder's results of the round whose number `segment` is. If it is not closed, a refusal.
/// Requires a bidder of the set-up.
pub(crate) fn bidder_results<P>(
    alloc: Global,
    house: &House<P>,
    bidder: u32,
    segment: &[u8],
) -> Result<Reply, NoRoom>
    requires { bidder < length house.now.setup.bidders }
    ensures { IsReplyOrFailure house.now (who.Bidder bidder)
        (asked.bidder_results segment.now) result }
{
    let Some(round) = plain_number(segment) else {
        return bare_refusal(alloc, Code::NoRound);
    };
    let Some(slip) = house.slip(bidder, round) else {
        return bare_refusal(alloc, Code::NoRound);
    };
    page_reply(headed_bidder_results(alloc, HEADROOM, slip))
}

/// Each bidder's eligibility and processed demands, for the operator.
pub(crate) fn results<P>(alloc: Global, house: &House<P>) -> Result<Reply, NoRoom>
    ensures { IsReplyOrFailure house.now who.Operator asked.results result }
{
    page_reply(headed_results(alloc, HEADROOM, house))
}

/// The page of a closed round of this number, and of whether the auction ended with it.
pub(crate) fn closed(alloc: Global, round: u64, ended: bool) -> Result<Reply, NoRoom>
    ensures { IfOk result (λ reply. reply ≡ answer_of (done (closed_value round ended))) }
{
    page_reply(headed_closed(alloc, HEADROOM, round, ended))
}
