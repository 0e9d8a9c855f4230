//! Refusals, and their page.

ghost use Rattle.std.specs.Prelude.{◌≡◌, ◌++◌, IsTrue, IfOk, IfErr, not};
ghost use Rattle.serde_json.specs.Written.{compact_text};
ghost use Rattle.clock_views.specs.RefusalPage.{refusal_value, refusal_bytes};
ghost use Rattle.clock_views.specs.Refusals.{Shown, IsShown, has_place, has_round, is_refusal};
ghost use Rattle.clock_views.specs.Refusals.{shown_bid, shown_tie, shown_put, shown_close};
ghost use Rattle.clock_views.specs.Refusals.{bare as code_alone};
ghost use Rattle.clock_views.specs.Values.{IsPage};

use crate::capacities::REFUSAL;
use crate::pieces::{Headed, push_number, push_number_if};
use clock_api::{Code, text_with_room};
use clock_bids::BidFault;
use clock_closing::CloseFault;
use clock_device::{NoMemory, Text};
use clock_house::PutFault;
use clock_order::TieFault;
use std::alloc::Global;
use std::marker::Model;

/// The members of a refusal's page: a code; an index if the code has one; and the current round if
/// the code is [`Code::WrongRound`].
#[derive(Clone, Copy, Debug)]
pub struct Refusal {
    /// Why the request is refused. Never [`Code::Done`].
    pub code: Code,
    /// The index of the bid or tie-breaking number in its list, or the product's number, from 0.
    pub place: Option<u64>,
    /// The current round.
    pub round: Option<u64>,
}

impl Model for Refusal {
    ghost Value = { Shown };

    ghost view = { λ r. record { code = r.code; place = r.place; round = r.round } };

    ghost invariant = { λ r. IsShown (record { code = r.code; place = r.place; round = r.round }) };

    ghost inverse = { λ s. record { code = s.code; place = s.place; round = s.round } };
}

impl Refusal {
    /// Makes a refusal with only a code. Requires a code without an index and a round.
    pub fn bare(code: Code) -> Refusal
        requires refused { IsTrue (is_refusal code) }
        requires placeless { IsTrue (not (has_place code)) }
        requires timeless { IsTrue (not (has_round code)) }
        ensures { result ≡ code_alone code }
    {
        Refusal::with(code, None, None)
    }

    /// Makes a refusal with an index or a round. Requires them exactly if the code has them.
    fn with(code: Code, place: Option<u64>, round: Option<u64>) -> Refusal
        requires { IsShown (record { code = code; place = place; round = round }) }
        ensures { result ≡ record { code = code; place = place; round = round } }
    {
        Refusal { code, place, round }
    }
}

impl From<BidFault> for Refusal {
    ghost from_gives = { λ fault refusal. refusal ≡ shown_bid fault };

    fn from(fault: BidFault) -> Refusal {
        match fault {
            BidFault::TooMany => Refusal::bare(Code::TooMany),
            BidFault::UnknownProduct(i) => Refusal::with(Code::UnknownProduct, Some(i), None),
            BidFault::PriceRange(i) => Refusal::with(Code::PriceRange, Some(i), None),
            BidFault::OverCap(i) => Refusal::with(Code::OverCap, Some(i), None),
            BidFault::PriceOrder(i) => Refusal::with(Code::PriceOrder, Some(i), None),
            BidFault::MixedDirection(i) => Refusal::with(Code::MixedDirection, Some(i), None),
            BidFault::KeepPrice(i) => Refusal::with(Code::KeepPrice, Some(i), None),
            BidFault::OverActivity => Refusal::bare(Code::OverActivity),
            BidFault::NoMemory => Refusal::bare(Code::Memory),
        }
    }
}

impl From<TieFault> for Refusal {
    ghost from_gives = { λ fault refusal. refusal ≡ shown_tie fault };

    fn from(fault: TieFault) -> Refusal {
        match fault {
            TieFault::Range(i) => Refusal::with(Code::TieRange, Some(i), None),
            TieFault::Repeated(i) => Refusal::with(Code::TieRepeated, Some(i), None),
            TieFault::TooMany => Refusal::bare(Code::TooManyTies),
            TieFault::NoMemory => Refusal::bare(Code::Memory),
        }
    }
}

impl From<PutFault> for Refusal {
    ghost from_gives = { λ fault refusal. refusal ≡ shown_put fault };

    fn from(fault: PutFault) -> Refusal {
        match fault {
            PutFault::Ended => Refusal::bare(Code::Ended),
            PutFault::WrongRound(current) => Refusal::with(Code::WrongRound, None, Some(current)),
            PutFault::Bid(fault) => Refusal::from(fault),
            PutFault::NoMemory => Refusal::bare(Code::Memory),
        }
    }
}

impl From<CloseFault> for Refusal {
    ghost from_gives = { λ fault refusal. refusal ≡ shown_close fault };

    fn from(fault: CloseFault) -> Refusal {
        match fault {
            CloseFault::Ended => Refusal::bare(Code::Ended),
            CloseFault::WrongRound(current) => Refusal::with(Code::WrongRound, None, Some(current)),
            CloseFault::Increment => Refusal::bare(Code::Increment),
            CloseFault::Tie(fault) => Refusal::from(fault),
            CloseFault::PriceLimit(product) => Refusal::with(Code::PriceLimit, Some(product), None),
            CloseFault::NoMemory => Refusal::bare(Code::Memory),
        }
    }
}

/// Writes the page of a refusal: its code and status, with `place` and `round` as in [`Refusal`].
/// Requires that `code` is not [`Code::Done`], and `place` and `round` exactly if it has them.
///
/// ```text
/// {"code":"price_limit","place":0,"status":422}
/// ```
#[tactic(auto, using(crate::proofs::Codes::refusal_in_bytes))]
pub fn refusal_page(
    alloc: Global,
    code: Code,
    place: Option<u64>,
    round: Option<u64>,
) -> Result<Text, NoMemory>
    requires { IsShown (record { code = code; place = place; round = round }) }
    ensures value { IfOk result
        (IsPage (refusal_value (record { code = code; place = place; round = round }))) }
    ensures bytes { IfOk result
        (λ text. text ≡ refusal_bytes (record { code = code; place = place; round = round })) }
{
    Ok(headed_refusal(alloc, b"", Refusal { code, place, round })?)
}

/// Like [`refusal_page`], after the head of a reply.
pub fn headed_refusal(alloc: Global, head: &[u8], refusal: Refusal) -> Headed
    ensures page { IfOk result (λ text. text ≡ head.now ++ compact_text (refusal_value refusal)) }
    ensures room { IfErr result (λ room. room ≡ REFUSAL) }
{
    let mut text = text_with_room(alloc, head, REFUSAL)?;
    text.extend_from_slice(b"{\"code\":\"");
    text.extend_from_slice(refusal.code.text().as_bytes());
    text.extend_from_slice(b"\"");
    push_number_if(&mut text, b",\"place\":", refusal.place);
    push_number_if(&mut text, b",\"round\":", refusal.round);
    push_number(&mut text, b",\"status\":", u64::from(refusal.code.status()));
    text.extend_from_slice(b"}");
    Ok(text.into_items())
}
