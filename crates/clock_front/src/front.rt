ghost use Rattle.std.specs.Prelude.{◌≡◌, [], ℕ, List, IfOk, IfErr, IsOk, OnOk, OnErr};
ghost use Rattle.clock_api.specs.declared.code.Code.{Code as ReplyCode};
ghost use Rattle.clock_http.specs.Framing.{framing as framing_of, incomplete};
ghost use Rattle.clock_http.specs.Framing.{refusal as refusal_of};
ghost use Rattle.clock_http.specs.Shown.{IsFramed, shown_framing};
ghost use Rattle.clock_house.specs.House.{HouseFields, StandsForTheSame};
ghost use Rattle.clock_front.specs.{Answered.{AnswersText}, Fronts.{IsCutShort, StandsForTexts}};
ghost use Rattle.clock_front.specs.Effects.{IsRightResponse, RespondsTo};
ghost use Rattle.clock_front.specs.Rooms.{FailsByPrivateAllocation, FailsByAllocation};
ghost use Rattle.clock_front.specs.inside.{TokenTable.{IsTableOf}, FixedPage.{IsProductsPage}};

mod answering;
mod callers;
mod replies;
mod response;

use crate::front::answering::{answer_request, refusal_response};
use crate::front::callers::{Tokens, caller_of, tokens_of};
use crate::front::replies::fixed_reply;
use crate::front::response::unchanged;
use clock_api::{Code, Reply, Routes};
use clock_device::{NoMemory, Text};
use clock_house::House;
use clock_http::{Framing, frame};
use clock_processor::Processor;
use clock_terms::Setup;
use clock_views::{Refusal, products_page};
pub use replies::{AnswerError, no_memory_reply};
pub use response::{Effect, Response};
use std::alloc::Global;
use std::marker::Model;

/// An auction that answers HTTP requests.
///
/// In contracts, a front is its house. It *stands for* the list of requests that it has answered,
/// without those that it answered out of memory: its house stands for the commands that they are.
#[derive(Drop)]
pub struct Front<P> {
    alloc: Global,
    house: House<P>,
    base: FixedParts,
}

/// The parts of a front that never change: whose each token is, the routes, and the page of
/// products.
#[derive(Drop)]
struct FixedParts {
    tokens: Tokens,
    routes: Routes,
    products: Text,
}

/// Builds the constant parts of a front from a set-up.
fn fixed_parts(alloc: Global, setup: &Setup) -> Result<FixedParts, NoMemory>
    ensures { IfOk result (λ base. IsTableOf setup.now base.tokens.entries
        × IsProductsPage setup.now base.products) }
{
    Ok(FixedParts {
        products: products_page(alloc, setup)?,
        routes: Routes::new(alloc)?,
        tokens: tokens_of(alloc, setup)?,
    })
}

impl<P> Model for Front<P> {
    ghost Value = { HouseFields };

    ghost view = { λ f. f.house };

    ghost invariant = { λ f. IsTableOf f.house.setup f.base.tokens.entries
        × IsProductsPage f.house.setup f.base.products };
}

impl<P: Processor> Front<P> {
    /// Creates a front that has answered no request. It stands for the empty list.
    pub fn new(alloc: Global, setup: Setup, processor: P) -> Result<Front<P>, NoMemory>
        ensures setup { IfOk result (λ front. front.setup ≡ setup) }
        ensures stands { IfOk result (StandsForTexts []) }
    {
        let house = House::new(alloc, setup, processor)?;
        match fixed_parts(alloc, house.setup()) {
            Ok(base) => Ok(Front { alloc, house, base }),
            Err(refused) => {
                drop(house);
                Err(refused)
            }
        }
    }

    /// Answers a request that `framing` has split into head and body, after which the input has
    /// ended.
    ///
    /// Errors: out of memory, and then nothing has changed. If the request asks for no change, the
    /// error has the number of bytes that could not be allocated for its page. That number follows
    /// from the right reply, so for a bidder's own request it follows from its view.
    pub fn try_answer(&mut self, framing: Framing<'_>) -> Result<Response, AnswerError>
        requires { (text : List ℕ) × IsFramed text framing }
        ensures response { (text : List ℕ) → IsFramed text framing.entry
            → IfOk result (IsRightResponse text self.old self.new) }
        ensures still { OnErr result (StandsForTheSame self.old self.new) }
        ensures wanted { (text : List ℕ) → IsFramed text framing.entry
            → IfErr result (FailsByAllocation text self.old) }
        ensures wanted_privately { (text : List ℕ) → IsFramed text framing.entry
            → IfErr result (FailsByPrivateAllocation text self.old) }
        ensures refused { (code : ReplyCode)
            → shown_framing framing.entry ≡ refusal_of code → IsOk result }
    {
        self.house.law_of_house();
        match framing {
            Framing::NeedMore => refusal_response(self.alloc, Refusal::bare(Code::CutShort)),
            Framing::Refused(code) => Ok(unchanged(fixed_reply(code))),
            Framing::Whole { head, body } => {
                let caller = caller_of(&self.base.tokens, head.token);
                answer_request(self.alloc, &mut self.house, &self.base, caller, &head, body)
            }
        }
    }

    /// Answers a request like [`Front::answer`], and returns with the reply what the request
    /// changed. Head and body need not be next to each other in memory.
    pub fn respond(&mut self, framing: Framing<'_>) -> Response
        requires { (text : List ℕ) × IsFramed text framing }
        ensures response { (text : List ℕ) → IsFramed text framing.entry
            → RespondsTo text result self.old self.new }
        ensures setup { self.new.setup ≡ self.old.setup }
        ensures refused { (code : ReplyCode) → shown_framing framing.entry ≡ refusal_of code
            → result.reply.code ≡ code }
        ensures cut_short { shown_framing framing.entry ≡ incomplete → IsCutShort result.reply }
    {
        match self.try_answer(framing) {
            Ok(response) => response,
            Err(_) => unchanged(no_memory_reply()),
        }
    }

    /// Answers a request like [`Front::answer`]. Head and body need not be next to each other in
    /// memory.
    pub(crate) fn answer_framed(&mut self, framing: Framing<'_>) -> Reply
        requires { (text : List ℕ) × IsFramed text framing }
        ensures answered { (text : List ℕ) → IsFramed text framing.entry
            → AnswersText text result self.old self.new }
        ensures setup { self.new.setup ≡ self.old.setup }
        ensures refused { (code : ReplyCode) → shown_framing framing.entry ≡ refusal_of code
            → result.code ≡ code }
        ensures cut_short { shown_framing framing.entry ≡ incomplete → IsCutShort result }
    {
        self.respond(framing).reply
    }

    /// Answers a request after which the input has ended. `text` may be incomplete or empty.
    ///
    /// The reply may be that of [`Code::Memory`], and then nothing has changed. A request that is
    /// refused for its head or its length needs no memory. The page of a change is built before the
    /// change is made, so that no accepted change is left without its reply.
    pub fn answer(&mut self, text: &[u8]) -> Reply
        ensures answered { AnswersText text.now result self.old self.new }
        ensures setup { self.new.setup ≡ self.old.setup }
        ensures refused { (code : ReplyCode) → framing_of text.now ≡ refusal_of code
            → result.code ≡ code }
    {
        self.answer_framed(frame(text))
    }

    /// The house of this auction.
    pub fn house(&self) -> &House<P>
        ensures { result.now ≡ self.now }
    {
        &self.house
    }
}
