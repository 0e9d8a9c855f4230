//! Writes the requests of scripted bidders and of the operator into one text. For each, the body
//! comes before the head, since the head has the length of the body.

ghost use Rattle.std.specs.Prelude.{◌≡◌, ◌<◌, ◌≤◌, ◌-◌, false, length, IfOk, IfSome};
ghost use Rattle.clock_house.specs.House.{state_in};
ghost use Rattle.clock_replays.specs.Replays.{IsScript};
ghost use Rattle.clock_scripts.specs.Pieces.{AwaitsBody, Writes, WritesIf, is_awaited};
ghost use Rattle.clock_scripts.specs.inside.Heads.{HasRequestHead};
ghost use Rattle.clock_scripts.specs.ScriptedRequests as rules;

use crate::bodies::{push_closing, push_label, push_number, push_sheet};
use crate::prefixes::BidPrefixes;
use crate::sincere::push_sincere;
use clock_device::NoMemory;
use clock_house::House;
use clock_http::{MOST_BODY, law_head_of_grammar};
use clock_replays::{Closing, Script};

/// The position of a request in the text into which it was written.
#[derive(Clone, Copy)]
pub struct Written {
    /// The index at which its body begins.
    pub body: usize,
    /// The index at which its body ends and its head begins.
    pub head: usize,
    /// The index at which its head ends.
    pub end: usize,
}

impl Written {
    /// Returns whether the server reads the body. It does not read a body that is
    /// empty or too long.
    pub fn needs_body(&self) -> bool
        requires { self.now.body ≤ self.now.head }
        ensures { result ≡ is_awaited (self.now.head - self.now.body) }
    {
        matches!(self.head - self.body, 1..=MOST_BODY)
    }
}

/// Writes the head of the request whose body begins at index `body` and ends the text.
fn push_head(
    text: &mut Vec<u8>,
    body: usize,
    line: &[u8],
    token: &[u8],
) -> Result<Written, NoMemory>
    requires { body ≤ length text.old.items }
    ensures { IfOk result (HasRequestHead line.now token.now body text.old.items text.new.items) }
{
    let head = text.len();
    push_label(text, line)?;
    push_label(text, b" HTTP/1.1\r\nauthorization: Bearer ")?;
    push_label(text, token)?;
    push_number(text, b"\r\ncontent-length: ", (head - body) as u64)?;
    push_label(text, b"\r\n\r\n")?;
    let end = text.len();
    Ok(Written { body, head, end })
}

/// Writes the request that submits the sheet of a bidder's script, if it has one for this round.
/// Texts in `prefixes` are reused, and change nothing but the time that it takes.
#[tactic(auto, unfolding(crate::specs::ScriptedRequests::scripted_put))]
pub fn write_put<P>(
    text: &mut Vec<u8>,
    house: &House<P>,
    bidder: u32,
    script: &Script,
    prefixes: &mut BidPrefixes,
) -> Result<Option<Written>, NoMemory>
    requires known { bidder < length house.now.setup.bidders }
    requires going { (state_in house.now).ended ≡ false }
    requires script { IsScript house.now.setup.products script.now }
    ensures writes { IfOk result (WritesIf text.old.items text.new.items
        (rules.scripted_put house.now.setup house.now.closed bidder script.now)) }
    ensures awaits { IfOk result (λ written. IfSome written (AwaitsBody text.new.items)) }
{
    let body = text.len();
    match script {
        Script::Sincere(limits) => push_sincere(text, house, bidder, limits, prefixes)?,
        Script::Literal(sheets) => {
            let round = house.round();
            match sheets.get(round.saturating_sub(1) as usize) {
                Some(Some(bids)) => push_sheet(text, round, bids.as_slice())?,
                _ => return Ok(None),
            }
        }
    }
    law_head_of_grammar();
    let sender = &house.setup().bidders.as_slice()[bidder as usize];
    let written = push_head(text, body, b"PUT /v1/me/bids", sender.token.as_slice())?;
    Ok(Some(written))
}

/// Writes the request that closes the current round.
pub fn write_close<P>(
    text: &mut Vec<u8>,
    house: &House<P>,
    closing: &Closing,
) -> Result<Written, NoMemory>
    ensures { IfOk result (Writes text.old.items text.new.items
        (rules.scripted_close house.now.setup house.now.closed closing.now)) }
{
    let body = text.len();
    push_closing(text, house.round(), closing)?;
    let token = house.setup().operator.as_slice();
    push_head(text, body, b"POST /v1/close", token)
}
