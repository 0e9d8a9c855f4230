//! The rounds of a rehearsal: the sheet of each bidder, then the closing.
//!
//! Each request has a connection of its own, and its head is sent before its body. Sheets are sent
//! in groups: all connections of a group are open at once, and all heads come before the first
//! body.

ghost use Rattle.std.specs.Prelude.{◌≡◌, ◌<◌, [], ◌++◌, Some, ℕ, List, length, true, IfErr, OnOk};
ghost use Rattle.clock_connections.specs.Connections.{open_text, LeavesOthers};
ghost use Rattle.clock_house.specs.House.{state_in};
ghost use Rattle.clock_replays.specs.Replays.{IsScript};
ghost use Rattle.clock_scripts.specs.Pieces.{AwaitsBody};
ghost use Rattle.clock_sim.specs.Rehearsal as rules;
ghost use Rattle.clock_sim.specs.inside.Groups.{AreApart, AreWritten, ComesUnderWay};
ghost use Rattle.clock_sim.specs.inside.Groups.{IsGroupUnderWay, IsNext, HaveTextsFrom, AreWaiting};
ghost use Rattle.clock_sim.specs.inside.Groups.{after_group, requests_in, with_put, with_turn};
ghost use Rattle.clock_sim.specs.inside.Steps.{AreScriptsOf, IsGoing, IsResultByCode, MakesStep};

use clock_api::{Code, Reply};
use clock_connections::{Conn, HubFault};
use clock_device::NoMemory;
use clock_front::{Fed, Hub};
use clock_http::{law_decided_once, law_one_head};
use clock_processor::Processor;
use clock_replays::{Closing, Script};
use clock_scripts::{BidPrefixes, SimFault, Written, write_close, write_put};
use std::alloc::Global;

/// The most requests of a group.
const MOST_WAITING: usize = 64;

/// A bidder's request in a round, where it is in the group's text, and its connection.
#[derive(Drop)]
struct Waiting {
    bidder: u64,
    round: u64,
    written: Written,
    conn: Conn,
}

/// The requests of a group that are not sent yet, and the text that they are in. Groups reuse its
/// memory, one after the other.
#[derive(Drop)]
struct Group {
    text: Vec<u8>,
    waiting: Vec<Waiting>,
}

impl Group {
    /// Sends the heads of the waiting requests, in order. Requires that nothing was sent on their
    /// connections.
    fn feed_heads<P: Processor>(&self, hub: &mut Hub<P>) -> Result<(), HubFault>
        requires { AreWaiting hub.old.connections self.now }
        ensures house { hub.new.house ≡ hub.old.house }
        ensures heads { OnOk result
            (HaveTextsFrom 0 hub.new.connections (requests_in self.now) (λ k one. one.head)) }
    {
        for one in &self.waiting {
            hub.feed(one.conn, &self.text[one.written.head..one.written.end])?;
        }
        Ok(())
    }

    /// Sends the bodies of the waiting requests, in order, and reads the replies. Requires that
    /// their heads were sent. Stops at the first reply that is not `done`.
    fn send_bodies<P: Processor>(&self, hub: &mut Hub<P>) -> Result<(), SimFault>
        requires heads { HaveTextsFrom 0 hub.old.connections (requests_in self.now)
            (λ k one. one.head) }
        requires apart { AreApart (requests_in self.now) }
        requires within { AreWritten self.now }
        ensures step { MakesStep (after_group hub.old.house.setup (requests_in self.now))
            hub.old.house hub.new.house result }
        ensures refusal_code { IfErr result rules.HasRefusalCode }
    {
        for one in &self.waiting {
            let body = &self.text[one.written.body..one.written.head];
            send_body(hub, one.conn, Some(one.bidder), one.round, body)?;
        }
        Ok(())
    }

    /// Sends the waiting requests. After that none waits; their text stays. Stops at the first
    /// reply that is not `done`.
    fn send_all<P: Processor>(&mut self, hub: &mut Hub<P>) -> Result<(), SimFault>
        requires { AreWaiting hub.old.connections self.old }
        ensures step { MakesStep (after_group hub.old.house.setup (requests_in self.old))
            hub.old.house hub.new.house result }
        ensures refusal_code { IfErr result rules.HasRefusalCode }
        ensures none { OnOk result (requests_in self.new ≡ []) }
        ensures text { OnOk result (self.new.text ≡ self.old.text) }
    {
        self.feed_heads(hub)?;
        self.send_bodies(hub)?;
        self.waiting.clear();
        Ok(())
    }
}

/// Returns the result of a request with this reply: `Ok` if it is done, `NoMemory` if it is out of
/// memory, otherwise the refusal of the bidder `sender`, or without one of the operator.
fn reported(code: Code, sender: Option<u64>, round: u64) -> Result<(), SimFault>
    ensures step { IsResultByCode code (rules.refused_by sender round code) result }
    ensures refusal_code { IfErr result rules.HasRefusalCode }
{
    match (code, sender) {
        (Code::Done, _) => Ok(()),
        (Code::Memory, _) => Err(SimFault::NoMemory),
        (_, Some(bidder)) => Err(SimFault::Refused(bidder, round, code)),
        (_, None) => Err(SimFault::Closing(round, code)),
    }
}

/// Sends the body of a request whose head was sent on `conn`, and reads the reply. Returns the
/// fault of the reply if it is not `done`.
fn send_body<P: Processor>(
    hub: &mut Hub<P>,
    conn: Conn,
    sender: Option<u64>,
    round: u64,
    body: &[u8],
) -> Result<(), SimFault>
    ensures step { (head : List ℕ) → open_text hub.old.connections conn ≡ Some head
        → MakesStep (λ texts. rules.after_request hub.old.house.setup texts sender round
        (head ++ body.now)) hub.old.house hub.new.house result }
    ensures refusal_code { IfErr result rules.HasRefusalCode }
    ensures others { (head : List ℕ) → open_text hub.old.connections conn ≡ Some head
        → OnOk result (LeavesOthers hub.old.connections hub.new.connections conn) }
{
    let reply = match hub.feed(conn, body)? {
        Fed::Reply(reply) => reply,
        Fed::More => hub.finish(conn)?,
    };
    reported(reply.code(), sender, round)
}

/// Sends a request on a connection of its own, and reads the reply. If the head is refused, the
/// body is not sent.
fn send<P: Processor>(
    hub: &mut Hub<P>,
    sender: Option<u64>,
    round: u64,
    head: &[u8],
    body: &[u8],
) -> Result<(), SimFault>
    ensures step { MakesStep (λ texts. rules.after_request hub.old.house.setup texts sender round
        (head.now ++ body.now)) hub.old.house hub.new.house result }
    ensures refusal_code { IfErr result rules.HasRefusalCode }
{
    law_decided_once();
    law_one_head();
    let conn = hub.connect()?;
    match hub.feed(conn, head)? {
        Fed::More => send_body(hub, conn, sender, round, body),
        Fed::Reply(reply) => reported(reply.code(), sender, round),
    }
}

/// Submits the request of a bidder that was written into the group's text. It joins the group,
/// which is sent when it is full. A request that is answered at its head is sent by itself, after
/// the waiting ones.
fn submit<P: Processor>(
    hub: &mut Hub<P>,
    group: &mut Group,
    bidder: u64,
    round: u64,
    written: Written,
) -> Result<(), SimFault>
    requires next { IsNext hub.old group.old written }
    requires awaits { AwaitsBody group.old.text.items written }
    ensures step { ComesUnderWay (with_turn hub.old.house.setup group.old bidder round written)
        hub.old hub.new group.new result }
    ensures refusal_code { IfErr result rules.HasRefusalCode }
{
    if !written.needs_body() {
        group.send_all(hub)?;
        let head = &group.text[written.head..written.end];
        let body = &group.text[written.body..written.head];
        return send(hub, Some(bidder), round, head, body);
    }
    let conn = hub.connect()?;
    let one = Waiting {
        bidder,
        round,
        written,
        conn,
    };
    group.waiting.push(one).or(Err(NoMemory))?;
    if group.waiting.len() >= MOST_WAITING {
        return group.send_all(hub);
    }
    Ok(())
}

/// Submits the sheet that a bidder's script gives, if any. Requires a bidder of the set-up, and an
/// auction that has not ended.
fn put_scripted<P: Processor>(
    hub: &mut Hub<P>,
    group: &mut Group,
    bidder: u32,
    script: &Script,
    prefixes: &mut BidPrefixes,
) -> Result<(), SimFault>
    requires known { bidder < length hub.old.house.setup.bidders }
    requires script { IsScript hub.old.house.setup.products script.now }
    requires under_way { IsGroupUnderWay hub.old group.old }
    ensures step { ComesUnderWay (with_put hub.old.house.setup
        (requests_in group.old) bidder script.now) hub.old hub.new group.new result }
    ensures refusal_code { IfErr result rules.HasRefusalCode }
{
    if group.waiting.is_empty() {
        group.text.clear();
    }
    let house = hub.front().house();
    let round = house.round();
    let Some(written) = write_put(&mut group.text, house, bidder, script, prefixes)? else {
        return Ok(());
    };
    submit(hub, group, bidder as u64, round, written)
}

/// Submits the sheets of all bidders, in the order of the set-up. Stops at the first reply that is
/// not `done`.
fn put_all<P: Processor>(
    hub: &mut Hub<P>,
    group: &mut Group,
    scripts: &[Script],
    prefixes: &mut BidPrefixes,
) -> Result<(), SimFault>
    requires scripts { AreScriptsOf hub.old.house.setup scripts.now }
    requires going { IsGoing hub.old.house }
    ensures step { MakesStep
        (rules.after_puts hub.old.house.setup 0 scripts.now) hub.old.house hub.new.house result }
    ensures refusal_code { IfErr result rules.HasRefusalCode }
{
    // the law bounds the number of bidders, so that each fits in 32 bits
    hub.front().house().law_of_house();
    group.waiting.clear();
    for (bidder, script) in scripts.iter().enumerate() {
        put_scripted(hub, group, bidder as u32, script, prefixes)?;
    }
    group.send_all(hub)
}

/// Closes the current round. The request overwrites `text`.
fn close_scripted<P: Processor>(
    hub: &mut Hub<P>,
    text: &mut Vec<u8>,
    closing: &Closing,
) -> Result<(), SimFault>
    ensures step { MakesStep
        (rules.after_close hub.old.house.setup closing.now) hub.old.house hub.new.house result }
    ensures refusal_code { IfErr result rules.HasRefusalCode }
{
    text.clear();
    let house = hub.front().house();
    let round = house.round();
    let written = write_close(text, house, closing)?;
    let head = &text[written.head..written.end];
    send(hub, None, round, head, &text[written.body..written.head])
}

/// Plays round after round until the auction ends: in each, the bidders submit their sheets and the
/// operator closes it. Returns the first fault, or `ClosingsSpent` if no closing is left.
pub(crate) fn play<P: Processor>(
    alloc: Global,
    hub: &mut Hub<P>,
    scripts: &[Script],
    closings: &[Closing],
) -> Result<(), SimFault>
    requires scripts { AreScriptsOf hub.old.house.setup scripts.now }
    requires going { IsGoing hub.old.house }
    ensures step { MakesStep (rules.rehearsed hub.old.house.setup scripts.now closings.now)
        hub.old.house hub.new.house result }
    ensures refusal_code { IfErr result rules.HasRefusalCode }
    ensures ended { OnOk result ((state_in hub.new.house).ended ≡ true) }
{
    let mut group = Group {
        text: Vec::new(alloc),
        waiting: Vec::new(alloc),
    };
    let mut prefixes = BidPrefixes::new(alloc);
    for closing in closings {
        put_all(hub, &mut group, scripts, &mut prefixes)?;
        close_scripted(hub, &mut group.text, closing)?;
        if hub.front().house().ended() {
            return Ok(());
        }
    }
    put_all(hub, &mut group, scripts, &mut prefixes)?;
    Err(SimFault::ClosingsSpent)
}
