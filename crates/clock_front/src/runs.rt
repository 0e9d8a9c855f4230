ghost use Rattle.std.specs.Prelude.{[], ◌≡◌, ◌<◌, IfOk, length, Some, None, OnOk};
ghost use Rattle.clock_connections.specs.declared.connections.Event.TheVariants as events;
ghost use Rattle.clock_connections.specs.inside.Numbers.{AreNumbered, conn_at};
ghost use Rattle.clock_connections.specs.Pieces.{Numbered, completed, after};
ghost use Rattle.clock_connections.specs.Connections.{most_serials};
ghost use Rattle.clock_front.specs.{Fronts.{StandsForTexts}, Headline.{IsRun, IsEventRun}};
ghost use Rattle.clock_front.specs.inside.NumberedHubs.{HasTaken};

use crate::front::Front;
use crate::hub::{Fed, Hub};
use clock_api::Reply;
use clock_connections::{Conn, Event, HubFault};
use clock_device::{Items, NoMemory, Text};
use clock_processor::Processor;
use clock_terms::Setup;
use std::alloc::Global;

/// Replies in the order of their requests.
pub type Replies = Items<Reply>;

/// A reply, with the number of its connection.
#[derive(Drop)]
pub struct EventReply {
    pub number: u64,
    pub reply: Reply,
}

/// Replies in the order in which their requests became complete.
pub type EventReplies = Items<EventReply>;

/// Answers requests in order. Requires a front that has answered none.
fn answer_each<P: Processor>(
    alloc: Global,
    front: &mut Front<P>,
    texts: &[Text],
) -> Result<Replies, NoMemory>
    requires { StandsForTexts [] front.old }
    ensures { IfOk result (IsRun front.old.setup texts.now) }
{
    front.house().law_of_house();
    let mut replies = Replies::new(alloc);
    for text in texts {
        replies.push(front.answer(text.as_slice()))?;
    }
    Ok(replies)
}

/// Answers the requests of an auction in order: one reply for each.
///
/// Each reply is the right one after the requests before it, or it is out of memory, and then its
/// request has changed nothing.
///
/// The reply to a bidder's own request is computed from the public set-up, the bidder's row, and
/// its view. So in every other run in which the bidder sees the same, the right reply has the same
/// bytes. The right reply to a request with no valid token depends, besides the request, only on
/// the public set-up and the round results.
///
/// Errors: out of memory for the front or for the list of replies.
pub fn run<P: Processor>(
    alloc: Global,
    setup: Setup,
    processor: P,
    texts: &[Text],
) -> Result<Replies, NoMemory>
    ensures { IfOk result (IsRun setup texts.now) }
{
    let mut front = Front::new(alloc, setup, processor)?;
    let replies = answer_each(alloc, &mut front, texts);
    drop(front);
    replies
}

/// Takes events in order. Requires a hub that has taken none.
fn take_each<P: Processor>(
    alloc: Global,
    hub: &mut NumberedHub<P>,
    events: &[Event],
) -> Result<EventReplies, NoMemory>
    requires none { AreNumbered [] hub.old.hub.connections hub.old.conns }
    requires new { StandsForTexts [] hub.old.hub.house }
    ensures { IfOk result (IsEventRun hub.old.hub.house.setup events.now) }
{
    hub.hub.front().house().law_of_house();
    let mut replies = EventReplies::new(alloc);
    for event in events {
        if let Some(reply) = hub.take_event(event)? {
            replies.push(reply)?;
        }
    }
    Ok(replies)
}

/// Answers requests that arrive in pieces over connections, in the order in which they become
/// complete. Each is answered as [`run`] answers it.
///
/// Errors: out of memory for a connection, a piece, or the list of replies. A request that is out
/// of memory while it is answered has a reply that says so.
pub fn run_events<P: Processor>(
    alloc: Global,
    setup: Setup,
    processor: P,
    events: &[Event],
) -> Result<EventReplies, NoMemory>
    ensures { IfOk result (IsEventRun setup events.now) }
{
    let mut hub = NumberedHub {
        hub: Hub::new(alloc, Front::new(alloc, setup, processor)?),
        conns: Items::new(alloc),
    };
    let replies = take_each(alloc, &mut hub, events);
    drop(hub);
    replies
}

/// A hub whose connections are numbered from 0 in the order in which they were opened or refused.
#[derive(Drop)]
struct NumberedHub<P> {
    hub: Hub<P>,
    conns: Items<Option<Conn>>,
}

impl<P: Processor> NumberedHub<P> {
    /// The connection of this number, if it was opened.
    fn conn(&self, number: u64) -> Option<Conn>
        ensures { result ≡ conn_at self.now.conns number }
    {
        *self.conns.as_slice().get(number as usize)?
    }

    /// Opens a connection with the next number. If no more may be open, the number has none.
    fn take_connect(&mut self) -> Result<(), NoMemory>
        requires { length self.old.conns < most_serials }
        ensures { (numbered : Numbered)
            → AreNumbered numbered self.old.hub.connections self.old.conns → OnOk result
            (HasTaken (after numbered events.Connect) (completed numbered events.Connect)
            self.old.hub self.new.hub self.new.conns None) }
    {
        match self.hub.connect() {
            Ok(conn) => self.conns.push(Some(conn)),
            Err(HubFault::Full) => self.conns.push(None),
            Err(_) => Err(NoMemory),
        }
    }

    /// Takes a piece of a request, and returns the reply if the request is now complete.
    fn take_piece(&mut self, number: u64, piece: &[u8]) -> Result<Option<EventReply>, NoMemory>
        ensures { (numbered : Numbered)
            → AreNumbered numbered self.old.hub.connections self.old.conns → IfOk result
            (HasTaken (after numbered (events.Piece number piece.now))
            (completed numbered (events.Piece number piece.now))
            self.old.hub self.new.hub self.new.conns) }
    {
        let Some(conn) = self.conn(number) else {
            return Ok(None);
        };
        match self.hub.feed(conn, piece) {
            Ok(Fed::More) => Ok(None),
            Ok(Fed::Reply(reply)) => Ok(Some(EventReply { number, reply })),
            Err(HubFault::Unknown) => Ok(None),
            Err(_) => Err(NoMemory),
        }
    }

    /// Ends the input of a connection, and returns the reply if the connection was open.
    fn take_finish(&mut self, number: u64) -> Option<EventReply>
        ensures { (numbered : Numbered)
            → AreNumbered numbered self.old.hub.connections self.old.conns
            → HasTaken (after numbered (events.Finish number))
            (completed numbered (events.Finish number))
            self.old.hub self.new.hub self.new.conns result }
    {
        let Some(conn) = self.conn(number) else {
            return None;
        };
        match self.hub.finish(conn) {
            Ok(reply) => Some(EventReply { number, reply }),
            Err(_) => None,
        }
    }

    /// Takes an event, and returns the reply to the request that it completes, if any.
    fn take_event(&mut self, event: &Event) -> Result<Option<EventReply>, NoMemory>
        requires { length self.old.conns < most_serials }
        ensures { (numbered : Numbered)
            → AreNumbered numbered self.old.hub.connections self.old.conns → IfOk result
            (HasTaken (after numbered event.now) (completed numbered event.now)
            self.old.hub self.new.hub self.new.conns) }
    {
        match event {
            Event::Connect => {
                self.take_connect()?;
                Ok(None)
            }
            Event::Piece(number, piece) => self.take_piece(*number, piece.as_slice()),
            Event::Finish(number) => Ok(self.take_finish(*number)),
        }
    }
}
