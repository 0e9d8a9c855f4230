//! One generation of a server: it replays the texts of its journal, and serves.
ghost use Rattle.std.specs.Prelude.{◌≡◌, [], ◌∷◌, List, ℕ, Err, IfOk, None, Ok, OnOk, Some};
ghost use Rattle.std.specs.Prelude.{true, false};
ghost use Rattle.clock_terms.specs.Limits.{SetupFields};
ghost use Rattle.clock_journal.specs.Sources.{HasBytes, IsUnreadable};
ghost use Rattle.clock_front.specs.{Effects.{effect as effect_of}, Fronts.{StandsForTexts}};
ghost use Rattle.clock_server.specs.Keeping.{GrowsBy, IsAccepted, IsRefused};
ghost use Rattle.clock_server.specs.inside.NotTaken.{not_taken_by};
ghost use Rattle.clock_server.specs.Exchanges.{Came, Exchange, bytes_given};
ghost use Rattle.clock_server.specs.Generations.{EndsGeneration, GenerationsContinue};
ghost use Rattle.clock_server.specs.MirroredGenerations.{MirroredGenerationsContinue};

use crate::acceptor::Listen;
use crate::request_log::{Announced, Announcer};
use crate::serving::{ServeFault, serve_all};
use clock_api::Code;
use clock_device::Source;
use clock_front::{Effect, Front};
use clock_http::frame;
use clock_journal::{
    Durable, EndedJournal, JournalFault, Machine, NewJournal, Record, Recovered, TakeError,
    law_of_mirrors,
};
use clock_processor::Processor;
use std::alloc::Global;

/// A front that takes the texts of a journal, as a [`Machine`]. It refuses a text that changes
/// nothing.
#[derive(Drop)]
pub struct ReplayedAuction<P> {
    pub front: Front<P>,
}

impl<P: Processor> Machine for ReplayedAuction<P> {
    ghost Rules = { SetupFields };

    ghost rules = { λ auction. auction.front.setup };

    ghost stands_for = { λ auction digest texts. StandsForTexts texts auction.front };

    ghost refuses = { λ setup texts text. IsRefused setup texts text };

    fn take(&mut self, text: &[u8], _at: &Record) -> Result<(), TakeError> {
        take_text(&mut self.front, text)?;
        Ok(())
    }
}

/// Gives a front the next text of its journal, and returns what the text changed. It takes no text
/// that changes nothing, since no server logged it. Errors: `NoMemory` if the reply says so;
/// `Refused` for any other text that changes nothing. Do not use the front after an `Err`.
pub fn take_text<P: Processor>(front: &mut Front<P>, text: &[u8]) -> Result<Effect, TakeError>
    ensures taken { (texts : List (List ℕ)) → StandsForTexts texts front.old
        → IfOk result (λ effect. effect ≡ effect_of front.old.setup texts text.now) }
    ensures stands { (texts : List (List ℕ)) → StandsForTexts texts front.old
        → IfOk result (λ effect. StandsForTexts (text.now ∷ texts) front.new) }
    ensures accepted { (texts : List (List ℕ)) → StandsForTexts texts front.old
        → OnOk result (IsAccepted front.old.setup texts text.now) }
    ensures refused { (texts : List (List ℕ)) → result ≡ Err TakeError.Refused
        → StandsForTexts texts front.old → IsRefused front.old.setup texts text.now }
    ensures setup { front.new.setup ≡ front.old.setup }
{
    let response = front.respond(frame(text));
    if response.effect != Effect::Nothing {
        return Ok(response.effect);
    }
    Err(not_taken(response.reply.code()))
}

/// Returns why a text that changes nothing was not taken, by the code of its reply.
fn not_taken(code: Code) -> TakeError
    ensures { result ≡ not_taken_by code }
{
    match code {
        Code::Memory => TakeError::NoMemory,
        _ => TakeError::Refused,
    }
}

/// Why a server ended before it served all connections.
///
/// - `Start`: its journal could not be resumed.
/// - `Listen`: it could not listen for connections.
/// - `Serve`: not all connections could be served.
#[derive(Clone, Copy, Debug, PartialEq, Eq)]
pub enum ServerFault<E> {
    Start(JournalFault),
    Listen(E),
    Serve(ServeFault),
}

/// Runs one generation of a server: resumes the journal of a file with [`NewJournal::resume`],
/// listens for connections, and serves `count` of them with [`serve_all`]. The program serves with
/// this call. `source` has all bytes of the file. It is read record by record, so at most one
/// record is in memory, and dropped before the server listens. Returns the journal as it ended,
/// too, and the source if the journal could not be resumed.
///
/// If the file is what a crash left of this auction's journal, the start is not refused, and each
/// reply is the right one after the logged texts. What a crash leaves after that is this auction's
/// journal again. [`law_of_generations`] says what follows for any number of crashes. All this is
/// said of the bytes that the source has, which are `bytes` if it reports them.
///
/// Requires an auction without texts, a journal that has not failed, and connections of which none
/// is open and none has failed.
///
/// Errors: `Start`, `Listen`, or `Serve`, of the first of these calls that fails. Do not use the
/// auction afterward.
pub fn serve_from<P, D, S, A, C, F>(
    alloc: Global,
    auction: &mut ReplayedAuction<P>,
    journal: NewJournal<D>,
    announcer: A,
    mut source: S,
    tell: F,
    connections: &mut C,
    count: u64,
) -> (
    Result<(), ServerFault<C::Fault>>,
    EndedJournal<D>,
    Option<S>,
)
where
    P: Processor,
    D: Durable + Drop,
    S: Source + Drop,
    A: Announcer + Drop,
    C: Listen,
    F: FnOnce(Recovered),
    requires fresh { StandsForTexts [] auction.old.front }
    requires unfailed { journal.has_failed ≡ false }
    requires callable { F.IsAlwaysCallable tell }
    requires closed { C.offer connections.old ≡ None }
    requires taken { C.has_failed connections.old ≡ false }
    ensures generation { (exchanges : List Exchange) × (bytes : List ℕ)
        × HasBytes (S.report source).left bytes
        × GrowsBy (C.closed connections.old) (C.closed connections.new) exchanges
        × Came (C.coming connections.old) (C.coming connections.new) (bytes_given exchanges)
        × EndsGeneration auction.old.front.setup count exchanges bytes journal result.1 result.0
        × (result.0 ≡ Err (ServerFault.Start JournalFault.Unread) → (read : S)
        × (result.2 ≡ Some read) × IsUnreadable (S.report source) (S.report read) bytes) }
    ensures closed { C.offer connections.new ≡ None }
    ensures taken { result.0 ≡ Err (ServerFault.Serve ServeFault.Accept)
        → C.has_failed connections.new ≡ true }
{
    let (journal, recovered) = match journal.resume(alloc, auction, &mut source, tell) {
        Ok(made) => made,
        Err((fault, ended)) => return (Err(ServerFault::Start(fault)), ended, Some(source)),
    };
    drop(source);
    if let Err(fault) = connections.listen(recovered) {
        return (Err(ServerFault::Listen(fault)), journal.end(), None);
    }
    let mut log = Announced { journal, announcer };
    match serve_all(alloc, &mut auction.front, &mut log, connections, count) {
        Ok(()) => (Ok(()), log.end(), None),
        Err(fault) => (Err(ServerFault::Serve(fault)), log.end(), None),
    }
}

/// The second headline, a law, which does nothing when it runs: generations that start on what a
/// crash may have left of the one before continue one auction.
pub fn law_of_generations()
    ensures { GenerationsContinue }
{}

/// The third promise, a law: the same of a journal in two files, of which each crash may lose one.
pub fn law_of_mirrored_generations()
    ensures { MirroredGenerationsContinue }
{
    law_of_mirrors();
    law_of_generations();
}
