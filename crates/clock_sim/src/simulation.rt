ghost use Rattle.std.specs.Prelude.{◌≡◌, ◌||◌, [], Ok, true, IfOk, IfErr, OnOk, is_err};
ghost use Rattle.clock_device.specs.Streams.{WritesText};
ghost use Rattle.clock_terms.specs.Faults.{IsRefusal};
ghost use Rattle.clock_house.specs.House.{state_in};
ghost use Rattle.clock_front.specs.Fronts.{StandsForTexts};
ghost use Rattle.clock_reports.specs.{FinalReport.{report_of}, Reports.{IsReport}};
ghost use Rattle.clock_reports.specs.ReportText.{report_text};
ghost use Rattle.clock_sim.specs.Rehearsal as rules;
ghost use Rattle.clock_sim.specs.inside.Steps.{AreScriptsOf, replay_of};

use crate::rounds::play;
use clock_device::{Failed, Sink};
use clock_front::{Front, Hub};
use clock_processor::Processor;
use clock_queue::Woken;
use clock_replays::{Closing, Closings, Replay, Script, Scripts};
use clock_reports::{Report, ReportWriter, report_so_far};
use clock_scripts::SimFault;
use std::alloc::Global;
use std::marker::Model;

/// Plays an auction to its end. Requires that the front has answered no request.
fn play_out<P: Processor>(
    alloc: Global,
    hub: &mut Hub<P>,
    scripts: &[Script],
    closings: &[Closing],
) -> Result<(), SimFault>
    requires first { StandsForTexts [] hub.old.house }
    requires scripts { AreScriptsOf hub.old.house.setup scripts.now }
    ensures setup { hub.new.house.setup ≡ hub.old.house.setup }
    ensures ok { OnOk result (rules.simulated (replay_of hub.old.house scripts.now closings.now)
        ≡ Ok (report_of hub.new.house.setup hub.new.house.closed)) }
    ensures ended { OnOk result ((state_in hub.new.house).ended ≡ true) }
    ensures err { IfErr result (IsRefusal SimFault.NoMemory
        (rules.simulated (replay_of hub.old.house scripts.now closings.now))) }
    ensures refusal_code { IfErr result rules.HasRefusalCode }
{
    play(alloc, hub, scripts, closings)
}

/// Plays an auction to its end, and makes its report. Requires that the front has answered no
/// request.
fn played<P: Processor>(
    alloc: Global,
    hub: &mut Hub<P>,
    replay: &Replay,
) -> Result<Report, SimFault>
    requires first { StandsForTexts [] hub.old.house }
    requires same { hub.old.house.setup ≡ replay.now.setup }
    ensures ok { IfOk result (λ report. rules.simulated replay.now ≡ Ok report) }
    ensures report { IfOk result IsReport }
    ensures err { IfErr result (IsRefusal SimFault.NoMemory (rules.simulated replay.now)) }
    ensures refusal_code { IfErr result rules.HasRefusalCode }
{
    let scripts = replay.scripts.as_slice();
    play_out(alloc, hub, scripts, replay.closings.as_slice())?;
    Ok(report_so_far(alloc, hub.front().house())?)
}

/// Plays an auction like [`simulate`], with `processor` for bid processing.
pub fn simulate_with<P: Processor + Drop>(
    alloc: Global,
    replay: &Replay,
    processor: P,
) -> Result<Report, SimFault>
    ensures ok { IfOk result (λ report. rules.simulated replay.now ≡ Ok report) }
    ensures report { IfOk result IsReport }
    ensures err { IfErr result (IsRefusal SimFault.NoMemory (rules.simulated replay.now)) }
    ensures refusal_code { IfErr result rules.HasRefusalCode }
{
    let setup = replay.setup.copy(alloc)?;
    let mut hub = Hub::new(alloc, Front::new(alloc, setup, processor)?);
    let report = played(alloc, &mut hub, replay);
    drop(hub);
    report
}

/// Plays an auction, and returns its report. In each round the bidders submit the sheets that their
/// scripts give, in the order of the set-up; then the next closing is made. This repeats until the
/// auction ends; further closings are ignored.
///
/// Each sheet and closing is sent as the bytes of a live request, on a connection of its own.
/// Sheets are sent in groups of at most 64: a group's connections are opened, then all heads are
/// sent, then all bodies. A sheet that is too long is refused at its head, and is sent by itself.
///
/// Errors: the first in the order of the requests, either a refusal or that no closing is left. May
/// return `NoMemory`, which then replaces any other result.
pub fn simulate(alloc: Global, replay: &Replay) -> Result<Report, SimFault>
    ensures ok { IfOk result (λ report. rules.simulated replay.now ≡ Ok report) }
    ensures report { IfOk result IsReport }
    ensures err { IfErr result (IsRefusal SimFault.NoMemory (rules.simulated replay.now)) }
    ensures refusal_code { IfErr result rules.HasRefusalCode }
{
    simulate_with(alloc, replay, Woken)
}

/// Plays an auction to its end. Requires that the front has answered no request. Drops scripts and
/// closings, to free their memory.
fn play_and_free<P: Processor>(
    alloc: Global,
    hub: &mut Hub<P>,
    scripts: Scripts,
    closings: Closings,
) -> Result<(), SimFault>
    requires first { StandsForTexts [] hub.old.house }
    requires scripts { AreScriptsOf hub.old.house.setup scripts }
    ensures setup { hub.new.house.setup ≡ hub.old.house.setup }
    ensures ok { OnOk result (rules.played_text (replay_of hub.old.house scripts closings)
        ≡ Ok (report_text (report_of hub.new.house.setup hub.new.house.closed))) }
    ensures ended { OnOk result ((state_in hub.new.house).ended ≡ true) }
    ensures err { IfErr result (IsRefusal SimFault.NoMemory
        (rules.played_text (replay_of hub.old.house scripts closings))) }
    ensures refusal_code { IfErr result rules.HasRefusalCode }
{
    let played = play_out(alloc, hub, scripts.as_slice(), closings.as_slice());
    drop(scripts);
    drop(closings);
    played
}

/// An auction that was played to its end, and what its report is written with. In contracts, it is
/// the text of the report.
#[derive(Drop)]
pub struct PlayedReplay {
    hub: Hub<Woken>,
    writer: ReportWriter,
}

impl Model for PlayedReplay {
    ghost use Rattle.std.specs.Prelude.{List, ℕ};
    ghost use Rattle.clock_reports.specs.{FinalReport.{report_of}, ReportText.{report_text}};
    ghost use Rattle.clock_sim.specs.inside.Steps.{IsPlayed};

    ghost Value = { List ℕ };

    ghost view = { λ p. report_text (report_of p.hub.house.setup p.hub.house.closed) };

    ghost invariant = { λ p. IsPlayed p.hub.house p.writer };
}

impl PlayedReplay {
    /// Writes the text of the report, or a prefix of it if a write fails. Allocates nothing.
    pub fn write<W: Sink>(self, sink: &mut W) -> Result<(), Failed>
        ensures bytes { WritesText (W.report sink.old).taken (W.report sink.new).taken
            self result }
        ensures failed { (W.report sink.new).has_failed
            ≡ ((W.report sink.old).has_failed || is_err result) }
    {
        let PlayedReplay { hub, mut writer } = self;
        let written = writer.write(sink, hub.front().house());
        drop(hub);
        written
    }
}

/// Plays an auction like [`simulate`], and returns it, so that the text of its report can be
/// written. Errors are those of [`simulate`]. Takes the replay so as to copy no sheet.
pub fn play_replay(alloc: Global, replay: Replay) -> Result<PlayedReplay, SimFault>
    ensures ok { IfOk result (λ text. rules.played_text replay ≡ Ok text) }
    ensures err { IfErr result (IsRefusal SimFault.NoMemory (rules.played_text replay)) }
    ensures refusal_code { IfErr result rules.HasRefusalCode }
{
    // What the report is written with is allocated before the auction is played.
    let writer = ReportWriter::new(alloc, &replay.setup)?;
    let mut hub = Hub::new(alloc, Front::new(alloc, replay.setup, Woken)?);
    match play_and_free(alloc, &mut hub, replay.scripts, replay.closings) {
        Ok(()) => Ok(PlayedReplay { hub, writer }),
        Err(fault) => {
            drop(hub);
            Err(fault)
        }
    }
}
