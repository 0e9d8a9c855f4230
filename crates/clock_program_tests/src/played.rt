//! Replays, and their report or first fault.

use crate::comparing::{assert_is_at, made_at};
use crate::documents::{Piece, document, repeated};
use clock_api::Code;
use clock_device::{Failed, ListSink, Text};
use clock_fixtures::ONE_PRODUCT;
use clock_processor::Plain;
use clock_sim::{
    Replay, Report, SimFault, play_replay, read_replay, report_text, simulate, simulate_with,
};
use std::alloc::Global;
use std::process::Abort;

/// X's limits fall, or it bids for more than the cap. Y wants one block up to 130.
const FALLING_LIMITS: &str =
    r#"[{"kind":"sincere","limits":[[120,115]]},{"kind":"sincere","limits":[[130]]}]"#;

const OVER_CAP: &str =
    r#"[{"kind":"literal","sheets":[[{"price":100,"product":0,"quantity":3}]]},{"kind":"sincere","limits":[[130]]}]"#;

const TWO_CLOSINGS: &str = r#"[{"increment":10,"ties":[]},{"increment":10,"ties":[]}]"#;

const THREE_CLOSINGS: &str =
    r#"[{"increment":10,"ties":[]},{"increment":10,"ties":[]},{"increment":10,"ties":[]}]"#;

const STEEP_CLOSING: &str = r#"[{"increment":51,"ties":[]}]"#;

/// The report if X leaves its two blocks at 120 and 115.
pub const REPORT: &str =
    "round 1\nA 100 100 100 3 110\nround 2\nA 100 110 110 3 121\nround 3\nA 110 121 115 - -\nwon X 1 115\nwon Y 1 115\n";

/// The text of a report, or the fault instead.
fn reported(alloc: Global, report: Result<Report, SimFault>) -> Result<Text, SimFault> {
    match report {
        Ok(report) => {
            let text = report_text(alloc, &report);
            drop(report);
            Ok(text?)
        }
        Err(fault) => Err(fault),
    }
}

/// The processor of the rounds, and the source of the report's text.
///
/// - [`WOKEN`]: the event queue.
/// - [`RESCANNED`]: the rescanned list.
/// - [`WRITTEN`]: the event queue, with the text as the auction itself writes it.
type Settled<'a> = &'a str;

const WOKEN: Settled<'static> = "woken";

const RESCANNED: Settled<'static> = "rescanned";

const WRITTEN: Settled<'static> = "written";

const ALL_WAYS: &[Settled<'static>] = &[WOKEN, RESCANNED, WRITTEN];

/// Simulates a replay with one of two processors. Returns the text of its report, or its fault.
fn simulated(alloc: Global, replay: &Replay, is_woken: bool) -> Result<Text, SimFault> {
    if is_woken {
        reported(alloc, simulate(alloc, replay))
    } else {
        reported(alloc, simulate_with(alloc, replay, Plain))
    }
}

/// Plays a replay, and writes its report in short pieces. Returns the text, or the fault.
fn written(alloc: Global, replay: Replay) -> Result<Text, SimFault> {
    let mut sink = ListSink::new(alloc, 200, 7, None)?;
    match play_replay(alloc, replay)?.write(&mut sink) {
        Ok(()) => Ok(Text::from_slice(alloc, sink.bytes())?),
        Err(Failed) => Err(SimFault::NoMemory),
    }
}

/// Plays a replay. Returns its report or fault.
fn played(alloc: Global, replay: Replay, settled: Settled<'_>) -> Result<Text, SimFault> {
    if settled == WRITTEN {
        return written(alloc, replay);
    }
    let text = simulated(alloc, &replay, settled == WOKEN);
    drop(replay);
    text
}

/// Plays the replay of a document. Requires that it is a replay.
fn outcome(alloc: Global, document: &[u8], settled: Settled<'_>) -> Result<Text, SimFault> {
    match read_replay(alloc, document) {
        Ok(replay) => played(alloc, replay, settled),
        Err(_) => Err(SimFault::NoMemory),
    }
}

/// The closings and the scripts of a document, and its report or its fault.
type Played<'a> = (&'a str, &'a str, Result<&'a str, SimFault>);

/// Sincere bidders leave at their limits.
const PLAYED: &[Played<'static>] = &[
    (THREE_CLOSINGS, FALLING_LIMITS, Ok(REPORT)),
    (TWO_CLOSINGS, FALLING_LIMITS, Err(SimFault::ClosingsSpent)),
    (
        THREE_CLOSINGS,
        OVER_CAP,
        Err(SimFault::Refused(0, 1, Code::OverCap)),
    ),
    (
        STEEP_CLOSING,
        FALLING_LIMITS,
        Err(SimFault::Closing(1, Code::Increment)),
    ),
];

/// Asserts the report or the fault of a document that is played in one way.
fn comes_to(
    rt: &impl Abort,
    row: &Played<'_>,
    settled: Settled<'_>,
    reported: Result<Text, SimFault>,
) {
    let at = (row.0, row.1, settled);
    match reported {
        Ok(text) => {
            let text = std::str::from_utf8(text.as_slice()).unwrap_or("no text");
            assert_is_at(rt, at, Ok(text), row.2);
        }
        Err(fault) => assert_is_at(rt, at, Err(fault), row.2),
    }
}

/// Asserts the report or the fault of a document, in each way.
fn script_comes_to(rt: &impl Abort, alloc: Global, row: &Played<'_>) {
    let at = (row.0, row.1);
    let document = made_at(rt, at, document(alloc, row.0, row.1, ONE_PRODUCT));
    for settled in ALL_WAYS {
        let reported = outcome(alloc, document.as_slice(), settled);
        comes_to(rt, row, settled, reported);
    }
}

#[test]
fn a_report_or_the_first_fault_is_reported(rt: HostRuntime) {
    for row in PLAYED {
        script_comes_to(&rt, rt.alloc(), row);
    }
}

/// The pieces of a document, and its first fault.
type Faulty<'a> = (&'a [Piece<'a>], Option<SimFault>);

/// Asserts the first fault of the document of a row.
fn has_fault(rt: &impl Abort, alloc: Global, row: &Faulty<'_>, document: Option<Text>) {
    let document = made_at(rt, row.0, document);
    let reported = outcome(alloc, document.as_slice(), WOKEN).err();
    assert_is_at(rt, row.0, reported, row.1);
}

/// What comes before the scripts of 130 bidders, with a closing.
const BEFORE_SCRIPTS: Piece<'static> = (
    r#"{"closings":[{"increment":10,"ties":[]}],"scripts":["#,
    1,
);

/// Scripts that submit a block, and one block too many, as the first of a list.
const FIRST_ONE: Piece<'static> = (
    r#"{"kind":"literal","sheets":[[{"price":100,"product":0,"quantity":1}]]}"#,
    1,
);

const FIRST_TWO: Piece<'static> = (
    r#"{"kind":"literal","sheets":[[{"price":100,"product":0,"quantity":2}]]}"#,
    1,
);

/// These scripts after another script.
const ONE_MORE: &str = r#",{"kind":"literal","sheets":[[{"price":100,"product":0,"quantity":1}]]}"#;

const TWO_MORE: &str = r#",{"kind":"literal","sheets":[[{"price":100,"product":0,"quantity":2}]]}"#;

/// What comes after the scripts, up to the first bidder.
const BEFORE_BIDDERS: &str =
    r#"],"setup":{"version":1,"requirement":95,"operator":"OPERATOROPERATOR","products":[{"name":"A","units":1,"supply":200,"cap":1,"opening":100}],"bidders":[{"eligibility":1,"name":"B0","token":"TOKENTOKENTOKENS0"}"#;

/// Adds a bidder with this number.
fn push_bidder(alloc: Global, text: &mut Text, number: u64) -> Option<()> {
    let bidder = format!(in alloc;
        r#",{{"eligibility":1,"name":"B{number}","token":"TOKENTOKENTOKENS{number}"}}"#
    );
    text.extend_from_slice(bidder.ok()?.as_str().as_bytes())
        .ok()
}

/// Adds the set-up of 130 bidders, and the end of the document.
fn push_bidders(alloc: Global, text: &mut Text) -> Option<()> {
    text.extend_from_slice(BEFORE_BIDDERS.as_bytes()).ok()?;
    for number in 1..130 {
        push_bidder(alloc, text, number)?;
    }
    text.extend_from_slice(b"]}}").ok()
}

/// Makes a document of a round, from the pieces up to its last script.
fn many_sheets(alloc: Global, pieces: &[Piece<'_>]) -> Option<Text> {
    let mut text = repeated(alloc, pieces)?;
    push_bidders(alloc, &mut text)?;
    Some(text)
}

/// Documents of 130 bidders, in two groups of 64 and one of two: the first script, those after it
/// that submit a block, and those after them that submit too many. The fault is that of the first
/// script that submits a block too many.
const GROUPS: &[Faulty<'static>] = &[
    (
        &[BEFORE_SCRIPTS, FIRST_TWO, (TWO_MORE, 129)],
        Some(SimFault::Refused(0, 1, Code::OverCap)),
    ),
    (
        &[BEFORE_SCRIPTS, FIRST_ONE, (TWO_MORE, 129)],
        Some(SimFault::Refused(1, 1, Code::OverCap)),
    ),
    (
        &[BEFORE_SCRIPTS, FIRST_ONE, (ONE_MORE, 62), (TWO_MORE, 67)],
        Some(SimFault::Refused(63, 1, Code::OverCap)),
    ),
    (
        &[BEFORE_SCRIPTS, FIRST_ONE, (ONE_MORE, 63), (TWO_MORE, 66)],
        Some(SimFault::Refused(64, 1, Code::OverCap)),
    ),
    (
        &[BEFORE_SCRIPTS, FIRST_ONE, (ONE_MORE, 128), (TWO_MORE, 1)],
        Some(SimFault::Refused(129, 1, Code::OverCap)),
    ),
    (&[BEFORE_SCRIPTS, FIRST_ONE, (ONE_MORE, 129)], None),
];

#[test]
fn groups_are_answered_in_the_order_of_the_bidders(rt: HostRuntime) {
    for row in GROUPS {
        has_fault(&rt, rt.alloc(), row, many_sheets(rt.alloc(), row.0));
    }
}

/// The scripts of X, up to Y's.
const FALLING: Piece<'static> = (
    r#"{"closings":[],"scripts":[{"kind":"sincere","limits":[[120,115]]},"#,
    1,
);

const OVER: Piece<'static> = (
    r#"{"closings":[],"scripts":[{"kind":"literal","sheets":[[{"price":100,"product":0,"quantity":3}]]},"#,
    1,
);

/// The beginning of Y's script, up to the first bid of its sheet.
const LONG: Piece<'static> = (
    r#"{"kind":"literal","sheets":[[{"price":100,"product":0,"quantity":1}"#,
    1,
);

/// More bids, enough for a body that is too long.
const MORE: Piece<'static> = (r#",{"price":100,"product":0,"quantity":1}"#, 28_000);

/// What comes after the sheet, up to the set-up.
const AFTER: Piece<'static> = (r#"]]}],"setup":"#, 1);

const ONE: Piece<'static> = (ONE_PRODUCT, 1);

const END: Piece<'static> = ("}", 1);

/// A script of X, with a sheet of Y that is too long, and the fault.
const BEFORE: &[Faulty<'static>] = &[
    (
        &[FALLING, LONG, MORE, AFTER, ONE, END],
        Some(SimFault::Refused(1, 1, Code::LongBody)),
    ),
    (
        &[OVER, LONG, MORE, AFTER, ONE, END],
        Some(SimFault::Refused(0, 1, Code::OverCap)),
    ),
];

#[test]
fn a_sheet_that_is_too_long_waits_for_those_before_it(rt: HostRuntime) {
    for row in BEFORE {
        has_fault(&rt, rt.alloc(), row, repeated(rt.alloc(), row.0));
    }
}
