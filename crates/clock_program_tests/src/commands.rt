//! Runs of the program on bytes in memory. The gate compares the output for each kind of document
//! and arguments on the built program.
use crate::comparing::{assert_is_at, assert_reads_at, made_at};
use crate::documents::repeated;
use crate::played::REPORT;
use clock_commands::command;
use clock_device::{ListSink, ListSource, Stop, Text};
use clock_fixtures::ONE_PRODUCT;
use std::alloc::Global;
use std::process::Abort;

/// The streams of a run: the read that stops, and why; the most bytes of output; the write of
/// output that fails, and the write of a fault line that fails.
type Streams = (Option<(u64, Stop)>, usize, Option<u64>, Option<u64>);

/// Streams that never fail.
const SOUND_STREAMS: Streams = (None, 200, None, None);

/// The status of a run, its output, and its fault line.
#[derive(Drop)]
struct Ending {
    status: u8,
    output: ListSink,
    faults: ListSink,
}

/// Runs the program with arguments on a document, which is read in pieces of 50 bytes and answered
/// in pieces of 5.
fn run(alloc: Global, words: &[&str], document: &[u8], streams: &Streams) -> Option<Ending> {
    let mut reader = ListSource::new(document, 50, streams.0);
    let mut output = ListSink::new(alloc, streams.1, 5, streams.2).ok()?;
    let mut faults = ListSink::new(alloc, 4096, 1000, streams.3).ok()?;
    let status = command(alloc, words, &mut reader, &mut output, &mut faults);
    Some(Ending {
        status,
        output,
        faults,
    })
}

/// The expected end of a run: its status, its output, and its fault line.
type Reported<'a> = (u8, &'a str, &'a str);

/// A run: its arguments, its document or what is special in it, its streams, and its end.
type Run<'a> = (&'a [&'a str], &'a str, Streams, Reported<'a>);

/// Asserts the end of a run on a document. A failure names the run, and what else is special in it.
fn ends(rt: &impl Abort, alloc: Global, row: &Run<'_>, closings: &str, document: &[u8]) {
    let at = (row.0, row.1, closings, row.2);
    let run = made_at(rt, at, run(alloc, row.0, document, &row.2));
    assert_is_at(rt, at, run.status, row.3.0);
    assert_reads_at(rt, at, run.output.bytes(), row.3.1);
    assert_reads_at(rt, at, run.faults.bytes(), row.3.2);
    drop(run);
}

/// Asserts the ends of runs.
fn all_end(rt: &impl Abort, alloc: Global, runs: &[Run<'_>]) {
    for row in runs {
        ends(rt, alloc, row, "", row.1.as_bytes());
    }
}

/// The set-up of one product, with three blocks requested in round 1, and an increment of 10.
const OPENING: &str = r#"{"setup":{"version":1,"requirement":95,"operator":"OPERATOROPERATOR",
"products":[{"name":"A","units":1,"supply":2,"cap":2,"opening":100}],
"bidders":[{"name":"X","token":"XXXXXXXXXXXXXXXX","eligibility":10},
{"name":"Y","token":"YYYYYYYYYYYYYYYY","eligibility":10}]},"demands":[[2],[1]],"increment":10}"#;

/// The output for [`OPENING`].
const OPENED: &str = "round 1\nA 100 100 100 3 110\n";

/// A replay whose set-up has no fields.
const NO_SETUP: &str = r#"{"setup":{},"scripts":[],"closings":[]}"#;

const PRICES: &[&str] = &["prices"];

const REPLAY: &[&str] = &["replay"];

/// The output for the set-up of one product.
const LINE: &str = "A 100 110\n";

/// Runs whose streams never fail.
const SOUND: &[Run<'static>] = &[
    (&[], ONE_PRODUCT, SOUND_STREAMS, (0, LINE, "")),
    (PRICES, ONE_PRODUCT, SOUND_STREAMS, (0, LINE, "")),
    (
        &["prices", "--increment=1"],
        ONE_PRODUCT,
        SOUND_STREAMS,
        (0, "A 100 101\n", ""),
    ),
    (&["opening"], OPENING, SOUND_STREAMS, (0, OPENED, "")),
    (
        PRICES,
        "",
        SOUND_STREAMS,
        (1, "", "fault: setup_not_json\n"),
    ),
    (
        PRICES,
        "{",
        SOUND_STREAMS,
        (1, "", "fault: setup_not_json\n"),
    ),
    (&["opening"], "[]", SOUND_STREAMS, (1, "", "fault: shape\n")),
    (
        &["replay"],
        NO_SETUP,
        SOUND_STREAMS,
        (1, "", "fault: setup_shape\n"),
    ),
];

#[test]
fn words_ask_for_the_lines_of_a_document(rt: HostRuntime) {
    all_end(&rt, rt.alloc(), SOUND);
}

/// Scripts by which X leaves two blocks at 120 and 115, and Y one at 130.
const SINCERE: &str =
    r#"{"kind":"sincere","limits":[[120,115]]},{"kind":"sincere","limits":[[130]]}"#;

/// Three closings, which these scripts need to end.
const CLOSINGS: &str =
    r#"{"increment":10,"ties":[]},{"increment":10,"ties":[]},{"increment":10,"ties":[]}"#;

/// The scripts and the closings of a replay, and its end.
type Replayed<'a> = (&'a str, &'a str, Reported<'a>);

const REPLAYS: &[Replayed<'static>] = &[
    (SINCERE, CLOSINGS, (0, REPORT, "")),
    ("{", CLOSINGS, (1, "", "fault: not_json\n")),
    ("1", CLOSINGS, (1, "", "fault: shape\n")),
    (
        r#"{"kind":"literal","sheets":[]}"#,
        CLOSINGS,
        (1, "", "fault: scripts\n"),
    ),
    (
        r#"{"kind":"sincere","limits":[[115,120]]},{"kind":"literal","sheets":[]}"#,
        CLOSINGS,
        (1, "", "fault: limits 0 0\n"),
    ),
    (
        r#"{"kind":"literal","sheets":[[{"price":100,"product":0,"quantity":3}]]},{"kind":"literal","sheets":[]}"#,
        CLOSINGS,
        (1, "", "fault: refused 0 1 over_cap\n"),
    ),
    (
        SINCERE,
        r#"{"increment":51,"ties":[]}"#,
        (1, "", "fault: closing 1 increment\n"),
    ),
    (
        SINCERE,
        r#"{"increment":10,"ties":[]},{"increment":10,"ties":[]}"#,
        (1, "", "fault: closings_spent\n"),
    ),
    (
        SINCERE,
        r#"{"increments":[10],"ties":[]}"#,
        (1, "", "fault: shape\n"),
    ),
];

/// A replay of the set-up of one product with these scripts and closings.
fn replay_document<'a>(alloc: Global, scripts: &'a str, closings: &'a str) -> Option<Text> {
    let pieces = [
        ("{\"setup\":", 1),
        (ONE_PRODUCT, 1),
        (",\"scripts\":[", 1),
        (scripts, 1),
        ("],\"closings\":[", 1),
        (closings, 1),
        ("]}", 1),
    ];
    repeated(alloc, &pieces)
}

/// Asserts the end of a replay.
fn replay_ends(rt: &impl Abort, alloc: Global, row: &Replayed<'_>) {
    let document = replay_document(alloc, row.0, row.1);
    let document = made_at(rt, (row.0, row.1), document);
    let run: Run<'_> = (REPLAY, row.0, SOUND_STREAMS, row.2);
    ends(rt, alloc, &run, row.1, document.as_slice());
}

#[test]
fn a_replay_has_a_report_or_a_fault(rt: HostRuntime) {
    for row in REPLAYS {
        replay_ends(&rt, rt.alloc(), row);
    }
}

/// Arguments that are refused with a message that clap writes, whatever it says.
const OTHER_WORDS: &[&[&str]] = &[
    &["prices", "--increment", "0"],
    &["prices", "--increment", "51"],
    &["repla"],
    &["serve", "--setup", "a", "--port", "1", "--connections", "1"],
    &["--help"],
    &["--version"],
];

/// The status of a run, the number of bytes it printed, and whether it wrote no fault line.
fn shown(alloc: Global, words: &[&str]) -> Option<(u8, usize, bool)> {
    let run = run(alloc, words, ONE_PRODUCT.as_bytes(), &SOUND_STREAMS)?;
    let (printed, is_silent) = (run.output.bytes().len(), run.faults.bytes().is_empty());
    let status = run.status;
    drop(run);
    Some((status, printed, is_silent))
}

#[test]
fn other_words_are_refused(rt: HostRuntime) {
    for &words in OTHER_WORDS {
        let shown = shown(rt.alloc(), words);
        assert_is_at(&rt, words, shown, Some((2, 0, false)));
    }
}

/// The fault line for a writer that fails.
const NO_OUTPUT: &str = "fault: output\n";

/// Runs with trouble: the third read stops, little output fits, or a write fails. A read that is
/// interrupted is tried again. A read that fails is a fault, and so is a writer that fails or is
/// full. If a fault line can't be written, the status is the same.
const TROUBLED: &[Run<'static>] = &[
    (
        PRICES,
        ONE_PRODUCT,
        (Some((2, Stop::Interrupted)), 200, None, None),
        (0, LINE, ""),
    ),
    (
        PRICES,
        ONE_PRODUCT,
        (Some((2, Stop::Failed)), 200, None, None),
        (1, "", "fault: input\n"),
    ),
    (
        PRICES,
        ONE_PRODUCT,
        (None, 200, Some(0), None),
        (1, "", NO_OUTPUT),
    ),
    (
        PRICES,
        ONE_PRODUCT,
        (None, 200, Some(1), None),
        (1, "A 100", NO_OUTPUT),
    ),
    (
        PRICES,
        ONE_PRODUCT,
        (None, 7, None, None),
        (1, "A 100 1", NO_OUTPUT),
    ),
    (PRICES, "{", (None, 200, None, Some(0)), (1, "", "")),
    (PRICES, "{", (None, 200, None, Some(1)), (1, "", "fault: ")),
    (&["none"], "{", (None, 200, None, Some(0)), (2, "", "")),
];

#[test]
fn streams_fail_or_are_interrupted(rt: HostRuntime) {
    all_end(&rt, rt.alloc(), TROUBLED);
}
