//! The meaning of documents of replays.
use crate::comparing::{assert_is, assert_is_at, made_at};
use clock_device::Text;
use clock_fixtures::{GRANULES_AND_INCREMENTS, ONE_PRODUCT};
use clock_setup::{Place, SetupFault};
use clock_sim::{ScriptFault, read_replay};
use std::alloc::Global;
use std::process::Abort;

/// Scripts of both kinds, at their greatest length.
const GOOD: &str =
    r#"[{"kind":"literal","sheets":[[{"price":100,"product":0,"quantity":2}],null,[]]},{"limits":[[120,120]],"kind":"sincere"}]"#;

/// The scripts of [`GOOD`], with a sheet in each round.
const EACH_ROUND: &str =
    r#"[{"kind":"literal","sheets":[[{"price":100,"product":0,"quantity":2}],[]]},{"limits":[[120,120]],"kind":"sincere"}]"#;

/// A script without sheets, for each of three bidders.
const SILENT: &str =
    r#"[{"kind":"literal","sheets":[]},{"kind":"literal","sheets":[]},{"kind":"literal","sheets":[]}]"#;

const RISING: &str =
    r#"[{"kind":"sincere","limits":[[115,120]]},{"kind":"sincere","limits":[[9]]}]"#;

const LONG: &str = r#"[{"kind":"sincere","limits":[[9,9]]},{"kind":"sincere","limits":[[9,9,9]]}]"#;

const ALONE: &str = r#"[{"kind":"sincere","limits":[[115,120]]}]"#;

const TWO_LISTS: &str =
    r#"[{"kind":"sincere","limits":[[115,120]]},{"kind":"sincere","limits":[[9],[9]]}]"#;

const OTHER_KIND: &str = r#"[{"kind":"random","sheets":[]}]"#;

const BOTH_LISTS: &str = r#"[{"kind":"literal","sheets":[],"limits":[]}]"#;

const SINGLE: &str = r#"[{"increment":51,"ties":[[7,8,9]]}]"#;

const PER_PRODUCT: &str = r#"[{"increments":[10,20],"ties":[]}]"#;

const BOTH_KEYS: &str = r#"[{"increment":10,"increments":[10],"ties":[]}]"#;

const NEITHER_KEY: &str = r#"[{"ties":[]}]"#;

/// A set-up whose activity requirement is too low.
const LOW: &str =
    r#"{"version":1,"requirement":49,"operator":"OPERATOROPERATOR","products":[],"bidders":[]}"#;

const REQUIREMENT: Option<ScriptFault> = Some(ScriptFault::Setup(SetupFault::Range(
    Place::Requirement,
)));

const SHAPE: Option<ScriptFault> = Some(ScriptFault::Shape);

/// The closings, the scripts, and the set-up of a document by its name, and its first fault.
type Row<'a> = (&'a str, &'a str, &'a str, Option<ScriptFault>);

const ROWS: &[Row<'static>] = &[
    (SINGLE, GOOD, "one", None),
    (SINGLE, EACH_ROUND, "one", None),
    (PER_PRODUCT, SILENT, "granules", None),
    (SINGLE, RISING, "one", Some(ScriptFault::Limits(0, 0))),
    (SINGLE, LONG, "one", Some(ScriptFault::Limits(1, 0))),
    (SINGLE, TWO_LISTS, "one", SHAPE),
    (SINGLE, ALONE, "one", Some(ScriptFault::Scripts)),
    (PER_PRODUCT, ALONE, "one", SHAPE),
    (SINGLE, SILENT, "granules", SHAPE),
    (PER_PRODUCT, ALONE, "low", REQUIREMENT),
    (BOTH_KEYS, ALONE, "low", SHAPE),
    (NEITHER_KEY, ALONE, "low", SHAPE),
    (SINGLE, OTHER_KIND, "low", SHAPE),
    (SINGLE, BOTH_LISTS, "low", SHAPE),
];

/// The set-up of a row.
fn setup_of(name: &str) -> &'static str {
    match name {
        "one" => ONE_PRODUCT,
        "granules" => GRANULES_AND_INCREMENTS,
        _ => LOW,
    }
}

/// A piece of a text, and the number of its repetitions.
pub type Piece<'a> = (&'a str, usize);

/// Adds a piece `count` times.
fn push_times(text: &mut Text, piece: &str, count: usize) -> Option<()> {
    for _ in 0..count {
        text.extend_from_slice(piece.as_bytes()).ok()?;
    }
    Some(())
}

/// Makes a text of pieces.
pub fn repeated(alloc: Global, pieces: &[Piece<'_>]) -> Option<Text> {
    let mut text = Text::new(alloc);
    for piece in pieces {
        push_times(&mut text, piece.0, piece.1)?;
    }
    Some(text)
}

/// Makes a document with these closings, scripts, and set-up.
pub fn document<'a>(
    alloc: Global,
    closings: &'a str,
    scripts: &'a str,
    setup: &'a str,
) -> Option<Text> {
    let pieces = [
        ("{\"closings\":", 1),
        (closings, 1),
        (",\"scripts\":", 1),
        (scripts, 1),
        (",\"setup\":", 1),
        (setup, 1),
        ("}", 1),
    ];
    repeated(alloc, &pieces)
}

/// The fault of bytes that are no replay, or `None` if they are one.
fn fault_of(alloc: Global, document: &[u8]) -> Option<ScriptFault> {
    read_replay(alloc, document).err()
}

/// Asserts the fault of a document.
fn has_fault(rt: &impl Abort, alloc: Global, row: &Row<'_>) {
    let at = (row.0, row.1, row.2);
    let text = made_at(rt, at, document(alloc, row.0, row.1, setup_of(row.2)));
    assert_is_at(rt, at, fault_of(alloc, text.as_slice()), row.3);
}

#[test]
fn the_first_fault_is_reported(rt: HostRuntime) {
    for row in ROWS {
        has_fault(&rt, rt.alloc(), row);
    }
    assert_is(&rt, fault_of(rt.alloc(), b"{"), Some(ScriptFault::NotJson));
}
