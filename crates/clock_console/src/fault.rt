ghost use Rattle.std.specs.Prelude.{◌≡◌, ◌++◌, ◌||◌, codes, is_err};
ghost use Rattle.clock_device.specs.Streams.{WritesText};
ghost use Rattle.clock_console.specs.FaultLines.{of_journal, of_level, of_opening, of_script};
ghost use Rattle.clock_console.specs.FaultLines.{of_setup};
ghost use Rattle.clock_console.specs.FaultLines.{fault_line, fault_words, opening_words};
ghost use Rattle.clock_console.specs.FaultLines.{place_words};
ghost use Rattle.clock_console.specs.FaultLines.{script_words, setup_words};
ghost use Rattle.clock_console.specs.declared.fault.Fault.TheVariants.{Memory};
ghost use Rattle.clock_console.specs.inside.Lines.{spaced_number, spaced_code, text_of_words};

use clock_api::Code;
use clock_device::{Failed, NoMemory, Sink, write_all, write_number};
use clock_journal::{JournalFault, LevelFault};
use clock_replays::ScriptFault;
use clock_scripts::SimFault;
use clock_setup::{OpeningFault, Place, SetupFault};

/// Why the program ended early. The faults are in the order in which they are checked; `Memory` can
/// replace most others. `Bind` and `Accept` occur only in `serve`; `File` and the faults of a
/// journal only in commands that name files.
#[derive(Clone, Copy)]
pub enum Fault {
    /// The set-up file could not be opened.
    File,
    /// A read failed, or too many reads were made.
    Input,
    /// The input has more bytes than the program reads.
    LongInput,
    /// The document is not a set-up.
    Setup(SetupFault),
    /// The document is not an opening document.
    Opening(OpeningFault),
    /// The document is not a replay document.
    Script(ScriptFault),
    /// The product with this number has no possible next clock price: it would be too high.
    PriceLimit(u64),
    /// A rehearsal had a refused request, or too few closings.
    Simulation(SimFault),
    /// The journal could not be opened, created, read, or extended.
    Journal,
    /// Another server uses the journal.
    JournalBusy,
    /// The file is not accepted as the journal.
    Recovery(JournalFault),
    /// The journal and its mirror differ at this byte, and neither is a prefix of the other.
    Differs(usize),
    /// The port could not be opened.
    Bind,
    /// A write failed.
    Output,
    /// A connection could not be accepted.
    Accept,
    /// Out of memory.
    Memory,
}

impl From<NoMemory> for Fault {
    ghost from_gives = { λ _ fault. fault ≡ Memory };

    fn from(_refused: NoMemory) -> Fault {
        Fault::Memory
    }
}

impl From<SetupFault> for Fault {
    ghost from_gives = { λ fault given. given ≡ of_setup fault };

    fn from(fault: SetupFault) -> Fault {
        match fault {
            SetupFault::NoMemory => Fault::Memory,
            _ => Fault::Setup(fault),
        }
    }
}

impl From<OpeningFault> for Fault {
    ghost from_gives = { λ fault given. given ≡ of_opening fault };

    fn from(fault: OpeningFault) -> Fault {
        match fault {
            OpeningFault::NoMemory => Fault::Memory,
            _ => Fault::Opening(fault),
        }
    }
}

impl From<ScriptFault> for Fault {
    ghost from_gives = { λ fault given. given ≡ of_script fault };

    fn from(fault: ScriptFault) -> Fault {
        match fault {
            ScriptFault::NoMemory => Fault::Memory,
            _ => Fault::Script(fault),
        }
    }
}

impl From<JournalFault> for Fault {
    ghost from_gives = { λ fault given. given ≡ of_journal fault };

    fn from(fault: JournalFault) -> Fault {
        match fault {
            JournalFault::NoMemory => Fault::Memory,
            JournalFault::Failed | JournalFault::Unread => Fault::Journal,
            _ => Fault::Recovery(fault),
        }
    }
}

impl From<LevelFault> for Fault {
    ghost from_gives = { λ fault given. given ≡ of_level fault };

    fn from(fault: LevelFault) -> Fault {
        match fault {
            LevelFault::Differs(place) => Fault::Differs(place),
            LevelFault::Failed => Fault::Journal,
        }
    }
}

/// The words of a fault: a word, up to two numbers, and the code of a reply, separated by spaces.
#[derive(Clone, Copy)]
struct Words(&'static str, Option<u64>, Option<u64>, Option<Code>);

/// The words of a fault without a code: a word, and the numbers after it.
macro_rules! words {
    ($word:literal) => { Words($word, None, None, None) };
    ($word:literal, $number:expr) => { Words($word, Some($number), None, None) };
    ($word:literal, $first:expr, $second:expr) => {
        Words($word, Some($first), Some($second), None)
    };
}

/// Writes the line of a fault: `fault: WORDS` and a line feed, or a prefix of it if a write fails.
/// Allocates nothing.
pub fn write_fault<W: Sink>(sink: &mut W, fault: Fault) -> Result<(), Failed>
    ensures bytes { WritesText (W.report sink.old).taken (W.report sink.new).taken
        (fault_line fault) result }
    ensures failed { (W.report sink.new).has_failed
        ≡ ((W.report sink.old).has_failed || is_err result) }
{
    let words = words_of(fault);
    write_all(sink, b"fault: ")?;
    write_all(sink, words.0.as_bytes())?;
    write_spaced_number(sink, words.1)?;
    write_spaced_number(sink, words.2)?;
    write_spaced_code(sink, words.3)?;
    write_all(sink, b"\n")
}

/// Writes a space and a number, if there is one.
fn write_spaced_number<W: Sink>(sink: &mut W, number: Option<u64>) -> Result<(), Failed>
    ensures bytes { WritesText (W.report sink.old).taken (W.report sink.new).taken
        (spaced_number number) result }
    ensures failed { (W.report sink.new).has_failed
        ≡ ((W.report sink.old).has_failed || is_err result) }
{
    let Some(number) = number else {
        return Ok(());
    };
    write_all(sink, b" ")?;
    write_number(sink, number)
}

/// Writes a space and a code, if there is one.
fn write_spaced_code<W: Sink>(sink: &mut W, code: Option<Code>) -> Result<(), Failed>
    ensures bytes { WritesText (W.report sink.old).taken (W.report sink.new).taken
        (spaced_code code) result }
    ensures failed { (W.report sink.new).has_failed
        ≡ ((W.report sink.old).has_failed || is_err result) }
{
    let Some(code) = code else {
        return Ok(());
    };
    write_all(sink, b" ")?;
    write_all(sink, code.text().as_bytes())
}

/// Returns the words after `fault:`.
fn words_of(fault: Fault) -> Words
    ensures { text_of_words result ≡ fault_words fault }
{
    match fault {
        Fault::File => words!("file"),
        Fault::Input => words!("input"),
        Fault::LongInput => words!("long_input"),
        Fault::Setup(fault) => words_of_setup(fault),
        Fault::Opening(fault) => words_of_opening(fault),
        Fault::Script(fault) => words_of_script(fault),
        Fault::PriceLimit(product) => words!("price_limit", product),
        Fault::Simulation(SimFault::Refused(bidder, round, code)) => {
            Words("refused", Some(bidder), Some(round), Some(code))
        }
        Fault::Simulation(SimFault::Closing(round, code)) => {
            Words("closing", Some(round), None, Some(code))
        }
        Fault::Simulation(SimFault::ClosingsSpent) => words!("closings_spent"),
        Fault::Simulation(SimFault::NoMemory) => words!("memory"),
        Fault::Journal => words!("journal"),
        Fault::JournalBusy => words!("journal_busy"),
        Fault::Recovery(JournalFault::Unknown) => words!("journal_unknown"),
        Fault::Recovery(JournalFault::Setup) => words!("journal_setup"),
        Fault::Recovery(JournalFault::Damaged(place)) => { words!("journal_damaged", place as u64) }
        Fault::Recovery(JournalFault::Refused(place)) => { words!("journal_refused", place as u64) }
        Fault::Recovery(JournalFault::NoMemory) => words!("memory"),
        Fault::Recovery(JournalFault::Failed) => words!("journal"),
        Fault::Recovery(JournalFault::Unread) => words!("journal"),
        Fault::Differs(place) => words!("journal_differs", place as u64),
        Fault::Bind => words!("bind"),
        Fault::Output => words!("output"),
        Fault::Accept => words!("accept"),
        Fault::Memory => words!("memory"),
    }
}

/// Returns the words of a fault of an opening document.
fn words_of_opening(fault: OpeningFault) -> Words
    ensures { text_of_words result ≡ opening_words fault }
{
    match fault {
        OpeningFault::NotJson => words!("not_json"),
        OpeningFault::Shape => words!("shape"),
        OpeningFault::Setup(fault) => words_of_setup(fault),
        OpeningFault::Demand(bidder, product) => words!("demand", bidder, product),
        OpeningFault::Activity(bidder) => words!("activity", bidder),
        OpeningFault::Increment => words!("increment"),
        OpeningFault::NoMemory => words!("memory"),
    }
}

/// Returns the words of a fault of a replay document.
fn words_of_script(fault: ScriptFault) -> Words
    ensures { text_of_words result ≡ script_words fault }
{
    match fault {
        ScriptFault::NotJson => words!("not_json"),
        ScriptFault::Shape => words!("shape"),
        ScriptFault::Setup(fault) => words_of_setup(fault),
        ScriptFault::Scripts => words!("scripts"),
        ScriptFault::Limits(bidder, product) => words!("limits", bidder, product),
        ScriptFault::NoMemory => words!("memory"),
    }
}

/// Returns the words of a fault of a set-up document.
fn words_of_setup(fault: SetupFault) -> Words
    ensures { text_of_words result ≡ setup_words fault }
{
    match fault {
        SetupFault::NotJson => words!("setup_not_json"),
        SetupFault::Shape => words!("setup_shape"),
        SetupFault::Version => words!("setup_version"),
        SetupFault::Range(place) => words_of_range(place),
        SetupFault::DuplicateName => words!("setup_duplicate_name"),
        SetupFault::DuplicateToken => words!("setup_duplicate_token"),
        SetupFault::NoMemory => words!("memory"),
    }
}

/// Returns the words of a value of a set-up document that is out of its limits.
fn words_of_range(place: Place) -> Words
    ensures { text_of_words result ≡ codes "setup_range " ++ place_words place }
{
    match place {
        Place::Requirement => words!("setup_range requirement"),
        Place::Limit => words!("setup_range limit"),
        Place::Operator => words!("setup_range operator"),
        Place::Products => words!("setup_range products"),
        Place::Name(i) => words!("setup_range name", i),
        Place::Units(i) => words!("setup_range units", i),
        Place::Supply(i) => words!("setup_range supply", i),
        Place::Cap(i) => words!("setup_range cap", i),
        Place::Opening(i) => words!("setup_range opening", i),
        Place::Granule(i) => words!("setup_range granule", i),
        Place::Bidders => words!("setup_range bidders"),
        Place::BidderName(i) => words!("setup_range bidder_name", i),
        Place::Token(i) => words!("setup_range token", i),
        Place::Eligibility(i) => words!("setup_range eligibility", i),
    }
}
