//! What the program's arguments ask for.
ghost use Rattle.std.specs.Prelude.{◌≡◌, map, option_map, IfSome, IfOk};
ghost use Rattle.clock_terms.specs.Limits.{IsWithin};
ghost use Rattle.clap.specs.Words.{first_of, found_of, rows_of, subcommand_rows_of};
ghost use Rattle.clock_console.specs.Words.{IsAsked, IsParsing, asked_met, asked_fields};
ghost use Rattle.clock_console.specs.Words.{files_from, files_fields, given, number_of};
ghost use Rattle.clock_console.specs.Words.{serving_from, serving_fields};

use crate::commands::{MOST_PORT, MOST_SERVED, program};
use clap::{ArgMatches, Error};
use clock_money::{LEAST_INCREMENT, MOST_INCREMENT};
use clock_terms::is_within;
use std::alloc::Global;

/// A command that reads a document from standard input and prints a text.
#[derive(Clone, Copy)]
pub enum Job {
    /// The price lines of a set-up document, with clock prices at this increment in percent.
    Prices(u64),
    /// The lines of round 1 for an opening document.
    Opening,
    /// The report of a replay document.
    Replay,
}

/// The arguments of `serve`.
#[derive(Clone, Copy)]
pub struct Serving<'a> {
    /// The file of the set-up document.
    pub setup: &'a str,
    /// The port of 127.0.0.1.
    pub port: u16,
    /// The number of connections to serve.
    pub connections: u64,
    /// The file of the journal, if there is to be one.
    pub journal: Option<&'a str>,
    /// The second file of the journal, if there is to be one.
    pub mirror: Option<&'a str>,
}

/// The arguments of `journal` and `audit`.
#[derive(Clone, Copy)]
pub struct NamedFiles<'a> {
    /// The file of the set-up document.
    pub setup: &'a str,
    /// The file of the journal.
    pub journal: &'a str,
}

/// What the arguments ask for.
#[derive(Clone, Copy)]
pub enum Asked<'a> {
    /// Answer a document on standard input.
    Job(Job),
    /// Serve an auction.
    Serve(Serving<'a>),
    /// Print the requests in a journal.
    Journal(NamedFiles<'a>),
    /// Recount an auction from its journal.
    Audit(NamedFiles<'a>),
}

/// The arguments that replace an empty list.
static WITHOUT_WORDS: [&str; 3] = ["prices", "--increment", "10"];

/// Returns the number that an option has, if it is from `least` to `most`.
fn number_in(options: &ArgMatches, name: &str, least: u64, most: u64) -> Option<u64>
    ensures value { result ≡ number_of name.now least most (rows_of (found_of options.now)) }
    ensures limits { IfSome result (IsWithin least most) }
{
    match options.get_one::<u64>(name) {
        Some(number) if is_within(least, most, number) => Some(number),
        _ => None,
    }
}

/// Returns the arguments, or those that replace an empty list.
fn words_given<'a>(words: &'a [&'a str]) -> &'a [&'a str]
    ensures { map (λ word. word.now) result.now ≡ given (map (λ word. word.now) words.entry.now) }
{
    if words.is_empty() {
        WITHOUT_WORDS.as_slice()
    } else {
        words
    }
}

/// Returns the text that an option has.
fn text_in<'a>(options: &ArgMatches<'a>, name: &str) -> Option<&'a str>
    ensures { option_map (λ text. text.now) result
        ≡ first_of name.now (rows_of (found_of options.now)) }
{
    options.get_str(name)
}

/// Returns the arguments of `serve`, from its options.
fn serving_with<'a>(options: &ArgMatches<'a>) -> Option<Serving<'a>>
    ensures { option_map serving_fields result ≡ serving_from (rows_of (found_of options.now)) }
{
    let setup = text_in(options, "setup")?;
    let port = number_in(options, "port", 1, MOST_PORT)?;
    let connections = number_in(options, "connections", 1, MOST_SERVED)?;
    Some(Serving {
        setup,
        port: port as u16,
        connections,
        journal: text_in(options, "journal"),
        mirror: text_in(options, "mirror"),
    })
}

/// Returns the arguments of `journal` or `audit`, from its options.
fn files_with<'a>(options: &ArgMatches<'a>) -> Option<NamedFiles<'a>>
    ensures { option_map files_fields result ≡ files_from (rows_of (found_of options.now)) }
{
    let setup = text_in(options, "setup")?;
    let journal = text_in(options, "journal")?;
    Some(NamedFiles { setup, journal })
}

/// Returns what parsed arguments ask for, if anything.
fn asked_in<'a>(matches: &ArgMatches<'a>) -> Option<Asked<'a>>
    ensures met { option_map asked_fields result ≡ asked_met (subcommand_rows_of matches.now) }
    ensures limits { IfSome result IsAsked }
{
    let (name, options) = matches.subcommand()?;
    match name {
        "prices" => {
            let increment = number_in(options, "increment", LEAST_INCREMENT, MOST_INCREMENT)?;
            Some(Asked::Job(Job::Prices(increment)))
        }
        "opening" => Some(Asked::Job(Job::Opening)),
        "replay" => Some(Asked::Job(Job::Replay)),
        "serve" => serving_with(options).map(Asked::Serve),
        "journal" => files_with(options).map(Asked::Journal),
        "audit" => files_with(options).map(Asked::Audit),
        _ => None,
    }
}

/// Parses the program's arguments, and returns what they ask for. If they ask for nothing, it
/// returns `None` or an error. The error's text says what is wrong with them, or is the help or the
/// version that they ask for. An error of the kind `OutOfMemory` replaces any other result.
pub fn read_words<'a>(alloc: Global, words: &'a [&'a str]) -> Result<Option<Asked<'a>>, Error>
    ensures parsed { IsParsing (map (λ word. word.now) words.entry.now) result }
    ensures limits { IfOk result (λ asked. IfSome asked IsAsked) }
{
    let matches = program(alloc)?.try_get_matches_from(words_given(words))?;
    let asked = asked_in(&matches);
    drop(matches);
    Ok(asked)
}
