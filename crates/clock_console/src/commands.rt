//! The commands and options of the program, as clap's builder defines them.
ghost use Rattle.std.specs.Prelude.{IfOk};
ghost use Rattle.clap.specs.Words.{App, new_app, with_subcommand};
ghost use Rattle.clock_console.specs.Words.{files_grammar, grammar, needed_rule, number_rule};
ghost use Rattle.clock_console.specs.Words.{option_rule, prices_grammar, program_only_grammar};
ghost use Rattle.clock_console.specs.Words.{serve_grammar};
ghost use Rattle.clock_console.specs.inside.Commands.{IsCommand, IsOption};

use crate::help::{
    AUDIT_HELP, JOURNAL_HELP, OPENING_HELP, PRICES_HELP, PROGRAM_HELP, REPLAY_HELP, SERVE_HELP,
};
use clap::builder::ValueParser;
use clap::{Arg, Command};
use clock_money::{LEAST_INCREMENT, MOST_INCREMENT};
use std::alloc::{AllocError, Global};

/// The help text of the option `--setup`.
static SETUP_FILE: &str = "The set-up document";

/// The highest port.
pub(crate) const MOST_PORT: u64 = 65_535;

/// The most connections that `serve` can be asked to serve.
pub(crate) const MOST_SERVED: u64 = 1_000_000;

/// Makes an optional option with one value.
fn option<'a>(alloc: Global, name: &'a str, value: &'a str, help: &'a str) -> Arg<'a>
    ensures { IsOption (option_rule name.now) result }
{
    Arg::new(alloc, name)
        .long(name)
        .value_name(value)
        .help(help)
}

/// Makes a required option whose value is a file.
fn needed_option<'a>(alloc: Global, name: &'a str, help: &'a str) -> Arg<'a>
    ensures { IsOption (needed_rule name.now) result }
{
    option(alloc, name, "FILE", help).required(true)
}

/// Makes a required option whose value is a number from 1 to `most`.
fn number_option<'a>(alloc: Global, name: &'a str, most: u64, help: &'a str) -> Arg<'a>
    ensures { IsOption (number_rule name.now most) result }
{
    option(alloc, name, "N", help)
        .required(true)
        .value_parser(ValueParser::Unsigned(1, most))
}

/// Makes a command without options.
fn named<'a>(alloc: Global, name: &'a str, about: &'a str, help: &'a str) -> Command<'a>
    ensures { IsCommand (new_app name.now) result }
{
    Command::new(alloc, name).about(about).after_help(help)
}

/// Adds a command to the program.
fn with_command<'a>(
    program: Result<Command<'a>, AllocError>,
    command: Result<Command<'a>, AllocError>,
) -> Result<Command<'a>, AllocError>
    ensures { (app below : App) → IfOk program.entry (IsCommand app) → IfOk command.entry
        (IsCommand below) → IfOk result (IsCommand (with_subcommand app below.top)) }
{
    let program = match program {
        Ok(program) => program,
        Err(refused) => {
            drop(command);
            return Err(refused);
        }
    };
    match command {
        Ok(command) => program.subcommand(command),
        Err(refused) => {
            drop(program);
            Err(refused)
        }
    }
}

/// Makes the command `prices` with its option.
fn prices_command<'a>(alloc: Global) -> Result<Command<'a>, AllocError>
    ensures { IfOk result (IsCommand prices_grammar) }
{
    let about = "Print the opening price of each product and its clock price of round 2";
    let rise = "Percent by which prices rise, 1 to 50";
    let increment = option(alloc, "increment", "N", rise)
        .value_parser(ValueParser::Unsigned(LEAST_INCREMENT, MOST_INCREMENT))
        .default_value("10");
    named(alloc, "prices", about, PRICES_HELP).arg(increment)
}

/// Makes the command `serve` with its options.
fn serve_command<'a>(alloc: Global) -> Result<Command<'a>, AllocError>
    ensures { IfOk result (IsCommand serve_grammar) }
{
    let about = "Serve an auction to live bidders at a port of 127.0.0.1";
    let port = "Port of 127.0.0.1 to listen at, 1 to 65535";
    let served = "Connections to serve before ending, 1 to 1000000";
    let purpose = "Log of accepted sheets and closings, created if it does not exist";
    let second = "Second file of the journal, on another disk";
    named(alloc, "serve", about, SERVE_HELP)
        .arg(needed_option(alloc, "setup", SETUP_FILE))?
        .arg(number_option(alloc, "port", MOST_PORT, port))?
        .arg(number_option(alloc, "connections", MOST_SERVED, served))?
        .arg(option(alloc, "journal", "FILE", purpose))?
        .arg(option(alloc, "mirror", "FILE", second))
}

/// Makes a command on a set-up file and a journal.
fn files_command<'a>(
    alloc: Global,
    name: &'a str,
    about: &'a str,
    help: &'a str,
) -> Result<Command<'a>, AllocError>
    ensures { IfOk result (IsCommand (files_grammar name.now)) }
{
    let purpose = "Log of accepted sheets and closings that `serve` wrote";
    named(alloc, name, about, help)
        .arg(needed_option(alloc, "setup", SETUP_FILE))?
        .arg(needed_option(alloc, "journal", purpose))
}

/// Makes the program without its commands.
fn program_only<'a>(alloc: Global) -> Result<Command<'a>, AllocError>
    ensures { IfOk result (IsCommand program_only_grammar) }
{
    let about = "The bidding system of an ascending clock auction";
    named(alloc, "clock_auction", about, PROGRAM_HELP)
        .version("0.1.0")
        .no_binary_name(true)
        .subcommand_required(true)
        .bin_name("clock_auction")
}

/// Makes the program with its commands. Errors: an allocation was refused.
pub(crate) fn program<'a>(alloc: Global) -> Result<Command<'a>, AllocError>
    ensures { IfOk result (IsCommand grammar) }
{
    let opening = "Print the results of round 1 for given demands";
    let replay = "Rehearse an auction with scripted bidders";
    let purpose = "Print the requests that a journal contains";
    let won = "Recount an auction from its set-up and journal";
    let program = with_command(program_only(alloc), prices_command(alloc));
    let program = with_command(program, Ok(named(alloc, "opening", opening, OPENING_HELP)));
    let program = with_command(program, Ok(named(alloc, "replay", replay, REPLAY_HELP)));
    let program = with_command(program, serve_command(alloc));
    let program = with_command(
        program,
        files_command(alloc, "journal", purpose, JOURNAL_HELP),
    );
    with_command(program, files_command(alloc, "audit", won, AUDIT_HELP))
}
