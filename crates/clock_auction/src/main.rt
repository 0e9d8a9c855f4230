//! The program: answers a document on standard input, or serves an auction on a port.
#![tactic(auto)]

ghost use Rattle.std.specs.Prelude.{◌≡◌};

use clock_commands::{Fault, parsed_command, show_fault};
use clock_console::{Asked, read_words};
use clock_device::{FromReader, ToWriter};
use clock_files::{serve, tell_audit, tell_texts};
use std::alloc::Global;
use std::process::ExitCode;
use std::rt::Env;
use std::{env, io};

/// Reads a document from standard input, prints the result on standard output, and a fault on
/// standard error.
fn main(rt: HostRuntime) -> io::Result<ExitCode> {
    let status = match run(&rt) {
        Ok(status) => status,
        Err(error) if error.kind() == io::ErrorKind::OutOfMemory => {
            fault_status(&rt, Fault::Memory)
        }
        // any other error is of a word of the command line
        Err(_) => {
            let _ = rt.eprintln("error: a word is not UTF-8");
            2
        }
    };
    Ok(ExitCode::from(status))
}

/// Runs the command that the words after the program's name ask for, and returns the exit status.
/// Commands that name files are run here, and all others by `parsed_command`. Errors: out of memory
/// for the words, or a word that is not UTF-8.
fn run(rt: &HostRuntime) -> io::Result<u8> {
    let given = given_words(rt)?;
    let mut words = Vec::new(rt.alloc());
    for word in given.as_slice() {
        words.push(word.as_str())?;
    }
    let done = match read_words(rt.alloc(), words.as_slice()) {
        Ok(Some(Asked::Serve(serving))) => serve(rt, &serving),
        Ok(Some(Asked::Journal(files))) => tell_texts(rt, ToWriter::new(rt.stdout()), &files),
        Ok(Some(Asked::Audit(files))) => tell_audit(rt, &mut ToWriter::new(rt.stdout()), &files),
        parsed => {
            return Ok(parsed_command(
                rt.alloc(),
                parsed,
                &mut FromReader::new(rt.stdin()),
                &mut ToWriter::new(rt.stdout()),
                &mut ToWriter::new(rt.stderr()),
            ));
        }
    };
    match done {
        Ok(()) => Ok(0),
        Err(fault) => Ok(fault_status(rt, fault)),
    }
}

/// Returns the words after the program's name.
fn given_words(rt: &(impl Env + Alloc<A = Global>)) -> io::Result<Vec<String>> {
    // not `collect`: if an allocation is refused, it tries a smaller one
    let mut words = Vec::new(rt.alloc());
    for word in env::args(rt)?.skip(1) {
        words.push(word)?;
    }
    Ok(words)
}

/// Prints the line of a fault on standard error, and returns the exit status.
fn fault_status(rt: &HostRuntime, fault: Fault) -> u8
    ensures { result ≡ 1 }
{
    show_fault(fault, &mut ToWriter::new(rt.stderr()));
    1
}
