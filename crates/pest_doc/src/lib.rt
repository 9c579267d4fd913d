//! Prints documents of grammars.
#![tactic(auto)]

ghost use Rattle.std.specs.Prelude.{◌≤◌, IfOk};
ghost use Rattle.std.specs.Process.{exit_status};

mod arguments;
mod messages;
mod run;

pub use arguments::command;
use arguments::format_of;
use clap::ArgMatches;
use messages::NO_DIAGRAM;
use program_support::input::read_input;
use program_support::messages::{cannot_read, cannot_write, is_not_utf8};
use program_support::status::Status;
use run::{DocumentOutcome, Request, outcome_of};
use std::alloc::AllocError;
use std::fs;
use std::io::{self, Write};
use std::process::ExitCode;

/// Writes a text to the file of a name, or to standard output if none is given.
fn write(rt: &HostRuntime, text: &str, out: Option<&str>) -> io::Result<()> {
    match out {
        Some(name) => fs::File::create(rt, name)?.write_all(text.as_bytes()),
        None => {
            let mut stdout = rt.stdout();
            stdout.write_all(text.as_bytes())?;
            stdout.flush()
        }
    }
}

/// Writes a message to standard error, and returns a status.
fn report(rt: &HostRuntime, message: &str, status: Status) -> Status {
    let _ = rt.stderr().write_all(message.as_bytes());
    status
}

/// Prints a document to standard output, or to the file of a name, and returns the status.
fn print(rt: &HostRuntime, request: Request<'_>, out: Option<&str>) -> Result<Status, AllocError> {
    let alloc = rt.alloc();
    let bytes = match read_input(rt, request.name) {
        Ok(bytes) => bytes,
        Err(error) => {
            let why = format!(in alloc; "{error}")?;
            let message = cannot_read(alloc, request.name, why.as_str())?;
            return Ok(report(rt, message.as_str(), Status::Unreadable));
        }
    };
    match outcome_of(alloc, &bytes, request)? {
        DocumentOutcome::Document(document) => deliver(rt, document.as_str(), out),
        DocumentOutcome::Refused(message) => Ok(report(rt, message.as_str(), Status::Found)),
        DocumentOutcome::NotUtf8 => {
            let message = is_not_utf8(alloc, request.name)?;
            Ok(report(rt, message.as_str(), Status::Unreadable))
        }
    }
}

/// Writes a document to standard output, or to the file of a name, and returns the status.
fn deliver(rt: &HostRuntime, document: &str, out: Option<&str>) -> Result<Status, AllocError> {
    match write(rt, document, out) {
        Ok(()) => Ok(Status::Done),
        Err(error) => {
            let alloc = rt.alloc();
            let name = out.unwrap_or("standard output");
            let why = format!(in alloc; "{error}")?;
            let message = cannot_write(alloc, name, why.as_str())?;
            Ok(report(rt, message.as_str(), Status::Unwritable))
        }
    }
}

/// Makes the document that a command line asks for, and returns the status. The only error is an allocation
/// failure.
pub fn answer(rt: &HostRuntime, matches: &ArgMatches<'_>) -> Result<ExitCode, AllocError>
    ensures known { IfOk result (λ exit. exit_status exit ≤ 5) }
{
    let status = match format_of(matches) {
        Some(format) => {
            let name = matches.get_str("GRAMMAR").unwrap_or("-");
            print(rt, Request { name, format }, matches.get_str("out"))?
        }
        None => report(rt, NO_DIAGRAM, Status::Unreadable),
    };
    Ok(ExitCode::from(status.code()))
}
