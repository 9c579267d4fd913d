//! Prints texts that a rule of a grammar matches.
#![tactic(auto)]

ghost use Rattle.std.specs.Prelude.{◌≤◌, IfOk};
ghost use Rattle.std.specs.Process.{exit_status};

mod arguments;
mod chance;
mod characters;
mod examples;
mod heights;
mod maker;

pub use arguments::command;
use arguments::request_of;
use base_ast::optimized::release;
use base_language::runtime::Fault;
use clap::ArgMatches;
use examples::{ExampleRequest, ExampleSearch, find_examples};
use pest_meta::parse_as_written;
use program_support::ends::report_refusal;
use program_support::escape::escape;
use program_support::input::read_input;
use program_support::json::escape_json;
use program_support::messages::{cannot_read, is_not_utf8};
use program_support::output::Output;
use program_support::status::Status;
use serde_json::Value;
use std::alloc::{AllocError, Global};
use std::io::{IsTerminal, Write};
use std::process::ExitCode;

/// The message if no text was found.
const NO_EXAMPLE: &str =
    "no example was found: the rule matched none of some hundred texts to its end\n";

/// The message if a number cannot be read.
const NO_NUMBER: &str = "--count, --seed and --size take a number\n";

/// Writes a message to standard error, and returns a status.
fn report(rt: &HostRuntime, message: &str, status: Status) -> Status {
    let _ = rt.stderr().write_all(message.as_bytes());
    status
}

/// Prints the examples that are asked for, of the grammar of a file, and returns the status.
fn print_examples(
    rt: &HostRuntime,
    name: &str,
    request: ExampleRequest<'_>,
    is_json: bool,
) -> Result<u8, AllocError>
    ensures known { IfOk result (λ status. status ≤ 5) }
{
    let alloc = rt.alloc();
    let bytes = match read_input(rt, name) {
        Ok(bytes) => bytes,
        Err(error) => {
            let why = format!(in alloc; "{error}")?;
            let message = cannot_read(alloc, name, why.as_str())?;
            return Ok(report(rt, message.as_str(), Status::Unreadable).code());
        }
    };
    let Ok(text) = str::from_utf8(&bytes) else {
        let message = is_not_utf8(alloc, name)?;
        return Ok(report(rt, message.as_str(), Status::Unreadable).code());
    };
    match parse_as_written(alloc, text) {
        Ok(rules) => {
            let search = find_examples(alloc, &rules, request);
            release(rules);
            Ok(print_search(rt, search?, request, is_json)?.code())
        }
        Err(Fault::Grammar(errors)) => {
            let is_terminal = rt.stderr().is_terminal();
            let mut err = Output::for_terminal(rt.stderr(), is_terminal);
            Ok(report_refusal(alloc, errors, &mut err).status)
        }
        Err(Fault::Memory(error)) => Err(error),
    }
}

/// Prints the result of a search, and returns the status.
fn print_search(
    rt: &HostRuntime,
    search: ExampleSearch,
    request: ExampleRequest<'_>,
    is_json: bool,
) -> Result<Status, AllocError> {
    let alloc = rt.alloc();
    match search {
        ExampleSearch::Found(texts) => {
            if texts.is_empty() {
                return Ok(report(rt, NO_EXAMPLE, Status::Found));
            }
            print_texts(rt, &texts, is_json)
        }
        ExampleSearch::NoRule => {
            let rule = escape(alloc, request.rule)?;
            let message = format!(in alloc; "the grammar has no rule {}\n", rule)?;
            Ok(report(rt, message.as_str(), Status::Found))
        }
        ExampleSearch::Unfit => Ok(report(rt, "the rules cannot be run\n", Status::Found)),
    }
}

/// Prints texts, each with a line feed behind it, and returns the status.
fn print_texts(rt: &HostRuntime, texts: &[String], is_json: bool) -> Result<Status, AllocError> {
    let alloc = rt.alloc();
    let is_terminal = rt.stdout().is_terminal();
    let mut out = Output::for_terminal(rt.stdout(), is_terminal);
    for text in texts {
        let line = if is_json {
            show_json(alloc, text)?
        } else {
            text.clone()?
        };
        if out.write_line(&[line.as_str()]).is_err() {
            return Ok(report(rt, "cannot write\n", Status::Unwritable));
        }
    }
    Ok(Status::Done)
}

/// Returns a text as a string of JSON. The only error is an allocation failure.
fn show_json(alloc: Global, text: &String) -> Result<String, AllocError> {
    let json = Value::String(text.clone()?).to_string(alloc)?;
    escape_json(alloc, json.as_str())
}

/// Prints the examples that a command line asks for, and returns the status. The only error is an allocation
/// failure.
pub fn answer(rt: &HostRuntime, matches: &ArgMatches<'_>) -> Result<ExitCode, AllocError>
    ensures known { IfOk result (λ exit. exit_status exit ≤ 5) }
{
    let status = match request_of(matches) {
        Some(request) => {
            let name = matches.get_str("GRAMMAR").unwrap_or("-");
            print_examples(rt, name, request, matches.get_flag("json"))?
        }
        None => report(rt, NO_NUMBER, Status::Unreadable).code(),
    };
    Ok(ExitCode::from(status))
}
