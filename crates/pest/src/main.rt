//! The program `pest`: tools for pest grammars, each a command.
#![tactic(auto)]

mod arguments;
mod tools;

use arguments::command;
use clap::{ArgMatches, Command};
use program_support::status::Status;
use program_support::usage::print_usage;
use std::alloc::{AllocError, Global};
use std::env;
use std::process::ExitCode;
use tools::Tool;

/// Returns the tool by whose own name the program was called, if it was. The first one of `words` is the path
/// of the program.
fn called_tool(words: &[String]) -> Option<Tool> {
    let path = words.first()?.as_str();
    match path.rsplit_once('/') {
        Some((_, name)) => Tool::by_program(name),
        None => Tool::by_program(path),
    }
}

/// Returns the command line that is accepted if the program was called as `called`.
fn accepted_command<'a>(alloc: Global, called: Option<Tool>) -> Result<Command<'a>, AllocError> {
    match called {
        Some(tool) => tool.command(alloc),
        None => command(alloc),
    }
}

/// Returns the tool that a command line names, and the arguments of its command.
fn named_tool<'m, 'a>(matches: &'m ArgMatches<'a>) -> Option<(Tool, &'m ArgMatches<'a>)> {
    let (name, matches) = matches.subcommand()?;
    Some((Tool::by_command(name)?, matches))
}

/// Answers a command line that was parsed, and returns the status. The only error is an allocation failure.
fn answer_matches(
    rt: &HostRuntime,
    called: Option<Tool>,
    matches: &ArgMatches<'_>,
) -> Result<ExitCode, AllocError> {
    if let Some(tool) = called {
        return tool.answer(rt, matches);
    }
    match named_tool(matches) {
        Some((tool, matches)) => tool.answer(rt, matches),
        // A command line without a command is refused before.
        None => Ok(ExitCode::from(Status::Unreadable.code())),
    }
}

/// Answers the command line of the process, and returns the status. The only error is an allocation failure.
fn answer(rt: &HostRuntime) -> Result<ExitCode, clap::Error> {
    let Ok(words) = env::args(rt) else {
        let _ = rt.eprintln("cannot read the command line: it is not UTF-8");
        return Ok(ExitCode::from(Status::Unreadable.code()));
    };
    let words: Vec<String> = words.collect(rt.alloc())?;
    let called = called_tool(&words);
    if matches!(called, Some(Tool::Lsp)) {
        // Whatever words an editor adds.
        return Ok(pest_language_server::serve(rt));
    }
    match accepted_command(rt.alloc(), called)?.try_get_matches_from(words.as_slice()) {
        Ok(matches) => Ok(answer_matches(rt, called, &matches)?),
        Err(error) => Ok(ExitCode::from(print_usage(rt, &error)?.code())),
    }
}

fn main(rt: HostRuntime) -> ExitCode {
    match answer(&rt) {
        Ok(status) => status,
        Err(_) => {
            let _ = rt.eprintln("out of memory");
            ExitCode::from(Status::OutOfMemory.code())
        }
    }
}
