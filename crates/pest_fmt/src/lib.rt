//! Formats grammars in place.
#![tactic(auto)]

ghost use Rattle.std.specs.Prelude.{◌≤◌, IfOk};
ghost use Rattle.std.specs.Process.{exit_status};

mod arguments;
mod diff;
mod messages;
mod outcomes;
mod processing;
mod run;
mod sources;

pub use arguments::command;
use arguments::{delivery_of, options_of};
use clap::ArgMatches;
use program_support::status::Status;
use run::format_files;
use sources::find_files;
use std::alloc::AllocError;
use std::io::IsTerminal;
use std::process::ExitCode;

/// Formats the files that a command line names, and returns the status. The only error is an allocation
/// failure.
pub fn answer(rt: &HostRuntime, matches: &ArgMatches<'_>) -> Result<ExitCode, AllocError>
    ensures known { IfOk result (λ exit. exit_status exit ≤ 5) }
{
    let names = matches.get_strs("FILE").unwrap_or(&["-"]);
    let delivery = delivery_of(matches, rt.stdout().is_terminal());
    let mut files = Vec::new(rt.alloc());
    let are_read = find_files(rt, names, &mut files)?;
    let status = format_files(rt, &files, delivery, options_of(matches))?;
    let found = if are_read {
        status
    } else {
        status.worse(Status::Unreadable)
    };
    Ok(ExitCode::from(found.code()))
}
