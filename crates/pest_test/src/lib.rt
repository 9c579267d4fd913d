//! Tests pest grammars by cases: texts, and the trees that are expected.
#![tactic(auto)]

ghost use Rattle.std.specs.Prelude.{◌≤◌, IfOk};
ghost use Rattle.std.specs.Process.{exit_status};

mod agreement;
mod arguments;
mod cases;
mod expected;
mod files;
mod grammars;
mod lines;
mod report;
mod run;
mod updates;
mod verdicts;

pub use arguments::command;
use arguments::request_of;
use clap::ArgMatches;
use files::find_sources;
use program_support::status::Status;
use run::test_files;
use std::alloc::AllocError;
use std::env;
use std::io::IsTerminal;
use std::process::ExitCode;

/// Returns whether reports have colours, by the value of `--color`: on a terminal, unless TERM is `dumb` or
/// NO_COLOR has a value.
fn has_colour(rt: &HostRuntime, choice: Option<&str>) -> bool {
    match choice {
        Some("always") => true,
        Some("never") => false,
        _ => {
            let term = env::var(rt, "TERM").ok();
            let no_color = env::var(rt, "NO_COLOR").ok();
            rt.stdout().is_terminal()
                && term.as_deref() != Some("dumb")
                && no_color.as_deref().unwrap_or("").is_empty()
        }
    }
}

/// Tests the grammars of the files that a command line names, and returns the status. The only error is an
/// allocation failure.
pub fn answer(rt: &HostRuntime, matches: &ArgMatches<'_>) -> Result<ExitCode, AllocError>
    ensures known { IfOk result (λ exit. exit_status exit ≤ 5) }
{
    let names = matches.get_strs("PATH").unwrap_or(&["tests"]);
    let request = request_of(matches, has_colour(rt, matches.get_str("color")));
    let mut sources = Vec::new(rt.alloc());
    let are_read = find_sources(rt, names, &mut sources)?;
    let status = test_files(rt, &sources, request)?;
    let found = if are_read {
        status
    } else {
        status.worse(Status::Unreadable)
    };
    Ok(ExitCode::from(found.code()))
}
