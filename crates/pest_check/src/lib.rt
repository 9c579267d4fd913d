//! Reads a grammar and prints its rules.
#![tactic(auto)]

ghost use Rattle.std.specs.Prelude.{◌≡◌, ◌≤◌, ◌↔◌, IfNone, IfSome, IsUtf8};
ghost use Rattle.std.specs.Process.{exit_status};
ghost use Rattle.pest_meta.specs.Spelling.{HasAnswer, HasRefusal};

mod arguments;
mod checks;

pub use arguments::command;
use checks::run;
use clap::ArgMatches;
use program_support::input::read_input;
use program_support::output::Output;
use std::io::IsTerminal;
use std::process::ExitCode;

/// Runs the program on its input with the process's own output, and returns the status.
fn check(rt: &HostRuntime, grammar: Option<&[u8]>) -> ExitCode
    ensures known { exit_status result ≤ 4 }
    ensures unread { IfNone grammar.entry (exit_status result ≡ 3) }
    ensures decoded { IfSome grammar.entry (λ bytes. exit_status result ≡ 3 ↔ ¬ (IsUtf8 bytes.now)) }
    ensures answer { IfSome grammar.entry (λ bytes. exit_status result ≡ 0 → HasAnswer bytes.now) }
    ensures refusal { IfSome grammar.entry (λ bytes. exit_status result ≡ 1 → HasRefusal bytes.now) }
{
    let mut out = Output::new(rt.stdout());
    let is_terminal = rt.stderr().is_terminal();
    let mut err = Output::for_terminal(rt.stderr(), is_terminal);
    let exit = run(rt.alloc(), grammar, &mut out, &mut err);
    ExitCode::from(exit.status)
}

/// Prints the rules of the grammar that a command line names, and returns the status.
pub fn answer(rt: &HostRuntime, matches: &ArgMatches<'_>) -> ExitCode
    ensures known { exit_status result ≤ 4 }
{
    let grammar = read_input(rt, matches.get_str("FILE").unwrap_or("-")).ok();
    check(rt, grammar.as_ref().map(|bytes| bytes.as_slice()))
}
