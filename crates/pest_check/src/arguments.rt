//! The command line.
ghost use Rattle.std.specs.Prelude.{◌≡◌, ◌∷◌, [], IfOk, codes};
ghost use Rattle.clap.specs.Simple.{app_of};
ghost use Rattle.program_support.specs.Arguments.{HasForm, arguments_of, positional};

use clap::{Arg, Command};
use program_support::arguments::{add_argument, new_command, positional};
use std::alloc::{AllocError, Global};

/// The exit statuses, as `--help` shows them.
const STATUSES: &str =
    "status: 0 the rules were printed, 1 the grammar is refused, 2 out of memory, \
     3 the grammar or the command line can't be read, 4 standard output can't be written";

/// Returns the command line that the program accepts.
pub fn command<'a>(alloc: Global) -> Result<Command<'a>, AllocError>
    ensures name { IfOk result (λ command. (app_of command).top.name ≡ codes "pest-check") }
    ensures arguments { IfOk result (λ command. arguments_of command ≡ positional (codes "FILE") ∷ []) }
{
    let about = "Checks a pest grammar, and prints its optimized rules, a line each";
    let command = new_command(alloc, "pest-check", about, STATUSES)?;
    add_argument(command, file_argument(alloc))
}

/// Returns the argument for the grammar.
fn file_argument<'a>(alloc: Global) -> Arg<'a>
    ensures { HasForm (positional (codes "FILE")) result }
{
    positional(alloc, "FILE", "A grammar; - is standard input").default_value("-")
}
