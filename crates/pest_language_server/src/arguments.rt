//! The command line.
ghost use Rattle.std.specs.Prelude.{◌≡◌, ◌∷◌, [], IfOk, codes};
ghost use Rattle.clap.specs.Simple.{app_of};
ghost use Rattle.program_support.specs.Arguments.{HasForm, arguments_of, flag};

use clap::{Arg, Command};
use program_support::arguments::{add_argument, flag, new_command};
use std::alloc::{AllocError, Global};

/// The exit statuses, as `--help` shows them.
const STATUSES: &str =
    "status: 0 after the requests shutdown and exit, 1 if the input ended before, or a read or write failed";

/// Returns the command line that the program accepts.
pub fn command<'a>(alloc: Global) -> Result<Command<'a>, AllocError>
    ensures name { IfOk result (λ command. (app_of command).top.name ≡ codes "pest-language-server") }
    ensures arguments { IfOk result (λ command. arguments_of command ≡ flag (codes "stdio") ∷ []) }
{
    let about = "Shows errors, warnings, hovers and fixes of pest grammars in editors";
    let command = new_command(alloc, "pest-language-server", about, STATUSES)?;
    add_argument(command, stdio_argument(alloc))
}

/// `--stdio`.
fn stdio_argument<'a>(alloc: Global) -> Arg<'a>
    ensures { HasForm (flag (codes "stdio")) result }
{
    let help = "Does nothing: messages always come on standard input, and some editors say so";
    flag(alloc, "stdio", help)
}
