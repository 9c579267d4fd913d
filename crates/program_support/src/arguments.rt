//! Commands of the programs, and the arguments that they take.

ghost use Rattle.std.specs.Prelude.{◌≡◌, ◌∷◌, ◌++◌, [], IfOk};
ghost use Rattle.clap.specs.Simple.{app_of};
ghost use Rattle.program_support.specs.Arguments.{Form, HasForm, arguments_of, flag, option, positional};

use crate::version::VERSION;
use clap::{Arg, ArgAction, Command};
use std::alloc::{AllocError, Global};

/// Returns a program's command, without arguments. Help shows what it is about, and its exit statuses.
pub fn new_command<'a>(
    alloc: Global,
    name: &'a str,
    about: &'a str,
    statuses: &'a str,
) -> Result<Command<'a>, AllocError>
    ensures name { IfOk result (λ command. (app_of command).top.name ≡ name.now) }
    ensures arguments { IfOk result (λ command. arguments_of command ≡ []) }
{
    let command = Command::new(alloc, name).bin_name(name)?;
    Ok(command.version(VERSION).about(about).after_help(statuses))
}

/// Returns a command with one argument more.
pub fn add_argument<'a>(command: Command<'a>, argument: Arg<'a>) -> Result<Command<'a>, AllocError>
    ensures name { IfOk result (λ new. (app_of new).top.name ≡ (app_of command.entry).top.name) }
    ensures arguments { (form : Form) → HasForm form argument.entry
        → IfOk result (λ new. arguments_of new ≡ arguments_of command.entry ++ form ∷ []) }
{
    command.arg(argument)
}

/// Returns an option `--NAME` without a value.
pub fn flag<'a>(alloc: Global, name: &'a str, help: &'a str) -> Arg<'a>
    ensures { HasForm (flag name.now) result }
{
    option(alloc, name, help).action(ArgAction::SetTrue)
}

/// Returns an option `--NAME` with a value.
pub fn option<'a>(alloc: Global, name: &'a str, help: &'a str) -> Arg<'a>
    ensures { HasForm (option name.now) result }
{
    positional(alloc, name, help).long(name)
}

/// Returns a positional argument named `name`.
pub fn positional<'a>(alloc: Global, name: &'a str, help: &'a str) -> Arg<'a>
    ensures { HasForm (positional name.now) result }
{
    Arg::new(alloc, name).help(help)
}
