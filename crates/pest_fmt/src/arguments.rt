//! The command line.
ghost use Rattle.std.specs.Prelude.{◌≡◌, ◌≢◌, ◌∷◌, [], IfOk, Some, codes};
ghost use Rattle.clap.specs.Matches.{found_of, one_text};
ghost use Rattle.clap.specs.Simple.{app_of};
ghost use Rattle.program_support.specs.Arguments.{HasForm, arguments_of, flag, positionals};

use clap::{Arg, ArgAction, ArgMatches, Command};
use format_grammar::{LineEnds, Options};
use program_support::arguments::{add_argument, flag, new_command, positional};
use std::alloc::{AllocError, Global};

/// The destination of a formatted text.
#[derive(Clone, Copy)]
pub enum Target {
    /// The file that the text came from, or standard output for standard input.
    File,
    /// Standard output.
    Output,
    /// Standard output, with the difference only.
    Difference,
}

/// The delivery of formatted texts.
#[derive(Clone, Copy)]
pub struct Delivery {
    pub target: Target,
    /// Whether standard output is a terminal, where control characters are shown as escapes.
    pub is_to_terminal: bool,
}

impl Delivery {
    /// Returns the delivery for the file of a name: of standard input to standard output.
    pub fn for_name(self, name: &str) -> Delivery
        ensures input { name.now ≡ codes "-" → self.target ≡ Target.File → result.target ≡ Target.Output }
        ensures file { name.now ≢ codes "-" → result ≡ self }
        ensures other { self.target ≢ Target.File → result ≡ self }
        ensures terminal { result.is_to_terminal ≡ self.is_to_terminal }
    {
        match self.target {
            Target::File if name == "-" => Delivery {
                target: Target::Output,
                ..self
            },
            _ => self,
        }
    }
}

/// The exit statuses, as `--help` shows them.
const STATUSES: &str =
    "status: 0 done, 1 something would change or is no grammar, 2 out of memory, \
     3 a file or the command line can't be read, 4 a file or standard output can't be written";

/// Returns the command line that the program accepts.
pub fn command<'a>(alloc: Global) -> Result<Command<'a>, AllocError>
    ensures name { IfOk result (λ command. (app_of command).top.name ≡ codes "pest-fmt") }
    ensures arguments { IfOk result (λ command. arguments_of command ≡ flag (codes "check")
        ∷ flag (codes "stdout") ∷ flag (codes "keep-line-ends") ∷ positionals (codes "FILE") ∷ []) }
{
    let command = new_command(alloc, "pest-fmt", "Formats pest grammars", STATUSES)?;
    let command = add_argument(command, check_argument(alloc))?;
    let command = add_argument(command, stdout_argument(alloc)?)?;
    let command = add_argument(command, line_ends_argument(alloc))?;
    add_argument(command, files_argument(alloc))
}

/// Returns `--check`.
fn check_argument<'a>(alloc: Global) -> Arg<'a>
    ensures { HasForm (flag (codes "check")) result }
{
    let help = "Change nothing, show what would change, and end with status 1 if anything would";
    flag(alloc, "check", help)
}

/// Returns `--stdout`.
fn stdout_argument<'a>(alloc: Global) -> Result<Arg<'a>, AllocError>
    ensures { IfOk result (HasForm (flag (codes "stdout"))) }
{
    let help = "Write to standard output, and leave the files alone";
    flag(alloc, "stdout", help).conflicts_with("check")
}

/// Returns `--keep-line-ends`.
fn line_ends_argument<'a>(alloc: Global) -> Arg<'a>
    ensures { HasForm (flag (codes "keep-line-ends")) result }
{
    let help = "End lines as the first line of each file ends, and not by a line feed alone";
    flag(alloc, "keep-line-ends", help)
}

/// Returns the argument for the files.
fn files_argument<'a>(alloc: Global) -> Arg<'a>
    ensures { HasForm (positionals (codes "FILE")) result }
{
    let help =
        "A grammar, a folder of grammars (*.pest), or - for standard input, to standard output; none is -";
    positional(alloc, "FILE", help)
        .action(ArgAction::Append)
        .num_args(1..)
}

/// Returns the delivery that a command line asks for.
pub fn delivery_of(matches: &ArgMatches<'_>, is_to_terminal: bool) -> Delivery
    ensures check { one_text (found_of matches.now) (codes "check") ≡ Some (codes "true")
        → result.target ≡ Target.Difference }
    ensures stdout { one_text (found_of matches.now) (codes "check") ≡ Some (codes "false")
        → one_text (found_of matches.now) (codes "stdout") ≡ Some (codes "true")
        → result.target ≡ Target.Output }
    ensures files { one_text (found_of matches.now) (codes "check") ≡ Some (codes "false")
        → one_text (found_of matches.now) (codes "stdout") ≡ Some (codes "false")
        → result.target ≡ Target.File }
    ensures terminal { result.is_to_terminal ≡ is_to_terminal }
{
    let target = if matches.get_flag("check") {
        Target::Difference
    } else if matches.get_flag("stdout") {
        Target::Output
    } else {
        Target::File
    };
    Delivery {
        target,
        is_to_terminal,
    }
}

/// Returns the options of the formatter that a command line asks for.
pub fn options_of(matches: &ArgMatches<'_>) -> Options
    ensures kept { one_text (found_of matches.now) (codes "keep-line-ends") ≡ Some (codes "true")
        → result.line_ends ≡ LineEnds.OfFirstLine }
    ensures line_feeds { one_text (found_of matches.now) (codes "keep-line-ends") ≡ Some (codes "false")
        → result.line_ends ≡ LineEnds.LineFeed }
    ensures style { (result.width ≡ 100) × (result.indent ≡ 4) }
{
    let line_ends = if matches.get_flag("keep-line-ends") {
        LineEnds::OfFirstLine
    } else {
        LineEnds::LineFeed
    };
    Options {
        line_ends,
        ..Options::default()
    }
}
