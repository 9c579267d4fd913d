//! The command line.
ghost use Rattle.std.specs.Prelude.{◌≡◌, ◌∷◌, [], IfOk, None, Some, codes, false, true};
ghost use Rattle.clap.specs.Matches.{first_value, found_of, one_text};
ghost use Rattle.clap.specs.Simple.{app_of};
ghost use Rattle.program_support.specs.Arguments.{HasForm, arguments_of, flag, option, options, positionals};

use clap::{Arg, ArgAction, ArgMatches, Command};
use lint_diagnostics::Code;
use lint_output::Style;
use program_support::arguments::{add_argument, flag, new_command, option, positional};
use std::alloc::{AllocError, Global};

/// The form in which diagnostics are printed.
#[derive(Clone, Copy, Debug, PartialEq, Eq)]
pub enum Format {
    /// One after another.
    Stream(Style),
    /// One log of SARIF 2.1.0.
    Log,
}

/// The options of a command line.
#[derive(Clone, Copy)]
pub struct Settings<'a> {
    pub format: Format,
    /// The status counts warnings, too.
    pub deny_warnings: bool,
    /// All warnings are reported.
    pub warn_all: bool,
    /// Warnings of these codes are not reported.
    pub allowed: &'a [Code],
    /// The status counts warnings of these codes, too.
    pub denied: &'a [Code],
    /// Rules with which matching starts.
    pub starts: &'a [&'a str],
}

/// The exit statuses, as `--help` shows them.
const STATUSES: &str =
    "status: 0 nothing found, 1 errors (or warnings that are denied), 2 out of memory, \
     3 a file or the command line can't be read, 4 a file or standard output can't be written";

/// The arguments that the program takes.
pub fn command<'a>(alloc: Global) -> Result<Command<'a>, AllocError>
    ensures name { IfOk result (λ command. (app_of command).top.name ≡ codes "pest-lint") }
    ensures arguments { IfOk result (λ command. arguments_of command ≡ option (codes "format")
        ∷ option (codes "color") ∷ flag (codes "deny-warnings") ∷ option (codes "warn")
        ∷ options (codes "allow") ∷ options (codes "deny") ∷ flag (codes "fix")
        ∷ flag (codes "unsafe-fixes") ∷ flag (codes "diff") ∷ options (codes "start")
        ∷ option (codes "explain") ∷ flag (codes "list") ∷ positionals (codes "FILE") ∷ []) }
{
    let about = "Reports what is wrong with pest grammars, and how to mend it";
    let command = new_command(alloc, "pest-lint", about, STATUSES)?;
    let command = add_argument(command, format_argument(alloc))?;
    let command = add_argument(command, colour_argument(alloc))?;
    let command = add_argument(command, deny_argument(alloc))?;
    let command = add_argument(command, warn_argument(alloc))?;
    let command = add_argument(command, allow_code_argument(alloc))?;
    let command = add_argument(command, deny_code_argument(alloc))?;
    let command = add_argument(command, fix_argument(alloc))?;
    let command = add_argument(command, unsafe_argument(alloc))?;
    let command = add_argument(command, diff_argument(alloc))?;
    let command = add_argument(command, start_argument(alloc))?;
    let command = add_argument(command, explain_argument(alloc))?;
    let command = add_argument(command, list_argument(alloc))?;
    add_argument(command, file_argument(alloc))
}

/// `--format`.
fn format_argument<'a>(alloc: Global) -> Arg<'a>
    ensures { HasForm (option (codes "format")) result }
{
    option(alloc, "format", "How diagnostics are printed")
        .value_parser(["text", "json", "sarif", "github"].as_slice())
        .default_value("text")
}

/// `--color`.
fn colour_argument<'a>(alloc: Global) -> Arg<'a>
    ensures { HasForm (option (codes "color")) result }
{
    option(alloc, "color", "Colours: on a terminal, always or never")
        .value_parser(["auto", "always", "never"].as_slice())
        .default_value("auto")
}

/// `--deny-warnings`.
fn deny_argument<'a>(alloc: Global) -> Arg<'a>
    ensures { HasForm (flag (codes "deny-warnings")) result }
{
    flag(
        alloc,
        "deny-warnings",
        "Exit with status 1 on warnings, too",
    )
}

/// `--warn`.
fn warn_argument<'a>(alloc: Global) -> Arg<'a>
    ensures { HasForm (option (codes "warn")) result }
{
    let help = "Report the warnings that are on request, too (--list shows which)";
    option(alloc, "warn", help)
        .value_name("all")
        .value_parser(["all"].as_slice())
}

/// `--allow`.
fn allow_code_argument<'a>(alloc: Global) -> Arg<'a>
    ensures { HasForm (options (codes "allow")) result }
{
    option(alloc, "allow", "Do not report warnings of this code")
        .value_name("CODE")
        .action(ArgAction::Append)
}

/// `--deny`.
fn deny_code_argument<'a>(alloc: Global) -> Arg<'a>
    ensures { HasForm (options (codes "deny")) result }
{
    let help = "Exit with status 1 on warnings of this code, too";
    option(alloc, "deny", help)
        .value_name("CODE")
        .action(ArgAction::Append)
}

/// `--fix`.
fn fix_argument<'a>(alloc: Global) -> Arg<'a>
    ensures { HasForm (flag (codes "fix")) result }
{
    let help = "Apply safe fixes, replace the files, and report the rest";
    flag(alloc, "fix", help)
}

/// `--unsafe-fixes`.
fn unsafe_argument<'a>(alloc: Global) -> Arg<'a>
    ensures { HasForm (flag (codes "unsafe-fixes")) result }
{
    let help = "Apply fixes that may change what the grammar matches, too";
    flag(alloc, "unsafe-fixes", help)
}

/// `--diff`.
fn diff_argument<'a>(alloc: Global) -> Arg<'a>
    ensures { HasForm (flag (codes "diff")) result }
{
    let help = "Show what fixes would change, and write nothing (status 1 if there is something)";
    flag(alloc, "diff", help)
}

/// `--list`.
fn list_argument<'a>(alloc: Global) -> Arg<'a>
    ensures { HasForm (flag (codes "list")) result }
{
    flag(alloc, "list", "List all diagnostic codes and exit")
}

/// `--start`.
fn start_argument<'a>(alloc: Global) -> Arg<'a>
    ensures { HasForm (options (codes "start")) result }
{
    let help = "Treat NAME as an entry point (it may be unused)";
    option(alloc, "start", help)
        .value_name("NAME")
        .action(ArgAction::Append)
}

/// `--explain`.
fn explain_argument<'a>(alloc: Global) -> Arg<'a>
    ensures { HasForm (option (codes "explain")) result }
{
    let help = "Explain a diagnostic code (e.g. pest::left_recursion) and exit";
    option(alloc, "explain", help).value_name("CODE")
}

/// The files.
fn file_argument<'a>(alloc: Global) -> Arg<'a>
    ensures { HasForm (positionals (codes "FILE")) result }
{
    let help = "A grammar, a folder with grammars (*.pest), or - for standard input";
    positional(alloc, "FILE", help)
        .action(ArgAction::Append)
        .num_args(1..)
}

/// Returns the settings of a command line. `has_colour` says whether text is in colours. `starts` names rules
/// with which matching starts. Warnings of the codes `allowed` are not reported, and those of the codes
/// `denied` count as errors.
pub fn settings_of<'a>(
    matches: &ArgMatches<'_>,
    has_colour: bool,
    starts: &'a [&'a str],
    allowed: &'a [Code],
    denied: &'a [Code],
) -> Settings<'a>
    ensures denied { one_text (found_of matches.entry.now) (codes "deny-warnings") ≡ Some (codes "true")
        → result.deny_warnings ≡ true }
    ensures accepted { one_text (found_of matches.entry.now) (codes "deny-warnings") ≡ None
        → result.deny_warnings ≡ false }
    ensures log { first_value (found_of matches.entry.now) (codes "format") ≡ Some (codes "sarif")
        → result.format ≡ Format.Log }
    ensures json { first_value (found_of matches.entry.now) (codes "format") ≡ Some (codes "json")
        → result.format ≡ Format.Stream Style.Json }
    ensures github { first_value (found_of matches.entry.now) (codes "format") ≡ Some (codes "github")
        → result.format ≡ Format.Stream Style.Github }
    ensures text { first_value (found_of matches.entry.now) (codes "format") ≡ Some (codes "text")
        → result.format ≡ Format.Stream (Style.Text has_colour) }
    ensures all { first_value (found_of matches.entry.now) (codes "warn") ≡ Some (codes "all")
        → result.warn_all ≡ true }
    ensures some { first_value (found_of matches.entry.now) (codes "warn") ≡ None
        → result.warn_all ≡ false }
    ensures starts { result.starts.now ≡ starts.entry.now }
    ensures allowed_codes { result.allowed.now ≡ allowed.entry.now }
    ensures denied_codes { result.denied.now ≡ denied.entry.now }
{
    Settings {
        format: format_of(matches, has_colour),
        deny_warnings: matches.get_flag("deny-warnings"),
        warn_all: is_all(matches),
        allowed,
        denied,
        starts,
    }
}

/// Whether all warnings are asked for.
pub fn is_all(matches: &ArgMatches<'_>) -> bool
    ensures all { first_value (found_of matches.now) (codes "warn") ≡ Some (codes "all") → result ≡ true }
    ensures some { first_value (found_of matches.now) (codes "warn") ≡ None → result ≡ false }
{
    match matches.get_str("warn") {
        Some("all") => true,
        _ => false,
    }
}

/// The form in which diagnostics are asked for.
fn format_of(matches: &ArgMatches<'_>, has_colour: bool) -> Format
    ensures json { first_value (found_of matches.now) (codes "format") ≡ Some (codes "json")
        → result ≡ Format.Stream Style.Json }
    ensures github { first_value (found_of matches.now) (codes "format") ≡ Some (codes "github")
        → result ≡ Format.Stream Style.Github }
    ensures text { first_value (found_of matches.now) (codes "format") ≡ Some (codes "text")
        → result ≡ Format.Stream (Style.Text has_colour) }
    ensures log { first_value (found_of matches.now) (codes "format") ≡ Some (codes "sarif")
        → result ≡ Format.Log }
{
    match matches.get_str("format") {
        Some("json") => Format::Stream(Style::Json),
        Some("github") => Format::Stream(Style::Github),
        Some("sarif") => Format::Log,
        _ => Format::Stream(Style::Text(has_colour)),
    }
}
