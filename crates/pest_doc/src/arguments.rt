//! The command line.
ghost use Rattle.std.specs.Prelude.{◌≡◌, ◌≢◌, ◌∷◌, [], IfNone, IfOk, IfSome, Some, codes, is_some, true};
ghost use Rattle.clap.specs.Matches.{first_value, found_of};
ghost use Rattle.clap.specs.Simple.{app_of};
ghost use Rattle.program_support.specs.Arguments.{HasForm, arguments_of, option, positional};
ghost use Rattle.pest_doc.specs.Arguments.{IsNamed, asked_rule};

use clap::{Arg, ArgMatches, Command};
use program_support::arguments::{add_argument, new_command, option, positional};
use std::alloc::{AllocError, Global};

/// A document that is asked for.
#[derive(Clone, Copy)]
pub enum DocumentFormat<'a> {
    /// A page of all rules.
    Html,
    /// The diagram of the rule of a name; of the first rule if none is given.
    Svg(Option<&'a str>),
    Markdown,
    Ebnf,
}

/// The exit statuses, as `--help` shows them.
const STATUSES: &str =
    "status: 0 printed, 1 the grammar is refused or has no such rule, 2 out of memory, \
     3 a file or the command line can't be read, 4 a file or standard output can't be written";

/// Returns the arguments that the program takes.
pub fn command<'a>(alloc: Global) -> Result<Command<'a>, AllocError>
    ensures name { IfOk result (λ command. (app_of command).top.name ≡ codes "pest-doc") }
    ensures arguments { IfOk result (λ command. arguments_of command ≡ option (codes "format")
        ∷ option (codes "rule") ∷ option (codes "out") ∷ positional (codes "GRAMMAR") ∷ []) }
{
    let about = "Prints a document of a pest grammar, with a railroad diagram of each rule";
    let command = new_command(alloc, "pest-doc", about, STATUSES)?;
    let command = add_argument(command, format_argument(alloc))?;
    let command = add_argument(command, rule_argument(alloc))?;
    let command = add_argument(command, out_argument(alloc))?;
    add_argument(command, grammar_argument(alloc))
}

/// Returns `--format`.
fn format_argument<'a>(alloc: Global) -> Arg<'a>
    ensures { HasForm (option (codes "format")) result }
{
    let help =
        "html: a page of all rules; svg: the diagram of one; markdown: a page; ebnf: W3C's EBNF";
    option(alloc, "format", help)
        .value_parser(["html", "svg", "markdown", "ebnf"].as_slice())
        .default_value("html")
}

/// Returns `--rule`.
fn rule_argument<'a>(alloc: Global) -> Arg<'a>
    ensures { HasForm (option (codes "rule")) result }
{
    let help =
        "The rule of which --format svg prints the diagram; the first one if there is no such option";
    option(alloc, "rule", help)
}

/// Returns `--out`.
fn out_argument<'a>(alloc: Global) -> Arg<'a>
    ensures { HasForm (option (codes "out")) result }
{
    option(
        alloc,
        "out",
        "The file to write, in place of standard output",
    )
}

/// Returns the argument for the grammar.
fn grammar_argument<'a>(alloc: Global) -> Arg<'a>
    ensures { HasForm (positional (codes "GRAMMAR")) result }
{
    positional(alloc, "GRAMMAR", "A grammar; - is standard input").required(true)
}

/// Returns the document that a command line asks for; `None` if it names a rule, and asks for no diagram.
pub fn format_of<'m>(matches: &'m ArgMatches<'_>) -> Option<DocumentFormat<'m>>
    ensures format { IfSome result (IsNamed (first_value (found_of matches.entry.now) (codes "format"))) }
    ensures rule { IfSome result
        (λ format. asked_rule format ≡ first_value (found_of matches.entry.now) (codes "rule")) }
    ensures stray { IfNone result
        (first_value (found_of matches.entry.now) (codes "format") ≢ Some (codes "svg")) }
    ensures named { IfNone result (is_some (first_value (found_of matches.entry.now) (codes "rule")) ≡ true) }
{
    let rule = matches.get_str("rule");
    match matches.get_str("format") {
        Some("svg") => Some(DocumentFormat::Svg(rule)),
        _ if rule.is_some() => None,
        Some("markdown") => Some(DocumentFormat::Markdown),
        Some("ebnf") => Some(DocumentFormat::Ebnf),
        _ => Some(DocumentFormat::Html),
    }
}
