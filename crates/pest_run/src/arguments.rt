//! The command line.
ghost use Rattle.std.specs.Prelude.{◌≡◌, ◌∷◌, ℕ, List, [], IfOk, None, Some, codes, false, option_map, true};
ghost use Rattle.clap.specs.Matches.{first_value, found_of, one_text};
ghost use Rattle.clap.specs.Simple.{app_of};
ghost use Rattle.program_support.specs.Arguments.{HasForm, arguments_of, flag, option, positional};
ghost use Rattle.pest_run.specs.Steps.{CountsSteps, limits_of, name_limit, step_limit};

use clap::builder::ValueParser;
use clap::{Arg, ArgMatches, Command};
use program_support::arguments::{add_argument, flag, new_command, option, positional};
use std::alloc::{AllocError, Global};

/// The format of printed trees.
#[derive(Clone, Copy)]
pub enum Format {
    Text,
    Json,
    Lines,
}

/// The rules by which a text is matched.
#[derive(Clone, Copy)]
pub enum RuleForm {
    /// The rules of the grammar as it is written.
    Written,
    /// The rules that the optimizer returns. pest's own parsers run these.
    Optimized,
}

/// The rule to match, the form of the rules, the format of the trees, the limit of the steps, and whether a
/// failure is explained.
#[derive(Clone, Copy)]
pub struct Request<'a> {
    /// The name of the rule that is to match the text.
    pub rule: &'a str,
    /// The format of the printed trees.
    pub format: Format,
    /// The form in which the rules of the grammar are run.
    pub form: RuleForm,
    /// The greatest number of steps, if one is given.
    pub steps: Option<u64>,
    /// Whether the calls that are open at a failure are printed.
    pub why: bool,
}

/// The exit statuses, as `--help` shows them.
const STATUSES: &str =
    "status: 0 the trees or the names were printed, or the compiled grammar was written, \
     1 the grammar is refused, has no such rule, or does not match the text, 2 out of memory, \
     3 a file or the command line can't be read, 4 output refused, 5 the run was stopped, \
     6 a file is no compiled grammar of this version, or was changed";

/// Returns the command line that the program accepts.
pub fn command<'a>(alloc: Global) -> Result<Command<'a>, AllocError>
    ensures name { IfOk result (λ command. (app_of command).top.name ≡ codes "pest-run") }
    ensures arguments { IfOk result (λ command. arguments_of command ≡ option (codes "format")
        ∷ flag (codes "optimized") ∷ option (codes "steps") ∷ flag (codes "why")
        ∷ flag (codes "list-rules") ∷ option (codes "compile")
        ∷ positional (codes "GRAMMAR") ∷ positional (codes "RULE") ∷ positional (codes "TEXT") ∷ []) }
{
    let about = "Matches a text by a rule of a pest grammar, and prints the trees";
    let command = new_command(alloc, "pest-run", about, STATUSES)?;
    let command = add_argument(command, format_argument(alloc))?;
    let command = add_argument(command, optimized_argument(alloc))?;
    let command = add_argument(command, steps_argument(alloc))?;
    let command = add_argument(command, why_argument(alloc))?;
    let command = add_argument(command, list_argument(alloc)?)?;
    let command = add_argument(command, compile_argument(alloc)?)?;
    let command = add_argument(command, grammar_argument(alloc))?;
    let command = add_argument(command, rule_argument(alloc)?)?;
    add_argument(command, text_argument(alloc))
}

/// Returns `--format`.
fn format_argument<'a>(alloc: Global) -> Arg<'a>
    ensures { HasForm (option (codes "format")) result }
{
    option(alloc, "format", "How the trees are written")
        .value_parser(["text", "json", "lines"].as_slice())
        .default_value("text")
}

/// Returns `--optimized`.
fn optimized_argument<'a>(alloc: Global) -> Arg<'a>
    ensures { HasForm (flag (codes "optimized")) result }
{
    let help = "Match by the optimized rules, as pest's own parsers do; \
                a rule like (x ~ y)* ~ x then matches more";
    flag(alloc, "optimized", help)
}

/// Returns `--steps`.
fn steps_argument<'a>(alloc: Global) -> Arg<'a>
    ensures { HasForm (option (codes "steps")) result }
{
    let help =
        "Stop a match after N steps. If N is not given, only a match by a rule that uses the stack is \
                stopped, after 268435456 steps and 4096 more for each byte of the text";
    option(alloc, "steps", help)
        .value_name("N")
        .value_parser(ValueParser::unsigned(1, u64::MAX))
}

/// Returns `--why`.
fn why_argument<'a>(alloc: Global) -> Arg<'a>
    ensures { HasForm (flag (codes "why")) result }
{
    let help =
        "Where the rule fails, also print the calls of rules that are open there, and where each begins";
    flag(alloc, "why", help)
}

/// Returns `--list-rules`.
fn list_argument<'a>(alloc: Global) -> Result<Arg<'a>, AllocError>
    ensures { IfOk result (HasForm (flag (codes "list-rules"))) }
{
    let help = "Print the names of the grammar's rules, a line each, and match no text";
    flag(alloc, "list-rules", help).conflicts_with("RULE")
}

/// Returns `--compile`.
fn compile_argument<'a>(alloc: Global) -> Result<Arg<'a>, AllocError>
    ensures { IfOk result (HasForm (option (codes "compile"))) }
{
    let help =
        "Compile the optimized rules of the grammar to FILE, which then stands for the grammar; \
                - is standard output";
    let argument = option(alloc, "compile", help).value_name("FILE");
    argument
        .conflicts_with("RULE")?
        .conflicts_with("list-rules")
}

/// Returns the argument for the grammar.
fn grammar_argument<'a>(alloc: Global) -> Arg<'a>
    ensures { HasForm (positional (codes "GRAMMAR")) result }
{
    let help = "The file of a grammar, or of a compiled grammar";
    positional(alloc, "GRAMMAR", help).required(true)
}

/// Returns the argument for the rule.
fn rule_argument<'a>(alloc: Global) -> Result<Arg<'a>, AllocError>
    ensures { IfOk result (HasForm (positional (codes "RULE"))) }
{
    let argument = positional(alloc, "RULE", "The rule that the text is matched by");
    argument
        .required_unless_present("list-rules")?
        .required_unless_present("compile")
}

/// Returns the argument for the text.
fn text_argument<'a>(alloc: Global) -> Arg<'a>
    ensures { HasForm (positional (codes "TEXT")) result }
{
    positional(alloc, "TEXT", "The file of the text; - is standard input").default_value("-")
}

/// Returns the format that a command line asks for.
pub fn format_of(matches: &ArgMatches<'_>) -> Format
    ensures json { first_value (found_of matches.now) (codes "format") ≡ Some (codes "json")
        → result ≡ Format.Json }
    ensures json_only { result ≡ Format.Json
        → first_value (found_of matches.now) (codes "format") ≡ Some (codes "json") }
    ensures lines { first_value (found_of matches.now) (codes "format") ≡ Some (codes "lines")
        → result ≡ Format.Lines }
    ensures lines_only { result ≡ Format.Lines
        → first_value (found_of matches.now) (codes "format") ≡ Some (codes "lines") }
{
    match matches.get_str("format") {
        Some("json") => Format::Json,
        Some("lines") => Format::Lines,
        _ => Format::Text,
    }
}

/// Returns the form of the rules that a command line asks for.
pub fn form_of(matches: &ArgMatches<'_>) -> RuleForm
    ensures optimized { one_text (found_of matches.now) (codes "optimized") ≡ Some (codes "true")
        → result ≡ RuleForm.Optimized }
    ensures written { one_text (found_of matches.now) (codes "optimized") ≡ Some (codes "false")
        → result ≡ RuleForm.Written }
    ensures missing { one_text (found_of matches.now) (codes "optimized") ≡ None
        → result ≡ RuleForm.Written }
{
    if matches.get_flag("optimized") {
        RuleForm::Optimized
    } else {
        RuleForm::Written
    }
}

/// Returns whether a command line asks for the names of the rules.
pub fn asks_for_rules(matches: &ArgMatches<'_>) -> bool
    ensures asked { one_text (found_of matches.now) (codes "list-rules") ≡ Some (codes "true")
        → result ≡ true }
    ensures unasked { one_text (found_of matches.now) (codes "list-rules") ≡ Some (codes "false")
        → result ≡ false }
    ensures missing { one_text (found_of matches.now) (codes "list-rules") ≡ None → result ≡ false }
{
    matches.get_flag("list-rules")
}

/// Returns whether a command line asks for the calls that are open at a failure.
pub fn asks_why(matches: &ArgMatches<'_>) -> bool
    ensures asked { one_text (found_of matches.now) (codes "why") ≡ Some (codes "true") → result ≡ true }
    ensures unasked { one_text (found_of matches.now) (codes "why") ≡ Some (codes "false")
        → result ≡ false }
    ensures missing { one_text (found_of matches.now) (codes "why") ≡ None → result ≡ false }
{
    matches.get_flag("why")
}

/// Returns the file to which a command line asks to compile, if it does.
pub fn compile_target<'m>(matches: &'m ArgMatches<'_>) -> Option<&'m str>
    ensures { option_map (λ name. name.now) result
        ≡ first_value (found_of matches.entry.now) (codes "compile") }
{
    matches.get_str("compile")
}

/// Returns the greatest number of steps that a command line asks for, if it does.
pub fn steps_of(matches: &ArgMatches<'_>) -> Option<u64>
    ensures missing { one_text (found_of matches.now) (codes "steps") ≡ None → result ≡ None }
    ensures value { (t : List ℕ) → one_text (found_of matches.now) (codes "steps") ≡ Some t
        → CountsSteps t result }
{
    matches.get_one("steps")
}

/// The greatest numbers of steps on a text.
#[derive(Clone, Copy, Debug)]
pub struct Limits {
    /// The limit of a match, if the rule uses the stack. Another rule has a limit only if the user gave one.
    pub steps: u64,
    /// The limit of each search for names that are expected, and for calls that are open.
    pub names: u64,
}

/// Returns the limits on a text of `length` bytes. `steps` is the number of steps that the user gave, if
/// there is one.
pub fn limits_of(steps: Option<u64>, length: usize) -> Limits
    ensures { result ≡ limits_of steps length }
{
    Limits {
        steps: step_limit(steps, length),
        names: name_limit(steps, length),
    }
}

/// The steps of a match without a limit: those of the greatest number of operations that a `u64` holds.
const MOST_STEPS: u64 = u64::MAX / 4;

/// Returns the greatest number of steps of a match on a text of `length` bytes by a rule that uses the stack:
/// `steps`, if it is given, or else 2^28, and 4,096 more for each byte.
pub fn step_limit(steps: Option<u64>, length: usize) -> u64
    ensures { result ≡ step_limit steps length }
{
    match steps {
        Some(steps) => steps,
        None => (length as u64)
            .saturating_add(65_536)
            .saturating_mul(4_096)
            .min(MOST_STEPS),
    }
}

/// Returns the greatest number of steps of a search for names on a text of this length, in bytes: the given
/// number, or else 2^23, and 32 more for each byte.
pub fn name_limit(steps: Option<u64>, length: usize) -> u64
    ensures { result ≡ name_limit steps length }
{
    match steps {
        Some(steps) => steps,
        None => (length as u64).saturating_add(262_144).saturating_mul(32),
    }
}
