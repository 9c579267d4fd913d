//! The command line.
ghost use Rattle.std.specs.Prelude.{◌≡◌, ◌∷◌, [], IfOk, codes};
ghost use Rattle.clap.specs.Simple.{app_of};
ghost use Rattle.program_support.specs.Arguments.{HasForm, arguments_of, flag, option, positionals};

use clap::{Arg, ArgAction, ArgMatches, Command};
use program_support::arguments::{add_argument, flag, new_command, option, positional};
use std::alloc::{AllocError, Global};

/// The form of the report.
#[derive(Clone, Copy)]
pub enum ReportFormat {
    /// The cases that fail, and how many cases pass, fail and are skipped.
    Text,
    /// A line of JSON for each case.
    Json,
    /// The Test Anything Protocol.
    Tap,
}

/// The rules that are run.
#[derive(Clone, Copy)]
pub enum RuleForm {
    /// The rules of the grammar as it is written.
    Written,
    /// The rules that the optimizer returns. pest's own parsers run these.
    Optimized,
}

/// The work on each file.
#[derive(Clone, Copy)]
pub enum Task {
    /// Run the cases, and report the verdicts.
    Test,
    /// Run the cases, and write the trees of those that differ.
    Update,
    /// Print the names of the cases.
    List,
}

/// The options of a command line.
#[derive(Clone, Copy)]
pub struct TestRequest<'a> {
    pub grammar: Option<&'a str>,
    pub rule: Option<&'a str>,
    /// The text of `--filter`. A case is skipped if its name does not have this text.
    pub filter: Option<&'a str>,
    pub form: RuleForm,
    pub format: ReportFormat,
    pub task: Task,
    pub has_colour: bool,
}

/// The form of files, and the exit statuses, as `--help` shows them.
const AFTER_HELP: &str =
    "A file of cases: lines `grammar: PATH` and `rule: NAME`, each if it is wanted, and then for each case
a line of three or more `=`, the name, lines of attributes, and a line of `=`;
the text; a line of three or more `-`; and the expected trees, as (rule (rule \"text\") (rule)).
One empty line after the header and one before the `-` do not belong to the text, and neither does
its last line end. The last line of `-` of a case is the one that counts. All lines of `=` and `-`
may end with one suffix, such as ===@ and ---@, if a text has such lines itself.
A tree without a text in quotes matches any text, and (EOI) may be left out. A comment begins with ;
attributes: :rule(NAME) of this case, :error the text does not match, :prefix a match of a prefix
is enough, :skip, :only
the rule is that of the case, or else of --rule, of the file, or the first one of the grammar;
the grammar is that of --grammar, or of the file, or the only *.pest in the folder of the file,
in the one above, or in src beside it
status: 0 all cases pass, 1 a case fails or a grammar is refused, 2 out of memory,
3 a file or the command line can't be read, 4 a file or standard output can't be written";

/// Returns the options and arguments that the program accepts.
pub fn command<'a>(alloc: Global) -> Result<Command<'a>, AllocError>
    ensures name { IfOk result (λ command. (app_of command).top.name ≡ codes "pest-test") }
    ensures arguments { IfOk result (λ command. arguments_of command ≡ option (codes "grammar")
        ∷ option (codes "rule") ∷ flag (codes "optimized") ∷ flag (codes "update") ∷ flag (codes "list")
        ∷ option (codes "filter") ∷ option (codes "format") ∷ option (codes "color")
        ∷ positionals (codes "PATH") ∷ []) }
{
    let about = "Tests pest grammars by cases: texts, and the trees that are expected";
    let command = new_command(alloc, "pest-test", about, AFTER_HELP)?;
    let command = add_argument(command, grammar_argument(alloc))?;
    let command = add_argument(command, rule_argument(alloc))?;
    let command = add_argument(command, optimized_argument(alloc))?;
    let command = add_argument(command, update_argument(alloc))?;
    let command = add_argument(command, list_argument(alloc)?)?;
    let command = add_argument(command, filter_argument(alloc))?;
    let command = add_argument(command, format_argument(alloc))?;
    let command = add_argument(command, colour_argument(alloc))?;
    add_argument(command, paths_argument(alloc))
}

/// Returns `--grammar`.
fn grammar_argument<'a>(alloc: Global) -> Arg<'a>
    ensures { HasForm (option (codes "grammar")) result }
{
    option(
        alloc,
        "grammar",
        "Test this grammar, whatever the files say",
    )
    .value_name("FILE")
}

/// Returns `--rule`.
fn rule_argument<'a>(alloc: Global) -> Arg<'a>
    ensures { HasForm (option (codes "rule")) result }
{
    option(
        alloc,
        "rule",
        "Match by this rule in cases without `:rule(NAME)`",
    )
    .value_name("NAME")
}

/// Returns `--optimized`.
fn optimized_argument<'a>(alloc: Global) -> Arg<'a>
    ensures { HasForm (flag (codes "optimized")) result }
{
    let help = "Match by the optimized rules, as pest's own parsers do";
    flag(alloc, "optimized", help)
}

/// Returns `--update`.
fn update_argument<'a>(alloc: Global) -> Arg<'a>
    ensures { HasForm (flag (codes "update")) result }
{
    let help = "Write the found trees into the files, where they are not the expected ones";
    flag(alloc, "update", help)
}

/// Returns `--list`.
fn list_argument<'a>(alloc: Global) -> Result<Arg<'a>, AllocError>
    ensures { IfOk result (HasForm (flag (codes "list"))) }
{
    flag(alloc, "list", "Print the names of the cases, and run none").conflicts_with("update")
}

/// Returns `--filter`.
fn filter_argument<'a>(alloc: Global) -> Arg<'a>
    ensures { HasForm (option (codes "filter")) result }
{
    option(
        alloc,
        "filter",
        "Skip cases whose names do not have these words",
    )
    .value_name("WORDS")
}

/// Returns `--format`.
fn format_argument<'a>(alloc: Global) -> Arg<'a>
    ensures { HasForm (option (codes "format")) result }
{
    option(alloc, "format", "How verdicts are printed")
        .value_parser(["text", "json", "tap"].as_slice())
        .default_value("text")
}

/// Returns `--color`.
fn colour_argument<'a>(alloc: Global) -> Arg<'a>
    ensures { HasForm (option (codes "color")) result }
{
    option(alloc, "color", "Colours: on a terminal, always or never")
        .value_parser(["auto", "always", "never"].as_slice())
        .default_value("auto")
}

/// Returns the argument for the files.
fn paths_argument<'a>(alloc: Global) -> Arg<'a>
    ensures { HasForm (positionals (codes "PATH")) result }
{
    let help = "A file of cases, or a folder of such files (*.txt); none is the folder tests";
    positional(alloc, "PATH", help)
        .action(ArgAction::Append)
        .num_args(1..)
}

/// Returns the options of a command line.
pub fn request_of<'a>(matches: &'a ArgMatches<'_>, has_colour: bool) -> TestRequest<'a> {
    TestRequest {
        grammar: matches.get_str("grammar"),
        rule: matches.get_str("rule"),
        filter: matches.get_str("filter"),
        form: if matches.get_flag("optimized") {
            RuleForm::Optimized
        } else {
            RuleForm::Written
        },
        format: match matches.get_str("format") {
            Some("json") => ReportFormat::Json,
            Some("tap") => ReportFormat::Tap,
            _ => ReportFormat::Text,
        },
        task: task_of(matches),
        has_colour,
    }
}

/// Returns the work that a command line asks for.
fn task_of(matches: &ArgMatches<'_>) -> Task {
    if matches.get_flag("update") {
        Task::Update
    } else if matches.get_flag("list") {
        Task::List
    } else {
        Task::Test
    }
}
