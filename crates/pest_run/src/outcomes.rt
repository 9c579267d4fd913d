//! Outcomes of rules.
ghost use Rattle.std.specs.Prelude.{◌≡◌, ℕ, List, IfOk, IsSomeAnd, IsUtf8, chars, length, option_map, string_bytes};
ghost use Rattle.base_ast.specs.Optimized.{optimized_rules_of};
ghost use Rattle.base_ast.specs.declared.optimized.OptimizedRule.{OptimizedRule};
ghost use Rattle.base_language.specs.Language.Expression.{Grammar};
ghost use Rattle.base_language.specs.Language.State.{Trees};
ghost use Rattle.base_language.specs.Language.Text.{Text};
ghost use Rattle.matcher_engine.specs.ParseTrees.{HasParseTree};
ghost use Rattle.matcher_engine.specs.Walks.{AreNamesOf, visits, visits_left};
ghost use Rattle.matcher_program.specs.Answers.{start_of};
ghost use Rattle.matcher_program.specs.ExpectedNames.{name_texts};
ghost use Rattle.std.specs.Str.{IsCharBoundary};
ghost use Rattle.matcher_support.specs.Compiled.{FailsIn, IsCompiled, IsCompiledOf, IsUnanswered};
ghost use Rattle.matcher_support.specs.Sets.{is_in_property};
ghost use Rattle.matcher_support.specs.Shown.{shown};
ghost use Rattle.program_support.specs.Escapes.{escaped_lines};
ghost use Rattle.pest_run.specs.Messages.{IsStepsText};
ghost use Rattle.pest_run.specs.Steps.{limits_of};
ghost use Rattle.pest_run.specs.Outcomes.{IsFailureReport, IsMatchReport, IsNoRuleReport, IsOutcome, IsStopReport, IsUnnamedMatchReport, IsUnnamedReport, ReportsAt, ReportsFailure, end_note, trees_text, unfit_outcome};

use crate::arguments::{Format, Limits, limits_of};
use crate::failures::{find_failure, names_after};
use crate::matching::{is_out_of_steps, match_rule};
use crate::messages::{
    describe_failure, end_message, is_more, no_rule_message, stack_message, steps_message,
    unnamed_message, unnamed_note,
};
use crate::stack_rules::find_stack_rule;
use base_language::runtime::{Error, ErrorVariant, Fault, Position};
use matcher_engine::block::{BlockStop, compile_block};
use matcher_engine::matcher::ParseTree;
use matcher_engine::walk::TreeWalk;
use matcher_program::answers::Stop;
use matcher_program::compile::Unfit;
use matcher_support::attempts::NamedAttempts;
use matcher_support::compiled::CompiledGrammar;
use matcher_support::json::tree_json;
use matcher_support::lines::tree_lines;
use matcher_support::shown::tree_text;
use matcher_support::unicode_properties::UnicodeProperties;
use pest_meta::optimizer::OptimizedRule;
use program_support::escape::escape_lines;
use program_support::json::escape_json;
use program_support::messages::show_error;
use std::alloc::{AllocError, Global};

/// The outcome of a rule on a text.
#[derive(Drop)]
pub enum Outcome {
    /// The rule matches, and these lines show the trees. The note says that the match ends before the text.
    Shown { lines: String, note: Option<String> },
    /// The rule fails; the report has the position and the expected set.
    Failed(String),
    /// The rule fails. The report has the position, and says that the expected set was not found within the
    /// limit of steps.
    Unnamed(String),
    /// The grammar has no rule of that name, and the message says so.
    NoRule(String),
    /// The run takes more steps than the matcher may take, and the message says so.
    OutOfSteps(String),
    /// `PEEK` or `POP` met the empty stack, and the rule has no outcome on the text.
    EmptyStack,
    /// The text has 4 GiB or more.
    LongText,
    /// The rules call a name that is neither a rule's nor a builtin's.
    UnknownName,
    /// A bound of a range is not one character.
    Bound,
    /// An allocation failed.
    Memory,
}

/// Runs the requested rule on the text of a file, and returns the outcome. If a limit is given, the run has
/// at most that number of steps. If not, it has the limit of `match_rule`.
pub fn outcome_of(
    alloc: Global,
    rules: &[OptimizedRule],
    rule: &str,
    name: &str,
    text: &str,
    format: Format,
    limit: Option<u64>,
) -> Outcome
    ensures { IsOutcome (optimized_rules_of rules.now) rule.now name.now text.now format
        (limits_of limit (length text.now)) result }
{
    match compile_block(alloc, rules, &UnicodeProperties) {
        Ok(block) => match block_outcome(alloc, &block, rule, name, text, format, limit) {
            Some(outcome) => outcome,
            None => unreachable!(),
        },
        Err(unfit) => unfit_outcome(unfit),
    }
}

/// Runs the rule of that name of a compiled grammar on the text of a file, as `outcome_of`. Returns none for
/// bytes that are no compiled grammar.
pub fn block_outcome(
    alloc: Global,
    block: &[u8],
    rule: &str,
    name: &str,
    text: &str,
    format: Format,
    limit: Option<u64>,
) -> Option<Outcome>
    ensures { (rules : List OptimizedRule) → IsCompiled rules block.now → IsSomeAnd result
        (IsOutcome (optimized_rules_of rules) rule.now name.now text.now format
        (limits_of limit (length text.now))) }
{
    match CompiledGrammar::read(alloc, block) {
        Ok(Some(grammar)) => match find_stack_rule(alloc, block, grammar.rule_names(), rule) {
            Ok(user) => run_outcome(alloc, &grammar, rule, name, text, format, limit, user),
            Err(_) => Some(Outcome::Memory),
        },
        Ok(None) => None,
        Err(_) => Some(Outcome::Memory),
    }
}

/// Runs the rule of that name, as `block_outcome`. `user` is the name of a rule that uses the stack, if it
/// comes to one.
fn run_outcome(
    alloc: Global,
    rules: &CompiledGrammar<'_>,
    rule: &str,
    name: &str,
    text: &str,
    format: Format,
    limit: Option<u64>,
    user: Option<&str>,
) -> Option<Outcome>
    ensures { (g : Grammar) → IsCompiledOf g rules.now → IsSomeAnd result
        (IsOutcome g rule.now name.now text.now format (limits_of limit (length text.now))) }
{
    let limits = limits_of(limit, text.len());
    match match_rule(alloc, rules, rule, text, limit, user) {
        Ok(found) => match_outcome(alloc, rules, rule, text, &found, format, limits),
        Err(BlockStop::NoMatch(place)) => {
            failure_outcome(alloc, rules, rule, name, text, place, limits)
        }
        Err(BlockStop::NoRule) => refusal_outcome(
            alloc,
            rules,
            rule,
            BlockStop::NoRule,
            limits,
            None,
        ),
        Err(BlockStop::Stopped(stop)) => {
            refusal_outcome(alloc, rules, rule, BlockStop::Stopped(stop), limits, user)
        }
        Err(BlockStop::Flaw(_)) => None,
    }
}

/// Returns the outcome of a rule that matches a text. Returns `None` if a position of the match is not
/// between two characters.
fn match_outcome(
    alloc: Global,
    rules: &CompiledGrammar<'_>,
    rule: &str,
    text: &str,
    found: &ParseTree,
    format: Format,
    limits: Limits,
) -> Option<Outcome>
    ensures { (g : Grammar) → IsCompiledOf g rules.now → (name : List ℕ)
        → HasParseTree g (chars rule.now) (start_of text.now) is_in_property found.now
        → IsSomeAnd result (IsOutcome g rule.now name text.now format limits) }
{
    if !text.is_char_boundary(found.end) || !text.is_char_boundary(found.furthest) {
        return None;
    }
    match names_after(alloc, rules, rule, text, found, format, limits.names) {
        Ok(names) => {
            let walk = rules.walk(alloc, found);
            Some(shown_outcome(alloc, text, walk, found, &names, format))
        }
        Err(stop) => {
            if is_out_of_steps(&stop) {
                let walk = rules.walk(alloc, found);
                Some(unnamed_match(alloc, text, walk, found, format, limits.names))
            } else {
                refusal_outcome(alloc, rules, rule, stop, limits, None)
            }
        }
    }
}

/// Returns the outcome of a rule that fails on the text of a file, with its furthest failure at the byte
/// `place`. Returns `None` if that is not between two characters.
fn failure_outcome(
    alloc: Global,
    rules: &CompiledGrammar<'_>,
    rule: &str,
    name: &str,
    text: &str,
    place: usize,
    limits: Limits,
) -> Option<Outcome>
    ensures { (g : Grammar) → IsCompiledOf g rules.now → (format : Format)
        → FailsIn g rule.now text.now place
        → IsSomeAnd result (IsOutcome g rule.now name.now text.now format limits) }
{
    if !text.is_char_boundary(place) {
        return None;
    }
    match find_failure(alloc, rules, rule, text, place, limits.names) {
        Ok(failure) => Some(failed_outcome(alloc, name, text, &failure)),
        Err(stop) => {
            if is_out_of_steps(&stop) {
                Some(unnamed_outcome(alloc, name, text, place, limits.names))
            } else {
                refusal_outcome(alloc, rules, rule, stop, limits, None)
            }
        }
    }
}

/// Returns the outcome of a run without an answer. Returns none for bytes that are no compiled grammar.
fn refusal_outcome(
    alloc: Global,
    rules: &CompiledGrammar<'_>,
    rule: &str,
    stop: BlockStop,
    limits: Limits,
    user: Option<&str>,
) -> Option<Outcome>
    ensures { (g : Grammar) → IsCompiledOf g rules.now → (name text : List ℕ) → IsUtf8 text
        → (format : Format) → IsUnanswered g rule.now text limits.steps stop
        → IsSomeAnd result (IsOutcome g rule.now name text format limits) }
{
    match stop {
        BlockStop::NoRule => Some(no_rule_outcome(alloc, rules.rule_names(), rule)),
        BlockStop::Stopped(stop) => Some(stopped_outcome(alloc, stop, limits.steps, user)),
        BlockStop::NoMatch(_) | BlockStop::Flaw(_) => None,
    }
}

/// Returns the outcome of a rule that matches a text up to a byte between two characters. `names` are
/// expected at the furthest failure. The walk is that over the trees of the match.
fn shown_outcome(
    alloc: Global,
    text: &str,
    walk: TreeWalk<'_, '_>,
    found: &ParseTree,
    names: &[&str],
    format: Format,
) -> Outcome
    requires end { IsCharBoundary text.now found.now.end }
    requires place { IsCharBoundary text.now found.now.furthest }
    ensures { (rule : Text → ℕ) (trees : Trees) → visits_left walk.entry ≡ visits rule 0 0 trees
        → IsMatchReport text.now format found.now.end found.now.furthest (name_texts names.now) trees result }
{
    match lines_of(alloc, text, walk, found.end, format) {
        Ok(lines) => match note_of(alloc, text, found, names, format) {
            Ok(note) => Outcome::Shown { lines, note },
            Err(_) => Outcome::Memory,
        },
        Err(_) => Outcome::Memory,
    }
}

/// Returns the outcome of a rule that matches a text up to a byte between two characters, if the names that
/// are expected at the furthest failure were not found within the limit of steps. The walk is that over the
/// trees of the match.
fn unnamed_match(
    alloc: Global,
    text: &str,
    walk: TreeWalk<'_, '_>,
    found: &ParseTree,
    format: Format,
    steps: u64,
) -> Outcome
    requires end { IsCharBoundary text.now found.now.end }
    requires place { IsCharBoundary text.now found.now.furthest }
    ensures { (rule : Text → ℕ) (trees : Trees) → visits_left walk.entry ≡ visits rule 0 0 trees
        → IsUnnamedMatchReport text.now format found.now.end found.now.furthest steps trees result }
{
    match lines_of(alloc, text, walk, found.end, format) {
        Ok(lines) => match unnamed_note(alloc, text, found.end, found.furthest, steps) {
            Ok(note) => Outcome::Shown {
                lines,
                note: Some(note),
            },
            Err(_) => Outcome::Memory,
        },
        Err(_) => Outcome::Memory,
    }
}

/// Returns the note on a match that ends before its text, if the trees are shown as text. The other formats
/// have the end. The only error is an allocation failure.
fn note_of(
    alloc: Global,
    text: &str,
    found: &ParseTree,
    names: &[&str],
    format: Format,
) -> Result<Option<String>, AllocError>
    requires end { IsCharBoundary text.now found.now.end }
    requires place { IsCharBoundary text.now found.now.furthest }
    ensures { IfOk result (λ note. option_map string_bytes note
        ≡ end_note format text.now found.now.end found.now.furthest (name_texts names.now)) }
{
    match format {
        Format::Text => text_note(alloc, text, found.end, found.furthest, names),
        Format::Json | Format::Lines => Ok(None),
    }
}

/// Returns the note on a match that ends before its text, if more than a line's end is left. The only error
/// is an allocation failure.
fn text_note(
    alloc: Global,
    text: &str,
    end: usize,
    place: usize,
    names: &[&str],
) -> Result<Option<String>, AllocError>
    requires end { IsCharBoundary text.now end }
    requires place { IsCharBoundary text.now place }
    ensures { IfOk result (λ note. option_map string_bytes note
        ≡ end_note Format.Text text.now end place (name_texts names.now)) }
{
    if is_more(&text[end..]) {
        Ok(Some(end_message(alloc, text, end, place, names)?))
    } else {
        Ok(None)
    }
}

/// Returns the trees of a match as text, or as a line of JSON. The only error is an allocation failure.
fn lines_of(
    alloc: Global,
    text: &str,
    walk: TreeWalk<'_, '_>,
    end: usize,
    format: Format,
) -> Result<String, AllocError>
    ensures { IfOk result (λ lines. (rule : Text → ℕ) (trees : Trees)
        → visits_left walk.entry ≡ visits rule 0 0 trees
        → string_bytes lines ≡ trees_text format text.now end trees) }
{
    match format {
        Format::Text => shown_lines(alloc, text, walk),
        Format::Json => json_line(alloc, text, walk, end),
        Format::Lines => tree_lines(alloc, walk),
    }
}

/// Returns trees as lines of text, with escapes of hidden characters. The only error is an allocation
/// failure.
fn shown_lines(alloc: Global, text: &str, walk: TreeWalk<'_, '_>) -> Result<String, AllocError>
    ensures { IfOk result (λ lines. (rule : Text → ℕ) (trees : Trees)
        → visits_left walk.entry ≡ visits rule 0 0 trees
        → string_bytes lines ≡ escaped_lines (shown text.now 0 trees)) }
{
    let lines = tree_text(alloc, text, walk)?;
    escape_lines(alloc, lines.as_str())
}

/// Returns trees and their end position as a line of JSON. The only error is an allocation failure.
fn json_line(
    alloc: Global,
    text: &str,
    walk: TreeWalk<'_, '_>,
    end: usize,
) -> Result<String, AllocError>
    ensures { IfOk result (λ line. (rule : Text → ℕ) (trees : Trees)
        → visits_left walk.entry ≡ visits rule 0 0 trees
        → string_bytes line ≡ trees_text Format.Json text.now end trees) }
{
    let json = tree_json(alloc, text, walk, end)?;
    let mut line = escape_json(alloc, json.as_str())?;
    line.push_str("\n")?;
    Ok(line)
}

/// Returns the outcome of a rule that fails on the text of a file.
fn failed_outcome(alloc: Global, name: &str, text: &str, failure: &NamedAttempts<'_>) -> Outcome
    requires { IsCharBoundary text.now failure.now.place }
    ensures { IsFailureReport name.now text.now failure.now result }
{
    match report_failure(alloc, name, text, failure) {
        Ok(report) => Outcome::Failed(report),
        Err(_) => Outcome::Memory,
    }
}

/// Returns the outcome of a rule that fails on the text of a file at the byte `place`, if the expected set
/// was not found in `steps` steps.
fn unnamed_outcome(alloc: Global, name: &str, text: &str, place: usize, steps: u64) -> Outcome
    requires { IsCharBoundary text.now place }
    ensures { IsUnnamedReport name.now text.now place steps result }
{
    let Ok(message) = unnamed_message(alloc, steps) else {
        return Outcome::Memory;
    };
    match report_at(alloc, name, text, place, message) {
        Ok(report) => Outcome::Unnamed(report),
        Err(_) => Outcome::Memory,
    }
}

/// Returns the outcome for the name `rule`, which no rule has. `names` has the names of the rules.
fn no_rule_outcome(alloc: Global, names: &[&str], rule: &str) -> Outcome
    ensures { (g : Grammar) → AreNamesOf g names.now → IsNoRuleReport g rule.now result }
{
    match no_rule_message(alloc, names, rule) {
        Ok(message) => Outcome::NoRule(message),
        Err(_) => Outcome::Memory,
    }
}

/// Returns the report of a failure on the text of a file. The only error is an allocation failure.
fn report_failure(
    alloc: Global,
    name: &str,
    text: &str,
    failure: &NamedAttempts<'_>,
) -> Result<String, Fault>
    requires { IsCharBoundary text.now failure.now.place }
    ensures { IfOk result (λ report. ReportsFailure name.now text.now failure.now.place
        (name_texts failure.now.positives.items) (name_texts failure.now.negatives.items)
        (string_bytes report)) }
{
    let message = describe_failure(alloc, failure)?;
    report_at(alloc, name, text, failure.place, message)
}

/// Returns the report of a message on a byte position of the text of a file. The only error is an allocation
/// failure.
fn report_at(
    alloc: Global,
    name: &str,
    text: &str,
    place: usize,
    message: String,
) -> Result<String, Fault>
    requires { IsCharBoundary text.now place }
    ensures { IfOk result (λ report. ReportsAt name.now text.now place
        (string_bytes message) (string_bytes report)) }
{
    let Some(place) = Position::new(text, place) else {
        unreachable!()
    };
    let error = Error::new_from_pos(alloc, ErrorVariant::CustomError { message }, place)?;
    Ok(show_error(alloc, Some(name), &error)?)
}

/// Returns the outcome of a run that was stopped, of this many steps at most. `user` is the name of a rule
/// that uses the stack, if the run comes to one.
fn stopped_outcome(alloc: Global, stop: Stop, steps: u64, user: Option<&str>) -> Outcome
    ensures { IsStopReport stop steps result }
{
    match stop {
        Stop::Memory => Outcome::Memory,
        Stop::OutOfSteps => match describe_stop(alloc, steps, user) {
            Ok(message) => Outcome::OutOfSteps(message),
            Err(_) => Outcome::Memory,
        },
        Stop::EmptyStack => Outcome::EmptyStack,
        Stop::TextTooLong => Outcome::LongText,
    }
}

/// Returns the message that a run was stopped after this many steps, with the name of a rule that uses the
/// stack, if there is one. The only error is an allocation failure.
fn describe_stop(alloc: Global, steps: u64, user: Option<&str>) -> Result<String, AllocError>
    ensures { IfOk result (λ message. IsStepsText steps (string_bytes message)) }
{
    match user {
        Some(user) => stack_message(alloc, steps, user),
        None => steps_message(alloc, steps),
    }
}

/// Returns the outcome of rules that cannot be run.
fn unfit_outcome(unfit: Unfit) -> Outcome
    ensures { result ≡ unfit_outcome unfit }
{
    match unfit {
        Unfit::Memory => Outcome::Memory,
        Unfit::UnknownName(_) => Outcome::UnknownName,
        Unfit::Bound(_) => Outcome::Bound,
    }
}
