//! Explanations of failures: the calls that are open at the position at which a rule fails on a text.
ghost use Rattle.std.specs.Prelude.{◌≡◌, ℕ, List, IfErr, IfOk, chars, length, string_bytes};
ghost use Rattle.std.specs.Str.{IsCharBoundary};
ghost use Rattle.base_ast.specs.Optimized.{optimized_rules_of};
ghost use Rattle.base_ast.specs.declared.optimized.OptimizedRule.{OptimizedRule};
ghost use Rattle.base_language.specs.Language.Expression.{Grammar};
ghost use Rattle.matcher_engine.specs.BlockRuns.{IsStopped};
ghost use Rattle.matcher_engine.specs.Walks.{AreNamesOf};
ghost use Rattle.matcher_program.specs.Answers.{start_of};
ghost use Rattle.matcher_support.specs.Compiled.{ArePathsIn, FailsIn, IsCompiled, IsCompiledOf, IsUnanswered};
ghost use Rattle.matcher_support.specs.Sets.{is_in_property};
ghost use Rattle.pest_run.specs.Explanations.{Explains, IsExplanation, IsFormExplanation, IsReportedAt, WritesExplanation, unfound_text};
ghost use Rattle.pest_run.specs.Grammars.{IsReadFrom};
ghost use Rattle.pest_run.specs.Steps.{name_limit};
ghost use Rattle.pest_run.specs.Written.{IsReadable};

use crate::arguments::{Format, Request, name_limit};
use crate::failures::find_failure;
use crate::grammars::GrammarRules;
use crate::messages::more_steps;
use crate::paths::show_paths;
use crate::sources::{Source, text_of};
use base_ast::optimized::{OptimizedRule, release};
use matcher_code::state::OpenCall;
use matcher_engine::block::{BlockStop, compile_block};
use matcher_program::answers::Stop;
use matcher_support::attempts::NamedAttempts;
use matcher_support::compiled::CompiledGrammar;
use matcher_support::unicode_properties::UnicodeProperties;
use program_support::output::{Output, RefusedWrite};
use std::alloc::{AllocError, Global};
use std::io::Write;

/// An explanation of a failure by the calls that are open there.
#[derive(Drop)]
pub enum Explanation {
    /// The calls are found, and shown.
    Shown(String),
    /// The calls are not found within the limit of steps. The text is the message that says so.
    OutOfSteps(String),
    /// An allocation failed, or there are too many lists of them.
    Memory,
    /// The rule does not fail, or there is none of that name.
    NoFailure,
}

/// The message if an allocation failed.
const UNSTORED: &str =
    "the open calls were not found: out of memory, or more than 1024 lists of them";

/// Prints the calls that are open at the position at which the requested rule of a grammar fails on a text,
/// and the start of each call. If the format is JSON, the calls are a line on `out`. If not, they are lines
/// on `err`. The rule is run anew. If the calls are not found, a line on `err` says so. If the rule does not
/// fail, or if the text cannot be read, nothing is written.
pub fn explain_failure<W: Write, E: Write>(
    alloc: Global,
    grammar: &GrammarRules,
    text: &Source<'_>,
    request: Request<'_>,
    out: &mut Output<W>,
    err: &mut Output<E>,
) -> Result<(), RefusedWrite>
    ensures explains { (spelled : List ℕ) → IsReadFrom spelled grammar.now → IsReadable text.now
        → Explains (IsFormExplanation request.entry.form spelled request.entry.rule.now
        text.now.bytes.items request.entry.format
        (name_limit request.entry.steps (length text.now.bytes.items)))
        request.entry.format (out.new ≡ out.old) (err.new ≡ err.old) result
        (W.contents out.old.writer) (W.contents out.new.writer)
        (E.contents err.old.writer) (E.contents err.new.writer) }
    ensures unread { (IsReadable text.now → ⊥) → (out.new ≡ out.old) × (err.new ≡ err.old) }
{
    let Some(input) = text_of(text) else {
        return Ok(());
    };
    let explanation = explanation_of(alloc, grammar, input, request);
    write_explanation(&explanation, request.format, out, err)
}

/// Prints the calls that are open at the position at which the requested rule of a compiled grammar fails on
/// a text, as `explain_failure`.
pub fn explain_code<W: Write, E: Write>(
    alloc: Global,
    code: &Source<'_>,
    text: &Source<'_>,
    request: Request<'_>,
    out: &mut Output<W>,
    err: &mut Output<E>,
) -> Result<(), RefusedWrite>
    ensures explains { (rules : List OptimizedRule) → IsCompiled rules code.now.bytes.items
        → IsReadable text.now
        → Explains (IsExplanation (optimized_rules_of rules) request.entry.rule.now text.now.bytes.items
        request.entry.format (name_limit request.entry.steps (length text.now.bytes.items)))
        request.entry.format (out.new ≡ out.old) (err.new ≡ err.old) result
        (W.contents out.old.writer) (W.contents out.new.writer)
        (E.contents err.old.writer) (E.contents err.new.writer) }
    ensures unread { (IsReadable text.now → ⊥) → (out.new ≡ out.old) × (err.new ≡ err.old) }
{
    let Some(input) = text_of(text) else {
        return Ok(());
    };
    let (rule, format) = (request.rule, request.format);
    let steps = name_limit(request.steps, input.len());
    let explanation = explain_block(alloc, &code.bytes, rule, input, format, steps);
    write_explanation(&explanation, format, out, err)
}

/// Writes an explanation: paths as JSON to `out`, all else to `err`.
fn write_explanation<W: Write, E: Write>(
    explanation: &Explanation,
    format: Format,
    out: &mut Output<W>,
    err: &mut Output<E>,
) -> Result<(), RefusedWrite>
    ensures { WritesExplanation explanation.now format (out.new ≡ out.old) (err.new ≡ err.old) result
        (W.contents out.old.writer) (W.contents out.new.writer)
        (E.contents err.old.writer) (E.contents err.new.writer) }
{
    match explanation {
        Explanation::Shown(shown) => match format {
            Format::Json => out.write_text(shown.as_str()),
            Format::Text | Format::Lines => err.write_line(&[shown.as_str()]),
        },
        Explanation::OutOfSteps(message) => err.write_line(&[message.as_str()]),
        Explanation::Memory => err.write_line(&[UNSTORED]),
        Explanation::NoFailure => Ok(()),
    }
}

/// Returns the explanation of a failure of the requested rule of a grammar on a text.
fn explanation_of(
    alloc: Global,
    grammar: &GrammarRules,
    text: &str,
    request: Request<'_>,
) -> Explanation
    ensures { (spelled : List ℕ) → IsReadFrom spelled grammar.now
        → IsFormExplanation request.entry.form spelled request.entry.rule.now text.now
        request.entry.format (name_limit request.entry.steps (length text.now)) result }
{
    match grammar.to_run(alloc, request.form) {
        Ok(rules) => {
            let (rule, format) = (request.rule, request.format);
            let steps = name_limit(request.steps, text.len());
            let explanation = explain_rules(alloc, &rules, rule, text, format, steps);
            release(rules);
            explanation
        }
        Err(_) => Explanation::Memory,
    }
}

/// Returns the explanation of a failure of the rule named `rule`, by runs of at most `steps` steps. If the
/// rules cannot be run, the answer is that of an allocation failure, since no rule fails.
fn explain_rules(
    alloc: Global,
    rules: &[OptimizedRule],
    rule: &str,
    text: &str,
    format: Format,
    steps: u64,
) -> Explanation
    ensures { IsExplanation (optimized_rules_of rules.now) rule.now text.now format steps result }
{
    match compile_block(alloc, rules, &UnicodeProperties) {
        Ok(block) => explain_block(alloc, &block, rule, text, format, steps),
        Err(_) => Explanation::Memory,
    }
}

/// Returns the explanation as `explain_rules`, by the block of the rules.
fn explain_block(
    alloc: Global,
    block: &[u8],
    rule: &str,
    text: &str,
    format: Format,
    steps: u64,
) -> Explanation
    ensures { (rules : List OptimizedRule) → IsCompiled rules block.now
        → IsExplanation (optimized_rules_of rules) rule.now text.now format steps result }
{
    match CompiledGrammar::read(alloc, block) {
        Ok(Some(grammar)) => explain_compiled(alloc, &grammar, rule, text, format, steps),
        Ok(None) | Err(_) => Explanation::Memory,
    }
}

/// Returns the explanation as `explain_rules`, by a compiled grammar of the rules.
fn explain_compiled(
    alloc: Global,
    rules: &CompiledGrammar<'_>,
    rule: &str,
    text: &str,
    format: Format,
    steps: u64,
) -> Explanation
    ensures { (g : Grammar) → IsCompiledOf g rules.now
        → IsExplanation g rule.now text.now format steps result }
{
    match find_reported(alloc, rules, rule, text, steps) {
        Ok(failure) => {
            let place = failure.place;
            explain_at(alloc, rules, rule, text, place, format, steps)
        }
        Err(explanation) => explanation,
    }
}

/// Returns the explanation of a failure whose report shows this place.
fn explain_at(
    alloc: Global,
    rules: &CompiledGrammar<'_>,
    rule: &str,
    text: &str,
    place: usize,
    format: Format,
    steps: u64,
) -> Explanation
    requires { IsCharBoundary text.now place }
    ensures { (g : Grammar) → IsCompiledOf g rules.now → IsReportedAt g rule.now text.now place
        → IsExplanation g rule.now text.now format steps result }
{
    match rules.failure_paths(alloc, rule, text, place, steps) {
        Ok(paths) => {
            let names = rules.rule_names();
            shown_explanation(alloc, format, text, names, place, &paths)
        }
        Err(stop) => refusal_explanation(alloc, stop, steps),
    }
}

/// Returns the failure of the rule named `rule` on `text`, with the position that its report shows, by runs
/// of at most `steps` steps. If there is no failure, or none is found, the error is the explanation.
fn find_reported<'a>(
    alloc: Global,
    rules: &'a CompiledGrammar<'a>,
    rule: &'a str,
    text: &'a str,
    steps: u64,
) -> Result<NamedAttempts<'a>, Explanation>
    ensures place { IfOk result (λ failure. IsCharBoundary text.entry.now failure.place) }
    ensures reported { (g : Grammar) → IsCompiledOf g rules.entry.now → IfOk result (λ failure.
        IsReportedAt g rule.entry.now text.entry.now failure.place) }
    ensures unexplained { (g : Grammar) → IsCompiledOf g rules.entry.now → (format : Format)
        → IfErr result (IsExplanation g rule.entry.now text.entry.now format steps) }
{
    let stop = match rules.match_text(alloc, rule, text, Some(steps)) {
        Ok(_) => return Err(Explanation::NoFailure),
        Err(stop) => stop,
    };
    match stop {
        BlockStop::NoMatch(place) => find_shown(alloc, rules, rule, text, place, steps),
        BlockStop::Stopped(why) => Err(stop_explanation(alloc, why, steps)),
        BlockStop::NoRule | BlockStop::Flaw(_) => Err(Explanation::NoFailure),
    }
}

/// Returns the failure as `find_reported`, by its furthest position.
fn find_shown<'a>(
    alloc: Global,
    rules: &'a CompiledGrammar<'a>,
    rule: &'a str,
    text: &'a str,
    furthest: usize,
    steps: u64,
) -> Result<NamedAttempts<'a>, Explanation>
    ensures place { IfOk result (λ failure. IsCharBoundary text.entry.now failure.place) }
    ensures reported { (g : Grammar) → IsCompiledOf g rules.entry.now
        → FailsIn g rule.entry.now text.entry.now furthest → IfOk result (λ failure.
        IsReportedAt g rule.entry.now text.entry.now failure.place) }
    ensures unexplained { (g : Grammar) → IsCompiledOf g rules.entry.now
        → FailsIn g rule.entry.now text.entry.now furthest → (format : Format)
        → IfErr result (IsExplanation g rule.entry.now text.entry.now format steps) }
{
    if !text.is_char_boundary(furthest) {
        return Err(Explanation::NoFailure);
    }
    match find_failure(alloc, rules, rule, text, furthest, steps) {
        Ok(failure) => Ok(failure),
        Err(stop) => Err(refusal_explanation(alloc, stop, steps)),
    }
}

/// Returns the explanation by the paths to a place, with the names of the rules in order.
fn shown_explanation(
    alloc: Global,
    format: Format,
    text: &str,
    names: &[&str],
    place: usize,
    paths: &[Vec<OpenCall>],
) -> Explanation
    requires { IsCharBoundary text.now place }
    ensures { (g : Grammar) → AreNamesOf g names.now → (rule : List ℕ) → IsReportedAt g rule text.now place
        → ArePathsIn g rule text.now place paths.now → (limit : ℕ)
        → IsExplanation g rule text.now format limit result }
{
    match show_paths(alloc, format, text, names, place, paths) {
        Ok(shown) => Explanation::Shown(shown),
        Err(_) => Explanation::Memory,
    }
}

/// Returns the explanation of a run of at most `steps` steps that has no answer.
fn refusal_explanation(alloc: Global, stop: BlockStop, steps: u64) -> Explanation
    ensures { (g : Grammar) (rule text : List ℕ) (format : Format) → IsUnanswered g rule text steps stop
        → IsExplanation g rule text format steps result }
{
    match stop {
        BlockStop::Stopped(why) => stop_explanation(alloc, why, steps),
        BlockStop::NoMatch(_) | BlockStop::NoRule | BlockStop::Flaw(_) => Explanation::NoFailure,
    }
}

/// Returns the explanation of a run of at most `steps` steps that was stopped. For a text of 4 GiB it is that
/// of an allocation failure.
fn stop_explanation(alloc: Global, stop: Stop, steps: u64) -> Explanation
    ensures { (g : Grammar) (rule text : List ℕ) (format : Format)
        → IsStopped g (chars rule) (start_of text) is_in_property steps stop
        → IsExplanation g rule text format steps result }
{
    match stop {
        Stop::Memory | Stop::TextTooLong => Explanation::Memory,
        Stop::OutOfSteps => match unfound_message(alloc, steps) {
            Ok(message) => Explanation::OutOfSteps(message),
            Err(_) => Explanation::Memory,
        },
        Stop::EmptyStack => Explanation::NoFailure,
    }
}

/// Returns the message that the open calls were not found in `steps` steps. The only error is an allocation
/// failure.
fn unfound_message(alloc: Global, steps: u64) -> Result<String, AllocError>
    ensures { IfOk result (λ message. string_bytes message ≡ unfound_text steps) }
{
    let more = more_steps(steps);
    format!(in alloc; "the open calls were not found in {steps} steps; --steps {more} allows more")
}
