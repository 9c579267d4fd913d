//! What a text was missing: a line with the terminals that would have let a match go on.
ghost use Rattle.std.specs.Prelude.{◌≡◌, List, ℕ, IfOk, IfSome, IsErr, IsOk, string_bytes, true};
ghost use Rattle.std.specs.Str.{IsCharBoundary};
ghost use Rattle.base_ast.specs.Optimized.{optimized_rules_of};
ghost use Rattle.base_language.specs.Language.Expression.{Grammar};
ghost use Rattle.base_language.specs.Pieces.LineColumn.{line_column};
ghost use Rattle.matcher_program.specs.ExpectedNames.{name_texts};
ghost use Rattle.matcher_support.specs.Compiled.{FailsIn, IsCompiledOf};
ghost use Rattle.matcher_terminals.specs.Exposed.{exposed};
ghost use Rattle.matcher_terminals.specs.Labels.{labels_of};
ghost use Rattle.pest_run.specs.Grammars.{IsReadFrom};
ghost use Rattle.pest_run.specs.Missing.{IsMissing, IsMissingIn, TellsMissing, missing_text};
ghost use Rattle.pest_run.specs.Written.{WritesLine};

use crate::arguments::{Request, name_limit};
use crate::failures::find_failure;
use crate::grammars::GrammarRules;
use crate::messages::{names_message, show_place};
use crate::sources::{Source, text_of};
use base_ast::optimized::{OptimizedRule, release};
use base_language::runtime::Position;
use matcher_engine::block::{BlockStop, compile_block};
use matcher_support::attempts::NamedAttempts;
use matcher_support::compiled::CompiledGrammar;
use matcher_support::unicode_properties::UnicodeProperties;
use matcher_terminals::exposed::expose_terminals;
use matcher_terminals::labels::labels_of;
use program_support::output::{Output, RefusedWrite};
use std::alloc::{AllocError, Global};
use std::io::Write;

/// Writes a line to `err` that tells what a text was missing: the furthest position at which the requested
/// rule fails on it, and the terminals that were tried there. Nothing is written if the rule does not fail,
/// if no terminal is known, if an allocation fails, or if a run is stopped.
pub fn tell_missing<E: Write>(
    alloc: Global,
    grammar: &GrammarRules,
    text: &Source<'_>,
    request: Request<'_>,
    err: &mut Output<E>,
) -> Result<(), RefusedWrite>
    ensures tells { (spelled : List ℕ) → IsReadFrom spelled grammar.now
        → TellsMissing request.entry.form spelled request.entry.rule.now text.now.bytes.items
        (err.new ≡ err.old) result (E.contents err.old.writer) (E.contents err.new.writer) }
    ensures told { IsOk result → err.new.refused ≡ err.old.refused }
    ensures refused_line { IsErr result → err.new.refused ≡ true }
{
    let Some(input) = text_of(text) else {
        return Ok(());
    };
    match find_missing(alloc, grammar, input, request) {
        Some(line) => write_help(err, line.as_str()),
        None => Ok(()),
    }
}

/// Writes a line to `err`.
fn write_help<E: Write>(err: &mut Output<E>, line: &str) -> Result<(), RefusedWrite>
    ensures tells { WritesLine line.now result (E.contents err.old.writer) (E.contents err.new.writer) }
    ensures told { IsOk result → err.new.refused ≡ err.old.refused }
    ensures refused_line { IsErr result → err.new.refused ≡ true }
{
    err.write_line(&[line])
}

/// Returns the line of `tell_missing`.
fn find_missing(
    alloc: Global,
    grammar: &GrammarRules,
    text: &str,
    request: Request<'_>,
) -> Option<String>
    ensures { (spelled : List ℕ) → IsReadFrom spelled grammar.now → IfSome result (λ line.
        IsMissingIn request.entry.form spelled request.entry.rule.now text.now (string_bytes line)) }
{
    let Ok(rules) = grammar.to_run(alloc, request.form) else {
        return None;
    };
    let steps = name_limit(request.steps, text.len());
    let line = missing_by_rules(alloc, &rules, request.rule, text, steps);
    release(rules);
    line
}

/// Returns the line of `tell_missing`, by runs of at most `steps` steps.
fn missing_by_rules(
    alloc: Global,
    rules: &[OptimizedRule],
    rule: &str,
    text: &str,
    steps: u64,
) -> Option<String>
    ensures { IfSome result (λ line.
        IsMissing (optimized_rules_of rules.now) rule.now text.now (string_bytes line)) }
{
    let Ok(exposed) = expose_terminals(alloc, rules) else {
        return None;
    };
    let Ok(block) = compile_block(alloc, &exposed.value, &UnicodeProperties) else {
        return None;
    };
    match CompiledGrammar::read(alloc, &block) {
        Ok(Some(grammar)) => missing_by_code(alloc, &grammar, rule, text, steps),
        Ok(None) | Err(_) => None,
    }
}

/// Returns the line of `tell_missing`, by the compiled form of exposed rules.
fn missing_by_code(
    alloc: Global,
    rules: &CompiledGrammar<'_>,
    rule: &str,
    text: &str,
    steps: u64,
) -> Option<String>
    ensures { (g : Grammar) → IsCompiledOf (exposed g) rules.now
        → IfSome result (λ line. IsMissing g rule.now text.now (string_bytes line)) }
{
    match rules.match_text(alloc, rule, text, Some(steps)) {
        Err(BlockStop::NoMatch(place)) => missing_after(alloc, rules, rule, text, place, steps),
        Ok(_) | Err(_) => None,
    }
}

/// Returns the line of `tell_missing`, by exposed rules whose furthest failure is at the byte `furthest`.
fn missing_after(
    alloc: Global,
    rules: &CompiledGrammar<'_>,
    rule: &str,
    text: &str,
    furthest: usize,
    steps: u64,
) -> Option<String>
    ensures { (g : Grammar) → IsCompiledOf (exposed g) rules.now
        → FailsIn (exposed g) rule.now text.now furthest
        → IfSome result (λ line. IsMissing g rule.now text.now (string_bytes line)) }
{
    if !text.is_char_boundary(furthest) {
        return None;
    }
    let Ok(failure) = find_failure(alloc, rules, rule, text, furthest, steps) else {
        return None;
    };
    match missing_message(alloc, text, &failure) {
        Ok(line) => line,
        Err(_) => None,
    }
}

/// Returns the line with the terminals of a failure, or `None` if there are none. The only error is an
/// allocation failure.
fn missing_message(
    alloc: Global,
    text: &str,
    failure: &NamedAttempts<'_>,
) -> Result<Option<String>, AllocError>
    requires { IsCharBoundary text.now failure.now.place }
    ensures { IfOk result (λ line. IfSome line (λ line. string_bytes line
        ≡ missing_text (line_column text.now failure.now.place)
        (labels_of (name_texts failure.now.positives.items))
        (labels_of (name_texts failure.now.negatives.items)))) }
{
    let names = labels_of(alloc, &failure.positives)?;
    let others = labels_of(alloc, &failure.negatives)?;
    if names.is_empty() && others.is_empty() {
        return Ok(None);
    }
    let Some(place) = Position::new(text, failure.place) else {
        unreachable!()
    };
    let shown = show_place(alloc, place.line_col())?;
    let message = names_message(alloc, &names, &others)?;
    let mut line = String::from_str(alloc, "help: at ")?;
    line.push_str(shown.as_str())?;
    line.push_str(", ")?;
    line.push_str(message.as_str())?;
    Ok(Some(line))
}
