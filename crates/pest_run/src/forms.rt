//! The note on optimized rules.
ghost use Rattle.std.specs.Prelude.{◌≡◌, ℕ, List, IsErr, IsOk, true};
ghost use Rattle.base_ast.specs.Optimized.{optimized_rules_of};
ghost use Rattle.pest_run.specs.Forms.{HasMatch, IsMatchedBy, TellsForms};
ghost use Rattle.pest_run.specs.Grammars.{IsReadFrom};
ghost use Rattle.pest_run.specs.Messages.{optimized_text};
ghost use Rattle.pest_run.specs.Written.{WritesLine};

use crate::arguments::{Request, RuleForm, name_limit};
use crate::grammars::GrammarRules;
use crate::sources::{Source, text_of};
use base_ast::optimized::{OptimizedRule, release};
use matcher_engine::block::compile_block;
use matcher_support::compiled::CompiledGrammar;
use matcher_support::unicode_properties::UnicodeProperties;
use program_support::output::{Output, RefusedWrite};
use std::alloc::Global;
use std::io::Write;

/// The note if the optimized rules match a text.
const OPTIMIZED_MATCH: &str =
    "note: the optimized rules, which pest runs, match this text: see --optimized";

/// Writes a note to `err` if the optimized rules of a grammar match a text. Call it for a text on which the
/// rules fail as they are written. None is written after an allocation failure, or if the run is stopped.
pub fn note_forms<E: Write>(
    alloc: Global,
    grammar: &GrammarRules,
    text: &Source<'_>,
    request: Request<'_>,
    err: &mut Output<E>,
) -> Result<(), RefusedWrite>
    ensures tells { (spelled : List ℕ) → IsReadFrom spelled grammar.now
        → TellsForms spelled request.entry.rule.now text.now.bytes.items
        (err.new ≡ err.old) result (E.contents err.old.writer) (E.contents err.new.writer) }
    ensures told { IsOk result → err.new.refused ≡ err.old.refused }
    ensures refused_line { IsErr result → err.new.refused ≡ true }
{
    let Some(input) = text_of(text) else {
        return Ok(());
    };
    if are_matched(alloc, grammar, input, request) {
        write_note(err)
    } else {
        Ok(())
    }
}

/// Returns whether the optimized rules of a grammar match `text`. If an allocation fails or the run is
/// stopped, no match is found.
fn are_matched(alloc: Global, grammar: &GrammarRules, text: &str, request: Request<'_>) -> bool
    ensures { (spelled : List ℕ) → IsReadFrom spelled grammar.now → result ≡ true
        → IsMatchedBy RuleForm.Optimized spelled request.entry.rule.now text.now }
{
    let Ok(rules) = grammar.to_run(alloc, RuleForm::Optimized) else {
        return false;
    };
    let steps = name_limit(request.steps, text.len());
    let matched = has_match(alloc, &rules, request.rule, text, steps);
    release(rules);
    matched
}

/// Returns whether the rule named `rule` matches `text`, by a run of at most `steps` steps. The expected
/// names of a failure are not looked for.
fn has_match(alloc: Global, rules: &[OptimizedRule], rule: &str, text: &str, steps: u64) -> bool
    ensures { result ≡ true → HasMatch (optimized_rules_of rules.now) rule.now text.now }
{
    let Ok(block) = compile_block(alloc, rules, &UnicodeProperties) else {
        return false;
    };
    match CompiledGrammar::read(alloc, &block) {
        Ok(Some(grammar)) => grammar.match_text(alloc, rule, text, Some(steps)).is_ok(),
        Ok(None) | Err(_) => false,
    }
}

/// Writes the note to `err`.
fn write_note<E: Write>(err: &mut Output<E>) -> Result<(), RefusedWrite>
    ensures tells { WritesLine optimized_text result
        (E.contents err.old.writer) (E.contents err.new.writer) }
    ensures told { IsOk result → err.new.refused ≡ err.old.refused }
    ensures refused_line { IsErr result → err.new.refused ≡ true }
{
    err.write_line(&[OPTIMIZED_MATCH])
}
