//! The calls on texts, before their outcomes are written to a buffer.
ghost use Rattle.std.specs.Prelude.{◌≡◌, IfErr, IfOk, string_bytes};
ghost use Rattle.base_language.specs.Pieces.MetaRules.{name_of};
ghost use Rattle.front_nodes.specs.Forests.{forest_text};
ghost use Rattle.front_syntax.specs.Parses.{IsOfAGrammar};
ghost use Rattle.pest_meta.specs.Spelling.{IsNoGrammar, IsRefusal};
ghost use Rattle.pest_meta_c.specs.Answers.{AreKeywordErrors, AreNames, AreNodes, AreOptimized, AreRules, AreTokenNumbers, AreTokens, IsGrammar, IsPrepared, IsVersion, IsWhole};
ghost use Rattle.pest_meta_c.specs.Diagnostics.{AreDiagnostics};
ghost use Rattle.pest_meta_c.specs.Outcomes.{IsRefusalOf, RefusesNumbers, RefusesWith};
ghost use Rattle.pest_meta_c.specs.Refusals.{DoesNotMatch, HasNoMatch, HasNoNames, HasNoNodes, HasNoRules, HasNoTokens, IsNoOptimized, IsNoRules, IsRefused, Never, ReportsSuch};

use crate::diagnostics::diagnostics_lines;
use crate::outcome::{BytesOutcome, CallError, NumbersError, NumbersOutcome, Outcome, to_refusal};
use base_ast::deep::Deep;
use base_ast::{ast, optimized};
use base_language::grammar::Rule;
use base_language::runtime::{Fault, Span};
use format_binary::{push_names, push_optimized_rules, push_rules, tokens_numbers};
use format_json::{
    Refusal, RefusalLocation, RefusalReason, answer_text, errors_text, names_text, nodes_text,
    optimized_rules_text, read_optimized_rules, read_rules, refusal_text, rule_named, rules_text,
    tokens_text, version_text,
};
use front_names::collect_in_forest;
use front_nodes::forest::Forest;
use front_reader::rules::consume_forest_with_spans;
use pest_meta::optimizer;
use pest_meta::parser::{PestParser, consume_forest, release};
use pest_meta::validator::validate_rust_keywords;
use std::alloc::{AllocError, Global};

/// Returns the tokens of a text for the rule of that name.
pub(crate) fn tokens(alloc: Global, text: &str, name: &str) -> Outcome
    ensures answered { IfOk result (λ json. AreTokens text.now name.now (string_bytes json)) }
    ensures refused { IfErr result (RefusesWith (HasNoTokens text.now name.now)) }
{
    let Some(rule) = rule_named(name) else {
        return Err(json_refusal(alloc, RefusalLocation::Whole, RefusalReason::UnknownRule));
    };
    match PestParser::tokens(alloc, rule, text) {
        Ok(events) => to_outcome(tokens_text(alloc, &events)),
        Err(fault) => Err(to_refusal(alloc, rule, text, fault)),
    }
}

/// Returns the tokens of a text for the rule of that name, as numbers.
pub(crate) fn token_numbers(alloc: Global, text: &str, name: &str) -> NumbersOutcome
    ensures answered { IfOk result (λ numbers. AreTokenNumbers text.now name.now numbers.items) }
    ensures refused { IfErr result (RefusesNumbers (HasNoMatch text.now name.now)) }
{
    match rule_named(name) {
        Some(rule) => numbers_of(alloc, text, rule),
        None => Err(NumbersError::Refused),
    }
}

/// Returns the tokens of a text for a rule, as numbers.
fn numbers_of(alloc: Global, text: &str, rule: Rule) -> NumbersOutcome
    ensures answered { IfOk result (λ numbers. AreTokenNumbers text.now (name_of rule) numbers.items) }
    ensures refused { IfErr result (RefusesNumbers (DoesNotMatch rule text.now)) }
{
    match PestParser::tokens(alloc, rule, text) {
        Ok(events) => match tokens_numbers(alloc, &events) {
            Ok(numbers) => Ok(numbers),
            Err(_) => Err(NumbersError::Memory),
        },
        Err(Fault::Memory(_)) => Err(NumbersError::Memory),
        Err(Fault::Grammar(_)) => Err(NumbersError::Refused),
    }
}

/// Returns the builtins that a grammar uses.
pub(crate) fn names(alloc: Global, text: &str) -> Outcome
    ensures answered { IfOk result (λ json. AreNames text.now (string_bytes json)) }
    ensures refused { IfErr result (RefusesWith (HasNoNames text.now)) }
{
    let forest = forest_of(alloc, text)?;
    match collect_in_forest(alloc, &forest) {
        Ok(names) => to_outcome(names_text(alloc, &names)),
        Err(fault) => Err(to_refusal(alloc, Rule::grammar_rules, text, fault)),
    }
}

/// Returns the error of `name`, if it is a keyword of Rust.
pub(crate) fn rust_keyword(alloc: Global, name: &str) -> Outcome
    ensures answered { IfOk result (λ json. AreKeywordErrors name.now (string_bytes json)) }
    ensures refused { IfErr result (RefusesWith Never) }
{
    let Ok(names) = vec![in alloc; Span::of(name, 0, name.len())] else {
        return Err(CallError::Memory);
    };
    match validate_rust_keywords(alloc, &names) {
        Ok(errors) => to_outcome(errors_text(alloc, &errors, &[])),
        Err(_) => Err(CallError::Memory),
    }
}

/// Returns the rules that a grammar's text spells.
pub(crate) fn rules(alloc: Global, text: &str) -> Outcome
    ensures answered { IfOk result (λ json. AreRules text.now (string_bytes json)) }
    ensures refused { IfErr result (RefusesWith (HasNoRules text.now)) }
{
    let forest = forest_of(alloc, text)?;
    match consume_forest(alloc, &forest) {
        Ok(rules) => {
            let json = rules_text(alloc, &rules);
            ast::release(rules);
            to_outcome(json)
        }
        Err(fault) => Err(to_refusal(alloc, Rule::grammar_rules, text, fault)),
    }
}

/// Returns the rules that a grammar's text spells, with the spans of their names and nodes.
pub(crate) fn nodes(alloc: Global, text: &str) -> Outcome
    ensures answered { IfOk result (λ json. AreNodes text.now (string_bytes json)) }
    ensures refused { IfErr result (RefusesWith (HasNoNodes text.now)) }
{
    let forest = forest_of(alloc, text)?;
    match consume_forest_with_spans(alloc, &forest) {
        Ok(rules) => {
            let json = nodes_text(alloc, &rules);
            release(rules);
            to_outcome(json)
        }
        Err(fault) => Err(to_refusal(alloc, Rule::grammar_rules, text, fault)),
    }
}

/// Optimizes rules in JSON.
pub(crate) fn optimize(alloc: Global, json: &str) -> Outcome
    ensures answered { IfOk result (λ answer. AreOptimized json.now (string_bytes answer)) }
    ensures refused { IfErr result (RefusesWith (IsNoRules json.now)) }
{
    let rules = match read_rules(alloc, json) {
        Ok(rules) => rules,
        Err(Refusal::Memory) => return Err(CallError::Memory),
        Err(Refusal::Text(place, why)) => return Err(json_refusal(alloc, place, why)),
    };
    match optimizer::optimize(alloc, rules) {
        Ok(rules) => {
            let json = optimized_rules_text(alloc, &rules);
            optimized::release(rules);
            to_outcome(json)
        }
        Err(_) => Err(CallError::Memory),
    }
}

/// Returns the builtins that a grammar uses, and its optimized rules.
pub(crate) fn parse_and_optimize(alloc: Global, text: &str) -> Outcome
    ensures answered { IfOk result (λ json. IsWhole text.now (string_bytes json)) }
    ensures refused { IfErr result (RefusesWith (IsRefused text.now)) }
{
    match pest_meta::parse_and_optimize(alloc, text) {
        Ok((builtins, rules)) => {
            let json = answer_text(alloc, &builtins, &rules);
            optimized::release(rules);
            to_outcome(json)
        }
        Err(fault) => Err(to_refusal(alloc, Rule::grammar_rules, text, fault)),
    }
}

/// Returns the builtins that a grammar uses, its rules and its optimized rules, in binary form.
pub(crate) fn grammar(alloc: Global, text: &str) -> BytesOutcome
    ensures answered { IfOk result (λ bytes. IsGrammar text.now bytes.items) }
    ensures refused { IfErr result (RefusesWith (IsRefused text.now)) }
{
    match grammar_bytes(alloc, text) {
        Ok(bytes) => Ok(bytes),
        Err(fault) => Err(to_refusal(alloc, Rule::grammar_rules, text, fault)),
    }
}

/// Returns the same, or the fault for which there is none.
fn grammar_bytes(alloc: Global, text: &str) -> Result<Vec<u8>, Fault>
    ensures answered { IfOk result (λ bytes. IsGrammar text.now bytes.items) }
    ensures refused { IfErr result (IsRefusal text.now) }
{
    let forest = PestParser::forest(alloc, Rule::grammar_rules, text)?;
    let builtins = collect_in_forest(alloc, &forest)?;
    let rules = Deep {
        value: consume_forest(alloc, &forest)?,
    };
    let mut bytes = Vec::new(alloc);
    push_names(&mut bytes, &builtins)?;
    push_rules(alloc, &mut bytes, &rules.value)?;
    let optimized = Deep {
        value: optimizer::optimize(alloc, rules.into_inner())?,
    };
    push_optimized_rules(alloc, &mut bytes, &optimized.value)?;
    Ok(bytes)
}

/// Returns optimized rules in JSON in binary form.
pub(crate) fn prepare(alloc: Global, json: &str) -> BytesOutcome
    ensures answered { IfOk result (λ bytes. IsPrepared json.now bytes.items) }
    ensures refused { IfErr result (RefusesWith (IsNoOptimized json.now)) }
{
    let rules = match read_optimized_rules(alloc, json) {
        Ok(rules) => Deep { value: rules },
        Err(Refusal::Memory) => return Err(CallError::Memory),
        Err(Refusal::Text(place, why)) => return Err(json_refusal(alloc, place, why)),
    };
    let mut bytes = Vec::new(alloc);
    match push_optimized_rules(alloc, &mut bytes, &rules.value) {
        Ok(()) => Ok(bytes),
        Err(_) => Err(CallError::Memory),
    }
}

/// Returns the diagnostics of a text.
pub(crate) fn diagnostics(alloc: Global, text: &str) -> Outcome
    ensures answered { IfOk result (λ lines. AreDiagnostics text.now (string_bytes lines)) }
    ensures refused { IfErr result (RefusesWith Never) }
{
    to_outcome(diagnostics_lines(alloc, text))
}

/// Returns the number of the format, and the version of the original crate.
pub(crate) fn version(alloc: Global) -> Outcome
    ensures answered { IfOk result (λ json. IsVersion (string_bytes json)) }
    ensures refused { IfErr result (RefusesWith Never) }
{
    to_outcome(version_text(alloc))
}

/// Returns the trees of a grammar's text.
fn forest_of<'i>(alloc: Global, text: &'i str) -> Result<Forest<'i>, CallError>
    ensures text { IfOk result (λ forest. forest_text forest ≡ text.entry.now) }
    ensures spelled { IfOk result IsOfAGrammar }
    ensures refused { IfErr result (RefusesWith (ReportsSuch text.entry.now (IsNoGrammar text.entry.now))) }
{
    match PestParser::forest(alloc, Rule::grammar_rules, text) {
        Ok(forest) => Ok(forest),
        Err(fault) => Err(to_refusal(alloc, Rule::grammar_rules, text, fault)),
    }
}

/// Returns JSON as an answer, or the allocation failure.
fn to_outcome(json: Result<String, AllocError>) -> Outcome
    ensures given { IfOk json (λ text. result ≡ Ok text) }
    ensures answered { IfOk result (λ text. json ≡ Ok text) }
    ensures memory { IfErr result (λ why. why ≡ CallError.Memory) }
{
    match json {
        Ok(json) => Ok(json),
        Err(_) => Err(CallError::Memory),
    }
}

/// Returns a refusal as JSON, or the allocation failure.
fn json_refusal(alloc: Global, place: RefusalLocation, why: RefusalReason) -> CallError
    ensures { IsRefusalOf place why result }
{
    match refusal_text(alloc, place, why) {
        Ok(json) => CallError::Refused(json),
        Err(_) => CallError::Memory,
    }
}
