//! Texts that a rule matches to their end.
ghost use Rattle.std.specs.Prelude.{All, IfOk, OnOk, string_bytes, true, ◌≡◌};
ghost use Rattle.base_ast.specs.Optimized.{optimized_rules_of};
ghost use Rattle.base_language.specs.Language.Expression.{Grammar};
ghost use Rattle.matcher_support.specs.Compiled.{IsCompiledOf};
ghost use Rattle.pest_example.specs.Examples.{AreExamples, HasExamples, IsExample};

use crate::chance::Chance;
use crate::heights::heights_of;
use crate::maker::{Maker, Rules};
use base_ast::optimized::OptimizedRule;
use matcher_engine::block::{BlockStop, compile_block};
use matcher_program::answers::Stop;
use matcher_program::compile::Unfit;
use matcher_support::compiled::CompiledGrammar;
use matcher_support::unicode_properties::UnicodeProperties;
use std::alloc::{AllocError, Global};
use std::collections::HashMap;

/// The greatest number of steps of the match that checks a text.
const MOST_STEPS: u64 = 1_000_000;
/// The greatest number of texts that are made for each example that is wanted.
const TRIES: u32 = 200;

/// The examples that a caller wants.
#[derive(Clone, Copy)]
pub struct ExampleRequest<'a> {
    /// The name of the rule that matches the examples.
    pub rule: &'a str,
    /// The number of examples that are wanted.
    pub count: u32,
    /// The seed of the pseudorandom numbers.
    pub seed: u64,
    /// The greatest number of choices in an example that are left to chance.
    pub size: u32,
}

/// The result of a search for examples.
#[derive(Drop)]
pub enum ExampleSearch {
    /// The texts that were found, in order, each once.
    Found(Vec<String>),
    /// No rule has the name that the request has.
    NoRule,
    /// The rules cannot be run.
    Unfit,
}

/// Searches for texts that the rule `request.rule` of `rules` matches to their end. Returns at most
/// `request.count` texts. The first text that is tried leaves no choice to chance. The only error
/// is an allocation failure.
pub fn find_examples(
    alloc: Global,
    rules: &[OptimizedRule],
    request: ExampleRequest<'_>,
) -> Result<ExampleSearch, AllocError>
    ensures { IfOk result (HasExamples (optimized_rules_of rules.now) request.entry.rule.now) }
{
    let block = match compile_block(alloc, rules, &UnicodeProperties) {
        Ok(block) => block,
        Err(Unfit::Memory) => return Err(AllocError),
        Err(Unfit::UnknownName(_) | Unfit::Bound(_)) => return Ok(ExampleSearch::Unfit),
    };
    let Some(grammar) = CompiledGrammar::read(alloc, &block)? else {
        return Ok(ExampleSearch::Unfit);
    };
    let known = Rules {
        by_name: rules_by_name(alloc, rules)?,
        heights: heights_of(alloc, rules)?,
    };
    let Some(rule) = known.by_name.get(&request.rule).copied() else {
        return Ok(ExampleSearch::NoRule);
    };
    Ok(ExampleSearch::Found(collect_examples(alloc, &grammar, &known, rule, request)?))
}

/// Returns the rules by their names. If several rules have the same name, the last one is returned.
fn rules_by_name<'a>(
    alloc: Global,
    rules: &'a [OptimizedRule],
) -> Result<HashMap<&'a str, &'a OptimizedRule>, AllocError> {
    let mut by_name = HashMap::new(alloc);
    for rule in rules {
        by_name.insert(rule.name.as_str(), rule)?;
    }
    Ok(by_name)
}

/// Makes texts until the rule matches the wanted number of them to their end, or until there were
/// too many tries.
fn collect_examples(
    alloc: Global,
    grammar: &CompiledGrammar<'_>,
    known: &Rules<'_>,
    rule: &OptimizedRule,
    request: ExampleRequest<'_>,
) -> Result<Vec<String>, AllocError>
    ensures { (g : Grammar) → IsCompiledOf g grammar.now
        → IfOk result (λ found. AreExamples g request.entry.rule.now found.items) }
{
    let mut found = Vec::new(alloc);
    let mut chance = Chance::new(request.seed);
    for attempt in 0..request.count.saturating_mul(TRIES) {
        if found.len() >= request.count as usize {
            return Ok(found);
        }
        let size = size_of(attempt, request.size, &mut chance);
        let maker = Maker::new(alloc, known, chance.split(), size);
        try_example(
            alloc,
            grammar,
            request.rule,
            maker.make(alloc, rule)?,
            &mut found,
        )?;
    }
    Ok(found)
}

/// Returns the number of choices that are left to chance: none in the first attempt.
fn size_of(attempt: u32, most: u32, chance: &mut Chance) -> u32 {
    if attempt == 0 {
        return 0;
    }
    chance.below(most).saturating_add(1)
}

/// Adds a text that was made, as `add_example`.
fn try_example(
    alloc: Global,
    grammar: &CompiledGrammar<'_>,
    rule: &str,
    text: Option<String>,
    found: &mut Vec<String>,
) -> Result<(), AllocError>
    ensures { (g : Grammar) → IsCompiledOf g grammar.now → AreExamples g rule.now found.old.items
        → OnOk result (AreExamples g rule.now found.new.items) }
{
    match text {
        Some(text) => add_example(alloc, grammar, rule, text, found),
        None => Ok(()),
    }
}

/// Adds a text, if the rule matches it to its end, and it is not among those that were found.
fn add_example(
    alloc: Global,
    grammar: &CompiledGrammar<'_>,
    rule: &str,
    text: String,
    found: &mut Vec<String>,
) -> Result<(), AllocError>
    ensures { (g : Grammar) → IsCompiledOf g grammar.now → AreExamples g rule.now found.old.items
        → OnOk result (AreExamples g rule.now found.new.items) }
{
    if is_example(alloc, grammar, rule, text.as_str())? && !is_among(found, text.as_str()) {
        found.push(text)?;
    }
    Ok(())
}

/// Returns whether a text is among others.
fn is_among(texts: &[String], text: &str) -> bool {
    for it in texts {
        if it.as_str() == text {
            return true;
        }
    }
    false
}

/// Returns whether a rule matches a text to its end, in a limited number of steps. The only error is an
/// allocation failure.
fn is_example(
    alloc: Global,
    grammar: &CompiledGrammar<'_>,
    rule: &str,
    text: &str,
) -> Result<bool, AllocError>
    ensures { (g : Grammar) → IsCompiledOf g grammar.now
        → IfOk result (λ matches. matches ≡ true → IsExample g rule.now text.now) }
{
    match grammar.match_text(alloc, rule, text, Some(MOST_STEPS)) {
        Ok(found) => Ok(found.end == text.len()),
        Err(BlockStop::Stopped(Stop::Memory)) => Err(AllocError),
        Err(_) => Ok(false),
    }
}
