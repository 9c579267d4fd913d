//! The facts that a document gives of each rule.
ghost use Rattle.std.specs.Prelude.{◌≡◌, IfOk, length};
ghost use Rattle.doc_pages.specs.Links.{AreFactsBelow};

use crate::callers::find_callers;
use crate::first_sets::{FirstSet, find_first_set, is_nullable};
use crate::source::GrammarSource;
use crate::starts::find_starts;
use crate::warnings::{RuleWarning, find_warnings};
use front_analysis::analyze;
use front_spanned::ParserRule;
use lint_warnings::is_blank_name;
use std::alloc::{AllocError, Global};

/// The facts of a rule.
#[derive(Drop)]
pub struct RuleFacts<'i> {
    /// The numbers of the rules that call it, each once, in order.
    pub callers: Vec<usize>,
    /// Whether it is called implicitly, between the items of sequences and repetitions.
    pub is_implicit: bool,
    /// Whether a comment of the grammar names it as a start of matching.
    pub is_start: bool,
    /// The terminals that may begin it.
    pub first_set: FirstSet,
    /// Whether it may match the empty text.
    pub is_nullable: bool,
    pub warnings: Vec<RuleWarning<'i>>,
}

/// Finds the facts of the rules of a text. The only error is an allocation failure.
pub fn find_facts<'i>(
    alloc: Global,
    text: &str,
    source: &GrammarSource<'i>,
    rules: &[ParserRule<'i>],
) -> Result<Vec<RuleFacts<'i>>, AllocError>
    ensures each { IfOk result (λ facts. length facts.items ≡ length rules.now) }
    ensures below { IfOk result (λ facts. AreFactsBelow (length rules.now) facts.items) }
{
    let analysis = analyze(alloc, rules)?;
    let mut callers = find_callers(
        alloc,
        rules.len(),
        &source.rules,
        &analysis.grammar.names.places,
    )?;
    let mut warnings = find_warnings(alloc, &source.rules, rules)?;
    let mut starts = find_starts(alloc, text, rules)?;
    let mut facts = Vec::new(alloc);
    for number in (0..rules.len()).rev() {
        let rule = &rules[number];
        let first_set = find_first_set(alloc, &analysis, number)?;
        let called_by = callers.pop().unwrap_or(Vec::new(alloc));
        facts.push(RuleFacts {
            callers: called_by,
            is_implicit: is_blank_name(rule.name.as_str()),
            is_start: starts.pop().unwrap_or(false),
            first_set,
            is_nullable: is_nullable(&analysis, number),
            warnings: warnings.pop().unwrap_or(Vec::new(alloc)),
        })?;
    }
    facts.reverse();
    Ok(facts)
}
