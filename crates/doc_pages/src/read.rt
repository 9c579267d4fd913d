//! From a grammar that is opened to what its documents are made of.
ghost use Rattle.std.specs.Prelude.{◌≡◌, IfOk, length};
ghost use Rattle.std.specs.HashMap.{get_by_text};
ghost use Rattle.base_ast.specs.Ast.{rules_of};
ghost use Rattle.doc_pages.specs.Links.{AreFactsBelow, AreNumbersBelow};
ghost use Rattle.doc_markup.specs.Pages.{AreNames};
ghost use Rattle.front_spanned.specs.Erasure.{rules_without_spans};
ghost use Rattle.front_spanned.specs.Nodes.{rule_views};

use crate::facts::{RuleFacts, find_facts};
use crate::source::{GrammarSource, read_source};
use base_ast::ast;
use base_ast::deep::Deep;
use front_analysis::names_of;
use front_spanned::erase_spans;
use pest_meta::OpenGrammar;
use std::alloc::{AllocError, Global};
use std::collections::HashMap;

/// A grammar, and what its documents say of it.
#[derive(Drop)]
pub struct GrammarDoc<'i> {
    /// The rules.
    pub rules: Deep<Vec<ast::Rule>>,
    /// The rules as they are written, in the same order.
    pub source: GrammarSource<'i>,
    /// The facts of each rule.
    pub facts: Vec<RuleFacts<'i>>,
    /// The numbers of rules by their names.
    pub numbers: HashMap<String, usize>,
    ghost called: { AreFactsBelow (length rules.value.items) facts.items },
    ghost numbered: { AreNumbersBelow (length rules.value.items) (get_by_text numbers) },
}

/// Reads what documents say of a grammar that is opened; its rules may be wrong. The only error is an
/// allocation failure.
pub fn read_grammar<'i>(
    alloc: Global,
    opened: OpenGrammar<'i>,
) -> Result<GrammarDoc<'i>, AllocError>
    ensures { IfOk result (λ doc. rules_of doc.rules.value.items
        ≡ rules_without_spans (rule_views opened.entry.rules.value.items)) }
{
    let OpenGrammar {
        forest,
        rules: spanned,
        ..
    } = opened;
    let source = read_source(alloc, &forest)?;
    let facts = find_facts(alloc, forest.get_input(), &source, &spanned.value)?;
    let names = names_of(alloc, &spanned.value)?;
    let rules = erase_spans(alloc, spanned.into_inner())?;
    Ok(GrammarDoc {
        rules: Deep { value: rules },
        source,
        facts,
        numbers: names.places,
    })
}

impl GrammarDoc<'_> {
    /// Returns the names of the rules, in order.
    pub fn names(&self, alloc: Global) -> Result<Vec<&str>, AllocError>
        ensures { IfOk result (λ names. AreNames (rules_of self.entry.now.rules.value.items) names.items) }
    {
        let mut names = Vec::new(alloc);
        for rule in &self.rules.value {
            names.push(rule.name.as_str())?;
        }
        Ok(names)
    }
}
