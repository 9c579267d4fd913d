//! Notes of grammars, which hovers show, made once for a text.
ghost use Rattle.std.specs.Prelude.{◌≡◌, IfErr, IfOk, None, Some, string_bytes};
ghost use Rattle.front_analysis.specs.Names.{grammar_of};
ghost use Rattle.pest_meta.specs.Spelling.{SpellsGrammar, SpellsNone};
ghost use Rattle.server_features.specs.Facts.{IsStated, SpellsNoneUnlessMemory};

use crate::facts::{RuleFacts, RuleTable};
use base_ast::deep::Deep;
use base_ast::optimized::OptimizedRule;
use base_language::grammar::Rule;
use base_language::runtime::Fault;
use front_reader::rules::consume_forest_with_spans;
use front_spanned::ParserRule;
use pest_meta::optimize_with_spans;
use pest_meta::parser::PestParser;
use std::alloc::{AllocError, Global};

/// The rules of a text, as hovers show them.
#[derive(Drop)]
pub struct GrammarNotes {
    pub text: String,
    /// None if the text is no grammar.
    pub table: Option<RuleTable>,
    /// The optimized rules, if the text is accepted.
    optimized: Deep<Vec<OptimizedRule>>,
    pub ghost stated: { ∥ IsStated (string_bytes text) table ∥₁ },
}

impl GrammarNotes {
    ghost use Rattle.server_features.specs.Facts.{AreFacts};

    /// Returns the notes of a text. `is_accepted` says whether the text is accepted.
    pub fn new(alloc: Global, text: &str, is_accepted: bool) -> Result<GrammarNotes, AllocError>
        ensures { IfOk result (λ notes. string_bytes notes.text ≡ text.now) }
    {
        match read_rules(alloc, text) {
            Ok(rules) => GrammarNotes::of_rules(alloc, text, rules, is_accepted),
            Err(Fault::Grammar(_)) => GrammarNotes::of_no_rules(alloc, text),
            Err(Fault::Memory(error)) => Err(error),
        }
    }

    /// Returns the notes of a text that spells these rules.
    fn of_rules(
        alloc: Global,
        text: &str,
        rules: Deep<Vec<ParserRule<'_>>>,
        is_accepted: bool,
    ) -> Result<GrammarNotes, AllocError>
        requires { SpellsGrammar text.now (grammar_of rules.value.items) }
        ensures { IfOk result (λ notes. string_bytes notes.text ≡ text.now) }
    {
        let table = RuleTable::new(alloc, &rules.value)?;
        let optimized = optimize(alloc, rules, is_accepted)?;
        let text = String::from_str(alloc, text)?;
        Ok(GrammarNotes {
            text,
            table: Some(table),
            optimized,
        })
    }

    /// Returns the notes of a text that spells no rules.
    fn of_no_rules(alloc: Global, text: &str) -> Result<GrammarNotes, AllocError>
        requires { SpellsNone text.now }
        ensures { IfOk result (λ notes. string_bytes notes.text ≡ text.now) }
    {
        let text = String::from_str(alloc, text)?;
        Ok(GrammarNotes {
            text,
            table: None,
            optimized: Deep {
                value: Vec::new(alloc),
            },
        })
    }

    /// Returns the facts of the rule named `name`, or `None` if the text is no grammar, or has no such rule.
    pub fn facts_of(&self, alloc: Global, name: &str) -> Result<Option<RuleFacts>, AllocError>
        ensures { IfOk result (λ facts.
            ∥ AreFacts (string_bytes self.now.text) name.now facts ∥₁) }
    {
        match &self.table {
            Some(table) => table.facts_of(alloc, name),
            None => Ok(None),
        }
    }

    /// Returns the body of the rule named `name` in the optimized rules, if the text is accepted.
    pub fn optimized_body(&self, alloc: Global, name: &str) -> Result<Option<String>, AllocError> {
        match self
            .optimized
            .value
            .iter()
            .find(|rule| rule.name.as_str() == name)
        {
            Some(rule) => Ok(Some(rule.expr.to_string(alloc)?)),
            None => Ok(None),
        }
    }
}

/// Reads the rules of a text. The fault is an allocation failure, or that the text spells none.
fn read_rules(alloc: Global, text: &str) -> Result<Deep<Vec<ParserRule<'_>>>, Fault>
    ensures spelled { IfOk result (λ rules.
        SpellsGrammar text.now (grammar_of rules.value.items)) }
    ensures refused { IfErr result (SpellsNoneUnlessMemory text.now) }
{
    let forest = PestParser::forest(alloc, Rule::grammar_rules, text)?;
    let rules = consume_forest_with_spans(alloc, &forest)?;
    Ok(Deep { value: rules })
}

/// Optimizes the rules of a text, if that is accepted.
fn optimize(
    alloc: Global,
    rules: Deep<Vec<ParserRule<'_>>>,
    is_accepted: bool,
) -> Result<Deep<Vec<OptimizedRule>>, AllocError> {
    if !is_accepted {
        return Ok(Deep {
            value: Vec::new(alloc),
        });
    }
    match optimize_with_spans(alloc, rules.into_inner()) {
        Ok(optimized) => Ok(Deep { value: optimized }),
        // No other fault can be.
        Err(_) => Err(AllocError),
    }
}

/// The notes of the text that was hovered over last.
#[derive(Drop)]
pub struct KeptNotes {
    notes: Option<GrammarNotes>,
}

impl KeptNotes {
    /// Returns no notes.
    pub fn new() -> KeptNotes {
        KeptNotes { notes: None }
    }

    /// Returns the notes of a text, those that are kept of it or new ones, which are kept then.
    pub fn get_or_make(
        &mut self,
        alloc: Global,
        text: &str,
        is_accepted: bool,
    ) -> Result<&GrammarNotes, AllocError>
        ensures { IfOk result (λ notes. string_bytes notes.now.text ≡ text.now) }
    {
        let notes = match self.notes.take() {
            Some(notes) if notes.text.as_str() == text => notes,
            _ => GrammarNotes::new(alloc, text, is_accepted)?,
        };
        Ok(self.notes.insert(notes))
    }
}
