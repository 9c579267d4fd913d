//! Grammars, compiled.
ghost use Rattle.std.specs.Prelude.{IfErr, IfOk};
ghost use Rattle.pest_meta.specs.Spelling.{IsRefusal};
ghost use Rattle.pest_test.specs.Grammars.{AreRulesOf, IsBlockFor, IsGrammarError};

use crate::arguments::RuleForm;
use base_language::grammar::Rule;
use base_language::runtime::{Error, Fault};
use matcher_engine::block::compile_block;
use matcher_program::compile::Unfit;
use matcher_support::unicode_properties::UnicodeProperties;
use pest_meta::optimizer::OptimizedRule;
use pest_meta::{parse_and_optimize, parse_as_written};
use std::alloc::Global;

/// Why a grammar is not compiled.
#[derive(Drop)]
pub enum GrammarError {
    /// An allocation failed.
    Memory,
    /// The grammar is refused, with these errors.
    Refused(Vec<Error<Rule>>),
    /// The rules cannot be run.
    Unfit,
}

/// Compiles the rules of the text `grammar` in the form `form`. Returns the compiled grammar.
///
/// # Errors
/// - `GrammarError::Refused` if the grammar is refused.
/// - `GrammarError::Unfit` if the rules cannot be run.
/// - `GrammarError::Memory` if an allocation fails.
pub fn compile_grammar(
    alloc: Global,
    grammar: &str,
    form: RuleForm,
) -> Result<Vec<u8>, GrammarError>
    ensures compiled { IfOk result (λ block. IsBlockFor form grammar.now block.items) }
    ensures refused { IfErr result (IsGrammarError grammar.now) }
{
    match rules_of(alloc, grammar, form) {
        Ok(rules) => match compile_block(alloc, &rules, &UnicodeProperties) {
            Ok(block) => Ok(block),
            Err(Unfit::Memory) => Err(GrammarError::Memory),
            Err(Unfit::UnknownName(_) | Unfit::Bound(_)) => Err(GrammarError::Unfit),
        },
        Err(Fault::Memory(_)) => Err(GrammarError::Memory),
        Err(Fault::Grammar(errors)) => Err(GrammarError::Refused(errors)),
    }
}

/// Returns the rules of a grammar in a form.
fn rules_of(alloc: Global, grammar: &str, form: RuleForm) -> Result<Vec<OptimizedRule>, Fault>
    ensures rules { IfOk result (λ rules. AreRulesOf form grammar.now rules.items) }
    ensures refused { IfErr result (IsRefusal grammar.now) }
{
    match form {
        RuleForm::Written => parse_as_written(alloc, grammar),
        RuleForm::Optimized => {
            let (_, rules) = parse_and_optimize(alloc, grammar)?;
            Ok(rules)
        }
    }
}
