//! Accepted rules with spans.
ghost use Rattle.std.specs.Prelude.{ℕ, List, IfErr, IfOk};
ghost use Rattle.std.specs.Borrow.{Bor};
ghost use Rattle.base_ast.specs.Optimized.{optimized_rules_of};
ghost use Rattle.base_language.specs.Pieces.Faults.{IsMemory};
ghost use Rattle.front_optimizer.specs.Passes.{IsOptimized};
ghost use Rattle.front_spanned.specs.Erasure.{rules_without_spans};
ghost use Rattle.front_spanned.specs.Nodes.{rule_views};
ghost use Rattle.pest_meta.specs.Spelling.{IsAnswer, IsRefusal};
ghost use Rattle.pest_meta.specs.WithSpans.{SpellsWithSpans};

use crate::opened::open;
use crate::parser::ParserRule;
use base_language::runtime::Fault;
use front_optimizer::{OptimizedRule, optimize};
use front_spanned::erase_spans;
use std::alloc::Global;

/// Parses the grammar `grammar`. Returns the builtins that it uses, and its rules with the spans of
/// their nodes, as `parser::consume_rules_with_spans` reads them. `optimize_with_spans` makes the
/// rules of `parse_and_optimize` from these rules.
///
/// # Errors
/// Those of `parse_and_optimize`, for the same texts.
pub fn parse_with_spans<'i>(
    alloc: Global,
    grammar: &'i str,
) -> Result<(Vec<&'i str>, Vec<ParserRule<'i>>), Fault>
    ensures rules { IfOk result (λ answer.
        SpellsWithSpans grammar.entry.now answer.0.items (rule_views answer.1.items)) }
    ensures refused { IfErr result (IsRefusal grammar.entry.now) }
{
    match open(alloc, grammar) {
        Ok(opened) => Ok((opened.builtins, opened.rules.into_inner())),
        Err(error) => Err(Fault::Grammar(error.into_errors(alloc, grammar)?)),
    }
}

/// Erases the spans of `rules` and optimizes the rules. If `parse_with_spans` returned `rules` for a text,
/// the result is that of `parse_and_optimize` for the text.
///
/// # Errors
/// `Fault::Memory` if an allocation fails.
pub fn optimize_with_spans(
    alloc: Global,
    rules: Vec<ParserRule<'_>>,
) -> Result<Vec<OptimizedRule>, Fault>
    ensures rules { IfOk result (λ answer. IsOptimized
        (rules_without_spans (rule_views rules.entry.items)) (optimized_rules_of answer.items)) }
    ensures answer { IfOk result (λ answer. (text : List ℕ) (builtins : List (Bor (List ℕ)))
        → SpellsWithSpans text builtins (rule_views rules.entry.items)
        → IsAnswer text builtins answer.items) }
    ensures memory { IfErr result IsMemory }
{
    let plain = erase_spans(alloc, rules)?;
    optimize(alloc, plain)
}
