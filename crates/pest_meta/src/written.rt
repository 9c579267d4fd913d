//! The rules of a grammar as they are written, in the form that runs.
ghost use Rattle.std.specs.Prelude.{IfErr, IfOk};
ghost use Rattle.base_ast.specs.Optimized.{optimized_rules_of};
ghost use Rattle.base_language.specs.Language.CharacterBounds.{HasCharacterBounds};
ghost use Rattle.base_language.specs.Language.KnownNames.{HasKnownNames};
ghost use Rattle.pest_meta.specs.Spelling.{IsRefusal};
ghost use Rattle.pest_meta.specs.Written.{IsWritten};

use crate::spanned::parse_with_spans;
use base_language::runtime::Fault;
use front_optimizer::{OptimizedRule, unroll_rules};
use front_spanned::erase_spans;
use std::alloc::Global;

/// Parses the grammar `grammar`. Returns its rules as they are written, in the form that the matcher runs.
///
/// Only counted repetitions are rewritten: they become the copies that they mean. So each rule matches what
/// it matches as it is written. The rules of `parse_and_optimize` may match more, if the pass `list`
/// changed them. The returned rules call only rules and builtins, and both bounds of each range are one
/// character.
///
/// # Errors
/// Those of `parse_and_optimize`, for the same texts.
pub fn parse_as_written(alloc: Global, grammar: &str) -> Result<Vec<OptimizedRule>, Fault>
    ensures rules { IfOk result (λ rules. IsWritten grammar.now (optimized_rules_of rules.items)) }
    ensures known_names { IfOk result (λ rules. HasKnownNames (optimized_rules_of rules.items)) }
    ensures character_bounds { IfOk result (λ rules. HasCharacterBounds (optimized_rules_of rules.items)) }
    ensures refused { IfErr result (IsRefusal grammar.now) }
{
    let (_, spanned) = parse_with_spans(alloc, grammar)?;
    let rules = erase_spans(alloc, spanned)?;
    unroll_rules(alloc, rules)
}
