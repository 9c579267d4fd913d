//! Rules as they are written, in the form that runs.
ghost use Rattle.std.specs.Prelude.{IfErr, IfOk, IsOkAnd};
ghost use Rattle.base_ast.specs.Ast.{rule_of_code, rules_of};
ghost use Rattle.base_ast.specs.Optimized.{optimized_rules_of};
ghost use Rattle.base_language.specs.Pieces.Faults.{IsMemory};
ghost use Rattle.base_language.specs.Rewritings.Rewriting.{SameOutcomes};
ghost use Rattle.front_optimizer.specs.Written.{AddsWrittenOut, AreWrittenOut};

use crate::converted::rule_to_optimized_rule;
use crate::{Fault, OptimizedRule, unroll};
use base_ast::ast::Rule;
use base_ast::deep::Deep;
use std::alloc::Global;

/// Returns the rules as they are written, in the form that runs: counted repetitions are the copies that
/// they mean, and nothing else is rewritten. Names, types and order stay, and so do the outcomes from every
/// start. The only fault is an allocation failure.
pub fn unroll_rules(alloc: Global, rules: Vec<Rule>) -> Result<Vec<OptimizedRule>, Fault>
    ensures rules { IfOk result
        (λ answer. AreWrittenOut (rules_of rules.items) (optimized_rules_of answer.items)) }
    ensures outcomes { IfOk result
        (λ answer. SameOutcomes (rules_of rules.items) (optimized_rules_of answer.items)) }
    ensures memory { IfErr result IsMemory }
{
    let rules = Deep { value: rules };
    let mut answer = Ok(Deep {
        value: Vec::new(alloc),
    });
    for rule in rules.into_inner() {
        answer = with_unrolled_rule(alloc, answer, rule);
    }
    match answer {
        Ok(answer) => Ok(answer.into_inner()),
        Err(fault) => Err(fault),
    }
}

// Adds a rule to the answer for the rules before it; a refusal among those before stays.
fn with_unrolled_rule(
    alloc: Global,
    answer: Result<Deep<Vec<OptimizedRule>>, Fault>,
    rule: Rule,
) -> Result<Deep<Vec<OptimizedRule>>, Fault>
    ensures added { IfOk result (λ made. IsOkAnd answer
        (λ so_far. AddsWrittenOut (rule_of_code rule) (optimized_rules_of so_far.value.items)
        (optimized_rules_of made.value.items))) }
    ensures memory { IfErr answer IsMemory → IfErr result IsMemory }
{
    let rule = Deep { value: rule };
    let mut answer = answer?;
    let rule = unroll(alloc, rule.into_inner())?;
    let rule = rule_to_optimized_rule(alloc, rule)?;
    answer.push(Deep { value: rule })?;
    Ok(answer)
}
