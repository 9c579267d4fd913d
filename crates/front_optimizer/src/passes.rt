//! The optimizer: all passes over all rules.
ghost use Rattle.std.specs.Prelude.{◌≡◌, ◌∷◌, [], IfErr, IfOk, IsOkAnd};
ghost use Rattle.base_ast.specs.Ast.{text_of, expression_of, rule_of_code, rule_type_of, rules_of};
ghost use Rattle.base_ast.specs.Optimized.{optimized_expression_of, optimized_rules_of};
ghost use Rattle.base_language.specs.Language.Expression.{Grammar};
ghost use Rattle.base_language.specs.Rewritings.Rewriting.{EachBody};
ghost use Rattle.front_restorer.specs.Agreeing.{AgreesLoosely, WrappersSuffice};
ghost use Rattle.front_optimizer.specs.Bodies.{AreRightForAll, SufficeFor};
ghost use Rattle.base_language.specs.Pieces.Faults.{IsMemory};
ghost use Rattle.front_optimizer.specs.Passes.{AddsOptimized, IsOptimized, IsOptimizedBody};

use crate::bodies::bodies_for_skip;
use crate::converted::rule_to_optimized_rule;
use crate::skipper::skip_with;
use crate::strings::{StringNames, names_with_strings};
use crate::{Fault, OptimizedRule, concatenate, factor, list, rotate, unroll};
use base_ast::ast::{Expr, Rule};
use base_ast::deep::Deep;
use front_restorer::restore_rules;
use std::alloc::Global;
use std::collections::HashMap;

/// Optimizes `rules`, in order. Each rule goes through `rotate`, `skip`, `unroll`, `concatenate`, `factor`
/// and `list`, and then gets wrappers, as by `restore_on_err`. `skip` looks names up in `rules` as they
/// were given. Names and types stay.
///
/// If no rule is named `ANY`, all passes before `list` keep the outcomes from every start. If `WHITESPACE`
/// and `COMMENT` reach no `POP` and no `POP_ALL`, it makes no difference for the result what a failed `POP`
/// or `POP_ALL` leaves on the stack.
///
/// # Errors
/// `Fault::Memory` if an allocation fails.
pub fn optimize(alloc: Global, rules: Vec<Rule>) -> Result<Vec<OptimizedRule>, Fault>
    ensures rules { IfOk result
        (λ answer. IsOptimized (rules_of rules.items) (optimized_rules_of answer.items)) }
    ensures agrees { IfOk result (λ answer. WrappersSuffice (optimized_rules_of answer.items)
        → AgreesLoosely (optimized_rules_of answer.items)) }
    ensures memory { IfErr result IsMemory }
{
    let rules = Deep { value: rules };
    let bodies = bodies_for_skip(alloc, &rules.value)?;
    let listing = optimized_rules(alloc, rules.into_inner(), &bodies.value);
    drop(bodies);
    restore_rules(alloc, listing?)
}

// Runs the passes up to the listing over all rules. Names are looked up in `bodies`.
fn optimized_rules(
    alloc: Global,
    rules: Vec<Rule>,
    bodies: &HashMap<String, Expr>,
) -> Result<Vec<OptimizedRule>, Fault>
    ensures rules { IfOk result
        (λ answer. (g : Grammar) → SufficeFor bodies.now g (rules_of rules.items)
        → EachBody (IsOptimizedBody g) (rules_of rules.items) (optimized_rules_of answer.items)) }
    ensures memory { IfErr result IsMemory }
{
    let rules = Deep { value: rules };
    let names = names_with_strings(alloc, bodies)?;
    let mut answer = Ok(Deep {
        value: Vec::new(alloc),
    });
    for rule in rules.into_inner() {
        answer = with_rule(alloc, answer, rule, bodies, &names);
    }
    match answer {
        Ok(answer) => Ok(answer.into_inner()),
        Err(fault) => Err(fault),
    }
}

// Adds a rule to the answer for the rules before it; a refusal among those before stays.
fn with_rule(
    alloc: Global,
    answer: Result<Deep<Vec<OptimizedRule>>, Fault>,
    rule: Rule,
    bodies: &HashMap<String, Expr>,
    names: &StringNames<'_>,
) -> Result<Deep<Vec<OptimizedRule>>, Fault>
    ensures added { AreRightForAll bodies.now names.now → IfOk result (λ made. IsOkAnd answer
        (λ so_far. AddsOptimized bodies.now (rule_of_code rule) (optimized_rules_of so_far.value.items)
        (optimized_rules_of made.value.items))) }
    ensures memory { IfErr answer IsMemory → IfErr result IsMemory }
{
    let rule = Deep { value: rule };
    let mut answer = answer?;
    let rule = optimized_rule(alloc, rule.into_inner(), bodies, names)?;
    answer.push(Deep { value: rule })?;
    Ok(answer)
}

// Runs the passes up to the listing over one rule. Names are looked up in `bodies`, and `names` has
// those that denote strings.
fn optimized_rule(
    alloc: Global,
    rule: Rule,
    bodies: &HashMap<String, Expr>,
    names: &StringNames<'_>,
) -> Result<OptimizedRule, Fault>
    ensures name { IfOk result (λ r. text_of r.name ≡ text_of rule.name) }
    ensures ty { IfOk result (λ r. r.ty ≡ rule.ty) }
    ensures body { IfOk result
        (λ r. (g : Grammar) → AreRightForAll bodies.now names.now
        → SufficeFor bodies.now g (rule_of_code rule ∷ [])
        → IsOptimizedBody g (rule_type_of rule.ty) (expression_of rule.expr)
        (optimized_expression_of r.expr)) }
    ensures memory { IfErr result IsMemory }
{
    let rule = rotate(alloc, rule)?;
    let rule = skip_with(alloc, rule, bodies, names)?;
    let rule = unroll(alloc, rule)?;
    let rule = concatenate(alloc, rule)?;
    let rule = factor(alloc, rule)?;
    let rule = list(alloc, rule)?;
    Ok(rule_to_optimized_rule(alloc, rule)?)
}
