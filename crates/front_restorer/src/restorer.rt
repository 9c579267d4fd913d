//! The public calls of the restorer.
ghost use Rattle.std.specs.Prelude.{◌≡◌, IfErr, IfOk, OnOk, false, map};
ghost use Rattle.std.specs.Bool.{Decides};
ghost use Rattle.base_language.specs.Rewritings.Erased.{erased};
ghost use Rattle.base_language.specs.Language.Expression.{Grammar};
ghost use Rattle.base_language.specs.Rewritings.Wrapping.{ChangesStack, RestoresTo, EachRestored};
ghost use Rattle.base_ast.specs.Ast.{text_of};
ghost use Rattle.base_ast.specs.Optimized.{optimized_expression_of, optimized_rule_of, optimized_rules_of};
ghost use Rattle.front_restorer.specs.Bodies.{HoldsOptimizedBodies, named_body};
ghost use Rattle.front_restorer.specs.Changing.{HasNoWrappers, KeepsWrappers, changes_by};
ghost use Rattle.base_language.specs.Pieces.Faults.{IsMemory};
ghost use Rattle.front_restorer.specs.Summaries.{AreSummariesOf, IsSummaryOf};
ghost use Rattle.front_restorer.specs.Restoring.{AreQuiet, AreRestored, AreSameErased, HaveNoWrappers, IsRestored, restored_rule_by, restored_rules_by};
ghost use Rattle.front_restorer.specs.KnownChanges.{KnowsChanges, changes_stack};

use crate::bodies::{bodies_of_map, bodies_of_rules};
use crate::changes::{Changes, changes_of};
use crate::restored::{LEVELS, restore};
use crate::summaries::{Summary, changes_itself, is_shown, summarize};
use base_ast::deep::Deep;
use base_ast::optimized::{OptimizedExpr, OptimizedRule};
use base_language::runtime::Fault;
use std::alloc::{AllocError, Global};
use std::collections::HashMap;

/// Reports whether an expression changes the stack: a `PUSH`, `PUSH_LITERAL`, `POP`, `POP_ALL` or `DROP`
/// occurs in it, not below a wrapper, or in the body of a rule that is named there. `rules` holds the
/// body of each rule at its name. The only fault is an allocation failure.
pub fn child_modifies_state(
    alloc: Global,
    expr: &OptimizedExpr,
    rules: &HashMap<String, OptimizedExpr>,
) -> Result<bool, Fault>
    ensures decides { IfOk result (λ yes. (g : Grammar) → HoldsOptimizedBodies rules.now g
        → Decides yes (ChangesStack g (optimized_expression_of expr.now))) }
    ensures memory { IfErr result IsMemory }
{
    let changes = changes_in_map(alloc, rules)?;
    Ok(is_changed(alloc, &changes, expr)?)
}

/// Returns the rule with wrappers: from the inside out, each operand of `?`, `*` and `+` and both sides
/// of each `|` are wrapped if they change the stack as they then are. `rules` holds the body of each
/// rule at its name, as it was before any was restored. Name and type stay, and so does each wrapper that
/// is there already, with all that is below it. The only fault is an allocation failure.
pub fn restore_on_err(
    alloc: Global,
    rule: OptimizedRule,
    rules: &HashMap<String, OptimizedExpr>,
) -> Result<OptimizedRule, Fault>
    ensures name { IfOk result (λ r. text_of r.name ≡ text_of rule.name) }
    ensures ty { IfOk result (λ r. r.ty ≡ rule.ty) }
    ensures restores { IfOk result (λ r. (g : Grammar) → HoldsOptimizedBodies rules.now g
        → HasNoWrappers (optimized_expression_of rule.expr)
        → RestoresTo g (optimized_expression_of rule.expr) (optimized_expression_of r.expr)) }
    ensures whole { IfOk result (λ r.
        IsRestored rules.now (optimized_expression_of rule.expr) (optimized_expression_of r.expr)) }
    ensures erased { IfOk result
        (λ r. erased (optimized_expression_of r.expr) ≡ erased (optimized_expression_of rule.expr)) }
    ensures wrappers { IfOk result
        (λ r. KeepsWrappers (optimized_expression_of rule.expr) (optimized_expression_of r.expr)) }
    ensures memory { IfErr result IsMemory }
{
    let rule = Deep { value: rule };
    let changes = changes_in_map(alloc, rules)?;
    Ok(restore_summarized(alloc, changes, rule)?)
}

/// Returns all rules with wrappers, as `restore_on_err` puts them. The rules that change the stack are
/// found once, among the rules as they are handed in. Names, types and order stay. The only fault is an
/// allocation failure.
pub fn restore_rules(alloc: Global, rules: Vec<OptimizedRule>) -> Result<Vec<OptimizedRule>, Fault>
    ensures restores { IfOk result (λ answer. HaveNoWrappers (optimized_rules_of rules.items)
        → EachRestored (optimized_rules_of rules.items) (optimized_rules_of answer.items)) }
    ensures whole { IfOk result
        (λ answer. AreRestored (optimized_rules_of rules.items) (optimized_rules_of answer.items)) }
    ensures erased { IfOk result
        (λ answer. AreSameErased (optimized_rules_of rules.items) (optimized_rules_of answer.items)) }
    ensures memory { IfErr result IsMemory }
{
    let mut rules = Deep { value: rules };
    let any_changes = is_any_changing(alloc, &rules.value)?;
    if !any_changes {
        return Ok(rules.into_inner());
    }
    let changes = changes_in_rules(alloc, &rules.value)?;
    restore_all(alloc, &changes, &mut rules.value)?;
    Ok(rules.into_inner())
}

// Reports whether a `PUSH`, `PUSH_LITERAL`, `POP`, `POP_ALL` or `DROP` occurs in any rule. If none
// does, no rule changes the stack.
fn is_any_changing(alloc: Global, rules: &[OptimizedRule]) -> Result<bool, AllocError>
    ensures { IfOk result (λ yes. yes ≡ false → AreQuiet rules.now) }
{
    for rule in rules {
        if changes_itself(alloc, &rule.expr)? {
            return Ok(true);
        }
    }
    Ok(false)
}

// Finds the rules in a map that change the stack.
fn changes_in_map(
    alloc: Global,
    rules: &HashMap<String, OptimizedExpr>,
) -> Result<Changes, AllocError>
    ensures { IfOk result
        (λ changes. (g : Grammar) → HoldsOptimizedBodies rules.now g → KnowsChanges changes g) }
{
    let bodies = bodies_of_map(alloc, rules)?;
    changes_of(alloc, &bodies)
}

// Finds the rules that change the stack.
fn changes_in_rules(alloc: Global, rules: &[OptimizedRule]) -> Result<Changes, AllocError>
    ensures tells { IfOk result (λ changes. KnowsChanges changes (optimized_rules_of rules.now)) }
    ensures noted { IfOk result (λ changes.
        AreSummariesOf changes.names (map named_body rules.now) changes.noted) }
{
    let bodies = bodies_of_rules(alloc, rules)?;
    changes_of(alloc, &bodies)
}

// Reports whether an expression changes the stack.
fn is_changed(alloc: Global, changes: &Changes, expr: &OptimizedExpr) -> Result<bool, AllocError>
    ensures { IfOk result
        (λ yes. yes ≡ changes_by (changes_stack changes.now) (optimized_expression_of expr.now)) }
{
    let mut numbers = Vec::new(alloc);
    let share = summarize(alloc, &changes.names, expr, &mut numbers)?;
    Ok(is_shown(&numbers, share, &changes.flags))
}

// Puts wrappers into a rule, given the share of its body. If the body changes nothing, the rule stays.
fn restore_rule(
    alloc: Global,
    changes: &Changes,
    share: Summary,
    rule: &mut OptimizedRule,
) -> Result<(), AllocError>
    requires { IsSummaryOf changes.now.names (optimized_expression_of rule.old.expr)
        changes.now.noted.numbers.items share }
    ensures name { OnOk result (rule.new.name ≡ rule.old.name) }
    ensures ty { OnOk result (rule.new.ty ≡ rule.old.ty) }
    ensures whole { OnOk result (optimized_rule_of rule.new
        ≡ restored_rule_by (changes_stack changes.now) (optimized_rule_of rule.old)) }
{
    if !is_shown(&changes.noted.numbers, share, &changes.flags) {
        return Ok(());
    }
    let mut place = share.start;
    restore(alloc, changes, &mut place, LEVELS, &mut rule.expr)?;
    Ok(())
}

// Summarizes the body of a rule, and puts wrappers into the rule.
fn restore_summarized(
    alloc: Global,
    changes: Changes,
    rule: Deep<OptimizedRule>,
) -> Result<OptimizedRule, AllocError>
    ensures name { IfOk result (λ r. r.name ≡ rule.value.name) }
    ensures ty { IfOk result (λ r. r.ty ≡ rule.value.ty) }
    ensures whole { IfOk result
        (λ r. optimized_rule_of r ≡ restored_rule_by (changes_stack changes) (optimized_rule_of rule.value)) }
{
    let mut changes = changes;
    let mut rule = rule;
    let share = summarize(
        alloc,
        &changes.names,
        &rule.value.expr,
        &mut changes.noted.numbers,
    )?;
    restore_rule(alloc, &changes, share, &mut rule.value)?;
    Ok(rule.into_inner())
}

// Puts wrappers into rules, whose shares are known.
fn restore_all(
    alloc: Global,
    changes: &Changes,
    rules: &mut [OptimizedRule],
) -> Result<(), AllocError>
    requires { AreSummariesOf changes.now.names (map named_body rules.old) changes.now.noted }
    ensures { OnOk result (optimized_rules_of rules.new
        ≡ restored_rules_by (changes_stack changes.now) (optimized_rules_of rules.old)) }
{
    for (place, rule) in rules.iter_mut().enumerate() {
        restore_rule(alloc, changes, changes.noted.shares[place], rule)?;
    }
    Ok(())
}
