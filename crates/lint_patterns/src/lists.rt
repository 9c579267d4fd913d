//! Rewritten lists.
ghost use Rattle.std.specs.Prelude.{◌≡◌, ◌++◌, ◌∷◌, Bool, IfOk, OnOk, map};
ghost use Rattle.std.specs.List.{list_any};
ghost use Rattle.base_ast.specs.Ast.{expression_of, rule_type_of};
ghost use Rattle.base_language.specs.Language.Text.{Text};
ghost use Rattle.lint_patterns.specs.Rewritten as spec;
ghost use Rattle.lint_patterns.specs.Rewritten.{AddsLists, FindsEach, FindsLists};
ghost use Rattle.lint_patterns.specs.Stacks.{expressions_left};
ghost use Rattle.front_spanned.specs.Nodes.{piece_of, rule_view, rule_views};
ghost use Rattle.lint_warnings.specs.Lists.{HasNames};

use crate::names::{is_among, optional_names};
use crate::passes::{passed_rule, rotated_rule};
use crate::sizes::are_large;
use base_ast::ast::{Expr, Rule, RuleType};
use base_language::runtime::Span;
use front_spanned::ParserRule;
use std::alloc::{AllocError, Global};
use std::collections::HashSet;

/// The spans of the names of rules in which pest runs a list `(x ~ y)* ~ x` as `x ~ (y ~ x)*`, which matches
/// if no `x` follows the last `y`, too. Lists with an `x` that cannot fail do not count, and Atomic rules
/// with a `(!c ~ n)*` are not looked at. Nor are rules that together have more than 1,000,000 nodes if each
/// counted repetition is written out. The time is that of the optimizer.
///
/// # Errors
/// `AllocError` if an allocation fails.
pub fn rewritten_lists<'i>(
    alloc: Global,
    rules: &[ParserRule<'i>],
) -> Result<Vec<Span<'i>>, AllocError>
    ensures { IfOk result (λ found. FindsLists (spec.is_optional_name (rule_views rules.now))
        (rule_views rules.now) (map piece_of found.items)) }
{
    if are_large(alloc, rules)? {
        return Ok(Vec::new(alloc));
    }
    find_lists(alloc, rules)
}

/// The same spans, of rules of any size.
fn find_lists<'i>(alloc: Global, rules: &[ParserRule<'i>]) -> Result<Vec<Span<'i>>, AllocError>
    ensures { IfOk result (λ found. FindsEach (spec.is_optional_name (rule_views rules.now))
        (rule_views rules.now) (map piece_of found.items)) }
{
    let optional = optional_names(alloc, &*rules)?;
    let mut found = Vec::new(alloc);
    for rule in rules {
        add_where_rewritten(alloc, rule, &optional, &mut found)?;
    }
    Ok(found)
}

/// Adds the span of a rule's name, if pest runs a list of the rule otherwise. `optional`: the names of
/// rules that cannot fail.
fn add_where_rewritten<'i>(
    alloc: Global,
    rule: &ParserRule<'i>,
    optional: &HashSet<&str>,
    found: &mut Vec<Span<'i>>,
) -> Result<(), AllocError>
    ensures { OnOk result ((f : Text → Bool) → HasNames f optional.now
        → AddsLists f (rule_view rule.now) (map piece_of found.old.items) (map piece_of found.new.items)) }
{
    let rotated = rotated_rule(alloc, rule)?;
    if is_searched(alloc, &rotated.value)? {
        return Ok(());
    }
    let passed = passed_rule(alloc, rotated)?;
    if has_list(alloc, &passed.value.expr, optional)? {
        found.push(rule.span)?;
    }
    Ok(())
}

/// Whether a rule is Atomic, and contains what may become a forward search.
fn is_searched(alloc: Global, rule: &Rule) -> Result<bool, AllocError>
    ensures { IfOk result (λ answer.
        answer ≡ spec.is_searched (rule_type_of rule.now.ty) (expression_of rule.now.expr)) }
{
    match rule.ty {
        RuleType::Atomic => has_turn(alloc, &rule.expr),
        _ => Ok(false),
    }
}

/// Whether an expression contains `(!c ~ n)*`.
fn has_turn(alloc: Global, body: &Expr) -> Result<bool, AllocError>
    ensures { IfOk result (λ answer. answer ≡ spec.has_turn (expression_of body.now)) }
{
    let mut stack = Vec::new(alloc);
    stack.push(body)?;
    while let Some(next) = stack.pop() {
        if is_turn(next) {
            return Ok(true);
        }
        push_operands(next, &mut stack)?;
    }
    Ok(false)
}

/// Whether an expression is `(!c ~ n)*`.
fn is_turn(expr: &Expr) -> bool
    ensures { result ≡ spec.is_turn (expression_of expr.now) }
{
    match expr {
        Expr::Rep(inner) => match &**inner {
            Expr::Seq(left, right) => match &**left {
                Expr::NegPred(_) => match &**right {
                    Expr::Ident(_) => true,
                    _ => false,
                },
                _ => false,
            },
            _ => false,
        },
        _ => false,
    }
}

/// Whether an expression contains a list that is written otherwise.
fn has_list(alloc: Global, body: &Expr, optional: &HashSet<&str>) -> Result<bool, AllocError>
    ensures { IfOk result (λ answer. (f : Text → Bool) → HasNames f optional.now
        → answer ≡ spec.has_list f (expression_of body.now)) }
{
    let mut stack = Vec::new(alloc);
    stack.push(body)?;
    while let Some(next) = stack.pop() {
        if is_list(next, optional) {
            return Ok(true);
        }
        push_operands(next, &mut stack)?;
    }
    Ok(false)
}

/// Pushes the operands of an expression on a stack, the left one on top.
#[tactic(auto, using(crate::proofs::Walks::left_push))]
fn push_operands<'n>(expr: &'n Expr, stack: &mut Vec<&'n Expr>) -> Result<(), AllocError>
    ensures { OnOk result (expression_of expr.entry.now ∷ expressions_left stack.new.items
        ≡ spec.parts (expression_of expr.entry.now) ++ expressions_left stack.old.items) }
{
    match expr {
        Expr::PosPred(inner)
        | Expr::NegPred(inner)
        | Expr::Opt(inner)
        | Expr::Rep(inner)
        | Expr::RepOnce(inner)
        | Expr::RepExact(inner, _)
        | Expr::RepMin(inner, _)
        | Expr::RepMax(inner, _)
        | Expr::RepMinMax(inner, _, _)
        | Expr::Push(inner)
        | Expr::NodeTag(inner, _) => stack.push(inner)?,
        Expr::Seq(left, right) | Expr::Choice(left, right) => {
            stack.push(right)?;
            stack.push(left)?;
        }
        _ => {}
    }
    Ok(())
}

/// Whether an expression is `(x ~ y)* ~ x` with an `x` that may fail.
fn is_list(expr: &Expr, optional: &HashSet<&str>) -> bool
    ensures { (f : Text → Bool) → HasNames f optional.now
        → result ≡ spec.is_list f (expression_of expr.now) }
{
    match expr {
        Expr::Seq(left, right) => match &**left {
            Expr::Rep(inner) => match &**inner {
                Expr::Seq(x, _) => !cannot_fail(x, optional) && **x == **right,
                _ => false,
            },
            _ => false,
        },
        _ => false,
    }
}

/// Whether an expression cannot fail, as an option, a repetition, and a call of one of these rules.
fn cannot_fail(expr: &Expr, optional: &HashSet<&str>) -> bool
    ensures { (f : Text → Bool) → HasNames f optional.now
        → result ≡ spec.cannot_fail f (expression_of expr.now) }
{
    match expr {
        Expr::Opt(_) | Expr::Rep(_) | Expr::RepMax(_, _) => true,
        Expr::Str(text) => text.as_str().is_empty(),
        Expr::Ident(name) => is_among(name, optional),
        _ => false,
    }
}
