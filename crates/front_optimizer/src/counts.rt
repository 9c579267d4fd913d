//! Tests of readable counts.
ghost use Rattle.std.specs.Prelude.{◌↔◌, IfOk, IsTrue};
ghost use Rattle.base_language.specs.Language.WellFormed.{CountIsReadable, HasReadableCounts};
ghost use Rattle.base_ast.specs.Ast.{expression_of, rules_of};
ghost use Rattle.front_optimizer.specs.Counts.{IsNoPair, PartsAreReadable};

use crate::traversal::{Children, children_of};
use base_ast::ast::{Expr, Rule};
use std::alloc::{AllocError, Global};

/// Reports whether nothing in the rules may be repeated 0 times at most, so that each count of `e{n}` and
/// `e{,n}` and each upper one of `e{m, n}` is at least 1. For no rules the answer is yes.
pub fn counts_are_readable(rules: &Vec<Rule>) -> bool
    ensures { IsTrue result ↔ HasReadableCounts (rules_of rules.now.items) }
{
    for rule in rules {
        if !is_readable(*rules.allocator(), &rule.expr) {
            return false;
        }
    }
    true
}

// Tests an expression iteratively, or recursively if memory for the worklist is refused.
fn is_readable(alloc: Global, expr: &Expr) -> bool
    ensures { IsTrue result ↔ PartsAreReadable (expression_of expr.now) }
{
    match is_readable_by_list(alloc, expr) {
        Ok(answer) => answer,
        Err(_) => is_readable_by_calls(expr),
    }
}

// Tests an expression iteratively. The only fault is an allocation failure.
fn is_readable_by_list(alloc: Global, expr: &Expr) -> Result<bool, AllocError>
    ensures { IfOk result (λ answer. IsTrue answer ↔ PartsAreReadable (expression_of expr.now)) }
{
    let mut waiting = Vec::new(alloc);
    waiting.push(expr)?;
    'nodes: while let Some(node) = waiting.pop() {
        if !has_readable_count(node) {
            return Ok(false);
        }
        match children_of(node) {
            Children::Nothing => {}
            Children::One(inner) => {
                waiting.push(inner)?;
            }
            Children::Two(left, right) => {
                waiting.push(right)?;
                waiting.push(left)?;
            }
        }
    }
    Ok(true)
}

// Reports whether an expression is no count of at most 0; its operands are not tested.
fn has_readable_count(expr: &Expr) -> bool
    ensures { IsTrue result ↔ CountIsReadable (expression_of expr.now) }
{
    match expr {
        Expr::RepExact(_, count) => *count > 0,
        Expr::RepMax(_, max) => *max > 0,
        Expr::RepMinMax(_, _, max) => *max > 0,
        _ => true,
    }
}

// Tests an expression recursively. A `~` or `|` is walked along the side on which its own operator is.
#[cycle(is_readable_by_calls)]
fn is_readable_by_calls(expr: &Expr) -> bool
    ensures { IsTrue result ↔ PartsAreReadable (expression_of expr.now) }
{
    let mut rest = expr;
    'along: loop {
        match rest {
            Expr::Seq(left, right) => match &**left {
                Expr::Seq(..) => {
                    if !is_readable_by_calls(right) {
                        return false;
                    }
                    rest = left;
                }
                _ => {
                    if !is_readable_by_calls(left) {
                        return false;
                    }
                    rest = right;
                }
            },
            Expr::Choice(left, right) => match &**left {
                Expr::Choice(..) => {
                    if !is_readable_by_calls(right) {
                        return false;
                    }
                    rest = left;
                }
                _ => {
                    if !is_readable_by_calls(left) {
                        return false;
                    }
                    rest = right;
                }
            },
            single => return is_single_readable(single),
        }
    }
}

// Tests an expression recursively that is neither `~` nor `|`.
#[cycle(is_readable_by_calls)]
fn is_single_readable(expr: &Expr) -> bool
    requires { IsNoPair (expression_of expr.now) }
    ensures { IsTrue result ↔ PartsAreReadable (expression_of expr.now) }
{
    match expr {
        Expr::PosPred(inner) => is_readable_by_calls(inner),
        Expr::NegPred(inner) => is_readable_by_calls(inner),
        Expr::Opt(inner) => is_readable_by_calls(inner),
        Expr::Rep(inner) => is_readable_by_calls(inner),
        Expr::RepOnce(inner) => is_readable_by_calls(inner),
        Expr::RepExact(inner, count) => *count > 0 && is_readable_by_calls(inner),
        Expr::RepMin(inner, _) => is_readable_by_calls(inner),
        Expr::RepMax(inner, max) => *max > 0 && is_readable_by_calls(inner),
        Expr::RepMinMax(inner, _, max) => *max > 0 && is_readable_by_calls(inner),
        Expr::Push(inner) => is_readable_by_calls(inner),
        Expr::NodeTag(inner, _) => is_readable_by_calls(inner),
        _ => true,
    }
}
