//! The pass `rotate`, which nests `~` and `|` to the right.
ghost use Rattle.std.specs.Prelude.{◌≡◌, ◌≤◌, ◌+◌, IfErr, IfOk};
ghost use Rattle.base_language.specs.Language.Expression.{Seq, Choice};
ghost use Rattle.base_language.specs.Rewritings.Replacing.{KeepsOutcomes, IsChained};
ghost use Rattle.base_language.specs.Rewritings.Rewriting.{IsDone, Rotates};
ghost use Rattle.base_ast.specs.Ast.{text_of, expression_of, rule_of_code};
ghost use Rattle.base_language.specs.Pieces.Faults.{IsMemory};
ghost use Rattle.front_optimizer.specs.Here.{Exhausted};
ghost use Rattle.base_ast.specs.Operands.{count_of_nodes};

use crate::Fault;
use crate::traversal::{Pass, Shrink, top_down};
use base_ast::ast::{Expr, Rule};
use base_ast::shape::Shaped;
use std::alloc::{AllocError, Global};

/// Returns the rule with `~` and `|` nested to the right: `(a ~ b) ~ c` becomes `a ~ (b ~ c)`, and so for
/// `|`, until no `~` has a `~` on its left and no `|` a `|`. Name and type stay, and in every grammar
/// that has the rule, the rule that is given has the same outcomes from every start. The only fault is an
/// allocation failure.
pub fn rotate(alloc: Global, rule: Rule) -> Result<Rule, Fault>
    ensures name { IfOk result (λ r. text_of r.name ≡ text_of rule.name) }
    ensures ty { IfOk result (λ r. r.ty ≡ rule.ty) }
    ensures done { IfOk result (λ r. IsDone Rotates (expression_of rule.expr) (expression_of r.expr)) }
    ensures chain { IfOk result (λ r. IsChained (rule_of_code rule) (rule_of_code r)) }
    ensures outcomes { IfOk result (λ r. KeepsOutcomes (rule_of_code rule) (rule_of_code r)) }
    ensures memory { IfErr result IsMemory }
{
    let Rule { name, ty, expr } = rule;
    let expr = top_down(alloc, &Rotator, expr)?;
    Ok(Rule { name, ty, expr })
}

#[derive(Drop)]
struct Rotator;

impl Pass for Rotator {
    ghost gives = { λ _. Exhausted Rotates };

    fn stays_at(&self, node: &Expr) -> bool {
        match node {
            Expr::Seq(left, _) => match &**left {
                Expr::Seq(..) => false,
                _ => true,
            },
            Expr::Choice(left, _) => match &**left {
                Expr::Choice(..) => false,
                _ => true,
            },
            _ => true,
        }
    }
}

impl Shrink for Rotator {
    fn shrink(&self, _: Global, expr: Expr) -> Result<Expr, AllocError> {
        match expr {
            Expr::Seq(left, right) => Ok(sequence(left, right)),
            Expr::Choice(left, right) => Ok(choice(left, right)),
            other => Ok(other),
        }
    }
}

// Makes `left ~ right`, and moves each `~` of the left side to the right.
fn sequence(left: Box<Expr>, right: Box<Expr>) -> Expr
    ensures gives { Exhausted Rotates (Seq (expression_of left.value) (expression_of right.value))
        (expression_of result) }
    ensures smaller { count_of_nodes (expression_of result)
        ≤ count_of_nodes (expression_of left.value) + count_of_nodes (expression_of right.value) + 1 }
{
    let mut left = left;
    let mut right = right;
    'turn: loop {
        match Expr::take(&mut left) {
            Expr::Seq(first, second) => {
                let _ = Box::replace(&mut left, Expr::Seq(second, right));
                right = left;
                left = first;
            }
            other => {
                let _ = Box::replace(&mut left, other);
                return Expr::Seq(left, right);
            }
        }
    }
}

// Makes `left | right`, and moves each `|` of the left side to the right.
fn choice(left: Box<Expr>, right: Box<Expr>) -> Expr
    ensures gives { Exhausted Rotates (Choice (expression_of left.value) (expression_of right.value))
        (expression_of result) }
    ensures smaller { count_of_nodes (expression_of result)
        ≤ count_of_nodes (expression_of left.value) + count_of_nodes (expression_of right.value) + 1 }
{
    let mut left = left;
    let mut right = right;
    'turn: loop {
        match Expr::take(&mut left) {
            Expr::Choice(first, second) => {
                let _ = Box::replace(&mut left, Expr::Choice(second, right));
                right = left;
                left = first;
            }
            other => {
                let _ = Box::replace(&mut left, other);
                return Expr::Choice(left, right);
            }
        }
    }
}
