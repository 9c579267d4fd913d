//! The pass `list`: `(x ~ y)* ~ x` as `x ~ (y ~ x)*`.
ghost use Rattle.std.specs.Prelude.{◌≡◌, IfErr, IfOk};
ghost use Rattle.std.specs.Bool.{OnTrue};
ghost use Rattle.base_language.specs.Language.Expression.{Rep, Seq};
ghost use Rattle.base_language.specs.Rewritings.Listing.{listed, listed_sequence};
ghost use Rattle.base_ast.specs.Ast.{text_of, expression_of, rule_type_of};
ghost use Rattle.base_language.specs.Pieces.Faults.{IsMemory};
ghost use Rattle.front_optimizer.specs.Here.{listed_here};
ghost use Rattle.front_optimizer.specs.Listed.{KeepsMatches};

use crate::Fault;
use crate::pairs::sequence_of;
use crate::traversal::{Finish, Pass, bottom_up};
use base_ast::ast::{Expr, Rule};
use base_ast::deep::Deep;
use std::alloc::{AllocError, Global};

/// Rewrites each `(x ~ y)* ~ x` in the rule to `x ~ (y ~ x)*`, inner ones first. Name and type stay. If an
/// Atomic or CompoundAtomic rule is such a list, the result matches everything that the rule matched.
/// Otherwise a rewritten rule may match other texts.
///
/// # Errors
/// `Fault::Memory` if an allocation fails.
pub fn list(alloc: Global, rule: Rule) -> Result<Rule, Fault>
    ensures name { IfOk result (λ r. text_of r.name ≡ text_of rule.name) }
    ensures ty { IfOk result (λ r. r.ty ≡ rule.ty) }
    ensures listed { IfOk result (λ r. expression_of r.expr ≡ listed (expression_of rule.expr)) }
    ensures matches { IfOk result
        (λ r. KeepsMatches (rule_type_of rule.ty) (expression_of rule.expr) (expression_of r.expr)) }
    ensures memory { IfErr result IsMemory }
{
    let Rule { name, ty, expr } = rule;
    let expr = bottom_up(alloc, &Lister, expr)?;
    Ok(Rule { name, ty, expr })
}

#[derive(Drop)]
struct Lister;

impl Pass for Lister {
    ghost gives = { λ _ a b. listed_here a ≡ b };

    fn stays_at(&self, node: &Expr) -> bool {
        match node {
            Expr::Seq(left, right) => is_no_list(left, right),
            _ => true,
        }
    }
}

impl Finish for Lister {
    fn finish(&self, alloc: Global, expr: Expr) -> Result<Expr, AllocError> {
        match expr {
            Expr::Seq(left, right) => list_sequence(
                alloc,
                Box::into_inner(left),
                Box::into_inner(right),
            ),
            other => Ok(other),
        }
    }
}

// Reports whether `left ~ right` stays.
fn is_no_list(left: &Expr, right: &Expr) -> bool
    ensures { OnTrue result
        (listed_sequence (expression_of left.now) (expression_of right.now)
        ≡ Seq (expression_of left.now) (expression_of right.now)) }
{
    match left {
        Expr::Rep(inner) => match &**inner {
            Expr::Seq(x, _) => **x != *right,
            _ => true,
        },
        _ => true,
    }
}

// Lists `left ~ right`.
fn list_sequence(alloc: Global, left: Expr, right: Expr) -> Result<Expr, AllocError>
    ensures { IfOk result
        (λ e. expression_of e ≡ listed_sequence (expression_of left) (expression_of right)) }
{
    let right = Deep { value: right };
    match left {
        Expr::Rep(inner) => match Box::into_inner(inner) {
            Expr::Seq(x, y) => {
                if *x == right.value {
                    let (x, y) = (Deep { value: x }, Deep { value: y });
                    return make_list(alloc, x, y, right);
                }
                let turn = Expr::Seq(x, y);
                repeat_then(alloc, Deep { value: turn }, right)
            }
            turn => repeat_then(alloc, Deep { value: turn }, right),
        },
        left => sequence_of(alloc, Deep { value: left }, right),
    }
}

// Makes `x ~ (y ~ right)*`.
fn make_list(
    alloc: Global,
    x: Deep<Box<Expr>>,
    y: Deep<Box<Expr>>,
    right: Deep<Expr>,
) -> Result<Expr, AllocError>
    ensures { IfOk result (λ e. expression_of e ≡ Seq (expression_of x.value.value)
        (Rep (Seq (expression_of y.value.value) (expression_of right.value)))) }
{
    let right = right.into_box(alloc)?;
    let turn = Expr::Seq(y.into_inner(), right.into_inner());
    let turn = Deep { value: turn }.into_box(alloc)?;
    let turns = Expr::Rep(turn.into_inner());
    let turns = Deep { value: turns }.into_box(alloc)?;
    Ok(Expr::Seq(x.into_inner(), turns.into_inner()))
}

// Makes `turn* ~ right`.
fn repeat_then(alloc: Global, turn: Deep<Expr>, right: Deep<Expr>) -> Result<Expr, AllocError>
    ensures { IfOk result
        (λ e. expression_of e ≡ Seq (Rep (expression_of turn.value)) (expression_of right.value)) }
{
    let turn = turn.into_box(alloc)?;
    let turns = Expr::Rep(turn.into_inner());
    sequence_of(alloc, Deep { value: turns }, right)
}
