//! The pass `factor`, which takes out the common part of two alternatives.
ghost use Rattle.std.specs.Prelude.{◌≡◌, ◌≤◌, IfErr, IfOk};
ghost use Rattle.std.specs.Bool.{OnTrue};
ghost use Rattle.base_language.specs.Language.Expression.{Choice, Seq};
ghost use Rattle.base_language.specs.Rewritings.Replacing.{KeepsOutcomes, IsChained};
ghost use Rattle.base_language.specs.Rewritings.Rewriting.{Many, Factors};
ghost use Rattle.base_ast.specs.Ast.{text_of, expression_of, rule_of_code, rule_type_of};
ghost use Rattle.base_language.specs.Pieces.Faults.{IsMemory};
ghost use Rattle.front_optimizer.specs.Here.{factored_here, factored_choice, with_optional};
ghost use Rattle.base_ast.specs.Operands.{count_of_nodes};
ghost use Rattle.front_optimizer.specs.Traversals.{TopDown};

use crate::Fault;
use crate::pairs::choice_of;
use crate::traversal::{Pass, Shrink, top_down};
use base_ast::ast::{Expr, Rule, RuleType};
use base_ast::deep::Deep;
use std::alloc::{AllocError, Global};

/// Returns the rule with the common part of two alternatives taken out, once at each choice, from the
/// root down: `(l ~ r) | (l ~ q)` becomes `l ~ (r | q)`; in the two atomic types `(l ~ r) | l` becomes `l
/// ~ r?`; `l | (l ~ r)` becomes `l`. Name and type stay, and so do the outcomes from every start, in
/// every grammar that has the rule. The only fault is an allocation failure.
pub fn factor(alloc: Global, rule: Rule) -> Result<Rule, Fault>
    ensures name { IfOk result (λ r. text_of r.name ≡ text_of rule.name) }
    ensures ty { IfOk result (λ r. r.ty ≡ rule.ty) }
    ensures steps { IfOk result
        (λ r. Many (Factors (rule_type_of rule.ty)) (expression_of rule.expr) (expression_of r.expr)) }
    ensures factored { IfOk result
        (λ r. TopDown (λ a b. factored_here (rule_type_of rule.ty) a ≡ b) (expression_of rule.expr)
        (expression_of r.expr)) }
    ensures chain { IfOk result (λ r. IsChained (rule_of_code rule) (rule_of_code r)) }
    ensures outcomes { IfOk result (λ r. KeepsOutcomes (rule_of_code rule) (rule_of_code r)) }
    ensures memory { IfErr result IsMemory }
{
    let Rule { name, ty, expr } = rule;
    let expr = top_down(alloc, &Factorizer { ty }, expr)?;
    Ok(Rule { name, ty, expr })
}

#[derive(Drop)]
struct Factorizer {
    ty: RuleType,
}

impl Pass for Factorizer {
    ghost gives = { λ s a b. factored_here (rule_type_of s.ty) a ≡ b };

    fn stays_at(&self, node: &Expr) -> bool {
        match node {
            Expr::Choice(left, right) => has_nothing_common(self.ty, left, right),
            _ => true,
        }
    }
}

impl Shrink for Factorizer {
    fn shrink(&self, alloc: Global, expr: Expr) -> Result<Expr, AllocError> {
        match expr {
            Expr::Choice(left, right) => factor_choice(alloc, self.ty, left, right),
            other => Ok(other),
        }
    }
}

// Reports whether `left | right` stays.
fn has_nothing_common(ty: RuleType, left: &Expr, right: &Expr) -> bool
    ensures { OnTrue result
        (factored_choice (rule_type_of ty) (expression_of left.now) (expression_of right.now)
        ≡ Choice (expression_of left.now) (expression_of right.now)) }
{
    match (left, right) {
        (Expr::Seq(front, _), Expr::Seq(other, _)) => **front != **other,
        (Expr::Seq(front, _), single) => match ty {
            RuleType::Atomic | RuleType::CompoundAtomic => **front != *single,
            _ => true,
        },
        (single, Expr::Seq(front, _)) => *single != **front,
        _ => true,
    }
}

// Factors `left | right`.
fn factor_choice(
    alloc: Global,
    ty: RuleType,
    left: Box<Expr>,
    right: Box<Expr>,
) -> Result<Expr, AllocError>
    ensures { IfOk result
        (λ e. expression_of e ≡ factored_choice (rule_type_of ty) (expression_of left.value)
        (expression_of right.value)) }
{
    match Box::into_inner(left) {
        Expr::Seq(front, back) => match (ty, Box::into_inner(right)) {
            (_, Expr::Seq(other_front, other_back)) => {
                if *front == *other_front {
                    Box::into_inner(other_front).release();
                    return make_sequence(alloc, front, Expr::Choice(back, other_back));
                }
                make_choice(
                    alloc,
                    Expr::Seq(front, back),
                    Expr::Seq(other_front, other_back),
                )
            }
            (RuleType::Atomic | RuleType::CompoundAtomic, right) => factor_optional(
                alloc, front, back, right,
            ),
            (_, right) => make_choice(alloc, Expr::Seq(front, back), right),
        },
        left => match Box::into_inner(right) {
            Expr::Seq(front, back) => {
                if left == *front {
                    Expr::Seq(front, back).release();
                    return Ok(left);
                }
                make_choice(alloc, left, Expr::Seq(front, back))
            }
            right => make_choice(alloc, left, right),
        },
    }
}

// Makes `front ~ back`.
fn make_sequence(alloc: Global, front: Box<Expr>, back: Expr) -> Result<Expr, AllocError>
    ensures { IfOk result
        (λ e. expression_of e ≡ Seq (expression_of front.value) (expression_of back)) }
{
    let front = Deep { value: front };
    let back = Deep { value: back }.into_box(alloc)?;
    Ok(Expr::Seq(front.into_inner(), back.into_inner()))
}

// Makes `left | right`.
fn make_choice(alloc: Global, left: Expr, right: Expr) -> Result<Expr, AllocError>
    ensures { IfOk result
        (λ e. expression_of e ≡ Choice (expression_of left) (expression_of right)) }
{
    choice_of(alloc, Deep { value: left }, Deep { value: right })
}

// Factors `(front ~ back) | right` in the atomic types.
fn factor_optional(
    alloc: Global,
    front: Box<Expr>,
    back: Box<Expr>,
    right: Expr,
) -> Result<Expr, AllocError>
    ensures { IfOk result
        (λ e. expression_of e ≡ with_optional (expression_of front.value) (expression_of back.value)
        (expression_of right)) }
{
    if *front == right {
        right.release();
        return make_sequence(alloc, front, Expr::Opt(back));
    }
    make_choice(alloc, Expr::Seq(front, back), right)
}
