//! The pass `unroll`, which writes counted repetitions out.
ghost use Rattle.std.specs.Prelude.{◌≡◌, ◌<◌, ◌∷◌, ◌++◌, replicate, IfErr, IfOk, List};
ghost use Rattle.base_language.specs.Language.Expression.{Expression, Opt};
ghost use Rattle.base_language.specs.Language.Meaning.{in_sequence, exactly, at_least, from_to};
ghost use Rattle.base_language.specs.Rewritings.Replacing.{KeepsOutcomes, IsChained};
ghost use Rattle.base_language.specs.Rewritings.Rewriting.{Many, Unrolls};
ghost use Rattle.base_ast.specs.Ast.{text_of, expression_of, rule_of_code};
ghost use Rattle.base_language.specs.Pieces.Faults.{IsMemory};
ghost use Rattle.front_optimizer.specs.Here.{unrolled_here};
ghost use Rattle.front_optimizer.specs.Unrolled.{IsUnrolled};

use crate::Fault;
use crate::pairs::sequence_of;
use crate::traversal::{Finish, Pass, bottom_up};
use base_ast::ast::{Expr, Rule};
use base_ast::deep::Deep;
use std::alloc::{AllocError, Global};

/// Returns the rule with counted repetitions written out as the copies that they mean, nested to the
/// right: `e{2,}` as `e ~ e ~ e*`, `e{,2}` as `e? ~ e?`, `e{1, 2}` as `e ~ e?`; a count of 0 leaves the
/// empty text. `e*` and `e+` stay as they are. Name and type stay, and so do the outcomes from every
/// start, in every grammar that has the rule. The only fault is an allocation failure.
pub fn unroll(alloc: Global, rule: Rule) -> Result<Rule, Fault>
    ensures name { IfOk result (λ r. text_of r.name ≡ text_of rule.name) }
    ensures ty { IfOk result (λ r. r.ty ≡ rule.ty) }
    ensures steps { IfOk result (λ r. Many Unrolls (expression_of rule.expr) (expression_of r.expr)) }
    ensures unrolled { IfOk result (λ r. IsUnrolled (expression_of r.expr)) }
    ensures chain { IfOk result (λ r. IsChained (rule_of_code rule) (rule_of_code r)) }
    ensures outcomes { IfOk result (λ r. KeepsOutcomes (rule_of_code rule) (rule_of_code r)) }
    ensures memory { IfErr result IsMemory }
{
    let Rule { name, ty, expr } = rule;
    let expr = bottom_up(alloc, &Unroller, expr)?;
    Ok(Rule { name, ty, expr })
}

#[derive(Drop)]
struct Unroller;

impl Pass for Unroller {
    ghost gives = { λ _ a b. unrolled_here a ≡ b };

    fn stays_at(&self, node: &Expr) -> bool {
        match node {
            Expr::RepExact(..) | Expr::RepMin(..) => false,
            Expr::RepMax(..) | Expr::RepMinMax(..) => false,
            _ => true,
        }
    }
}

impl Finish for Unroller {
    fn finish(&self, alloc: Global, expr: Expr) -> Result<Expr, AllocError> {
        match expr {
            Expr::RepExact(inner, count) => exact(alloc, unbox(inner), count),
            Expr::RepMin(inner, min) => min_or_more(alloc, unbox(inner), min),
            Expr::RepMax(inner, max) => exact(
                alloc,
                Deep {
                    value: Expr::Opt(inner),
                },
                max,
            ),
            Expr::RepMinMax(inner, min, max) => min_to_max(alloc, unbox(inner), min, max),
            other => Ok(other),
        }
    }
}

fn unbox(inner: Box<Expr>) -> Deep<Expr>
    ensures { result.value ≡ inner.value }
{
    Deep {
        value: Box::into_inner(inner),
    }
}

fn copy_of(expr: &Expr) -> Result<Deep<Expr>, AllocError>
    ensures { IfOk result (λ copy. expression_of copy.value ≡ expression_of expr.now) }
{
    Ok(Deep {
        value: expr.clone()?,
    })
}

// Makes `min` copies, and then `e*`.
fn min_or_more(alloc: Global, expr: Deep<Expr>, min: u32) -> Result<Expr, AllocError>
    ensures { IfOk result (λ e. expression_of e ≡ at_least (expression_of expr.value) min) }
{
    if min == 0 {
        return Ok(Expr::Rep(expr.into_box(alloc)?.into_inner()));
    }
    let copy = copy_of(&expr.value)?.into_box(alloc)?;
    let others = Deep {
        value: Expr::Rep(copy.into_inner()),
    };
    repeat_before(alloc, expr, min, others)
}

// Makes `count` copies in sequence.
fn exact(alloc: Global, expr: Deep<Expr>, count: u32) -> Result<Expr, AllocError>
    ensures { IfOk result (λ e. expression_of e ≡ exactly (expression_of expr.value) count) }
{
    if count == 0 {
        return Ok(Expr::Str(String::new(alloc)));
    }
    if count == 1 {
        return Ok(expr.into_inner());
    }
    let last = copy_of(&expr.value)?;
    repeat_before(alloc, expr, count - 1, last)
}

// Makes from `min` to `max` copies.
fn min_to_max(alloc: Global, expr: Deep<Expr>, min: u32, max: u32) -> Result<Expr, AllocError>
    ensures { IfOk result (λ e. expression_of e ≡ from_to (expression_of expr.value) min max) }
{
    if max <= min {
        return exact(alloc, expr, max);
    }
    if min == 0 {
        return exact(alloc, make_optional(alloc, expr)?, max);
    }
    let copy = copy_of(&expr.value)?;
    let others = exact(alloc, make_optional(alloc, copy)?, max - min)?;
    repeat_before(alloc, expr, min, Deep { value: others })
}

// Makes an expression optional.
fn make_optional(alloc: Global, expr: Deep<Expr>) -> Result<Deep<Expr>, AllocError>
    ensures { IfOk result (λ e. expression_of e.value ≡ Opt (expression_of expr.value)) }
{
    let inner = expr.into_box(alloc)?;
    Ok(Deep {
        value: Expr::Opt(inner.into_inner()),
    })
}

// Makes `count` copies, at least one, of which the first is the expression itself, and puts `others`
// after them.
fn repeat_before(
    alloc: Global,
    expr: Deep<Expr>,
    count: u32,
    others: Deep<Expr>,
) -> Result<Expr, AllocError>
    requires { 0 < count }
    ensures { IfOk result (λ r. (f : Expression) (fs : List Expression)
        → expression_of others.value ≡ in_sequence (f ∷ fs)
        → expression_of r ≡ in_sequence (replicate count (expression_of expr.value) ++ (f ∷ fs))) }
{
    let behind = copies(alloc, &expr.value, count - 1, others)?;
    sequence_of(alloc, expr, behind)
}

// Makes `count` copies, and puts `others` after them.
fn copies(
    alloc: Global,
    expr: &Expr,
    count: u32,
    others: Deep<Expr>,
) -> Result<Deep<Expr>, AllocError>
    ensures { IfOk result (λ r. (f : Expression) (fs : List Expression)
        → expression_of others.value ≡ in_sequence (f ∷ fs)
        → expression_of r.value ≡ in_sequence (replicate count (expression_of expr.now) ++ (f ∷ fs))) }
{
    let mut sequence = others;
    for turn in 0..count {
        let copy = copy_of(expr)?;
        let longer = sequence_of(alloc, copy, sequence)?;
        sequence = Deep { value: longer };
    }
    Ok(sequence)
}
