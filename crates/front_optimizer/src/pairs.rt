//! Expressions with two operands.
ghost use Rattle.std.specs.Prelude.{◌≡◌, IfOk};
ghost use Rattle.base_language.specs.Language.Expression.{Choice, Seq};
ghost use Rattle.base_ast.specs.Ast.{expression_of};

use base_ast::ast::Expr;
use base_ast::deep::Deep;
use std::alloc::{AllocError, Global};

/// Makes `left ~ right`. If memory is refused, both are dropped iteratively.
pub(crate) fn sequence_of(
    alloc: Global,
    left: Deep<Expr>,
    right: Deep<Expr>,
) -> Result<Expr, AllocError>
    ensures { IfOk result
        (λ e. expression_of e ≡ Seq (expression_of left.value) (expression_of right.value)) }
{
    let left = left.into_box(alloc)?;
    let right = right.into_box(alloc)?;
    Ok(Expr::Seq(left.into_inner(), right.into_inner()))
}

/// Makes `left | right`. If memory is refused, both are dropped iteratively.
pub(crate) fn choice_of(
    alloc: Global,
    left: Deep<Expr>,
    right: Deep<Expr>,
) -> Result<Expr, AllocError>
    ensures { IfOk result
        (λ e. expression_of e ≡ Choice (expression_of left.value) (expression_of right.value)) }
{
    let left = left.into_box(alloc)?;
    let right = right.into_box(alloc)?;
    Ok(Expr::Choice(left.into_inner(), right.into_inner()))
}
