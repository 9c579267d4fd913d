//! Optimized expressions, read from their nodes in preorder. Stack use does not depend on nesting depth.
ghost use Rattle.std.specs.Prelude.{◌≡◌, ℕ, suc, List, ◌++◌, IfErr, IfOk, MatchOption};
ghost use Rattle.base_ast.specs.declared.optimized.OptimizedExpr.{OptimizedExpr};
ghost use Rattle.format_binary.specs.Format.{optimized_expression_bytes};
ghost use Rattle.format_binary.specs.declared.input.BinaryRefusal.TheVariants.{Form};
ghost use Rattle.format_binary.specs.Fronts.{BeginsWithExpression, missing};
ghost use Rattle.format_binary.specs.Indices.{HasIndices};
ghost use Rattle.format_binary.specs.Reading.{AreWithin, open_bytes};

use crate::input::{BinaryRefusal, ByteInput};
use crate::operators::{FirstNode, OneOperator, TwoOperator, read_node};
use base_ast::deep::Deep;
use base_ast::optimized::OptimizedExpr;
use std::alloc::{AllocError, Global};

/// An operator that lacks operands.
#[derive(Drop)]
pub(crate) enum OpenOperator {
    /// One that has one operand.
    One(OneOperator),
    /// One that lacks both its operands.
    First(TwoOperator),
    /// One that lacks its second operand, and the first.
    Second(TwoOperator, Deep<Box<OptimizedExpr>>),
}

/// Reads an optimized expression.
pub(crate) fn read_expression(
    alloc: Global,
    input: &mut ByteInput<'_>,
) -> Result<OptimizedExpr, BinaryRefusal>
    ensures read { IfOk result (λ expr.
        input.old.rest.now ≡ optimized_expression_bytes expr ++ input.new.rest.now) }
    ensures indices { IfOk result HasIndices }
    ensures follows { IfOk result (λ expr. (x : OptimizedExpr) (rest : List ℕ)
        → input.old.rest.now ≡ optimized_expression_bytes x ++ rest → input.new.rest.now ≡ rest) }
    ensures refused { IfErr result (λ why. why ≡ Form → BeginsWithExpression input.old.rest.now → ⊥) }
{
    let mut waiting = Vec::new(alloc);
    'nodes: loop {
        match read_node(alloc, input)? {
            FirstNode::One(operator) => waiting.push(OpenOperator::One(operator))?,
            FirstNode::Two(operator) => waiting.push(OpenOperator::First(operator))?,
            FirstNode::Whole(expr) => {
                if let Some(whole) = close(alloc, &mut waiting, expr)? {
                    return Ok(whole);
                }
            }
        }
    }
}

/// Gives an expression to the operators that lack one. Returns the whole if no operand is missing then.
fn close(
    alloc: Global,
    waiting: &mut Vec<OpenOperator>,
    expr: OptimizedExpr,
) -> Result<Option<OptimizedExpr>, AllocError>
    ensures bytes { IfOk result (λ closed. MatchOption closed
        (open_bytes waiting.new.items ≡ open_bytes waiting.old.items ++ optimized_expression_bytes expr)
        (λ whole. optimized_expression_bytes whole
        ≡ open_bytes waiting.old.items ++ optimized_expression_bytes expr)) }
    ensures indices { AreWithin waiting.old.items → HasIndices expr
        → IfOk result (λ closed. MatchOption closed (AreWithin waiting.new.items) HasIndices) }
    ensures missing { IfOk result (λ closed. MatchOption closed
        (missing waiting.old.items ≡ suc (missing waiting.new.items))
        (λ whole. missing waiting.old.items ≡ 0)) }
{
    let mut made = Deep { value: expr };
    'operators: while let Some(operator) = waiting.pop() {
        let inner = made.into_box(alloc)?;
        match operator {
            OpenOperator::One(operator) => {
                made = Deep {
                    value: operator.around(inner.into_inner()),
                };
            }
            OpenOperator::First(operator) => {
                waiting.push(OpenOperator::Second(operator, inner))?;
                return Ok(None);
            }
            OpenOperator::Second(operator, left) => {
                made = Deep {
                    value: operator.between(left.into_inner(), inner.into_inner()),
                };
            }
        }
    }
    Ok(Some(made.into_inner()))
}
