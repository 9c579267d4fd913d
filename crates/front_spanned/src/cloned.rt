//! Clones of nodes, expressions and rules. A clone that is given equals its source.
ghost use Rattle.std.specs.Prelude.{◌≡◌, IfOk};
ghost use Rattle.front_spanned.specs.Nodes.{rule_view, view, IsSameExpression};

use crate::node::{ParserExpr, ParserNode, ParserRule};
use crate::shaped::{enclose_expr, expr_shape, join_exprs};
use base_ast::deep::Deep;
use base_ast::shape::{Shape, copy_box, copy_tree};
use std::alloc::AllocError;

impl<'i> Clone for ParserRule<'i> {
    ghost is_clone = { λ rule copy. rule_view copy ≡ rule_view rule };

    fn clone(&self) -> Result<ParserRule<'i>, AllocError> {
        Ok(ParserRule {
            name: self.name.clone()?,
            span: self.span,
            ty: self.ty,
            node: self.node.clone()?,
        })
    }
}

impl<'i> Clone for ParserNode<'i> {
    ghost is_clone = { λ node copy. view copy ≡ view node };

    fn clone(&self) -> Result<ParserNode<'i>, AllocError> {
        copy_tree(self)
    }
}

impl<'i> Clone for ParserExpr<'i> {
    ghost is_clone = { λ expr copy. IsSameExpression copy expr };

    fn clone(&self) -> Result<ParserExpr<'i>, AllocError> {
        copy_expr(self)
    }
}

/// Copies an expression. The only error is allocation failure.
fn copy_expr<'i>(expr: &ParserExpr<'i>) -> Result<ParserExpr<'i>, AllocError>
    ensures { IfOk result (λ copy. IsSameExpression copy expr.now) }
{
    match expr_shape(expr)? {
        Shape::Leaf(copy) => Ok(copy),
        Shape::One(sign, operand) => Ok(enclose_expr(sign, copy_box(operand)?)),
        Shape::Two(joint, left, right) => {
            let left = Deep {
                value: copy_box(left)?,
            };
            let right = copy_box(right)?;
            Ok(join_exprs(joint, left.into_inner(), right))
        }
    }
}
